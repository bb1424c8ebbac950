// The exports. Each is refused with 1 where there is no such space. What the lent bytes hold after a batch is not said here: a batch runs on an index
// over any store, and its contracts speak of the store's meaning, not of the loan.
ghost use Rattle.std.specs.Prelude.{◌≡◌, length};
ghost use Rattle.orders.specs.Spaces.{Range};
ghost use Rattle.pages.specs.Cut.{held};
ghost use Rattle.exports.specs.Batches.{z_order, FormatBatch, LodgeBatch, SearchBatch, TallyBatch};

use crate::batch::{Batch, Corners, Searched, format, lodge_all, search_all, tally_all};
use orders::order::ZOrder;
use orders::space::Space;
use pages::memory::MemoryStore;
use searches::find::Find;

// FormatBatch the index.
#[unsafe(no_mangle)]
pub extern "C" fn exports_format(bytes: &mut [u8], n: u8, p: u8, charge: u32) -> Batch
    ensures space { (Range n p → ⊥) → (result ≡ record { done = 0; refusal = 1 }) × (bytes.new ≡ bytes.old) }
    ensures formats { Range n p → FormatBatch (z_order n p) (held bytes.old 0) charge result }
{
    match Space::new(n, p) {
        Ok(space) => format(MemoryStore::over(bytes), ZOrder::over(space), charge),
        Err(refusal) => Batch {
            done: 0,
            refusal: refusal.number(),
        },
    }
}

// Opens the index and lodges one event at each point, up to the first refusal.
#[unsafe(no_mangle)]
pub extern "C" fn exports_lodge(
    bytes: &mut [u8],
    n: u8,
    p: u8,
    charge: u32,
    points: &[[u16; 4]],
) -> Batch
    ensures space { (Range n p → ⊥) → (result ≡ record { done = 0; refusal = 1 }) × (bytes.new ≡ bytes.old) }
    ensures lodges { Range n p → LodgeBatch (z_order n p) (held bytes.old 0) charge points.now result }
{
    match Space::new(n, p) {
        Ok(space) => lodge_all(
            MemoryStore::over(bytes),
            ZOrder::over(space),
            charge,
            points,
        ),
        Err(refusal) => Batch {
            done: 0,
            refusal: refusal.number(),
        },
    }
}

// Opens the index and tallies each point, up to the first refusal or the end of the counts.
#[unsafe(no_mangle)]
pub extern "C" fn exports_tally(
    bytes: &mut [u8],
    n: u8,
    p: u8,
    charge: u32,
    points: &[[u16; 4]],
    counts: &mut [u16],
) -> Batch
    ensures space { (Range n p → ⊥) → (result ≡ record { done = 0; refusal = 1 }) × (bytes.new ≡ bytes.old) × (counts.new ≡ counts.old) }
    ensures tallies { Range n p → TallyBatch (z_order n p) (held bytes.old 0) charge points.now counts.old counts.new result }
{
    match Space::new(n, p) {
        Ok(space) => tally_all(
            MemoryStore::over(bytes),
            ZOrder::over(space),
            charge,
            points,
            counts,
        ),
        Err(refusal) => Batch {
            done: 0,
            refusal: refusal.number(),
        },
    }
}

// Opens the index and searches each box, up to the first refusal. Each search begins anew in the lent memory.
#[unsafe(no_mangle)]
pub extern "C" fn exports_search(
    bytes: &mut [u8],
    n: u8,
    p: u8,
    charge: u32,
    boxes: &[Corners],
    finds: &mut [Find],
) -> Searched
    ensures space { (Range n p → ⊥) → (result ≡ record { done = 0; refusal = 1; finds = 0; reads = 0 }) × (bytes.new ≡ bytes.old) × (finds.new ≡ finds.old) }
    ensures searches { Range n p → SearchBatch (z_order n p) (held bytes.old 0) charge boxes.now finds.old finds.new result }
{
    match Space::new(n, p) {
        Ok(space) => search_all(
            MemoryStore::over(bytes),
            ZOrder::over(space),
            charge,
            boxes,
            finds,
        ),
        Err(refusal) => Searched {
            done: 0,
            refusal: refusal.number(),
            finds: 0,
            reads: 0,
        },
    }
}
