// Batches of calls.
ghost use Rattle.std.specs.Prelude.{◌≡◌, length};
ghost use Rattle.exports.specs.Batches.{FormatBatch, LodgeBatch, SearchBatch, TallyBatch};
ghost use Rattle.exports.specs.Standing.{Seeks};

use crate::opened::{open_index, shut_index};
use index::index::Index;
use orders::order::PointOrder;
use orders::point::Point;
use orders::space::QueryBox;
use pages::store::PageStore;
use searches::find::{Find, Found};

// How many calls of a batch were accepted, and the number of the refusal that ended it, 0 where none did.
#[repr(C)]
#[derive(Clone, Copy, PartialEq, Eq, Debug)]
pub struct Batch {
    pub done: usize,
    pub refusal: u8,
}

// The same of searches, with how many finds they made and how many pages they read in all.
#[repr(C)]
#[derive(Clone, Copy, PartialEq, Eq, Debug)]
pub struct Searched {
    pub done: usize,
    pub refusal: u8,
    pub finds: usize,
    pub reads: u64,
}

// The lowest and the highest point of a box.
#[repr(C)]
#[derive(Clone, Copy, PartialEq, Eq, Debug)]
pub struct Corners {
    pub low: [u16; 4],
    pub high: [u16; 4],
}

// FormatBatch the index.
pub(crate) fn format<S: PageStore + Drop, O: PointOrder + Drop>(
    store: S,
    order: O,
    charge: u32,
) -> Batch
    ensures { FormatBatch (O.PointOrder.meaning order) (S.PageStore.meaning store) charge result }
{
    let mut index = shut_index(store, order, charge);
    match index.format() {
        Ok(()) => Batch {
            done: 1,
            refusal: 0,
        },
        Err(fault) => Batch {
            done: 0,
            refusal: fault.number(),
        },
    }
}

// Opens the index and lodges one event at each point.
pub(crate) fn lodge_all<S: PageStore + Drop, O: PointOrder + Drop>(
    store: S,
    order: O,
    charge: u32,
    points: &[[u16; 4]],
) -> Batch
    ensures { LodgeBatch (O.PointOrder.meaning order) (S.PageStore.meaning store) charge points.now result }
{
    let mut index = match open_index(store, order, charge) {
        Ok(index) => index,
        Err(refusal) => return Batch { done: 0, refusal },
    };
    for (i, coords) in points.iter().enumerate() {
        if let Err(fault) = index.lodge(Point { coords: *coords }) {
            return Batch {
                done: i,
                refusal: fault.number(),
            };
        }
    }
    Batch {
        done: points.len(),
        refusal: 0,
    }
}

// Opens the index, tallies each point and puts its count at its place.
pub(crate) fn tally_all<S: PageStore + Drop, O: PointOrder + Drop>(
    store: S,
    order: O,
    charge: u32,
    points: &[[u16; 4]],
    counts: &mut [u16],
) -> Batch
    ensures { TallyBatch (O.PointOrder.meaning order) (S.PageStore.meaning store) charge points.now counts.old counts.new result }
{
    let mut index = match open_index(store, order, charge) {
        Ok(index) => index,
        Err(refusal) => return Batch { done: 0, refusal },
    };
    let many = points.len().min(counts.len());
    for i in 0..many {
        match index.tally(Point { coords: points[i] }) {
            Ok(count) => counts[i] = count,
            Err(fault) => return Batch {
                done: i,
                refusal: fault.number(),
            },
        }
    }
    Batch {
        done: many,
        refusal: 0,
    }
}

// The finds and the reads of one search; or the number of its refusal.
fn search_one<S: PageStore, O: PointOrder>(
    index: &mut Index<S, O>,
    corners: Corners,
    finds: &mut [Find],
) -> Result<Found, u8>
    ensures seeks { Seeks S.PageStore.meaning O.PointOrder.meaning index.old corners finds.old result index.new finds.new }
    ensures order { index.new.order ≡ index.old.order }
{
    let Corners { low, high } = corners;
    match QueryBox::new(Point { coords: low }, Point { coords: high }) {
        Ok(query) => index
            .search(&query, 0, finds)
            .map_err(|fault| fault.number()),
        Err(refusal) => Err(refusal.number()),
    }
}

// Opens the index and searches each box, from its first address, into the same lent memory.
pub(crate) fn search_all<S: PageStore + Drop, O: PointOrder + Drop>(
    store: S,
    order: O,
    charge: u32,
    boxes: &[Corners],
    finds: &mut [Find],
) -> Searched
    ensures { SearchBatch (O.PointOrder.meaning order) (S.PageStore.meaning store) charge boxes.now finds.old finds.new result }
{
    let mut searched = Searched {
        done: 0,
        refusal: 0,
        finds: 0,
        reads: 0,
    };
    let mut index = match open_index(store, order, charge) {
        Ok(index) => index,
        Err(refusal) => return Searched {
            refusal,
            ..searched
        },
    };
    for (i, corners) in boxes.iter().enumerate() {
        match search_one(&mut index, *corners, finds) {
            Ok(found) => {
                searched.done = i + 1;
                searched.finds = searched.finds.saturating_add(found.count);
                searched.reads = searched.reads.saturating_add(found.reads as u64);
            }
            Err(refusal) => return Searched {
                refusal,
                ..searched
            },
        }
    }
    searched
}
