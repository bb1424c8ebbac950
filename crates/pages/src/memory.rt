ghost use Rattle.std.specs.Prelude.{◌≡◌, ℕ, ◌+◌, ◌≤◌, length, take, drop};
ghost use Rattle.pages.specs.Image.{Image, Reads, Writes, granted};
ghost use Rattle.pages.specs.Cut.{number, Overwrites};
ghost use Rattle.pages.specs.Memory.{meaning_of};
ghost use Rattle.pages.specs.Sizes.{held_sized};

use crate::charge::Charge;
use crate::fault::StoreFault;
use crate::store::PageStore;

// Lent bytes cut into pages, 65,535 at most. What is left past the last page is never touched.
// The clauses `lent` say that the bytes are those of the same loan, so that the lender knows what it gets back.
#[derive(Drop)]
pub struct MemoryStore<'a> {
    bytes: &'a mut [u8],
    charge: Charge,
}

// How many pages so many bytes have.
fn number_in(len: usize) -> u16
    ensures { result ≡ number len }
{
    (len / 128).min(65535) as u16
}

impl<'a> MemoryStore<'a> {
    // A store over these bytes, with charge 0.
    pub fn over(bytes: &'a mut [u8]) -> MemoryStore<'a>
        ensures bytes { result.bytes.now ≡ bytes.old }
        ensures lent { result.bytes.ghost_name ≡ bytes.entry.ghost_name }
        ensures uncharged { result.charge.left ≡ 0 }
    {
        MemoryStore {
            bytes,
            charge: Charge::none(),
        }
    }

    // Fills `into` from `start` on. It takes `&self`: a `read` that looked into the bytes itself would prove nothing of them afterwards.
    fn copy_out(&self, start: usize, into: &mut [u8; 128])
        requires { start + 128 ≤ length self.now.bytes.now }
        ensures { into.new ≡ take 128 (drop start self.now.bytes.now) }
    {
        into.copy_from_slice(&self.bytes[start..start + 128]);
    }
}

impl<'a> PageStore for MemoryStore<'a> {
    ghost meaning = { meaning_of };

    ghost sized = { λ s. held_sized s.bytes.now s.charge.left s.charge.fits };

    fn size(&self) -> u16 {
        number_in(self.bytes.len())
    }

    fn read(&mut self, page: u16, into: &mut [u8; 128]) -> Result<(), StoreFault>
        ensures read { Reads (meaning_of self.old) page into.old result (meaning_of self.new) into.new }
        ensures bytes { self.new.bytes.now ≡ self.old.bytes.now }
        ensures lent { self.new.bytes.ghost_name ≡ self.old.bytes.ghost_name }
    {
        let size = number_in(self.bytes.len());
        self.charge.access(page, size)?;
        self.copy_out((page as usize - 1) * 128, into);
        Ok(())
    }

    // Every byte outside the page keeps its value, also past the last page.
    fn write(&mut self, page: u16, from: &[u8; 128]) -> Result<(), StoreFault>
        ensures write { Writes (meaning_of self.old) page from.now result (meaning_of self.new) }
        ensures bytes { Overwrites self.old.bytes.now page from.now result self.new.bytes.now }
        ensures lent { self.new.bytes.ghost_name ≡ self.old.bytes.ghost_name }
    {
        let pages = number_in(self.bytes.len());
        self.charge.access(page, pages)?;
        let start = (page as usize - 1) * 128;
        self.bytes[start..start + 128].copy_from_slice(from);
        Ok(())
    }

    fn grant(&mut self, charge: u32)
        ensures grant { meaning_of self.new ≡ granted (meaning_of self.old) charge }
        ensures bytes { self.new.bytes.now ≡ self.old.bytes.now }
        ensures lent { self.new.bytes.ghost_name ≡ self.old.bytes.ghost_name }
    {
        self.charge.set(charge);
    }
}
