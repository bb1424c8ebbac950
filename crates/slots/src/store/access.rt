ghost use Rattle.std.specs.Prelude.{◌≡◌, ◌-◌, ◌≤◌, Ok, slice_set};
ghost use Rattle.pages.specs.Image.{Image, at, Reads, Writes, granted};
ghost use Rattle.records.specs.Free.{numbers};
ghost use Rattle.slots.specs.Slot.{Stores};
ghost use Rattle.slots.specs.Store.{meaning_of};
ghost use Rattle.slots.specs.Sizes.{held_sized};

use crate::slot::{slot_of, vacated};
use crate::store::SlotStore;
use pages::fault::StoreFault;
use pages::store::PageStore;

impl SlotStore<'_> {
    // Fills `into` with the page, or with zeros where it has no slot.
    fn copy_page(&self, page: u16, into: &mut [u8; 128])
        requires low { 1 ≤ page }
        requires high { page ≤ self.now.pages }
        ensures { into.new ≡ at (meaning_of self.now) page }
    {
        let s = self.home[page as usize];
        if s == 0 {
            *into = [0; 128];
        } else {
            let slot = self.row.slot(s);
            into.copy_from_slice(&slot[2..]);
        }
    }

    // Fills the front free slot with the page, numbers it, then sets the number of the page's old slot to 0 and puts that slot at the front.
    // There is a free slot: so many pages cannot hold one slot more.
    fn put_page(&mut self, page: u16, from: &[u8; 128])
        requires low { 1 ≤ page }
        requires high { page ≤ self.old.pages }
        ensures pages { (meaning_of self.new).pages ≡ slice_set (meaning_of self.old).pages (page - 1) from.now }
        ensures stores { Stores self.old.row.slots.now (numbers self.old.free) self.old.pages page from.now (Ok tt) self.new.row.slots.now (numbers self.new.free) }
        ensures size { self.new.pages ≡ self.old.pages }
        ensures charge { self.new.charge.left ≡ self.old.charge.left }
        ensures lent { self.new.row.slots.ghost_name ≡ self.old.row.slots.ghost_name }
    {
        let Some(s) = self.free.take_front() else {
            unreachable!()
        };
        self.row.put(s, slot_of(page, from));
        let old = self.home[page as usize];
        self.home[page as usize] = s;
        if old != 0 {
            let free = vacated(self.row.slot(old));
            self.row.put(old, free);
            let _ = self.free.put_front(old);
        }
    }
}

// The clauses past the trait's say what becomes of the slots and of the free ones, in the chain's order; the clauses `lent` that the slots
// are those of the same loan.
impl<'a> PageStore for SlotStore<'a> {
    ghost meaning = { meaning_of };

    ghost sized = { λ s. held_sized s.row.slots.now s.pages s.room s.long s.charge.left s.few s.charge.fits };

    fn size(&self) -> u16 {
        self.pages
    }

    fn read(&mut self, page: u16, into: &mut [u8; 128]) -> Result<(), StoreFault>
        ensures read { Reads (meaning_of self.old) page into.old result (meaning_of self.new) into.new }
        ensures slots { self.new.row.slots.now ≡ self.old.row.slots.now }
        ensures free { numbers self.new.free ≡ numbers self.old.free }
        ensures lent { self.new.row.slots.ghost_name ≡ self.old.row.slots.ghost_name }
    {
        let pages = self.pages;
        self.charge.access(page, pages)?;
        self.copy_page(page, into);
        Ok(())
    }

    fn write(&mut self, page: u16, from: &[u8; 128]) -> Result<(), StoreFault>
        ensures write { Writes (meaning_of self.old) page from.now result (meaning_of self.new) }
        ensures stores { Stores self.old.row.slots.now (numbers self.old.free) self.old.pages page from.now result self.new.row.slots.now (numbers self.new.free) }
        ensures lent { self.new.row.slots.ghost_name ≡ self.old.row.slots.ghost_name }
    {
        let pages = self.pages;
        self.charge.access(page, pages)?;
        self.put_page(page, from);
        Ok(())
    }

    fn grant(&mut self, charge: u32)
        ensures grant { meaning_of self.new ≡ granted (meaning_of self.old) charge }
        ensures slots { self.new.row.slots.now ≡ self.old.row.slots.now }
        ensures free { numbers self.new.free ≡ numbers self.old.free }
        ensures lent { self.new.row.slots.ghost_name ≡ self.old.row.slots.ghost_name }
    {
        self.charge.set(charge);
    }
}
