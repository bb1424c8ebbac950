ghost use Rattle.std.specs.Prelude.{◌≡◌, ◌^◌, ◌<◌};
ghost use Rattle.pages.specs.Image.{Accesses};

use crate::fault::StoreFault;

// The charge of a store: the number of page accesses that the cell still carries.
#[derive(Drop)]
pub struct Charge {
    left: u32,
    ghost fits: { left < 2 ^ 32 },
}

impl Charge {
    // The charge that a store is made with.
    pub fn none() -> Charge
        ensures { result.left ≡ 0 }
    {
        Charge { left: 0 }
    }

    pub fn set(&mut self, charge: u32)
        ensures { self.new.left ≡ charge }
    {
        self.left = charge;
    }

    // Asks of an access to `page` of a store of `size` pages, in this order, whether the page is there and whether the charge carries the
    // access; on two yeses the charge falls by one.
    pub fn access(&mut self, page: u16, size: u16) -> Result<(), StoreFault>
        ensures { Accesses self.old.left page size result self.new.left }
    {
        if page == 0 || page > size {
            return Err(StoreFault::Absent);
        }
        if self.left == 0 {
            return Err(StoreFault::Uncharged);
        }
        self.left -= 1;
        Ok(())
    }
}
