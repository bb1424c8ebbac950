ghost use Rattle.std.specs.Prelude.{◌≡◌, length};
ghost use Rattle.pages.specs.Image.{Image, Sized, Reads, Writes, granted};

use crate::fault::StoreFault;

// A store of pages. Its meaning is the bytes of its pages and its charge; its number of pages is changed by no call.
pub trait PageStore {
    ghost meaning: { Self → Image };

    // What holds of every store: at most 65,535 pages of 128 bytes each, and a charge of 32 bits.
    ghost sized: { (s : Self) → Sized (meaning s) };

    // The number of pages.
    fn size(&self) -> u16
        ensures { result ≡ length (meaning self.now).pages };

    // Fills the lent page with the bytes of `page`.
    fn read(&mut self, page: u16, into: &mut [u8; 128]) -> Result<(), StoreFault>
        ensures { Reads (meaning self.old) page into.old result (meaning self.new) into.new };

    // Replaces the whole of `page`.
    fn write(&mut self, page: u16, from: &[u8; 128]) -> Result<(), StoreFault>
        ensures { Writes (meaning self.old) page from.now result (meaning self.new) };

    // Sets the charge.
    fn grant(&mut self, charge: u32)
        ensures { meaning self.new ≡ granted (meaning self.old) charge };
}
