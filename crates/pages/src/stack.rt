ghost use Rattle.std.specs.Prelude.{◌≡◌};
ghost use Rattle.pages.specs.Image.{Image, Reads};
ghost use Rattle.pages.specs.History.{ReadsBack};

use crate::fault::StoreFault;
use crate::store::PageStore;

// Reads a page of any store, by the contract of the trait alone: after any history of calls it gives what was last written to the page,
// and every other page holds what was last written to it. A layer over a store is a store too, so this holds of every stack of layers.
pub fn read_back<S: PageStore>(
    store: &mut S,
    page: u16,
    into: &mut [u8; 128],
) -> Result<(), StoreFault>
    ensures read { Reads (S.meaning store.old) page into.old result (S.meaning store.new) into.new }
    ensures law { ReadsBack (S.meaning store.old) page result (S.meaning store.new) into.new }
{
    store.read(page, into)
}
