// Reading and writing a page, with a refusal that says which page of which level.
ghost use Rattle.faults.specs.Accesses.{Fetches, Stores};

use crate::fault::{Access, Fault};
use layout::page_ref::PageRef;
use pages::store::PageStore;

// Fills the lent page with the page.
pub fn fetch<S: PageStore>(store: &mut S, at: PageRef, into: &mut [u8; 128]) -> Result<(), Fault>
    ensures { Fetches (S.meaning store.old) at.page at.level into.old result (S.meaning store.new) into.new }
{
    store
        .read(at.page, into)
        .map_err(|fault| Fault::of_read(Access { at, fault }))
}

// Replaces the whole of the page.
pub fn put<S: PageStore>(store: &mut S, at: PageRef, from: &[u8; 128]) -> Result<(), Fault>
    ensures { Stores (S.meaning store.old) at.page at.level from.now result (S.meaning store.new) }
{
    store
        .write(at.page, from)
        .map_err(|fault| Fault::of_write(Access { at, fault }))
}
