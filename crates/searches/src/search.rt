// The search of a box in a tree of pages.
ghost use Rattle.searches.specs.Sought.{sought};
ghost use Rattle.searches.specs.Searching.{Searches};

use crate::find::{Find, Found};
use crate::request::Request;
use crate::walking::walk_page;
use layout::page_ref::PageRef;
use orders::order::PointOrder;
use pages::store::PageStore;
use records::tray::Tray;

// Finds the events that are asked for in a tree with this root, at its height, over the addresses 0 to `top`: depth first, a page before
// its children, by rising address. A root at level 0 is that of the empty tree. It ends where the box has no address left, where the lent
// memory has no room for an event, or where the charge does not carry a read.
pub fn search<S: PageStore, O: PointOrder>(
    store: &mut S,
    request: &Request<'_, O>,
    root: PageRef,
    top: u64,
    memory: &mut [Find],
) -> Found
    ensures { Searches (sought O.PointOrder.meaning request.now) (S.PageStore.meaning store.old) root top memory.old result (S.PageStore.meaning store.new) memory.new }
{
    if root.level == 0 {
        return Found::default();
    }
    let Some(first) = request.first() else {
        return Found::default();
    };
    let mut finds = Tray::over(memory);
    let part = walk_page(store, request, root, top, Some(first), &mut finds);
    Found {
        count: finds.len(),
        reads: part.reads,
        ending: part.ending,
    }
}
