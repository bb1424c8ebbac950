// The walk of a search over the pages of a tree.
ghost use Rattle.std.specs.Prelude.{◌≡◌, ◌+◌, ◌<◌, length, slice_index_or};
ghost use Rattle.layout.specs.Listed.{blank};
ghost use Rattle.searches.specs.Sought.{sought};
ghost use Rattle.searches.specs.Walking.{Reached, Walks, WalksBelow};

use crate::find::{Ending, Find};
use crate::finding::put_finds;
use crate::part::Part;
use crate::request::Request;
use faults::access::fetch;
use layout::entry::{Entry, end_of};
use layout::list::EntryList;
use layout::page_ref::PageRef;
use orders::order::PointOrder;
use pages::store::PageStore;
use records::tray::Tray;

// The next address, where a region with this end reaches it.
fn reached(next: Option<u64>, end: u64) -> Option<u64>
    ensures { Reached next end result }
{
    next.filter(|a| *a <= end)
}

// Walks the part of a tree under a page, of which the region ends at `end`, with the next address of the box.
#[cycle(walk)]
pub(crate) fn walk_page<S: PageStore, O: PointOrder>(
    store: &mut S,
    request: &Request<'_, O>,
    at: PageRef,
    end: u64,
    next: Option<u64>,
    finds: &mut Tray<'_, Find>,
) -> Part
    ensures { Walks (sought O.PointOrder.meaning request.now) (S.PageStore.meaning store.old) at end next finds.old result (S.PageStore.meaning store.new) finds.new }
{
    let unread = Part {
        ending: Ending::Done,
        reads: 0,
        next,
    };
    let Some(a) = reached(next, end) else {
        return unread;
    };
    let mut bytes = [0; 128];
    if fetch(store, at, &mut bytes).is_err() {
        return Part {
            ending: Ending::Cut(at.page, a),
            ..unread
        };
    }
    let list = EntryList::of_page(&bytes);
    let entries = list.as_slice();
    if at.level <= 1 {
        return Part {
            ending: put_finds(request, entries, finds),
            reads: 1,
            next: request.first_past(end),
        };
    }
    let below = walk_children(store, request, at.level - 1, entries, end, next, finds);
    Part {
        reads: below.reads + 1,
        ..below
    }
}

// Walks the children of an inner page, of which the region ends at `end`, up to the first that does not end done.
#[cycle(walk)]
fn walk_children<S: PageStore, O: PointOrder>(
    store: &mut S,
    request: &Request<'_, O>,
    level: u8,
    children: &[Entry],
    end: u64,
    next: Option<u64>,
    finds: &mut Tray<'_, Find>,
) -> Part
    ensures { WalksBelow (sought O.PointOrder.meaning request.now) (S.PageStore.meaning store.old) level children.now end next finds.old result (S.PageStore.meaning store.new) finds.new }
{
    let mut walked = Part {
        ending: Ending::Done,
        reads: 0,
        next,
    };
    for (i, child) in children.iter().enumerate() {
        let at = PageRef {
            page: child.value,
            level,
        };
        let part = walk_page(
            store,
            request,
            at,
            end_of(children, i, end),
            walked.next,
            finds,
        );
        walked = Part {
            reads: walked.reads + part.reads,
            ..part
        };
        let Ending::Done = part.ending else {
            return walked;
        };
    }
    walked
}
