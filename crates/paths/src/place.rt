// The new pages of a path, written to the front of the free pages.
ghost use Rattle.std.specs.Prelude.{◌≡◌, ℕ, ◌+◌, ◌≤◌, length, IfOk};
ghost use Rattle.records.specs.Free.{numbers};
ghost use Rattle.layout.specs.Changes.{after_split, Few};
ghost use Rattle.layout.specs.Listed.{entries};
ghost use Rattle.paths.specs.LodgePlaces.{halves_of, Places};

use crate::page::write_items;
use crate::trade::Trade;
use faults::fault::Fault;
use layout::change::{ChildPages, RightHalf};
use layout::list::EntryList;
use layout::page_ref::PageRef;
use pages::store::PageStore;
use records::free::FreeList;

// What stands in a page's place, and the trade so far.
#[derive(Clone, Copy)]
pub struct Placed {
    pub pages: ChildPages,
    pub trade: Trade,
}

// Writes a page, or two where it was split, the left one first.
pub(crate) fn place<S: PageStore>(
    store: &mut S,
    level: u8,
    left: &EntryList,
    right: &Option<RightHalf<EntryList>>,
    free: &FreeList,
    mut trade: Trade,
) -> Result<Placed, Fault>
    requires room { trade.used + 2 ≤ length (numbers free.now) }
    requires few { Few (after_split (entries left.now) right.now) }
    ensures places { Places (S.meaning store.old) level (halves_of (entries left.now) right.now) (numbers free.now) trade.used result (S.meaning store.new) }
    ensures path { IfOk result (λ g. g.trade.path ≡ trade.path) }
{
    let first = trade.next_page(free);
    write_items(store, PageRef { page: first, level }, left.as_slice())?;
    match right {
        None => Ok(Placed {
            pages: ChildPages::One(first),
            trade,
        }),
        Some(half) => {
            let second = trade.next_page(free);
            write_items(
                store,
                PageRef {
                    page: second,
                    level,
                },
                half.entries.as_slice(),
            )?;
            Ok(Placed {
                pages: ChildPages::Two(first, half.key, second),
                trade,
            })
        }
    }
}
