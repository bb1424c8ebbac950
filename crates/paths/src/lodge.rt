// Lodge: one more event at an address, by copying the path to its leaf.
ghost use Rattle.std.specs.Prelude.{◌≡◌, ℕ, ◌+◌, ◌≤◌, length, IfOk};
ghost use Rattle.records.specs.Free.{numbers};
ghost use Rattle.layout.specs.Listed.{entries};
ghost use Rattle.paths.specs.OldPages.{old_pages};
ghost use Rattle.paths.specs.PathsReading.{IsPath};
ghost use Rattle.paths.specs.LodgePlaces.{pages_in};
ghost use Rattle.paths.specs.LodgeRules.{Leafed, Lodged};
ghost use Rattle.paths.specs.LodgeTree.{Roots, LodgedBy};
ghost use Rattle.paths.specs.LodgeKept.{LodgeIs, LodgeNextLaw, LodgeFreeLaw, LodgeRefusedLaw};

use crate::copied::Copied;
use crate::entries::{child_at, count_at};
use crate::lodge_edits::{enter_one, renew_child};
use crate::page::{read_page, write_items};
use crate::place::{Placed, place};
use crate::plan::Plan;
use crate::step::Step;
use crate::trade::Trade;
use faults::fault::Fault;
use layout::change::ChildPages;
use layout::entry::Entry;
use layout::list::EntryList;
use layout::page_ref::PageRef;
use pages::store::PageStore;
use records::free::FreeList;

// At a leaf that was read: asks whether the count is below the greatest (14), then the plan's questions, and writes.
fn lodge_leaf<S: PageStore>(
    store: &mut S,
    list: &mut EntryList,
    address: u64,
    plan: Plan,
    free: &FreeList,
    trade: Trade,
) -> Result<Placed, Fault>
    requires few { length (entries list.old) ≤ 10 }
    requires unused { trade.used ≡ 0 }
    ensures leafs { Leafed (S.meaning store.old) (entries list.old) address (numbers free.now) plan result (S.meaning store.new) }
    ensures path { IfOk result (λ g. g.trade.path ≡ trade.path) }
{
    if count_at(list, address) >= 65535 {
        return Err(Fault::CountFull);
    }
    enter_one(list, address);
    plan.ask(list.len(), free.len())?;
    let right = list.split_leaf();
    place(store, 1, list, &right, free, trade)
}

// Lodge at a page of a path.
fn lodge_at<S: PageStore>(
    store: &mut S,
    step: Step,
    address: u64,
    plan: Plan,
    free: &FreeList,
) -> Result<Placed, Fault>
    requires low { step.at.level ≤ plan.base }
    requires few { plan.extra + step.at.level ≤ 255 }
    ensures lodges { Lodged (S.meaning store.old) step.at.level step.at.page address (numbers free.now) plan result (S.meaning store.new) }
    ensures path { IfOk result (λ g. IsPath (S.meaning store.old) step.at.level step.at.page address (old_pages g.trade.path)) }
{
    let mut list = EntryList::new();
    read_page(store, step.at, &mut list)?;
    if step.at.level == 1 {
        let trade = Trade::default().with_old(step.at.page);
        return lodge_leaf(store, &mut list, address, plan, free, trade);
    }
    let child = Step {
        at: child_at(&list, step.at, address),
    };
    let deep = plan.below(list.len());
    let Placed { pages, trade } = lodge_at(store, child, address, deep, free)?;
    renew_child(&mut list, address, pages);
    let right = list.split_inner();
    let trade = trade.with_old(step.at.page);
    place(store, step.at.level, &list, &right, free, trade)
}

// A new root over the two pages of a root that was split.
fn new_root<S: PageStore>(
    store: &mut S,
    old: Step,
    pages: ChildPages,
    free: &FreeList,
    mut trade: Trade,
) -> Result<Copied, Fault>
    requires { trade.used + 1 ≤ length (numbers free.now) }
    ensures roots { Roots (S.meaning store.old) old.at.level (pages_in pages) (numbers free.now) trade.used result (S.meaning store.new) }
    ensures path { IfOk result (λ g. g.trade.path ≡ trade.path) }
{
    let root = match pages {
        ChildPages::One(page) => PageRef {
            page,
            level: old.at.level,
        },
        ChildPages::Two(left, key, right) => {
            let root = PageRef {
                page: trade.next_page(free),
                level: old.at.level + 1,
            };
            let items = [
                Entry { key, value: left },
                Entry {
                    key: 0,
                    value: right,
                },
            ];
            write_items(store, root, &items)?;
            root
        }
    };
    Ok(Copied { root, trade })
}

// The first leaf of an empty tree.
fn first_leaf<S: PageStore>(store: &mut S, address: u64, free: &FreeList) -> Result<Copied, Fault>
    ensures { LodgedBy (S.meaning store.old) 0 0 address (numbers free.now) result (S.meaning store.new) }
{
    if free.len() < 7 {
        return Err(Fault::Room);
    }
    let mut trade = Trade::default();
    let root = PageRef {
        page: trade.next_page(free),
        level: 1,
    };
    write_items(
        store,
        root,
        &[Entry {
            key: address,
            value: 1,
        }],
    )?;
    Ok(Copied { root, trade })
}

// Lodges one event at an address in the tree under this root: writes its new pages to the front of the free pages, leaf
// first, upward, and leaves the header and the free list as they are. Asked in this order: the path is read (9); the count is below
// 65,535 (14); the height stays at most 6 (15); k pages are needed and k + 6 are free (16); the pages are written (17).
pub fn lodge<S: PageStore>(
    store: &mut S,
    root: PageRef,
    address: u64,
    free: &FreeList,
) -> Result<Copied, Fault>
    ensures { LodgeIs (S.meaning store.old) root.page root.level address (numbers free.now) result (S.meaning store.new) }
{
    if root.level > 6 {
        return Err(Fault::HeightFull);
    }
    if root.level == 0 {
        return first_leaf(store, address, free);
    }
    let plan = Plan {
        base: root.level,
        extra: 1,
        height: root.level + 1,
    };
    let step = Step { at: root };
    let Placed { pages, trade } = lodge_at(store, step, address, plan, free)?;
    new_root(store, step, pages, free, trade)
}

// After a lodge the new tree is kept in the store, and its free list is the old path before the pages that are left; after a
// refused one the old tree is kept.
pub fn lodge_stands() -> u8
    ensures next { LodgeNextLaw }
    ensures free { LodgeFreeLaw }
    ensures refused { LodgeRefusedLaw }
{
    0
}
