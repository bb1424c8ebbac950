// Withdraw takes one event back: the path is read on the way down, and what remains of it is written on the way up.
ghost use Rattle.std.specs.Prelude.{◌≡◌, ℕ, ◌+◌, ◌<◌, ◌≤◌, length, IfOk, IsTrue, ◌↔◌};
ghost use Rattle.layout.specs.Listed.{entries};
ghost use Rattle.records.specs.Free.{numbers};
ghost use Rattle.paths.specs.OldPages.{old_pages};
ghost use Rattle.paths.specs.PathsReading.{IsPath};
ghost use Rattle.paths.specs.Withdrawals.{PlacesLeft, Withdrawn};
ghost use Rattle.paths.specs.WithdrawRules.{RoomFor, WithdrawIs, WithdrawNextLaw, WithdrawFreeLaw, WithdrawRefusedLaw};

use crate::copied::Copied;
use crate::entries::child_at;
use crate::left::Left;
use crate::page::{read_page, write_items};
use crate::step::Step;
use crate::trade::Trade;
use crate::withdraw_edits::{restore_child, take_one};
use faults::fault::Fault;
use layout::list::EntryList;
use layout::page_ref::PageRef;
use pages::store::PageStore;
use records::free::FreeList;

// What is left of a page, written to the next free page. An empty page is not written.
fn place_left<S: PageStore>(
    store: &mut S,
    level: u8,
    list: &EntryList,
    free: &FreeList,
    mut trade: Trade,
) -> Result<Left, Fault>
    requires few { length (entries list.now) ≤ 10 }
    requires room { trade.used < length (numbers free.now) }
    ensures places { PlacesLeft (S.meaning store.old) level (entries list.now) (numbers free.now) trade.used result (S.meaning store.new) }
    ensures path { IfOk result (λ g. g.trade.path ≡ trade.path) }
{
    if list.len() == 0 {
        return Ok(Left { page: None, trade });
    }
    let at = PageRef {
        page: trade.next_page(free),
        level,
    };
    write_items(store, at, list.as_slice())?;
    Ok(Left {
        page: Some(at.page),
        trade,
    })
}

// Withdraw at a page of a path.
fn withdraw_at<S: PageStore>(
    store: &mut S,
    step: Step,
    address: u64,
    free: &FreeList,
) -> Result<Left, Fault>
    requires { step.at.level ≤ length (numbers free.now) }
    ensures withdraws { Withdrawn (S.meaning store.old) step.at.level step.at.page address (numbers free.now) result (S.meaning store.new) }
    ensures path { IfOk result (λ g. IsPath (S.meaning store.old) step.at.level step.at.page address (old_pages g.trade.path)) }
{
    let mut list = EntryList::new();
    read_page(store, step.at, &mut list)?;
    if step.at.level == 1 {
        take_one(&mut list, address)?;
        let trade = Trade::default().with_old(step.at.page);
        return place_left(store, 1, &list, free, trade);
    }
    let child = Step {
        at: child_at(&list, step.at, address),
    };
    let below = withdraw_at(store, child, address, free)?;
    restore_child(&mut list, address, below.page);
    let trade = below.trade.with_old(step.at.page);
    place_left(store, step.at.level, &list, free, trade)
}

// Whether a path of this height can be copied: it has at most six pages, and as many are free.
fn has_room(height: u8, free: &FreeList) -> bool
    ensures { IsTrue result ↔ (RoomFor height (numbers free.now)) }
{
    height <= 6 && height as u16 <= free.len()
}

// Takes one event back at an address from the tree under this root. Asked in this order, before any write: does the charge
// carry the reads of the path (9), has the address an event (13)? Then what remains of the path is written to the front pages of
// the free list, which is not changed here, the leaf first; the charge may not carry a write (17). In memory where no tree is kept
// also: fewer free pages than levels, or more than six levels (16), a page that does not exist (8) or breaks a rule (12).
pub fn withdraw<S: PageStore>(
    store: &mut S,
    root: PageRef,
    address: u64,
    free: &FreeList,
) -> Result<Copied, Fault>
    ensures { WithdrawIs (S.meaning store.old) root.page root.level address (numbers free.now) result (S.meaning store.new) }
{
    if root.level == 0 {
        return Err(Fault::NoEvent);
    }
    if !has_room(root.level, free) {
        return Err(Fault::Room);
    }
    let left = withdraw_at(store, Step { at: root }, address, free)?;
    Ok(left.copied(root.level))
}

// After a withdrawal the new tree is kept in the store, and its free list is the old path before the pages that are left; after a
// refused one the old tree is kept.
pub fn withdraw_stands() -> u8
    ensures next { WithdrawNextLaw }
    ensures free { WithdrawFreeLaw }
    ensures refused { WithdrawRefusedLaw }
{
    0
}
