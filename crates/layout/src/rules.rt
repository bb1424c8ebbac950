// The rules that one page can show by itself.
ghost use Rattle.std.specs.Prelude.{◌≤◌, IsTrue, ◌↔◌};
ghost use Rattle.layout.specs.Bytes.{entries_of, content_of};
ghost use Rattle.layout.specs.Content.{Filled, LeafKeys, InnerKeys};
ghost use Rattle.layout.specs.Rules.{Checks, least};

use crate::entry::Entry;
use crate::list::EntryList;
use crate::reader::PageReader;
use crate::visit::{Rule, Visit};
use crate::writer::{TooMany, write_page};

// Whether a page is well formed for its number, its level and its region; else the first of the rules B to E that is broken.
pub fn check_page(page: &[u8; 128], visit: Visit) -> Result<(), Rule>
    ensures { Checks visit (content_of page.now) result }
{
    let reader = PageReader::new(page);
    if reader.number() != visit.at.page || reader.level() != visit.at.level || visit.at.level == 0 {
        return Err(Rule::B);
    }
    if !is_filled(page) {
        return Err(Rule::C);
    }
    if visit.at.level == 1 {
        if !rises(page, visit.lo, visit.hi) {
            return Err(Rule::D);
        }
        return Ok(());
    }
    if !divides(EntryList::of_page(page).as_slice(), visit.lo, visit.hi) {
        return Err(Rule::E);
    }
    Ok(())
}

// Rule C. The entries are encoded again, and must give the same page.
fn is_filled(page: &[u8; 128]) -> bool
    ensures { IsTrue result ↔ (Filled (content_of page.now)) }
{
    let list = EntryList::of_page(page);
    if list.len() == 0 {
        return false;
    }
    let reader = PageReader::new(page);
    let mut again = [0; 128];
    // by its one error: of `is_ok()` the proof does not come to what was written
    if let Err(TooMany) = write_page(&mut again, reader.level(), reader.number(), list.as_slice()) {
        return false;
    }
    again == *page
}

// Rule D.
fn rises(page: &[u8; 128], start: u64, end: u64) -> bool
    ensures { IsTrue result ↔ (LeafKeys start end (entries_of page.now)) }
{
    let mut low = Some(start);
    for e in PageReader::new(page) {
        if !may_follow(e, low, end) {
            return false;
        }
        low = e.key.checked_add(1);
    }
    true
}

// Whether a leaf's entry may stand where `low` is the least key that may follow.
fn may_follow(e: Entry, low: Option<u64>, end: u64) -> bool
    ensures { IsTrue result ↔ ((least low ≤ e.key) × (e.key ≤ end) × (1 ≤ e.value)) }
{
    low.is_some_and(|low| low <= e.key) && e.key <= end && e.value >= 1
}

// Rule E.
fn divides(entries: &[Entry], start: u64, end: u64) -> bool
    ensures { IsTrue result ↔ (InnerKeys start end entries.now) }
{
    let [others @ .., last] = entries else {
        return false;
    };
    let mut low = start;
    for e in others {
        if e.key < low || e.key >= end {
            return false;
        }
        low = e.key + 1;
    }
    last.key == 0
}
