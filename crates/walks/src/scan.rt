// The scan of an opening: every page of a tree is read and asked for the rules of a sound tree.
ghost use Rattle.std.specs.Prelude.{◌≡◌, suc, ◌≤◌, false, [], length, slice_index_or, IsTrue, ◌↔◌};
ghost use Rattle.tree.specs.Scan.{start as first_visits, scan as scanned};
ghost use Rattle.faults.specs.Accesses.{contents};
ghost use Rattle.walks.specs.Scans.{ScansPages, Scans};

use crate::scanning::Seen;
use crate::visiting::visit_page;
use faults::fault::Fault;
use layout::header::Header;
use layout::page_ref::PageRef;
use layout::visit::{Rule, Visit};
use pages::store::PageStore;
use records::tray::Tray;
use tree::copy_limit::last_usable;

// Rule A: whether a page's number is 2 to `last`, and it was not reached before.
fn is_new(page: u16, last: u16, marks: &[bool; 1026]) -> bool
    requires { last ≤ 1024 }
    ensures { IsTrue result ↔ ((2 ≤ page) × (page ≤ last) × (slice_index_or marks.now page false ≡ false)) }
{
    (2..=last).contains(&page) && !marks[usize::from(page)]
}

// Visits every page, depth first, a page before its children, lower regions first. Rule A is asked before a page is read.
fn scan_pages<S: PageStore>(
    store: &mut S,
    last: u16,
    root: PageRef,
    top: u64,
    work: &mut [Visit],
    marks: &mut [bool; 1026],
) -> Result<Seen, Fault>
    requires last { last ≤ 1024 }
    requires pages { last ≤ length (S.meaning store.old).pages }
    requires work { 64 ≤ length work.old }
    requires height { root.level ≤ 6 }
    ensures { ScansPages (scanned (suc last) (contents (S.meaning store.old)) last (S.meaning store.old).charge [] (first_visits root.level root.page top) 0)
        (S.meaning store.old) result (S.meaning store.new) marks.new }
{
    *marks = [false; 1026];
    let mut pending = Tray::over(work);
    if root.level > 0 {
        let _ = pending.put(Visit {
            at: root,
            lo: 0,
            hi: top,
        });
    }
    let mut seen = Seen::default();
    while let Some(v) = pending.pop() {
        if !is_new(v.at.page, last, marks) {
            return Err(Fault::Unsound(v.at.page, Rule::A));
        }
        let count = visit_page(store, v, &mut pending)?;
        marks[v.at.page as usize] = true;
        seen.add(count);
    }
    Ok(seen)
}

// The opening's scan, for a header, over addresses up to `top`. A page past the store's last or past 1,024 is not used, whatever `limit` says.
// The pages yet to visit are kept in the work records. An accepted tree's pages are marked, and no others.
pub fn scan<S: PageStore>(
    store: &mut S,
    limit: u16,
    header: Header,
    top: u64,
    work: &mut [Visit],
    marks: &mut [bool; 1026],
) -> Result<(), Fault>
    ensures { Scans (S.meaning store.old) limit header top (length work.old) result (S.meaning store.new) marks.new }
{
    if work.len() < 64 {
        return Err(Fault::Work);
    }
    if header.height > 6 {
        return Err(Fault::NoHeader);
    }
    let last = limit.min(last_usable(store.size()));
    let root = PageRef {
        page: header.root,
        level: header.height,
    };
    let seen = scan_pages(store, last, root, top, work, marks)?;
    if !seen.sums_hold(header.total, last) {
        return Err(Fault::Unsound(1, Rule::F));
    }
    Ok(())
}
