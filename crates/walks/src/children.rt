// What a page that keeps its rules brings to a scan: a leaf its counts, an inner page the visits of its children.
ghost use Rattle.std.specs.Prelude.{◌≡◌, ◌+◌, ◌-◌, ◌<◌, ◌≤◌, ◌++◌, length, slice_index_or};
ghost use Rattle.layout.specs.Content.{InnerKeys};
ghost use Rattle.tree.specs.Tree.{counts};
ghost use Rattle.tree.specs.Scan.{visit, child_visits};
ghost use Rattle.walks.specs.Pending.{to_come, HasRoom, SameSize};

use layout::entry::{Entry, end_of};
use layout::page_ref::PageRef;
use layout::visit::Visit;
use records::tray::Tray;

// The sum of a leaf's counts.
pub(crate) fn counted(entries: &[Entry]) -> u32
    requires { length entries.now ≤ 10 }
    ensures sum { result ≡ counts entries.now }
    ensures small { result ≤ 655350 }
{
    entries.iter().map(|e| u32::from(e.value)).sum()
}

// The visit of child `i` of an inner page: its region begins past the key before it and ends with its own key; the first begins where the
// page's begins, and the last ends where it ends.
fn child_visit(v: Visit, entries: &[Entry], i: usize) -> Visit
    requires within { i < length entries.now }
    requires keys { InnerKeys v.lo v.hi entries.now }
    requires level { 1 ≤ v.at.level }
    ensures { result ≡ slice_index_or (child_visits (v.at.level - 1) v.lo v.hi entries.now) i (visit 0 0 0 0) }
{
    let child = entries[i];
    let lo = if i == 0 { v.lo } else { entries[i - 1].key + 1 };
    Visit {
        at: PageRef {
            page: child.value,
            level: v.at.level - 1,
        },
        lo,
        hi: end_of(entries, i, v.hi),
    }
}

// Puts the children's visits on the others, so that the first child comes next.
pub(crate) fn put_children(pending: &mut Tray<'_, Visit>, v: Visit, entries: &[Entry])
    requires room { HasRoom (length entries.now) pending.old }
    requires keys { InnerKeys v.lo v.hi entries.now }
    requires level { 1 ≤ v.at.level }
    ensures put { to_come pending.new ≡ child_visits (v.at.level - 1) v.lo v.hi entries.now ++ to_come pending.old }
    ensures size { SameSize pending.old pending.new }
{
    // by place, since a child's region begins past its neighbour's key
    for i in (0..entries.len()).rev() {
        let _ = pending.put(child_visit(v, entries, i));
    }
}
