// What the entries of one page say of an address.
ghost use Rattle.std.specs.Prelude.{◌≡◌, ◌-◌, ◌≤◌, length};
ghost use Rattle.layout.specs.Edits.{found};
ghost use Rattle.layout.specs.Listed.{entries};
ghost use Rattle.tree.specs.CopyPages.{pick};
ghost use Rattle.paths.specs.PathsReading.{counted};

use layout::list::EntryList;
use layout::page_ref::PageRef;

// In a leaf: the count at an address, 0 where it has none.
pub(crate) fn count_at(list: &EntryList, address: u64) -> u16
    ensures { result ≡ counted (found address (entries list.now)) }
{
    list.count(address).unwrap_or(0)
}

// In an inner page, which is at `at`: the child for an address.
pub(crate) fn child_at(list: &EntryList, at: PageRef, address: u64) -> PageRef
    requires some { 1 ≤ length (entries list.now) }
    requires inner { 1 ≤ at.level }
    ensures page { result.page ≡ pick (entries list.now) address }
    ensures level { result.level ≡ at.level - 1 }
{
    PageRef {
        page: list.child(address).unwrap(),
        level: at.level - 1,
    }
}
