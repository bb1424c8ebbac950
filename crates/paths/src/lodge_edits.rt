// The page edits of lodge, of at most ten entries. Afterwards there may be eleven, before the page is split.
ghost use Rattle.std.specs.Prelude.{◌≡◌, ◌<◌, ◌≤◌, length};
ghost use Rattle.layout.specs.Edits.{found};
ghost use Rattle.layout.specs.Listed.{entries};
ghost use Rattle.tree.specs.CopyMoves.{enter};
ghost use Rattle.tree.specs.CopyPages.{swap};
ghost use Rattle.paths.specs.PathsReading.{counted};
ghost use Rattle.paths.specs.LodgePlaces.{pages_in};

use layout::change::ChildPages;
use layout::list::EntryList;

// In a leaf: one more at an address whose count is below the greatest.
pub(crate) fn enter_one(list: &mut EntryList, address: u64)
    requires few { length (entries list.old) ≤ 10 }
    requires low { counted (found address (entries list.old)) < 65535 }
    ensures { entries list.new ≡ enter address (entries list.old) }
{
    let _ = list.enter(address);
}

// In an inner page: the child's new pages in its place.
pub(crate) fn renew_child(list: &mut EntryList, address: u64, pages: ChildPages)
    requires { length (entries list.old) ≤ 10 }
    ensures { entries list.new ≡ swap (entries list.old) address (pages_in pages) }
{
    let _ = list.put_child(address, pages);
}
