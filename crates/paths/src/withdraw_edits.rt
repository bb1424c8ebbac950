// The page edits of withdraw, of at most ten entries, which leave at most ten.
ghost use Rattle.std.specs.Prelude.{◌≡◌, ◌≤◌, length};
ghost use Rattle.layout.specs.Listed.{entries};
ghost use Rattle.tree.specs.CopyPages.{clear};
ghost use Rattle.paths.specs.WithdrawEdits.{TakesOne, left_of};

use faults::fault::Fault;
use layout::change::ChildPages;
use layout::list::EntryList;

// In a leaf: one event less at an address. Refused, with the list as it was, where there is none (13).
pub(crate) fn take_one(list: &mut EntryList, address: u64) -> Result<(), Fault>
    requires { length (entries list.old) ≤ 10 }
    ensures takes { TakesOne address (entries list.old) result (entries list.new) }
    ensures few { length (entries list.new) ≤ 10 }
{
    if !list.remove(address) {
        return Err(Fault::NoEvent);
    }
    Ok(())
}

// In an inner page: what is left of the child for an address in its place, its new page; or it drops out.
pub(crate) fn restore_child(list: &mut EntryList, address: u64, left: Option<u16>)
    requires { length (entries list.old) ≤ 10 }
    ensures clears { entries list.new ≡ clear (entries list.old) address (left_of left) }
    ensures few { length (entries list.new) ≤ 10 }
{
    match left {
        Some(page) => {
            let _ = list.put_child(address, ChildPages::One(page));
        }
        None => list.drop_child(address),
    }
}
