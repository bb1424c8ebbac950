// Tally: how many events an address has.
ghost use Rattle.paths.specs.TallyRules.{TallyIs};

use crate::entries::{child_at, count_at};
use crate::page::read_page;
use faults::fault::Fault;
use layout::list::EntryList;
use layout::page_ref::PageRef;
use pages::store::PageStore;

// The count of an address in the tree under this root. Level 0 is the empty tree. Refused where the charge is below the height (9); in
// memory where no tree is kept also where a page does not exist (8) or breaks a rule (12).
pub fn tally<S: PageStore>(store: &mut S, root: PageRef, address: u64) -> Result<u16, Fault>
    ensures { TallyIs (S.meaning store.old) root.page root.level address result (S.meaning store.new) }
{
    if root.level == 0 {
        return Ok(0);
    }
    let mut list = EntryList::new();
    read_page(store, root, &mut list)?;
    if root.level == 1 {
        return Ok(count_at(&list, address));
    }
    tally(store, child_at(&list, root, address), address)
}
