// One visit of a scan: its page is read, asked for the rules that one page can show, and opened up.
ghost use Rattle.std.specs.Prelude.{◌≡◌, ◌≤◌};
ghost use Rattle.layout.specs.Bytes.{content_of};
ghost use Rattle.walks.specs.Pending.{to_come, HasRoom, SameSize};
ghost use Rattle.walks.specs.Visits.{Judges, Visits};

use crate::children::{counted, put_children};
use faults::access::fetch;
use faults::fault::Fault;
use layout::list::EntryList;
use layout::rules::check_page;
use layout::visit::{Rule, Visit};
use pages::store::PageStore;
use records::tray::Tray;

// Asks a page that was read for rules B to E. A leaf that keeps them answers the sum of its counts; an inner page puts its children's visits
// on those that are pending, and answers 0.
fn judge(page: &[u8; 128], v: Visit, pending: &mut Tray<'_, Visit>) -> Result<u32, Rule>
    requires level { 1 ≤ v.at.level }
    requires room { HasRoom 10 pending.old }
    ensures judges { Judges (content_of page.now) v (to_come pending.old) result (to_come pending.new) }
    ensures size { SameSize pending.old pending.new }
{
    check_page(page, v)?;
    let list = EntryList::of_page(page);
    if v.at.level == 1 {
        return Ok(counted(list.as_slice()));
    }
    put_children(pending, v, list.as_slice());
    Ok(0)
}

// Reads the page of a visit, for one charge, and judges it. Its level is asked for here and held by no type: a lent record may be blank.
pub(crate) fn visit_page<S: PageStore>(
    store: &mut S,
    v: Visit,
    pending: &mut Tray<'_, Visit>,
) -> Result<u32, Fault>
    requires level { 1 ≤ v.at.level }
    requires room { HasRoom 10 pending.old }
    ensures visits { Visits (S.meaning store.old) v (to_come pending.old) result (S.meaning store.new) (to_come pending.new) }
    ensures size { SameSize pending.old pending.new }
{
    let mut page = [0; 128];
    fetch(store, v.at, &mut page)?;
    judge(&page, v, pending).map_err(|rule| Fault::Unsound(v.at.page, rule))
}
