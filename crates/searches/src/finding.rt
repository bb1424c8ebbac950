// The search of a leaf's entries.
ghost use Rattle.searches.specs.Sought.{sought};
ghost use Rattle.searches.specs.Finds.{Finds};

use crate::find::{Ending, Find};
use crate::request::Request;
use layout::entry::Entry;
use orders::order::PointOrder;
use records::tray::Tray;

// Puts the events of a leaf that are asked for into the tray, in their order, up to the first for which there is no room.
pub(crate) fn put_finds<O: PointOrder>(
    request: &Request<'_, O>,
    entries: &[Entry],
    finds: &mut Tray<'_, Find>,
) -> Ending
    ensures { Finds (sought O.PointOrder.meaning request.now) entries.now finds.old result finds.new }
{
    for e in entries {
        if let Some(point) = request.point(e.key) {
            let find = Find {
                address: e.key,
                point,
                count: e.value,
            };
            if finds.put(find).is_err() {
                return Ending::More(e.key);
            }
        }
    }
    Ending::Done
}
