ghost use Rattle.std.specs.Prelude.{◌≡◌};
ghost use Rattle.records.specs.Free.{numbers};
ghost use Rattle.slots.specs.Survey.{Answers};
ghost use Rattle.slots.specs.Making.{Makes};

use crate::row::SlotRow;
use crate::store::SlotStore;
use crate::survey::surveyed;
use pages::charge::Charge;
use pages::making::MakingFault;
use records::free::FreeList;

// The question before the making: is `pages` from 1 to 1,024, are there more slots, and is no slot number above `pages` or, but for 0,
// used twice?
pub fn slots_allowed(slots: &[[u8; 130]], pages: u16) -> Result<(), MakingFault>
    ensures { Answers slots.now pages result }
{
    surveyed(slots, pages).map(|_| ()).ok_or(MakingFault::Slots)
}

impl<'a> SlotStore<'a> {
    // A store of `pages` pages over the lent slots, with charge 0. Where the slots are not allowed it has no page.
    pub fn over(slots: &'a mut [[u8; 130]], pages: u16) -> SlotStore<'a>
        ensures made { Makes slots.old pages result.pages (numbers result.free) }
        ensures slots { result.row.slots.now ≡ slots.old }
        ensures lent { result.row.slots.ghost_name ≡ slots.entry.ghost_name }
        ensures uncharged { result.charge.left ≡ 0 }
    {
        let Some(survey) = surveyed(slots, pages) else {
            return SlotStore {
                row: SlotRow { slots },
                home: [0; 1025],
                free: FreeList::none(),
                pages: 0,
                charge: Charge::none(),
            };
        };
        let free = FreeList::rising(1, pages + 1, &survey.used);
        SlotStore {
            row: SlotRow { slots },
            home: survey.home,
            free,
            pages,
            charge: Charge::none(),
        }
    }
}
