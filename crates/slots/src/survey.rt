ghost use Rattle.std.specs.Prelude.{◌≡◌};
ghost use Rattle.slots.specs.Survey.{Surveys};

use crate::slot::number_of;

// A slot store has at most so many pages.
const MOST_PAGES: u16 = 1024;

// In tables of fixed size: what the making of a slot store reads off its slots: the slot of each page, or 0, and which slots are used, both counted from 1.
#[derive(Drop)]
pub(crate) struct Survey {
    pub(crate) home: [u16; 1025],
    pub(crate) used: [bool; 1026],
}

// Goes through the first `pages` + 1 slots: no number may lie above `pages` or, but for 0, stand twice.
pub(crate) fn surveyed(slots: &[[u8; 130]], pages: u16) -> Option<Survey>
    ensures { Surveys slots.now pages result }
{
    if pages == 0 || pages > MOST_PAGES || slots.len() <= pages as usize {
        return None;
    }
    let mut home = [0; 1025];
    let mut used = [false; 1026];
    for (i, slot) in slots[..=pages as usize].iter().enumerate() {
        let k = number_of(slot);
        if k > pages || home[k as usize] != 0 {
            return None;
        }
        if k != 0 {
            home[k as usize] = i as u16 + 1;
            used[i + 1] = true;
        }
    }
    Some(Survey { home, used })
}
