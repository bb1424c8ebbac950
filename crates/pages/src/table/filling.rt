ghost use Rattle.std.specs.Prelude.{◌≡◌, ℕ, ◌+◌, ◌-◌, ◌≤◌, [], ◌++◌, take};
ghost use Rattle.std.specs.List.{range_with_len};
ghost use Rattle.arrayvec.specs.ArrayVec.{array_vec_len};
ghost use Rattle.pages.specs.Table.{places_in, Tabulates, counted, Finds};

use crate::fault::StoreFault;
use crate::table::SkipTable;
use arrayvec::ArrayVec;

// At most so many pages may be bad.
const MOST_BAD: usize = 64;

// Puts the numbers past `after` up to `upto` behind the others, as many as there is room for.
fn fill(places: &mut ArrayVec<u16, 1024>, after: u16, upto: u16)
    requires few { array_vec_len places.old ≤ 1024 }
    requires order { after ≤ upto }
    ensures { places.new.items ≡ take 1024 (places.old.items ++ range_with_len (after + 1) (upto - after)) }
{
    for k in after..upto {
        let _ = places.try_push(k + 1);
    }
}

impl SkipTable {
    // A table without a place.
    pub(crate) fn none() -> SkipTable
        ensures { places_in result ≡ [] }
    {
        SkipTable {
            places: ArrayVec::new(),
            reach: 0,
        }
    }

    // Goes through the list once: checks that it rises and stays within the pages of a store of `size`, and enters what it leaves.
    pub(crate) fn without(bad: &[u16], size: u16) -> Option<SkipTable>
        ensures { Tabulates bad.now size result }
    {
        if bad.is_empty() || bad.len() > MOST_BAD {
            return None;
        }
        let mut places = ArrayVec::new();
        let mut last = 0;
        for &b in bad {
            if b <= last || b > size {
                return None;
            }
            fill(&mut places, last, b - 1);
            last = b;
        }
        fill(&mut places, last, size);
        Some(SkipTable {
            places,
            reach: size,
        })
    }

    // How many pages the layer has over a store of `size` pages.
    pub(crate) fn count_over(&self, size: u16) -> u16
        ensures { result ≡ counted self.now size }
    {
        if self.reach <= size {
            self.places.len() as u16
        } else {
            0
        }
    }

    // Where page `page` of the layer lies in a store of `size` pages.
    pub(crate) fn place(&self, page: u16, size: u16) -> Result<u16, StoreFault>
        ensures { Finds self.now size page result }
    {
        if page == 0 || page > self.count_over(size) {
            return Err(StoreFault::Absent);
        }
        Ok(self.places[page as usize - 1])
    }
}
