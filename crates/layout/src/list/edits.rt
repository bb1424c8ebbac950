// Edits of a page's entries: those of a leaf, and those of an inner page.
ghost use Rattle.std.specs.Prelude.{◌≡◌, ◌<◌, length};
ghost use Rattle.layout.specs.Listed.{entries};
ghost use Rattle.layout.specs.Edits.{found, drop_child_lem, fit_leaf, fit_inner};
ghost use Rattle.layout.specs.Changes.{Enters, Removes, Picks, Puts, Ends, after_split, Few};

use crate::change::{ChildPages, EnterFault, Full, RightHalf};
use crate::entry::{Entry, end_of};
use crate::list::EntryList;
use arrayvec::ArrayVec;

impl EntryList {
    // In a leaf: the count at an address, if it has one.
    pub fn count(&self, address: u64) -> Option<u16>
        ensures { result ≡ found address (entries self.now) }
    {
        // not by `ok()?`: its step leaves the place unknown to the proof
        let Ok(i) = self.leaf_place(address) else {
            return None;
        };
        Some(self.items[i].value)
    }

    // In a leaf: one more at an address. Refused, with the list as it was, where its count is the greatest there is,
    // or where it has none and eleven entries are there already.
    pub fn enter(&mut self, address: u64) -> Result<(), EnterFault>
        ensures { Enters address (entries self.old) result (entries self.new) }
    {
        match self.leaf_place(address) {
            Ok(i) => {
                let e = &mut self.items[i];
                if e.value == u16::MAX {
                    return Err(EnterFault::CountFull);
                }
                e.value += 1;
                Ok(())
            }
            Err(_) if self.items.is_full() => Err(EnterFault::NoRoom),
            Err(i) => {
                self.items.insert(
                    i,
                    Entry {
                        key: address,
                        value: 1,
                    },
                );
                Ok(())
            }
        }
    }

    // In a leaf: one less at an address; at 0 the entry goes. Answers as a set's `remove`: false, and nothing is changed, where it has no entry.
    pub fn remove(&mut self, address: u64) -> bool
        ensures { Removes address (entries self.old) result (entries self.new) }
    {
        let Ok(i) = self.leaf_place(address) else {
            return false;
        };
        if self.items[i].value <= 1 {
            self.items.remove(i);
        } else {
            self.items[i].value -= 1;
        }
        true
    }

    // In an inner page: the child whose region holds an address. There is none where there is no entry.
    pub fn child(&self, address: u64) -> Option<u16>
        ensures { Picks address (entries self.now) result }
    {
        let i = self.child_place(address)?;
        Some(self.items[i].value)
    }

    // In an inner page: one or two pages in the place of the child for an address; its key stays, and goes with the
    // right one. Refused, and nothing is changed, where two find no room.
    pub fn put_child(&mut self, address: u64, pages: ChildPages) -> Result<(), Full>
        ensures { Puts address pages (entries self.old) result (entries self.new) }
    {
        let Some(i) = self.child_place(address) else {
            return Ok(());
        };
        let key = self.end_key(i);
        match pages {
            ChildPages::One(value) => self.items[i] = Entry { key, value },
            ChildPages::Two(left, middle, right) => {
                if self.items.is_full() {
                    return Err(Full);
                }
                self.items[i] = Entry { key, value: right };
                self.items.insert(
                    i,
                    Entry {
                        key: middle,
                        value: left,
                    },
                );
            }
        }
        Ok(())
    }

    // The key of entry i, or 0 of the last one.
    fn end_key(&self, i: usize) -> u64
        requires { i < length (entries self.now) }
        ensures { Ends (entries self.now) i result }
    {
        end_of(self.as_slice(), i, 0)
    }

    // In an inner page: the child for an address drops out; a key that becomes last becomes 0.
    pub fn drop_child(&mut self, address: u64)
        ensures { entries self.new ≡ drop_child_lem (entries self.old) address }
    {
        let Some(i) = self.child_place(address) else {
            return;
        };
        self.items.remove(i);
        if i > 0 && i == self.len() {
            self.items[i - 1].key = 0;
        }
    }

    // A leaf of eleven keeps its first six; the others are its right half, and its sixth key is its key above.
    // None where the entries fit one page.
    pub fn split_leaf(&mut self) -> Option<RightHalf<EntryList>>
        ensures fits { after_split (entries self.new) result ≡ fit_leaf (entries self.old) }
        ensures few { Few (after_split (entries self.new) result) }
    {
        if self.fits_page() {
            return None;
        }
        let key = self.items[5].key;
        let items = ArrayVec::try_from(&self.items[6..]).unwrap();
        self.items.truncate(6);
        Some(RightHalf {
            key,
            entries: EntryList { items },
        })
    }

    // The same for an inner page, where the sixth key becomes 0, since it is the left half's last.
    pub fn split_inner(&mut self) -> Option<RightHalf<EntryList>>
        ensures fits { after_split (entries self.new) result ≡ fit_inner (entries self.old) }
        ensures few { Few (after_split (entries self.new) result) }
    {
        let right = self.split_leaf()?;
        self.items[5].key = 0;
        Some(right)
    }
}
