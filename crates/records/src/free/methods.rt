ghost use Rattle.std.specs.Prelude.{◌≡◌, ℕ, ◌+◌, ◌-◌, min, max, [], length};
ghost use Rattle.records.specs.Chain.{unmarked, Fronts, Takes, Puts};
ghost use Rattle.records.specs.Free.{numbers};

use crate::free::FreeList;

// The greatest number that a free list can hold.
const GREATEST: u16 = 1025;

// What stands in the table at a number that is not in the chain.
const LOOSE: u16 = 65535;

impl FreeList {
    // A list without a number.
    pub fn none() -> FreeList
        ensures { numbers result ≡ [] }
    {
        FreeList {
            next: [LOOSE; 1026],
            front: 0,
            count: 0,
        }
    }

    // How many numbers there are.
    pub fn len(&self) -> u16
        ensures { result ≡ length (numbers self.now) }
    {
        self.count
    }

    // The first number.
    pub fn front(&self) -> Option<u16>
        ensures { Fronts result (numbers self.now) }
    {
        (self.front != 0).then_some(self.front)
    }

    // Takes the first number.
    pub fn take_front(&mut self) -> Option<u16>
        ensures { Takes (numbers self.old) result (numbers self.new) }
    {
        let k = self.front()?;
        let after = self.next[k as usize];
        self.next[k as usize] = LOOSE;
        self.front = after;
        self.count -= 1;
        Some(k)
    }

    // Puts a number to the front; gives back one that the list cannot hold or has.
    pub fn put_front(&mut self, k: u16) -> Result<(), u16>
        ensures { Puts k (numbers self.old) result (numbers self.new) }
    {
        if k == 0 || k > GREATEST || self.next[k as usize] != LOOSE {
            return Err(k);
        }
        let old = self.front;
        self.next[k as usize] = old;
        self.front = k;
        self.count += 1;
        Ok(())
    }

    // The numbers from `first` to `last` that are not marked, rising; those that a list cannot hold are left out.
    pub fn rising(first: u16, last: u16, marks: &[bool; 1026]) -> FreeList
        ensures { numbers result ≡ unmarked marks.now (max first 1) (min last 1025 + 1 - max first 1) }
    {
        let low = first.max(1);
        let high = last.min(GREATEST);
        let mut list = FreeList::none();
        for k in (low..=high).rev() {
            if !marks[k as usize] {
                let _ = list.put_front(k);
            }
        }
        list
    }
}
