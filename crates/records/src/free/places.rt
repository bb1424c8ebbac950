// Looking into a free list without taking from it.
ghost use Rattle.std.specs.Prelude.{◌≡◌, ℕ, ◌<◌, ◌≤◌, length};
ghost use Rattle.std.specs.List.{slice_get};
ghost use Rattle.records.specs.Free.{numbers};

use crate::free::FreeList;

impl FreeList {
    // The number at a place, the front's being 0.
    pub fn peek(&self, place: usize) -> Option<u16>
        ensures { result ≡ slice_get (numbers self.now) place }
    {
        if place >= self.count as usize {
            return None;
        }
        let mut k = self.front;
        for _ in 0..place {
            k = self.next[k as usize];
        }
        Some(k)
    }
}
