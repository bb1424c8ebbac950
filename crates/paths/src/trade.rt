// What a copy of a path does to the free list.
ghost use Rattle.std.specs.Prelude.{◌≡◌, ◌+◌, ◌<◌, [], ◌∷◌, ◌++◌, length, slice_index};
ghost use Rattle.paths.specs.OldPages.{old_pages};
ghost use Rattle.records.specs.Free.{numbers};

use crate::old_pages::OldPages;
use records::free::FreeList;

// It takes `used` pages from the front; and the old path's pages, the leaf's first, are free after it.
#[derive(Clone, Copy, Default, PartialEq, Eq, Debug)]
pub struct Trade {
    pub used: usize,
    pub path: OldPages,
}

impl Trade {
    // The same with one more old page.
    pub(crate) fn with_old(self, page: u16) -> Trade
        requires { length (old_pages self.path) < 6 }
        ensures used { result.used ≡ self.used }
        ensures path { old_pages result.path ≡ old_pages self.path ++ page ∷ [] }
    {
        Trade {
            path: self.path.with(page),
            ..self
        }
    }

    // Takes the next free page.
    pub(crate) fn next_page(&mut self, free: &FreeList) -> u16
        requires { self.old.used < length (numbers free.now) }
        ensures page { result ≡ slice_index (numbers free.now) self.old.used }
        ensures used { self.new.used ≡ self.old.used + 1 }
        ensures path { self.new.path ≡ self.old.path }
    {
        let page = free.peek(self.used).unwrap();
        self.used += 1;
        page
    }
}
