// What a scan has passed.
ghost use Rattle.std.specs.Prelude.{◌≡◌, ◌+◌, ◌^◌, ◌<◌, ◌≤◌, IsTrue, ◌↔◌};

// How many pages, and the sum of their counts.
#[derive(Clone, Copy, Default, PartialEq, Eq, Debug)]
pub struct Seen {
    pub pages: u16,
    pub sum: u32,
}

impl Seen {
    // One more page, with its count.
    pub(crate) fn add(&mut self, count: u32)
        requires pages { self.old.pages + 1 < 2 ^ 16 }
        requires sum { self.old.sum + count < 2 ^ 32 }
        ensures { self.new ≡ record { pages = self.old.pages + 1; sum = self.old.sum + count } }
    {
        self.pages += 1;
        self.sum += count;
    }

    // Rule F: whether the counts sum to the total, and a tree with pages leaves 6 of the pages 2 to `last` free.
    pub(crate) fn sums_hold(self, total: u32, last: u16) -> bool
        ensures { IsTrue result ↔ ((self.sum ≡ total) × (1 ≤ self.pages → self.pages + 7 ≤ last)) }
    {
        self.sum == total && (self.pages == 0 || u32::from(self.pages) + 7 <= u32::from(last))
    }
}
