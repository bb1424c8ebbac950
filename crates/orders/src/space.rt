// Spaces of at most four coordinates, and boxes.
ghost use Rattle.std.specs.Prelude.{◌≡◌, ℕ, ◌+◌, ◌-◌, ◌*◌, ◌/◌, ◌%◌, ◌^◌, ◌<◌, ◌≤◌, MatchResult, slice_index, IsTrue, ◌↔◌};
ghost use Rattle.orders.specs.Spaces.{Range, InSpace, Ordered, Within};
ghost use Rattle.orders.specs.declared.refusal.Refusal.TheVariants.{SpaceRange, BoxEnds};

use crate::point::Point;
use crate::refusal::Refusal;

// n coordinates of p bits each
#[derive(Clone, Copy, PartialEq, Eq, Debug)]
pub struct Space {
    n: u8,
    p: u8,
    ghost some: { 1 ≤ n },
    ghost four: { n ≤ 4 },
    ghost bit: { 1 ≤ p },
    ghost fifteen: { p ≤ 15 },
}

// All points between two corners, both included. No box exists whose low end lies above its high end,
// so nothing that takes a box asks again.
#[derive(Clone, Copy, PartialEq, Eq, Debug)]
pub struct QueryBox {
    low: Point,
    high: Point,
    ghost ordered: { (j : ℕ) → j < 4 → slice_index low.coords j ≤ slice_index high.coords j },
}

impl Space {
    pub fn new(n: u8, p: u8) -> Result<Space, Refusal>
        ensures { MatchResult result (λ s. (s.n ≡ n) × (s.p ≡ p)) (λ f. (f ≡ SpaceRange) × (Range n p → ⊥)) }
    {
        if n < 1 || n > 4 || p < 1 || p > 15 {
            return Err(Refusal::SpaceRange);
        }
        Ok(Space { n, p })
    }

    pub fn n(self) -> u8
        ensures same { result ≡ self.n }
        ensures some { 1 ≤ result }
        ensures four { result ≤ 4 }
    {
        self.n
    }

    pub fn p(self) -> u8
        ensures same { result ≡ self.p }
        ensures bit { 1 ≤ result }
        ensures fifteen { result ≤ 15 }
    {
        self.p
    }

    // how many bits an address has
    pub fn bits(self) -> u32
        ensures product { result ≡ self.n * self.p }
        ensures sixty { result ≤ 60 }
    {
        self.n as u32 * self.p as u32
    }

    // how many bits each coordinate has
    pub fn widths(self) -> [u32; 4]
        ensures some { (j : ℕ) → j < self.n → slice_index result j ≡ self.p }
        ensures none { (j : ℕ) → self.n ≤ j → slice_index result j ≡ 0 }
    {
        let mut widths = [0; 4];
        for j in 0..self.n as usize {
            widths[j] = self.p as u32;
        }
        widths
    }

    pub fn contains(self, x: Point) -> bool
        ensures { IsTrue result ↔ (InSpace self.n self.p x.coords) }
    {
        let n = self.n as usize;
        let p = self.p as u32;
        x.coords
            .iter()
            .enumerate()
            .all(|(j, c)| if j < n { (*c >> p) == 0 } else { *c == 0 })
    }
}

impl QueryBox {
    pub fn new(low: Point, high: Point) -> Result<QueryBox, Refusal>
        ensures { MatchResult result (λ b. (b.low ≡ low) × (b.high ≡ high)) (λ f. (f ≡ BoxEnds) × (Ordered low.coords high.coords → ⊥)) }
    {
        let (a, b) = (low.coords, high.coords);
        if a.iter().zip(b.iter()).any(|(x, y)| x > y) {
            return Err(Refusal::BoxEnds);
        }
        Ok(QueryBox { low, high })
    }

    pub fn low(&self) -> Point
        ensures { result ≡ self.now.low }
    {
        self.low
    }

    pub fn high(&self) -> Point
        ensures { result ≡ self.now.high }
    {
        self.high
    }

    // whether the point lies in the box
    pub fn contains(&self, x: Point) -> bool
        ensures { IsTrue result ↔ (Within self.now.low.coords self.now.high.coords x.coords) }
    {
        let (a, c, b) = (self.low.coords, x.coords, self.high.coords);
        let above = a.iter().zip(c.iter()).all(|(x, y)| x <= y);
        above && c.iter().zip(b.iter()).all(|(y, z)| y <= z)
    }
}
