// A block of addresses: all that begin with the same bits. Its points are a box.
ghost use Rattle.std.specs.Prelude.{◌≡◌, ℕ, ◌+◌, ◌-◌, ◌*◌, ◌^◌, ◌<◌, ◌≤◌, IsTrue, ◌↔◌, slice_index};
ghost use Rattle.orders.specs.Interleave.{point_at, lacking, Touches, Hit, Least};
ghost use Rattle.orders.specs.Interleaved.{bits_of};

use crate::rule::BitRule;
use crate::space::QueryBox;

// The addresses that begin with the bits c and have `left` bits more; the corner is the point of the bits c, whose coordinates lack so many bits.
#[derive(Drop)]
pub struct Block<'a, R: BitRule> {
    rule: &'a R,
    left: u32,
    c: u64,
    corner: [u16; 4],
    lacks: [u32; 4],
    ghost inside: { left ≤ bits_of (R.space_of rule.now) },
    ghost short: { c < 2 ^ (bits_of (R.space_of rule.now) - left) },
    ghost at: { corner ≡ point_at (R.turn_of rule.now) (bits_of (R.space_of rule.now) - left) c },
    ghost lack: { (j : ℕ) → j < 4 → slice_index lacks j ≡ lacking (bits_of (R.space_of rule.now)) (R.used_of rule.now) (bits_of (R.space_of rule.now) - left) j },
}

impl<'a, R: BitRule> Block<'a, R> {
    // all addresses of the space
    pub fn whole(rule: &'a R) -> Block<'a, R>
        ensures rule { result.rule.now ≡ rule.now }
        ensures all { result.left ≡ bits_of (R.space_of rule.now) }
        ensures start { result.c ≡ 0 }
    {
        Block {
            rule,
            left: rule.bits(),
            c: 0,
            corner: [0; 4],
            lacks: rule.space().widths(),
        }
    }

    // The half whose next bit is this one. In a function of its own it leaves little on the stack at each of the 60 levels of a first address.
    #[inline(never)]
    fn half(&self, bit: u16) -> Block<'a, R>
        requires some { 0 < self.now.left }
        requires two { bit < 2 }
        ensures rule { result.rule.now ≡ self.now.rule.now }
        ensures less { result.left ≡ self.now.left - 1 }
        ensures bits { result.c ≡ self.now.c * 2 + bit }
    {
        let j = self.rule.turn(self.rule.bits() - self.left);
        let mut corner = self.corner;
        corner[j] = corner[j] * 2 + bit;
        let mut lacks = self.lacks;
        lacks[j] -= 1;
        Block {
            rule: self.rule,
            left: self.left - 1,
            c: self.c * 2 + bit as u64,
            corner,
            lacks,
        }
    }

    // whether the block has a point in common with the box
    fn touches(&self, b: &QueryBox) -> bool
        ensures { let total = bits_of (R.space_of self.now.rule.now) in IsTrue result ↔ (Touches (lacking total (R.used_of self.now.rule.now) (total - self.now.left)) b.now.low.coords b.now.high.coords self.now.corner) }
    {
        let low = b.low().coords;
        let high = b.high().coords;
        self.corner.iter().enumerate().all(|(j, c)| {
            let k = self.lacks[j];
            (low[j] >> k) <= *c && *c <= (high[j] >> k)
        })
    }

    // The least address of the block at or above `from` whose point is in the box. A block is halved, the lower half
    // first. A block that touches the box and lies wholly at or above `from` has an answer, so below it only one half is
    // gone into: the cost is linear in the number of bits.
    pub fn first(&self, b: &QueryBox, from: u64) -> Option<u64>
        ensures { Least result (Hit (bits_of (R.space_of self.now.rule.now)) (R.turn_of self.now.rule.now) b.now.low.coords b.now.high.coords from self.now.left self.now.c) }
    {
        if !self.touches(b) || (from >> self.left) > self.c {
            return None;
        }
        if self.left == 0 {
            return Some(self.c);
        }
        if let Some(a) = self.half(0).first(b, from) {
            return Some(a);
        }
        self.half(1).first(b, from)
    }
}
