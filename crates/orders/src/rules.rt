// The rules of the Z order and of the row order.
ghost use Rattle.std.specs.Prelude.{◌≡◌, ℕ, ◌+◌, ◌-◌, ◌*◌, ◌/◌, ◌%◌, ◌^◌, ◌<◌, ◌≤◌};
ghost use Rattle.orders.specs.Rules.{z_turn, z_used, row_turn, row_used, ZPlaces, ZQuadrants, RowIs};
ghost use Rattle.orders.specs.Schedules.{z_schedule, row_schedule};
ghost use Rattle.std.proofs.Common.{rules};

use crate::rule::BitRule;
use crate::space::Space;

// The kinds' numbers in a header.
const Z_KIND: u8 = 1;

const ROW_KIND: u8 = 2;

// a bit of each coordinate in turn: bit i of coordinate j at place i * n + j
#[derive(Clone, Copy, PartialEq, Eq, Debug)]
pub struct ZRule {
    pub space: Space,
}

// one coordinate after the other, coordinate 0 highest
#[derive(Clone, Copy, PartialEq, Eq, Debug)]
pub struct RowRule {
    pub space: Space,
}

impl BitRule for ZRule {
    ghost kind_of = { λ _. 1 };

    ghost space_of = { λ s. s.space };

    ghost turn_of = { λ s. z_turn s.space.n };

    ghost used_of = { λ s. z_used s.space.n };

    ghost kinds = { Prim.search rules };

    ghost deals = { λ s. z_schedule s.space.n s.space.p (s.space.some, s.space.four, s.space.bit, s.space.fifteen) };

    fn over(space: Space) -> ZRule {
        ZRule { space }
    }

    fn kind(&self) -> u8 {
        Z_KIND
    }

    fn space(&self) -> Space {
        self.space
    }

    fn turn(&self, t: u32) -> usize {
        // n - 1 - t % n, by known numbers: a division by an unknown one would take most of the time of a point.
        let turn = match self.space.n() {
            1 => 0,
            2 => 1 - t % 2,
            3 => 2 - t % 3,
            _ => 3 - t % 4,
        };
        turn as usize
    }
}

impl BitRule for RowRule {
    ghost kind_of = { λ _. 2 };

    ghost space_of = { λ s. s.space };

    ghost turn_of = { λ s. row_turn s.space.p };

    ghost used_of = { λ s. row_used s.space.p };

    ghost kinds = { Prim.search rules };

    ghost deals = { λ s. row_schedule s.space.n s.space.p (s.space.some, s.space.four, s.space.bit, s.space.fifteen) };

    fn over(space: Space) -> RowRule {
        RowRule { space }
    }

    fn kind(&self) -> u8 {
        ROW_KIND
    }

    fn space(&self) -> Space {
        self.space
    }

    fn turn(&self, t: u32) -> usize {
        let j = t / self.space.p() as u32;
        if j < 4 { j as usize } else { 0 }
    }
}

// Where the bits stand in the Z order, as a theorem.
pub fn z_places_stand() -> u8
    ensures { (n : ℕ) (p : ℕ) → ZPlaces n p }
{
    0
}

// The Z order fills each hyper-quadrant before it enters the next, as a theorem.
pub fn z_quadrants_stand() -> u8
    ensures { (n : ℕ) (p : ℕ) → ZQuadrants n p }
{
    0
}

// The row order's address is the number with the coordinates as digits, as a theorem.
pub fn row_digits_stand() -> u8
    ensures { (n : ℕ) (p : ℕ) → RowIs n p }
{
    0
}
