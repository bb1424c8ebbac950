// Point orders: one address for each point of a space.
ghost use Rattle.std.specs.Prelude.{◌≡◌, ℕ, ◌*◌, ◌^◌, ◌<◌, ◌≤◌};
ghost use Rattle.orders.specs.Interleaved.{order_of};
ghost use Rattle.orders.specs.Orders.{Order, Lawful, AddressIs, PointIs, FirstIs};
ghost use Rattle.orders.specs.Laws.{there, back};

use crate::block::Block;
use crate::point::Point;
use crate::rule::{BitRule, address_by, point_by};
use crate::rules::{RowRule, ZRule};
use crate::space::{QueryBox, Space};

// What an order means is one record, and what it owes is one law; every function answers by them, and none asks anything
// of its caller.
pub trait PointOrder {
    ghost meaning: { Self → Order };

    // the number of the order's kind in a header, 1 to 255
    fn kind(&self) -> u8
        ensures { result ≡ (meaning self.now).kind };

    // the number of coordinates, 1 to 4
    fn n(&self) -> u8
        ensures { result ≡ (meaning self.now).n };

    // the number of bits of a coordinate, 1 to 15
    fn p(&self) -> u8
        ensures { result ≡ (meaning self.now).p };

    // none outside the space
    fn address(&self, x: Point) -> Option<u64>
        ensures { AddressIs (meaning self.now) x.coords result };

    // none above top
    fn point(&self, a: u64) -> Option<Point>
        ensures { PointIs (meaning self.now) a result };

    // The least address at or above `from` whose point is in the box; none where there is none, and for a box that leaves the space.
    fn first(&self, b: &QueryBox, from: u64) -> Option<u64>
        ensures { FirstIs (meaning self.now) b.now.low.coords b.now.high.coords from result };

    ghost lawful: { (s : Self) → Lawful (meaning s) };
}

// The order that a rule makes.
#[derive(Clone, Copy, PartialEq, Eq, Debug)]
pub struct Interleaved<R> {
    pub rule: R,
}

pub type ZOrder = Interleaved<ZRule>;

pub type RowOrder = Interleaved<RowRule>;

impl<R: BitRule> Interleaved<R> {
    // the rule's order of the space
    pub fn over(space: Space) -> Interleaved<R>
        ensures { R.space_of result.rule ≡ space }
    {
        Interleaved {
            rule: R::over(space),
        }
    }
}

impl<R: BitRule> PointOrder for Interleaved<R> {
    ghost meaning = { λ s. order_of (R.BitRule.kind_of s.rule) (R.BitRule.space_of s.rule) (R.BitRule.turn_of s.rule) };

    ghost lawful = { λ s.
        let o = R.BitRule in
        let d = s.rule in
        let sp = o.space_of d in
        let S = R.BitRule.deals d in
        record {
          kinds = R.BitRule.kinds d;
          range = S.range;
          there = there sp.n sp.p (o.turn_of d) (o.used_of d) S;
          back = back sp.n sp.p (o.turn_of d) (o.used_of d) S;
        } };

    fn kind(&self) -> u8 {
        self.rule.kind()
    }

    fn n(&self) -> u8 {
        self.rule.space().n()
    }

    fn p(&self) -> u8 {
        self.rule.space().p()
    }

    fn address(&self, x: Point) -> Option<u64> {
        if !self.rule.space().contains(x) {
            return None;
        }
        Some(address_by(&self.rule, x.coords))
    }

    fn point(&self, a: u64) -> Option<Point> {
        if (a >> self.rule.bits()) != 0 {
            return None;
        }
        Some(Point {
            coords: point_by(&self.rule, a),
        })
    }

    fn first(&self, b: &QueryBox, from: u64) -> Option<u64> {
        let space = self.rule.space();
        if !space.contains(b.low()) || !space.contains(b.high()) {
            return None;
        }
        Block::whole(&self.rule).first(b, from)
    }
}
