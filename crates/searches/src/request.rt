// What a search is asked.
ghost use Rattle.std.specs.Prelude.{suc};
ghost use Rattle.searches.specs.Sought.{sought, Passes, FirstFrom};

use orders::order::PointOrder;
use orders::point::Point;
use orders::space::QueryBox;

// The events of a box, in an order, from the address `start` on.
#[derive(Clone, Copy)]
pub struct Request<'a, O> {
    pub order: &'a O,
    pub query: &'a QueryBox,
    pub start: u64,
}

impl<O: PointOrder> Request<'_, O> {
    // The point of an address that is asked for.
    pub(crate) fn point(&self, address: u64) -> Option<Point>
        ensures { Passes (sought O.PointOrder.meaning self.now) address result }
    {
        if address < self.start {
            return None;
        }
        self.order
            .point(address)
            .filter(|x| self.query.contains(*x))
    }

    // The first address of the box from the start on.
    pub(crate) fn first(&self) -> Option<u64>
        ensures { FirstFrom (sought O.PointOrder.meaning self.now) self.now.start result }
    {
        self.order.first(self.query, self.start)
    }

    // The first address of the box past the end of a region.
    pub(crate) fn first_past(&self, end: u64) -> Option<u64>
        ensures { FirstFrom (sought O.PointOrder.meaning self.now) (suc end) result }
    {
        self.order.first(self.query, end.checked_add(1)?)
    }
}
