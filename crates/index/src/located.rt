// The question that every call asks which names a point.
ghost use Rattle.index.specs.Located.{Located};

use faults::fault::Fault;
use orders::order::PointOrder;
use orders::point::Point;

// The address of a point, which must be in the space.
pub(crate) fn located<O: PointOrder>(order: &O, x: Point) -> Result<u64, Fault>
    ensures { Located (O.meaning order.now) x.coords result }
{
    order.address(x).ok_or(Fault::Outside)
}
