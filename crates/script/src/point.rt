// Points from numbers.
ghost use Rattle.std.specs.Prelude.{◌≡◌};
ghost use Rattle.script.specs.Numbers.{PointIs};

use orders::point::Point;

// A point is written as its n coordinates, or as all four; each has 16 bits.
pub fn point_of(numbers: &[u64], n: u8) -> Option<Point>
    ensures { PointIs n numbers.now result }
{
    let len = numbers.len();
    if len > 4 || (len != n as usize && len != 4) {
        return None;
    }
    let mut coords = [0u16; 4];
    for (j, x) in numbers.iter().enumerate() {
        coords[j] = u16::try_from(*x).ok()?;
    }
    Some(Point { coords })
}
