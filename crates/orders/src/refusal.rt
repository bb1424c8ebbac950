// Why a space or a box was not made. Each refusal has a number that all programs share.
ghost use Rattle.std.specs.Prelude.{◌≡◌};
ghost use Rattle.orders.specs.Refusals.{number_of};

use std::error::Error;
use std::fmt;

#[derive(Clone, Copy, PartialEq, Eq, Debug)]
pub enum Refusal {
    // the number of coordinates or of bits is out of range
    SpaceRange,
    // a low end lies above its high end
    BoxEnds,
}

impl Refusal {
    pub fn number(self) -> u8
        ensures { result ≡ number_of self }
    {
        match self {
            Refusal::SpaceRange => 1,
            Refusal::BoxEnds => 4,
        }
    }
}

// Why, in plain words.
impl fmt::Display for Refusal {
    ghost use Rattle.std.specs.Prelude.{Some};
    ghost use Rattle.orders.specs.Refusals.{words};

    ghost output = { λ r. Some (words r) };

    fn fmt<W: fmt::Write>(&self, f: &mut fmt::Formatter<W>) -> fmt::Result {
        f.write_str(match self {
            Refusal::SpaceRange => "a space has 1 to 4 coordinates of 1 to 15 bits",
            Refusal::BoxEnds => "a low end lies above its high end",
        })
    }
}

impl Error for Refusal {}
