ghost use Rattle.std.specs.Prelude.{◌≡◌};
ghost use Rattle.pages.specs.Making.{refusal};

use std::fmt;

// Why a store or a layer is not made as asked: what the lent slots hold, or the list of bad pages.
#[derive(Clone, Copy, PartialEq, Eq, Debug)]
pub enum MakingFault {
    Slots,
    BadPages,
}

impl MakingFault {
    // The number of the refusal.
    pub fn number(self) -> u8
        ensures { result ≡ refusal self }
    {
        match self {
            MakingFault::Slots => 2,
            MakingFault::BadPages => 3,
        }
    }
}

impl fmt::Display for MakingFault {
    ghost use Rattle.std.specs.Prelude.{Some};
    ghost use Rattle.pages.specs.Text.{making_text};

    ghost output = { λ f. Some (making_text f) };

    fn fmt<W: fmt::Write>(&self, f: &mut fmt::Formatter<W>) -> fmt::Result {
        match self {
            MakingFault::Slots => f.write_str(
                "a slot store has 1 to 1024 pages and more slots than pages, each page in one slot at most",
            ),
            MakingFault::BadPages => f.write_str(
                "a skip list has 1 to 64 pages of the store below, strictly rising",
            ),
        }
    }
}

impl std::error::Error for MakingFault {}
