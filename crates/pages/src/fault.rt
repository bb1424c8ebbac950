use std::fmt;

// Why a store refuses an access: it has no such page, or the cell carries no further access.
#[derive(Clone, Copy, PartialEq, Eq, Debug)]
pub enum StoreFault {
    Absent,
    Uncharged,
}

impl fmt::Display for StoreFault {
    ghost use Rattle.std.specs.Prelude.{Some};
    ghost use Rattle.pages.specs.Text.{fault_text};

    ghost output = { λ f. Some (fault_text f) };

    fn fmt<W: fmt::Write>(&self, f: &mut fmt::Formatter<W>) -> fmt::Result {
        match self {
            StoreFault::Absent => f.write_str("absent"),
            StoreFault::Uncharged => f.write_str("uncharged"),
        }
    }
}

impl std::error::Error for StoreFault {}
