// Why a line has no other answer: it is refused by a number, or not understood, or memory is short.
ghost use Rattle.std.specs.Prelude.{◌≡◌};
ghost use Rattle.script.specs.declared.trouble.Trouble.TheVariants.{Refused as is_refused, Unclear as is_unclear, Memory as is_memory};

use crate::reason::Reason;
use orders::refusal::Refusal;
use std::alloc::{AllocError, AllocFailed};

#[derive(Clone, Copy, PartialEq, Eq, Debug)]
pub enum Trouble {
    Refused(Refusal),
    Unclear(Reason),
    Memory,
}

impl From<Refusal> for Trouble {
    ghost from_gives = { λ e r. r ≡ is_refused e };

    fn from(e: Refusal) -> Trouble {
        Trouble::Refused(e)
    }
}

impl From<Reason> for Trouble {
    ghost from_gives = { λ e r. r ≡ is_unclear e };

    fn from(e: Reason) -> Trouble {
        Trouble::Unclear(e)
    }
}

// Two, since an allocation fails in two ways: with what was to be kept, and without.
impl From<AllocError> for Trouble {
    ghost from_gives = { λ _ r. r ≡ is_memory };

    fn from(_e: AllocError) -> Trouble {
        Trouble::Memory
    }
}

impl<T: Drop> From<AllocFailed<T>> for Trouble {
    ghost from_gives = { λ _ r. r ≡ is_memory };

    fn from(_e: AllocFailed<T>) -> Trouble {
        Trouble::Memory
    }
}
