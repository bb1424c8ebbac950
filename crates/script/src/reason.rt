// Why a line of a script was not understood.
use std::error::Error;
use std::fmt;

#[derive(Clone, Copy, PartialEq, Eq, Debug)]
pub enum Reason {
    // the first word is no command, or the second no kind of it; or another word stands where `work`, `erased` or `image` should
    Command,
    // too few words or too many
    Words,
    // a word that should be a number is none, or the number does not fit its type
    Number,
    // a set-up line that comes too late, or a second time
    Order,
    // more layers than the program has a form for
    Layers,
}

impl fmt::Display for Reason {
    ghost use Rattle.std.specs.Prelude.{Some};
    ghost use Rattle.script.specs.Reasons.{reason_text};

    ghost output = { λ r. Some (reason_text r) };

    fn fmt<W: fmt::Write>(&self, f: &mut fmt::Formatter<W>) -> fmt::Result {
        f.write_str(match self {
            Reason::Command => "no such command",
            Reason::Words => "wrong number of words",
            Reason::Number => "a number is missing or does not fit",
            Reason::Order => "a set-up line out of its order",
            Reason::Layers => "at most two layers",
        })
    }
}

impl Error for Reason {}
