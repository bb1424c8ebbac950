// A page as an opening visits it, and the rules that it asks.
ghost use Rattle.std.specs.Prelude.{◌+◌, [], ◌∷◌, Some};
ghost use Rattle.layout.specs.Rules.{letter};

use crate::page_ref::PageRef;
use std::fmt;

// A page yet to visit, at the level that it must have, and its region.
#[derive(Clone, Copy, PartialEq, Eq, Debug, Default)]
pub struct Visit {
    pub at: PageRef,
    pub lo: u64,
    pub hi: u64,
}

// The rules of a sound tree, by their letters.
#[derive(Clone, Copy, PartialEq, Eq, Debug)]
pub enum Rule {
    // each page number is 2 to the last usable page and is reached once
    A,
    // own number and level are right
    B,
    // there are 1 to 10 entries; unused bytes and the named zeros are zero
    C,
    // leaf keys rise strictly inside the region, with counts of at least 1
    D,
    // inner keys but the last rise strictly, at or above the region's start and below its end; the last is 0
    E,
    // counts sum to the header's total, and a tree with pages leaves 6 free
    F,
}

impl fmt::Display for Rule {
    ghost output = { λ r. Some ((64 + letter r) ∷ []) };

    fn fmt<W: fmt::Write>(&self, f: &mut fmt::Formatter<W>) -> fmt::Result {
        f.write_str(match self {
            Rule::A => "A",
            Rule::B => "B",
            Rule::C => "C",
            Rule::D => "D",
            Rule::E => "E",
            Rule::F => "F",
        })
    }
}
