// A page on a path that is copied.
ghost use Rattle.std.specs.Prelude.{◌≤◌};

use layout::page_ref::PageRef;

// Of one of at most six levels.
#[derive(Clone, Copy, PartialEq, Eq, Debug)]
pub struct Step {
    pub at: PageRef,
    ghost one: { 1 ≤ at.level },
    ghost six: { at.level ≤ 6 },
}
