// What a lodge needs, known at the leaf before the first write, from what is handed down the path.
ghost use Rattle.std.specs.Prelude.{◌≡◌, ℕ, ◌+◌, ◌≤◌};
ghost use Rattle.paths.specs.LodgeRules.{plan_below, leaf_takes, leaf_height, Asks};

use faults::fault::Fault;

// `base` pages in any case; if this page splits, `extra` more, and the tree's height is `height` then.
#[derive(Clone, Copy, PartialEq, Eq, Debug)]
pub struct Plan {
    pub base: u8,
    pub extra: u8,
    pub height: u8,
}

impl Plan {
    // The plan for a child of a page with `len` entries.
    pub(crate) fn below(self, len: usize) -> Plan
        requires { self.extra ≤ 254 }
        ensures { result ≡ plan_below len self }
    {
        if len <= 9 {
            return Plan {
                extra: 0,
                height: 0,
                ..self
            };
        }
        Plan {
            extra: self.extra + 1,
            ..self
        }
    }

    // How many pages are needed with `len` entries in the leaf.
    fn pages(self, len: usize) -> u16
        ensures is { result ≡ leaf_takes len self }
        ensures few { result ≤ 511 }
    {
        let base = self.base as u16;
        if len <= 10 {
            return base;
        }
        base + 1 + self.extra as u16
    }

    // The tree's height if the leaf splits with `len` entries, and 0, below every limit, if it does not.
    fn rises(self, len: usize) -> u8
        ensures { result ≡ leaf_height len self }
    {
        if len <= 10 { 0 } else { self.height }
    }

    // Asks whether the height stays at most 6 (15), and whether 6 pages are left free (16).
    pub(crate) fn ask(self, len: usize, free: u16) -> Result<(), Fault>
        ensures { Asks (leaf_height len self) (leaf_takes len self) free result }
    {
        if self.rises(len) > 6 {
            return Err(Fault::HeightFull);
        }
        if free < self.pages(len) + 6 {
            return Err(Fault::Room);
        }
        Ok(())
    }
}
