// What old pages are and become.
ghost use Rattle.std.specs.Prelude.{◌≡◌, ◌<◌, [], ◌∷◌, ◌++◌, length};
ghost use Rattle.paths.specs.OldPages.{old_pages};

use super::OldPages;

impl Default for OldPages {
    ghost is_default = { λ p. old_pages p ≡ [] };

    fn default() -> OldPages {
        OldPages {
            table: [0; 6],
            len: 0,
        }
    }
}

impl OldPages {
    pub fn as_slice(&self) -> &[u16]
        ensures { result.now ≡ old_pages self.now }
    {
        &self.table[..self.len]
    }

    // The same with one page more.
    pub(crate) fn with(self, page: u16) -> OldPages
        requires { length (old_pages self) < 6 }
        ensures { old_pages result ≡ old_pages self ++ page ∷ [] }
    {
        let mut table = self.table;
        table[self.len] = page;
        OldPages {
            table,
            len: self.len + 1,
        }
    }
}
