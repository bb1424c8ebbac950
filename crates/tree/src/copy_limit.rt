// The pages that a tree may use.
ghost use Rattle.std.specs.Prelude.{◌≡◌};
ghost use Rattle.tree.specs.Tree.{limit_of};

// L, the last usable page of a memory of so many pages: 1,024 at most
pub fn last_usable(pages: u16) -> u16
    ensures { result ≡ limit_of pages }
{
    pages.min(1024)
}
