// The old pages of a path, the leaf's first.
ghost use Rattle.std.specs.Prelude.{◌≡◌, ℕ, ◌<◌, ◌≤◌, slice_index};

mod methods;

// Six at most, in a table, so that they can be copied; its rest is zeros, so the same pages are the same table.
#[derive(Clone, Copy, PartialEq, Eq, Debug)]
pub struct OldPages {
    table: [u16; 6],
    len: usize,
    ghost six: { len ≤ 6 },
    ghost rest: { (j : ℕ) → len ≤ j → j < 6 → slice_index table j ≡ 0 },
}
