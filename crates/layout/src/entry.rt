// An entry of a tree page.
ghost use Rattle.std.specs.Prelude.{◌≡◌, ◌+◌, ◌<◌, ◌≤◌, length, slice_index_or};
ghost use Rattle.layout.specs.Listed.{blank};

// In a leaf the key is an address and the value its count; in an inner page the key is the end of a
// child's region (0 in the last entry, which reaches the page's end) and the value the child's page number.
#[derive(Clone, Copy, PartialEq, Eq, Debug, Default)]
pub struct Entry {
    pub key: u64,
    pub value: u16,
}

// The end of the region of child `i`: its key, but the last child's region ends where the page's does, at `end`.
pub fn end_of(children: &[Entry], i: usize, end: u64) -> u64
    ensures inside { i + 1 < length children.now → result ≡ (slice_index_or children.now i blank).key }
    ensures last { i + 1 ≡ length children.now → result ≡ end }
    ensures past { length children.now ≤ i → result ≡ end }
{
    if i < children.len().saturating_sub(1) {
        children[i].key
    } else {
        end
    }
}
