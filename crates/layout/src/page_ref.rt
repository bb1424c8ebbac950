// Which page is meant, and the level that it must have: 1 for a leaf, the tree's height for its root, 0 for the header.
#[derive(Clone, Copy, PartialEq, Eq, Debug, Default)]
pub struct PageRef {
    pub page: u16,
    pub level: u8,
}

// The root of the empty tree, no `None` but as a header has it: height 0 and page 0.
pub const EMPTY: PageRef = PageRef { page: 0, level: 0 };

// The header's page.
pub const HEADER: PageRef = PageRef { page: 1, level: 0 };
