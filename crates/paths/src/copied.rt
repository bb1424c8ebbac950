// What a copy of a path gives.
use crate::trade::Trade;
use layout::page_ref::PageRef;

// The tree's new root, of level 0 where the tree is empty.
#[derive(Clone, Copy, PartialEq, Eq, Debug)]
pub struct Copied {
    pub root: PageRef,
    pub trade: Trade,
}
