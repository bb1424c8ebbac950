// The index: a store, an order, and what is known of the tree while the index is open.
use layout::page_ref::PageRef;
use records::free::FreeList;

// What an open index remembers of its tree: the root, at the tree's height, which is 0 where the tree is empty; the total of events; and the free pages.
#[derive(Drop)]
pub(crate) struct OpenTree {
    pub(crate) root: PageRef,
    pub(crate) total: u32,
    pub(crate) free: FreeList,
}

// It owns its store and its order, so nobody else changes them. It has a tree while it is open, and none while it is shut.
#[derive(Drop)]
pub struct Index<S, O> {
    pub(crate) store: S,
    pub(crate) order: O,
    pub(crate) tree: Option<OpenTree>,
}
