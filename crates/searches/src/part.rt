// What the walk of a part of the tree comes to.
use crate::find::Ending;

// How it ended, how many pages it read, and the next address of the box that is not yet passed.
#[derive(Clone, Copy, PartialEq, Eq, Debug)]
pub struct Part {
    pub ending: Ending,
    pub reads: u32,
    pub next: Option<u64>,
}
