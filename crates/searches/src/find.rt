// What a search answers.
use orders::point::Point;

// An event that a search found: its address, its point and its count. It is laid out as in C, so that callers in other languages can lend memory for finds.
#[repr(C)]
#[derive(Clone, Copy, PartialEq, Eq, Debug)]
pub struct Find {
    pub address: u64,
    pub point: Point,
    pub count: u16,
}

// How a search ended: all was found; or there was no room for the event at an address; or a page could not be read, and the address is the
// first of the box in that page's region.
#[derive(Clone, Copy, Default, PartialEq, Eq, Debug)]
pub enum Ending {
    #[default]
    Done,
    More(u64),
    Cut(u16, u64),
}

// How many finds a search put into the lent memory, how many pages it read, and how it ended.
#[derive(Clone, Copy, Default, PartialEq, Eq, Debug)]
pub struct Found {
    pub count: usize,
    pub reads: u32,
    pub ending: Ending,
}
