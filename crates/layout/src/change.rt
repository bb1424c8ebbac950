// What the edits of a page's entries take and answer.

// Why an address is not entered: its count is the greatest there is, or there is no room for its entry.
#[derive(Clone, Copy, PartialEq, Eq, Debug)]
pub enum EnterFault {
    CountFull,
    NoRoom,
}

// Why two pages are not put in a child's place: eleven entries are there already.
#[derive(Clone, Copy, PartialEq, Eq, Debug)]
pub struct Full;

// What stands in a child's place: one page, or two, left and right, with the key between them.
#[derive(Clone, Copy, PartialEq, Eq, Debug)]
pub enum ChildPages {
    One(u16),
    Two(u16, u64, u16),
}

// The right half of a page that was split, and the left half's key above it.
#[derive(Drop, Debug)]
pub struct RightHalf<T> {
    pub key: u64,
    pub entries: T,
}
