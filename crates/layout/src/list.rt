// Up to eleven entries: those of a full page, and one more before it is split.
use crate::entry::Entry;
use arrayvec::ArrayVec;

mod edits;
mod places;

#[derive(Drop, Debug)]
pub struct EntryList {
    items: ArrayVec<Entry, 11>,
}
