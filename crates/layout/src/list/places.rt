// What an entry list holds, and where a key belongs in it.
ghost use Rattle.std.specs.Prelude.{◌≡◌, ◌≤◌, [], ◌∷◌, length, IsTrue, ◌↔◌};
ghost use Rattle.std.specs.List.{slice_get};
ghost use Rattle.layout.specs.Bytes.{entries_of};
ghost use Rattle.layout.specs.Edits.{entry};
ghost use Rattle.layout.specs.Listed.{entries, LeafPlace, FindsLeafPlace, FindsChildPlace};

use crate::entry::Entry;
use crate::list::EntryList;
use crate::reader::PageReader;
use arrayvec::ArrayVec;

impl EntryList {
    pub fn new() -> EntryList
        ensures { entries result ≡ [] }
    {
        EntryList {
            items: ArrayVec::new(),
        }
    }

    // The entries of an inner page over two children, with the key between them.
    pub fn of_two(left: u16, key: u64, right: u16) -> EntryList
        ensures { entries result ≡ entry key left ∷ entry 0 right ∷ [] }
    {
        let mut list = EntryList::new();
        list.items.push(Entry { key, value: left });
        list.items.push(Entry {
            key: 0,
            value: right,
        });
        list
    }

    // The entries of a page.
    pub fn of_page(bytes: &[u8; 128]) -> EntryList
        ensures { entries result ≡ entries_of bytes.now }
    {
        let mut list = EntryList::new();
        list.read(bytes);
        list
    }

    // Takes the entries of a page in place of its own. A list that is read into is not moved: moving one costs more than reading it.
    pub fn read(&mut self, bytes: &[u8; 128])
        ensures { entries self.new ≡ entries_of bytes.now }
    {
        self.items.clear();
        for e in PageReader::new(bytes) {
            self.items.push(e);
        }
    }

    pub fn len(&self) -> usize
        ensures is { result ≡ length (entries self.now) }
        ensures few { result ≤ 11 }
    {
        self.items.len()
    }

    // Whether one page has room for the entries.
    pub fn fits_page(&self) -> bool
        ensures { IsTrue result ↔ (length (entries self.now) ≤ 10) }
    {
        self.len() <= 10
    }

    pub fn as_slice(&self) -> &[Entry]
        ensures { result.now ≡ entries self.now }
    {
        self.items.as_slice()
    }

    pub fn get(&self, i: usize) -> Option<Entry>
        ensures { result ≡ slice_get (entries self.now) i }
    {
        self.as_slice().get(i).copied()
    }

    // In a leaf: where an address stands, or else where its entry would be put in.
    pub fn leaf_place(&self, address: u64) -> Result<usize, usize>
        ensures { FindsLeafPlace (entries self.now) address result }
    {
        let i = first_not_below(self.as_slice(), address);
        match self.get(i) {
            Some(e) if e.key == address => Ok(i),
            _ => Err(i),
        }
    }

    // In an inner page: the place of the child whose region holds the address. There is none where there is no entry.
    pub fn child_place(&self, address: u64) -> Option<usize>
        ensures { FindsChildPlace (entries self.now) address result }
    {
        let [others @ .., _] = self.as_slice() else {
            return None;
        };
        Some(first_not_below(others, address))
    }
}

// The place of the first key that is not below the address, or the end. It looks from the front, since the keys of a page
// that was read may be in any order.
fn first_not_below(entries: &[Entry], address: u64) -> usize
    ensures { LeafPlace entries.now address result }
{
    entries
        .iter()
        .position(|e| e.key >= address)
        .unwrap_or(entries.len())
}
