// A tree page is read through a window on its bytes, entry by entry.
ghost use Rattle.std.specs.Prelude.{◌≡◌, ◌<◌, min};
ghost use Rattle.layout.specs.Bytes.{level_of, count_of, number_of, entry_at, entries_of};
ghost use Rattle.layout.specs.Reading.{bytes_in, to_come};

use crate::entry::Entry;

// Borrows the bytes of a page; the cursor is at the entry to be read next.
#[derive(Drop, Debug)]
pub struct PageReader<'a> {
    bytes: &'a [u8; 128],
    at: usize,
}

impl<'a> PageReader<'a> {
    pub fn new(bytes: &'a [u8; 128]) -> PageReader<'a>
        ensures bytes { bytes_in result ≡ bytes.now }
        ensures start { to_come result ≡ entries_of bytes.now }
    {
        PageReader { bytes, at: 0 }
    }

    pub fn level(&self) -> u8
        ensures { result ≡ level_of (bytes_in self.now) }
    {
        self.bytes[0]
    }

    // The number of entries that the page says it has.
    pub fn count(&self) -> u8
        ensures { result ≡ count_of (bytes_in self.now) }
    {
        self.bytes[1]
    }

    // The page's own number.
    pub fn number(&self) -> u16
        ensures { result ≡ number_of (bytes_in self.now) }
    {
        u16::from_le_bytes([self.bytes[2], self.bytes[3]])
    }
}

// The entries to come. A page has places for ten, whatever it says.
impl Iterator for PageReader<'_> {
    ghost use Rattle.std.specs.Iterator.{item_count};
    ghost use Rattle.layout.specs.Reading.{to_come, Reads};

    type Item = Entry;

    ghost next_gives = { Reads };

    ghost remaining = { item_count to_come };

    fn next(&mut self) -> Option<Entry> {
        if self.at >= held(self.bytes) {
            return None;
        }
        let e = read_entry(self.bytes, self.at);
        self.at += 1;
        Some(e)
    }
}

// How many entries a page holds: as many as it says, at most ten.
fn held(bytes: &[u8; 128]) -> usize
    ensures { result ≡ min (count_of bytes.now) 10 }
{
    (bytes[1] as usize).min(10)
}

// The entry in the place `i`.
fn read_entry(bytes: &[u8; 128], i: usize) -> Entry
    requires { i < 10 }
    ensures { result ≡ entry_at bytes.now i }
{
    let p = 8 + 12 * i;
    let key = u64::from_le_bytes(bytes[p..p + 8].try_into().unwrap());
    let value = u16::from_le_bytes([bytes[p + 8], bytes[p + 9]]);
    Entry { key, value }
}
