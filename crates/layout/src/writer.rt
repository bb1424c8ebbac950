// Tree pages are written entry by entry, each into the twelve bytes of the page that it is lent.
ghost use Rattle.std.specs.Prelude.{◌≡◌, ◌≤◌, length};
ghost use Rattle.layout.specs.Bytes.{entry_bytes, Fit};
ghost use Rattle.layout.specs.Writing.{Holds, Writes};

use crate::entry::Entry;

// Encodes an entry into the twelve bytes that it is lent.
fn put_entry(part: &mut [u8], e: Entry)
    requires { length part.old ≡ 12 }
    ensures bytes { part.new ≡ entry_bytes e }
    ensures fits { Fit e }
{
    let [k0, k1, k2, k3, k4, k5, k6, k7] = e.key.to_le_bytes();
    let [v0, v1] = e.value.to_le_bytes();
    part.copy_from_slice(&[k0, k1, k2, k3, k4, k5, k6, k7, v0, v1, 0, 0]);
}

// Why a page is not written: it has room for ten entries.
#[derive(Clone, Copy, PartialEq, Eq, Debug)]
pub struct TooMany;

// Writes a tree page over the lent one. Refused, and nothing is written, where there are more than ten entries.
pub fn write_page(
    page: &mut [u8; 128],
    level: u8,
    number: u16,
    entries: &[Entry],
) -> Result<(), TooMany>
    ensures { Writes level number entries.now page.old result page.new }
{
    if entries.len() > 10 {
        return Err(TooMany);
    }
    put_page(page, level, number, entries);
    Ok(())
}

fn put_page(page: &mut [u8; 128], level: u8, number: u16, entries: &[Entry])
    requires { length entries.now ≤ 10 }
    ensures { Holds level number entries.now page.new }
{
    *page = [0; 128];
    let [low, high] = number.to_le_bytes();
    page[..4].copy_from_slice(&[level, entries.len() as u8, low, high]);
    // By place: of what `chunks_exact_mut` lent, a proof knows only the length.
    for (i, e) in entries.iter().enumerate() {
        let p = 8 + 12 * i;
        put_entry(&mut page[p..p + 12], *e);
    }
}
