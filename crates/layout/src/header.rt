// The header, page 1 of every index: which order it is for, and the tree's height, root and total of events.
ghost use Rattle.std.specs.Prelude.{◌≡◌, IsTrue, ◌↔◌};
ghost use Rattle.layout.specs.Heads.{header_bytes, header_of, Proper, ReadsHeader};

// The greatest n, p and height.
const MOST_COORDINATES: u8 = 4;

const MOST_BITS: u8 = 15;

const MOST_LEVELS: u8 = 6;

#[derive(Clone, Copy, PartialEq, Eq, Debug)]
pub struct Header {
    pub kind: u8,
    pub n: u8,
    pub p: u8,
    pub height: u8,
    pub root: u16,
    pub total: u32,
}

// A page that is no header as laid out.
#[derive(Clone, Copy, PartialEq, Eq, Debug)]
pub struct NotHeader;

// The page that encodes a header.
impl From<Header> for [u8; 128] {
    ghost from_gives = { λ h bs. bs ≡ header_bytes h };

    fn from(h: Header) -> [u8; 128] {
        let [r0, r1] = h.root.to_le_bytes();
        let [t0, t1, t2, t3] = h.total.to_le_bytes();
        let mut page = [0; 128];
        page[..16].copy_from_slice(&[
            b'U', b'B', b'T', b'1', h.kind, h.n, h.p, h.height, r0, r1, 0, 0, t0, t1, t2, t3,
        ]);
        page
    }
}

// What a page says at the places of a header.
fn decode_header(page: &[u8; 128]) -> Header
    ensures { result ≡ header_of page.now }
{
    Header {
        kind: page[4],
        n: page[5],
        p: page[6],
        height: page[7],
        root: u16::from_le_bytes([page[8], page[9]]),
        total: u32::from_le_bytes([page[12], page[13], page[14], page[15]]),
    }
}

// Whether there is such a header.
fn is_proper(h: Header) -> bool
    ensures { IsTrue result ↔ (Proper h) }
{
    let space = h.kind >= 1 && h.n >= 1 && h.n <= MOST_COORDINATES && h.p >= 1 && h.p <= MOST_BITS;
    let empty = h.height == 0 && h.root == 0 && h.total == 0;
    let full = h.height >= 1 && h.height <= MOST_LEVELS && h.root >= 1 && h.total >= 1;
    space && (empty || full)
}

// The header that a page is the encoding of.
impl TryFrom<&[u8; 128]> for Header {
    type Error = NotHeader;

    ghost try_from_gives = { λ page r. ReadsHeader page.now r };

    fn try_from(page: &[u8; 128]) -> Result<Header, NotHeader> {
        let h = decode_header(page);
        if !is_proper(h) {
            return Err(NotHeader);
        }
        if <[u8; 128]>::from(h) != *page {
            return Err(NotHeader);
        }
        Ok(h)
    }
}
