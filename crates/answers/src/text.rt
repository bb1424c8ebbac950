// What is printed of the parts of an answer.
ghost use Rattle.std.specs.Prelude.{◌≡◌, ◌≤◌, Some, IfOk, length, take};
ghost use Rattle.std.specs.List.{flat_map};
ghost use Rattle.hex.specs.Hex.{encode_lower};
ghost use Rattle.answers.specs.Texts.{with_commas, point_text, ending_text, found_text, find_text, values_text};

use faults::fault::Fault;
use layout::page_ref::PageRef;
use orders::point::Point;
use searches::find::{Ending, Find, Found};
use std::fmt;

// Numbers with commas between them.
#[derive(Clone, Copy)]
struct WithCommas<'a>(&'a [u16]);

impl fmt::Display for WithCommas<'_> {
    ghost output = { λ x. Some (with_commas x.0.now) };

    fn fmt<W: fmt::Write>(&self, f: &mut fmt::Formatter<W>) -> fmt::Result {
        let Some((first, rest)) = self.0.split_first() else {
            return Ok(());
        };
        write!(f, "{first}")?;
        for c in rest {
            write!(f, ", {c}")?;
        }
        Ok(())
    }
}

// The first n coordinates.
fn first(coords: &[u16; 4], n: u8) -> &[u16]
    ensures { result.now ≡ take n coords.now }
{
    &coords[..usize::from(n.min(4))]
}

// The first n coordinates of a point, as (C0, C1, ..).
#[derive(Clone, Copy)]
pub struct PointText {
    pub point: Point,
    pub n: u8,
}

impl fmt::Display for PointText {
    ghost output = { λ x. Some (point_text x.n x.point) };

    fn fmt<W: fmt::Write>(&self, f: &mut fmt::Formatter<W>) -> fmt::Result {
        write!(f, "({})", WithCommas(first(&self.point.coords, self.n)))
    }
}

// How a search ended.
#[derive(Clone, Copy)]
struct EndingText(Ending);

impl fmt::Display for EndingText {
    ghost output = { λ x. Some (ending_text x.0) };

    fn fmt<W: fmt::Write>(&self, f: &mut fmt::Formatter<W>) -> fmt::Result {
        match self.0 {
            Ending::Done => f.write_str("done"),
            Ending::More(address) => write!(f, "more at {address}"),
            Ending::Cut(page, address) => write!(f, "cut at {address} page {page}"),
        }
    }
}

// How a search ended, how many pages it read and how many finds it made.
#[derive(Clone, Copy)]
pub struct FoundText(pub Found);

impl fmt::Display for FoundText {
    ghost output = { λ x. Some (found_text x.0) };

    fn fmt<W: fmt::Write>(&self, f: &mut fmt::Formatter<W>) -> fmt::Result {
        let Found {
            count,
            reads,
            ending,
        } = self.0;
        let ended = EndingText(ending);
        write!(f, "{ended}, {reads} reads, {count} finds")
    }
}

// A find on a line of its own: its address, its point with n coordinates, and its count.
#[derive(Clone, Copy)]
struct FindLine {
    find: Find,
    n: u8,
}

impl fmt::Display for FindLine {
    ghost output = { λ x. Some (find_text x.n x.find) };

    fn fmt<W: fmt::Write>(&self, f: &mut fmt::Formatter<W>) -> fmt::Result {
        let Find {
            address,
            point,
            count,
        } = self.find;
        let point = PointText { point, n: self.n };
        write!(f, "\n    {address} {point} x{count}")
    }
}

// A line for each find.
#[derive(Clone, Copy)]
pub struct FindLines<'a> {
    pub finds: &'a [Find],
    pub n: u8,
}

impl fmt::Display for FindLines<'_> {
    ghost output = { λ x. Some (flat_map (find_text x.n) x.finds.now) };

    fn fmt<W: fmt::Write>(&self, f: &mut fmt::Formatter<W>) -> fmt::Result {
        for find in self.finds {
            let line = FindLine {
                find: *find,
                n: self.n,
            };
            write!(f, "{line}")?;
        }
        Ok(())
    }
}

// The values that go with a refusal of the index.
#[derive(Clone, Copy)]
pub struct Values(pub Fault);

impl fmt::Display for Values {
    ghost output = { λ x. Some (values_text x.0) };

    fn fmt<W: fmt::Write>(&self, f: &mut fmt::Formatter<W>) -> fmt::Result {
        match self.0 {
            Fault::Absent(access) | Fault::Unread(access) | Fault::Unwritten(access) => {
                let PageRef { page, level } = access.at;
                let own = access.fault;
                write!(f, " page {page} level {level} {own}")
            }
            Fault::Unsound(page, rule) => write!(f, " page {page} rule {rule}"),
            _ => Ok(()),
        }
    }
}

// So many bytes are turned into digits at a time.
const PART: usize = 128;

// The digits of a part, in a buffer.
fn digits<'a>(part: &[u8], buffer: &'a mut [u8; 2 * PART]) -> Result<&'a str, fmt::Error>
    requires { length part.now ≤ PART }
    ensures { IfOk result (λ text. text.now ≡ encode_lower part.now) }
{
    let text = &mut buffer[..2 * part.len()];
    hex::encode_to_slice(part, text).map_err(|_| fmt::Error)?;
    str::from_utf8(text).map_err(|_| fmt::Error)
}

// Bytes in lower-case hexadecimal.
#[derive(Clone, Copy)]
pub struct Hex<'a>(pub &'a [u8]);

impl fmt::Display for Hex<'_> {
    ghost output = { λ x. Some (encode_lower x.0.now) };

    fn fmt<W: fmt::Write>(&self, f: &mut fmt::Formatter<W>) -> fmt::Result {
        let mut buffer = [0; 2 * PART];
        for part in self.0.chunks(PART) {
            f.write_str(digits(part, &mut buffer)?)?;
        }
        Ok(())
    }
}
