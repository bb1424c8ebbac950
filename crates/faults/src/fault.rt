// The refusals of the index's calls. Each has a number that all programs share.
ghost use Rattle.std.specs.Prelude.{◌≡◌, Some};
ghost use Rattle.faults.specs.Refusals.{number_of, words, unread, unwritten};

use layout::header::NotHeader;
use layout::page_ref::PageRef;
use layout::visit::Rule;
use pages::fault::StoreFault;
use std::error::Error;
use std::fmt;

// The store's own fault, whole, with the page that was asked for.
#[derive(Clone, Copy, PartialEq, Eq, Debug)]
pub struct Access {
    pub at: PageRef,
    pub fault: StoreFault,
}

#[derive(Clone, Copy, PartialEq, Eq, Debug)]
pub enum Fault {
    // 5: the index is shut
    Shut,
    // 6: coordinates are outside the space
    Outside,
    // 7: fewer than 64 work records
    Work,
    // 8: the page does not exist
    Absent(Access),
    // 9: the charge does not carry the read
    Unread(Access),
    // 10: page 1 is no header
    NoHeader,
    // 11: the header is of another order
    OtherOrder,
    // 12: the page breaks the rule
    Unsound(u16, Rule),
    // 13: the point has no event
    NoEvent,
    // 14: the count is at its greatest
    CountFull,
    // 15: the tree would rise above six levels
    HeightFull,
    // 16: too few free pages
    Room,
    // 17: the charge does not carry the write
    Unwritten(Access),
}

impl Fault {
    // A read that the store refused. Beside `of_write`, and not one function with a parameter: the name says which at each call.
    pub fn of_read(access: Access) -> Fault
        ensures { result ≡ unread access }
    {
        match access.fault {
            StoreFault::Absent => Fault::Absent(access),
            StoreFault::Uncharged => Fault::Unread(access),
        }
    }

    // A write that the store refused.
    pub fn of_write(access: Access) -> Fault
        ensures { result ≡ unwritten access }
    {
        match access.fault {
            StoreFault::Absent => Fault::Absent(access),
            StoreFault::Uncharged => Fault::Unwritten(access),
        }
    }

    pub fn number(self) -> u8
        ensures { result ≡ number_of self }
    {
        match self {
            Fault::Shut => 5,
            Fault::Outside => 6,
            Fault::Work => 7,
            Fault::Absent(_) => 8,
            Fault::Unread(_) => 9,
            Fault::NoHeader => 10,
            Fault::OtherOrder => 11,
            Fault::Unsound(_, _) => 12,
            Fault::NoEvent => 13,
            Fault::CountFull => 14,
            Fault::HeightFull => 15,
            Fault::Room => 16,
            Fault::Unwritten(_) => 17,
        }
    }
}

impl From<NotHeader> for Fault {
    ghost use Rattle.std.specs.Prelude.{◌≡◌};
    ghost use Rattle.faults.specs.declared.fault.Fault.TheVariants.{NoHeader as is_no_header};

    ghost from_gives = { λ _ f. f ≡ is_no_header };

    fn from(_e: NotHeader) -> Self {
        Self::NoHeader
    }
}

impl Error for Fault {}

// Why, in plain words.
impl fmt::Display for Fault {
    ghost output = { λ f. Some (words f) };

    fn fmt<W: fmt::Write>(&self, f: &mut fmt::Formatter<W>) -> fmt::Result {
        f.write_str(match self {
            Fault::Shut => "the index is shut",
            Fault::Outside => "the point lies outside the space",
            Fault::Work => "an opening needs 64 work records",
            Fault::Absent(_) => "the store has no such page",
            Fault::Unread(_) => "the charge does not carry the read",
            Fault::NoHeader => "page 1 is no header",
            Fault::OtherOrder => "the header is of another order",
            Fault::Unsound(_, Rule::A) => "a page number is no usable page, or is reached twice",
            Fault::Unsound(_, Rule::B) => "a page does not say its own number or level",
            Fault::Unsound(_, Rule::C) =>
                "a page has not 1 to 10 entries, or bytes that should be zero are not",
            Fault::Unsound(_, Rule::D) =>
                "a leaf's keys do not rise inside its region, or a count is 0",
            Fault::Unsound(_, Rule::E) =>
                "an inner page's keys do not rise inside its region, or the last is not 0",
            Fault::Unsound(_, Rule::F) =>
                "the counts do not sum to the total, or fewer than 6 pages are free",
            Fault::NoEvent => "the point has no event",
            Fault::CountFull => "the count is at its greatest",
            Fault::HeightFull => "the tree would rise above 6 levels",
            Fault::Room => "too few free pages",
            Fault::Unwritten(_) => "the charge does not carry the write",
        })
    }
}
