// Lines that call: a question to the order, an access to the store, or a call of the index.
ghost use Rattle.std.specs.Prelude.{ℕ, ◌-◌, ◌^◌, MatchOption, MatchResult, codes};
ghost use Rattle.script.specs.Words.{texts, IsOneOf, EndsIn, EndsWrongly};
ghost use Rattle.script.specs.Calling.{access_verbs, Accesses, plain_verbs, index_verbs, call_verbs, Given, Searches, NoSearch, CallsIndex, NoIndexCall, Calls, NoCall};

use crate::parse::{parse_as, parse_box, parse_number, parse_point, parse_question};
use crate::question::Question;
use crate::reason::Reason;
use crate::trouble::Trouble;
use orders::point::Point;
use orders::space::QueryBox;
use std::alloc::Global;

// What a search is asked: a box, the address that it begins at, and for how many finds there is room.
#[derive(Clone, Copy, PartialEq, Eq, Debug)]
pub struct Search {
    pub query: QueryBox,
    pub start: u64,
    pub room: u32,
}

// The calls of the index.
#[derive(Clone, Copy, PartialEq, Eq, Debug)]
pub enum IndexCall {
    // the charge: how many page accesses the cell still carries
    Grant(u32),
    Format,
    // so many work records
    Open(u32),
    Shut,
    // one event more at a point
    Lodge(Point),
    // one event less
    Withdraw(Point),
    // how many events?
    Tally(Point),
    // which events has a box?
    Search(Search),
}

// An access to the store itself, past the index.
#[derive(Clone, Copy, PartialEq, Eq, Debug)]
pub enum Access {
    // a page of the store
    Read(u16),
    // a page, and the byte to fill it with
    Write(u16, u8),
}

#[derive(Clone, Copy, PartialEq, Eq, Debug)]
pub enum Call {
    Ask(Question),
    Access(Access),
    Index(IndexCall),
}

// The work records that an opening is lent where the line does not say.
const WORK: u32 = 64;

// For so many finds a search has room where the line does not say.
const ROOM: u32 = 1000;

fn parse_access(verb: &str, words: &[&str]) -> Result<Option<Access>, Reason>
    ensures { MatchResult result
        (λ read. MatchOption read (¬ IsOneOf access_verbs verb.now) (Accesses verb.now (texts words.now)))
        (λ _. IsOneOf access_verbs verb.now × ((a : Access) → ¬ Accesses verb.now (texts words.now) a)) }
{
    match (verb, words) {
        ("read", [page]) => Ok(Some(Access::Read(parse_as(page)?))),
        ("write", [page, byte]) => Ok(Some(Access::Write(parse_as(page)?, parse_as(byte)?))),
        ("read" | "write", _) => Err(Reason::Words),
        _ => Ok(None),
    }
}

// The work records behind `open`: none said, or `work RECORDS`.
fn parse_records(words: &[&str]) -> Result<u32, Reason>
    ensures { MatchResult result
        (Given (codes "work") 64 (2 ^ 32 - 1) (texts words.now))
        (λ _. (r : ℕ) → ¬ Given (codes "work") 64 (2 ^ 32 - 1) (texts words.now) r) }
{
    match words {
        [] => Ok(WORK),
        ["work", records] => parse_as(records),
        [_, _] => Err(Reason::Command),
        _ => Err(Reason::Words),
    }
}

// The calls that name no point.
fn parse_plain(verb: &str, words: &[&str]) -> Result<Option<IndexCall>, Reason>
    ensures { MatchResult result
        (λ read. MatchOption read (¬ IsOneOf plain_verbs verb.now) (λ c. (n : ℕ) → CallsIndex n verb.now (texts words.now) c))
        (λ _. IsOneOf plain_verbs verb.now × ((n : ℕ) (c : IndexCall) → ¬ CallsIndex n verb.now (texts words.now) c)) }
{
    match (verb, words) {
        ("grant", [charge]) => Ok(Some(IndexCall::Grant(parse_as(charge)?))),
        ("open", _) => Ok(Some(IndexCall::Open(parse_records(words)?))),
        ("format", []) => Ok(Some(IndexCall::Format)),
        ("shut", []) => Ok(Some(IndexCall::Shut)),
        ("grant" | "format" | "shut", _) => Err(Reason::Words),
        _ => Ok(None),
    }
}

// For how many finds there is room, and the words before `room FINDS`; the usual room, and all words, where they do not end so.
fn parse_room<'w, 'a>(words: &'w [&'a str]) -> Result<(&'w [&'a str], u32), Reason>
    ensures { MatchResult result
        (λ read. EndsIn (codes "room") 1000 (2 ^ 32 - 1) (texts words.now) (texts read.0.now) read.1)
        (λ _. EndsWrongly (codes "room") (2 ^ 32 - 1) (texts words.now)) }
{
    match words {
        [before @ .., "room", finds] => Ok((before, parse_as(finds)?)),
        _ => Ok((words, ROOM)),
    }
}

// The address that a search begins at, and the words before `from ADDRESS`; 0, and all words, where they do not end so.
fn parse_start<'w, 'a>(words: &'w [&'a str]) -> Result<(&'w [&'a str], u64), Reason>
    ensures { MatchResult result
        (λ read. EndsIn (codes "from") 0 (2 ^ 64 - 1) (texts words.now) (texts read.0.now) read.1)
        (λ _. EndsWrongly (codes "from") (2 ^ 64 - 1) (texts words.now)) }
{
    match words {
        [before @ .., "from", address] => Ok((before, parse_number(address, u64::MAX)?)),
        _ => Ok((words, 0)),
    }
}

// `BOX`, then `from ADDRESS` or not, then `room FINDS` or not.
fn parse_search(heap: Global, words: &[&str], n: u8) -> Result<Search, Trouble>
    ensures { MatchResult result
        (λ s. Searches n (texts words.now) s.query.low s.query.high s.start s.room)
        (NoSearch n (texts words.now)) }
{
    let (words, room) = parse_room(words)?;
    let (ends, start) = parse_start(words)?;
    let query = parse_box(heap, ends, n)?;
    Ok(Search { query, start, room })
}

fn parse_index_call(
    heap: Global,
    verb: &str,
    words: &[&str],
    n: u8,
) -> Result<Option<IndexCall>, Trouble>
    ensures { MatchResult result
        (λ read. MatchOption read (¬ IsOneOf index_verbs verb.now) (CallsIndex n verb.now (texts words.now)))
        (NoIndexCall n verb.now (texts words.now)) }
{
    let call = match verb {
        "lodge" => IndexCall::Lodge(parse_point(heap, words, n)?),
        "withdraw" => IndexCall::Withdraw(parse_point(heap, words, n)?),
        "tally" => IndexCall::Tally(parse_point(heap, words, n)?),
        "search" => IndexCall::Search(parse_search(heap, words, n)?),
        _ => return Ok(parse_plain(verb, words)?),
    };
    Ok(Some(call))
}

// A call, in a space of n coordinates: its words without the first. None where the first word calls nothing.
pub fn parse_call(heap: Global, verb: &str, words: &[&str], n: u8) -> Result<Option<Call>, Trouble>
    ensures { MatchResult result
        (λ read. MatchOption read (¬ IsOneOf call_verbs verb.now) (Calls n verb.now (texts words.now)))
        (NoCall n verb.now (texts words.now)) }
{
    if let Some(access) = parse_access(verb, words)? {
        return Ok(Some(Call::Access(access)));
    }
    if let Some(call) = parse_index_call(heap, verb, words, n)? {
        return Ok(Some(Call::Index(call)));
    }
    Ok(parse_question(heap, verb, words, n)?.map(Call::Ask))
}
