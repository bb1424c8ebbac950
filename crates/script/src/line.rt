// A line of a script: it sets up, or it calls.
ghost use Rattle.std.specs.Prelude.{MatchResult};
ghost use Rattle.script.specs.Words.{texts};
ghost use Rattle.script.specs.Lines.{Says, SaysNothing};

use crate::call::{Call, parse_call};
use crate::reason::Reason;
use crate::setup::{Setup, parse_setup};
use crate::trouble::Trouble;
use std::alloc::Global;

#[derive(Drop)]
pub enum Line<'a> {
    Setup(Setup<'a>),
    Call(Call),
}

// Reads a line's words, where the space has n coordinates.
pub fn parse_line<'a>(heap: Global, words: &[&'a str], n: u8) -> Result<Line<'a>, Trouble>
    ensures { MatchResult result (Says n (texts words.now)) (SaysNothing n (texts words.now)) }
{
    let [verb, rest @ ..] = words else {
        return Err(Trouble::Unclear(Reason::Command));
    };
    if let Some(setup) = parse_setup(heap, verb, rest)? {
        return Ok(Line::Setup(setup));
    }
    match parse_call(heap, verb, rest, n)? {
        Some(call) => Ok(Line::Call(call)),
        None => Err(Trouble::Unclear(Reason::Command)),
    }
}
