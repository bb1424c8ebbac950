// A line as it is heard: its words with single spaces, and what they say.
ghost use Rattle.std.specs.Prelude.{◌≡◌, ◌⊎◌, [], IfOk, IsTrue, ◌↔◌};
ghost use Rattle.script.specs.Heard.{Comment, HeardIs};

use crate::line::{Line, parse_line};
use crate::trouble::Trouble;
use crate::words::{joined, split_words};
use std::alloc::{AllocError, Global};

#[derive(Drop)]
pub struct Heard<'a> {
    pub echo: String,
    pub says: Result<Line<'a>, Trouble>,
}

// Whether a line is passed over at sight: a comment, or nothing.
pub fn is_silent(line: &str) -> bool
    ensures { IsTrue result ↔ (Comment line.now ⊎ (line.now ≡ [])) }
{
    line.is_empty() || line.starts_with('#')
}

// Hears a line, where the space has n coordinates. None of a comment, and of a line without words.
pub fn hear<'a>(heap: Global, line: &'a str, n: u8) -> Result<Option<Heard<'a>>, AllocError>
    ensures { IfOk result (HeardIs n line.now) }
{
    if is_silent(line) {
        return Ok(None);
    }
    let words = split_words(heap, line)?;
    if words.is_empty() {
        return Ok(None);
    }
    let echo = joined(heap, words.as_slice())?;
    let says = parse_line(heap, words.as_slice(), n);
    Ok(Some(Heard { echo, says }))
}
