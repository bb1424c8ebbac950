// A line as words.
ghost use Rattle.std.specs.Prelude.{◌≡◌, IfOk};
ghost use Rattle.std.specs.List.{join_with_byte};
ghost use Rattle.std.specs.String.{string_bytes};
ghost use Rattle.script.specs.Words.{texts, words_of, SpacesAreNothing};

use std::alloc::{AllocError, Global};

// The words of a line: what stands between spaces.
pub fn split_words(heap: Global, line: &str) -> Result<Vec<&str>, AllocError>
    ensures words { IfOk result (λ words. texts words.items ≡ words_of line.now) }
    ensures example { SpacesAreNothing }
{
    line.split(' ')
        .filter(|word| !word.is_empty())
        .collect(heap)
}

// The words with single spaces between them.
pub fn joined(heap: Global, words: &[&str]) -> Result<String, AllocError>
    ensures { IfOk result (λ line. string_bytes line ≡ join_with_byte 32 (texts words.now)) }
{
    words.join(heap, " ")
}
