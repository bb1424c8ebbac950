// Numbers in decimal.
ghost use Rattle.std.specs.Prelude.{IsTrue, ◌↔◌};
ghost use Rattle.script.specs.Numbers.{Digits, NumberIs};

fn is_digits(word: &str) -> bool
    ensures { IsTrue result ↔ (Digits word.now) }
{
    word.as_bytes().iter().all(|b| b.is_ascii_digit())
}

// The number that a word of digits alone writes; none for any other word, and for a number above the limit.
pub fn number(word: &str, limit: u64) -> Option<u64>
    ensures { NumberIs word.now limit result }
{
    if !is_digits(word) {
        return None;
    }
    let v = word.parse::<u64>().ok()?;
    (v <= limit).then_some(v)
}
