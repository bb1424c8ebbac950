// Numbers, points and boxes, and the lines that ask the order alone. `Trouble::Unclear(..)` is written out where `.into()` would do: the proofs
// here do not get past that step.
ghost use Rattle.std.specs.Prelude.{◌≡◌, ℕ, ◌-◌, ◌^◌, ◌⊎◌, Some, None, MatchResult};
ghost use Rattle.script.specs.Grammar.{QuestionIs, FirstIs};
ghost use Rattle.script.specs.Numbers.{NumberIs};
ghost use Rattle.script.specs.Words.{texts, Numbers, NoNumbersTo, Written, NoPoint, Ends, NoBox};
ghost use Rattle.script.specs.declared.reason.Reason.TheVariants.{Number as is_number};

use crate::number::number;
use crate::point::point_of;
use crate::question::Question;
use crate::reason::Reason;
use crate::trouble::Trouble;
use orders::point::Point;
use orders::space::QueryBox;
use std::alloc::Global;

// A number up to the limit.
pub fn parse_number(word: &str, limit: u64) -> Result<u64, Reason>
    ensures { MatchResult result (λ v. NumberIs word.now limit (Some v)) (λ e. (e ≡ is_number) × NumberIs word.now limit None) }
{
    number(word, limit).ok_or(Reason::Number)
}

// A number that fits the type.
pub(crate) fn parse_as<T: TryFrom<u64>>(word: &str) -> Result<T, Reason>
where
    T::Error: Drop,
    ensures { MatchResult result
        (λ v. (k : ℕ) × NumberIs word.now (2 ^ 64 - 1) (Some k) × T.try_from_gives k (Ok v))
        (λ e. (e ≡ is_number) × (NumberIs word.now (2 ^ 64 - 1) None ⊎ ((k : ℕ) × (x : T.Error) × NumberIs word.now (2 ^ 64 - 1) (Some k) × T.try_from_gives k (Err x)))) }
{
    T::try_from(parse_number(word, u64::MAX)?).map_err(|_| Reason::Number)
}

fn parse_numbers(heap: Global, words: &[&str]) -> Result<Vec<u64>, Trouble>
    ensures { MatchResult result (λ v. Numbers (texts words.now) v.items) (NoNumbersTo (2 ^ 64 - 1) (texts words.now)) }
{
    let mut numbers = Vec::new(heap);
    for word in words {
        let value = parse_number(word, u64::MAX)?;
        numbers.push(value)?;
    }
    Ok(numbers)
}

// A point: n coordinates, or all four.
pub fn parse_point(heap: Global, words: &[&str], n: u8) -> Result<Point, Trouble>
    ensures { MatchResult result (Written n (texts words.now)) (NoPoint n (texts words.now)) }
{
    if words.len() != n as usize && words.len() != 4 {
        return Err(Trouble::Unclear(Reason::Words));
    }
    let numbers = parse_numbers(heap, words)?;
    Ok(point_of(numbers.as_slice(), n).ok_or(Reason::Number)?)
}

// A box: its low point and then its high point.
pub fn parse_box(heap: Global, words: &[&str], n: u8) -> Result<QueryBox, Trouble>
    ensures { MatchResult result (λ b. Ends n (texts words.now) b.low b.high) (NoBox n (texts words.now)) }
{
    if words.len() % 2 != 0 {
        return Err(Trouble::Unclear(Reason::Words));
    }
    let (low, high) = words.split_at(words.len() / 2);
    let low = parse_point(heap, low, n)?;
    let high = parse_point(heap, high, n)?;
    Ok(QueryBox::new(low, high)?)
}

fn parse_first(heap: Global, words: &[&str], n: u8) -> Result<Question, Trouble>
    ensures { FirstIs n (texts words.now) result }
{
    let [ends @ .., "from", start] = words else {
        return Err(Trouble::Unclear(Reason::Words));
    };
    let start = parse_number(start, u64::MAX)?;
    let b = parse_box(heap, ends, n)?;
    Ok(Question::FirstOf(b, start))
}

// A question to the order: its words without the first, which says what is asked. None where the first word asks nothing.
pub fn parse_question(
    heap: Global,
    verb: &str,
    words: &[&str],
    n: u8,
) -> Result<Option<Question>, Trouble>
    ensures { QuestionIs n verb.now (texts words.now) result }
{
    let question = match verb {
        "address" => Question::AddressOf(parse_point(heap, words, n)?),
        "point" => {
            let [word] = words else {
                return Err(Trouble::Unclear(Reason::Words));
            };
            Question::PointOf(parse_number(word, u64::MAX)?)
        }
        "first" => parse_first(heap, words, n)?,
        _ => return Ok(None),
    };
    Ok(Some(question))
}
