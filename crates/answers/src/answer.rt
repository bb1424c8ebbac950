// What a line is answered with.
ghost use Rattle.std.specs.Prelude.{◌≡◌, Some, MatchResult};
ghost use Rattle.answers.specs.Texts.{text_of};

pub use crate::text::Hex;
use crate::text::{FindLines, FoundText, PointText, Values};
use faults::fault::Fault;
use orders::refusal::Refusal;
use pages::fault::StoreFault;
use pages::making::MakingFault;
use script::question;
use script::reason::Reason;
use searches::find::{Find, Found};
use std::fmt;

#[derive(Drop)]
pub enum Answer {
    // done
    Ok,
    // so many events
    Count(u16),
    // how a search ended, and its finds, in a space of so many coordinates
    Found(Found, Vec<Find>, u8),
    // what the order answers, in a space of so many coordinates
    Asked(Option<question::Answer>, u8),
    // the bytes of a page
    Page([u8; 128]),
    // an access that the store refused
    Denied(StoreFault),
    // a space or a box that cannot be
    Impossible(Refusal),
    // a store or a layer that was made without pages
    Unmade(MakingFault),
    // a call that the index refused
    Refused(Fault),
    // a line that is not understood
    Unclear(Reason),
}

impl Answer {
    // The answer to what is done, or refused.
    pub(crate) fn done<E, F: FnOnce(E) -> Answer>(carried: Result<(), E>, refused: F) -> Answer
        requires { F.IsAlwaysCallable refused }
        ensures { MatchResult carried (λ _. result ≡ Answer.Ok) (λ e. F.post refused e result) }
    {
        carried.map_or_else(refused, |()| Answer::Ok)
    }
}

impl fmt::Display for Answer {
    ghost output = { λ a. Some (text_of a) };

    fn fmt<W: fmt::Write>(&self, f: &mut fmt::Formatter<W>) -> fmt::Result {
        match self {
            Answer::Ok => f.write_str("ok"),
            Answer::Count(count) => write!(f, "count {count}"),
            Answer::Found(found, finds, n) => {
                let finds = FindLines {
                    finds: finds.as_slice(),
                    n: *n,
                };
                write!(f, "{}{finds}", FoundText(*found))
            }
            Answer::Asked(None, _) => f.write_str("none"),
            Answer::Asked(Some(question::Answer::Address(a)), _) => write!(f, "{a}"),
            Answer::Asked(Some(question::Answer::At(x)), n) => {
                write!(f, "{}", PointText { point: *x, n: *n })
            }
            Answer::Page(bytes) => write!(f, "{}", Hex(bytes)),
            Answer::Denied(fault) => write!(f, "{fault}"),
            Answer::Impossible(refusal) => write!(f, "refused {}: {refusal}", refusal.number()),
            Answer::Unmade(fault) => write!(f, "refused {}: {fault}", fault.number()),
            Answer::Refused(fault) => {
                write!(f, "refused {}{}: {fault}", fault.number(), Values(*fault))
            }
            Answer::Unclear(reason) => write!(f, "not understood: {reason}"),
        }
    }
}
