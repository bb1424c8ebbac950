// Hearing a line: what is answered alike at every point of a script is answered here.
ghost use Rattle.std.specs.Prelude.{IfOk};
ghost use Rattle.session.specs.SetUp.{Notes};

use crate::session::{Ending, Session};
use answers::answer::Answer;
use orders::refusal::Refusal;
use script::heard::{self, Heard};
use script::line::Line;
use script::setup::Setup;
use script::trouble::Trouble;
use std::alloc::AllocError;

// Answers a line.
pub fn say(rt: &HostRuntime, echo: &str, answer: Answer) -> anyhow::Result<()> {
    println!(rt; "{echo} -> {answer}")?;
    Ok(())
}

// Notes what is to be done at the end.
fn note(rt: &HostRuntime, session: &mut Session, echo: &str, ending: Ending) -> anyhow::Result<()>
    ensures { IfOk result (λ _. Notes session.old ending session.new) }
{
    session.endings.push(ending)?;
    say(rt, echo, Answer::Ok)
}

// The line with single spaces, and what it says, or a box in it that cannot be; none where it is answered already, or is passed over in silence.
pub fn hear<'a>(
    rt: &HostRuntime,
    session: &mut Session,
    line: &'a str,
) -> anyhow::Result<Option<(String, Result<Line<'a>, Refusal>)>> {
    let Some(Heard { echo, says }) = heard::hear(rt.alloc(), line, session.chosen().space.n())?
    else {
        return Ok(None);
    };
    match says {
        Ok(Line::Setup(Setup::Dump)) => note(rt, session, echo.as_str(), Ending::Dump)?,
        Ok(Line::Setup(Setup::Save(file))) => {
            let name = String::from_str(rt.alloc(), file)?;
            note(rt, session, echo.as_str(), Ending::Save(name))?
        }
        Ok(line) => return Ok(Some((echo, Ok(line)))),
        Err(Trouble::Refused(refusal)) => return Ok(Some((echo, Err(refusal)))),
        Err(Trouble::Unclear(reason)) => say(rt, echo.as_str(), Answer::Unclear(reason))?,
        Err(Trouble::Memory) => return Err(AllocError.into()),
    }
    Ok(None)
}
