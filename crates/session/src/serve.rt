// The last part of a script: calls.
ghost use Rattle.std.specs.Prelude.{◌≡◌};
ghost use Rattle.answers.specs.declared.answer.Answer.TheVariants.{Unclear as is_unclear};
ghost use Rattle.session.specs.SetUp.{late_line};

use crate::hear::{hear, say};
use crate::session::Session;
use answers::answer::Answer;
use answers::calls::{access, call};
use index::index::Index;
use orders::order::{PointOrder, RowOrder, ZOrder};
use pages::store::PageStore;
use script::call::{Access, Call};
use script::line::Line;
use script::question::ask;
use script::reason::Reason;
use script::setup::{OrderKind, Setup};

// The answer to a set-up line that comes too late.
fn late(session: &Session, setup: Setup) -> Answer
    ensures { result ≡ is_unclear (late_line session.now.called setup.entry) }
{
    Answer::Unclear(match setup {
        Setup::Turned | Setup::Skip(_) if !session.called => Reason::Layers,
        _ => Reason::Order,
    })
}

// Accesses the store past the index: the index is taken apart, and a new one is made, shut.
fn access_line<S: PageStore + Drop, O: PointOrder + Drop>(
    rt: &HostRuntime,
    index: Index<S, O>,
    echo: &str,
    line: Access,
) -> anyhow::Result<Index<S, O>> {
    let (mut store, order) = index.into_parts();
    say(rt, echo, access(&mut store, line))?;
    Ok(Index::new(store, order))
}

// The index after a line.
fn call_line<S: PageStore + Drop, O: PointOrder + Drop>(
    rt: &HostRuntime,
    session: &mut Session,
    mut index: Index<S, O>,
    order: &O,
    line: &str,
) -> anyhow::Result<Index<S, O>> {
    let Some((echo, heard)) = hear(rt, session, line)? else {
        return Ok(index);
    };
    let answer = match heard {
        Ok(Line::Setup(setup)) => {
            say(rt, echo.as_str(), late(session, setup))?;
            return Ok(index);
        }
        Ok(Line::Call(Call::Access(access))) => {
            session.called = true;
            return access_line(rt, index, echo.as_str(), access);
        }
        Ok(Line::Call(Call::Ask(question))) => Answer::Asked(ask(order, question), order.n()),
        Ok(Line::Call(Call::Index(line))) => call(rt.alloc(), &mut index, line, order.n())?,
        Err(refusal) => Answer::Impossible(refusal),
    };
    session.called = true;
    say(rt, echo.as_str(), answer)?;
    Ok(index)
}

// Runs the rest of the script on an index, made shut. Questions to the order go to a copy of it.
fn serve_in<S: PageStore + Drop, O: PointOrder + Copy>(
    rt: &HostRuntime,
    session: &mut Session,
    store: S,
    order: O,
    lines: &[&str],
) -> anyhow::Result<()> {
    let mut index = Index::new(store, order);
    for line in lines {
        index = call_line(rt, session, index, &order, line)?;
    }
    Ok(())
}

// Runs the rest of the script over a store with all its layers. Each pile has a copy of its own; in a function of its own it takes the stack of one pile
// alone.
#[inline(never)]
pub fn serve<S: PageStore + Drop>(
    rt: &HostRuntime,
    session: &mut Session,
    store: S,
    lines: &[&str],
) -> anyhow::Result<()> {
    let order = session.chosen();
    // each order is a type of its own
    match order.kind {
        OrderKind::Z => serve_in(rt, session, store, ZOrder::over(order.space), lines),
        OrderKind::Row => serve_in(rt, session, store, RowOrder::over(order.space), lines),
    }
}
