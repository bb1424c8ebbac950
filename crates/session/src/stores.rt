// The first part of a script: the order and the store.
ghost use Rattle.std.specs.Prelude.{◌≡◌, IfOk};
ghost use Rattle.session.specs.SetUp.{Chooses};
ghost use Rattle.session.specs.declared.memory.Kind.TheVariants.{Pages, Slots};

use crate::hear::{hear, say};
use crate::memory::{Kind, Memory, SLOT, blank_slots, filled};
use crate::parts::{Step, part};
use crate::session::{Chosen, Session};
use answers::answer::Answer;
use orders::refusal::Refusal;
use orders::space::Space;
use script::line::Line;
use script::reason::Reason;
use script::setup::{OrderKind, Setup};
use slots::store::making::slots_allowed;
use std::fs;
use std::ops::ControlFlow;

// The answer to a choice of the order, which is made once.
fn choose(session: &mut Session, kind: OrderKind, n: u8, p: u8) -> Answer
    ensures { Chooses session.old kind n p result session.new }
{
    if session.order.is_some() {
        return Answer::Unclear(Reason::Order);
    }
    match Space::new(n, p) {
        Ok(space) => {
            session.order = Some(Chosen { kind, space });
            Answer::Ok
        }
        Err(refusal) => Answer::Impossible(refusal),
    }
}

// The bytes of a file; none where it cannot be read, which is answered then.
fn read_file(rt: &HostRuntime, echo: &str, file: &str) -> anyhow::Result<Option<Vec<u8>>> {
    match fs::read(rt, file) {
        Ok(bytes) => Ok(Some(bytes)),
        Err(_) => {
            println!(rt; "{echo} -> cannot read {file}")?;
            Ok(None)
        }
    }
}

fn make_pages(rt: &HostRuntime, echo: &str, bytes: Vec<u8>) -> anyhow::Result<Memory>
    ensures { IfOk result (λ m. (m.bytes ≡ bytes) × (m.kind ≡ Pages)) }
{
    say(rt, echo, Answer::Ok)?;
    Ok(Memory {
        bytes,
        kind: Kind::Pages,
    })
}

fn make_slots(rt: &HostRuntime, echo: &str, bytes: Vec<u8>, pages: u16) -> anyhow::Result<Memory>
    ensures { IfOk result (λ m. (m.bytes ≡ bytes) × (m.kind ≡ Slots pages)) }
{
    let (slots, _rest) = bytes.as_slice().as_chunks::<SLOT>();
    let answer = slots_allowed(slots, pages).map_or_else(Answer::Unmade, |()| Answer::Ok);
    say(rt, echo, answer)?;
    Ok(Memory {
        bytes,
        kind: Kind::Slots(pages),
    })
}

// What a line that was heard does to this part.
fn set_up(
    rt: &HostRuntime,
    session: &mut Session,
    echo: String,
    heard: Result<Line<'_>, Refusal>,
) -> anyhow::Result<Step<Memory>> {
    match heard {
        Ok(Line::Setup(Setup::Order(kind, n, p))) => {
            say(rt, echo.as_str(), choose(session, kind, n, p))?;
            Ok(ControlFlow::Continue(()))
        }
        Ok(Line::Setup(Setup::Memory(pages, byte))) => {
            say(rt, echo.as_str(), Answer::Ok)?;
            Ok(ControlFlow::Break(Some(filled(rt.alloc(), pages, byte)?)))
        }
        Ok(Line::Setup(Setup::Image(file))) => match read_file(rt, echo.as_str(), file)? {
            Some(bytes) => Ok(ControlFlow::Break(Some(make_pages(rt, echo.as_str(), bytes)?))),
            None => Ok(ControlFlow::Continue(())),
        },
        Ok(Line::Setup(Setup::Slot(pages))) => {
            let bytes = blank_slots(rt.alloc(), pages)?;
            Ok(ControlFlow::Break(Some(make_slots(rt, echo.as_str(), bytes, pages)?)))
        }
        Ok(Line::Setup(Setup::SlotImage(pages, file))) => {
            match read_file(rt, echo.as_str(), file)? {
                Some(bytes) => Ok(ControlFlow::Break(Some(make_slots(
                    rt,
                    echo.as_str(),
                    bytes,
                    pages,
                )?))),
                None => Ok(ControlFlow::Continue(())),
            }
        }
        _ => Ok(ControlFlow::Break(None)),
    }
}

fn store_line(rt: &HostRuntime, session: &mut Session, line: &str) -> anyhow::Result<Step<Memory>> {
    let Some((echo, heard)) = hear(rt, session, line)? else {
        return Ok(ControlFlow::Continue(()));
    };
    set_up(rt, session, echo, heard)
}

// The memory of the store, and the lines that are left.
pub fn set_store<'s, 't>(
    rt: &HostRuntime,
    session: &mut Session,
    lines: &'s [&'t str],
) -> anyhow::Result<(Memory, &'s [&'t str])> {
    let (made, left) = part(lines, |line| store_line(rt, session, line))?;
    let Some(memory) = made else {
        return Ok((filled(rt.alloc(), 1024, 0)?, left));
    };
    Ok((memory, left))
}
