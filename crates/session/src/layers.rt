// The second part of a script: the layers over the store, two at most.
use crate::hear::{hear, say};
use crate::parts::{Step, part};
use crate::serve::serve;
use crate::session::Session;
use answers::answer::Answer;
use pages::skip::{Skip, skip_allowed};
use pages::store::PageStore;
use pages::turned::Turned;
use script::line::Line;
use script::reason::Reason;
use script::setup::Setup;
use std::ops::ControlFlow;

#[derive(Drop)]
enum Layer {
    Turned,
    // the pages to leave out
    Skip(Vec<u16>),
}

fn layer_line(
    rt: &HostRuntime,
    session: &mut Session,
    size: u16,
    line: &str,
) -> anyhow::Result<Step<Layer>> {
    let Some((echo, heard)) = hear(rt, session, line)? else {
        return Ok(ControlFlow::Continue(()));
    };
    match heard {
        Ok(Line::Setup(Setup::Turned)) => {
            say(rt, echo.as_str(), Answer::Ok)?;
            Ok(ControlFlow::Break(Some(Layer::Turned)))
        }
        Ok(Line::Setup(Setup::Skip(bad))) => {
            let answer = skip_allowed(bad.as_slice(), size).map_or_else(
                Answer::Unmade,
                |()| Answer::Ok,
            );
            say(rt, echo.as_str(), answer)?;
            Ok(ControlFlow::Break(Some(Layer::Skip(bad))))
        }
        Ok(Line::Setup(_)) => {
            say(rt, echo.as_str(), Answer::Unclear(Reason::Order))?;
            Ok(ControlFlow::Continue(()))
        }
        Ok(Line::Call(_)) | Err(_) => Ok(ControlFlow::Break(None)),
    }
}

// What may still come over a store: the rest of the script runs on any store.
pub trait Rest {
    fn run<S: PageStore + Drop>(
        self,
        rt: &HostRuntime,
        session: &mut Session,
        store: S,
        lines: &[&str],
    ) -> anyhow::Result<()>;
}

// No further layer: calls.
#[derive(Clone, Copy)]
pub struct Calls;

// One layer more, if the script names one, and then the rest.
#[derive(Clone, Copy)]
pub struct Layered<R> {
    rest: R,
}

// A script has two layers at most.
pub const TWO_LAYERS: Layered<Layered<Calls>> = Layered {
    rest: Layered { rest: Calls },
};

impl Rest for Calls {
    fn run<S: PageStore + Drop>(
        self,
        rt: &HostRuntime,
        session: &mut Session,
        store: S,
        lines: &[&str],
    ) -> anyhow::Result<()> {
        serve(rt, session, store, lines)
    }
}

impl<R: Rest + Drop> Rest for Layered<R> {
    fn run<S: PageStore + Drop>(
        self,
        rt: &HostRuntime,
        session: &mut Session,
        store: S,
        lines: &[&str],
    ) -> anyhow::Result<()> {
        let size = store.size();
        let (layer, left) = part(lines, |line| layer_line(rt, session, size, line))?;
        match layer {
            None => serve(rt, session, store, left),
            Some(Layer::Turned) => self.rest.run(rt, session, Turned::over(store), left),
            Some(Layer::Skip(bad)) => self
                .rest
                .run(rt, session, Skip::over(store, bad.as_slice()), left),
        }
    }
}
