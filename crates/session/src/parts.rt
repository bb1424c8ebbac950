// A script has parts, and each begins where the one before has made what it is there for.
ghost use Rattle.std.specs.Prelude.{◌≡◌, ⊤, ℕ, drop, MatchResult};

use script::heard::is_silent;
use std::ops::ControlFlow;

// What a line does to a part: the part goes on; or it ends, with what the line made, or with nothing where the line belongs to the next part.
pub type Step<T> = ControlFlow<Option<T>>;

// Goes through the lines of a part; gives what it made, and the lines that are left: some end of the lines. Which end it is the closure decides, of which no
// more is said here.
pub fn part<'s, 't, T: Drop, F: FnMut(&'t str) -> anyhow::Result<Step<T>>>(
    lines: &'s [&'t str],
    mut line_does: F,
) -> anyhow::Result<(Option<T>, &'s [&'t str])>
    requires { F.IsAlwaysCallable line_does }
    ensures { MatchResult result (λ r. (k : ℕ) × (r.1.now ≡ drop k lines.now)) (λ _. ⊤) }
{
    for (i, line) in lines.iter().enumerate() {
        // asked here too, since most of what a heard line costs is to hand on what it says
        if is_silent(line) {
            continue;
        }
        match line_does(line)? {
            ControlFlow::Continue(()) => {}
            ControlFlow::Break(Some(made)) => return Ok((Some(made), &lines[i + 1..])),
            ControlFlow::Break(None) => return Ok((None, &lines[i..])),
        }
    }
    Ok((None, &[]))
}
