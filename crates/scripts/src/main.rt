// Runs the script of each file that an argument names, one after the other, under its name.
#![tactic(auto)]

use session::run::run_script;
use std::{env, fs};

fn run_all(rt: &HostRuntime) -> anyhow::Result<()> {
    let mut args = env::args(rt)?;
    let _program = args.next();
    for path in args {
        println!(rt; "== {path}")?;
        let text = fs::read_to_string(rt, path.as_str())?;
        run_script(rt, text.as_str())?;
    }
    Ok(())
}

fn main(rt: HostRuntime) -> anyhow::Result<()> {
    run_all(&rt)
}
