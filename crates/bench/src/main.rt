// The bench: runs a script line by line and prints what each line did.
#![tactic(auto)]

use session::run::run_script;
use std::{env, fs, io};

// The script: the file that the one argument names, or standard input.
fn script_text(rt: &HostRuntime) -> anyhow::Result<String> {
    let mut args = env::args(rt)?;
    let _program = args.next();
    let text = match args.next() {
        Some(path) => fs::read_to_string(rt, path.as_str())?,
        None => io::read_to_string(rt.alloc(), rt.stdin())?,
    };
    Ok(text)
}

fn run(rt: &HostRuntime) -> anyhow::Result<()> {
    let text = script_text(rt)?;
    run_script(rt, text.as_str())
}

fn main(rt: HostRuntime) -> anyhow::Result<()> {
    run(&rt)
}
