//! Prints the tree of an XML document, or the elements of a path: `xmltree [--allow-dtd] [--path P] [FILE]`.
#![tactic(auto)]

mod arguments;
mod entries;
mod fault;
mod listing;
mod options;
mod output;
mod run;

use crate::arguments::{USAGE, command};
use crate::options::Command;
use rox_programs::arguments::{refuse, words};
use rox_programs::program_error::ProgramError;
use std::env;
use std::fs::File;
use std::io::Write;
use std::process::ExitCode;

fn main(rt: HostRuntime) -> ExitCode {
    let status = match asked_for(&rt) {
        Ok(Some(command)) => run_with_files(&rt, &command),
        Ok(None) => refuse(&mut rt.stderr(), USAGE),
        Err(fault) => {
            let _ = writeln!(rt.stderr(), "error: {fault}");
            fault.status()
        }
    };
    ExitCode::from(status)
}

// The command of the program's arguments. One that is not UTF-8 is a wrong argument.
fn asked_for(rt: &HostRuntime) -> Result<Option<Command>, ProgramError> {
    match words(rt.alloc(), env::args(rt))? {
        Some(words) => Ok(command(rt.alloc(), &words)?),
        None => Ok(None),
    }
}

fn run_with_files(rt: &HostRuntime, command: &Command) -> u8 {
    let (mut out, mut err) = (rt.stdout(), rt.stderr());
    match &command.file {
        Some(path) => {
            let input = File::open(rt, path.as_str()).ok();
            run::run(rt.alloc(), command, input, &mut out, &mut err)
        }
        None => run::run(rt.alloc(), command, Some(rt.stdin()), &mut out, &mut err),
    }
}
