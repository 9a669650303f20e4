//! Measures the library on one document: `benchmark FILE [SECONDS]`.
#![tactic(auto)]

ghost use Rattle.std.specs.Prelude.{◌≡◌};
ghost use Rattle.rox_measures.specs.Fault.{status_of};

use rox_measures::arguments::{Command, USAGE, read};
use rox_measures::fault::Fault;
use rox_measures::run;
use rox_programs::arguments::{refuse, words};
use std::env;
use std::io::Write;
use std::process::ExitCode;

fn main(rt: HostRuntime) -> ExitCode {
    let status = match asked_for(&rt) {
        Ok(Some(command)) => measure(&rt, &command),
        Ok(None) => refuse(&mut rt.stderr(), USAGE),
        Err(fault) => tell(&rt, &fault),
    };
    ExitCode::from(status)
}

// The command of the program's arguments. One that is not UTF-8 is a wrong argument.
fn asked_for(rt: &HostRuntime) -> Result<Option<Command>, Fault> {
    match words(rt.alloc(), env::args(rt))? {
        Some(words) => Ok(read(&words)?),
        None => Ok(None),
    }
}

fn measure(rt: &HostRuntime, command: &Command) -> u8 {
    match run::run(rt, command, &mut rt.stdout()) {
        Ok(()) => 0,
        Err(fault) => tell(rt, &fault),
    }
}

// Writes a fault on standard error. The answer is the exit status.
fn tell(rt: &HostRuntime, fault: &Fault) -> u8
    ensures { result ≡ status_of fault.now }
{
    let _ = writeln!(rt.stderr(), "error: {fault}");
    fault.status()
}
