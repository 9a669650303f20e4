//! Writes what the library answers of XML texts: `xmldump [--allow-dtd] [--nodes-limit N] [--axes] [--lookups] [--batch]
//! [--ans-file PATH] [--ans-none] [--ans-err TEXT] [--main MAIN] FILE`.
#![tactic(auto)]

mod axes;
mod batch;
mod dump;
mod lookups;
mod node;
mod refusal;
mod run;
mod sources;

use crate::run::read_text;
use crate::sources::Sources;
use rox_dump::answers::Answer;
use rox_dump::arguments::{USAGE, command};
use rox_dump::options::{AnswerWord, Command};
use rox_programs::arguments::{refuse, words};
use rox_programs::program_error::ProgramError;
use std::env;
use std::fs::File;
use std::io::Write;
use std::process::ExitCode;

fn main(rt: HostRuntime) -> ExitCode {
    let status = match run_words(&rt) {
        Ok(status) => status,
        Err(fault) => {
            let _ = writeln!(rt.stderr(), "error: {fault}");
            fault.status()
        }
    };
    ExitCode::from(status)
}

// An argument that is not UTF-8 is wrong.
fn run_words(rt: &HostRuntime) -> Result<u8, ProgramError> {
    let Some(words) = words(rt.alloc(), env::args(rt))? else {
        return Ok(refuse(&mut rt.stderr(), USAGE));
    };
    match command(rt.alloc(), &words)? {
        Some(command) => run_with_files(rt, &command),
        None => Ok(refuse(&mut rt.stderr(), USAGE)),
    }
}

// The files of the resolver's answers and of the main text are read before the input.
fn run_with_files(rt: &HostRuntime, command: &Command<'_>) -> Result<u8, ProgramError> {
    let sources = read_sources(rt, command)?;
    let (mut out, mut err) = (rt.stdout(), rt.stderr());
    let (alloc, options) = (rt.alloc(), command.options);
    match command.file {
        Some(path) => {
            let input = File::open(rt, path).ok();
            Ok(run::run(alloc, options, &sources, input, &mut out, &mut err))
        }
        None => {
            let input = Some(rt.stdin());
            Ok(run::run(alloc, options, &sources, input, &mut out, &mut err))
        }
    }
}

fn read_sources(rt: &HostRuntime, command: &Command<'_>) -> Result<Sources, ProgramError> {
    let mut answers = Vec::new(rt.alloc());
    for word in &command.answers {
        answers.push(answer(rt, *word)?)?;
    }
    let main = match command.main {
        Some(path) => Some(file_text(rt, path)?),
        None => None,
    };
    Ok(Sources { answers, main })
}

fn answer(rt: &HostRuntime, word: AnswerWord<'_>) -> Result<Answer, ProgramError> {
    match word {
        AnswerWord::File(path) => Ok(Answer::Text(file_text(rt, path)?)),
        AnswerWord::Nothing => Ok(Answer::Nothing),
        AnswerWord::Refusal(words) => Ok(Answer::Refusal(String::from_str(rt.alloc(), words)?)),
    }
}

fn file_text(rt: &HostRuntime, path: &str) -> Result<String, ProgramError> {
    read_text(rt.alloc(), File::open(rt, path).ok())
}
