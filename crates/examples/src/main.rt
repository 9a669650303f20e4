//! Examples of programs, a module for each:
//!
//! - `examples elements` prints the elements of a text on standard input: a whole program, as the guide shows it
//! - `examples circles` prints the circles of a small drawing, as README.md shows
//! - `examples shapes FILE` prints the shapes of an SVG image
//! - `examples dependencies FILE` prints the dependencies of a Maven project
//! - `examples book FILE` prints the contents of a book
#![tactic(auto)]

mod book;
mod chapters;
mod circles;
mod dependencies;
mod elements;
mod shapes;

use anyhow::{Context, Result, bail};
use std::env;
use std::process::ExitCode;

const USAGE: &str =
    "usage: examples elements | circles | shapes FILE | dependencies FILE | book FILE";

fn main(rt: HostRuntime) -> Result<ExitCode> {
    let mut words = env::args(&rt)?.skip(1);
    let example = words.next().context(USAGE)?;
    match example.as_str() {
        "elements" => return Ok(elements::main(rt)?),
        "circles" => circles::run(&rt)?,
        name => {
            let file = words.next().context(USAGE)?;
            run(&rt, name, file.as_str())?;
        }
    }
    Ok(ExitCode::SUCCESS)
}

/// Runs an example for a file.
fn run(rt: &HostRuntime, example: &str, file: &str) -> Result<()> {
    match example {
        "shapes" => shapes::run(rt, file),
        "dependencies" => dependencies::run(rt, file),
        "book" => book::run(rt, file),
        other => bail!("there is no example {other}"),
    }
}
