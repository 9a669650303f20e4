//! What is read beside the input, and the texts that are read with it.

use crate::dump::write_dump;
use rox_dump::answers::{Answer, Answers};
use rox_dump::options::Options;
use rox_programs::program_error::ProgramError;
use std::alloc::Global;
use std::io::Write;

/// What is read beside the input.
#[derive(Drop)]
pub struct Sources {
    /// The answers to the first request, the second, and so on; the last answers all later requests.
    pub answers: Vec<Answer>,
    /// The main text. If there is one, it is parsed for each text of the input, which is then the answer to every request.
    pub main: Option<String>,
}

/// Writes the dump of a text, or that of the main text with this one as the answer to every request.
pub fn write_text<W: Write>(
    alloc: Global,
    text: &str,
    sources: &Sources,
    options: Options,
    out: &mut W,
) -> Result<(), ProgramError> {
    match &sources.main {
        Some(main) => write_dump(alloc, main.as_str(), Answers::Each(text), options, out),
        None => write_dump(
            alloc,
            text,
            Answers::InOrder(&sources.answers),
            options,
            out,
        ),
    }
}
