//! The dumps of a batch of texts.

use crate::sources::{Sources, write_text};
use rox_dump::cases::first_case;
use rox_dump::options::Options;
use rox_programs::input::decode;
use rox_programs::program_error::ProgramError;
use std::alloc::Global;
use std::io::Write;

/// Writes the dump of each text of a batch, each below a line with its number, from 0, and its length, and at last how many
/// there were.
pub fn write_batch<W: Write>(
    alloc: Global,
    batch: &[u8],
    sources: &Sources,
    options: Options,
    out: &mut W,
) -> Result<(), ProgramError> {
    let mut count: usize = 0;
    let mut rest = batch;
    while !rest.is_empty() {
        let Some(case) = first_case(rest) else {
            return Err(ProgramError::NotBatch);
        };
        let length = case.text.len();
        writeln!(out, "CASE {count} {length}")?;
        write_case(alloc, case.text, sources, options, out)?;
        count += 1;
        rest = case.rest;
    }
    writeln!(out, "END {count}")?;
    Ok(())
}

fn write_case<W: Write>(
    alloc: Global,
    text: &[u8],
    sources: &Sources,
    options: Options,
    out: &mut W,
) -> Result<(), ProgramError> {
    match decode(text) {
        Ok(text) => write_text(alloc, text, sources, options, out),
        Err(_) => {
            out.write_all(b"NOTUTF8\n")?;
            Ok(())
        }
    }
}
