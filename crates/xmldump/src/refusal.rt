//! The dump of a text that is refused.

use rox_dump::escape::write_escaped;
use rox_programs::program_error::ProgramError;
use roxmltree::Error;
use std::alloc::Global;
use std::io::Write;

/// Writes the kind of an error, its position and its text.
pub fn write_refusal<W: Write>(
    alloc: Global,
    error: &Error,
    out: &mut W,
) -> Result<(), ProgramError> {
    let (text, pos) = (error.to_string(alloc)?, error.pos());
    let debug = format!(in alloc; "{error:?}")?;
    // The kind has its fields between parentheses after it, unless it has none.
    let kind = debug
        .split_once('(')
        .map_or(debug.as_str(), |(kind, _fields)| kind);
    write!(out, "ERR {kind} {pos} ")?;
    write_escaped(text.as_str(), out)?;
    out.write_all(b"\n")?;
    Ok(())
}
