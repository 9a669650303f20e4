//! What the program does, from its input to its status.

ghost use Rattle.std.specs.Prelude.{◌≡◌, ◌≤◌, IsNone, IsErrOf};

use crate::batch::write_batch;
use crate::sources::{Sources, write_text};
use rox_dump::options::Options;
use rox_programs::buffered::write_buffered;
use rox_programs::input::{decode, read_all};
use rox_programs::program_error::ProgramError;
use std::alloc::Global;
use std::io::{Read, Write};

/// Reads the input, and writes the dump of its text or of each text of a batch. Returns the exit status: 0 if all went well, 1 if
/// memory runs out, 2 for input that cannot be read, is not UTF-8 or is no batch, and for output that cannot be written. A fault
/// is a line on `err`. An `input` of `None` is a file that could not be opened.
pub fn run<I: Read + Drop, O: Write, E: Write>(
    alloc: Global,
    options: Options,
    sources: &Sources,
    input: Option<I>,
    out: &mut O,
    err: &mut E,
) -> u8
    ensures status { result ≤ 2 }
    ensures none { IsNone input → result ≡ 2 }
{
    match write_input(alloc, options, sources, input, out) {
        Ok(()) => 0,
        Err(fault) => {
            let status = fault.status();
            // A fault of `err` itself can be told nowhere.
            let _ = writeln!(err, "error: {fault}");
            status
        }
    }
}

fn write_input<I: Read + Drop, O: Write>(
    alloc: Global,
    options: Options,
    sources: &Sources,
    input: Option<I>,
    out: &mut O,
) -> Result<(), ProgramError>
    ensures { IsNone input → IsErrOf result ProgramError.CannotRead }
{
    let bytes = read_all(alloc, input)?;
    write_buffered(alloc, out, |out| {
        write_dumps(alloc, &bytes, sources, options, out)
    })?;
    Ok(())
}

/// Returns the text of a file. Fails with `CannotRead` if it cannot be read, with `NotUtf8` if it is not UTF-8, and with
/// `OutOfMemory` if memory runs out. An `input` of `None` is a file that could not be opened.
pub fn read_text<I: Read + Drop>(alloc: Global, input: Option<I>) -> Result<String, ProgramError>
    ensures { IsNone input → IsErrOf result ProgramError.CannotRead }
{
    let bytes = read_all(alloc, input)?;
    String::from_utf8(bytes).map_err(|_| ProgramError::NotUtf8)
}

fn write_dumps<W: Write>(
    alloc: Global,
    bytes: &[u8],
    sources: &Sources,
    options: Options,
    out: &mut W,
) -> Result<(), ProgramError> {
    if options.batch {
        return write_batch(alloc, bytes, sources, options, out);
    }
    let text = decode(bytes)?;
    write_text(alloc, text, sources, options, out)
}
