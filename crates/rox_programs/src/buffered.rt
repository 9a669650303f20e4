//! Output through a buffer.

ghost use Rattle.std.specs.Prelude.{◌≡◌, ◌⊎◌, Ok, Err, IfOk, IfErr};
ghost use Rattle.std.specs.Fn.{FnOnceReturnsAtMut};
ghost use Rattle.std.specs.Io.Buffered.{writer_contents};
ghost use Rattle.std.specs.Io.KnownBytes.{Keeps};
ghost use Rattle.rox_programs.specs.declared.program_error.ProgramError.TheVariants.{CannotWrite, OutOfMemory};

use crate::program_error::ProgramError;
use std::alloc::Global;
use std::io::{BufWriter, Write};

/// The number of bytes collected before they are written.
const BUFFER: usize = 65536;

/// Calls `write` with a writer that collects bytes for `out`, and returns `out`, to which all bytes are written. After an error
/// nothing more is written: the rest of the buffer is discarded. Fails with the error of `write`, with `CannotWrite` if `out`
/// refuses what is left, and with `OutOfMemory` if there is no memory for the buffer.
pub fn write_buffered<O: Write + Drop, F: FnOnce(&mut BufWriter<O>) -> Result<(), ProgramError>>(
    alloc: Global,
    out: O,
    write: F,
) -> Result<O, ProgramError>
    requires { F.IsAlwaysCallable write }
    ensures written { IfOk result (λ left. (before : _) × (after : _)
        × FnOnceReturnsAtMut F.FnOnce write before (Ok tt) after
        × (writer_contents O.contents before ≡ O.contents out)
        × Keeps (writer_contents O.contents after) (O.contents left)) }
    ensures refused { IfErr result (λ e. (e ≡ OutOfMemory) ⊎ (e ≡ CannotWrite) ⊎ ((before : _)
        × (after : _) × FnOnceReturnsAtMut F.FnOnce write before (Err e) after)) }
{
    let mut buffered = match BufWriter::with_capacity(alloc, BUFFER, out) {
        Ok(buffered) => buffered,
        Err(_) => return Err(ProgramError::OutOfMemory),
    };
    match write(&mut buffered) {
        Ok(()) => flushed(buffered),
        Err(error) => {
            let (_out, _unwritten) = buffered.into_parts();
            Err(error)
        }
    }
}

// Writes the bytes of the buffer, and returns the writer behind it.
fn flushed<O: Write + Drop>(mut buffered: BufWriter<O>) -> Result<O, ProgramError>
    ensures written { IfOk result (λ left. Keeps (writer_contents O.contents buffered) (O.contents left)) }
    ensures refused { IfErr result (λ e. e ≡ CannotWrite) }
{
    let done = buffered.flush();
    let (out, _unwritten) = buffered.into_parts();
    match done {
        Ok(()) => Ok(out),
        Err(_) => Err(ProgramError::CannotWrite),
    }
}
