//! The arguments of a program.

ghost use Rattle.std.specs.Prelude.{◌≡◌, IfErr, IfOk, IsErr, drop, option_map};
ghost use Rattle.std.specs.IoError.{error_kind};
ghost use Rattle.std.specs.Result.{result_ok};
ghost use Rattle.std.specs.declared.io.ErrorKind.TheVariants as ErrorKind;
ghost use Rattle.std.specs.Vec.Iter.{into_iter_items};
ghost use Rattle.rox_programs.specs.declared.program_error.ProgramError.TheVariants.{OutOfMemory};

use crate::program_error::ProgramError;
use std::alloc::Global;
use std::env::Args;
use std::io;
use std::io::Write;

/// Returns the words after the program's name, or `None` if an argument is not UTF-8. `given` is what `env::args` returned. Fails
/// with `OutOfMemory` if memory ran out there or runs out here, and with no other error.
pub fn words(alloc: Global, given: io::Result<Args>) -> Result<Option<Vec<String>>, ProgramError>
    ensures words { IfOk result (λ r. option_map (λ v. v.items) r
        ≡ option_map (λ a. drop 1 (into_iter_items a)) (result_ok given)) }
    ensures lacking { IfErr given (λ e. error_kind e ≡ ErrorKind.OutOfMemory → IsErr result) }
    ensures memory { IfErr result (λ e. e ≡ OutOfMemory) }
{
    match given {
        Ok(arguments) => Ok(Some(arguments.skip(1).collect(alloc)?)),
        Err(error) if error.kind() == io::ErrorKind::OutOfMemory => Err(ProgramError::OutOfMemory),
        Err(_) => Ok(None),
    }
}

/// Prints the usage of a program, and returns the status of wrong arguments. A fault of `err` is passed over.
pub fn refuse<E: Write>(err: &mut E, usage: &str) -> u8
    ensures { result ≡ 2 }
{
    let _ = writeln!(err, "{usage}");
    2
}
