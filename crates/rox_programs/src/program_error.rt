//! The reasons why a program does not do what it was asked, as far as all programs share them. `xmldump` alone reads batches.

ghost use Rattle.std.specs.Prelude.{◌≡◌};
ghost use Rattle.rox_programs.specs.declared.program_error.ProgramError.TheVariants.{CannotWrite, OutOfMemory};

use std::alloc::{AllocError, AllocFailed};
use std::{fmt, io};

/// The reason why a program could not do what it was asked.
#[derive(Drop)]
pub enum ProgramError {
    /// The input could not be opened or read to its end.
    CannotRead,
    /// The input is not UTF-8.
    NotUtf8,
    /// The input is not a batch of texts.
    NotBatch,
    /// The output could not be written to its end.
    CannotWrite,
    /// Memory ran out.
    OutOfMemory,
}

impl fmt::Display for ProgramError {
    fn fmt<W: fmt::Write>(&self, f: &mut fmt::Formatter<W>) -> fmt::Result {
        let text = match self {
            ProgramError::CannotRead => "cannot read input",
            ProgramError::NotUtf8 => "input is not UTF-8",
            ProgramError::NotBatch => "input is no batch of texts",
            ProgramError::CannotWrite => "cannot write output",
            ProgramError::OutOfMemory => "out of memory",
        };
        f.write_str(text)
    }
}

impl From<AllocError> for ProgramError {
    ghost from_gives = { λ _ error. error ≡ OutOfMemory };

    fn from(_error: AllocError) -> ProgramError {
        ProgramError::OutOfMemory
    }
}

impl<T: Drop> From<AllocFailed<T>> for ProgramError {
    ghost from_gives = { λ _ error. error ≡ OutOfMemory };

    fn from(_error: AllocFailed<T>) -> ProgramError {
        ProgramError::OutOfMemory
    }
}

/// The error of a writer.
impl From<io::Error> for ProgramError {
    ghost from_gives = { λ _ error. error ≡ CannotWrite };

    fn from(_error: io::Error) -> ProgramError {
        ProgramError::CannotWrite
    }
}

impl ProgramError {
    ghost use Rattle.rox_programs.specs.ProgramError.{status_of};

    /// Returns the exit status: 2 for faults of input and output, 1 if memory runs out.
    pub fn status(&self) -> u8
        ensures { result ≡ status_of self.now }
    {
        match self {
            ProgramError::OutOfMemory => 1,
            ProgramError::CannotRead
            | ProgramError::NotUtf8
            | ProgramError::NotBatch
            | ProgramError::CannotWrite => 2,
        }
    }
}
