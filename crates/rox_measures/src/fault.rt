//! The faults with which the program ends.

ghost use Rattle.std.specs.Prelude.{◌≡◌};
ghost use Rattle.rox_programs.specs.declared.program_error.ProgramError.TheVariants.{CannotWrite, OutOfMemory};
ghost use Rattle.rox_measures.specs.declared.fault.Fault.TheVariants.{Program, Refused};

use rox_programs::program_error::ProgramError;
use std::alloc::{AllocError, AllocFailed};
use std::{fmt, io};

/// The reason why the program could not do what it was asked.
#[derive(Drop)]
pub enum Fault {
    /// The text is refused.
    Refused(roxmltree::Error),
    /// The clock could not be read.
    NoClock,
    /// The walks of a turn came to another sum than that of one walk times their number.
    UnequalWalks,
    /// A fault that all programs may report.
    Program(ProgramError),
}

impl fmt::Display for Fault {
    fn fmt<W: fmt::Write>(&self, f: &mut fmt::Formatter<W>) -> fmt::Result {
        let text = match self {
            Fault::Refused(error) => return fmt::Display::fmt(error, f),
            Fault::Program(error) => return fmt::Display::fmt(error, f),
            Fault::NoClock => "cannot read the clock",
            Fault::UnequalWalks => "two walks came to different sums",
        };
        f.write_str(text)
    }
}

impl From<AllocError> for Fault {
    ghost from_gives = { λ _ fault. fault ≡ Program OutOfMemory };

    fn from(_error: AllocError) -> Fault {
        Fault::Program(ProgramError::OutOfMemory)
    }
}

impl<T: Drop> From<AllocFailed<T>> for Fault {
    ghost from_gives = { λ _ fault. fault ≡ Program OutOfMemory };

    fn from(_error: AllocFailed<T>) -> Fault {
        Fault::Program(ProgramError::OutOfMemory)
    }
}

/// The error of a writer.
impl From<io::Error> for Fault {
    ghost from_gives = { λ _ fault. fault ≡ Program CannotWrite };

    fn from(_error: io::Error) -> Fault {
        Fault::Program(ProgramError::CannotWrite)
    }
}

impl From<ProgramError> for Fault {
    ghost from_gives = { λ error fault. fault ≡ Program error };

    fn from(error: ProgramError) -> Fault {
        Fault::Program(error)
    }
}

impl From<roxmltree::Error> for Fault {
    ghost from_gives = { λ error fault. fault ≡ Refused error };

    fn from(error: roxmltree::Error) -> Fault {
        Fault::Refused(error)
    }
}

impl Fault {
    ghost use Rattle.rox_measures.specs.Fault.{status_of};

    /// Returns the exit status: 1 for a refused text, for unequal walks and if memory runs out, 2 for all other faults.
    pub fn status(&self) -> u8
        ensures { result ≡ status_of self.now }
    {
        match self {
            Fault::Refused(_) | Fault::UnequalWalks => 1,
            Fault::NoClock => 2,
            Fault::Program(error) => error.status(),
        }
    }
}
