//! The faults with which the program ends.

ghost use Rattle.std.specs.Prelude.{◌≡◌};

use rox_path::PathError;
use rox_programs::program_error::ProgramError;
use std::fmt;

/// The reason why the program could not do what it was asked.
#[derive(Drop)]
pub enum Fault {
    /// The path is not valid from this offset in bytes on.
    BadPath(usize),
    /// The input is refused.
    Refused(roxmltree::Error),
    /// A fault that all programs may report.
    Program(ProgramError),
}

impl fmt::Display for Fault {
    fn fmt<W: fmt::Write>(&self, f: &mut fmt::Formatter<W>) -> fmt::Result {
        match self {
            Fault::BadPath(place) => fmt::Display::fmt(&PathError::BadPath(*place), f),
            Fault::Refused(error) => fmt::Display::fmt(error, f),
            Fault::Program(error) => fmt::Display::fmt(error, f),
        }
    }
}

impl From<PathError> for Fault {
    ghost use Rattle.xmltree.specs.Fault.{fault_of_path};

    ghost from_gives = { λ error fault. fault ≡ fault_of_path error };

    fn from(error: PathError) -> Fault {
        match error {
            PathError::BadPath(place) => Fault::BadPath(place),
            PathError::OutOfMemory => Fault::Program(ProgramError::OutOfMemory),
        }
    }
}

impl From<ProgramError> for Fault {
    ghost use Rattle.xmltree.specs.declared.fault.Fault.TheVariants.{Program};

    ghost from_gives = { λ error fault. fault ≡ Program error };

    fn from(error: ProgramError) -> Fault {
        Fault::Program(error)
    }
}

impl Fault {
    ghost use Rattle.xmltree.specs.Fault.{status_of};

    /// Returns the exit status. It is 2 for a bad path and for faults of input and output, 1 for a refused text and if memory
    /// runs out.
    pub fn status(&self) -> u8
        ensures { result ≡ status_of self.now }
    {
        match self {
            Fault::BadPath(_) => 2,
            Fault::Refused(_) => 1,
            Fault::Program(error) => error.status(),
        }
    }
}
