//! Why a text that may open entities is refused.

ghost use Rattle.std.specs.Prelude.{◌≡◌};
ghost use Rattle.rox_values.specs.Refusals.{of_failure, seen_from};
ghost use Rattle.rox_values.specs.declared.parse_error.ParseError.TheVariants as refused;

use rox_grammar::failure::Failure;
use rox_grammar::fault::Fault;
use std::alloc::{AllocError, AllocFailed};

/// Why a text is refused. `Memory`: memory ran out. `Fault`: there is a fault in the source that is read. `FaultIn`: there is one
/// in another source. `Resolver`: the resolver refused the request that is made at this offset of the main text.
#[derive(Drop)]
pub enum ParseError<'input> {
    Memory,
    Fault(Fault),
    FaultIn(&'input str, Fault),
    Resolver(usize, String),
}

impl<'input> ParseError<'input> {
    /// Returns the error as the text that opened `source` reports it: a `Fault` becomes a `FaultIn` of `source`.
    #[cold]
    pub fn within(self, source: &'input str) -> ParseError<'input>
        ensures { result ≡ seen_from source.entry self.entry }
    {
        match self {
            ParseError::Fault(fault) => ParseError::FaultIn(source, fault),
            other => other,
        }
    }
}

impl From<Failure> for ParseError<'_> {
    ghost from_gives = { λ f e. e ≡ of_failure f };

    #[cold]
    fn from(failure: Failure) -> Self {
        match failure {
            Failure::Memory => ParseError::Memory,
            Failure::Fault(fault) => ParseError::Fault(fault),
        }
    }
}

impl From<Fault> for ParseError<'_> {
    ghost from_gives = { λ f e. e ≡ refused.Fault f };

    #[cold]
    fn from(fault: Fault) -> Self {
        ParseError::Fault(fault)
    }
}

impl From<AllocError> for ParseError<'_> {
    ghost from_gives = { λ _ e. e ≡ refused.Memory };

    #[cold]
    fn from(_error: AllocError) -> Self {
        ParseError::Memory
    }
}

impl<T: Drop> From<AllocFailed<T>> for ParseError<'_> {
    ghost from_gives = { λ _ e. e ≡ refused.Memory };

    #[cold]
    fn from(_error: AllocFailed<T>) -> Self {
        ParseError::Memory
    }
}
