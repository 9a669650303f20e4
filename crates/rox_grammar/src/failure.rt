//! Why a step that takes memory stopped.

use crate::fault::Fault;
use std::alloc::{AllocError, AllocFailed};

/// Memory ran out, or the text has a fault.
#[derive(Clone, Copy)]
pub enum Failure {
    Memory,
    Fault(Fault),
}

impl From<Fault> for Failure {
    ghost use Rattle.std.specs.Prelude.{◌≡◌};
    ghost use Rattle.rox_grammar.specs.declared.failure.Failure.TheVariants as failure;

    ghost from_gives = { λ f e. e ≡ failure.Fault f };

    #[inline]
    fn from(fault: Fault) -> Failure {
        Failure::Fault(fault)
    }
}

impl From<AllocError> for Failure {
    ghost use Rattle.std.specs.Prelude.{◌≡◌};
    ghost use Rattle.rox_grammar.specs.declared.failure.Failure.TheVariants as failure;

    ghost from_gives = { λ _ e. e ≡ failure.Memory };

    #[cold]
    fn from(_error: AllocError) -> Failure {
        Failure::Memory
    }
}

impl<T: Drop> From<AllocFailed<T>> for Failure {
    ghost use Rattle.std.specs.Prelude.{◌≡◌};
    ghost use Rattle.rox_grammar.specs.declared.failure.Failure.TheVariants as failure;

    ghost from_gives = { λ _ e. e ≡ failure.Memory };

    #[cold]
    fn from(_error: AllocFailed<T>) -> Failure {
        Failure::Memory
    }
}
