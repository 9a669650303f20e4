//! The reading of input.

ghost use Rattle.std.specs.Prelude.{◌≡◌, ◌⊎◌, IfOk, IfErr, IfSome, IsErrOf, MatchOption, MatchResult, IsUtf8};

use crate::program_error::ProgramError;
use std::alloc::Global;
use std::io::{ErrorKind, Read};

/// Returns the bytes of the input, to its end. An `input` of `None` is one that could not be opened. Fails with `CannotRead` for
/// that and if the input cannot be read, and with `OutOfMemory` if memory runs out.
pub fn read_all<I: Read + Drop>(alloc: Global, input: Option<I>) -> Result<Vec<u8>, ProgramError>
    ensures read { MatchOption input (IsErrOf result ProgramError.CannotRead)
        (λ reader. IfOk result
        (λ bytes. IfSome (I.remaining reader) (λ left. bytes.items ≡ left))) }
    ensures refused { IfErr result (λ e. (e ≡ ProgramError.CannotRead) ⊎ (e ≡ ProgramError.OutOfMemory)) }
{
    let Some(mut input) = input else {
        return Err(ProgramError::CannotRead);
    };
    let mut bytes = Vec::new(alloc);
    match input.read_to_end(&mut bytes) {
        Ok(_) => Ok(bytes),
        Err(error) if error.kind() == ErrorKind::OutOfMemory => Err(ProgramError::OutOfMemory),
        Err(_) => Err(ProgramError::CannotRead),
    }
}

/// Returns the text of these bytes. Fails with `NotUtf8` if they are not UTF-8.
pub fn decode(bytes: &[u8]) -> Result<&str, ProgramError>
    ensures { MatchResult result (λ text. text.now ≡ bytes.now)
        (λ fault. (fault ≡ ProgramError.NotUtf8) × ¬ IsUtf8 bytes.now) }
{
    simdutf8::basic::from_utf8(bytes).map_err(|_| ProgramError::NotUtf8)
}
