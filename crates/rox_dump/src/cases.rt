//! The texts of a batch.

ghost use Rattle.std.specs.Prelude.{ℕ, ◌≡◌, ◌++◌, ◌∷◌, List, MatchOption};
ghost use Rattle.rox_dump.specs.Numbers.{number_of};
ghost use Rattle.rox_dump.specs.Batch.{BeginsWith, IsOneLine, IsSplit};

use crate::numbers::number;
use rox_programs::input::decode;

/// A text of a batch, and what follows it.
#[derive(Clone, Copy)]
pub struct Case<'a> {
    /// The bytes of the text.
    pub text: &'a [u8],
    /// The bytes of the batch after the line feed that follows the text.
    pub rest: &'a [u8],
}

/// Returns the first text of a batch, or `None` if the input does not start with one. Its length in decimal digits and a line
/// feed are before it, and a line feed is after it.
pub fn first_case(batch: &[u8]) -> Option<Case<'_>>
    ensures { MatchOption result ((text rest : List ℕ) → BeginsWith batch.now text rest → ⊥)
        (λ case. BeginsWith batch.now case.text.now case.rest.now) }
{
    let (line, behind) = first_line(batch)?;
    let length = line_number(line)?;
    split_text(behind, length)
}

/// Returns the bytes before the first line feed and those after it, or `None` if there is no line feed.
fn first_line(batch: &[u8]) -> Option<(&[u8], &[u8])>
    ensures { MatchOption result (IsOneLine batch.now)
        (λ parts. IsOneLine parts.0.now × (batch.now ≡ parts.0.now ++ (10 ∷ parts.1.now))) }
{
    let end = batch.iter().position(|byte| *byte == b'\n')?;
    Some((&batch[..end], &batch[end + 1..]))
}

/// Returns the number that these digits give, or `None` if they give none: see `number`.
fn line_number(line: &[u8]) -> Option<usize>
    ensures { result ≡ number_of line.now }
{
    match decode(line) {
        Ok(digits) => number(digits),
        Err(_) => None,
    }
}

/// Returns the first `count` bytes, and what follows the line feed after them, or `None` if there is no line feed there.
fn split_text(bytes: &[u8], count: usize) -> Option<Case<'_>>
    ensures { MatchOption result
        ((text rest : List ℕ) → IsSplit bytes.now count text rest → ⊥)
        (λ case. IsSplit bytes.now count case.text.now case.rest.now) }
{
    if bytes.len() <= count || bytes[count] != b'\n' {
        return None;
    }
    Some(Case {
        text: &bytes[..count],
        rest: &bytes[count + 1..],
    })
}
