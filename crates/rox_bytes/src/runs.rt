//! Runs of characters.
ghost use Rattle.std.specs.Prelude.{◌≡◌, ◌==◌, ◌+◌, ◌<◌, slice_index, IsCharBoundary, chars, drop};
ghost use Rattle.rox_grammar.specs.Runs.{run_end, begins, StandsAt};
ghost use Rattle.rox_bytes.specs.ScanResults.{Finds, HasCharAt};
ghost use Rattle.std.specs.Char.{len_utf8};

use crate::chars::Class;

/// Returns the character that starts at `at`.
#[inline]
pub fn char_at(text: &str, at: usize) -> char
    requires { HasCharAt text.now at }
    ensures stands { StandsAt result text.now at }
    ensures first { result ≡ slice_index (chars (drop at text.now)) 0 }
    ensures cut { IsCharBoundary text.now (at + len_utf8 result) }
{
    match text[at..].chars().next() {
        Some(c) => c,
        None => unreachable!(),
    }
}

/// Returns the end of the run of characters that starts at `at`.
#[inline(always)]
pub fn run_end<C: Class>(text: &str, at: usize) -> usize
    requires { IsCharBoundary text.now at }
    ensures { Finds text.now at result (run_end C.test text.now at) }
{
    let bytes = text.as_bytes();
    let mut i = at;
    while i < bytes.len() {
        let b = bytes[i];
        if b < 128 {
            if !C::has_byte(b) {
                return i;
            }
            i += 1;
        } else {
            let c = char_at(text, i);
            if !C::has(c) {
                return i;
            }
            i += c.len_utf8();
        }
    }
    i
}

/// Returns whether a character of the class starts at `at`.
#[inline(always)]
#[tactic(auto, using(crate::proofs::RunLemmas::begin_steps))]
pub fn begins<C: Class>(text: &str, at: usize) -> bool
    requires { IsCharBoundary text.now at }
    ensures { result ≡ begins C.test text.now at }
{
    if at >= text.len() {
        return false;
    }
    let b = text.as_bytes()[at];
    if b < 128 {
        return C::has_byte(b);
    }
    C::has(char_at(text, at))
}

/// Returns whether the byte `byte` is at `at`.
#[inline(always)]
pub fn is_at(text: &str, at: usize, byte: u8) -> bool
    requires { 0 < byte }
    ensures { result ≡ (slice_index text.now at == byte) }
{
    at < text.len() && text.as_bytes()[at] == byte
}

/// Returns the offset after the byte `byte`, which is at `at`.
#[inline(always)]
pub fn after_byte(text: &str, at: usize, byte: u8) -> usize
    requires some { 0 < byte }
    requires ascii { byte < 128 }
    requires here { slice_index text.now at ≡ byte }
    ensures { Finds text.now at result (at + 1) }
{
    at + 1
}
