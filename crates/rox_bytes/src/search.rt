//! The first offset of a byte or of a fixed text.
ghost use Rattle.std.specs.Prelude.{◌≡◌, ◌+◌, ◌<◌, ◌≤◌, ◌||◌, ◌==◌, not, length, IsCharBoundary};
ghost use Rattle.rox_grammar.specs.Search as spec;
ghost use Rattle.rox_bytes.specs.ByteSets.{EndsSet};
ghost use Rattle.rox_bytes.specs.ScanResults.{Finds, FindsByte};
ghost use Rattle.rox_grammar.specs.Search.{byte_from, has_mark};

use memchr::{memchr, memchr2};

/// Returns the offset of the first `byte` from `at` on, or the end.
#[inline]
fn next_byte(bytes: &[u8], at: usize, byte: u8) -> usize
    requires { at ≤ length bytes.now }
    ensures { EndsSet (λ c. not (c == byte)) bytes.now at result }
{
    match memchr(byte, bytes.split_at(at).1) {
        Some(count) => at + count,
        None => bytes.len(),
    }
}

/// Returns how many bytes come before the first `mark`, or the number of all bytes. A mark is short, and its first byte is rare.
#[inline]
pub fn before_mark(bytes: &[u8], mark: &[u8]) -> usize
    requires { 0 < length mark.now }
    ensures { result ≡ spec.before_mark mark.now bytes.now }
{
    let mut at = 0;
    while at < bytes.len() {
        let next = next_byte(bytes, at, mark[0]);
        if next >= bytes.len() {
            break;
        }
        if bytes.split_at(next).1.starts_with(mark) {
            return next;
        }
        at = next + 1;
    }
    bytes.len()
}

/// Returns how many bytes come before the first `byte`, or the number of all bytes.
#[inline]
pub fn before_byte(bytes: &[u8], byte: u8) -> usize
    ensures { FindsByte (λ c. c == byte) bytes.now result }
{
    memchr(byte, bytes).unwrap_or(bytes.len())
}

/// Returns how many bytes come before the first of either byte, or the number of all bytes.
#[inline]
pub fn before_either(bytes: &[u8], one: u8, other: u8) -> usize
    ensures { FindsByte (λ c. c == one || c == other) bytes.now result }
{
    memchr2(one, other, bytes).unwrap_or(bytes.len())
}

/// Returns whether `mark` occurs in the bytes.
#[inline]
#[tactic(auto, using(std::proofs::lemmas::Bool::Decides::nat_tests))]
pub fn has_mark(bytes: &[u8], mark: &[u8]) -> bool
    requires { 0 < length mark.now }
    ensures { result ≡ has_mark mark.now bytes.now }
{
    before_mark(bytes, mark) < bytes.len()
}

/// Returns the offset of the first `byte` from `at` on, or the end.
#[inline]
#[tactic(auto, unfolding(rox_grammar::specs::Search::byte_from))]
pub fn byte_from(text: &str, at: usize, byte: u8) -> usize
    requires cut { IsCharBoundary text.now at }
    requires ascii { byte < 128 }
    ensures finds { Finds text.now at result (byte_from (λ c. c == byte) text.now at) }
    ensures after { result < length text.now → IsCharBoundary text.now (result + 1) }
{
    at + before_byte(text[at..].as_bytes(), byte)
}

/// Returns the offset of the first of either byte from `at` on, or the end.
#[inline]
#[tactic(auto, unfolding(rox_grammar::specs::Search::byte_from))]
pub fn either_from(text: &str, at: usize, one: u8, other: u8) -> usize
    requires cut { IsCharBoundary text.now at }
    requires one { one < 128 }
    requires other { other < 128 }
    ensures { Finds text.now at result
        (spec.byte_from (λ c. c == one || c == other) text.now at) }
{
    at + before_either(text[at..].as_bytes(), one, other)
}
