//! Sixteen bytes of a tag, tested in one pass: an attribute's name, and its value or as much of it as is among them.

ghost use Rattle.std.specs.Prelude.{◌≤◌, ◌+◌, ◌<◌, ℕ, List, MatchOption, length, ◌≡◌};
ghost use Rattle.rox_bytes.specs.ByteSets.{AllPass, EndsSet, is_part_byte, is_value_byte};
ghost use Rattle.rox_bytes.specs.Windows.{Sees, SeesQuote};

use crate::byte_set::{ByteSet, PartByte, ValueByte, before_first};
use std::simd::prelude::*;

/// The number of bytes in a window.
pub const WIDTH: usize = 16;

/// The tests of the sixteen bytes from `at` on.
#[derive(Clone, Copy)]
pub struct Window {
    pub at: usize,
    /// A bit for each byte that is not a `PartByte`, the lowest for the first.
    pub parts: u64,
    /// A bit for each byte that is not a `ValueByte`, the lowest for the first.
    pub values: u64,
}

impl Window {
    /// Returns the window of the sixteen bytes from `at` on.
    #[inline(always)]
    pub fn new(text: &str, at: usize) -> Window
        requires { at + 16 ≤ length text.now }
        ensures sees { Sees text.now result }
        ensures place { result.at ≡ at }
    {
        let bytes = text.as_bytes();
        let block = u8x16::from_slice(&bytes[at..]);
        let parts = PartByte::others(block);
        let values = ValueByte::others(block);
        Window { at, parts, values }
    }

    /// Returns how many ASCII name-part bytes start the window: at least 16 if all do.
    #[inline(always)]
    pub fn part_count(&self) -> usize
        ensures few { (src : List ℕ) → Sees src self.now → result < 16
            → EndsSet is_part_byte src self.now.at (self.now.at + result) }
        ensures all { (src : List ℕ) → Sees src self.now → 16 ≤ result
            → AllPass is_part_byte src self.now.at (self.now.at + 16) }
    {
        before_first(self.parts)
    }

    /// Returns how many bytes come before the second byte that is not a `ValueByte`, if the window has it. If the first is the
    /// quote that opens a value, the second is the first byte after it that needs another test. The name before the quote need
    /// not be counted first.
    #[inline(always)]
    pub fn value_end(&self) -> Option<usize>
        ensures { (src : List ℕ) (before : ℕ) → SeesQuote src self.now before → MatchOption result
            (AllPass is_value_byte src (self.now.at + before) (self.now.at + 16))
            (λ n. EndsSet is_value_byte src (self.now.at + before) (self.now.at + n) × (n < 16)) }
    {
        let rest = self.values & self.values.wrapping_sub(1);
        if rest == 0 {
            return None;
        }
        Some(before_first(rest))
    }
}
