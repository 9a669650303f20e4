//! Comparison of the first bytes of two slices: of fewer than sixteen bytes at once.

ghost use Rattle.std.specs.Prelude.{◌≡◌, ◌<◌, ℕ, slice_index, ◌≤◌, true, false, eqb, length, take};

use crate::compare::same_long;
use std::simd::prelude::*;

/// Returns how many of the first sixteen bytes come before one that differs, or more than sixteen if none differs.
#[inline(always)]
fn same_count(one: &[u8], other: &[u8]) -> usize
    requires one { 16 ≤ length one.now }
    requires other { 16 ≤ length other.now }
    ensures same { (k : ℕ) → k < 16 → k < result → slice_index one.now k ≡ slice_index other.now k }
    ensures differ { result < 16 → eqb (slice_index one.now result) (slice_index other.now result) ≡
        false }
{
    let differ = u8x16::from_slice(one)
        .simd_ne(u8x16::from_slice(other))
        .to_bitmask();
    differ.trailing_zeros() as usize
}

/// Returns whether the first `count` bytes of both are equal, and followed by `>` in `other`.
#[inline(always)]
pub fn closes_front(one: &[u8], other: &[u8], count: usize) -> bool
    ensures one { result ≡ true → count ≤ length one.now }
    ensures same { result ≡ true → take count one.now ≡ take count other.now }
    ensures there { result ≡ true → count < length other.now }
    ensures closed { result ≡ true → slice_index other.now count ≡ 62 }
    ensures only { count ≤ length one.now → take count one.now ≡ take count other.now
        → count < length other.now → slice_index other.now count ≡ 62 → result ≡ true }
{
    if count < 16 && one.len() >= 16 && other.len() >= 16 {
        return other[count] == b'>' && count <= same_count(one, other);
    }
    if count > one.len() || count >= other.len() || other[count] != b'>' {
        return false;
    }
    same_long(&one[..count], &other[..count])
}
