//! Figures of a list of times: the shortest, the median, and rates.

ghost use Rattle.std.specs.Prelude.{◌≡◌, ◌≤◌, ◌*◌, ◌/◌, ◌↔◌, [], length, max, All, Contains, IsNone, IfSome, MatchOption, Some, slice_get, IsSorted, IsPermutation};
ghost use Rattle.std.specs.Ordering.{nat_cmp};

use std::fmt;

/// Returns the shortest of these times, or `None` if there is none.
pub fn best(times: &[u64]) -> Option<u64>
    ensures none { IsNone result ↔ (times.now ≡ []) }
    ensures among { IfSome result (Contains times.now) }
    ensures shortest { IfSome result (λ t. All (λ u. t ≤ u) times.now) }
{
    times.iter().copied().min()
}

/// Sorts the times, and returns the middle one, of two the longer, or `None` if there is none.
pub fn median(times: &mut [u64]) -> Option<u64>
    ensures permutation { IsPermutation times.old times.new }
    ensures sorted { IsSorted nat_cmp times.new }
    ensures middle { MatchOption result (times.new ≡ [])
        (λ t. slice_get times.new (length times.new / 2) ≡ Some t) }
{
    times.sort_unstable();
    if times.is_empty() {
        None
    } else {
        Some(times[times.len() / 2])
    }
}

/// A number with one digit after the point; further digits are cut off.
#[derive(Clone, Copy)]
pub struct Tenths {
    /// Ten times the number.
    pub tenths: u128,
}

impl fmt::Display for Tenths {
    fn fmt<W: fmt::Write>(&self, f: &mut fmt::Formatter<W>) -> fmt::Result {
        let (whole, tenth) = (self.tenths / 10, self.tenths % 10);
        write!(f, "{whole}.{tenth}")
    }
}

/// Returns `whole` divided by `parts`, or by 1 if `parts` is 0.
pub fn share(whole: u64, parts: u64) -> Tenths
    ensures { result.tenths ≡ whole * 10 / max parts 1 }
{
    Tenths {
        tenths: whole as u128 * 10 / parts.max(1) as u128,
    }
}

/// Returns the megabytes (1,000,000 bytes) a second if `bytes` bytes are read `repeats` times in `nanoseconds`. A time of 0
/// counts as 1.
pub fn megabytes_per_second(bytes: u64, repeats: u32, nanoseconds: u64) -> Tenths
    ensures { result.tenths ≡ bytes * repeats * 10_000 / max nanoseconds 1 }
{
    Tenths {
        tenths: bytes as u128 * repeats as u128 * 10_000 / nanoseconds.max(1) as u128,
    }
}
