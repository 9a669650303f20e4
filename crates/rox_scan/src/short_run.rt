//! Character data up to the end of its source, as most replacement texts are. If it has at most sixteen bytes, they are tested in
//! one pass.

ghost use Rattle.std.specs.Prelude.{◌≡◌, length, true, ◌≤◌, ◌+◌};
ghost use Rattle.rox_bytes.specs.ByteSets.{AllPass};
ghost use Rattle.rox_scan.specs.Lookahead as longer;
ghost use Rattle.rox_scan.specs.Lookahead.{IsLookahead};

use crate::character_data::{TextByte, plain_run_end};
use crate::cursor::Cursor;
use rox_bytes::byte_set::ByteSet;
use std::simd::prelude::*;

/// Returns true only if the bytes from `at` up to the end, at most sixteen, are all in the set. They are tested among the last
/// sixteen bytes.
#[inline(always)]
fn passes_to_end<C: ByteSet>(bytes: &[u8], at: usize) -> bool
    requires room { 16 ≤ length bytes.now }
    requires short { length bytes.now ≤ at + 16 }
    requires within { at ≤ length bytes.now }
    ensures { result ≡ true → AllPass C.test bytes.now at (length bytes.now) }
{
    let first = bytes.len() - 16;
    let others = C::others(u8x16::from_slice(&bytes[first..]));
    let rest = others >> (at - first);
    rest == 0
}

/// Returns true only if the character data from the cursor up to the end of its source needs no replacement.
#[inline(always)]
pub fn is_plain_to_end(from: Cursor<'_>) -> bool
    ensures { result ≡ true
        → IsLookahead (longer.ends_run from.entry.text.now) longer.changes_run
        from.entry.text.now from.entry.pos (length from.entry.text.now) true }
{
    let bytes = from.text.as_bytes();
    let end = bytes.len();
    if end < 16 || end - from.pos > 16 {
        let found = plain_run_end(from);
        return found == end;
    }
    passes_to_end::<TextByte>(bytes, from.pos)
}
