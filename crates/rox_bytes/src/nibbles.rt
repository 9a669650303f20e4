//! Classes of bytes by their halves. The class of a byte has the bits that are set in both of its table entries. One entry is at
//! its low four bits, the other at its high four. If no two of a few ASCII bytes have equal low halves, one table is enough to
//! find them. It has each of them at its low half, and elsewhere a byte with another low half. Sixteen bytes are looked up at
//! once.

ghost use Rattle.std.specs.Prelude.{◌≡◌, map};
ghost use Rattle.rox_bytes.specs.Nibbles.{at_low, at_high, class_of};

use std::simd::prelude::*;

/// Returns the table's entry at the low half of each ASCII byte, and 0 for the other bytes. Their highest bit stays in the index,
/// where a shuffle of bytes gives 0 for it, so that no mask is required.
#[inline(always)]
pub fn by_low(table: [u8; 16], block: u8x16) -> u8x16
    ensures { result ≡ map (at_low table) block }
{
    u8x16::from_array(table).swizzle_dyn_within::<16>(block & u8x16::splat(143))
}

/// Returns the table's entry at the high half of each byte.
#[inline(always)]
fn by_high(table: [u8; 16], block: u8x16) -> u8x16
    ensures { result ≡ map (at_high table) block }
{
    u8x16::from_array(table).swizzle_dyn_within::<16>(block >> u8x16::splat(4))
}

/// Returns the class of each byte.
#[inline(always)]
pub fn classes(low: [u8; 16], high: [u8; 16], block: u8x16) -> u8x16
    ensures { result ≡ map (class_of low high) block }
{
    by_low(low, block) & by_high(high, block)
}
