//! An estimate of how many rows a text gives: from its length, and for a long text from a sample of its bytes.

ghost use Rattle.std.specs.Prelude.{length, ◌≤◌, ◌+◌, ◌/◌, ◌<◌};

use std::simd::prelude::*;

/// Numbers of rows that a text gives.
#[derive(Clone, Copy)]
pub struct RowCounts {
    pub nodes: usize,
    pub attributes: usize,
}

/// The length in bytes from which on a text is sampled. Growing the tables of a shorter text moves less than the sample costs.
const SAMPLED: usize = 131072;

/// About twice the number of samples that are taken.
const PARTS: usize = 128;

/// The number of bytes in a 64-byte block that have both neighbours in it.
const INNER: usize = 62;

/// A bit for each byte of a block that has both neighbours in it.
const INNER_BITS: u64 = 0x7fff_ffff_ffff_fffe;

/// A sample starts at an offset below this in its part of the text.
const SHIFTS: usize = 32;

/// The least length of a part, in bytes, so that its sample lies inside it.
const LEAST_PART: usize = 96;

/// At most one node is estimated for this many bytes, however dense the sample is: `<a/>` has as many.
const DENSEST_NODES: usize = 4;

/// At most one attribute is estimated for this many bytes, however dense the sample is: ` a="b"` has as many.
const DENSEST_ATTRIBUTES: usize = 6;

/// The nodes of most texts of fewer bytes fit into 21 rows, which have less than 1 KB. The C library keeps blocks of that size at
/// hand.
const FEW_NODES: usize = 1024;

/// The attributes of most texts of fewer bytes fit into 21 rows, which are as wide.
const FEW_ATTRIBUTES: usize = 2048;

/// The length in bytes from which on a text is taken to have many nodes.
const DENSE: usize = 3072;

/// The most rows that a text of less than `SAMPLED` bytes gets room for because it might be dense. They have 38 KB: two such tables
/// stay below 128 KB, from which on the C library gives freed memory back.
const MOST_DENSE: usize = 800;

/// Room for this many nodes is added to the estimate.
const MORE_NODES: usize = 16;

/// Room for this many attributes is added to the estimate.
const MORE_ATTRIBUTES: usize = 10;

/// Returns a bit for each byte of `block` that equals `byte`, the lowest bit for the first byte.
#[inline(always)]
fn bits_of(block: u8x64, byte: u8) -> u64 {
    block.simd_eq(u8x64::splat(byte)).to_bitmask()
}

/// Returns how many rows begin in `block`. A node begins with each `<` except those of end tags, a text before each `<` that is
/// not directly after a `>`. The value of an attribute begins with each quote directly after a `=`.
#[inline(always)]
fn rows_among(block: u8x64) -> RowCounts {
    let tags = bits_of(block, b'<') & INNER_BITS;
    let starts = tags & !(bits_of(block, b'/') >> 1);
    let texts = tags & !(bits_of(block, b'>') << 1);
    let quotes = bits_of(block, b'"') | bits_of(block, b'\'');
    let values = bits_of(block, b'=') & INNER_BITS & (quotes >> 1);
    RowCounts {
        nodes: starts.count_ones() as usize + texts.count_ones() as usize,
        attributes: values.count_ones() as usize,
    }
}

/// Returns the number of rows of a text, and an eighth more. One sample of `INNER` bytes from each part of `part` bytes gave
/// `rows` in all.
fn scaled(rows: usize, part: usize) -> usize {
    let all = rows.saturating_mul(part) / INNER;
    all.saturating_add(all / 8)
}

/// Returns the estimate for a long text from samples. The text is divided into parts of equal length, and one block of each is
/// sampled.
#[cold]
#[inline(never)]
fn by_sample(bytes: &[u8]) -> RowCounts {
    let part = (bytes.len() / PARTS * 2 + 1).max(LEAST_PART);
    let mut nodes = 0_usize;
    let mut attributes = 0_usize;
    let mut rest = bytes;
    while rest.len() >= part {
        // Parts have odd lengths, so the offset differs from part to part: text that repeats is not always met at one offset.
        let shift = rest.len() % SHIFTS;
        let rows = rows_among(u8x64::from_slice(&rest[shift..]));
        nodes = nodes.saturating_add(rows.nodes);
        attributes = attributes.saturating_add(rows.attributes);
        rest = &rest[part..];
    }
    RowCounts {
        nodes: scaled(nodes, part),
        attributes: scaled(attributes, part),
    }
}

/// Returns the estimate from the length of a text alone. A short text is taken to be dense, so that its tables seldom grow. In a
/// longer one, rows that stay empty would cost more than growing.
#[inline(always)]
fn by_length(len: usize) -> RowCounts {
    let dense = (len / 24).min(MOST_DENSE);
    RowCounts {
        nodes: if len < FEW_NODES {
            5
        } else if len < DENSE {
            len / 48 + 16
        } else {
            dense.max(len / 48) + 16
        },
        attributes: if len < FEW_ATTRIBUTES {
            11
        } else {
            dense.max(len / 120) + 31
        },
    }
}

/// Returns how many rows the tables of `text` get room for at first: the estimate, bounded by the length, and some more.
#[inline(always)]
pub fn first_rows(text: &str) -> RowCounts
    ensures nodes { result.nodes ≤ (length text.now) / 4 + 16 }
    ensures some { 0 < result.nodes }
    ensures attributes { result.attributes ≤ (length text.now) / 6 + 10 }
{
    let len = text.len();
    let rows = if len < SAMPLED {
        by_length(len)
    } else {
        by_sample(text.as_bytes())
    };
    RowCounts {
        nodes: rows.nodes.min(len / DENSEST_NODES) + MORE_NODES,
        attributes: rows.attributes.min(len / DENSEST_ATTRIBUTES) + MORE_ATTRIBUTES,
    }
}
