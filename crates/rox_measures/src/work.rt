//! What is measured.

ghost use Rattle.std.specs.Prelude.{◌≡◌, ◌≢◌, ◌*◌, ◌%◌, ◌^◌, MatchResult};

use crate::clock;
use crate::fault::Fault;
use crate::walk::{walk, walk_links};
use roxmltree::Document;
use std::alloc::Global;
use std::time::CpuClock;

/// A work that can be done again and again.
pub trait Work {
    /// Does the work `repeats` times, and returns the nanoseconds that it took.
    fn turn<R: CpuClock>(&self, clock: &R, repeats: u32) -> Result<u64, Fault>;
}

/// Parses a text and drops the document.
#[derive(Clone, Copy)]
pub struct ParseAndDrop<'t> {
    /// The allocator of the documents.
    pub alloc: Global,
    /// The text that is parsed.
    pub text: &'t str,
}

impl Work for ParseAndDrop<'_> {
    fn turn<R: CpuClock>(&self, clock: &R, repeats: u32) -> Result<u64, Fault> {
        let start = clock::now(clock)?;
        for _ in 0..repeats {
            let _document = Document::parse(self.alloc, self.text)?;
        }
        clock::since(clock, start)
    }
}

/// Parses a text. Drops are not timed.
#[derive(Clone, Copy)]
pub struct Parse<'t> {
    /// The allocator of the documents.
    pub alloc: Global,
    /// The text that is parsed.
    pub text: &'t str,
}

impl Work for Parse<'_> {
    fn turn<R: CpuClock>(&self, clock: &R, repeats: u32) -> Result<u64, Fault> {
        let mut sum = 0u64;
        for _ in 0..repeats {
            let start = clock::now(clock)?;
            let _document = Document::parse(self.alloc, self.text)?;
            sum = sum.saturating_add(clock::since(clock, start)?);
        }
        Ok(sum)
    }
}

/// Walks over the nodes of a document. A turn fails if its walks together do not add `sum` for each.
#[derive(Clone, Copy)]
pub struct Walk<'d> {
    /// The document.
    pub document: &'d Document<'d>,
    /// What `walk` adds to its start for this document.
    pub sum: u64,
}

impl Work for Walk<'_> {
    // Each walk begins with the sum of those before it, so that none can be left out.
    fn turn<R: CpuClock>(&self, clock: &R, repeats: u32) -> Result<u64, Fault> {
        let mut sum = 0u64;
        let start = clock::now(clock)?;
        for _ in 0..repeats {
            sum = walk(self.document, sum);
        }
        let time = clock::since(clock, start)?;
        confirmed(time, sum, self.sum, repeats)
    }
}

/// Walks over the links between the nodes of a document. A turn fails if its walks together do not add `nodes` for each.
#[derive(Clone, Copy)]
pub struct WalkLinks<'d> {
    /// The document.
    pub document: &'d Document<'d>,
    /// What `walk_links` adds to its start for this document: the number of its nodes.
    pub nodes: u64,
}

impl Work for WalkLinks<'_> {
    fn turn<R: CpuClock>(&self, clock: &R, repeats: u32) -> Result<u64, Fault> {
        let mut count = 0u64;
        let start = clock::now(clock)?;
        for _ in 0..repeats {
            count = walk_links(self.document, count);
        }
        let time = clock::since(clock, start)?;
        confirmed(time, count, self.nodes, repeats)
    }
}

/// Returns the time of a turn if its walks together came to `repeats` times `one`, by sums that wrap, and otherwise fails with
/// `UnequalWalks`.
fn confirmed(time: u64, sum: u64, one: u64, repeats: u32) -> Result<u64, Fault>
    ensures { MatchResult result (λ t. (t ≡ time) × (sum ≡ one * repeats % 2 ^ 64))
        (λ fault. (fault ≡ Fault.UnequalWalks) × (sum ≢ one * repeats % 2 ^ 64)) }
{
    if sum == one.wrapping_mul(repeats as u64) {
        Ok(time)
    } else {
        Err(Fault::UnequalWalks)
    }
}
