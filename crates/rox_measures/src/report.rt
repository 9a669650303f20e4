//! What is printed.
//!
//! ```
//! use rox_measures::report::{Size, write_held, write_turns};
//! use rox_measures::turns::Turns;
//!
//! // Four turns in which the work was done twice. The median is the third one, and digits are cut off.
//! let mut out = Vec::new(alloc);
//! let times = Vec::from_array(alloc, [3_000, 1_000, 2_500, 2_000])?;
//! let turns = Turns { repeats: 2, times };
//! assert!(rt; write_turns(alloc, &mut out, "parse", Size::Bytes(100), turns).is_ok());
//! let times = Vec::from_array(alloc, [3_000, 1_000, 2_500, 2_000])?;
//! let turns = Turns { repeats: 2, times };
//! assert!(rt; write_turns(alloc, &mut out, "walk", Size::Nodes(30), turns).is_ok());
//! assert!(rt; write_held(&mut out, 100, Some(266)).is_ok());
//! assert!(rt; write_held(&mut out, 100, None).is_ok());
//! let wanted = "\
//! parse          best         500.0 ns    200.0 MB/s, median        1250.0 ns     80.0 MB/s, 4 turns of 2
//! walk           best         500.0 ns     16.6 ns a node, median        1250.0 ns     41.6 ns a node, 4 turns of 2
//! held           266 bytes, 2.6 a byte of text
//! held           unknown
//! ";
//! assert!(rt; str::from_utf8(&out).ok() == Some(wanted));
//! ```

use crate::fault::Fault;
use crate::figures::{Tenths, best, median, megabytes_per_second, share};
use crate::turns::Turns;
use std::alloc::Global;
use std::io::Write;

/// How much a work goes over each time.
#[derive(Clone, Copy)]
pub enum Size {
    /// So many bytes of text.
    Bytes(u64),
    /// So many nodes of a document.
    Nodes(u64),
}

/// Writes the line of a work: its speed in megabytes a second, or its time for a node.
pub fn write_turns<W: Write>(
    alloc: Global,
    out: &mut W,
    name: &str,
    size: Size,
    mut turns: Turns,
) -> Result<(), Fault> {
    let (repeats, count) = (turns.repeats, turns.times.len());
    let best = best(&turns.times).unwrap_or(0);
    let median = median(&mut turns.times).unwrap_or(0);
    write!(out, "{name:<14}")?;
    write_figures(alloc, out, "best", best, repeats, size)?;
    write_figures(alloc, out, "median", median, repeats, size)?;
    writeln!(out, " {count} turns of {repeats}")?;
    Ok(())
}

// Of a turn: the time of one repeat, and the rate, each right-justified.
fn write_figures<W: Write>(
    alloc: Global,
    out: &mut W,
    label: &str,
    time: u64,
    repeats: u32,
    size: Size,
) -> Result<(), Fault> {
    let (rate, unit) = rate_of(time, repeats, size);
    let each = share(time, repeats as u64);
    let each = format!(in alloc; "{each}")?;
    let rate = format!(in alloc; "{rate}")?;
    write!(out, " {label} {each:>13} ns {rate:>8} {unit},")?;
    Ok(())
}

// The rate of a turn, and its unit.
fn rate_of(time: u64, repeats: u32, size: Size) -> (Tenths, &'static str) {
    match size {
        Size::Bytes(bytes) => (megabytes_per_second(bytes, repeats, time), "MB/s"),
        Size::Nodes(nodes) => {
            let visits = nodes.saturating_mul(repeats as u64);
            (share(time, visits), "ns a node")
        }
    }
}

/// Writes how many bytes a document of so many bytes of text holds.
pub fn write_held<W: Write>(out: &mut W, bytes: u64, held: Option<u64>) -> Result<(), Fault> {
    match held {
        Some(held) => {
            let rate = share(held, bytes);
            writeln!(out, "{:<14} {held} bytes, {rate} a byte of text", "held")?;
        }
        None => writeln!(out, "{:<14} unknown", "held")?,
    }
    Ok(())
}
