//! What the program does.

use crate::arguments::Command;
use crate::fault::Fault;
use crate::memory;
use crate::report::{Size, write_held, write_turns};
use crate::turns::measure;
use crate::walk::{Census, count, walk};
use crate::work::{Parse, ParseAndDrop, Walk, WalkLinks};
use rox_programs::input::{decode, read_all};
use roxmltree::Document;
use std::fs::File;
use std::io::Write;
use std::rt::Files;
use std::time::CpuClock;

/// Reads the file, measures the parse of its text and walks over its document, and prints the figures.
pub fn run<R: Files + AllocGlobal + CpuClock, O: Write>(
    rt: &R,
    command: &Command,
    out: &mut O,
) -> Result<(), Fault> {
    let bytes = read_all(rt.alloc(), File::open(rt, command.file.as_str()).ok())?;
    let text = decode(&bytes)?;
    // before anything else is parsed
    let held = memory::held(rt, text)?;
    measure_text(rt, command, text, out)?;
    write_held(out, text.len() as u64, held)
}

fn measure_text<R: AllocGlobal + CpuClock, O: Write>(
    rt: &R,
    command: &Command,
    text: &str,
    out: &mut O,
) -> Result<(), Fault> {
    let document = Document::parse(rt.alloc(), text)?;
    measure_document(rt, command, text, &document, out)
}

fn measure_document<R: AllocGlobal + CpuClock, O: Write>(
    rt: &R,
    command: &Command,
    text: &str,
    document: &Document<'_>,
    out: &mut O,
) -> Result<(), Fault> {
    let found = count(document);
    write_contents(out, command.file.as_str(), text.len() as u64, found)?;
    // a quarter of the time for each work
    let budget = command.seconds as u64 * 250_000_000;
    measure_parses(rt, text, budget, out)?;
    measure_walks(rt, document, found.nodes, budget, out)
}

fn write_contents<O: Write>(
    out: &mut O,
    file: &str,
    bytes: u64,
    found: Census,
) -> Result<(), Fault> {
    let Census {
        nodes,
        elements,
        attributes,
    } = found;
    write!(out, "{file}: {bytes} bytes, {nodes} nodes, ")?;
    writeln!(out, "{elements} elements, {attributes} attributes")?;
    Ok(())
}

fn measure_parses<R: AllocGlobal + CpuClock, O: Write>(
    rt: &R,
    text: &str,
    budget: u64,
    out: &mut O,
) -> Result<(), Fault> {
    let (alloc, size) = (rt.alloc(), Size::Bytes(text.len() as u64));
    let turns = measure(alloc, rt, &ParseAndDrop { alloc, text }, budget)?;
    write_turns(alloc, out, "parse and drop", size, turns)?;
    let turns = measure(alloc, rt, &Parse { alloc, text }, budget)?;
    write_turns(alloc, out, "parse", size, turns)
}

fn measure_walks<R: AllocGlobal + CpuClock, O: Write>(
    rt: &R,
    document: &Document<'_>,
    nodes: u64,
    budget: u64,
    out: &mut O,
) -> Result<(), Fault> {
    let (alloc, sum) = (rt.alloc(), walk(document, 0));
    let turns = measure(alloc, rt, &Walk { document, sum }, budget)?;
    write_turns(alloc, out, "walk", Size::Nodes(nodes), turns)?;
    let turns = measure(alloc, rt, &WalkLinks { document, nodes }, budget)?;
    write_turns(alloc, out, "walk by links", Size::Nodes(nodes), turns)?;
    writeln!(out, "{:<14} {sum}", "sum of a walk")?;
    Ok(())
}
