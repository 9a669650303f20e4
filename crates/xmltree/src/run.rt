//! The program, from its input to its status.

ghost use Rattle.std.specs.Prelude.{◌≡◌, ◌<◌, ◌≤◌, List, string_bytes, IsNone, IfSome, IsErrOf, MatchOption, IsErr, IfOk, OnOk, map};
ghost use Rattle.std.specs.Io.Buffered.{writer_contents};
ghost use Rattle.rox_path.specs.Steps.{PathStep, step_of};
ghost use Rattle.rox_path.specs.Paths.{IsPath};
ghost use Rattle.xmltree.specs.Listing.{PrintsPath, PrintsReached};

use crate::fault::Fault;
use crate::listing;
use crate::options::Command;
use rox_path::{Step, parse_path, select};
use rox_programs::buffered::write_buffered;
use rox_programs::input;
use rox_programs::program_error::ProgramError;
use roxmltree::{Document, ParsingOptions};
use std::alloc::Global;
use std::io::{BufWriter, Read, Write};

/// Reads the path, if there is one, and the input. Parses the input and prints the listing of its tree, or a line for each node
/// that the path reaches from the root node. An `input` of `None` is a file that could not be opened.
///
/// Returns the exit status, 0 if all went well. A fault is a line on `err`. The status is 1 for a refused text and if memory runs
/// out. It is 2 for a bad path, for input that cannot be read or is not UTF-8, and for output that cannot be written.
pub fn run<I: Read + Drop, O: Write, E: Write>(
    alloc: Global,
    command: &Command,
    input: Option<I>,
    out: &mut O,
    err: &mut E,
) -> u8
    ensures status { result ≤ 2 }
    ensures unopened { IsNone input
        → MatchOption command.now.path (result ≡ 2) (λ _. 0 < result) }
    ensures bad_path { IfSome command.now.path (λ p. ((steps : List PathStep)
        → IsPath (string_bytes p) 0 steps → ⊥) → 0 < result) }
{
    match print(alloc, command, input, out) {
        Ok(_) => 0,
        Err(fault) => {
            let status = fault.status();
            // A fault of `err` itself cannot be reported anywhere.
            let _ = writeln!(err, "error: {fault}");
            status
        }
    }
}

fn print<I: Read + Drop, O: Write + Drop>(
    alloc: Global,
    command: &Command,
    input: Option<I>,
    out: O,
) -> Result<O, Fault>
    ensures path { IfSome command.now.path (λ p. IfSome input (λ reader. IfSome (I.remaining reader)
        (λ text. IfOk result (λ left. (steps : List PathStep) × IsPath (string_bytes p) 0 steps
        × PrintsPath command.now.allow_dtd text steps (O.contents out) (O.contents left))))) }
    ensures unopened { IsNone input → MatchOption command.now.path
        (IsErrOf result (Fault.Program ProgramError.CannotRead)) (λ _. IsErr result) }
    ensures bad_path { IfSome command.now.path (λ p. ((steps : List PathStep)
        → IsPath (string_bytes p) 0 steps → ⊥) → IsErr result) }
{
    let steps = match &command.path {
        Some(path) => Some(parse_path(alloc, path.as_str())?),
        None => None,
    };
    let bytes = input::read_all(alloc, input)?;
    let text = input::decode(&bytes)?;
    print_text(alloc, text, command.allow_dtd, steps.as_ref(), out)
}

fn print_text<O: Write + Drop>(
    alloc: Global,
    text: &str,
    allow_dtd: bool,
    steps: Option<&Vec<Step<'_>>>,
    out: O,
) -> Result<O, Fault>
    ensures path { IfSome steps.entry (λ asked. IfOk result (λ left. PrintsPath allow_dtd text.now
        (map step_of asked.now.items) (O.contents out) (O.contents left))) }
{
    let mut options = ParsingOptions::default();
    options.allow_dtd = allow_dtd;
    match Document::parse_with_options(alloc, text, options) {
        Ok(document) => match print_document(alloc, &document, steps, out) {
            Ok(out) => Ok(out),
            Err(error) => Err(Fault::Program(error)),
        },
        Err(error) => Err(Fault::Refused(error)),
    }
}

// Prints the listing, or a line for each node that the steps reach.
fn print_document<O: Write + Drop>(
    alloc: Global,
    document: &Document<'_>,
    steps: Option<&Vec<Step<'_>>>,
    out: O,
) -> Result<O, ProgramError>
    ensures reached { IfSome steps.entry (λ asked. IfOk result (λ left. PrintsReached document.now
        (map step_of asked.now.items) (O.contents out) (O.contents left))) }
{
    match steps {
        Some(steps) => print_reached(alloc, document, steps, out),
        None => write_buffered(alloc, out, |out| {
            listing::write_document(alloc, document, out)
        }),
    }
}

// Prints a line for each node that the steps reach from the root node.
fn print_reached<O: Write + Drop>(
    alloc: Global,
    document: &Document<'_>,
    steps: &[Step<'_>],
    out: O,
) -> Result<O, ProgramError>
    ensures { IfOk result (λ left. PrintsReached document.now (map step_of steps.now)
        (O.contents out) (O.contents left)) }
{
    let write = |out: &mut BufWriter<O>|
        ensures { OnOk result (PrintsReached document.entry.now (map step_of steps.entry.now)
            (writer_contents O.contents out.old) (writer_contents O.contents out.new)) }
    { write_reached(alloc, document, steps, out) };
    // The proof needs the result apart.
    match write_buffered(alloc, out, write) {
        Ok(out) => Ok(out),
        Err(error) => Err(error),
    }
}

// Writes a line for each node that the steps reach from the root node.
fn write_reached<W: Write>(
    alloc: Global,
    document: &Document<'_>,
    steps: &[Step<'_>],
    out: &mut W,
) -> Result<(), ProgramError>
    ensures { OnOk result (PrintsReached document.now (map step_of steps.now) (W.contents out.old)
        (W.contents out.new)) }
{
    let elements = select(alloc, document.root(), steps)?;
    listing::write_elements(&elements, out)
}
