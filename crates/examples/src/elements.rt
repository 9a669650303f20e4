//! Prints the name of each element of an XML text that comes on standard input, and its attributes.
#![tactic(auto)]

use roxmltree::{Document, Error, Node};
use std::io;
use std::io::Write;
use std::process::ExitCode;

pub fn main(rt: HostRuntime) -> io::Result<ExitCode> {
    let text = io::read_to_string(rt.alloc(), rt.stdin())?;
    match Document::parse(rt.alloc(), text.as_str()) {
        Ok(document) => {
            print_elements(&document, &mut rt.stdout())?;
            Ok(ExitCode::SUCCESS)
        }
        Err(error) => {
            print_error(&error, text.as_str(), &mut rt.stderr())?;
            Ok(ExitCode::FAILURE)
        }
    }
}

fn print_elements<W: Write>(document: &Document<'_>, out: &mut W) -> io::Result<()> {
    for node in document.descendants() {
        if node.is_element() {
            print_element(node, out)?;
        }
    }
    Ok(())
}

fn print_element<W: Write>(element: Node<'_, '_>, out: &mut W) -> io::Result<()> {
    let name = element.tag_name().name();
    writeln!(out, "{name}")?;
    for attribute in element.attributes() {
        let (name, value) = (attribute.name(), attribute.value());
        writeln!(out, "    {name} = {value:?}")?;
    }
    Ok(())
}

/// Prints the message of an error and, if it keeps a position, its line and a caret below the character there.
fn print_error<W: Write>(error: &Error, text: &str, out: &mut W) -> io::Result<()> {
    let message = error.message();
    let Some(place) = error.position() else {
        return writeln!(out, "error: {message}");
    };
    let line = text
        .lines()
        .nth((place.row as usize).saturating_sub(1))
        .unwrap_or("");
    writeln!(out, "{place}: {message}")?;
    writeln!(out, "{line}")?;
    print_caret(place.col, out)
}

/// Prints a caret below the character in this column.
fn print_caret<W: Write>(column: u32, out: &mut W) -> io::Result<()> {
    for _ in 1..column {
        write!(out, " ")?;
    }
    writeln!(out, "^")
}
