//! How texts, numbers, ranges and names are written in a dump.

use crate::escape;
use rox_programs::output::Output;
use std::io::Write;
use std::ops::Range;

/// Writes a text between quotes.
pub fn write_quoted<W: Write>(text: &str, out: &mut Output<'_, W>) {
    if out.result.is_ok() {
        out.result = escape::write_quoted(text, out.writer);
    }
}

/// Writes a number in decimal digits.
pub fn write_number<W: Write>(number: u64, out: &mut Output<'_, W>) {
    if out.result.is_ok() {
        out.result = write!(out.writer, "{number}");
    }
}

/// Writes a label and `true` or `false`.
pub fn write_truth<W: Write>(label: &str, is_so: bool, out: &mut Output<'_, W>) {
    out.text(label);
    out.text(if is_so { "true" } else { "false" });
}

/// Writes a label and a range.
pub fn write_range<W: Write>(label: &str, range: Range<usize>, out: &mut Output<'_, W>) {
    out.text(label);
    write_number(range.start as u64, out);
    out.text("..");
    write_number(range.end as u64, out);
}

/// Writes a label and a text, or that there is none.
pub fn write_text<W: Write>(label: &str, text: Option<&str>, out: &mut Output<'_, W>) {
    out.text(label);
    match text {
        None => out.text("-"),
        Some(text) => write_quoted(text, out),
    }
}

/// Writes a label and a name: its namespace and its local part.
pub fn write_name<W: Write>(
    label: &str,
    namespace: Option<&str>,
    local: &str,
    out: &mut Output<'_, W>,
) {
    out.text(label);
    write_text("{", namespace, out);
    out.text("}");
    write_quoted(local, out);
}

/// What stands before an item of a list.
pub fn gap(is_first: bool) -> &'static str {
    if is_first { "" } else { " " }
}
