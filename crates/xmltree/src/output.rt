//! How texts and ranges are written in a listing.

ghost use Rattle.rox_programs.specs.Output.{Writes};
ghost use Rattle.xmltree.specs.Listing.{range_text};

use rox_programs::output::Output;
use std::io::Write;
use std::ops::Range;

/// Writes a text in its debug form, between quotes.
pub fn write_debug<W: Write>(text: &str, out: &mut Output<'_, W>) {
    if out.result.is_ok() {
        out.result = write!(out.writer, "{text:?}");
    }
}

/// Writes the offsets where a range starts and ends, in bytes.
pub fn write_range<W: Write>(range: Range<usize>, out: &mut Output<'_, W>)
    ensures { Writes W.contents out.old out.new (range_text range.start range.end) }
{
    if out.result.is_ok() {
        let (start, end) = (range.start, range.end);
        out.result = write!(out.writer, "{start}..{end}");
    }
}
