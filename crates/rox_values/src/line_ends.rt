//! Line ends, each of which is read as a line feed (XML 1.0 section 2.11).

ghost use Rattle.std.specs.Prelude.{◌≡◌, ◌++◌, IfOk, OnOk, ◌<◌, string_bytes};
ghost use Rattle.rox_bytes.specs.ScanResults.{HasCharAt};
ghost use Rattle.rox_values.specs.Values.{AppendsSectionPart, section_rest};

use rox_bytes::runs::{after_byte, is_at};
use rox_bytes::search::byte_from;
use std::alloc::AllocError;

/// Appends a text with a LF for each line end (XML 1.0 section 2.11).
pub fn line_feeds(raw: &str, out: &mut String) -> Result<(), AllocError>
    ensures { OnOk result (string_bytes out.new ≡ string_bytes out.old ++ section_rest raw.now 0) }
{
    let mut at = 0;
    while at < raw.len() {
        at = section_part(raw, at, out)?;
    }
    Ok(())
}

/// Appends the next item of a CDATA section: a line end, or all up to the next CR. Returns the offset after it.
#[tactic(auto, using(crate::proofs::SectionLemmas::part_stretch, crate::proofs::SectionLemmas::stretch_moves, crate::proofs::SectionLemmas::part_feed, crate::proofs::SectionLemmas::part_return))]
fn section_part(raw: &str, at: usize, out: &mut String) -> Result<usize, AllocError>
    requires { HasCharAt raw.now at }
    ensures { IfOk result
        (λ next. AppendsSectionPart raw.now at next (string_bytes out.old) (string_bytes out.new)) }
{
    if raw.as_bytes()[at] != b'\r' {
        let end = byte_from(raw, at, b'\r');
        out.push_str(&raw[at..end])?;
        return Ok(end);
    }
    out.push('\n')?;
    let next = after_byte(raw, at, b'\r');
    if is_at(raw, next, b'\n') {
        return Ok(after_byte(raw, next, b'\n'));
    }
    Ok(next)
}
