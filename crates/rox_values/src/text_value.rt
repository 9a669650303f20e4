//! A text that was read: a slice of the source, or a changed text if line ends, references or white space change it. The text of
//! a CDATA section is read as one of these (XML 1.0 sections 2.7 and 2.11).

ghost use Rattle.std.specs.Prelude.{◌≡◌, ℕ, IfOk, List, is_some, string_bytes};
ghost use Rattle.rox_values.specs.Values.{IsItsSlice, piece_view, section_text};

use crate::line_ends::line_feeds;
use rox_bytes::search::before_byte;
use std::alloc::AllocError;

/// A text: a slice of the source, or what the caller's buffer holds.
#[derive(Clone, Copy)]
pub enum TextValue<'input> {
    Plain(&'input str),
    Changed,
}

impl<'input> TextValue<'input> {
    /// Returns the text, where a changed one has the bytes `changed`.
    #[inline(always)]
    pub fn text_in<'a>(self, changed: &'a str) -> &'a str
    where
        'input: 'a,
        ensures { result.now ≡ (piece_view self.entry changed.entry.now).value }
    {
        match self {
            TextValue::Plain(text) => text,
            TextValue::Changed => changed,
        }
    }

    /// Returns the slice of the source that the text is, if it is one.
    #[inline(always)]
    pub fn slice(self) -> Option<&'input str>
        ensures its { (changed : List ℕ) → IsItsSlice result (piece_view self.entry changed).value }
        ensures borrowed { (changed : List ℕ) → is_some result ≡ (piece_view self.entry changed).borrowed }
    {
        match self {
            TextValue::Plain(text) => Some(text),
            TextValue::Changed => None,
        }
    }
}

/// Returns the text of a CDATA section (XML 1.0 sections 2.7 and 2.11). It is a slice of the source if it has no CR. Otherwise it
/// is in `scratch`, which is cleared first, with a LF for each line end.
#[inline]
pub fn cdata_text<'input>(
    raw: &'input str,
    scratch: &mut String,
) -> Result<TextValue<'input>, AllocError>
    ensures { IfOk result (λ p. piece_view p (string_bytes scratch.new) ≡ section_text raw.now) }
{
    let bytes = raw.as_bytes();
    if before_byte(bytes, b'\r') == bytes.len() {
        return Ok(TextValue::Plain(raw));
    }
    scratch.clear();
    line_feeds(raw, scratch)?;
    Ok(TextValue::Changed)
}
