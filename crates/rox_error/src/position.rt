//! Rows and columns of a text.

ghost use Rattle.std.specs.Prelude.{◌≡◌, ◌+◌, min, IsCharBoundary};
ghost use Rattle.rox_grammar.specs.Positions as spec;

use crate::counting::{FirstByte, LineFeed, count};
use memchr::memrchr;
use std::fmt;

/// A position in a text: a row and a column, both from 1. The column counts characters.
///
/// ```
/// let document = Document::parse(alloc, "<r>\n  <a/>\n</r>")?;
/// // the byte where `<a/>` starts
/// assert!(rt; document.text_pos_at(6) == TextPos::new(2, 3));
/// ```
#[derive(Clone, Copy, Debug, PartialEq, Eq, Hash)]
pub struct TextPos {
    /// The row, from 1: one more than the line feeds before the position.
    pub row: u32,
    /// The column, from 1: one more than the characters before the position in its row.
    pub col: u32,
}

impl TextPos {
    /// Returns the position with this row and this column.
    #[inline]
    pub fn new(row: u32, col: u32) -> TextPos
        ensures row { result.row ≡ row }
        ensures col { result.col ≡ col }
    {
        TextPos { row, col }
    }
}

impl fmt::Display for TextPos {
    ghost use Rattle.std.specs.Prelude.{Some};
    ghost use Rattle.rox_error.specs.Messages.{position_text};

    ghost output = { λ p. Some (position_text p) };

    fn fmt<W: fmt::Write>(&self, f: &mut fmt::Formatter<W>) -> fmt::Result {
        let (row, col) = (self.row, self.col);
        write!(f, "{row}:{col}")
    }
}

/// Returns the offset, in bytes, at which the character at the offset `at` starts, or the length of the text if `at` is past it.
#[inline]
fn round_down(text: &str, at: usize) -> usize
    ensures place { result ≡ spec.round_down text.now at }
    ensures cut { IsCharBoundary text.now result }
{
    let mut place = at.min(text.len());
    while !text.is_char_boundary(place) {
        place -= 1;
    }
    place
}

/// Returns `count + 1`, or `u32::MAX` if that is less.
#[inline]
fn counted(count: usize) -> u32
    ensures { result ≡ min (count + 1) 4294967295 }
{
    if count >= 4294967295 {
        4294967295
    } else {
        count as u32 + 1
    }
}

/// Returns what follows the last line feed, or the whole text if it has none.
fn last_line(front: &str) -> &str
    ensures { result.now ≡ spec.last_line front.now }
{
    match memrchr(b'\n', front.as_bytes()) {
        Some(index) => &front[index + 1..],
        None => front,
    }
}

/// Returns the position of the character at the offset `at` of `text`, in bytes. Inside of a character this is the position of that
/// character, and past the end that of the end. A row ends only at a line feed; XML 1.0 section 2.11 also takes a CR without a line
/// feed after it as a line end. A row or a column greater than `u32::MAX` is returned as `u32::MAX`. Reads the text up to `at`
/// once.
#[tactic(auto, unfolding(rox_grammar::specs::Positions::row_of, rox_grammar::specs::Positions::col_of))]
pub fn text_pos_at(text: &str, at: usize) -> TextPos
    ensures row { result.row ≡ spec.row_of text.now at }
    ensures col { result.col ≡ spec.col_of text.now at }
{
    let front = &text[..round_down(text, at)];
    let rows = count::<LineFeed>(front.as_bytes());
    let cols = count::<FirstByte>(last_line(front).as_bytes());
    TextPos {
        row: counted(rows),
        col: counted(cols),
    }
}
