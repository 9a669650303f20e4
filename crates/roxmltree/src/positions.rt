//! Rows and columns of a document's text.

ghost use Rattle.std.specs.Prelude.{◌≡◌};
ghost use Rattle.rox_grammar.specs.Positions.{row_of, col_of};

use crate::tree::Document;
use rox_error::position::{TextPos, text_pos_at};

impl Document<'_> {
    /// Returns the row and the column, both from 1, of the character at the offset `pos` in bytes. An offset inside a character
    /// counts as that of the character, and an offset past the end as the end. The text up to `pos` is read, so the time grows
    /// with `pos`.
    ///
    /// Rows end at line feeds alone; XML 1.0 section 2.11 also takes a CR without a line feed after it as a line end. A row or
    /// a column above `u32::MAX` is returned as `u32::MAX`.
    ///
    /// ```
    /// let document = Document::parse(alloc, "<r>\n  <a/>\n</r>")?;
    /// // the byte where `<a/>` starts
    /// assert!(rt; document.text_pos_at(6) == TextPos::new(2, 3));
    /// ```
    pub fn text_pos_at(&self, pos: usize) -> TextPos
        ensures row { result.row ≡ row_of self.now.text pos }
        ensures col { result.col ≡ col_of self.now.text pos }
    {
        text_pos_at(self.input_text(), pos)
    }
}
