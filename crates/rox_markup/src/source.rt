//! Where a text starts, after its byte order mark. A resolver's answer starts after its declaration too (XML 1.0 sections 4.3.1
//! and 4.3.3).

ghost use Rattle.std.specs.Prelude.{◌≡◌, ◌==◌, Some, IsUtf8};
ghost use Rattle.std.specs.List.{starts_with};
ghost use Rattle.rox_grammar.specs.TextStart.{after_bom, bom};
ghost use Rattle.rox_markup.specs.DoctypeViews.{IsReplacement};
ghost use Rattle.rox_scan.specs.CursorSteps.{IsAt};
ghost use Rattle.rox_reading.specs.Doctype as reading;

use crate::xml_decl::xml_decl_if;
use rox_grammar::fault::Fault;
use rox_scan::cursor::Cursor;

/// Returns whether a text starts with a byte order mark (XML 1.0 section 4.3.3).
fn has_byte_order_mark(text: &str) -> bool
    ensures { result ≡ starts_with ◌==◌ text.now bom }
{
    text.as_bytes().starts_with(b"\xEF\xBB\xBF")
}

/// Returns the start of a text, after its byte order mark if it has one.
pub fn start_of(text: &str) -> Cursor<'_>
    ensures { IsAt text.entry (after_bom text.entry.now) result }
{
    if has_byte_order_mark(text) {
        Cursor::at(text, 3)
    } else {
        Cursor::new(text)
    }
}

/// Returns the replacement text of a resolver's answer: what follows its byte order mark and its declaration (XML 1.0 section
/// 4.3.1). Its offsets count from its own start.
#[tactic(auto, unfolding(rox_reading::specs::Doctype::answer_text))]
pub fn replacement_in<'input>(answer: &'input str) -> Result<Cursor<'input>, Fault>
    ensures value { IsReplacement answer.entry.now result
        (reading.answer_text (Some answer.entry.now)) }
    ensures text { IsUtf8 answer.entry.now }
{
    let mut cursor = start_of(answer);
    xml_decl_if(&mut cursor)?;
    Ok(Cursor::new(&answer[cursor.pos..]))
}
