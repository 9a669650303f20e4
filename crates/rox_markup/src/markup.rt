//! Comments, processing instructions and CDATA sections.

ghost use Rattle.std.specs.Prelude.{◌≡◌, ◌+◌, IfSome, true};
ghost use Rattle.rox_grammar.specs.Search.{stands};
ghost use Rattle.rox_grammar.specs.FixedTexts.{word_text};
ghost use Rattle.rox_grammar.specs.Tree.{none_if_empty};
ghost use Rattle.rox_grammar.specs.declared.fault.Word.TheVariants as word;
ghost use Rattle.rox_reading.specs.Lexical as lexical;
ghost use Rattle.rox_reading.specs.Markup as spec;
ghost use Rattle.rox_scan.specs.CursorSteps.{Steps};
ghost use Rattle.rox_markup.specs.Views.{IsComment, instruction_view, text_view};

use rox_bytes::search::has_mark;
use rox_grammar::fault::{Expected, Fault, Word};
use rox_scan::cursor::{Cursor, mark_from};
use rox_scan::lookahead::comment_text_end;

/// A processing instruction as it is written. Its value is `None` if only white space follows its target.
#[derive(Clone, Copy)]
pub struct Instruction<'input> {
    pub target: &'input str,
    pub value: Option<&'input str>,
}

/// Returns a text, or `None` if it is empty.
#[inline]
fn none_if_empty(text: &str) -> Option<&str>
    ensures { none_if_empty text.now ≡ text_view result }
{
    if text.is_empty() { None } else { Some(text) }
}

/// A valid comment: its text, and the offset after it.
#[derive(Clone, Copy)]
pub struct WholeComment<'input> {
    pub text: &'input str,
    pub end: usize,
}

/// Returns the comment that starts with the `<!--` at the cursor, if it is valid.
#[inline(always)]
pub fn whole_comment<'input>(from: Cursor<'input>) -> Option<WholeComment<'input>>
    requires { stands (word_text word.CommentStart) from.text.now from.pos ≡ true }
    ensures { IfSome result (IsComment from.entry.text.now from.entry.pos) }
{
    let mut here = from;
    here.skip(Word::CommentStart);
    let start = here.pos;
    let end = comment_text_end(here);
    if end == 0 {
        return None;
    }
    here.pos = end;
    here.skip(Word::CommentEnd);
    Some(WholeComment {
        text: &from.text[start..end],
        end: here.pos,
    })
}

/// Reads the text up to the first `mark`, and the mark. Returns the text.
#[inline]
#[tactic(auto, unfolding(rox_reading::specs::Lexical::text_to))]
fn text_to<'input>(cursor: &mut Cursor<'input>, mark: Expected) -> Result<&'input str, Fault>
    ensures { Steps (λ x. x.now) cursor.old cursor.new result (lexical.text_to mark) }
{
    let end = mark_from(*cursor, mark);
    let text = cursor.chars_up_to(end)?;
    cursor.string(mark)?;
    Ok(text)
}

/// Reads a comment, from `<!--` to its end `-->` (XML 1.0 section 2.5). Returns the text between these. Two dashes in the
/// text, or one at its end, are a fault at the comment's start.
#[inline]
pub fn comment<'input>(cursor: &mut Cursor<'input>) -> Result<&'input str, Fault>
    requires { stands (word_text word.CommentStart) cursor.old.text.now cursor.old.pos ≡ true }
    ensures { Steps (λ x. x.now) cursor.old cursor.new result spec.comment_at }
{
    let Some(whole) = whole_comment(*cursor) else {
        let start = cursor.pos;
        cursor.skip(Word::CommentStart);
        return faulty_comment(cursor, start);
    };
    cursor.pos = whole.end;
    Ok(whole.text)
}

/// Like `comment`, but from after the `<!--`, which is at `start`, for comments that are not valid.
#[cold]
#[inline(never)]
#[tactic(auto, unfolding(rox_reading::specs::Markup::comment_at))]
fn faulty_comment<'input>(cursor: &mut Cursor<'input>, start: usize) -> Result<&'input str, Fault>
    requires { cursor.old.pos ≡ start + 4 }
    ensures { Steps (λ x. x.now) cursor.old cursor.new result (λ src _. spec.comment_at src start) }
{
    let text = text_to(cursor, Expected::CommentEnd)?;
    let bytes = text.as_bytes();
    if has_mark(bytes, b"--") || bytes.last() == Some(&b'-') {
        return Err(Fault::InvalidComment(start));
    }
    Ok(text)
}

/// Reads a processing instruction, from `<?` to its end `?>` (XML 1.0 section 2.6). An XML declaration is a fault here.
#[inline]
#[tactic(auto, unfolding(rox_reading::specs::Markup::instruction_at))]
pub fn processing_instruction<'input>(
    cursor: &mut Cursor<'input>,
) -> Result<Instruction<'input>, Fault>
    requires { stands (word_text word.PIStart) cursor.old.text.now cursor.old.pos ≡ true }
    ensures { Steps instruction_view cursor.old cursor.new result spec.instruction_at }
{
    if cursor.starts(Word::XmlDeclStart) {
        return Err(Fault::UnexpectedDeclaration(cursor.pos));
    }
    cursor.skip(Word::PIStart);
    let target = cursor.name()?;
    cursor.spaces();
    let value = text_to(cursor, Expected::PIEnd)?;
    Ok(Instruction {
        target,
        value: none_if_empty(value),
    })
}

/// Reads a CDATA section, from `<![CDATA[` to its end `]]>` (XML 1.0 section 2.7). Returns the text between these.
#[inline]
#[tactic(auto, unfolding(rox_reading::specs::Markup::cdata_at))]
pub fn cdata<'input>(cursor: &mut Cursor<'input>) -> Result<&'input str, Fault>
    requires { stands (word_text word.CDataStart) cursor.old.text.now cursor.old.pos ≡ true }
    ensures { Steps (λ x. x.now) cursor.old cursor.new result spec.cdata_at }
{
    cursor.skip(Word::CDataStart);
    text_to(cursor, Expected::CDataEnd)
}
