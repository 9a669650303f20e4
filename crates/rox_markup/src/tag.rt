//! The contents of tags (XML 1.0 section 3.1). They are the attributes of a start tag as they are written, its end, and the name
//! of an end tag.

ghost use Rattle.std.specs.Prelude.{◌≡◌, ◌==◌, true, IfOk, slice_range};
ghost use Rattle.rox_grammar.specs.Search.{stands};
ghost use Rattle.rox_grammar.specs.FixedTexts.{word_text};
ghost use Rattle.rox_grammar.specs.declared.fault.Word.TheVariants as word;
ghost use Rattle.rox_reading.specs.Markup as spec;
ghost use Rattle.rox_scan.specs.CursorSteps.{Steps};
ghost use Rattle.rox_markup.specs.Views.{PassesValue, end_tag_view, attribute_view, tag_item_view, TagItemHasValue};
ghost use Rattle.rox_scan.specs.Views.{HasValue};
ghost use Rattle.rox_grammar.specs.Content.{is_verbatim_value};

use rox_bytes::byte_set::{ValueByte, skip_set};
use rox_bytes::runs::is_at;
use rox_bytes::search::either_from;
use rox_grammar::fault::{Due, Fault, Word};
use rox_grammar::name::QName;
use rox_scan::cursor::{Cursor, Quote};
use rox_scan::lookahead::{is_verbatim_value, scan_value};
use rox_scan::raw_attribute::RawAttribute;

/// An end tag: its name, and the offset at which the name ends.
#[derive(Clone, Copy)]
pub struct EndTag<'input> {
    pub name: QName<'input>,
    pub name_end: usize,
}

/// An attribute's value as it is written. `is_verbatim` is true if it has no reference and no white space other than spaces.
#[derive(Clone, Copy)]
struct RawValue<'input> {
    text: &'input str,
    is_verbatim: bool,
}

/// The next item of a start tag: an attribute, or its end `>` or `/>`.
#[derive(Clone, Copy)]
pub enum TagItem<'input> {
    More(RawAttribute<'input>),
    Open,
    Empty,
}

/// Reads an end tag, from `</` to its `>` (XML 1.0 [42] ETag).
#[inline(always)]
#[tactic(auto, unfolding(rox_reading::specs::Markup::end_tag_at))]
pub fn end_tag<'input>(cursor: &mut Cursor<'input>) -> Result<EndTag<'input>, Fault>
    requires { stands (word_text word.EndTagStart) cursor.old.text.now cursor.old.pos ≡ true }
    ensures { Steps end_tag_view cursor.old cursor.new result spec.end_tag_at }
{
    cursor.skip(Word::EndTagStart);
    let name = cursor.qname()?;
    let name_end = cursor.pos;
    cursor.spaces();
    cursor.byte(b'>')?;
    Ok(EndTag { name, name_end })
}

/// Reads the text up to the quote or a `<`, one of which must follow.
#[inline]
#[tactic(auto, using(rox_bytes::proofs::NearLemmas::near_plain, rox_bytes::proofs::NearLemmas::value_cut))]
fn raw_value<'input>(cursor: &mut Cursor<'input>, quote: Quote) -> Result<RawValue<'input>, Fault>
    ensures read { Steps (λ x. x.text.now) cursor.old cursor.new result
        (spec.raw_value_at quote.byte) }
    ensures text { IfOk result (λ x. x.text.now ≡ slice_range cursor.old.text.now cursor.old.pos
        cursor.new.pos) }
    ensures verbatim { IfOk result (λ x. x.is_verbatim ≡ is_verbatim_value x.text.now) }
{
    let start = cursor.pos;
    let near = skip_set::<ValueByte>(cursor.text, start);
    if is_at(cursor.text, near, quote.byte) {
        cursor.pos = near;
        return Ok(RawValue {
            text: &cursor.text[start..near],
            is_verbatim: true,
        });
    }
    let is_verbatim = value_by_characters(cursor, quote)?;
    Ok(RawValue {
        text: &cursor.text[start..cursor.pos],
        is_verbatim,
    })
}

/// Like `raw_value`, for values with other bytes too. Moves to the end of the value, and returns whether it needs no replacement.
#[inline(never)]
fn value_by_characters(cursor: &mut Cursor<'_>, quote: Quote) -> Result<bool, Fault>
    ensures { PassesValue quote.byte cursor.old cursor.new result }
{
    let look = scan_value(*cursor, quote);
    if is_at(cursor.text, look.end, quote.byte) {
        cursor.pos = look.end;
        return Ok(look.is_verbatim);
    }
    faulty_value(cursor, quote)
}

/// Like `value_by_characters`, for a value with a character that is not a Char, or with a `<` or the end in place of its closing
/// quote.
#[inline(never)]
#[tactic(auto, unfolding(rox_reading::specs::Markup::raw_value_at))]
fn faulty_value(cursor: &mut Cursor<'_>, quote: Quote) -> Result<bool, Fault>
    ensures { PassesValue quote.byte cursor.old cursor.new result }
{
    let end = either_from(cursor.text, cursor.pos, quote.byte, b'<');
    if end >= cursor.text.len() {
        return Err(Fault::UnexpectedEndOfStream);
    }
    let text = cursor.chars_up_to(end)?;
    Ok(is_verbatim_value(text.as_bytes()))
}

/// Reads an attribute as it is written: a name, `=`, and a value in quotes (XML 1.0 [41] Attribute). A `<` in the value is a
/// fault at its offset.
#[inline]
#[tactic(auto, unfolding(rox_reading::specs::Markup::attribute_at))]
pub fn attribute<'input>(cursor: &mut Cursor<'input>) -> Result<RawAttribute<'input>, Fault>
    ensures read { Steps attribute_view cursor.old cursor.new result spec.attribute_at }
    ensures text { IfOk result (λ a. HasValue cursor.old.text.now a) }
{
    let start = cursor.pos;
    let name = cursor.qname()?;
    let name_end = cursor.pos;
    cursor.spaces();
    cursor.byte(b'=')?;
    cursor.spaces();
    let quote = cursor.quote()?;
    let value_start = cursor.pos;
    let value = raw_value(cursor, quote)?;
    let value_end = cursor.pos;
    cursor.byte(quote.byte)?;
    Ok(RawAttribute {
        start,
        name,
        name_end,
        value_start,
        value_end,
        value: value.text,
        is_verbatim: value.is_verbatim,
    })
}

/// Reads white space, then an attribute or the end of the start tag (XML 1.0 [40] STag, [44] EmptyElemTag). An attribute
/// without white space before it is a fault.
#[inline]
#[tactic(auto, unfolding(rox_reading::specs::Markup::tag_item_at))]
pub fn tag_item<'input>(cursor: &mut Cursor<'input>) -> Result<TagItem<'input>, Fault>
    ensures read { Steps tag_item_view cursor.old cursor.new result spec.tag_item_at }
    ensures text { IfOk result (λ t. TagItemHasValue cursor.old.text.now t) }
{
    let start = cursor.pos;
    cursor.spaces();
    if cursor.pos >= cursor.text.len() {
        return Err(Fault::UnexpectedEndOfStream);
    }
    let here = cursor.text.as_bytes()[cursor.pos];
    if here == b'/' {
        cursor.advance();
        cursor.byte(b'>')?;
        return Ok(TagItem::Empty);
    }
    if here == b'>' {
        cursor.advance();
        return Ok(TagItem::Open);
    }
    if cursor.pos == start {
        return Err(Fault::InvalidChar2(Due::Space, here, start));
    }
    Ok(TagItem::More(attribute(cursor)?))
}
