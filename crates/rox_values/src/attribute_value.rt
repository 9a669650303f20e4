//! The values of attributes, with references and white space replaced (XML 1.0 sections 3.3.3 and 4.1). `plain_bits` appends their
//! items, and where it stops, this module opens an entity or tells the fault.

ghost use Rattle.std.specs.Prelude.{◌-◌, ◌≤◌, ℕ, List, string_bytes, IsCharBoundary, ◌<◌};
ghost use Rattle.rox_reading.specs.Values as spec;
ghost use Rattle.rox_scan.specs.Views.{HasValue};
ghost use Rattle.rox_grammar.specs.Entities.{Entity};
ghost use Rattle.rox_reading.specs.Machine.{value_opener};
ghost use Rattle.rox_scan.specs.Views.{replacement_view};
ghost use Rattle.rox_values.specs.DeclaredEntities.{AreDeclared};
ghost use Rattle.rox_values.specs.PlainBits.{BeginsReference, NamesText};
ghost use Rattle.rox_values.specs.Values.{AppendsValue, GivesValue, piece_view};

use crate::context::Context;
use crate::parse_error::ParseError;
use crate::plain_bits::{inner_stretch_end, put_plain_bits};
use crate::reference::{Reference, found, read_reference};
use crate::text_value::TextValue;
use rox_bytes::byte_set::{QuotedByte, skip_set};
use rox_grammar::failure::Failure;
use rox_grammar::fault::Fault;
use rox_scan::cursor::Cursor;
use rox_scan::lookahead::is_special;
use rox_scan::raw_attribute::RawAttribute;

/// Returns the replacement text that the reference at `at` names, and the offset after the reference. Fails if it names none. It is
/// out of memory then, unless the reference is a fault in a value.
#[inline(always)]
#[tactic(auto, unfolding(rox_reading::specs::Values::value_reference_at))]
pub(crate) fn named_text<'input>(
    text: &'input str,
    at: usize,
    context: Context<'_, 'input>,
) -> Result<(Cursor<'input>, usize), Failure>
    requires { BeginsReference text.now at }
    ensures { NamesText context.entry.entities.now text.entry.now at result
        (λ es. spec.value_reference_at context.entry.main es text.entry.now at) }
{
    let mut cursor = Cursor::at(text, at);
    match read_reference(&mut cursor)? {
        Reference::Character(character) => {
            if !context.main && character == '<' {
                return Err(Failure::Fault(Fault::InvalidAttributeValue(at)));
            }
            Err(Failure::Memory)
        }
        Reference::Entity(span, name) => {
            let named = found(context, name, span, at)?;
            Ok((named, cursor.pos))
        }
    }
}

/// Like `named_text`, but for the item of a value at `at`, which `put_plain_bits` did not append. It may be no reference.
#[inline(always)]
#[tactic(auto, unfolding(rox_reading::specs::Values::value_bit_at))]
fn other_bit<'input>(
    text: &'input str,
    at: usize,
    stop: usize,
    context: Context<'_, 'input>,
) -> Result<(Cursor<'input>, usize), Failure>
    requires start { IsCharBoundary text.now at }
    requires stop { IsCharBoundary text.now stop }
    requires before { at < stop }
    ensures { NamesText context.entry.entities.now text.entry.now at result
        (λ es. spec.value_bit_at context.entry.main es text.entry.now stop at) }
{
    let here = text.as_bytes()[at];
    if here == b'&' {
        return named_text(text, at, context);
    }
    if !context.main && !is_special(here) {
        inner_stretch_end(text, at, stop)?;
    }
    Err(Failure::Memory)
}

/// Appends the value of the text from the cursor up to `stop`. `openings_left` replacement texts may be opened in it. Returns how
/// many may be opened after it.
#[cycle(values)]
pub(crate) fn value_text<'input>(
    from: Cursor<'input>,
    stop: usize,
    context: Context<'_, 'input>,
    mut openings_left: u32,
    out: &mut String,
) -> Result<u32, ParseError<'input>>
    requires { IsCharBoundary from.text.now stop }
    ensures { (es : List Entity) (bits : ℕ) → AreDeclared es context.entry.entities.now
        → stop - from.entry.pos ≤ bits
        → AppendsValue (string_bytes out.old) (string_bytes out.new) result
        (spec.value_text context.entry.main es
        (value_opener es context.entry.depth_left context.entry.main) bits
        from.entry.text.now stop from.entry.pos openings_left) }
{
    let text = from.text;
    let mut at = from.pos;
    'bits: while at < stop {
        at = put_plain_bits(text, at, stop, context.main, out);
        if at >= stop {
            return Ok(openings_left);
        }
        let (named, after) = other_bit(text, at, stop, context)?;
        openings_left = open_value(named, after, context, openings_left, out)?;
        at = after;
    }
    Ok(openings_left)
}

/// Appends a replacement text as a part of a value (XML 1.0 section 4.4.5). The reference ends at `after`. Returns how many
/// replacement texts may be opened after it.
#[cycle(values)]
#[inline(always)]
fn open_value<'input>(
    text: Cursor<'input>,
    after: usize,
    context: Context<'_, 'input>,
    openings_left: u32,
    out: &mut String,
) -> Result<u32, ParseError<'input>>
    ensures { (es : List Entity) → AreDeclared es context.entry.entities.now
        → AppendsValue (string_bytes out.old) (string_bytes out.new) result
        (value_opener es context.entry.depth_left context.entry.main
        (replacement_view text.entry) after openings_left) }
{
    let (within, inner) = context.opened(after, openings_left, 0)?;
    // Most texts have no control, `<` or `&`, and give themselves.
    if skip_set::<QuotedByte>(text.text, text.pos) >= text.text.len() {
        if out.push_str(&text.text[text.pos..]).is_err() {
            return Err(ParseError::Memory);
        }
        return Ok(context.left_behind(openings_left, inner));
    }
    match value_text(text, text.text.len(), within, inner, out) {
        Ok(inner) => Ok(context.left_behind(openings_left, inner)),
        Err(refused) => Err(refused.within(text.text)),
    }
}

/// Returns an attribute's value (XML 1.0 section 3.3.3), and how many replacement texts may be opened after it. The value is a
/// slice of the source if it has no reference and no white space other than spaces. Otherwise it is in `scratch`, which is
/// cleared first. `openings_left` replacement texts could be opened before it.
#[inline]
#[tactic(auto, unfolding(rox_reading::specs::Values::value_at))]
pub fn value<'input>(
    text: &'input str,
    raw: &RawAttribute<'input>,
    context: Context<'_, 'input>,
    openings_left: u32,
    scratch: &mut String,
) -> Result<(TextValue<'input>, u32), ParseError<'input>>
    requires { HasValue text.now raw.now }
    ensures { (es : List Entity) → AreDeclared es context.entry.entities.now
        → GivesValue (λ p. piece_view p (string_bytes scratch.new)) result
        (spec.value_at context.entry.main es
        (value_opener es context.entry.depth_left context.entry.main) text.entry.now
        raw.now.value_start raw.now.value_end openings_left) }
{
    if raw.is_verbatim {
        return Ok((TextValue::Plain(raw.value), openings_left));
    }
    scratch.clear();
    let from = Cursor::at(text, raw.value_start);
    let openings_left = value_text(from, raw.value_end, context, openings_left, scratch)?;
    Ok((TextValue::Changed, openings_left))
}
