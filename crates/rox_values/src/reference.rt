//! References to characters and to entities, and the replacement text that one names (XML 1.0 sections 4.1 and 4.6).

ghost use Rattle.std.specs.Prelude.{◌≡◌, ◌≤◌, ◌<◌, IfSome, List, length, slice_index, ◌^◌, min, slice_range, nat_lt};
ghost use Rattle.rox_grammar.specs.Chars.{is_char};
ghost use Rattle.rox_grammar.specs.Entities.{Entity, text_of};
ghost use Rattle.rox_grammar.specs.References as spec;
ghost use Rattle.rox_reading.specs.Values as reading;
ghost use Rattle.rox_values.specs.DeclaredEntities.{AreDeclared};
ghost use Rattle.rox_values.specs.Values.{FindsEntity, IsBeforeSemicolon, NamesCharacter, ReadsReference, base_of, is_digit_of};
ghost use Rattle.rox_grammar.specs.References.{bytes_end, number, digit_value};

use crate::context::Context;
use rox_bytes::chars::{Class, NameStart, XmlChar};
use rox_bytes::runs::{after_byte, begins, is_at};
use rox_grammar::fault::{Fault, Span};
use rox_scan::cursor::{Cursor, name_end};

/// What a reference names: a character, or an entity, by the span of its name and by its name.
#[derive(Clone, Copy)]
pub enum Reference<'input> {
    Character(char),
    Entity(Span, &'input str),
}

/// The least number that is too large for a reference.
const TOO_LARGE: u64 = 1 << 32;

/// Digits: the offset at which they end, and their number, or `TOO_LARGE` if that is less.
struct Digits {
    end: usize,
    number: u64,
}

// At the index of each hexadecimal digit the character whose number is 64 and what the digit means, and else a `.`.
static HEX_DIGITS: [u8; 256] = *b"\
    ................................\
    ................@ABCDEFGHI......\
    .JKLMNO.........................\
    .JKLMNO.........................\
    ................................\
    ................................\
    ................................\
    ................................";

/// Returns the number that a digit means, of base 16 or of base 10. If the byte is no digit, returns a number that is not below
/// the base. A table needs no jump that a processor might mispredict.
#[inline(always)]
fn digit_of(byte: u8, hexadecimal: bool) -> u64
    ensures is { is_digit_of hexadecimal byte ≡ nat_lt result (base_of hexadecimal) }
    ensures value { result < base_of hexadecimal → result ≡ digit_value byte }
{
    if hexadecimal {
        HEX_DIGITS[byte as usize].wrapping_sub(64) as u64
    } else {
        byte.wrapping_sub(48) as u64
    }
}

/// Returns the digits that start at `at`, if there are any.
#[inline(always)]
#[tactic(auto, using(crate::proofs::DigitLemmas::digit_steps, crate::proofs::DigitLemmas::one_more_digit))]
fn read_digits(text: &str, at: usize, hexadecimal: bool) -> Digits
    requires { at ≤ length text.now }
    ensures place { result.end ≡ bytes_end (is_digit_of hexadecimal) text.now at }
    ensures number_is { result.number ≡ min (number (base_of hexadecimal)
        (slice_range text.now at result.end)) (2 ^ 32) }
    ensures onward { at ≤ result.end }
    ensures within { result.end ≤ length text.now }
{
    let base: u64 = if hexadecimal { 16 } else { 10 };
    let bytes = text.as_bytes();
    let mut end = at;
    let mut number: u64 = 0;
    while end < bytes.len() {
        let digit = digit_of(bytes[end], hexadecimal);
        if digit >= base {
            break;
        }
        number = (number * base + digit).min(TOO_LARGE);
        end += 1;
    }
    Digits { end, number }
}

/// Returns the character with the number `number`. A number that is not that of a character gives U+FFFD.
#[inline]
fn character(number: u32) -> char
    ensures { result ≡ spec.character number }
{
    char::from_u32(number).unwrap_or('\u{FFFD}')
}

/// Returns whether a character is allowed in XML (XML 1.0 [2] Char). One range decides for most.
#[inline(always)]
fn may_stand(character: char) -> bool
    ensures { result ≡ is_char character }
{
    matches!(character, ' '..='\u{D7FF}') || XmlChar::has(character)
}

/// Reads the digits from `digits` on and the `;` of the reference at the cursor. It is a fault if there is no digit or no `;`. It
/// is also one if the number is 2^32 or more, or if its character is not a Char.
#[inline(always)]
#[tactic(auto, unfolding(rox_reading::specs::Values::number_at))]
fn number<'input>(
    cursor: &mut Cursor<'input>,
    digits: usize,
    hexadecimal: bool,
) -> Result<Reference<'input>, Fault>
    requires onward { cursor.old.pos ≤ digits }
    requires within { digits ≤ length cursor.old.text.now }
    ensures { ReadsReference cursor.old cursor.new result (λ src at. reading.number_at
        (base_of hexadecimal) (is_digit_of hexadecimal) src at digits) }
{
    let start = cursor.pos;
    let text = cursor.text;
    let Digits { end, number } = read_digits(text, digits, hexadecimal);
    if end == digits || number == TOO_LARGE {
        return Err(Fault::MalformedEntityReference(start));
    }
    let character = character(number as u32);
    if !may_stand(character) || !is_at(text, end, b';') {
        return Err(Fault::MalformedEntityReference(start));
    }
    cursor.pos = after_byte(text, end, b';');
    Ok(Reference::Character(character))
}

/// Returns the character of one of the five predefined names (XML 1.0 section 4.6).
#[inline]
fn predefined(name: &str) -> Option<char>
    ensures { result ≡ spec.predefined name.now }
{
    match name.as_bytes() {
        [b'l', b't'] => Some('<'),
        [b'g', b't'] => Some('>'),
        [b'a', b'm', b'p'] => Some('&'),
        [b'q', b'u', b'o', b't'] => Some('"'),
        [b'a', b'p', b'o', b's'] => Some('\''),
        _ => None,
    }
}

/// Returns the character of the reference from `at` up to the `;` at `end` if it has one of the five predefined names, and the offset
/// after it.
#[inline(always)]
fn named_up_to(text: &str, at: usize, end: usize) -> Option<(char, usize)>
    requires { IsBeforeSemicolon text.now at end }
    ensures { IfSome result (λ x. NamesCharacter text.now at x.0 x.1) }
{
    match predefined(&text[at + 1..end]) {
        Some(character) => Some((character, end + 1)),
        None => None,
    }
}

/// Returns the character of the reference at `at` to one of the five predefined names, and the offset after it. Most references to
/// names are such, so these are told by their bytes first.
#[inline(always)]
fn named_character(text: &str, at: usize) -> Option<(char, usize)>
    requires { slice_index text.now at ≡ 38 }
    ensures { IfSome result (λ x. NamesCharacter text.now at x.0 x.1) }
{
    if is_at(text, at + 4, b';') {
        return named_up_to(text, at, at + 4);
    }
    if is_at(text, at + 3, b';') {
        return named_up_to(text, at, at + 3);
    }
    if is_at(text, at + 5, b';') {
        return named_up_to(text, at, at + 5);
    }
    None
}

/// Reads the reference at the cursor to a name, from its `&` to its `;`.
#[inline(always)]
#[tactic(auto, unfolding(rox_reading::specs::Values::name_reference_at))]
fn name_reference<'input>(cursor: &mut Cursor<'input>) -> Result<Reference<'input>, Fault>
    requires { slice_index cursor.old.text.now cursor.old.pos ≡ 38 }
    ensures { ReadsReference cursor.old cursor.new result reading.name_reference_at }
{
    let reference = cursor.pos;
    let text = cursor.text;
    let start = after_byte(text, reference, b'&');
    if let Some((character, end)) = named_character(text, reference) {
        cursor.pos = end;
        return Ok(Reference::Character(character));
    }
    if !begins::<NameStart>(text, start) {
        return Err(Fault::MalformedEntityReference(reference));
    }
    let end = name_end(text, start);
    if !is_at(text, end, b';') {
        return Err(Fault::MalformedEntityReference(reference));
    }
    cursor.pos = after_byte(text, end, b';');
    Ok(match predefined(&text[start..end]) {
        Some(character) => Reference::Character(character),
        None => Reference::Entity(Span { start, end }, &text[start..end]),
    })
}

/// Reads the reference at the cursor, from its `&` to its `;` (XML 1.0 [66] CharRef, [68] EntityRef). One that is not well-formed
/// is a fault at its start.
#[inline(always)]
#[tactic(auto, unfolding(rox_reading::specs::Values::reference_at))]
pub fn read_reference<'input>(cursor: &mut Cursor<'input>) -> Result<Reference<'input>, Fault>
    requires { slice_index cursor.old.text.now cursor.old.pos ≡ 38 }
    ensures { ReadsReference cursor.old cursor.new result reading.reference_at }
{
    let start = cursor.pos;
    let text = cursor.text;
    let sign = after_byte(text, start, b'&');
    if !is_at(text, sign, b'#') {
        return name_reference(cursor);
    }
    let digits = after_byte(text, sign, b'#');
    if !is_at(text, digits, b'x') {
        return number(cursor, digits, false);
    }
    number(cursor, digits + 1, true)
}

/// Returns the replacement text of the name `name`, which is at `span` in a reference that starts at `start`. A name that is not
/// declared is a fault there.
#[inline(always)]
pub(crate) fn found<'input>(
    context: Context<'_, 'input>,
    name: &'input str,
    span: Span,
    start: usize,
) -> Result<Cursor<'input>, Fault>
    ensures { (es : List Entity) → AreDeclared es context.entry.entities.now
        → FindsEntity result (reading.entity_bit (text_of es name.entry.now) start span) }
{
    match context.entities.get(name) {
        Some(text) => Ok(text),
        None => Err(Fault::UnknownEntityReference(span, start)),
    }
}
