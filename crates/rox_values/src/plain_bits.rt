//! The items of attribute values that need no entity: characters, references to characters, and white space (XML 1.0 sections 3.3.3
//! and 4.1). They are appended one after another, up to a reference to an entity, a fault, or the end of memory.

ghost use Rattle.std.specs.Prelude.{◌≡◌, ◌-◌, ◌≤◌, ℕ, Bool, Ok, IfNone, IfSome, true, string_bytes, string_capacity, string_len, slice_index, ◌≢◌, false, ◌<◌, IfOk, IsCharBoundary};
ghost use Rattle.rox_grammar.specs.Entities.{Entity};
ghost use Rattle.rox_reading.specs.Values as spec;
ghost use Rattle.rox_values.specs.Values.{is_inner_byte, StopsAt};
ghost use Rattle.rox_values.specs.PlainBits.{BeginsBit, BeginsReference, BeginsStretch, GivesCharacter, GivesNoBytes, HasNoCharacter, IsRest, IsStretch, PutsBits, PutsOne, StopsAtOne, StopsWithRoom, GivesStretch};
ghost use Rattle.rox_reading.specs.Values.{stretch_at};

use crate::reference::{Reference, read_reference};
use rox_bytes::byte_set::{ByteSet, skip_set};
use rox_bytes::nibbles::by_low;
use rox_bytes::runs::is_at;
use rox_grammar::fault::Fault;
use rox_scan::cursor::Cursor;
use rox_scan::lookahead::{StretchByte, is_special};
use std::simd::prelude::*;

/// Appends a space for the white space byte at `at`, or nothing for a CR right before a LF. Returns the offset after the byte, or 0
/// if memory is refused.
#[inline(always)]
fn put_space(text: &str, at: usize, stop: usize, out: &mut String) -> usize
    requires stop_is { StopsAt text.now at stop }
    requires here { spec.is_special (slice_index text.now at) ≡ true }
    requires no_reference { slice_index text.now at ≢ 38 }
    ensures puts { (main : Bool) → PutsOne main text.now at stop (string_bytes out.old)
        (string_bytes out.new) result }
    ensures stops { (main : Bool) → StopsAtOne main text.now at stop (string_len out.old) (string_capacity out.old)
        (string_len out.new) (string_capacity out.new) result }
{
    let after = at + 1;
    if text.as_bytes()[at] == b'\r' && is_at(&text[..stop], after, b'\n') {
        return after;
    }
    if out.push(' ').is_err() {
        return 0;
    }
    after
}

/// Returns the character that a reference to `character` gives in a value of a replacement text. TAB, LF and CR give a space.
/// Returns `None` for a `<`, which is a fault (XML 1.0 sections 3.1 and 3.3.3).
#[inline(always)]
fn inner_given(character: char) -> Option<char>
    ensures some { IfSome result (λ c. GivesCharacter false character c) }
    ensures none { IfNone result (character ≡ 60) }
{
    if character == '<' {
        return None;
    }
    if matches!(character, '\t' | '\n' | '\r') {
        return Some(' ');
    }
    Some(character)
}

/// Returns the character that a reference to `character` gives in a value of the main text, if `main` is true, or of a replacement
/// text. Returns `None` if it is a fault there.
#[inline(always)]
fn given(character: char, main: bool) -> Option<char>
    ensures some { IfSome result (λ c. GivesCharacter main character c) }
    ensures none { IfNone result (HasNoCharacter main character) }
{
    if main {
        return Some(character);
    }
    inner_given(character)
}

/// Appends the character that the reference at `at` gives in a value. Returns the offset after the reference, or 0 if it names an
/// entity, if it is a fault, or if memory is refused.
#[inline(always)]
fn put_reference(text: &str, at: usize, main: bool, out: &mut String) -> usize
    requires { BeginsReference text.now at }
    ensures puts { (stop : ℕ) → PutsOne main text.now at stop (string_bytes out.old)
        (string_bytes out.new) result }
    ensures stops { (stop : ℕ) → StopsAtOne main text.now at stop (string_len out.old) (string_capacity out.old)
        (string_len out.new) (string_capacity out.new) result }
{
    let mut cursor = Cursor::at(text, at);
    let character = match read_reference(&mut cursor) {
        Ok(Reference::Character(character)) => character,
        Ok(Reference::Entity(_, _)) => return 0,
        Err(_) => return 0,
    };
    let Some(given) = given(character, main) else {
        return 0;
    };
    if out.push(given).is_err() {
        return 0;
    }
    cursor.pos
}

/// The bytes of a value in a replacement text that do not change it: all except `<`, `&` and white space other than the space.
struct InnerByte;

// The bytes that are not in the set, each at its low half.
const INNER_ENDS: [u8; 16] = [
    1, 0, 0, 0, 0, 0, b'&', 0, 0, b'\t', b'\n', 0, b'<', b'\r', 0, 0,
];

impl ByteSet for InnerByte {
    ghost test = { is_inner_byte };

    #[inline(always)]
    #[tactic(auto, unfolding(crate::specs::Values::is_inner_byte))]
    fn has(byte: u8) -> bool {
        !(is_special(byte) | (byte == b'<'))
    }

    #[inline(always)]
    fn others(block: u8x16) -> u64 {
        by_low(INNER_ENDS, block).simd_eq(block).to_bitmask()
    }
}

/// Returns the end of the bytes of a value in a replacement text from `at` on that do not change it. A character that is not a Char
/// is a fault, and so is a `<`.
#[cold]
#[inline(never)]
pub(crate) fn inner_stretch_end(text: &str, at: usize, stop: usize) -> Result<usize, Fault>
    requires { BeginsStretch text.now at stop }
    ensures value { GivesStretch text.now at result (stretch_at false text.now stop at) }
    ensures onward { IfOk result (λ j. at < j) }
    ensures short { IfOk result (λ j. j ≤ stop) }
    ensures cut { IfOk result (λ j. IsCharBoundary text.now j) }
{
    let front = &text[..stop];
    let end = skip_set::<InnerByte>(front, at);
    let mut cursor = Cursor::at(text, at);
    cursor.chars_up_to(end)?;
    if is_at(front, end, b'<') {
        return Err(Fault::InvalidAttributeValue(end));
    }
    Ok(end)
}

/// Returns the end of the bytes of a value from `at` on that do not change it, or `None` if there is a fault among them.
#[inline(always)]
fn stretch_end(text: &str, at: usize, stop: usize, main: bool) -> Option<usize>
    requires { BeginsStretch text.now at stop }
    ensures some { IfSome result (λ end. IsStretch main text.now at stop end) }
    ensures short { IfSome result (λ end. end ≤ stop) }
    ensures none { IfNone result (GivesNoBytes main text.now at stop) }
{
    if main {
        return Some(skip_set::<StretchByte>(text, at).min(stop));
    }
    match inner_stretch_end(text, at, stop) {
        Ok(end) => Some(end),
        Err(_) => None,
    }
}

/// Appends the bytes of a value from `at` on that do not change it. Returns the offset after them, or 0 if there is a fault among
/// them or memory is refused.
#[inline(always)]
fn put_stretch(text: &str, at: usize, stop: usize, main: bool, out: &mut String) -> usize
    requires { BeginsStretch text.now at stop }
    ensures puts { PutsOne main text.now at stop (string_bytes out.old) (string_bytes out.new)
        result }
    ensures stops { StopsAtOne main text.now at stop (string_len out.old) (string_capacity out.old)
        (string_len out.new) (string_capacity out.new) result }
{
    let Some(end) = stretch_end(text, at, stop, main) else {
        return 0;
    };
    if out.push_str(&text[at..end]).is_err() {
        return 0;
    }
    end
}

/// Appends what the item of a value at `at` gives. Returns the offset after the item, or 0 if it is a reference to an entity or a
/// fault, or if memory is refused.
#[inline(always)]
fn put_bit(text: &str, at: usize, stop: usize, main: bool, out: &mut String) -> usize
    requires { BeginsBit text.now at stop }
    ensures puts { PutsOne main text.now at stop (string_bytes out.old) (string_bytes out.new)
        result }
    ensures stops { StopsAtOne main text.now at stop (string_len out.old) (string_capacity out.old)
        (string_len out.new) (string_capacity out.new) result }
{
    let here = text.as_bytes()[at];
    if here == b'&' {
        return put_reference(text, at, main, out);
    }
    if matches!(here, b'\t' | b'\n' | b'\r') {
        return put_space(text, at, stop, out);
    }
    put_stretch(text, at, stop, main, out)
}

/// Appends what the value's text from `start` up to `stop` gives, in the main text if `main` is true, otherwise in a replacement
/// text. Stops at a reference to an entity, at a fault, and where memory is refused. Returns the offset at which it stops, or the
/// end.
#[inline(always)]
pub fn put_plain_bits(text: &str, start: usize, stop: usize, main: bool, out: &mut String) -> usize
    requires { IsRest text.now start stop }
    ensures puts { PutsBits main text.now start stop (string_bytes out.old) (string_bytes out.new)
        result }
    ensures stops { StopsWithRoom main text.now stop (string_capacity out.old)
        (string_len out.new) result }
{
    let mut at = start;
    'bits: while at < stop {
        let after = put_bit(text, at, stop, main, out);
        if after == 0 {
            return at;
        }
        at = after;
    }
    at
}
