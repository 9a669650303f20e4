//! The parts of character data, with references and line ends replaced (XML 1.0 sections 2.4, 2.11 and 4.1).

ghost use Rattle.std.specs.Prelude.{◌≡◌, ◌-◌, ℕ, false, ◌<◌, slice_index, true, string_bytes, IsCharBoundary};
ghost use Rattle.rox_reading.specs.Values as spec;
ghost use Rattle.rox_values.specs.PlainBits.{BeginsReference};
ghost use Rattle.rox_values.specs.Values.{AppendsBitFrom, AppendsPartFrom, EndsData, GivesData, HasData, HasOffsets, HasStretch, PutsData, PutsDatum, StopsAt, is_data_byte};

use crate::context::Context;
use crate::reference::{Reference, found, read_reference};
use rox_bytes::byte_set::{ByteSet, skip_set};
use rox_bytes::nibbles::by_low;
use rox_bytes::runs::is_at;
use rox_bytes::search::byte_from;
use rox_grammar::failure::Failure;
use rox_scan::cursor::Cursor;
use rox_scan::lookahead::RunByte;
use std::simd::prelude::*;

/// Appends the character of the reference at the cursor, in character data, or returns the replacement text that it names.
#[inline(always)]
#[tactic(auto, unfolding(rox_reading::specs::Values::expansion_at))]
fn expand<'input>(
    cursor: &mut Cursor<'input>,
    context: Context<'_, 'input>,
    out: &mut String,
) -> Result<Option<Cursor<'input>>, Failure>
    requires { slice_index cursor.old.text.now cursor.old.pos ≡ 38 }
    ensures { AppendsBitFrom context.entry.entities.now (string_bytes out.old)
        (string_bytes out.new) cursor.old cursor.new result
        (λ es src at. spec.expansion_at es src at) }
{
    let start = cursor.pos;
    match read_reference(cursor)? {
        Reference::Character(character) => {
            out.push(character)?;
            Ok(None)
        }
        Reference::Entity(span, name) => {
            let text = found(context, name, span, start)?;
            Ok(Some(text))
        }
    }
}

/// Appends the character that the reference at `at` gives. Returns the offset after the reference, or 0 if it names an entity, if it
/// is a fault, or if memory is refused.
#[inline(always)]
fn put_reference(text: &str, at: usize, out: &mut String) -> usize
    requires { BeginsReference text.now at }
    ensures { (stop : ℕ) → PutsDatum text.now at stop (string_bytes out.old) (string_bytes out.new)
        result }
{
    let mut cursor = Cursor::at(text, at);
    let character = match read_reference(&mut cursor) {
        Ok(Reference::Character(character)) => character,
        Ok(Reference::Entity(_, _)) => return 0,
        Err(_) => return 0,
    };
    if out.push(character).is_err() {
        return 0;
    }
    cursor.pos
}

/// Appends a line feed for the CR at `at`, and for the LF after it if one is there before `stop`. Returns the offset after the line
/// end, or 0 if memory is refused.
#[inline(always)]
fn put_line_end(text: &str, at: usize, stop: usize, out: &mut String) -> usize
    requires range { HasData text.now at stop }
    requires here { slice_index text.now at ≡ 13 }
    ensures { PutsDatum text.now at stop (string_bytes out.old) (string_bytes out.new) result }
{
    if out.push('\n').is_err() {
        return 0;
    }
    if is_at(&text[..stop], at + 1, b'\n') {
        return at + 2;
    }
    at + 1
}

/// The bytes of character data that do not change it and do not end it: all except `&`, CR and `<`.
struct DataByte;

// The bytes that are not in the set, each at its low half.
const DATA_ENDS: [u8; 16] = [1, 0, 0, 0, 0, 0, b'&', 0, 0, 0, 0, 0, b'<', b'\r', 0, 0];

impl ByteSet for DataByte {
    ghost test = { is_data_byte };

    #[inline(always)]
    #[tactic(auto, unfolding(crate::specs::Values::is_data_byte))]
    fn has(byte: u8) -> bool {
        !(((byte == b'&') | (byte == b'\r')) | (byte == b'<'))
    }

    #[inline(always)]
    fn others(block: u8x16) -> u64 {
        by_low(DATA_ENDS, block).simd_eq(block).to_bitmask()
    }
}

/// Returns the offset of the first `&` or CR from `at` on and before `stop`, or `stop`. Most often a `<` is at `stop`, so the first
/// search ends there, and needs no shorter steps for the last bytes before it.
#[inline(always)]
fn data_end(text: &str, at: usize, stop: usize) -> usize
    requires { HasStretch text.now at stop }
    ensures { EndsData text.now at stop result }
{
    let near = skip_set::<DataByte>(text, at);
    if near >= stop {
        return stop;
    }
    if text.as_bytes()[near] == b'<' {
        return skip_set::<RunByte>(&text[..stop], at);
    }
    near
}

/// Appends the bytes of character data from `at` on up to the next `&` or CR. Returns the offset after them, or 0 if memory is
/// refused.
#[inline(always)]
fn put_stretch(text: &str, at: usize, stop: usize, out: &mut String) -> usize
    requires { HasStretch text.now at stop }
    ensures { PutsDatum text.now at stop (string_bytes out.old) (string_bytes out.new) result }
{
    let end = data_end(text, at, stop);
    if out.push_str(&text[at..end]).is_err() {
        return 0;
    }
    end
}

/// Like `put_stretch`, but a character before a reference is appended by itself: a copy of one byte costs more. Such are the spaces
/// between two references.
#[inline(always)]
fn put_plain(text: &str, at: usize, stop: usize, out: &mut String) -> usize
    requires { HasStretch text.now at stop }
    ensures { PutsDatum text.now at stop (string_bytes out.old) (string_bytes out.new) result }
{
    let here = text.as_bytes()[at];
    if here < 128 && is_at(text, at + 1, b'&') {
        if out.push(here as char).is_err() {
            return 0;
        }
        return at + 1;
    }
    put_stretch(text, at, stop, out)
}

/// Appends what the item of character data at `at` gives. Returns the offset after the item, or 0 if it is a reference to an entity
/// or a fault, or if memory is refused.
#[inline(always)]
fn put_datum(text: &str, at: usize, stop: usize, out: &mut String) -> usize
    requires { HasData text.now at stop }
    ensures { PutsDatum text.now at stop (string_bytes out.old) (string_bytes out.new) result }
{
    let here = text.as_bytes()[at];
    if here == b'&' {
        return put_reference(text, at, out);
    }
    if here == b'\r' {
        return put_line_end(text, at, stop, out);
    }
    put_plain(text, at, stop, out)
}

/// Appends what the character data of the main text from `start` up to `stop` gives. Stops at a reference to an entity, at a fault,
/// and where memory is refused. Returns the offset at which it stops, or the end. The function is out of line so that its variables
/// stay in registers.
#[inline(never)]
fn put_data(text: &str, start: usize, stop: usize, out: &mut String) -> usize
    requires { HasOffsets text.now start stop }
    ensures { PutsData text.now start stop (string_bytes out.old) (string_bytes out.new) result }
{
    let mut at = start;
    'bits: while at < stop {
        let after = put_datum(text, at, stop, out);
        if after == 0 {
            return at;
        }
        at = after;
    }
    at
}

/// Appends the next item of character data: a reference, a line end, or all up to the next of these. If a reference names a
/// replacement text, this is returned. In a replacement text line ends stay as they are.
#[tactic(auto, unfolding(rox_reading::specs::Values::data_bit_at))]
#[inline]
fn data_bit<'input>(
    cursor: &mut Cursor<'input>,
    stop: usize,
    context: Context<'_, 'input>,
    out: &mut String,
) -> Result<Option<Cursor<'input>>, Failure>
    requires { StopsAt cursor.old.text.now cursor.old.pos stop }
    ensures { AppendsBitFrom context.entry.entities.now (string_bytes out.old)
        (string_bytes out.new) cursor.old cursor.new result
        (λ es src at. spec.data_bit_at context.entry.main es src stop at) }
{
    let here = cursor.text.as_bytes()[cursor.pos];
    if here == b'&' {
        return expand(cursor, context, out);
    }
    if !context.main {
        let end = byte_from(&cursor.text[..stop], cursor.pos, b'&');
        out.push_str(&cursor.text[cursor.pos..end])?;
        cursor.pos = end;
        return Ok(None);
    }
    let after = put_datum(cursor.text, cursor.pos, stop, out);
    if after == 0 {
        return Err(Failure::Memory);
    }
    cursor.pos = after;
    Ok(None)
}

/// Appends the text of the character data from the cursor up to `stop` or the next reference to an entity. Returns the
/// replacement text of that entity. In a replacement text line ends stay as they are.
#[inline(always)]
pub fn data_part<'input>(
    cursor: &mut Cursor<'input>,
    stop: usize,
    context: Context<'_, 'input>,
    out: &mut String,
) -> Result<Option<Cursor<'input>>, Failure>
    requires { IsCharBoundary cursor.old.text.now stop }
    ensures { AppendsPartFrom context.entry.entities.now (string_bytes out.old)
        (string_bytes out.new) cursor.old cursor.new result
        (λ es src at. spec.data_part context.entry.main es (stop - at) src stop at) }
{
    'bits: for _turn in cursor.pos..stop {
        if cursor.pos >= stop {
            return Ok(None);
        }
        if let Some(text) = data_bit(cursor, stop, context, out)? {
            return Ok(Some(text));
        }
    }
    Ok(None)
}

/// Puts what the character data of the main text from `start` up to `stop` gives into `out`, in place of what that has. Returns false
/// if the data refers to an entity or has a fault, or if memory is refused.
#[inline(always)]
pub fn changed_data(text: &str, start: usize, stop: usize, out: &mut String) -> bool
    requires { HasOffsets text.now start stop }
    ensures { result ≡ true → GivesData text.now start stop (string_bytes out.new) }
{
    out.clear();
    if put_data(text, start, stop, out) < stop {
        return false;
    }
    if out.is_empty() {
        return false;
    }
    true
}
