//! Character data as it is written (XML 1.0 section 2.4). There is a first look, at plain bytes, a look beyond them, from a byte
//! that may be valid, and the fault of `]]>`.

ghost use Rattle.std.specs.Prelude.{◌≡◌, ◌==◌, ◌||◌, ◌&&◌, ◌+◌, ◌<◌, ◌≤◌, IfSome, Ok, true, length, slice_index, IsCharBoundary};
ghost use Rattle.rox_grammar.specs.Content as content;
ghost use Rattle.rox_bytes.specs.ByteSets as near;
ghost use Rattle.rox_scan.specs.Lookahead as longer;
ghost use Rattle.rox_scan.specs.Lookahead.{EndsLine, EndsRun, GoesOn, IsChangedRun, IsLineRun, IsLookahead, IsStep, LooksAhead};
ghost use Rattle.rox_scan.specs.Views.{ReadsRun};
ghost use Rattle.rox_bytes.specs.ScanResults.{HasCharAt};
ghost use Rattle.rox_bytes.specs.ByteSets.{StopsSet, is_text_byte};

use crate::cursor::Cursor;
use crate::lookahead::{Lookahead, after_char, is_mark_at};
use rox_bytes::byte_set::{
    BEHIND_CONTROLS, ByteSet, find_other, non_ascii_first, skip_eased, skip_set,
};
use rox_bytes::near::find_near;
use rox_bytes::nibbles::by_low;
use rox_bytes::runs::{after_byte, is_at};
use rox_bytes::search::{before_either, byte_from, has_mark};
use rox_grammar::fault::Fault;
use std::simd::prelude::*;

/// The bytes of character data that need no other test: no `&`, `<` or `]`, not 239, and no control except TAB and LF.
pub struct TextByte;

// A `#` at the index of each byte of the set: all except `&`, `<`, `]`, 239 and the controls other than TAB and LF.
static TEXT_BYTES: [u8; 256] = *b"\
    .........##.....................\
    ######.#####################.###\
    #############################.##\
    ################################\
    ################################\
    ################################\
    ################################\
    ###############.################";

// The controls of the set, and the ASCII bytes above them that are not in it, each at its low half.
const TEXT_EXCEPTIONS: [u8; 16] = [
    1, 0, 0, 0, 0, 0, b'&', 0, 0, b'\t', b'\n', 0, b'<', b']', 0, 0,
];

impl ByteSet for TextByte {
    ghost test = { near.is_text_byte };

    #[inline(always)]
    fn has(byte: u8) -> bool {
        TEXT_BYTES[byte as usize] == b'#'
    }

    #[inline(always)]
    fn others(block: u8x16) -> u64 {
        let exceptions = by_low(TEXT_EXCEPTIONS, block).simd_eq(block);
        let controls = block.simd_lt(u8x16::splat(32)) ^ exceptions;
        (controls | block.simd_eq(u8x16::splat(239))).to_bitmask()
    }
}

/// The ASCII bytes of `TextByte`.
pub struct AsciiTextByte;

impl ByteSet for AsciiTextByte {
    ghost test = { near.is_ascii_text_byte };

    #[inline(always)]
    #[tactic(auto, unfolding(rox_bytes::specs::ByteSets::is_ascii_text_byte))]
    fn has(byte: u8) -> bool {
        (byte < 128) & TextByte::has(byte)
    }

    #[inline(always)]
    fn others(block: u8x16) -> u64 {
        let exceptions = by_low(TEXT_EXCEPTIONS, block).simd_eq(block);
        let controls_and_non_ascii = non_ascii_first(block).simd_lt(u8x16::splat(BEHIND_CONTROLS));
        (controls_and_non_ascii ^ exceptions).to_bitmask()
    }
}

/// The bytes of `TextByte`, and those that change character data: `&` and CR.
struct ChangedTextByte;

// The controls of the set except CR, and the ASCII bytes above them that are not in it, each at its low half.
const CHANGED_EXCEPTIONS: [u8; 16] = [1, 0, 0, 0, 0, 0, 0, 0, 0, b'\t', b'\n', 0, b'<', b']', 0, 0];

impl ByteSet for ChangedTextByte {
    ghost test = { longer.is_changed_text_byte };

    #[inline(always)]
    #[tactic(auto, unfolding(crate::specs::Lookahead::is_changed_text_byte))]
    fn has(byte: u8) -> bool {
        TextByte::has(byte) | changes_run(byte)
    }

    #[inline(always)]
    fn others(block: u8x16) -> u64 {
        let exceptions = by_low(CHANGED_EXCEPTIONS, block).simd_eq(block);
        let controls = block.simd_lt(u8x16::splat(32)) ^ exceptions;
        let others = controls ^ block.simd_eq(u8x16::splat(b'\r'));
        (others | block.simd_eq(u8x16::splat(239))).to_bitmask()
    }
}

/// Returns the offset of the `<` after the character data from `at` on, if it needs no replacement. Most often all its bytes are
/// ASCII, for which the test is quicker.
#[inline(always)]
pub fn text_end(text: &str, at: usize) -> Option<usize>
    requires { IsCharBoundary text.now at }
    ensures { IfSome result (EndsRun text.entry.now at) }
{
    let bytes = text.as_bytes();
    let near = find_other::<AsciiTextByte>(text, at)?;
    if bytes[near] == b'<' {
        return Some(near);
    }
    // This is `&`, a CR or no Char.
    if bytes[near] < b'<' {
        return None;
    }
    let end = find_other::<TextByte>(text, near)?;
    if bytes[end] == b'<' {
        return Some(end);
    }
    text_end_beyond(text, at, end)
}

/// Like `text_end`, beyond `near`: the bytes up to there are `TextByte`s, and the byte there is another.
#[inline(always)]
fn text_end_beyond(text: &str, at: usize, near: usize) -> Option<usize>
    requires cut { IsCharBoundary text.now at }
    requires stops { StopsSet is_text_byte text.now at near }
    ensures { IfSome result (EndsRun text.entry.now at) }
{
    if !is_rare(text.as_bytes()[near]) {
        return None;
    }
    let end = run_end_beyond(Cursor { text, pos: near });
    if !is_at(text, end, b'<') {
        return None;
    }
    Some(end)
}

/// Returns whether character data ends at `at`: a `<` is there, or the text ends.
#[inline(always)]
pub fn ends_character_data(text: &str, at: usize) -> bool
    requires { at ≤ length text.now }
    ensures { result ≡ (at == length text.now || slice_index text.now at == 60) }
{
    at == text.len() || text.as_bytes()[at] == b'<'
}

/// Returns whether a byte changes character data: `&` or CR.
#[inline(always)]
fn changes_run(byte: u8) -> bool
    ensures { result ≡ longer.changes_run byte }
{
    (byte == b'&') | (byte == b'\r')
}

/// Returns the end of the bytes from `at` on that need no test. After a byte that changes character data, other such bytes need
/// none either.
#[inline(always)]
fn stretch_end(text: &str, at: usize, is_verbatim: bool) -> usize
    requires { IsCharBoundary text.now at }
    ensures looked { GoesOn (longer.ends_run text.entry.now) longer.changes_run text.entry.now at result is_verbatim }
    ensures onward { at ≤ result }
{
    if is_verbatim {
        return skip_set::<TextByte>(text, at);
    }
    skip_set::<ChangedTextByte>(text, at)
}

/// Returns how far the character data from the cursor on is valid, up to a `<`, a `]]>` or the end.
pub fn scan_character_data(from: Cursor<'_>) -> Lookahead
    ensures { LooksAhead (longer.ends_run from.entry.text.now) longer.changes_run
        from.entry.text.now from.entry.pos result.end result.is_verbatim }
{
    let text = from.text;
    let bytes = text.as_bytes();
    let mut is_verbatim = true;
    let mut end = skip_set::<TextByte>(text, from.pos);
    while end < bytes.len() {
        let here = bytes[end];
        if here == b'<' || is_mark_at(text, end, b"]]>") {
            break;
        }
        let next = after_char(text, end);
        if next == end {
            break;
        }
        is_verbatim &= !changes_run(here);
        end = stretch_end(text, next, is_verbatim);
    }
    Lookahead { end, is_verbatim }
}

/// Returns whether the two bytes after `at` are the last two of U+FFFE or U+FFFF.
#[inline(always)]
fn begins_no_char(text: &str, at: usize) -> bool
    requires { at < length text.now }
    ensures { result ≡ ((slice_index text.now (at + 1) == 191)
        && ((slice_index text.now (at + 2) == 190) || (slice_index text.now (at + 2) == 191))) }
{
    is_at(text, at + 1, 191) && (is_at(text, at + 2, 190) || is_at(text, at + 2, 191))
}

/// Returns the offset after the Char that starts with 239 at `at`, or `at` if it is U+FFFE or U+FFFF, which are not Chars.
#[inline(always)]
fn after_239(text: &str, at: usize) -> usize
    requires char { HasCharAt text.now at }
    requires here { slice_index text.now at ≡ 239 }
    ensures { IsStep text.now at result }
{
    if begins_no_char(text, at) {
        return at;
    }
    at + 3
}

/// Returns whether a byte that is not a `TextByte` may be of character data that needs no replacement: 239 or `]`.
#[inline(always)]
fn is_rare(byte: u8) -> bool
    ensures { result ≡ ((byte == 239) || (byte == 93)) }
{
    (byte == 239) | (byte == b']')
}

/// Returns the offset after the character at `at` if it is a Char that starts with 239, or a `]` that starts no `]]>`. Otherwise
/// returns `at`.
#[inline(always)]
fn after_rare(text: &str, at: usize) -> usize
    requires { HasCharAt text.now at }
    ensures { IsLookahead (longer.ends_run text.now) longer.changes_run text.now at result true }
{
    let here = text.as_bytes()[at];
    if here == 239 {
        return after_239(text, at);
    }
    if here == b']' && !is_mark_at(text, at, b"]]>") {
        return at + 1;
    }
    at
}

/// Returns the end of the character data from the cursor on that needs no replacement. It ends there, or another byte follows.
#[inline(always)]
pub fn plain_run_end(from: Cursor<'_>) -> usize
    ensures { IsLookahead (longer.ends_run from.entry.text.now) longer.changes_run
        from.entry.text.now from.entry.pos result true }
{
    let text = from.text;
    let near = skip_set::<TextByte>(text, from.pos);
    if is_at(text, near, 239) || is_at(text, near, b']') {
        return run_end_beyond(Cursor { text, pos: near });
    }
    near
}

/// Like `plain_run_end`, beyond its first look: from a character that starts with 239, as full-width forms do, or from a `]`.
/// Full-width forms come in numbers, so the search after one passes most others too.
#[inline(never)]
fn run_end_beyond(from: Cursor<'_>) -> usize
    ensures { IsLookahead (longer.ends_run from.entry.text.now) longer.changes_run
        from.entry.text.now from.entry.pos result true }
{
    let text = from.text;
    let bytes = text.as_bytes();
    let mut end = from.pos;
    while end < bytes.len() {
        let next = after_rare(text, end);
        if next == end {
            break;
        }
        end = skip_eased::<TextByte>(text, next);
    }
    end
}

/// Returns the offset of the LF of the CR LF at `start`, if there is one.
#[inline(always)]
fn line_feed(text: &str, start: usize) -> Option<usize>
    requires { IsCharBoundary text.now start }
    ensures { IfSome result (EndsLine text.now start) }
{
    if !is_at(text, start, b'\r') {
        return None;
    }
    let feed = after_byte(text, start, b'\r');
    if !is_at(text, feed, b'\n') {
        return None;
    }
    Some(feed)
}

/// Returns the end of the character data at `from` if it is CR LF followed only by `TextByte`s; otherwise `None`.
#[inline(always)]
pub fn line_run_end(from: Cursor<'_>) -> Option<usize>
    ensures { IfSome result (IsLineRun from.entry.text.now from.entry.pos) }
{
    let text = from.text;
    let feed = line_feed(text, from.pos)?;
    let end = skip_set::<TextByte>(text, feed);
    if !ends_character_data(text, end) {
        return None;
    }
    Some(end)
}

/// Like `line_run_end`, but only if a `<` ends the character data, among the sixteen bytes after the CR. It calls no function that
/// is out of line.
#[inline(always)]
pub fn near_line_run_end(from: Cursor<'_>) -> Option<usize>
    ensures run { IfSome result (IsLineRun from.entry.text.now from.entry.pos) }
    ensures before { IfSome result (λ j. slice_index from.entry.text.now j ≡ 60) }
{
    let text = from.text;
    let feed = line_feed(text, from.pos)?;
    let end = find_near::<TextByte>(text, feed)?;
    if !is_at(text, end, b'<') {
        return None;
    }
    Some(end)
}

/// Returns the end of the character data at `from` if it is valid and needs a replacement; otherwise `None`.
#[inline(always)]
pub fn changed_run_end(from: Cursor<'_>) -> Option<usize>
    ensures { IfSome result (IsChangedRun from.entry.text.now from.entry.pos) }
{
    let look = scan_character_data(from);
    if look.is_verbatim {
        return None;
    }
    if !ends_character_data(from.text, look.end) {
        return None;
    }
    Some(look.end)
}

/// Returns whether character data needs no replacement: it has no `&` and no CR.
#[inline]
fn is_verbatim(bytes: &[u8]) -> bool
    ensures { result ≡ content.is_verbatim bytes.now }
{
    before_either(bytes, b'&', b'\r') == bytes.len()
}

/// Character data as it is written. `is_verbatim` is true if it has no reference and no CR.
#[derive(Clone, Copy)]
pub struct RawCharacterData<'input> {
    pub text: &'input str,
    pub is_verbatim: bool,
}

/// Reads character data as it is written, up to the next `<` or the end (XML 1.0 section 2.4). A character that is not a Char is
/// a fault. So is a `]]>`, at the end of the data.
pub fn raw_character_data<'input>(
    cursor: &mut Cursor<'input>,
) -> Result<RawCharacterData<'input>, Fault>
    ensures { ReadsRun cursor.old cursor.new result }
{
    let start = cursor.pos;
    let text = cursor.text;
    let look = scan_character_data(*cursor);
    if ends_character_data(text, look.end) {
        cursor.pos = look.end;
        return Ok(RawCharacterData {
            text: &text[start..look.end],
            is_verbatim: look.is_verbatim,
        });
    }
    faulty_character_data(cursor)
}

/// Like `raw_character_data`, for character data with a fault. It returns that fault.
#[cold]
#[inline(never)]
#[tactic(auto, unfolding(rox_reading::specs::Values::raw_character_data_at))]
fn faulty_character_data<'input>(
    cursor: &mut Cursor<'input>,
) -> Result<RawCharacterData<'input>, Fault>
    ensures { ReadsRun cursor.old cursor.new result }
{
    let end = byte_from(cursor.text, cursor.pos, b'<');
    let raw = cursor.chars_up_to(end)?;
    if has_mark(raw.as_bytes(), b"]]>") {
        return Err(Fault::InvalidCharacterData(end));
    }
    Ok(RawCharacterData {
        text: raw,
        is_verbatim: is_verbatim(raw.as_bytes()),
    })
}
