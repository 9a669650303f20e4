//! Chars, and looks at values and comments beyond their plain bytes: a byte that is not plain may be valid. These are bytes of
//! references, white space, the other quote, a dash, and 239.

ghost use Rattle.std.specs.Prelude.{◌≡◌, ◌==◌, ◌||◌, ◌<◌, ◌≤◌, true, slice_index, IsCharBoundary, false, length};
ghost use Rattle.rox_grammar.specs.Chars.{is_char};
ghost use Rattle.rox_grammar.specs.Runs.{run_end, begins};
ghost use Rattle.rox_grammar.specs.Search.{stands};
ghost use Rattle.rox_grammar.specs.Content as content;
ghost use Rattle.rox_reading.specs.Values as reading;
ghost use Rattle.rox_bytes.specs.ByteSets as near;
ghost use Rattle.rox_scan.specs.CursorSteps.{ReadsChars};
ghost use Rattle.rox_scan.specs.Lookahead as longer;
ghost use Rattle.rox_scan.specs.Lookahead.{EndsComment, GoesOn, IsLookahead, LooksAhead, IsStep};
ghost use Rattle.rox_bytes.specs.ScanResults.{Finds, HasCharAt};

use crate::cursor::{Cursor, Quote};
use rox_bytes::byte_set::{
    AnyValueByte, AsciiCommentByte, ByteSet, CharByte, CommentByte, skip_set,
};
use rox_bytes::chars::{Class, XmlChar};
use rox_bytes::nibbles::by_low;
use rox_bytes::runs::char_at;
use rox_grammar::fault::{Fault, Word};
use std::simd::prelude::*;

/// How far a look goes: all is valid up to `end`, and `is_verbatim` is true if it needs no replacement.
#[derive(Clone, Copy)]
pub struct Lookahead {
    pub end: usize,
    pub is_verbatim: bool,
}

/// Returns the offset after the Char that starts at `at`, or `at` if the character there is not a Char.
#[inline(always)]
pub fn after_char(text: &str, at: usize) -> usize
    requires { HasCharAt text.now at }
    ensures step { IsStep text.now at result }
    ensures stops { result ≡ at → begins is_char text.now at ≡ false }
{
    let here = text.as_bytes()[at];
    if here < 128 {
        return if XmlChar::has_byte(here) { at + 1 } else { at };
    }
    let c = char_at(text, at);
    if XmlChar::has(c) {
        at + c.len_utf8()
    } else {
        at
    }
}

/// Returns the end of the Chars from the cursor on.
#[inline]
pub fn chars_end(from: Cursor<'_>) -> usize
    ensures { Finds from.entry.text.now from.entry.pos result
        (run_end is_char from.entry.text.now from.entry.pos) }
{
    let text = from.text;
    let bytes = text.as_bytes();
    let mut end = skip_set::<CharByte>(text, from.pos);
    while end < bytes.len() {
        let next = after_char(text, end);
        if next == end {
            break;
        }
        end = skip_set::<CharByte>(text, next);
    }
    end
}

impl<'input> Cursor<'input> {
    /// Reads the text up to `end`. A character that is not a Char (XML 1.0 [2]) is a fault at its offset.
    #[inline]
    #[tactic(auto, unfolding(rox_reading::specs::Lexical::chars_up_to))]
    pub fn chars_up_to(&mut self, end: usize) -> Result<&'input str, Fault>
        requires onward { self.old.pos ≤ end }
        requires cut { IsCharBoundary self.old.text.now end }
        ensures { ReadsChars end self.old self.new result }
    {
        let start = self.pos;
        let ill = chars_end(Cursor {
            text: &self.text[..end],
            pos: start,
        });
        if ill < end {
            return Err(Fault::NonXmlChar(char_at(self.text, ill), ill));
        }
        self.pos = end;
        Ok(&self.text[start..end])
    }
}

/// Returns whether `mark` is at `at`. Other bytes are compared only if the first is equal.
#[inline(always)]
#[tactic(auto, using(crate::proofs::LongerLemmas::apart_from), unfolding(rox_grammar::specs::Search::stands))]
pub fn is_mark_at(text: &str, at: usize, mark: &[u8]) -> bool
    requires within { at < length text.now }
    requires some { 0 < length mark.now }
    ensures { result ≡ stands mark.now text.now at }
{
    let bytes = text.as_bytes();
    bytes[at] == mark[0] && bytes[at..].starts_with(mark)
}

/// Returns whether a byte is `&`, or white space other than the space.
#[inline(always)]
pub fn is_special(byte: u8) -> bool
    ensures { result ≡ reading.is_special byte }
{
    (byte == b'&') | ((byte == b'\t') | ((byte == b'\n') | (byte == b'\r')))
}

/// Returns true only if the byte at `at` changes a value.
#[inline(always)]
pub fn changes(text: &str, at: usize) -> bool
    ensures { result ≡ true → reading.is_special (slice_index text.now at) ≡ true }
{
    let bytes = text.as_bytes();
    at < bytes.len() && is_special(bytes[at])
}

/// The bytes of a value that do not change it: all except `&` and white space other than the space.
pub struct StretchByte;

// The bytes that are not in the set, each at its low half.
const STRETCH_ENDS: [u8; 16] = [
    1, 0, 0, 0, 0, 0, b'&', 0, 0, b'\t', b'\n', 0, 0, b'\r', 0, 0,
];

impl ByteSet for StretchByte {
    ghost test = { near.is_stretch_byte };

    #[inline(always)]
    #[tactic(auto, unfolding(rox_bytes::specs::ByteSets::is_stretch_byte))]
    fn has(byte: u8) -> bool {
        !is_special(byte)
    }

    #[inline(always)]
    fn others(block: u8x16) -> u64 {
        by_low(STRETCH_ENDS, block).simd_eq(block).to_bitmask()
    }
}

/// The bytes of character data that do not change it: all except `&` and CR.
pub struct RunByte;

// The bytes that are not in the set, each at its low half.
const RUN_ENDS: [u8; 16] = [1, 0, 0, 0, 0, 0, b'&', 0, 0, 0, 0, 0, 0, b'\r', 0, 0];

impl ByteSet for RunByte {
    ghost test = { near.is_run_byte };

    #[inline(always)]
    #[tactic(auto, unfolding(rox_bytes::specs::ByteSets::is_run_byte))]
    fn has(byte: u8) -> bool {
        (byte != b'&') & (byte != b'\r')
    }

    #[inline(always)]
    fn others(block: u8x16) -> u64 {
        by_low(RUN_ENDS, block).simd_eq(block).to_bitmask()
    }
}

/// The bytes of `AnyValueByte`, and those that change a value: `&` and white space other than spaces.
pub struct ChangedValueByte;

// The controls of the set, and the bytes above them that are not in it except 239, each at its low half.
const CHANGED_VALUE_EXCEPTIONS: [u8; 16] = [
    1, 0, b'"', 0, 0, 0, 0, b'\'', 0, b'\t', b'\n', 0, b'<', b'\r', 0, 0,
];

impl ByteSet for ChangedValueByte {
    ghost test = { longer.is_changed_value_byte };

    #[inline(always)]
    #[tactic(auto, unfolding(crate::specs::Lookahead::is_changed_value_byte))]
    fn has(byte: u8) -> bool {
        AnyValueByte::has(byte) | is_special(byte)
    }

    #[inline(always)]
    fn others(block: u8x16) -> u64 {
        let exceptions = by_low(CHANGED_VALUE_EXCEPTIONS, block).simd_eq(block);
        let controls = block.simd_lt(u8x16::splat(32)) ^ exceptions;
        (controls | block.simd_eq(u8x16::splat(239))).to_bitmask()
    }
}

/// Returns the end of the bytes from `at` on that need no test. After a byte that changes a value, other such bytes need none
/// either.
#[inline(always)]
fn value_stretch_end(text: &str, at: usize, quote: Quote, is_verbatim: bool) -> usize
    requires { IsCharBoundary text.now at }
    ensures looked { GoesOn (longer.ends_value quote.byte text.entry.now) reading.is_special text.entry.now at result is_verbatim }
    ensures onward { at ≤ result }
{
    if is_verbatim {
        return skip_set::<AnyValueByte>(text, at);
    }
    skip_set::<ChangedValueByte>(text, at)
}

/// Returns how far the value from the cursor on is valid, up to its quote or a `<`.
pub fn scan_value(from: Cursor<'_>, quote: Quote) -> Lookahead
    ensures { LooksAhead (longer.ends_value quote.byte from.entry.text.now) reading.is_special
        from.entry.text.now from.entry.pos result.end result.is_verbatim }
{
    let text = from.text;
    let bytes = text.as_bytes();
    let mut is_verbatim = true;
    let mut end = skip_set::<AnyValueByte>(text, from.pos);
    while end < bytes.len() {
        let here = bytes[end];
        if here == quote.byte || here == b'<' {
            break;
        }
        let next = after_char(text, end);
        if next == end {
            break;
        }
        is_verbatim &= !is_special(here);
        end = value_stretch_end(text, next, quote, is_verbatim);
    }
    Lookahead { end, is_verbatim }
}

/// Returns how far the text of a comment from the cursor on is valid, up to two dashes or the end.
pub fn comment_end(from: Cursor<'_>) -> usize
    ensures { LooksAhead (longer.ends_comment from.entry.text.now) longer.none_changes
        from.entry.text.now from.entry.pos result true }
{
    let text = from.text;
    let bytes = text.as_bytes();
    let mut end = skip_set::<CommentByte>(text, from.pos);
    while end < bytes.len() {
        if is_mark_at(text, end, b"--") {
            break;
        }
        let next = after_char(text, end);
        if next == end {
            break;
        }
        end = skip_set::<CommentByte>(text, next);
    }
    end
}

/// Returns the end of the rest of a comment's text that starts at `at`, if it is valid, or 0. It goes beyond the bytes that
/// `ascii_comment_end` passes.
#[inline(never)]
fn comment_end_beyond(text: &str, at: usize) -> usize
    requires { IsCharBoundary text.now at }
    ensures { 0 < result → EndsComment text.now at result }
{
    let end = comment_end(Cursor { text, pos: at });
    if (Cursor { text, pos: end }).starts(Word::CommentEnd) {
        end
    } else {
        0
    }
}

/// Returns the end of the ASCII bytes of a comment from the cursor on that need no other test.
#[inline(always)]
fn ascii_comment_end(from: Cursor<'_>) -> usize
    ensures { IsLookahead (longer.ends_comment from.entry.text.now) longer.none_changes
        from.entry.text.now from.entry.pos result true }
{
    skip_set::<AsciiCommentByte>(from.text, from.pos)
}

/// Returns the end of a comment's text that starts at the cursor, if it is valid, or 0. Most comments are of ASCII bytes, for
/// which the test is quicker.
#[inline(always)]
pub fn comment_text_end(from: Cursor<'_>) -> usize
    ensures { 0 < result → EndsComment from.entry.text.now from.entry.pos result }
{
    let text = from.text;
    let near = ascii_comment_end(from);
    if (Cursor { text, pos: near }).starts(Word::CommentEnd) {
        return near;
    }
    comment_end_beyond(text, near)
}

/// Returns whether a value needs no replacement: it has no `&` and no white space other than spaces.
pub fn is_verbatim_value(bytes: &[u8]) -> bool
    ensures { result ≡ content.is_verbatim_value bytes.now }
{
    let mut is_verbatim = true;
    for byte in bytes {
        is_verbatim &= !is_special(*byte);
    }
    is_verbatim
}
