//! Attribute values by the fast path: where a value starts, and where one ends that needs no replacement (XML 1.0 [10]).

ghost use Rattle.std.specs.Prelude.{◌≡◌, ◌<◌, ◌≤◌, ◌+◌, ◌-◌, ◌==◌, ◌||◌, ℕ, IfSome, length, slice_range, true, IsCharBoundary, slice_index};
ghost use Rattle.rox_verbatim.specs.PlainValues.{BeginsValue, EndsVerbatim, HasPlainValue, IsQuoteAt, IsQuoteBehindEquals, IsValueStart, SeesValue};
ghost use Rattle.rox_bytes.specs.Windows.{SeesQuote};

use crate::quick_space::white_space_end;
use rox_bytes::byte_set::{QuotedByte, ValueByte, skip_set};
use rox_bytes::runs::{after_byte, is_at};
use rox_bytes::window::{WIDTH, Window};
use rox_scan::cursor::{Cursor, Quote};
use rox_scan::lookahead::{changes, scan_value};

/// Returns the end of a value in the quotes `quote`, of which the rest from `at` on needs no replacement; otherwise 0. The value
/// may have any bytes.
#[inline(never)]
fn verbatim_value_end(text: &str, at: usize, quote: u8) -> usize
    requires { BeginsValue text.now at quote }
    ensures { 0 < result → EndsVerbatim text.now at quote result }
{
    let look = scan_value(Cursor { text, pos: at }, Quote { byte: quote });
    if look.is_verbatim && is_at(text, look.end, quote) {
        look.end
    } else {
        0
    }
}

/// Like `verbatim_value_end`, but first passes bytes that need no replacement in double quotes. Most values that get here are in
/// double quotes and have bytes past ASCII or `'`. It is out of line so that its caller saves no registers.
#[inline(never)]
fn value_end_beyond(text: &str, at: usize, quote: u8) -> usize
    requires { BeginsValue text.now at quote }
    ensures { 0 < result → EndsVerbatim text.now at quote result }
{
    if quote != b'"' {
        return verbatim_value_end(text, at, quote);
    }
    let end = skip_set::<QuotedByte>(text, at);
    if is_at(text, end, b'"') {
        return end;
    }
    if changes(text, end) {
        return 0;
    }
    verbatim_value_end(text, at, quote)
}

/// Returns the end of the value that starts at `start`, after the quote `quote`, if it needs no replacement. No byte up to `near`
/// needs one.
#[inline(always)]
pub fn unchanged_value_end(text: &str, start: usize, quote: u8, near: usize) -> Option<usize>
    requires { SeesValue text.now start quote near }
    ensures { IfSome result (λ j. HasPlainValue text.now start quote j
        (slice_range text.now start j)) }
{
    if is_at(text, near, quote) {
        return Some(near);
    }
    if changes(text, near) {
        return None;
    }
    let end = value_end_beyond(text, near, quote);
    if end == 0 {
        return None;
    }
    Some(end)
}

/// Returns whether the value that starts at `start`, after the quote `quote`, ends at `near`. No byte up to `near` needs a
/// replacement.
#[inline(always)]
fn closes_value(text: &str, start: usize, quote: u8, near: usize) -> bool
    requires sees { SeesValue text.now start quote near }
    requires within { near < length text.now }
    ensures { result ≡ true → HasPlainValue text.now start quote near
        (slice_range text.now start near) }
{
    text.as_bytes()[near] == quote
}

/// Returns the quote at `at`, or 0 if there is none.
#[inline(always)]
fn quote_here(text: &str, at: usize) -> u8
    ensures { 0 < result → IsQuoteAt text.now at result }
{
    let bytes = text.as_bytes();
    if at >= bytes.len() {
        return 0;
    }
    let quote = bytes[at];
    if quote == b'"' || quote == b'\'' {
        quote
    } else {
        0
    }
}

/// Returns the start of the value of an attribute whose name ends at `at`, or 0 if no `=` and quote follow. White space is
/// allowed around the `=`.
#[inline(never)]
fn value_start(text: &str, at: usize) -> usize
    requires { IsCharBoundary text.now at }
    ensures { 0 < result → IsValueStart text.now at result }
{
    let equals = white_space_end(text, at);
    if !is_at(text, equals, b'=') {
        return 0;
    }
    let before = white_space_end(text, after_byte(text, equals, b'='));
    let quote = quote_here(text, before);
    if quote == 0 {
        return 0;
    }
    after_byte(text, before, quote)
}

/// Like `value_start`, but first looks for `=` and a quote without white space around the `=`.
#[inline(always)]
pub fn any_value_start(text: &str, at: usize) -> usize
    requires { IsCharBoundary text.now at }
    ensures { 0 < result → IsValueStart text.now at result }
{
    if quote_after_equals(text, at) != 0 {
        return at + 2;
    }
    value_start(text, at)
}

/// Returns the quote after which a value starts at `start`.
#[inline(always)]
pub fn quote_before(text: &str, start: usize) -> u8
    requires some { 0 < start }
    requires within { start ≤ length text.now }
    requires quote { (slice_index text.now (start - 1) == 39 || slice_index text.now (start - 1)
        == 34) ≡ true }
    ensures { IsQuoteAt text.now (start - 1) result }
{
    text.as_bytes()[start - 1]
}

/// Returns the quote after the `=` at `at`, or 0 if one of the two is missing.
#[inline(always)]
pub fn quote_after_equals(text: &str, at: usize) -> u8
    requires { at ≤ length text.now }
    ensures found { 0 < result → IsQuoteBehindEquals text.now at result }
    ensures none { result ≡ 0 → (q : ℕ) → IsQuoteBehindEquals text.now at q → ⊥ }
{
    if at + 1 >= text.len() {
        return 0;
    }
    quote_in_text(text, at)
}

/// Like `quote_after_equals`, but both bytes are in the text.
#[inline(always)]
pub fn quote_in_text(text: &str, at: usize) -> u8
    requires { at + 1 < length text.now }
    ensures found { 0 < result → IsQuoteBehindEquals text.now at result }
    ensures none { result ≡ 0 → (q : ℕ) → IsQuoteBehindEquals text.now at q → ⊥ }
{
    let bytes = text.as_bytes();
    let quote = bytes[at + 1];
    if bytes[at] == b'=' && (quote == b'"' || quote == b'\'') {
        return quote;
    }
    0
}

/// A value that needs no replacement, and the offset at which it ends.
#[derive(Clone, Copy)]
pub struct UnchangedValue<'input> {
    pub text: &'input str,
    pub end: usize,
}

/// Returns the value that starts at `start`, after the quote `quote`, if it needs no replacement. No byte up to `near` needs one.
#[inline(always)]
pub fn unchanged_value<'input>(
    text: &'input str,
    start: usize,
    quote: u8,
    near: usize,
) -> Option<UnchangedValue<'input>>
    requires { SeesValue text.now start quote near }
    ensures { IfSome result (λ v. HasPlainValue text.entry.now start quote v.end v.text.now) }
{
    let end = unchanged_value_end(text, start, quote, near)?;
    Some(UnchangedValue {
        text: &text[start..end],
        end,
    })
}

/// Like `unchanged_value`, but for the value that starts `before` bytes after the start of `window`.
#[inline(always)]
pub fn value_in_window<'input>(
    text: &'input str,
    window: Window,
    before: usize,
    quote: u8,
) -> Option<UnchangedValue<'input>>
    requires seen { SeesQuote text.now window before }
    requires begins { BeginsValue text.now (window.at + before) quote }
    ensures { IfSome result
        (λ v. HasPlainValue text.entry.now (window.at + before) quote v.end v.text.now) }
{
    let start = window.at + before;
    let Some(count) = window.value_end() else {
        let near = skip_set::<ValueByte>(text, window.at + WIDTH);
        return unchanged_value(text, start, quote, near);
    };
    let near = window.at + count;
    if !closes_value(text, start, quote, near) {
        return unchanged_value(text, start, quote, near);
    }
    Some(UnchangedValue {
        text: &text[start..near],
        end: near,
    })
}
