//! Any attribute values of the main text by the fast path, also those with references or white space other than spaces (XML 1.0
//! sections 3.3.3, 4.1 and 4.4.5).

ghost use Rattle.std.specs.Prelude.{◌≤◌, IfSome, true, length, string_bytes, ◌<◌, false, ◌≡◌, ◌==◌, slice_index};
ghost use Rattle.rox_bytes.specs.ByteSets.{EndsSet, is_stretch_byte};
ghost use Rattle.rox_storage.specs.Storage.{IsOwnText};
ghost use Rattle.rox_scan.specs.Lookahead as longer;
ghost use Rattle.rox_scan.specs.Lookahead.{IsLookahead, none_changes, ends_value};
ghost use Rattle.rox_attributes.specs.SpacedBytes.{IsAnyValue, IsMadeValue};
ghost use Rattle.rox_verbatim.specs.PlainValues.{BeginsValue, EndsVerbatim};
ghost use Rattle.rox_reading.specs.Values.{is_special};
ghost use Rattle.rox_seen.specs.SeenNames.{KeepsCodes};
ghost use Rattle.rox_values.specs.PlainBits.{HasChange};
ghost use Rattle.rox_values.specs.DeclaredEntities.{AreMainValues};

use rox_bytes::byte_set::{ValueByte, skip_set};
use rox_bytes::runs::is_at;
use rox_scan::lookahead::{ChangedValueByte, StretchByte, after_char, changes};
use rox_seen::recent_values::{RecentValues, owned_replacement, owned_value};
use rox_seen::seen_names::SeenNames;
use rox_storage::storage::StringStorage;
use rox_values::changed_value::changed_value;
use rox_values::context::Context;
use rox_values::entity_value::entity_value;
use std::alloc::Global;

/// Returns the end of the Chars from `start` on that are neither `quote` nor `<`.
#[inline(always)]
fn changed_end(text: &str, start: usize, quote: u8) -> usize
    requires { BeginsValue text.now start quote }
    ensures { IsLookahead (longer.ends_value quote text.now) none_changes text.now start
        result true }
{
    let bytes = text.as_bytes();
    let mut end = skip_set::<ChangedValueByte>(text, start);
    while end < bytes.len() {
        let here = bytes[end];
        if here == quote || here == b'<' {
            break;
        }
        let next = after_char(text, end);
        if next == end {
            break;
        }
        end = skip_set::<ChangedValueByte>(text, next);
    }
    end
}

/// Returns the offset of the first byte from `at` on that changes a value, or the end of the text. Most often it is `at`.
#[inline(always)]
fn change_from(text: &str, at: usize) -> usize
    requires { at ≤ length text.now }
    ensures { EndsSet is_stretch_byte text.now at result }
{
    if changes(text, at) {
        return at;
    }
    skip_set::<StretchByte>(text, at)
}

/// The end of a value, and the offset of the first byte that changes it. If none does, that is the end.
#[derive(Clone, Copy)]
struct ValueEnds {
    first: usize,
    end: usize,
}

/// Returns the ends of the value that starts at `start`, after the quote `quote`. Returns `None` if it has other characters than
/// Chars or a `<`, or if it lacks its end quote.
#[inline(always)]
fn value_ends(text: &str, start: usize, quote: u8) -> Option<ValueEnds>
    requires { BeginsValue text.now start quote }
    ensures plain { IfSome result (λ e. e.end ≤ e.first
        → EndsVerbatim text.entry.now start quote e.end) }
    ensures looked { IfSome result (λ e. e.first < e.end
        → IsLookahead (ends_value quote text.entry.now) is_special text.entry.now start e.end
        false) }
    ensures change { IfSome result (λ e. e.first < e.end
        → HasChange text.entry.now start e.first e.end) }
    ensures here { IfSome result (λ e. (slice_index text.entry.now e.end == quote) ≡ true) }
{
    let near = skip_set::<ValueByte>(text, start);
    if is_at(text, near, quote) {
        return Some(ValueEnds {
            first: near,
            end: near,
        });
    }
    let end = changed_end(text, near, quote);
    if !is_at(text, end, quote) {
        return None;
    }
    let first = change_from(&text[..end], near);
    Some(ValueEnds { first, end })
}

/// Returns a made value, which may share its storage with an equal one before it. Returns `None` if memory is refused, which sets
/// `lacking`.
#[inline(always)]
fn shared_value<'input>(
    alloc: Global,
    recent: &mut Option<Box<RecentValues>>,
    text: String,
    lacking: &mut bool,
) -> Option<StringStorage<'input>>
    ensures { IfSome result (IsOwnText (string_bytes text)) }
{
    let value = owned_value(alloc, recent, text);
    if value.is_none() {
        *lacking = true;
    }
    value
}

/// Returns the value from `start` up to the end of `ends`, which something changes. Returns `None` if it is not valid, or if memory
/// is refused, which sets `lacking` of `seen`.
#[inline(always)]
fn made_value<'input>(
    text: &'input str,
    start: usize,
    ends: ValueEnds,
    context: &Context<'_, 'input>,
    seen: &mut SeenNames,
) -> Option<StringStorage<'input>>
    requires { HasChange text.now start ends.first ends.end }
    ensures value { IfSome result (λ v. IsMadeValue (AreMainValues context.entry.now) text.entry.now
        start ends.end v) }
    ensures kept { KeepsCodes seen.old seen.new }
{
    let changed = changed_value(
        text,
        start,
        ends.first,
        ends.end,
        context,
        &mut seen.lacking,
    )?;
    let alloc = context.entities.allocator();
    shared_value(alloc, &mut seen.values, changed, &mut seen.lacking)
}

/// Returns true only if a reference is at `at` to a name whose first letter no predefined name has.
#[inline(always)]
fn names_other(text: &str, at: usize) -> bool
    ensures { result ≡ true → slice_index text.now at ≡ 38 }
{
    if !is_at(text, at, b'&') || at + 1 >= text.len() {
        return false;
    }
    !matches!(text.as_bytes()[at + 1], b'#' | b'a' | b'g' | b'l' | b'q')
}

/// Like `made_value`, but for a value that begins with a reference to an entity. Most often that is all of it.
#[cold]
#[inline(never)]
fn referring_value<'input>(
    text: &'input str,
    start: usize,
    ends: ValueEnds,
    context: &Context<'_, 'input>,
    seen: &mut SeenNames,
) -> Option<StringStorage<'input>>
    requires change { HasChange text.now start ends.first ends.end }
    requires here { slice_index text.now start ≡ 38 }
    ensures value { IfSome result (λ v. IsMadeValue (AreMainValues context.entry.now) text.entry.now
        start ends.end v) }
    ensures kept { KeepsCodes seen.old seen.new }
{
    let Some(named) = entity_value(text, start, ends.end, context) else {
        return made_value(text, start, ends, context, seen);
    };
    let alloc = context.entities.allocator();
    let replacement = &named.text[named.pos..];
    let value = owned_replacement(alloc, &mut seen.values, replacement, named.pos);
    if value.is_none() {
        seen.lacking = true;
    }
    value
}

/// Returns the value from `start` up to the end of `ends`, which something changes, like `made_value`.
#[inline(always)]
fn changed<'input>(
    text: &'input str,
    start: usize,
    ends: ValueEnds,
    context: &Context<'_, 'input>,
    seen: &mut SeenNames,
) -> Option<StringStorage<'input>>
    requires { HasChange text.now start ends.first ends.end }
    ensures value { IfSome result (λ v. IsMadeValue (AreMainValues context.entry.now) text.entry.now
        start ends.end v) }
    ensures kept { KeepsCodes seen.old seen.new }
{
    if names_other(text, start) {
        return referring_value(text, start, ends, context, seen);
    }
    made_value(text, start, ends, context, seen)
}

/// A value, and the offset at which it ends.
#[derive(Drop)]
pub struct AnyValue<'input> {
    pub value: StringStorage<'input>,
    pub end: usize,
}

/// Returns the value that starts at `start`, after the quote `quote`: a slice of the text, or an owned text if it needs a
/// replacement. Returns `None` if it is not valid, or if memory is refused, which sets `lacking` of `seen`.
#[inline(always)]
pub fn any_value<'input>(
    text: &'input str,
    start: usize,
    quote: u8,
    context: &Context<'_, 'input>,
    seen: &mut SeenNames,
) -> Option<AnyValue<'input>>
    requires { BeginsValue text.now start quote }
    ensures value { IfSome result (λ v. IsAnyValue (AreMainValues context.entry.now) text.entry.now start quote v) }
    ensures kept { KeepsCodes seen.old seen.new }
{
    let ends = value_ends(text, start, quote)?;
    let end = ends.end;
    if ends.first >= end {
        let value = StringStorage::Borrowed(&text[start..end]);
        return Some(AnyValue { value, end });
    }
    let value = changed(text, start, ends, context, seen)?;
    Some(AnyValue { value, end })
}
