//! The values of the main text that something changes: a reference, or white space other than spaces (XML 1.0 sections 3.3.3 and
//! 4.1). The fast path reads them. It tells no fault: a value that it does not read is read again by the general step.

ghost use Rattle.std.specs.Prelude.{◌≡◌, ◌-◌, ℕ, Ok, IfOk, IfSome, map, true, string_bytes, ◌<◌, ◌≤◌, IsCharBoundary};
ghost use Rattle.rox_bytes.specs.ByteSets.{AllPass, is_run_byte};
ghost use Rattle.rox_reading.specs.Tags.{Values};
ghost use Rattle.rox_reading.specs.Values as spec;
ghost use Rattle.rox_values.specs.DeclaredEntities.{AreMainValues};
ghost use Rattle.rox_values.specs.PlainBits.{HasChange, IsRest, spaced_byte};
ghost use Rattle.rox_values.specs.Values.{PutsRest};

use crate::attribute_value::value_text;
use crate::context::Context;
use crate::parse_error::ParseError;
use crate::plain_bits::put_plain_bits;
use rox_bytes::byte_set::skip_set;
use rox_bytes::runs::is_at;
use rox_scan::cursor::Cursor;
use rox_scan::lookahead::{RunByte, StretchByte};
use std::alloc::{AllocError, Global};

/// Returns a space for a TAB or a LF, and any other byte as it is.
#[inline(always)]
fn spaced(byte: u8) -> u8
    ensures { result ≡ spaced_byte byte }
{
    if (byte == b'\t') | (byte == b'\n') {
        b' '
    } else {
        byte
    }
}

/// Puts a space for each TAB and LF.
#[inline(always)]
fn put_spaces(bytes: &mut [u8])
    ensures { bytes.new ≡ map spaced_byte bytes.old }
{
    for at in 0..bytes.len() {
        bytes[at] = spaced(bytes[at]);
    }
}

/// Returns a text with a space for each TAB and LF. Returns `None` if memory is refused, which sets `lacking`. The function is out
/// of line so that other values, which have a few of them, are read as before.
#[inline(never)]
fn spaced_text(alloc: Global, text: &str, lacking: &mut bool) -> Option<String>
    ensures { IfSome result (λ s. string_bytes s ≡ map spaced_byte text.now) }
{
    let Ok(mut bytes) = Vec::from_slice(alloc, text.as_bytes()) else {
        *lacking = true;
        return None;
    };
    put_spaces(bytes.as_mut_slice());
    String::from_utf8(bytes).ok()
}

/// Returns true only if the value from `start` up to `stop` has no `&` and no CR from `first` on, where the first byte that
/// changes it is. It also returns false if that byte comes after sixteen bytes or more, or if none of the fifteen bytes after it,
/// up to `stop`, changes the value.
#[inline(always)]
fn is_spaced(text: &str, start: usize, first: usize, stop: usize) -> bool
    requires after { start ≤ first }
    requires before { first < stop }
    requires stop { IsCharBoundary text.now stop }
    ensures { result ≡ true → AllPass is_run_byte text.now first stop }
{
    if first - start >= 16 || is_at(text, first, b'&') {
        return false;
    }
    let next = skip_set::<StretchByte>(text, first + 1);
    next < stop && next - first < 16 && skip_set::<RunByte>(&text[..stop], first) >= stop
}

/// Returns whether the room of `count` bytes is too large for a text of `len` bytes: references can be far longer than the
/// characters that they give. Allocators give hardly less than 24 bytes.
#[inline(always)]
fn is_roomy(len: usize, count: usize) -> bool {
    count > 24 && len < count / 4 * 3
}

/// Appends the rest of a value of the main text, from `at` up to `stop`. Returns false if it is not valid. It fails only if memory
/// is refused. The function is out of line, as few values have a rest: it starts with a reference to an entity.
#[cold]
#[inline(never)]
fn put_rest<'input>(
    text: &'input str,
    at: usize,
    stop: usize,
    context: &Context<'_, 'input>,
    out: &mut String,
) -> Result<bool, AllocError>
    requires start { IsCharBoundary text.now at }
    requires stop { IsCharBoundary text.now stop }
    ensures { IfOk result (λ put. put ≡ true → (values : Values) → AreMainValues context.entry.now
        values → PutsRest values text.entry.now at stop (string_bytes out.old) (string_bytes out.new)) }
{
    match value_text(Cursor::at(text, at), stop, *context, 0, out) {
        Ok(_) => Ok(true),
        Err(ParseError::Memory) => Err(AllocError),
        Err(_) => Ok(false),
    }
}

/// Appends the value of the main text from `from` up to `stop`. Returns false if it is not valid. It fails only if memory is
/// refused.
#[inline(always)]
fn put_value<'input>(
    text: &'input str,
    from: usize,
    stop: usize,
    context: &Context<'_, 'input>,
    out: &mut String,
) -> Result<bool, AllocError>
    requires { IsRest text.now from stop }
    ensures { IfOk result (λ put. put ≡ true → (values : Values) → AreMainValues context.entry.now
        values → PutsRest values text.entry.now from stop (string_bytes out.old) (string_bytes out.new)) }
{
    let at = put_plain_bits(text, from, stop, true, out);
    if at >= stop {
        return Ok(true);
    }
    put_rest(text, at, stop, context, out)
}

/// Returns the value of the main text from `start` up to `stop`, or `None` if it is not valid, or if memory is refused, which sets
/// `lacking`. The first byte that changes it is at `first`. The function is out of line so that its variables stay in registers.
#[inline(never)]
pub fn changed_value<'input>(
    text: &'input str,
    start: usize,
    first: usize,
    stop: usize,
    context: &Context<'_, 'input>,
    lacking: &mut bool,
) -> Option<String>
    requires { HasChange text.now start first stop }
    ensures { IfSome result (λ s. (values : Values) → AreMainValues context.entry.now values
        → (openings_left : ℕ)
        → spec.value_text values.main values.entities values.opener (stop - start) text.entry.now stop start
        openings_left ≡ Ok (string_bytes s, openings_left)) }
{
    let alloc = context.entities.allocator();
    if is_spaced(text, start, first, stop) {
        return spaced_text(alloc, &text[start..stop], lacking);
    }
    let count = stop - start;
    let Ok(mut out) = String::with_capacity(alloc, count) else {
        *lacking = true;
        return None;
    };
    if out.push_str(&text[start..first]).is_err() {
        return None;
    }
    let Ok(put) = put_value(text, first, stop, context, &mut out) else {
        *lacking = true;
        return None;
    };
    if !put {
        return None;
    }
    if is_roomy(out.len(), count) {
        out.shrink_to_fit();
    }
    Some(out)
}
