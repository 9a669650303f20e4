//! Names by the fast path, which reads only valid ones and reports no fault (Namespaces in XML section 4).

ghost use Rattle.std.specs.Prelude.{◌≡◌, ◌<◌, ◌-◌, ◌==◌, ◌||◌, Ok, IfSome, true, false, [], IsCharBoundary, ◌+◌, IfNone, length};
ghost use Rattle.rox_grammar.specs.Runs.{begins, run_end};
ghost use Rattle.rox_reading.specs.Lexical.{qname_at};
ghost use Rattle.rox_bytes.specs.ByteSets.{EndsSet, is_part_byte};
ghost use Rattle.rox_verbatim.specs.PlainNames.{EndsFirstPart, EndsNear, EndsPrefix, IsLocalPart, IsPlainName, IsPrefixedName};
ghost use Rattle.rox_bytes.specs.ScanResults.{EndsNear as StartsPart, Finds};
ghost use Rattle.rox_grammar.specs.Chars.{is_part_char};
ghost use Rattle.rox_grammar.specs.Failures.{name_view};

use crate::quick_value::quote_after_equals;
use rox_bytes::byte_set::{PartByte, RunEnd, part_end, skip_second, skip_set};
use rox_bytes::chars::NameStart;
use rox_bytes::runs::{after_byte, begins, is_at};
use rox_grammar::name::QName;

/// The offset at which a start tag or an attribute starts, and that at which the first part of its name ends, or the first ASCII
/// bytes of that part.
#[derive(Clone, Copy)]
pub struct NamePlace {
    pub start: usize,
    pub part: usize,
}

/// A name, and the offset at which it ends.
#[derive(Clone, Copy)]
pub struct NameAt<'input> {
    pub name: QName<'input>,
    pub end: usize,
}

/// Returns the name that starts at `start`, or `None` if none does (Namespaces in XML section 4). Its first part ends at `colon`.
#[inline(always)]
#[tactic(auto, unfolding(rox_reading::specs::Lexical::qname_at))]
pub fn name_of_part<'input>(text: &'input str, start: usize, colon: usize) -> Option<NameAt<'input>>
    requires start { IsCharBoundary text.now start }
    requires part { Finds text.now start colon (run_end is_part_char text.now start) }
    ensures { IfSome result (λ n. IsPlainName text.entry.now start n) }
{
    if !begins::<NameStart>(text, start) {
        return None;
    }
    if !is_at(text, colon, b':') {
        let name = QName {
            prefix: "",
            local: &text[start..colon],
        };
        return Some(NameAt { name, end: colon });
    }
    second_part(text, start, colon)
}

/// Returns true only if the name part at `at` starts with a letter or `_` and ends at `end`, with no colon after it. Its first
/// ASCII bytes end at `end`.
#[inline(always)]
fn is_local_part(text: &str, at: usize, end: usize) -> bool
    requires { EndsSet is_part_byte text.now at end }
    ensures { result ≡ true → EndsNear text.now at end }
{
    let bytes = text.as_bytes();
    if end >= bytes.len() || bytes[at] <= b'?' {
        return false;
    }
    let stop = bytes[end];
    stop < b'?' && stop != b':'
}

/// Returns the end of the local part that starts at `local`, or 0 if none does. It may have characters past ASCII.
#[cold]
#[inline(never)]
fn local_end_beyond(text: &str, local: usize) -> usize
    requires { IsCharBoundary text.now local }
    ensures { 0 < result → IsLocalPart text.now local result }
{
    let end = part_end(text, local);
    if !begins::<NameStart>(text, local) || is_at(text, local, b':') || is_at(text, end, b':') {
        return 0;
    }
    end
}

/// Returns the end of the local part that starts at `local`, or `None` if none does. Its first ASCII bytes end at `near`. Most
/// local parts have no others.
#[inline(always)]
fn local_end(text: &str, local: usize, near: usize) -> Option<usize>
    requires { StartsPart text.now local near }
    ensures { IfSome result (λ j. IsLocalPart text.now local j) }
{
    if is_local_part(text, local, near) {
        return Some(near);
    }
    some_place(local_end_beyond(text, local))
}

/// Returns the name that starts at `start` and whose prefix ends at the colon at `colon`. The first ASCII bytes after the colon
/// end at `near`. Returns `None` if no local part follows.
#[inline(always)]
#[tactic(auto, unfolding(rox_reading::specs::Lexical::qname_at))]
fn name_of_parts<'input>(
    text: &'input str,
    start: usize,
    colon: usize,
    near: usize,
) -> Option<NameAt<'input>>
    requires first { EndsFirstPart text.now start colon 58 }
    requires near { EndsSet is_part_byte text.now (colon + 1) near }
    ensures { IfSome result (λ n. IsPlainName text.entry.now start n) }
{
    let local = after_byte(text, colon, b':');
    let end = local_end(text, local, near)?;
    let name = QName {
        prefix: &text[start..colon],
        local: &text[local..end],
    };
    Some(NameAt { name, end })
}

/// Returns the name that starts at `start` and whose prefix ends at the colon at `colon`. Returns `None` if no local part
/// follows.
#[inline(always)]
fn second_part<'input>(text: &'input str, start: usize, colon: usize) -> Option<NameAt<'input>>
    requires { EndsFirstPart text.now start colon 58 }
    ensures { IfSome result (λ n. IsPlainName text.entry.now start n) }
{
    let near = skip_set::<PartByte>(text, after_byte(text, colon, b':'));
    name_of_parts(text, start, colon, near)
}

/// Returns the name that starts at `start` and whose prefix, of ASCII bytes, `run` ends at a colon. Returns `None` if no local part
/// follows.
#[inline(always)]
pub fn name_of_prefix<'input>(
    text: &'input str,
    start: usize,
    run: RunEnd,
) -> Option<NameAt<'input>>
    requires { EndsPrefix text.now start run }
    ensures { IfSome result (λ n. IsPlainName text.entry.now start n) }
{
    let near = skip_second::<PartByte>(text, start, run);
    name_of_parts(text, start, run.at, near)
}

/// Returns the offset `place`, or `None` if it is 0.
#[inline(always)]
pub fn some_place(place: usize) -> Option<usize>
    ensures some { IfSome result (λ j. (j ≡ place) × (0 < j)) }
    ensures none { IfNone result (place ≡ 0) }
{
    if place == 0 {
        return None;
    }
    Some(place)
}

/// Returns the name that starts at `start` and whose prefix ends at the colon at `part`. Returns `None` unless the local part is
/// of ASCII bytes, with `=` and a quote right after it. The local part starts with no digit or sign, as its first byte shows.
#[inline(always)]
#[tactic(auto, unfolding(rox_reading::specs::Lexical::qname_at))]
pub fn prefixed_name<'input>(text: &'input str, start: usize, part: usize) -> Option<NameAt<'input>>
    requires { EndsFirstPart text.now start part 58 }
    ensures { IfSome result (λ n. IsPrefixedName text.entry.now start part n) }
{
    let local = after_byte(text, part, b':');
    let end = skip_set::<PartByte>(text, local);
    if quote_after_equals(text, end) == 0 || text.as_bytes()[local] < b'A' {
        return None;
    }
    let name = QName {
        prefix: &text[start..part],
        local: &text[local..end],
    };
    Some(NameAt { name, end })
}

/// Returns the name from `start` up to `part`, where its first part ends at a `=`.
#[inline(always)]
#[tactic(auto, unfolding(rox_reading::specs::Lexical::qname_at))]
pub fn name_without_prefix<'input>(text: &'input str, start: usize, part: usize) -> NameAt<'input>
    requires { EndsFirstPart text.now start part 61 }
    ensures value { qname_at text.entry.now start ≡ Ok (name_view result.name, result.end) }
    ensures local { start + length result.name.local.now ≡ result.end }
    ensures end { result.end ≡ part }
    ensures bare { result.name.prefix.now ≡ [] }
{
    let name = QName {
        prefix: "",
        local: &text[start..part],
    };
    NameAt { name, end: part }
}

/// Returns the name from `start` up to `near`, where its ASCII bytes end. Neither a colon nor more of the name follows. It starts
/// with no digit or sign, as its first byte shows.
#[inline(always)]
pub fn ascii_name<'input>(text: &'input str, start: usize, near: usize) -> &'input str
    requires start { IsCharBoundary text.now start }
    requires near { EndsNear text.now start near }
    ensures { qname_at text.entry.now start
        ≡ Ok (record { prefix = []; local = result.now }, near) }
{
    &text[start..near]
}
