//! Attributes of the main text by the fast path, put into their table (XML 1.0 section 3.1). Nothing fails here: if an attribute is
//! not read, the general step reads its tag again, from its `<`.

ghost use Rattle.std.specs.Prelude.{◌≡◌, ◌<◌, ◌+◌, ◌-◌, ◌==◌, IfSome, length, bytes_eq, false, [], slice_index};
ghost use Rattle.rox_bytes.specs.ScanResults.{EndsNear as StartsNear};
ghost use Rattle.rox_grammar.specs.Failures.{name_view};
ghost use Rattle.rox_grammar.specs.Written.{Name};
ghost use Rattle.rox_seen.specs.SeenNames.{KeepsCodes};
ghost use Rattle.rox_verbatim.specs.PlainNames.{IsPlainName};
ghost use Rattle.rox_verbatim.specs.PlainValues.{IsValueStart};
ghost use Rattle.rox_attributes.specs.PlainAttribute.{HasScope, IsAttributeNamespace, IsPlainAttribute, MayPut, MayPutNamed, MayPutPart, PutsPlain, PutsSome};
ghost use Rattle.rox_values.specs.DeclaredEntities.{AreMainValues};

use crate::any_value::any_value;
use crate::prefix_cache::find_in_slot;
use rox_bytes::byte_set::{PartByte, ValueByte, part_end_beyond, skip_set};
use rox_bytes::runs::{after_byte, is_at};
use rox_bytes::window::{WIDTH, Window};
use rox_compare::compare::same_text;
use rox_grammar::name::QName;
use rox_names::namespace_decl::is_namespace_decl;
use rox_names::resolve::{put_attribute_of, put_compact_attribute};
use rox_names::tables::ElementTables;
use rox_names::unresolved_attribute::{CompactAttribute, UnresolvedAttribute};
use rox_rows::row::AttributeNamespace;
use rox_rows::stored_attribute::EXPLICIT;
use rox_scopes::scope::few_places;
use rox_seen::seen_names::SeenNames;
use rox_values::context::Context;
use rox_verbatim::quick_name::{
    NameAt, NamePlace, name_of_part, name_without_prefix, prefixed_name, some_place,
};
use rox_verbatim::quick_value::{
    UnchangedValue, any_value_start, quote_after_equals, quote_before, quote_in_text,
    unchanged_value, value_in_window,
};

/// The longest name, in bytes, that fits into a 16-byte window with `=` and a quote.
const MOST_NAME: usize = 14;

/// Returns the name at `place`, however it is written, and the start of the value after it, or `None` if there is none. Most names
/// here have no prefix, and `=` and a quote right after them.
#[inline(always)]
fn name_and_value_start<'input>(
    text: &'input str,
    place: NamePlace,
) -> Option<(NameAt<'input>, usize)>
    requires part { StartsNear text.now place.start place.part }
    requires begins { 62 < slice_index text.now place.start }
    ensures name { IfSome result (λ r. IsPlainName text.entry.now place.start r.0) }
    ensures value { IfSome result (λ r. IsValueStart text.entry.now r.0.end r.1) }
{
    let NamePlace { start, part } = place;
    if quote_after_equals(text, part) != 0 {
        return Some((name_without_prefix(text, start, part), part + 2));
    }
    let colon = part_end_beyond(text, start, part);
    let name = name_of_part(text, start, colon)?;
    let from = any_value_start(text, name.end);
    if from == 0 {
        return None;
    }
    Some((name, from))
}

/// Returns the attribute at `place`, however it is written, or `None` if there is none. Its value is owned if it needs a
/// replacement. Also returns `None` if memory is refused, which sets `lacking` of `seen`.
#[inline(always)]
pub fn any_attribute<'input>(
    text: &'input str,
    place: NamePlace,
    context: &Context<'_, 'input>,
    seen: &mut SeenNames,
) -> Option<UnresolvedAttribute<'input>>
    requires part { StartsNear text.now place.start place.part }
    requires begins { 62 < slice_index text.now place.start }
    ensures read { IfSome result (λ a. IsPlainAttribute (AreMainValues context.entry.now) text.entry.now place.start a) }
    ensures kept { KeepsCodes seen.old seen.new }
{
    let start = place.start;
    let (name, from) = name_and_value_start(text, place)?;
    let quote = quote_before(text, from);
    let read = any_value(text, from, quote, context, seen)?;
    Some(UnresolvedAttribute {
        start,
        name_end: name.end,
        value_start: from,
        end: after_byte(text, read.end, quote),
        name: name.name,
        value: read.value,
    })
}

/// Returns the namespace of the prefix `prefix` of an attribute in the scope `scope`. The prefix is not empty. Returns `None` if
/// it is not known or the scope lists many places.
#[inline(always)]
fn prefix_namespace(
    elements: &ElementTables<'_>,
    scope: u32,
    prefix: &str,
    near: &mut usize,
) -> Option<AttributeNamespace>
    requires scope { HasScope elements.now scope }
    requires some { 0 < length prefix.now }
    ensures { (n : Name) → n.prefix ≡ prefix.entry.now → bytes_eq n.prefix [] ≡ false
        → IfSome result (λ s. IsAttributeNamespace elements.entry.now scope n s) }
{
    if same_text(prefix, "xml") {
        return Some(AttributeNamespace::Xml);
    }
    let places = few_places(&elements.scopes, &elements.listed, scope)?;
    let namespaces = elements.namespaces.as_slice();
    match find_in_slot(namespaces, places, prefix, near) {
        Some(place) => Some(AttributeNamespace::Listed(place)),
        None => None,
    }
}

/// Returns the namespace of an attribute's name in the scope `scope`. Most names have no prefix and need no look-up. Returns
/// `None` if the prefix is not known or the scope lists many places.
#[inline(always)]
fn namespace_in(
    elements: &ElementTables<'_>,
    scope: u32,
    name: QName<'_>,
    near: &mut usize,
) -> Option<AttributeNamespace>
    requires { HasScope elements.now scope }
    ensures { IfSome result
        (λ s. IsAttributeNamespace elements.entry.now scope (name_view name.entry) s) }
{
    if name.prefix.is_empty() {
        return Some(AttributeNamespace::None);
    }
    prefix_namespace(elements, scope, name.prefix, near)
}

/// What the attributes of a tag are read in: the scope of its element, and the context of the text, which is the main text.
#[derive(Clone, Copy)]
pub struct TagContext<'t, 'e, 'input> {
    pub scope: u32,
    pub context: &'t Context<'e, 'input>,
}

/// Puts the attribute at `place`, however it is written, after those of its tag, which `seen` records. Returns the offset after it,
/// or 0 with the table unchanged. A declaration is not put.
#[cold]
#[inline(never)]
fn put_any_attribute<'input>(
    text: &'input str,
    place: NamePlace,
    elements: &mut ElementTables<'input>,
    within: &TagContext<'_, '_, 'input>,
    seen: &mut SeenNames,
) -> usize
    requires { MayPutPart text.now place elements.old within.now.scope seen.old }
    ensures { PutsPlain elements.old elements.new within.entry.now seen.old seen.new text.entry.now
        place.start result }
{
    let Some(one) = any_attribute(text, place, within.context, seen) else {
        return 0;
    };
    if is_namespace_decl(one.name) {
        return 0;
    }
    let Some(namespace) = namespace_in(elements, within.scope, one.name, &mut seen.near) else {
        return 0;
    };
    let end = one.end;
    if put_attribute_of(
        &elements.namespaces,
        &mut elements.attributes,
        seen,
        namespace,
        one,
    ) {
        end
    } else {
        0
    }
}

/// Like `put_any_attribute`, but where the first ASCII bytes of its name end is looked for. The function is out of line, so that
/// the loop over attributes is small enough to be in line.
#[cold]
#[inline(never)]
fn put_any_attribute_at<'input>(
    text: &'input str,
    start: usize,
    elements: &mut ElementTables<'input>,
    within: &TagContext<'_, '_, 'input>,
    seen: &mut SeenNames,
) -> usize
    requires { MayPut text.now start elements.old within.now.scope seen.old }
    ensures { PutsPlain elements.old elements.new within.entry.now seen.old seen.new text.entry.now
        start result }
{
    let part = skip_set::<PartByte>(text, start);
    put_any_attribute(text, NamePlace { start, part }, elements, within, seen)
}

/// An attribute whose name and value were read, with `=` and a quote right after its name, and whose namespace is known.
#[derive(Clone, Copy)]
pub struct NamedAttribute<'input> {
    pub start: usize,
    /// The number of bytes of its name before the local part: the prefix and the colon.
    pub before: usize,
    pub name: NameAt<'input>,
    pub namespace: AttributeNamespace,
    pub value: UnchangedValue<'input>,
}

/// Puts the attribute `read` after those of its tag, which `seen` records. Returns the offset after it, or `None` with the table
/// unchanged. A declaration is not put. Most attributes take no call.
#[inline(always)]
fn put_named_attribute<'input>(
    text: &'input str,
    read: NamedAttribute<'input>,
    elements: &mut ElementTables<'input>,
    within: &TagContext<'_, '_, 'input>,
    seen: &mut SeenNames,
) -> Option<usize>
    requires { MayPutNamed text.now read elements.old within.now.scope seen.old }
    ensures { PutsSome elements.old elements.new within.entry.now seen.old seen.new text.entry.now
        read.entry.start result }
{
    let start = read.start;
    let quote = quote_before(text, read.name.end + 2);
    if is_namespace_decl(read.name.name) {
        return None;
    }
    if read.before >= EXPLICIT as usize {
        return some_place(put_any_attribute_at(text, start, elements, within, seen));
    }
    let one = CompactAttribute {
        start: start as u32,
        before: read.before as u8,
        local: read.name.name.local,
        value: read.value.text,
    };
    if !put_compact_attribute(
        &elements.namespaces,
        &mut elements.attributes,
        seen,
        read.namespace,
        one,
    ) {
        return None;
    }
    Some(after_byte(text, read.value.end, quote))
}

/// Like `put_attribute`, but for the attribute at `place`, if its first ASCII name bytes are not followed by `=` and a quote. Most
/// often these bytes are the prefix. Returns 0 where that returns `None`.
#[inline(never)]
fn put_prefixed_attribute<'input>(
    text: &'input str,
    place: NamePlace,
    elements: &mut ElementTables<'input>,
    within: &TagContext<'_, '_, 'input>,
    seen: &mut SeenNames,
) -> usize
    requires { MayPutPart text.now place elements.old within.now.scope seen.old }
    ensures { PutsPlain elements.old elements.new within.entry.now seen.old seen.new text.entry.now
        place.start result }
{
    let NamePlace { start, part } = place;
    if !is_at(text, part, b':') {
        return put_any_attribute(text, place, elements, within, seen);
    }
    // The namespace is looked up first, while little else is in registers.
    let prefix = &text[start..part];
    let Some(namespace) = prefix_namespace(elements, within.scope, prefix, &mut seen.near) else {
        return 0;
    };
    let Some(name) = prefixed_name(text, start, part) else {
        return put_any_attribute(text, place, elements, within, seen);
    };
    let quote = quote_before(text, name.end + 2);
    let near = skip_set::<ValueByte>(text, name.end + 2);
    let Some(value) = unchanged_value(text, name.end + 2, quote, near) else {
        return put_any_attribute(text, place, elements, within, seen);
    };
    let read = NamedAttribute {
        start,
        before: part + 1 - start,
        name,
        namespace,
        value,
    };
    let Some(behind) = put_named_attribute(text, read, elements, within, seen) else {
        return 0;
    };
    behind
}

/// Like `put_attribute`, but for attributes whose name does not fit into a window, as it is long or the text ends. Returns 0
/// where that returns `None`.
#[inline(never)]
fn put_long_attribute<'input>(
    text: &'input str,
    start: usize,
    elements: &mut ElementTables<'input>,
    within: &TagContext<'_, '_, 'input>,
    seen: &mut SeenNames,
) -> usize
    requires { MayPut text.now start elements.old within.now.scope seen.old }
    ensures { PutsPlain elements.old elements.new within.entry.now seen.old seen.new text.entry.now
        start result }
{
    let part = skip_set::<PartByte>(text, start);
    let place = NamePlace { start, part };
    let quote = quote_after_equals(text, part);
    if quote == 0 {
        return put_prefixed_attribute(text, place, elements, within, seen);
    }
    let name = name_without_prefix(text, start, part);
    let near = skip_set::<ValueByte>(text, part + 2);
    let Some(value) = unchanged_value(text, part + 2, quote, near) else {
        return put_any_attribute(text, place, elements, within, seen);
    };
    let read = NamedAttribute {
        start,
        before: 0,
        name,
        namespace: AttributeNamespace::None,
        value,
    };
    put_named_attribute(text, read, elements, within, seen).unwrap_or(0)
}

/// Puts the attribute that starts at `start` after those of its tag, which `seen` records. Returns the offset after it, or `None`
/// with the table unchanged. A declaration is not put. Most attributes have a short name without prefix.
#[inline(always)]
pub fn put_attribute<'input>(
    text: &'input str,
    start: usize,
    elements: &mut ElementTables<'input>,
    within: &TagContext<'_, '_, 'input>,
    seen: &mut SeenNames,
) -> Option<usize>
    requires { MayPut text.now start elements.old within.now.scope seen.old }
    ensures { PutsSome elements.old elements.new within.entry.now seen.old seen.new text.entry.now
        start result }
{
    if text.len() - start < WIDTH {
        return some_place(put_long_attribute(text, start, elements, within, seen));
    }
    let window = Window::new(text, start);
    let count = window.part_count();
    if count > MOST_NAME {
        return some_place(put_long_attribute(text, start, elements, within, seen));
    }
    let part = start + count;
    let place = NamePlace { start, part };
    let quote = quote_in_text(text, part);
    if quote == 0 {
        return some_place(put_prefixed_attribute(text, place, elements, within, seen));
    }
    let name = name_without_prefix(text, start, part);
    let Some(value) = value_in_window(text, window, count + 2, quote) else {
        return some_place(put_any_attribute(text, place, elements, within, seen));
    };
    let read = NamedAttribute {
        start,
        before: 0,
        name,
        namespace: AttributeNamespace::None,
        value,
    };
    put_named_attribute(text, read, elements, within, seen)
}
