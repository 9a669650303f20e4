//! Start tags of the main text by the fast path (XML 1.0 section 3.1). Nothing fails here: the general step reads a tag that is not
//! plain, or finds no room, from its `<`.

ghost use Rattle.std.specs.Prelude.{◌≡◌, ◌<◌, ◌+◌, ◌-◌, ◌==◌, Ok, IfSome, slice_index, true, false, ◌≤◌, length, IsCharBoundary, [], bytes_eq, ℕ};
ghost use Rattle.rox_grammar.specs.Failures.{name_view};
ghost use Rattle.rox_tags.specs.PlainParts.{EndsTag, FindsElementNamespace, MayNameBelow, MayReadBareTag, MayReadPlainTag};
ghost use Rattle.rox_verbatim.specs.PlainValues.{IsBeforeLast};
ghost use Rattle.rox_tags.specs.PlainTag.{IsBareTag, ReadsTag, MayOpenAt, MayOpenBelow};
ghost use Rattle.rox_tags.specs.TagHeads.{HasHead};
ghost use Rattle.rox_tags.specs.TagAttributes.{MayReadAttributes, ReadsAttributes};
ghost use Rattle.rox_grammar.specs.Document.{most_attributes, most_pairs};
ghost use Rattle.rox_rows.specs.Rows.{attribute_rows};
ghost use Rattle.rox_grammar.specs.declared.fault.Word.TheVariants.{Xmlns};
ghost use Rattle.rox_grammar.specs.Chars.{is_part_char, is_space};
ghost use Rattle.rox_grammar.specs.FixedTexts.{word_text};
ghost use Rattle.rox_grammar.specs.Runs.{run_end};
ghost use Rattle.rox_bytes.specs.ByteSets.{is_part_byte};
ghost use Rattle.rox_bytes.specs.RunEnds.{EndsRun};
ghost use Rattle.rox_bytes.specs.ScanResults.{Finds};
ghost use Rattle.rox_names.specs.declared.tables.ElementTables.{ElementTables};
ghost use Rattle.rox_attributes.specs.PlainAttribute.{HasScope};
ghost use Rattle.rox_verbatim.specs.PlainNames.{EndsNear, EndsPrefix, IsPlainName};
ghost use Rattle.rox_values.specs.DeclaredEntities.{AreMainValues};

use crate::own_declaration::{TagScope, declares_at, put_declaration};
use rox_attributes::prefix_cache::find_in_slot;
use rox_attributes::quick_attribute::{TagContext, put_attribute};
use rox_bytes::byte_set::RunEnd;
use rox_bytes::runs::{after_byte, is_at};
use rox_compare::compare::same_text;
use rox_grammar::name::QName;
use rox_names::open_element::{OpenElement, has_prefix};
use rox_names::resolve::element_namespace;
use rox_names::start_tag::StartTag;
use rox_names::tables::ElementTables;
use rox_rows::row::namespace_number;
use rox_scopes::scope::few_places;
use rox_seen::seen_names::SeenNames;
use rox_starts::tag::{MOST_ATTRIBUTES, element_of};
use rox_values::context::Context;
use rox_verbatim::quick_name::{NameAt, NamePlace, ascii_name, name_of_part, name_of_prefix};
use rox_verbatim::quick_space::one_space_end;

/// The end of a start tag: the offset after its `>`, and whether the tag is empty.
#[derive(Clone, Copy)]
pub struct TagEnd {
    pub at: usize,
    pub empty: bool,
}

/// Returns the end of the start tag whose `/` is at `at`, if `>` follows it.
#[inline(always)]
fn empty_end(text: &str, at: usize) -> Option<TagEnd>
    requires { slice_index text.now at ≡ 47 }
    ensures here { IfSome result (λ e. slice_index text.now (at + 1) ≡ 62) }
    ensures place { IfSome result (λ e. (e.at ≡ at + 2) × (e.empty ≡ true)) }
    ensures cut { IfSome result (λ e. IsCharBoundary text.now e.at) }
{
    let behind = after_byte(text, at, b'/');
    if !is_at(text, behind, b'>') {
        return None;
    }
    Some(TagEnd {
        at: after_byte(text, behind, b'>'),
        empty: true,
    })
}

/// The item after white space: its offset, and whether it may be an attribute.
#[derive(Clone, Copy)]
pub(crate) struct NextItem {
    pub at: usize,
    pub may_begin: bool,
}

/// Returns the item after the white space that starts at `at`, before the last byte. A name starts with no byte up to `>`.
#[inline(always)]
pub(crate) fn next_item(text: &str, at: usize) -> NextItem
    requires { IsBeforeLast text.now at }
    ensures end { Finds text.now at result.at (run_end is_space text.now at) }
    ensures begins { result.may_begin ≡ true → (at < result.at)
        × (62 < slice_index text.now result.at) }
{
    let bytes = text.as_bytes();
    if bytes[at] == b' ' && bytes[at + 1] > b'>' {
        return NextItem {
            at: after_byte(text, at, b' '),
            may_begin: true,
        };
    }
    let end = one_space_end(text, at);
    NextItem {
        at: end,
        may_begin: end != at && end < text.len() && bytes[end] > b'>',
    }
}

/// Returns the end of a start tag, if it is at `at`.
#[inline(always)]
pub(crate) fn tag_end(text: &str, at: usize) -> Option<TagEnd>
    ensures { EndsTag text.now at result }
{
    if is_at(text, at, b'>') {
        return Some(TagEnd {
            at: after_byte(text, at, b'>'),
            empty: false,
        });
    }
    if is_at(text, at, b'/') {
        return empty_end(text, at);
    }
    None
}

/// Returns the end of a start tag, if it is at `at` and the document has no more attributes than it may have.
#[inline(always)]
fn attributes_end(text: &str, at: usize, elements: &ElementTables<'_>) -> Option<TagEnd>
    ensures ends { EndsTag text.now at result }
    ensures few { IfSome result (λ e. length (attribute_rows elements.now.attributes) ≤
        most_attributes) }
{
    if elements.attributes.len() > MOST_ATTRIBUTES {
        return None;
    }
    tag_end(text, at)
}

/// Reads the attributes of a tag from `start` up to its end, and its declarations if it may have any. They must be plain and
/// find room. Each attribute is put into the table, with its namespace in the declarations before it. If `None` is returned, the
/// tables may have some of them too.
#[inline(always)]
pub fn tag_attributes<'input>(
    text: &'input str,
    start: usize,
    elements: &mut ElementTables<'input>,
    tag: TagScope<'_, '_, 'input>,
    seen: &mut SeenNames,
) -> Option<TagEnd>
    requires { MayReadAttributes text.now start elements.old tag.declares tag.scope }
    ensures { ReadsAttributes (AreMainValues tag.entry.context.now) elements.old elements.new
        tag.entry.declares tag.entry.scope text.entry.now start result }
{
    seen.begin(elements.attributes.len());
    let within = TagContext {
        scope: tag.scope,
        context: tag.context,
    };
    let mut at = start;
    while at + 1 < text.len() {
        let next = next_item(text, at);
        if !next.may_begin {
            return attributes_end(text, next.at, elements);
        }
        if declares_at(text, next.at, tag) {
            at = put_declaration(text, next.at, elements, tag.context, seen)?;
        } else {
            at = put_attribute(text, next.at, elements, &within, seen)?;
        }
    }
    None
}

/// A plain start tag that was read, and the offset at which it ends.
#[derive(Clone, Copy)]
pub struct PlainTag<'input> {
    pub tag: StartTag<'input>,
    pub end: usize,
}

/// Returns the start tag at `start`, a name alone, if the name of `parent` has no prefix. The element has the namespace and the
/// scope of `parent`. Its name is of ASCII bytes and ends at `near`.
#[inline(always)]
pub fn start_tag_of_name<'input>(
    text: &'input str,
    start: usize,
    elements: &ElementTables<'input>,
    parent: &OpenElement<'input>,
    near: usize,
) -> Option<PlainTag<'input>>
    requires { MayReadBareTag text.now start near elements.now parent.now }
    ensures { IfSome result (λ t. IsBareTag elements.entry.now parent.entry.now text.entry.now start
        t) }
{
    if parent.prefixed {
        return None;
    }
    let name_at = after_byte(text, start, b'<');
    let local = ascii_name(text, name_at, near);
    let from = elements.attributes.len();
    let element = element_of(elements, local, from, parent.scope, parent.namespace);
    let tag = StartTag {
        name: QName { prefix: "", local },
        name_start: name_at,
        name_end: near,
        element,
        empty: false,
    };
    let end = after_byte(text, near, b'>');
    Some(PlainTag { tag, end })
}

/// Returns the number of an element's namespace in the scope `scope`, as rows store it. Returns `None` if the prefix of its name
/// is not known or the scope lists many places.
#[inline(always)]
pub fn namespace_in_scope(elements: &ElementTables<'_>, name: QName<'_>, scope: u32) -> Option<u16>
    requires scope { HasScope elements.now scope }
    requires few { length elements.now.namespaces.items.items ≤ most_pairs }
    ensures { FindsElementNamespace elements.entry.now scope (name_view name.entry) result }
{
    let places = few_places(&elements.scopes, &elements.listed, scope)?;
    let namespaces = elements.namespaces.as_slice();
    // The offset is that of an error, which is dropped.
    match element_namespace(namespaces, Some(places), &elements.present, name, 0) {
        Ok(namespace) => Some(namespace_number(namespace)),
        Err(_) => None,
    }
}

/// Like `namespace_in_scope`, but for a name with a prefix. It first tries where its prefix was found last.
#[inline(always)]
fn prefixed_namespace(
    elements: &ElementTables<'_>,
    name: QName<'_>,
    scope: u32,
    near: &mut usize,
) -> Option<u16>
    requires scope { HasScope elements.now scope }
    requires few { length elements.now.namespaces.items.items ≤ most_pairs }
    requires prefixed { bytes_eq (name_view name).prefix [] ≡ false }
    ensures { FindsElementNamespace elements.entry.now scope (name_view name.entry) result }
{
    let places = few_places(&elements.scopes, &elements.listed, scope)?;
    let namespaces = elements.namespaces.as_slice();
    let place = find_in_slot(namespaces, places, name.prefix, near)?;
    Some(namespace_number(Some(place)))
}

/// Like `prefixed_namespace`, but in the scope of the parent. Most names have its prefix.
#[inline(always)]
fn namespace_below(
    elements: &ElementTables<'_>,
    name: QName<'_>,
    parent: &OpenElement<'_>,
    near: &mut usize,
) -> Option<u16>
    requires below { MayNameBelow elements.now parent.now (name_view name) }
    requires prefixed { bytes_eq (name_view name).prefix [] ≡ false }
    ensures { FindsElementNamespace elements.entry.now parent.entry.now.scope
        (name_view name.entry) result }
{
    let above = parent.namespace;
    if above != 0 && has_prefix(parent, name.prefix) {
        return Some(above);
    }
    prefixed_namespace(elements, name, parent.scope, near)
}

/// Like `namespace_in_scope`, but in the scope of the parent. Most names have no prefix, like the parent's, or its prefix. Their
/// namespace is that of the parent.
#[inline(always)]
fn tag_namespace(
    elements: &ElementTables<'_>,
    name: QName<'_>,
    parent: &OpenElement<'_>,
    near: &mut usize,
) -> Option<u16>
    requires { MayNameBelow elements.now parent.now (name_view name) }
    ensures { FindsElementNamespace elements.entry.now parent.entry.now.scope
        (name_view name.entry) result }
{
    if name.prefix.is_empty() {
        if !parent.prefixed {
            return Some(parent.namespace);
        }
        return namespace_in_scope(elements, name, parent.scope);
    }
    namespace_below(elements, name, parent, near)
}

/// What a start tag has before its attributes: its name, and at most one declaration, which its scope lists too.
#[derive(Clone, Copy)]
pub struct TagHead<'input> {
    pub name: NameAt<'input>,
    /// The number of the namespace of its name, as rows store it.
    pub namespace: u16,
    /// The scope of the element.
    pub scope: u32,
    /// The offset after the name and the declaration.
    pub end: usize,
}

/// Returns the head of the start tag at `start` that declares nothing, a child of `parent`, if neither name has a prefix. The
/// tag's name is of ASCII bytes and ends at `near`.
#[inline(always)]
fn head_without_prefix<'input>(
    text: &'input str,
    start: usize,
    near: usize,
    parent: &OpenElement<'input>,
) -> TagHead<'input>
    requires here { slice_index text.now start ≡ 60 }
    requires near { EndsNear text.now (start + 1) near }
    requires bare { parent.now.prefixed ≡ false }
    ensures { (t : ElementTables) → MayOpenBelow t parent.entry.now
        → HasHead t parent.entry.now.scope text.entry.now start result }
{
    let local = ascii_name(text, after_byte(text, start, b'<'), near);
    let name = QName { prefix: "", local };
    TagHead {
        name: NameAt { name, end: near },
        namespace: parent.namespace,
        scope: parent.scope,
        end: near,
    }
}

/// Returns the head of the start tag at `start`, whose name has the prefix `run`, of ASCII bytes, up to a colon. See
/// `head_of_run`.
#[inline(always)]
fn head_with_prefix<'input>(
    text: &'input str,
    start: usize,
    run: RunEnd,
    elements: &ElementTables<'input>,
    parent: &OpenElement<'input>,
    near: &mut usize,
) -> Option<TagHead<'input>>
    requires here { MayOpenAt text.now start elements.now parent.now }
    requires prefix { EndsPrefix text.now (start + 1) run }
    ensures { IfSome result
        (λ h. HasHead elements.entry.now parent.entry.now.scope text.entry.now start h) }
{
    let name = name_of_prefix(text, after_byte(text, start, b'<'), run)?;
    let prefix = name.name.prefix;
    // The prefix is never empty here. Testing that once spares later tests.
    if prefix.is_empty() || same_text(prefix, "xmlns") {
        return None;
    }
    let namespace = namespace_below(elements, name.name, parent, near)?;
    Some(TagHead {
        name,
        namespace,
        scope: parent.scope,
        end: name.end,
    })
}

/// Returns the head of the start tag at `start` that declares nothing, a child of `parent`. The first ASCII bytes of its name end
/// as `run` says. Most names are of ASCII bytes, and have a prefix or a parent without one. Returns `None` for other names, and
/// if the prefix is not known or the scope lists many places.
#[inline(always)]
pub fn head_of_run<'input>(
    text: &'input str,
    start: usize,
    run: RunEnd,
    elements: &ElementTables<'input>,
    parent: &OpenElement<'input>,
    near: &mut usize,
) -> Option<TagHead<'input>>
    requires here { MayOpenAt text.now start elements.now parent.now }
    requires run { EndsRun is_part_byte text.now (start + 1) run }
    requires letter { 63 < slice_index text.now (start + 1) }
    ensures { IfSome result
        (λ h. HasHead elements.entry.now parent.entry.now.scope text.entry.now start h) }
{
    let stop = text.as_bytes()[run.at];
    if stop == b':' {
        return head_with_prefix(text, start, run, elements, parent, near);
    }
    if stop > b':' || parent.prefixed {
        return None;
    }
    Some(head_without_prefix(text, start, run.at, parent))
}

/// Returns the name of the start tag at `place`, or `None` if none is there or its prefix is `xmlns`.
#[inline(always)]
pub fn tag_name<'input>(text: &'input str, place: NamePlace) -> Option<NameAt<'input>>
    requires here { slice_index text.now place.start ≡ 60 }
    requires part { Finds text.now (place.start + 1) place.part
        (run_end is_part_char text.now (place.start + 1)) }
    ensures name { IfSome result (λ n. IsPlainName text.entry.now (place.start + 1) n) }
    ensures other { IfSome result
        (λ n. bytes_eq n.name.prefix.now (word_text Xmlns) ≡ false) }
{
    let name = name_of_part(text, after_byte(text, place.start, b'<'), place.part)?;
    if same_text(name.name.prefix, "xmlns") {
        return None;
    }
    Some(name)
}

/// Like `head_of_run`, but for any name: its first part ends at `place.part`.
#[inline(always)]
pub fn head_in_scope<'input>(
    text: &'input str,
    place: NamePlace,
    elements: &ElementTables<'input>,
    parent: &OpenElement<'input>,
    near: &mut usize,
) -> Option<TagHead<'input>>
    requires { MayReadPlainTag text.now place elements.now parent.now }
    ensures { IfSome result
        (λ h. HasHead elements.entry.now parent.entry.now.scope text.entry.now place.start h) }
{
    let name = tag_name(text, place)?;
    let namespace = tag_namespace(elements, name.name, parent, near)?;
    Some(TagHead {
        name,
        namespace,
        scope: parent.scope,
        end: name.end,
    })
}

/// Reads the start tag at `start`, which begins with `head`, if its attributes are plain and find room. They are in the table
/// then. If `None` is returned, the table may have some of them too.
#[inline(always)]
pub fn start_tag<'input>(
    text: &'input str,
    start: usize,
    head: TagHead<'input>,
    elements: &mut ElementTables<'input>,
    context: &Context<'_, 'input>,
    seen: &mut SeenNames,
) -> Option<PlainTag<'input>>
    requires here { slice_index text.now start ≡ 60 }
    requires attributes { MayReadAttributes text.now head.end elements.old false head.scope }
    ensures { (above : ℕ) → HasHead elements.old above text.entry.now start head.entry
        → ReadsTag (AreMainValues context.entry.now) elements.old elements.new above text.entry.now start result }
{
    let from = elements.attributes.len();
    let scope = TagScope {
        scope: head.scope,
        declares: false,
        context,
    };
    let close = tag_attributes(text, head.end, elements, scope, seen)?;
    let NameAt { name, end } = head.name;
    let element = element_of(elements, name.local, from, head.scope, head.namespace);
    let tag = StartTag {
        name,
        name_start: after_byte(text, start, b'<'),
        name_end: end,
        element,
        empty: close.empty,
    };
    Some(PlainTag { tag, end: close.at })
}
