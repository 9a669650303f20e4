//! Start tags, below the root element, that have one declaration, before their attributes, by the fast path. They are read if one
//! of the last scopes lists just that declaration and what the parent lists: elements that are siblings often declare the same.
//! Only the table of attributes changes then.

ghost use Rattle.std.specs.Prelude.{◌≡◌, IfSome, length, true};
ghost use Rattle.rox_grammar.specs.Failures.{name_view};
ghost use Rattle.rox_grammar.specs.Written.{is_namespace_decl};
ghost use Rattle.rox_scopes.specs.Scopes.{ArePlaces, pair, prefix_view};
ghost use Rattle.rox_names.specs.TagDeclarations.{unresolved_view};
ghost use Rattle.rox_tags.specs.PlainParts.{MayReadPlainTag};
ghost use Rattle.rox_attributes.specs.PlainAttribute.{HasScope};
ghost use Rattle.rox_tags.specs.TagHeads.{HasHead};
ghost use Rattle.rox_tags.specs.Repeating.{AreOneMore, IsRepeated, Repeats};

use crate::own_declaration::declaration_after;
use crate::quick_tag::{TagHead, namespace_in_scope, tag_name};
use rox_compare::compare::same_text;
use rox_names::open_element::OpenElement;
use rox_names::tables::ElementTables;
use rox_names::unresolved_attribute::UnresolvedAttribute;
use rox_scopes::namespace::Namespace;
use rox_scopes::scope::{few_places, is_declared, is_xml, same_prefix};
use rox_verbatim::quick_name::NamePlace;

/// The number of scopes that are tried, from the last one on.
const TRIED: usize = 8;

/// Returns true only if these places are that of a namespace of this prefix and URI, and then `around`.
#[inline(always)]
fn are_one_more(
    namespaces: &[Namespace<'_>],
    places: &[u16],
    prefix: Option<&str>,
    uri: &str,
    around: &[u16],
) -> bool
    requires { ArePlaces (length namespaces.now) places.now }
    ensures { result ≡ true → AreOneMore namespaces.now places.now (pair (prefix_view prefix.entry) uri.now) around.now }
{
    if places.len() != around.len() + 1 {
        return false;
    }
    let first = &namespaces[places[0] as usize];
    if !same_text(first.uri(), uri) || !same_prefix(first.name(), prefix) {
        return false;
    }
    &places[1..] == around
}

/// Returns one of the last scopes that lists the namespace of this prefix and URI, and then what the scope `above` lists. That
/// does not list the prefix.
fn repeated_scope(
    elements: &ElementTables<'_>,
    above: u32,
    prefix: Option<&str>,
    uri: &str,
) -> Option<u32>
    requires { HasScope elements.now above }
    ensures { IfSome result (λ n. IsRepeated elements.now above (pair (prefix_view prefix.entry) uri.now) n) }
{
    let around = few_places(&elements.scopes, &elements.listed, above)?;
    let namespaces = elements.namespaces.as_slice();
    if is_declared(namespaces, around, prefix) {
        return None;
    }
    let count = elements.scopes.len();
    for turn in 0..TRIED {
        if turn >= count || count - 1 - turn > u32::MAX as usize {
            return None;
        }
        let scope = (count - 1 - turn) as u32;
        if let Some(places) = few_places(&elements.scopes, &elements.listed, scope) {
            if are_one_more(namespaces, places, prefix, uri, around) {
                return Some(scope);
            }
        }
    }
    None
}

/// Returns the scope of a tag that has the declaration `one` and no other, if it is in order and one of the last scopes is that of
/// another such tag.
#[inline(always)]
fn scope_repeating<'input>(
    elements: &ElementTables<'input>,
    above: u32,
    one: &UnresolvedAttribute<'input>,
) -> Option<u32>
    requires scope { HasScope elements.now above }
    requires declares { is_namespace_decl (name_view one.now.name) ≡ true }
    ensures { IfSome result (λ n. Repeats elements.now above (unresolved_view one.now) n) }
{
    if one.test_uri().is_err() {
        return None;
    }
    let prefix = one.declared_prefix();
    if is_xml(prefix) {
        return None;
    }
    repeated_scope(elements, above, prefix, one.value.as_str())
}

/// Returns the head of the start tag at `place`, a child of `parent`, if it has one declaration, before its attributes, as an
/// earlier tag below the same namespaces had. The element has the scope of that tag.
#[inline(always)]
pub fn head_repeating<'input>(
    text: &'input str,
    place: NamePlace,
    elements: &ElementTables<'input>,
    parent: &OpenElement<'input>,
) -> Option<TagHead<'input>>
    requires { MayReadPlainTag text.now place elements.now parent.now }
    ensures { IfSome result
        (λ h. HasHead elements.entry.now parent.entry.now.scope text.entry.now place.start h) }
{
    let name = tag_name(text, place)?;
    let one = declaration_after(text, name.end)?;
    let scope = scope_repeating(elements, parent.scope, &one)?;
    let namespace = namespace_in_scope(elements, name.name, scope)?;
    Some(TagHead {
        name,
        namespace,
        scope,
        end: one.end,
    })
}
