//! Namespaces in scope (Namespaces in XML 1.0, section 6). The table of namespaces has the distinct pairs of a prefix, or the
//! default, and a URI. A namespace is named by its index there, which is called its place. An element lists a row of places.

ghost use Rattle.std.specs.Prelude.{◌≡◌, ◌<◌, ◌++◌, ℕ, List, length, map, drop, slice_range, false, OnOk, Some, None, ◌&&◌, ◌||◌};
ghost use Rattle.rox_grammar.specs.Tree.{same_prefix, is_declared, is_xml};
ghost use Rattle.rox_scopes.specs.NamespaceViews.{namespace_view};
ghost use Rattle.rox_scopes.specs.Scopes.{prefix_view, entries, ArePlaces, others};
ghost use Rattle.rox_scopes.specs.PrefixSet.{HasPrefixes, IsBelowFew};
ghost use Rattle.rox_scopes.specs.Ropes.{GivesFew, IsScope};
ghost use Rattle.rox_scopes.specs.Bindings.{FindsPlace, LooksUp, LooksWithin, places_view};

use crate::bindings::PrefixBindings;
use crate::namespace::Namespace;
use crate::prefix_set::{FEW, has_prefix};
use crate::stored_scope::{OwnDeclarations, Scope, Stretch};
use rox_compare::compare::same_text;
use std::alloc::AllocError;
use std::collections::BTreeSet;

/// The URI of the prefix `xml`.
pub const XML_URI: &str = "http://www.w3.org/XML/1998/namespace";

/// The URI of the prefix `xmlns`.
pub const XMLNS_URI: &str = "http://www.w3.org/2000/xmlns/";

/// Returns whether two prefixes are equal. Two defaults are.
#[inline(always)]
pub fn same_prefix(one: Option<&str>, other: Option<&str>) -> bool
    ensures { result ≡ same_prefix (prefix_view one.entry) (prefix_view other.entry) }
{
    match (one, other) {
        (None, None) => true,
        (Some(one), Some(other)) => same_text(one, other),
        _ => false,
    }
}

/// Returns the listed places of a scope that lists few; otherwise `None`.
#[inline(always)]
pub fn few_places<'a>(scopes: &[Scope], listed: &'a [u16], scope: u32) -> Option<&'a [u16]>
    requires { IsScope listed.now scopes.now scope }
    ensures { GivesFew listed.now scopes.now scope result }
{
    match scopes[scope as usize] {
        Scope::Few(stretch) => Some(&listed[stretch.from as usize..stretch.until as usize]),
        _ => None,
    }
}

/// Returns the first of these places whose namespace has this prefix, or is the default for `None`. It stores the index of that
/// place in `near`. It is out of line. In line, it would make the code that reads an attribute too large to be in line itself,
/// which most attributes would pay for.
#[inline(never)]
pub fn find_in_order(
    namespaces: &[Namespace<'_>],
    places: &[u16],
    prefix: Option<&str>,
    near: &mut usize,
) -> Option<u16>
    requires { ArePlaces (length namespaces.now) places.now }
    ensures { FindsPlace namespaces.now places.now (prefix_view prefix.entry) result }
{
    for (index, place) in places.iter().enumerate() {
        if same_prefix(namespaces[*place as usize].name, prefix) {
            *near = index;
            return Some(*place);
        }
    }
    None
}

/// Returns the place of a prefix: the first among the places `few`, or that of its binding in `present` if `few` is `None`.
#[inline(always)]
pub fn find_prefix(
    namespaces: &[Namespace<'_>],
    few: Option<&[u16]>,
    present: &PrefixBindings<'_>,
    prefix: &str,
) -> Option<u16>
    requires { LooksWithin (length namespaces.now) (places_view few) present.now }
    ensures { LooksUp namespaces.now (places_view few.entry) present.now (Some prefix.now) result }
{
    match few {
        Some(places) => find_in_order(namespaces, places, Some(prefix), &mut 0),
        None => present.find(Some(prefix)),
    }
}

/// Returns the place of the default: the first among the places `few`, or that of its binding in `present` if `few` is `None`.
#[inline(always)]
pub fn find_default(
    namespaces: &[Namespace<'_>],
    few: Option<&[u16]>,
    present: &PrefixBindings<'_>,
) -> Option<u16>
    requires { LooksWithin (length namespaces.now) (places_view few) present.now }
    ensures { LooksUp namespaces.now (places_view few.entry) present.now None result }
{
    match few {
        Some(places) => find_in_order(namespaces, places, None, &mut 0),
        None => match present.get(None) {
            Some(place) => Some(place.namespace),
            None => None,
        },
    }
}

/// Returns whether one of these namespaces has this prefix, or is the default for `None`.
#[inline(always)]
#[tactic(auto, using(crate::proofs::Pairs::declared_some, crate::proofs::Pairs::declared_none))]
pub fn is_declared(namespaces: &[Namespace<'_>], places: &[u16], prefix: Option<&str>) -> bool
    requires { ArePlaces (length namespaces.now) places.now }
    ensures { result ≡ is_declared (prefix_view prefix.entry)
        (entries (map namespace_view namespaces.now) places.now) }
{
    match find_in_order(namespaces, places, prefix, &mut 0) {
        Some(_) => true,
        None => false,
    }
}

/// Returns whether this is the prefix `xml`.
#[inline]
pub fn is_xml(prefix: Option<&str>) -> bool
    ensures { result ≡ is_xml (prefix_view prefix.entry) }
{
    match prefix {
        Some(prefix) => same_text(prefix, "xml"),
        None => false,
    }
}

/// Returns whether an element declares this prefix. It declares the namespaces at the places `own`, and `xml` if the flag is
/// true. `prefix_set` has its prefixes if they are more than `FEW`.
#[inline(always)]
pub fn is_own<'a>(
    namespaces: &[Namespace<'a>],
    own: &[u16],
    prefix_set: &BTreeSet<Option<&'a str>>,
    xml: bool,
    prefix: Option<&'a str>,
) -> bool
    requires { HasPrefixes namespaces.now own.now prefix_set.now.keys }
    ensures { result ≡ (is_declared (prefix_view prefix.entry)
        (entries (map namespace_view namespaces.now) own.now)
        || (xml && is_xml (prefix_view prefix.entry))) }
{
    if xml && is_xml(prefix) {
        return true;
    }
    if own.len() > FEW {
        return has_prefix(prefix_set, prefix);
    }
    is_declared(namespaces, own, prefix)
}

/// Lists what an element inherits, after its own declarations: those of the stretch `above`, the list of its parent, whose
/// prefixes it does not declare.
pub fn inherit<'a>(
    namespaces: &[Namespace<'a>],
    listed: &mut Vec<u16>,
    own: OwnDeclarations,
    prefix_set: &BTreeSet<Option<&'a str>>,
    above: Stretch,
) -> Result<(), AllocError>
    requires { IsBelowFew namespaces.now listed.old.items prefix_set.now.keys above own.from }
    ensures { OnOk result ((more : List ℕ) × (listed.new.items ≡ listed.old.items ++ more)
        × ArePlaces (length namespaces.now) more
        × (entries (map namespace_view namespaces.now) more
        ≡ others (entries (map namespace_view namespaces.now) (drop own.from listed.old.items))
        own.xml (entries (map namespace_view namespaces.now)
        (slice_range listed.old.items above.from above.until)))) }
{
    let end = listed.len();
    for turn in above.from as usize..above.until as usize {
        let place = listed[turn];
        if !is_own(
            namespaces,
            &listed[own.from..end],
            prefix_set,
            own.xml,
            namespaces[place as usize].name,
        ) {
            listed.push(place)?;
        }
    }
    Ok(())
}
