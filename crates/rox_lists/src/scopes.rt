//! The search of a scope for a prefix, and for a URI. For a prefix it goes through the stretches of a rope from leaf to leaf.
//! Access by index would start at the top for each place.

ghost use Rattle.std.specs.Prelude.{◌≡◌, ◌++◌, None, length, map, reverse, option_map};
ghost use Rattle.rox_grammar.specs.Tree.{same_prefix};
ghost use Rattle.rox_scopes.specs.NamespaceViews.{namespace_view};
ghost use Rattle.rox_scopes.specs.Scopes.{prefix_view, entries, places_in, ArePlaces};
ghost use Rattle.rox_scopes.specs.Ropes.{IsScopeOf};
ghost use Rattle.rox_lists.specs.ExpandedNames.{first_prefix, first_with_prefix};

use crate::names::{equal_names, equal_uris};
use crate::namespaces::all_of_scope;
use rox_scopes::namespace::Namespace;
use rox_scopes::stored_scope::{Concat, Scope};

/// Returns whether a namespace has this prefix, or is the default for `None`.
#[inline(always)]
fn has_prefix(namespace: &Namespace<'_>, prefix: Option<&str>) -> bool
    ensures { result ≡ same_prefix (namespace_view namespace.now).prefix
        (prefix_view prefix.entry) }
{
    match (namespace.name(), prefix) {
        (None, None) => true,
        (Some(name), Some(prefix)) => equal_names(name, prefix),
        _ => false,
    }
}

/// Returns the first namespace at these places that has this prefix, or is the default for `None`.
#[inline(always)]
fn first_of<'a, 'input>(
    namespaces: &'a [Namespace<'input>],
    places: &[u16],
    prefix: Option<&str>,
) -> Option<&'a Namespace<'input>>
    requires { ArePlaces (length namespaces.now) places.now }
    ensures { option_map (λ n. namespace_view n.now) result
        ≡ first_with_prefix (prefix_view prefix.entry)
        (entries (map namespace_view namespaces.now) places.now) }
{
    for place in places {
        let namespace = &namespaces[*place as usize];
        if has_prefix(namespace, prefix) {
            return Some(namespace);
        }
    }
    None
}

/// Returns the last namespace at these places that has this prefix, or is the default for `None`. It is the first of a stretch in
/// reverse order.
#[inline(always)]
fn last_of<'a, 'input>(
    namespaces: &'a [Namespace<'input>],
    places: &[u16],
    prefix: Option<&str>,
) -> Option<&'a Namespace<'input>>
    requires { ArePlaces (length namespaces.now) places.now }
    ensures { option_map (λ n. namespace_view n.now) result
        ≡ first_with_prefix (prefix_view prefix.entry)
        (entries (map namespace_view namespaces.now) (reverse places.now)) }
{
    let end = places.len();
    for turn in 0..end {
        let namespace = &namespaces[places[end - 1 - turn] as usize];
        if has_prefix(namespace, prefix) {
            return Some(namespace);
        }
    }
    None
}

/// Returns the first namespace that a scope lists for this prefix, or the default for `None`. It is in line if the scope is one
/// stretch.
#[cycle(scope)]
#[inline(always)]
pub fn first_in_scope<'a, 'input>(
    scopes: &[Scope],
    listed: &[u16],
    namespaces: &'a [Namespace<'input>],
    scope: u32,
    prefix: Option<&str>,
) -> Option<&'a Namespace<'input>>
    requires { IsScopeOf (length namespaces.now) listed.now scopes.now scope }
    ensures { option_map (λ n. namespace_view n.now) result
        ≡ first_with_prefix (prefix_view prefix.entry) (entries (map namespace_view namespaces.now)
        (places_in listed.now scopes.now scope)) }
{
    match scopes[scope as usize] {
        Scope::Few(stretch) => {
            let places = &listed[stretch.from as usize..stretch.until as usize];
            first_of(namespaces, places, prefix)
        }
        Scope::Back(stretch) => {
            let places = &listed[stretch.from as usize..stretch.until as usize];
            last_of(namespaces, places, prefix)
        }
        Scope::Concat(parts) => first_in_parts(scopes, listed, namespaces, parts, prefix),
    }
}

/// Returns the first namespace for this prefix, or the default for `None`, that one of two scopes lists. `parts.first` is
/// searched before `parts.rest`.
#[cycle(scope)]
#[inline(never)]
fn first_in_parts<'a, 'input>(
    scopes: &[Scope],
    listed: &[u16],
    namespaces: &'a [Namespace<'input>],
    parts: Concat,
    prefix: Option<&str>,
) -> Option<&'a Namespace<'input>>
    requires first { IsScopeOf (length namespaces.now) listed.now scopes.now parts.first }
    requires rest { IsScopeOf (length namespaces.now) listed.now scopes.now parts.rest }
    ensures { option_map (λ n. namespace_view n.now) result
        ≡ first_with_prefix (prefix_view prefix.entry) (entries (map namespace_view namespaces.now)
        (places_in listed.now scopes.now parts.first ++ places_in listed.now scopes.now parts.rest)) }
{
    match first_in_scope(scopes, listed, namespaces, parts.first, prefix) {
        Some(namespace) => Some(namespace),
        None => first_in_scope(scopes, listed, namespaces, parts.rest, prefix),
    }
}

/// Returns the prefix of the first namespace at these places that has this URI.
#[inline(always)]
fn prefix_among<'input>(
    namespaces: &[Namespace<'input>],
    places: &[u16],
    uri: &str,
) -> Option<&'input str>
    requires { ArePlaces (length namespaces.now) places.now }
    ensures { option_map (λ s. s.now) result
        ≡ first_prefix uri.now (entries (map namespace_view namespaces.now) places.now) }
{
    for place in places {
        let namespace = &namespaces[*place as usize];
        if equal_uris(namespace.uri(), uri) {
            return namespace.name();
        }
    }
    None
}

/// Returns the prefix of the first namespace with this URI that a scope lists. It is out of line, since few scopes list many.
#[cold]
#[inline(never)]
fn first_of_uri<'input>(
    scopes: &[Scope],
    listed: &[u16],
    namespaces: &[Namespace<'input>],
    scope: u32,
    uri: &str,
) -> Option<&'input str>
    requires { IsScopeOf (length namespaces.now) listed.now scopes.now scope }
    ensures { option_map (λ s. s.now) result
        ≡ first_prefix uri.now (entries (map namespace_view namespaces.now)
        (places_in listed.now scopes.now scope)) }
{
    for namespace in all_of_scope(scopes, listed, namespaces, scope) {
        if namespace.uri() == uri {
            return namespace.name();
        }
    }
    None
}

/// Like `first_of_uri`, but in line if the scope is one stretch in order.
#[inline(always)]
pub fn prefix_in_scope<'input>(
    scopes: &[Scope],
    listed: &[u16],
    namespaces: &[Namespace<'input>],
    scope: u32,
    uri: &str,
) -> Option<&'input str>
    requires { IsScopeOf (length namespaces.now) listed.now scopes.now scope }
    ensures { option_map (λ s. s.now) result
        ≡ first_prefix uri.now (entries (map namespace_view namespaces.now)
        (places_in listed.now scopes.now scope)) }
{
    if let Scope::Few(stretch) = scopes[scope as usize] {
        let places = &listed[stretch.from as usize..stretch.until as usize];
        return prefix_among(namespaces, places, uri);
    }
    first_of_uri(scopes, listed, namespaces, scope, uri)
}
