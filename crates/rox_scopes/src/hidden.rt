//! Scopes without the prefixes that a tag declares (Namespaces in XML 1.0, section 6), and what a tag declares in reverse order.

ghost use Rattle.std.specs.Prelude.{◌<◌, None, map, drop, IfOk, length, ◌≤◌};
ghost use Rattle.rox_scopes.specs.NamespaceViews.{namespace_view};
ghost use Rattle.rox_scopes.specs.Scopes.{prefix_view, entries, places_in, others, unlisted, PrefixesOnce};
ghost use Rattle.rox_scopes.specs.Bindings.{FindsIndex, IsBound, bound_place};
ghost use Rattle.rox_scopes.specs.Hidden.{listed_by, AddsBack, AddsRows, MayHide};
ghost use Rattle.rox_scopes.specs.Ropes.{IsScopeOf};
ghost use Rattle.rox_scopes.specs.ScopeRows.{AreScopes};

use crate::bindings::PrefixBindings;
use crate::namespace::Namespace;
use crate::rope::{add, count, find, place_at, stretch, without};
use crate::scope::same_prefix;
use crate::stored_scope::{OwnDeclarations, Scope};
use std::alloc::AllocError;

/// The tables in which prefixes are looked up that a scope lists among many: the namespaces, the listed places, and the bindings
/// of the innermost scope.
#[derive(Clone, Copy)]
pub struct PrefixTables<'a, 'input> {
    pub namespaces: &'a [Namespace<'input>],
    pub listed: &'a [u16],
    pub present: &'a PrefixBindings<'input>,
}

/// Appends what is listed from `from` on once more, in reverse order. Returns the index of a new row that reads it from its back.
pub fn add_back(
    listed: &mut Vec<u16>,
    scopes: &mut Vec<Scope>,
    from: usize,
) -> Result<u32, AllocError>
    requires from { from ≤ length listed.old.items }
    requires scopes { AreScopes (length listed.old.items) scopes.old.items }
    ensures { IfOk result (AddsBack listed.old.items scopes.old.items listed.new.items
        scopes.new.items from) }
{
    let end = listed.len();
    for turn in 0..end - from {
        let place = listed[end - 1 - turn];
        listed.push(place)?;
    }
    let turned = stretch(end, listed.len())?;
    let place = add(scopes, Scope::Back(turned))?;
    Ok(place)
}

/// Returns the index of a place that a scope lists for this prefix, or for the default. It is tried first where the binding of
/// the prefix says, and then from the front.
fn index_of(
    tables: PrefixTables<'_, '_>,
    scopes: &[Scope],
    scope: u32,
    prefix: Option<&str>,
) -> Option<usize>
    requires { MayHide tables scopes.now scope (prefix_view prefix) }
    ensures { FindsIndex tables.entry.namespaces.now
        (places_in tables.entry.listed.now scopes.now scope) (prefix_view prefix.entry) result }
{
    let Some(binding) = tables.present.get(prefix) else {
        return None;
    };
    let guess = binding.listed as usize;
    if let Some(index) = find(scopes, scope, guess) {
        let place = place_at(scopes, tables.listed, scope, index);
        if same_prefix(tables.namespaces[place as usize].name, prefix) {
            return Some(index);
        }
    }
    for index in 0..count(scopes, scope) {
        let place = place_at(scopes, tables.listed, scope, index);
        if same_prefix(tables.namespaces[place as usize].name, prefix) {
            return Some(index);
        }
    }
    None
}

/// Returns a scope that lists what `scope` does except this prefix, or the default for `None`.
fn hide(
    tables: PrefixTables<'_, '_>,
    scopes: &mut Vec<Scope>,
    scope: u32,
    prefix: Option<&str>,
) -> Result<u32, AllocError>
    requires { MayHide tables scopes.old.items scope (prefix_view prefix) }
    ensures { IfOk result (λ s. AddsRows tables.entry scopes.old.items scopes.new.items s
        (unlisted (prefix_view prefix.entry) (listed_by tables.entry scopes.old.items scope))) }
{
    let Some(index) = index_of(tables, scopes, scope, prefix) else {
        return Ok(scope);
    };
    let left = without(scopes, scope, index)?;
    Ok(left)
}

/// Returns a scope that lists what `scope` does except the prefixes that `own` declares.
pub fn hide_own(
    tables: PrefixTables<'_, '_>,
    scopes: &mut Vec<Scope>,
    scope: u32,
    own: OwnDeclarations,
) -> Result<u32, AllocError>
    requires scope { IsScopeOf (length tables.namespaces.now) tables.listed.now scopes.old.items
        scope }
    requires own { own.from ≤ length tables.listed.now }
    requires once { PrefixesOnce (listed_by tables scopes.old.items scope) }
    requires bound { IsBound (map namespace_view tables.namespaces.now)
        (bound_place tables.present.now) (listed_by tables scopes.old.items scope) }
    ensures { IfOk result (λ s. AddsRows tables.entry scopes.old.items scopes.new.items s
        (others (entries (map namespace_view tables.entry.namespaces.now)
        (drop own.from tables.entry.listed.now)) own.xml
        (listed_by tables.entry scopes.old.items scope))) }
{
    let mut left = scope;
    for turn in own.from..tables.listed.len() {
        let place = tables.listed[turn];
        let prefix = tables.namespaces[place as usize].name;
        left = hide(tables, scopes, left, prefix)?;
    }
    if own.xml {
        left = hide(tables, scopes, left, Some("xml"))?;
    }
    Ok(left)
}
