//! The namespaces that an element lists.

ghost use Rattle.std.specs.Prelude.{◌≡◌, ◌<◌, ◌^◌, [], length, map};
ghost use Rattle.rox_grammar.specs.AtIndex.{namespace_at};
ghost use Rattle.rox_scopes.specs.NamespaceViews.{namespace_view};
ghost use Rattle.rox_scopes.specs.Scopes.{places_in};
ghost use Rattle.rox_scopes.specs.Ropes.{IsScopeOf};

use crate::debug::write_list;
use rox_scopes::namespace::Namespace;
use rox_scopes::rope::{count, place_at};
use rox_scopes::stored_scope::Scope;
use std::alloc::AllocError;
use std::fmt;
use std::marker::Model;

/// An iterator, from both ends, over the namespaces of one element that are left.
///
/// ```
/// let document = Document::parse(alloc, "<r xmlns='urn:d' xmlns:p='urn:p'/>")?;
/// let mut namespaces = document.root_element().namespaces();
/// let first = namespaces.next().expect(&rt, "a namespace");
/// assert!(rt; first.name().is_none());
/// assert!(rt; first.uri() == "urn:d");
/// ```
#[derive(Drop)]
pub struct NamespaceIter<'a, 'input> {
    scopes: &'a [Scope],
    listed: &'a [u16],
    namespaces: &'a [Namespace<'input>],
    scope: u32,
    // the namespaces at the indices `from..until` of what the scope lists are left
    from: usize,
    until: usize,
}

impl<'a, 'input> Model for NamespaceIter<'a, 'input> {
    ghost use Rattle.std.specs.Prelude.{List};
    ghost use Rattle.rox_grammar.specs.Written.{NamespaceDecl};
    ghost use Rattle.rox_lists.specs.ElementLists.{namespace_decls_code, namespaces_left, NamespacesWithin};

    ghost Value = { List NamespaceDecl };

    ghost coded = { namespace_decls_code };

    ghost view = { namespaces_left };

    ghost invariant = { NamespacesWithin };
}

/// Returns an iterator over all namespaces that a scope lists.
#[inline]
#[tactic(auto, using(crate::proofs::Ends::whole, rox_scopes::proofs::Ropes::count_places))]
pub fn all_of_scope<'a, 'input>(
    scopes: &'a [Scope],
    listed: &'a [u16],
    namespaces: &'a [Namespace<'input>],
    scope: u32,
) -> NamespaceIter<'a, 'input>
    requires { IsScopeOf (length namespaces.now) listed.now scopes.now scope }
    ensures value { result ≡ map (namespace_at (map namespace_view namespaces.now))
        (places_in listed.now scopes.now scope) }
    ensures few { length result < 2 ^ 64 }
{
    NamespaceIter {
        scopes,
        listed,
        namespaces,
        scope,
        from: 0,
        until: count(scopes, scope),
    }
}

/// Returns an empty iterator: nodes that are not elements list nothing.
#[inline]
pub fn no_namespaces<'a, 'input>() -> NamespaceIter<'a, 'input>
    ensures { result ≡ [] }
{
    NamespaceIter {
        scopes: &[],
        listed: &[],
        namespaces: &[],
        scope: 0,
        from: 0,
        until: 0,
    }
}

impl<'a, 'input> NamespaceIter<'a, 'input> {
    ghost use Rattle.std.specs.Prelude.{◌≡◌};

    /// Returns an iterator over the namespaces that are left.
    fn copy(&self) -> NamespaceIter<'a, 'input>
        ensures { result ≡ self.now }
    {
        NamespaceIter {
            scopes: self.scopes,
            listed: self.listed,
            namespaces: self.namespaces,
            scope: self.scope,
            from: self.from,
            until: self.until,
        }
    }
}

impl Clone for NamespaceIter<'_, '_> {
    ghost use Rattle.std.specs.Prelude.{◌≡◌, ⊤};

    ghost is_clone = { λ namespaces copy. copy ≡ namespaces };

    ghost is_infallible = { λ _. ⊤ };

    fn clone(&self) -> Result<Self, AllocError> {
        Ok(self.copy())
    }
}

impl fmt::Debug for NamespaceIter<'_, '_> {
    fn fmt<W: fmt::Write>(&self, f: &mut fmt::Formatter<W>) -> fmt::Result {
        write_list(f, "NamespaceIter(", self.copy())
    }
}

impl<'a, 'input> Iterator for NamespaceIter<'a, 'input> {
    type Item = &'a Namespace<'input>;

    ghost use Rattle.std.specs.Prelude.{Some, IfSome, length};
    ghost use Rattle.std.specs.Iterator.{YieldsFirstBy, item_count, UpTo};
    ghost use Rattle.std.specs.Iterator.SizeHint.{IsWithinCount};

    ghost next_gives = { YieldsFirstBy (λ n. namespace_view n.now) (λ s. s) };

    ghost remaining = { item_count (λ s. s) };

    #[inline]
    #[tactic(auto, using(crate::proofs::Ends::length_stretch))]
    fn next(&mut self) -> Option<&'a Namespace<'input>> {
        if self.from == self.until {
            return None;
        }
        let namespaces = self.namespaces;
        let place = place_at(self.scopes, self.listed, self.scope, self.from);
        self.from += 1;
        Some(&namespaces[place as usize])
    }

    fn size_hint(&self) -> (usize, Option<usize>)
        ensures lower { IsWithinCount result.0 (item_count (λ s. s) self.now) }
        ensures upper { IfSome result.1 (UpTo (item_count (λ s. s) self.now)) }
        ensures exact { result ≡ (length self.now, Some (length self.now)) }
    {
        let left = self.len();
        (left, Some(left))
    }
}

impl<'a, 'input> DoubleEndedIterator for NamespaceIter<'a, 'input> {
    ghost use Rattle.std.specs.Iterator.{YieldsLastBy};

    ghost next_back_gives = { YieldsLastBy (λ n. namespace_view n.now) (λ s. s) };

    #[inline]
    #[tactic(auto, using(crate::proofs::Ends::length_stretch))]
    fn next_back(&mut self) -> Option<&'a Namespace<'input>> {
        if self.from == self.until {
            return None;
        }
        let namespaces = self.namespaces;
        let last = self.until - 1;
        let place = place_at(self.scopes, self.listed, self.scope, last);
        self.until = last;
        Some(&namespaces[place as usize])
    }
}

impl ExactSizeIterator for NamespaceIter<'_, '_> {
    #[tactic(auto, using(crate::proofs::Ends::length_stretch))]
    fn len(&self) -> usize {
        self.until - self.from
    }
}
