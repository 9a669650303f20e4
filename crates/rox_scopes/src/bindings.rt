//! The binding of each prefix for a scope that lists many namespaces. It is a map for the innermost scope, with what was replaced
//! in it: the bindings of the scopes around. These are restored when one of those scopes is asked for.

ghost use Rattle.std.specs.Prelude.{◌≡◌, ◌<◌, ◌-◌, List, Option, Some, None, true, length, map, reverse, slice_range, OnOk, [], ◌≤◌};
ghost use Rattle.rox_grammar.specs.Written.{NamespaceDecl};
ghost use Rattle.rox_grammar.specs.AtIndex.{scope_at};
ghost use Rattle.rox_scopes.specs.ScopeRows.{lists_of};
ghost use Rattle.rox_scopes.specs.NamespaceViews.{namespace_view};
ghost use Rattle.rox_scopes.specs.Scopes.{prefix_view, entries, ArePlaces};
ghost use Rattle.rox_scopes.specs.Ropes.{IsScopeOf};

use crate::namespace::Namespace;
use crate::rope::{count, position_at};
use crate::stored_scope::{OwnDeclarations, Scope};
use rox_growth::growth::push;
use std::alloc::{AllocError, Global};
use std::collections::BTreeMap;

/// The binding of a prefix, or of the default. `namespace` is a place, and `listed` the index where it was among the listed
/// places. That index is a guess, since the place may be listed anew: no contract states it.
#[derive(Clone, Copy)]
pub struct Binding {
    pub namespace: u16,
    pub listed: u32,
}

/// A prefix, or the default, that has another binding in a scope than around it, and its binding around.
#[derive(Clone, Copy)]
pub struct ShadowedBinding<'input> {
    pub prefix: Option<&'input str>,
    pub before: Option<Binding>,
}

/// An entered scope, by its index in the table of scopes, and the number of bindings that were replaced up to it.
#[derive(Clone, Copy)]
pub struct ScopeFrame {
    pub scope: u32,
    pub count: usize,
}

/// The bindings of the innermost scope that was asked for.
#[derive(Drop)]
pub struct PrefixBindings<'input> {
    /// The binding of the default.
    pub default: Option<Binding>,
    /// The binding of each prefix.
    pub prefixes: BTreeMap<&'input str, Option<Binding>>,
    /// The replaced bindings, the latest last.
    pub replaced: Vec<ShadowedBinding<'input>>,
    /// The entered scopes, the innermost last.
    pub layers: Vec<ScopeFrame>,
}

impl<'input> PrefixBindings<'input> {
    ghost use Rattle.std.specs.Prelude.{◌&&◌};
    ghost use Rattle.rox_scopes.specs.Bindings.{bound_place, place_in, AreBindingsOf, BindsListed, IsBound, IsEntered, LeavesInner, LeavesScope, MakesInnermost, PutsPlace, SetsPlace, TellsInnermost};
    ghost use Rattle.rox_scopes.specs.declared.bindings.ScopeFrame.{ScopeFrame};

    /// Returns the bindings of no scope.
    pub fn new(alloc: Global) -> PrefixBindings<'input>
        ensures { (namespaces : List NamespaceDecl) (lists : List (List NamespaceDecl))
            → AreBindingsOf namespaces lists result }
    {
        PrefixBindings {
            default: None,
            prefixes: BTreeMap::new(alloc),
            replaced: Vec::new(alloc),
            layers: Vec::new(alloc),
        }
    }

    /// Returns true only if no scope is entered.
    #[inline(always)]
    pub fn is_of_none(&self) -> bool
        ensures { result ≡ true
            → (namespaces : List NamespaceDecl) (lists : List (List NamespaceDecl))
            → AreBindingsOf namespaces lists self.now }
    {
        self.layers.is_empty()
    }

    /// Returns the binding of a prefix, or of the default for `None`.
    #[inline]
    pub fn get(&self, prefix: Option<&str>) -> Option<Binding>
        ensures { result ≡ place_in self.now (prefix_view prefix.entry) }
    {
        match prefix {
            None => self.default,
            Some(prefix) => match self.prefixes.get(prefix) {
                Some(place) => *place,
                None => None,
            },
        }
    }

    /// Returns the place of a prefix, or of the default for `None`.
    #[inline(never)]
    pub fn find(&self, prefix: Option<&str>) -> Option<u16>
        ensures { result ≡ bound_place self.now (prefix_view prefix.entry) }
    {
        match self.get(prefix) {
            Some(place) => Some(place.namespace),
            None => None,
        }
    }

    /// Gives a prefix, or the default, this binding.
    fn set(&mut self, prefix: Option<&'input str>, place: Option<Binding>) -> Result<(), AllocError>
        ensures { SetsPlace (prefix_view prefix.entry) place self.old self.new result }
    {
        match prefix {
            None => {
                self.default = place;
                Ok(())
            }
            Some(prefix) => match self.prefixes.insert(prefix, place) {
                Ok(_) => Ok(()),
                Err(_) => Err(AllocError),
            },
        }
    }

    /// Like `set`, but records the replaced binding, so that `leave` can restore it.
    fn put(&mut self, prefix: Option<&'input str>, place: Option<Binding>) -> Result<(), AllocError>
        ensures { OnOk result (PutsPlace (prefix_view prefix.entry) place self.old self.new) }
    {
        let before = self.get(prefix);
        push(&mut self.replaced, ShadowedBinding { prefix, before })?;
        self.set(prefix, place)?;
        Ok(())
    }

    /// Leaves the innermost scope: restores the bindings of the scope around it, if there is one.
    fn leave(&mut self) -> Result<(), AllocError>
        ensures { OnOk result (LeavesScope self.old self.new) }
    {
        let _ = self.layers.pop();
        let Some(around) = self.layers.last() else {
            return Ok(());
        };
        let count = around.count;
        for _turn in count..self.replaced.len() {
            if let Some(last) = self.replaced.pop() {
                self.set(last.prefix, last.before)?;
            }
        }
        Ok(())
    }

    /// Leaves scopes until `scope` is the innermost, or none is left.
    fn leave_inner(&mut self, scope: u32) -> Result<(), AllocError>
        ensures { LeavesInner scope self.old self.new result }
    {
        for _turn in 0..self.layers.len() {
            if self.is_in(scope) {
                return Ok(());
            }
            self.leave()?;
        }
        Ok(())
    }

    /// Returns whether `scope` is the innermost scope.
    fn is_in(&self, scope: u32) -> bool
        ensures { TellsInnermost scope self.now result }
    {
        match self.layers.last() {
            Some(layer) => layer.count == self.replaced.len() && layer.scope == scope,
            None => false,
        }
    }

    /// Binds the prefix of the namespace that is listed at the index `position`.
    fn bind(
        &mut self,
        namespaces: &[Namespace<'input>],
        listed: &[u16],
        position: usize,
    ) -> Result<(), AllocError>
        requires places { ArePlaces (length namespaces.now) listed.now }
        requires within { position < length listed.now }
        ensures { OnOk result (BindsListed (map namespace_view namespaces.now) listed.now position
            self.old self.new) }
    {
        let namespace = listed[position];
        let place = Binding {
            namespace,
            listed: position.min(u32::MAX as usize) as u32,
        };
        self.put(namespaces[namespace as usize].name, Some(place))?;
        Ok(())
    }

    /// Leaves all scopes.
    fn clear(&mut self)
        ensures bound { (namespaces : List NamespaceDecl)
            → IsBound namespaces (bound_place self.new) [] }
        ensures keeps { (namespaces : List NamespaceDecl) (lists : List (List NamespaceDecl))
            → AreBindingsOf namespaces lists self.new }
    {
        self.default = None;
        self.prefixes.clear();
        self.replaced.clear();
        self.layers.clear();
    }

    /// Makes `scope` the innermost scope. Leaves the scopes inside it; if it was not entered, leaves all and binds what it lists.
    /// If a scope lists a prefix twice, the first has its binding.
    pub fn make_innermost(
        &mut self,
        namespaces: &[Namespace<'input>],
        listed: &[u16],
        scopes: &[Scope],
        scope: u32,
    ) -> Result<(), AllocError>
        requires { IsScopeOf (length namespaces.now) listed.now scopes.now scope }
        ensures { MakesInnermost (map namespace_view namespaces.now)
            (lists_of (map namespace_view namespaces.now) listed.now scopes.now) scope
            self.old self.new result }
    {
        self.leave_inner(scope)?;
        if self.is_in(scope) {
            return Ok(());
        }
        self.clear();
        let many = count(scopes, scope);
        for turn in 0..many {
            let position = position_at(scopes, listed, scope, many - 1 - turn);
            self.bind(namespaces, listed, position)?;
        }
        let count = self.replaced.len();
        push(&mut self.layers, ScopeFrame { scope, count })?;
        Ok(())
    }

    /// Enters a scope inside the innermost one. `own` are the declarations of its element, listed in reverse order.
    pub fn enter(
        &mut self,
        namespaces: &[Namespace<'input>],
        listed: &[u16],
        own: OwnDeclarations,
        scope: u32,
    ) -> Result<(), AllocError>
        requires places { ArePlaces (length namespaces.now) listed.now }
        requires stretch { own.from ≤ length listed.now }
        ensures { OnOk result ((lists : List (List NamespaceDecl)) (above : List NamespaceDecl)
            → AreBindingsOf (map namespace_view namespaces.now) lists self.old
            → IsBound (map namespace_view namespaces.now) (bound_place self.old) above
            → IsEntered (entries (map namespace_view namespaces.now)
            (reverse (slice_range listed.now own.from (length listed.now)))) own.xml above lists
            scope
            → AreBindingsOf (map namespace_view namespaces.now) lists self.new
            × IsBound (map namespace_view namespaces.now) (bound_place self.new)
            (scope_at lists scope)) }
    {
        if own.xml {
            self.put(Some("xml"), None)?;
        }
        for position in own.from..listed.len() {
            self.bind(namespaces, listed, position)?;
        }
        let count = self.replaced.len();
        push(&mut self.layers, ScopeFrame { scope, count })?;
        Ok(())
    }
}
