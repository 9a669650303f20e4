//! What the tables of a document do that no clause says and no public call shows: ropes stay low.

ghost use Rattle.std.specs.Prelude.{◌<◌, IfOk};
ghost use Rattle.rox_scopes.specs.Ropes.{IsRow};
ghost use Rattle.rox_scopes.specs.ScopeRows.{AreRows};

use super::same;
use rox_scopes::rope::{add, both, count, find, height, without};
use rox_scopes::stored_scope::{Scope, Stretch};
use std::alloc::AllocError;

/// How many stretches are joined.
const MANY: u32 = 4000;

/// A row of one place in front of what a scope lists.
fn with_one(scopes: &mut Vec<Scope>, from: u32, scope: u32) -> Result<u32, AllocError>
    requires few { from < 4000 }
    requires scope { IsRow scopes.old.items scope }
    ensures { IfOk result (λ s. IsRow scopes.new.items s) }
{
    let one = Stretch {
        from,
        until: from + 1,
    };
    let own = add(scopes, Scope::Back(one))?;
    both(scopes, own, scope)
}

/// Returns a scope of 4,000 stretches of one place, the last first, as nested elements make that declare one prefix each.
fn nested(scopes: &mut Vec<Scope>) -> Result<u32, AllocError>
    requires { AreRows scopes.old.items }
    ensures { IfOk result (λ s. IsRow scopes.new.items s) }
{
    let none = Stretch { from: 0, until: 0 };
    let mut scope = add(scopes, Scope::Back(none))?;
    for from in 0..MANY {
        scope = with_one(scopes, from, scope)?;
    }
    Ok(scope)
}

/// What a scope lists, without the first of every two.
fn halved(scopes: &mut Vec<Scope>, scope: u32) -> Result<u32, AllocError>
    requires { IsRow scopes.old.items scope }
    ensures { IfOk result (λ s. IsRow scopes.new.items s) }
{
    let mut left = scope;
    for index in 0..2000 {
        if index < count(scopes, left) {
            left = without(scopes, left, index)?;
        }
    }
    Ok(left)
}

#[test]
fn ropes_stay_low(rt: HostRuntime) {
    let mut scopes = Vec::new(rt.alloc());
    let scope = nested(&mut scopes).ok().expect(&rt, "out of memory");
    same(&rt, "count", count(&scopes, scope), 4000);
    same(&rt, "is low", height(&scopes, scope) < 18, true);
    same(&rt, "the last", find(&scopes, scope, 3999), Some(0));
    same(&rt, "the second", find(&scopes, scope, 1), Some(3998));
    let left = halved(&mut scopes, scope).ok().expect(&rt, "out of memory");
    same(&rt, "count", count(&scopes, left), 2000);
    same(&rt, "is low", height(&scopes, left) < 18, true);
    same(&rt, "the last", find(&scopes, left, 3998), Some(0));
    same(&rt, "one left out", find(&scopes, left, 3999), None);
}
