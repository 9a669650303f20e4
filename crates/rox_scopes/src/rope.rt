//! Scopes that list many namespaces: ropes of stretches of the listed places. A row is a leaf or joins two earlier rows, so that
//! a scope shares what it inherits with its parent's.

ghost use Rattle.std.specs.Prelude.{◌≡◌, ◌<◌, ◌≤◌, ◌+◌, ◌-◌, ◌++◌, length, take, drop, reverse, slice_range, IfOk, IfSome, slice_index, ℕ};
ghost use Rattle.rox_scopes.specs.ScopeRows.{count_at};
ghost use Rattle.rox_scopes.specs.Scopes.{places_in, ArePlaces};
ghost use Rattle.rox_scopes.specs.Ropes.{AddsRow, AreJoinable, IsAmongScope, IsAmongStretch, IsPositionOf, IsRope, IsRow, Joins};

use crate::stored_scope::{Concat, Scope, Stretch};
use rox_growth::growth::push;
use std::alloc::AllocError;

/// The most scopes that the table holds: the index of each fits in a `u32`.
const MOST_SCOPES: usize = 4294967296;

/// The most places that all scopes list: the ends of each stretch fit in a `u32`.
const MOST_LISTED: usize = 4294967295;

/// The most places that one scope lists. More never occur: each prefix is listed once, and there are at most 65,535 pairs.
const MOST_OF_SCOPE: usize = 65535;

/// Returns how many places a scope lists.
#[inline]
pub fn count(scopes: &[Scope], scope: u32) -> usize
    requires { IsRow scopes.now scope }
    ensures { result ≡ count_at scopes.now scope }
{
    match scopes[scope as usize] {
        Scope::Few(stretch) => (stretch.until - stretch.from) as usize,
        Scope::Back(stretch) => (stretch.until - stretch.from) as usize,
        Scope::Concat(both) => both.count as usize,
    }
}

/// Returns the height of a rope. No contract states it: it decides only how ropes are balanced.
pub fn height(scopes: &[Scope], scope: u32) -> u8
    requires { scope < length scopes.now }
{
    match scopes[scope as usize] {
        Scope::Concat(both) => both.height,
        _ => 0,
    }
}

/// Returns the lowest index into the listed places of the last leaf. No contract states it: it only guides `find`.
fn low(scopes: &[Scope], scope: u32) -> usize
    requires { IsRow scopes.now scope }
{
    match scopes[scope as usize] {
        Scope::Few(stretch) => stretch.from as usize,
        Scope::Back(stretch) => stretch.from as usize,
        Scope::Concat(both) => low(scopes, both.rest),
    }
}

/// Returns the index into `listed` of the place that a scope lists at `index`.
pub fn position_at(scopes: &[Scope], listed: &[u16], scope: u32, index: usize) -> usize
    requires { IsAmongScope listed.now scopes.now scope index }
    ensures { IsPositionOf listed.now scopes.now scope index result }
{
    match scopes[scope as usize] {
        Scope::Few(stretch) => stretch.from as usize + index,
        Scope::Back(stretch) => stretch.until as usize - 1 - index,
        Scope::Concat(parts) => {
            let before = count(scopes, parts.first);
            if index < before {
                return position_at(scopes, listed, parts.first, index);
            }
            position_at(scopes, listed, parts.rest, index - before)
        }
    }
}

/// Like `position_at`. Most scopes are one stretch from its front: no call is made for them.
#[inline(always)]
fn fast_position_at(scopes: &[Scope], listed: &[u16], scope: u32, index: usize) -> usize
    requires { IsAmongScope listed.now scopes.now scope index }
    ensures { IsPositionOf listed.now scopes.now scope index result }
{
    match scopes[scope as usize] {
        Scope::Few(stretch) => stretch.from as usize + index,
        _ => position_at(scopes, listed, scope, index),
    }
}

/// Returns the place that a scope lists at `index`.
#[inline]
pub fn place_at(scopes: &[Scope], listed: &[u16], scope: u32, index: usize) -> u16
    requires { IsAmongScope listed.now scopes.now scope index }
    ensures value { result ≡ slice_index (places_in listed.now scopes.now scope) index }
    ensures place { (n : ℕ) → ArePlaces n listed.now → result < n }
{
    listed[fast_position_at(scopes, listed, scope, index)]
}

/// Returns the stretch `from..until` of the listed places. Fails if its ends do not fit in 32 bits, as if memory ran out.
pub fn stretch(from: usize, until: usize) -> Result<Stretch, AllocError>
    requires ordered { from ≤ until }
    ensures { IfOk result (λ s. s ≡ record { from = from; until = until }) }
{
    if until > MOST_LISTED {
        return Err(AllocError);
    }
    Ok(Stretch {
        from: from as u32,
        until: until as u32,
    })
}

/// Appends a row and returns its index. Fails if the index does not fit in 32 bits, as if memory ran out.
pub fn add(scopes: &mut Vec<Scope>, row: Scope) -> Result<u32, AllocError>
    ensures { IfOk result (λ s. AddsRow row s scopes.old.items scopes.new.items) }
{
    let place = scopes.len();
    if place >= MOST_SCOPES {
        return Err(AllocError);
    }
    push(scopes, row)?;
    Ok(place as u32)
}

/// Appends a row that lists what `first` does and then what `rest` does. Returns its index.
fn pair(scopes: &mut Vec<Scope>, first: u32, rest: u32) -> Result<u32, AllocError>
    requires { AreJoinable scopes.old.items first rest }
    ensures { IfOk result (λ s. Joins scopes.old.items scopes.new.items s first rest) }
{
    let before = count(scopes, first);
    let behind = count(scopes, rest);
    if behind > MOST_OF_SCOPE || before > MOST_OF_SCOPE - behind {
        return Err(AllocError);
    }
    let row = Concat {
        first,
        rest,
        count: (before + behind) as u16,
        height: height(scopes, first)
            .max(height(scopes, rest))
            .saturating_add(1),
    };
    let place = add(scopes, Scope::Concat(row))?;
    Ok(place)
}

/// Like `pair`, but lowers `first` if it is too high to be beside `rest`.
fn lower_first(scopes: &mut Vec<Scope>, first: u32, rest: u32) -> Result<u32, AllocError>
    requires { AreJoinable scopes.old.items first rest }
    ensures { IfOk result (λ s. Joins scopes.old.items scopes.new.items s first rest) }
{
    let Scope::Concat(high) = scopes[first as usize] else {
        return pair(scopes, first, rest);
    };
    if height(scopes, high.rest) > height(scopes, high.first) {
        if let Scope::Concat(middle) = scopes[high.rest as usize] {
            let left = pair(scopes, high.first, middle.first)?;
            let right = pair(scopes, middle.rest, rest)?;
            return pair(scopes, left, right);
        }
    }
    let right = pair(scopes, high.rest, rest)?;
    pair(scopes, high.first, right)
}

/// Like `pair`, but lowers `rest` if it is too high to be beside `first`.
fn lower_rest(scopes: &mut Vec<Scope>, first: u32, rest: u32) -> Result<u32, AllocError>
    requires { AreJoinable scopes.old.items first rest }
    ensures { IfOk result (λ s. Joins scopes.old.items scopes.new.items s first rest) }
{
    let Scope::Concat(high) = scopes[rest as usize] else {
        return pair(scopes, first, rest);
    };
    if height(scopes, high.first) > height(scopes, high.rest) {
        if let Scope::Concat(middle) = scopes[high.first as usize] {
            let left = pair(scopes, first, middle.first)?;
            let right = pair(scopes, middle.rest, high.rest)?;
            return pair(scopes, left, right);
        }
    }
    let left = pair(scopes, first, high.first)?;
    pair(scopes, left, high.rest)
}

/// Like `pair`, but for rows whose heights may differ by two.
fn balanced(scopes: &mut Vec<Scope>, first: u32, rest: u32) -> Result<u32, AllocError>
    requires { AreJoinable scopes.old.items first rest }
    ensures { IfOk result (λ s. Joins scopes.old.items scopes.new.items s first rest) }
{
    let before = height(scopes, first);
    let behind = height(scopes, rest);
    if before > behind.saturating_add(1) {
        return lower_first(scopes, first, rest);
    }
    if behind > before.saturating_add(1) {
        return lower_rest(scopes, first, rest);
    }
    pair(scopes, first, rest)
}

/// Like `pair`, but for rows of any heights. It descends the higher one, as in AVL trees, so that ropes stay low.
pub fn both(scopes: &mut Vec<Scope>, first: u32, rest: u32) -> Result<u32, AllocError>
    requires { AreJoinable scopes.old.items first rest }
    ensures { IfOk result (λ s. Joins scopes.old.items scopes.new.items s first rest) }
{
    if count(scopes, first) == 0 {
        return Ok(rest);
    }
    if count(scopes, rest) == 0 {
        return Ok(first);
    }
    let before = height(scopes, first);
    let behind = height(scopes, rest);
    if before > behind.saturating_add(1) {
        if let Scope::Concat(high) = scopes[first as usize] {
            let inner = both(scopes, high.rest, rest)?;
            return balanced(scopes, high.first, inner);
        }
    }
    if behind > before.saturating_add(1) {
        if let Scope::Concat(high) = scopes[rest as usize] {
            let inner = both(scopes, first, high.first)?;
            return balanced(scopes, inner, high.rest);
        }
    }
    pair(scopes, first, rest)
}

/// Returns a row of what a stretch lists, in order, except the place at `index`.
fn without_few(scopes: &mut Vec<Scope>, stretch: Stretch, index: usize) -> Result<u32, AllocError>
    requires { IsAmongStretch scopes.old.items stretch index }
    ensures { IfOk result (λ s. IsRope scopes.old.items scopes.new.items s
        (λ listed. take index (slice_range listed stretch.from stretch.until)
        ++ drop (index + 1) (slice_range listed stretch.from stretch.until))) }
{
    let middle = stretch.from + index as u32;
    let before = Stretch {
        from: stretch.from,
        until: middle,
    };
    let behind = Stretch {
        from: middle + 1,
        until: stretch.until,
    };
    let first = add(scopes, Scope::Few(before))?;
    let rest = add(scopes, Scope::Few(behind))?;
    both(scopes, first, rest)
}

/// Like `without_few`, but for a stretch that is listed in reverse order.
fn without_back(scopes: &mut Vec<Scope>, stretch: Stretch, index: usize) -> Result<u32, AllocError>
    requires { IsAmongStretch scopes.old.items stretch index }
    ensures { IfOk result (λ s. IsRope scopes.old.items scopes.new.items s
        (λ listed. take index (reverse (slice_range listed stretch.from stretch.until))
        ++ drop (index + 1) (reverse (slice_range listed stretch.from stretch.until)))) }
{
    let middle = stretch.until - index as u32;
    let before = Stretch {
        from: middle,
        until: stretch.until,
    };
    let behind = Stretch {
        from: stretch.from,
        until: middle - 1,
    };
    let first = add(scopes, Scope::Back(before))?;
    let rest = add(scopes, Scope::Back(behind))?;
    both(scopes, first, rest)
}

/// Returns a row of what a scope lists except the place at `index`.
pub fn without(scopes: &mut Vec<Scope>, scope: u32, index: usize) -> Result<u32, AllocError>
    requires row { IsRow scopes.old.items scope }
    requires index { index < count_at scopes.old.items scope }
    ensures { IfOk result (λ s. IsRope scopes.old.items scopes.new.items s
        (λ listed. take index (places_in listed scopes.old.items scope)
        ++ drop (index + 1) (places_in listed scopes.old.items scope))) }
{
    match scopes[scope as usize] {
        Scope::Few(stretch) => without_few(scopes, stretch, index),
        Scope::Back(stretch) => without_back(scopes, stretch, index),
        Scope::Concat(parts) => {
            let before = count(scopes, parts.first);
            if index < before {
                let first = without(scopes, parts.first, index)?;
                return both(scopes, first, parts.rest);
            }
            let rest = without(scopes, parts.rest, index - before)?;
            both(scopes, parts.first, rest)
        }
    }
}

/// Returns the index at which a scope lists the entry `position` of `listed`, if entries descend along its list. It is a guess
/// that the caller must verify.
pub fn find(scopes: &[Scope], scope: u32, position: usize) -> Option<usize>
    requires { IsRow scopes.now scope }
    ensures { IfSome result (λ i. i < count_at scopes.now scope) }
{
    match scopes[scope as usize] {
        Scope::Few(stretch) => {
            let from = stretch.from as usize;
            if position < from || position >= stretch.until as usize {
                return None;
            }
            Some(position - from)
        }
        Scope::Back(stretch) => {
            let until = stretch.until as usize;
            if position < stretch.from as usize || position >= until {
                return None;
            }
            Some(until - 1 - position)
        }
        Scope::Concat(parts) => {
            if position >= low(scopes, parts.first) {
                return find(scopes, parts.first, position);
            }
            let before = count(scopes, parts.first);
            match find(scopes, parts.rest, position) {
                Some(index) => Some(before.saturating_add(index)),
                None => None,
            }
        }
    }
}
