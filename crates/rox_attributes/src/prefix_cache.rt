//! Where prefixes were found: for each, an index among the places of its scope, which the next search for it tries first. Nothing
//! depends on these indices, as the place that one leads to is tested.

ghost use Rattle.std.specs.Prelude.{◌<◌, IfSome, Some, length};
ghost use Rattle.rox_scopes.specs.Bindings.{AreOnce, FindsPlace};

use rox_compare::compare::{Pair, same_short};
use rox_scopes::namespace::Namespace;
use rox_scopes::scope::find_in_order;

/// Returns the first bit of the slot of a prefix. Each of the sixteen slots has four bits. Few prefixes of a document share a
/// slot, which depends on the first byte and on the length.
#[inline(always)]
fn slot_of(prefix: &str) -> usize
    requires { 0 < length prefix.now }
    ensures { result < 64 }
{
    let bytes = prefix.as_bytes();
    (bytes[0] as usize).wrapping_add(bytes.len()) % 16 * 4
}

/// Returns the place at the index `tried` among these places, if its namespace has this prefix. It is meant for short prefixes.
#[inline(always)]
fn place_tried(
    namespaces: &[Namespace<'_>],
    places: &[u16],
    prefix: &str,
    tried: usize,
) -> Option<u16>
    requires { AreOnce namespaces.now places.now }
    ensures { IfSome result
        (λ p. FindsPlace namespaces.entry.now places.entry.now (Some prefix.entry.now) (Some p)) }
{
    if tried >= places.len() {
        return None;
    }
    let place = places[tried];
    let Some(name) = namespaces[place as usize].name() else {
        return None;
    };
    if name.len() != prefix.len() {
        return None;
    }
    let pair = Pair {
        one: name.as_bytes(),
        other: prefix.as_bytes(),
    };
    if !same_short(pair) {
        return None;
    }
    Some(place)
}

/// Returns the one of these places whose namespace has this prefix, and puts its index into the slot that begins at the bit
/// `slot` of `near`. It is out of line, as most prefixes are the last one of their slot.
#[inline(never)]
fn place_beyond(
    namespaces: &[Namespace<'_>],
    places: &[u16],
    prefix: &str,
    slot: usize,
    near: &mut usize,
) -> Option<u16>
    requires once { AreOnce namespaces.now places.now }
    requires slot { slot < 64 }
    ensures { FindsPlace namespaces.now places.now (Some prefix.now) result }
{
    let mut index = 0;
    let found = find_in_order(namespaces, places, Some(prefix), &mut index);
    *near = *near & !(15 << slot) | (index & 15) << slot;
    found
}

/// Returns the one of these places whose namespace has this prefix. It first tries the index in the slot of the prefix among
/// those of `near`. If that is of another, the slot gets the index of the one found.
#[inline(always)]
pub fn find_in_slot(
    namespaces: &[Namespace<'_>],
    places: &[u16],
    prefix: &str,
    near: &mut usize,
) -> Option<u16>
    requires once { AreOnce namespaces.now places.now }
    requires some { 0 < length prefix.now }
    ensures { FindsPlace namespaces.now places.now (Some prefix.now) result }
{
    let slot = slot_of(prefix);
    match place_tried(namespaces, places, prefix, *near >> slot & 15) {
        Some(place) => Some(place),
        None => place_beyond(namespaces, places, prefix, slot, near),
    }
}
