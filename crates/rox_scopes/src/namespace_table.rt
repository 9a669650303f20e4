//! The table of the distinct pairs of a prefix, or the default, and a URI. A search compares the first few pairs one by one and
//! then looks in a map of the others. So a text of few pairs makes no map.

ghost use Rattle.std.specs.Prelude.{◌≡◌, ◌<◌, ◌≤◌, [], length, map, IfOk, Err};
ghost use Rattle.rox_grammar.specs.Written.{NamespaceDecl};
ghost use Rattle.rox_grammar.specs.Document.{same_pair, most_pairs};
ghost use Rattle.rox_grammar.specs.declared.fault.Fault.{Fault};
ghost use Rattle.rox_storage.specs.Storage.{storage_bytes};
ghost use Rattle.rox_scopes.specs.NamespaceViews.{namespace_view};
ghost use Rattle.rox_scopes.specs.Scopes.{prefix_view, pair};
ghost use Rattle.rox_scopes.specs.PairIndex.{AddsPair, FindsPair, IsNewPair, PlacesOrRefuses, few_pairs, key_cmp, key_total, pair_cmp, place_among, place_behind, place_of};

use crate::namespace::Namespace;
use crate::scope::same_prefix;
use rox_compare::compare::same_text;
use rox_grammar::failure::Failure;
use rox_grammar::fault::Fault;
use rox_growth::growth::push_with_room;
use rox_storage::storage::StringStorage;
use std::alloc::{AllocError, Global};
use std::cmp::Ordering;
use std::collections::BTreeMap;

/// The most pairs that the table holds.
const MOST_PAIRS: usize = 65_535;

/// The number of pairs that the first growth makes room for: few texts have more.
pub const FIRST_ROOM: usize = 8;

/// The number of pairs that a search compares one by one.
const FEW: usize = 16;

/// Compares two pairs: by prefix, where the default comes first, and then by URI.
fn compare(one: &Namespace<'_>, other: &Namespace<'_>) -> Ordering
    ensures { result ≡ pair_cmp (namespace_view one.now) (namespace_view other.now) }
{
    match one.name.cmp(&other.name) {
        Ordering::Equal => one.uri.as_str().cmp(other.uri.as_str()),
        Ordering::Less => Ordering::Less,
        Ordering::Greater => Ordering::Greater,
    }
}

/// A pair as a key of the map.
#[derive(Drop)]
pub struct Key<'input> {
    pub namespace: Namespace<'input>,
}

impl PartialEq for Key<'_> {
    ghost use Rattle.std.specs.Ordering.{eq_by_cmp};
    ghost use Rattle.std.specs.Cmp.{partial_equiv_from_equiv, eq_by_cmp_equiv};

    ghost eq = { eq_by_cmp key_cmp };

    ghost laws = { partial_equiv_from_equiv (eq_by_cmp_equiv key_total) };

    fn eq(&self, other: &Self) -> bool {
        compare(&self.namespace, &other.namespace) == Ordering::Equal
    }
}

impl Eq for Key<'_> {
    ghost use Rattle.std.specs.Cmp.{eq_by_cmp_equiv};

    ghost laws = { eq_by_cmp_equiv key_total };
}

impl Ord for Key<'_> {
    ghost use Rattle.std.proofs.Common.{rules};
    ghost use Rattle.std.specs.Cmp.Rules.{comparing};

    ghost cmp = { key_cmp };

    ghost total = { key_total };

    ghost matches_partial_cmp = { Prim.search (comparing, rules) };

    ghost matches_eq = { Prim.search (comparing, rules) };

    fn cmp(&self, other: &Self) -> Ordering {
        compare(&self.namespace, &other.namespace)
    }
}

impl PartialOrd for Key<'_> {
    ghost use Rattle.std.specs.Ordering.{as_partial_cmp};
    ghost use Rattle.std.specs.Cmp.{partial_order_from_total};

    ghost partial_cmp = { as_partial_cmp key_cmp };

    ghost laws = { partial_order_from_total key_total };

    fn partial_cmp(&self, other: &Self) -> Option<Ordering> {
        Some(self.cmp(other))
    }
}

/// Returns whether two pairs are equal. Most differ in the length of their prefixes.
#[inline(always)]
fn is_same(one: &Namespace<'_>, other: &Namespace<'_>) -> bool
    ensures { result ≡ same_pair (namespace_view one.now) (namespace_view other.now) }
{
    same_prefix(one.name, other.name) && same_text(one.uri.as_str(), other.uri.as_str())
}

/// Returns the place of a pair among these, which are at most `FEW`.
#[inline(always)]
fn place_in(items: &[Namespace<'_>], pair: &Namespace<'_>) -> Option<u16>
    requires few { length items.now ≤ few_pairs }
    ensures value { result ≡ place_of (map namespace_view items.now) (namespace_view pair.now) }
{
    for (place, item) in items.iter().enumerate() {
        if is_same(item, pair) {
            return Some(place as u16);
        }
    }
    None
}

/// The table, while it grows.
#[derive(Drop)]
pub struct NamespaceTable<'input> {
    /// The pairs, in the order in which they are first declared.
    pub items: Vec<Namespace<'input>>,
    /// The place of each pair after the first `FEW`.
    pub places: BTreeMap<Key<'input>, u16>,
    pub ghost found: { (d : NamespaceDecl) → place_among places.entries d ≡ place_behind (map namespace_view items.items) d },
}

impl<'input> NamespaceTable<'input> {
    /// Returns a table without pairs.
    pub fn new(alloc: Global) -> NamespaceTable<'input>
        ensures { result.items.items ≡ [] }
    {
        NamespaceTable {
            items: Vec::new(alloc),
            places: BTreeMap::new(alloc),
        }
    }

    /// Returns the pairs, in the order in which they are first declared.
    #[inline]
    pub fn as_slice(&self) -> &[Namespace<'input>]
        ensures value { result.now ≡ self.now.items.items }
    {
        self.items.as_slice()
    }

    /// Returns the place of a pair that is after the first `FEW`.
    fn find_behind(&self, key: &Key<'input>) -> Option<u16>
        ensures { result ≡ place_behind (map namespace_view self.now.items.items)
            (namespace_view key.now.namespace) }
    {
        match self.places.get(key) {
            Some(place) => Some(*place),
            None => None,
        }
    }

    /// Returns the place of a pair, or `None` if it is not in the table.
    #[inline(always)]
    fn find(&self, key: &Key<'input>) -> Option<u16>
        ensures { FindsPair self.now.items.items (namespace_view key.now.namespace) result }
    {
        let few = self.items.len().min(FEW);
        match place_in(&self.items[..few], &key.namespace) {
            Some(place) => Some(place),
            None => self.find_behind(key),
        }
    }

    /// Appends a pair that is not in the table. Returns its place.
    #[inline(always)]
    fn add(&mut self, key: Key<'input>) -> Result<u16, AllocError>
        requires { IsNewPair self.old.items.items (namespace_view key.namespace) }
        ensures { IfOk result (λ i. AddsPair (namespace_view key.entry.namespace) i
            self.old.items.items self.new.items.items) }
    {
        let place = self.items.len() as u16;
        if self.items.len() < FEW {
            push_with_room(&mut self.items, key.namespace, FIRST_ROOM)?;
            return Ok(place);
        }
        let namespace = key.namespace.clone()?;
        self.items.push(namespace)?;
        if self.places.insert(key, place).is_err() {
            self.items.pop();
            return Err(AllocError);
        }
        Ok(place)
    }

    /// Appends the pair of `prefix` and `uri`, which is not in the table. Returns its place.
    #[inline(always)]
    pub fn add_new(
        &mut self,
        prefix: Option<&'input str>,
        uri: StringStorage<'input>,
    ) -> Result<u16, AllocError>
        requires { IsNewPair self.old.items.items (pair (prefix_view prefix) (storage_bytes uri)) }
        ensures { IfOk result (λ i. AddsPair (pair (prefix_view prefix.entry) (storage_bytes uri.entry)) i
            self.old.items.items self.new.items.items) }
    {
        let namespace = Namespace { name: prefix, uri };
        self.add(Key { namespace })
    }

    /// Returns the place of the pair of `prefix` and `uri`, and appends it if it is new. Fails with `NamespacesLimitReached` if
    /// it is new and 65,535 pairs are there.
    #[inline(always)]
    pub fn place(
        &mut self,
        prefix: Option<&'input str>,
        uri: StringStorage<'input>,
    ) -> Result<u16, Failure>
        requires { length self.old.items.items ≤ most_pairs }
        ensures { PlacesOrRefuses (pair (prefix_view prefix.entry) (storage_bytes uri.entry))
            self.old.items.items self.new.items.items result }
    {
        let namespace = Namespace { name: prefix, uri };
        let key = Key { namespace };
        if let Some(place) = self.find(&key) {
            return Ok(place);
        }
        if self.items.len() >= MOST_PAIRS {
            return Err(Failure::Fault(Fault::NamespacesLimitReached));
        }
        Ok(self.add(key)?)
    }
}
