//! The names of a start tag in their namespaces (Namespaces in XML 1.0, sections 5, 6.2 and 6.3). They are resolved at the end of
//! the tag, since a declaration holds for the whole tag.

ghost use Rattle.std.specs.Prelude.{◌≡◌, List, length, map, ◌<◌, ◌^◌};
ghost use Rattle.std.specs.List.{list_any, AllByRecursion};
ghost use Rattle.rox_grammar.specs.Written.{NamespaceDecl};
ghost use Rattle.rox_grammar.specs.Failures.{name_view};
ghost use Rattle.rox_rows.specs.Rows.{attribute_rows, attribute_uri, NamespaceWithin};
ghost use Rattle.rox_scopes.specs.NamespaceViews.{namespace_view};
ghost use Rattle.rox_rows.specs.StoredAttributes.{data_of};
ghost use Rattle.rox_scopes.specs.Scopes.{prefix_view};
ghost use Rattle.rox_scopes.specs.Bindings.{FindsBinding, LooksWithin, places_view};
ghost use Rattle.rox_names.specs.ResolvedNames.{row_of_unresolved, row_of_compact, Resolves};
ghost use Rattle.rox_seen.specs.SeenNames.{has_expanded, HasNameOf};
ghost use Rattle.rox_seen.specs.SeenNames.{TakesOneMore};
ghost use Rattle.rox_names.specs.TagNames.{FindsElement, FindsNamespace, MayRefuse, PutsNew, TellsRefused, TestsKey, TestsName};

use crate::expanded_names::is_repeated_name;
use crate::namespace_decl::{local_span, prefix_span};
use crate::unresolved_attribute::{CompactAttribute, UnresolvedAttribute};
use rox_compare::compare::same_text;
use rox_grammar::failure::Failure;
use rox_grammar::fault::Fault;
use rox_grammar::name::QName;
use rox_rows::attributes::AttributeTable;
use rox_rows::row::{AttributeData, AttributeNamespace, AttributePlaces};
use rox_rows::stored_attribute::StoredAttribute;
use rox_scopes::bindings::PrefixBindings;
use rox_scopes::namespace::Namespace;
use rox_scopes::namespace_table::NamespaceTable;
use rox_scopes::scope::{XML_URI, find_default, find_prefix, same_prefix};
use rox_seen::seen_names::SeenNames;
use rox_storage::storage::StringStorage;
use std::alloc::Global;
use std::collections::BTreeSet;

/// Tags of at most this many attributes are resolved without a set. A name is compared with those before it if one of them has
/// its code.
const FEW: usize = 16;

/// Tags of at most this many attributes are resolved without a set, unless many codes repeat.
const MOST: usize = 128;

/// Returns the namespace of an attribute's name in this scope. A name without a prefix has none, and the prefix `xml` has its
/// own. Returns `None` if the prefix is not known.
#[inline(always)]
fn attribute_namespace(
    namespaces: &[Namespace<'_>],
    few: Option<&[u16]>,
    present: &PrefixBindings<'_>,
    name: QName<'_>,
) -> Option<AttributeNamespace>
    requires { LooksWithin (length namespaces.now) (places_view few) present.now }
    ensures { FindsNamespace namespaces.now (places_view few.entry) present.now
        (name_view name.entry) result }
{
    if name.prefix.is_empty() {
        return Some(AttributeNamespace::None);
    }
    if same_text(name.prefix, "xml") {
        return Some(AttributeNamespace::Xml);
    }
    match find_prefix(namespaces, few, present, name.prefix) {
        Some(place) => Some(AttributeNamespace::Listed(place)),
        None => None,
    }
}

/// Returns the URI of an attribute's namespace.
#[inline]
fn namespace_uri<'a>(
    namespaces: &'a [Namespace<'_>],
    namespace: AttributeNamespace,
) -> Option<&'a str>
    requires { NamespaceWithin (length namespaces.now) namespace }
    ensures { prefix_view result ≡ attribute_uri (map namespace_view namespaces.now) namespace }
{
    match namespace {
        AttributeNamespace::None => None,
        AttributeNamespace::Xml => Some(XML_URI),
        AttributeNamespace::Listed(place) => Some(namespaces[place as usize].uri()),
    }
}

/// Returns whether one of the attributes `done` has this expanded name. Namespaces are equal if their URIs are.
#[inline(never)]
fn is_among(
    namespaces: &[Namespace<'_>],
    done: &[StoredAttribute<'_>],
    namespace: AttributeNamespace,
    local: &str,
) -> bool
    requires done { AllByRecursion (λ a. NamespaceWithin (length namespaces.now)
        (data_of a).namespace) done.now }
    requires other { NamespaceWithin (length namespaces.now) namespace }
    ensures { result ≡ list_any
        (λ a. has_expanded (map namespace_view namespaces.now) namespace local.now
        (data_of a)) done.now }
{
    for attribute in done {
        if same_text(attribute.local, local)
            && same_prefix(
                namespace_uri(namespaces, attribute.namespace()),
                namespace_uri(namespaces, namespace),
            )
        {
            return true;
        }
    }
    false
}

/// Returns the namespace of an attribute that follows the attributes `done` of its tag, and records its name in `seen`. Fails if
/// its prefix is not known, or if one of `done` has its expanded name. The expanded names are compared only if an earlier name
/// has its code.
#[inline(always)]
fn tested_namespace(
    namespaces: &[Namespace<'_>],
    few: Option<&[u16]>,
    present: &PrefixBindings<'_>,
    done: &[StoredAttribute<'_>],
    seen: &mut SeenNames,
    taken: &UnresolvedAttribute<'_>,
) -> Result<AttributeNamespace, Fault>
    requires within { LooksWithin (length namespaces.now) (places_view few) present.now }
    requires done { AllByRecursion (λ a. NamespaceWithin (length namespaces.now)
        (data_of a).namespace) done.now }
    requires seen { AllByRecursion (λ a. HasNameOf seen.old.codes (data_of a)) done.now }
    ensures { TestsName namespaces.now (places_view few.entry) present.now done.now
        seen.old seen.new taken.now result }
{
    let name = taken.name;
    let Some(namespace) = attribute_namespace(namespaces, few, present, name) else {
        return Err(Fault::UnknownNamespace(prefix_span(name.prefix, taken.start), taken.start));
    };
    if seen.put(name.local) {
        seen.count_again();
        if is_among(namespaces, done, namespace, name.local) {
            let span = local_span(name.local, taken.name_end);
            return Err(Fault::DuplicatedAttribute(span, taken.start));
        }
    }
    Ok(namespace)
}

/// Like `tested_namespace`, but for a tag that has many attributes. The expanded names of those before it are in the set `seen`,
/// to which its own is added.
fn seen_namespace<'a>(
    namespaces: &'a [Namespace<'_>],
    few: Option<&[u16]>,
    present: &PrefixBindings<'_>,
    seen: &mut BTreeSet<(&'a str, Option<&'a str>)>,
    taken: &UnresolvedAttribute<'a>,
) -> Result<AttributeNamespace, Failure>
    requires { LooksWithin (length namespaces.now) (places_view few) present.now }
    ensures { TestsKey namespaces.now (places_view few.entry) present.now seen.old.keys
        seen.new.keys taken.now result }
{
    let name = taken.name;
    let Some(namespace) = attribute_namespace(namespaces, few, present, name) else {
        return Err(Failure::Fault(Fault::UnknownNamespace(
            prefix_span(name.prefix, taken.start),
            taken.start,
        )));
    };
    if is_repeated_name(seen, name.local, namespace_uri(namespaces, namespace))? {
        return Err(Failure::Fault(Fault::DuplicatedAttribute(
            local_span(name.local, taken.name_end),
            taken.start,
        )));
    }
    Ok(namespace)
}

/// Returns the row of an attribute with this namespace. Its value moves into the row.
#[inline]
fn move_row<'input>(
    taken: &mut UnresolvedAttribute<'input>,
    namespace: AttributeNamespace,
) -> (AttributeData<'input>, AttributePlaces)
    ensures { result ≡ row_of_unresolved taken.old namespace }
{
    let value = std::mem::replace(&mut taken.value, StringStorage::Borrowed(""));
    let data = AttributeData {
        local: taken.name.local,
        value,
        namespace,
    };
    let places = AttributePlaces {
        start: taken.start,
        name_end: taken.name_end,
        value_start: taken.value_start,
        end: taken.end,
    };
    (data, places)
}

/// Returns whether an attribute is refused whose code repeats: an attribute of its tag has its expanded name, or many codes
/// repeat.
#[cold]
#[inline(never)]
fn is_refused(
    namespaces: &NamespaceTable<'_>,
    attributes: &AttributeTable<'_>,
    seen: &mut SeenNames,
    namespace: AttributeNamespace,
    local: &str,
) -> bool
    requires { MayRefuse (length namespaces.now.items.items) seen.old
        (attribute_rows attributes.now) namespace }
    ensures { TellsRefused (map namespace_view namespaces.now.items.items) seen.old seen.new
        (attribute_rows attributes.now) namespace local.now result }
{
    if seen.are_many_again() {
        return true;
    }
    seen.count_again();
    let others = &attributes.items[seen.from..];
    is_among(namespaces.as_slice(), others, namespace, local)
}

/// Appends a compact attribute with this namespace. The attributes before it in its tag are recorded in `seen`. Returns false,
/// with the table unchanged, if its expanded name repeats. Also returns false if many codes repeat, or there is no room.
#[inline(always)]
pub fn put_compact_attribute<'input>(
    namespaces: &NamespaceTable<'input>,
    attributes: &mut AttributeTable<'input>,
    seen: &mut SeenNames,
    namespace: AttributeNamespace,
    one: CompactAttribute<'input>,
) -> bool
    requires { TakesOneMore (length namespaces.now.items.items) seen.old
        (attribute_rows attributes.old) namespace }
    ensures { PutsNew (map namespace_view namespaces.now.items.items) seen.old seen.new
        (attribute_rows attributes.old) (attribute_rows attributes.new)
        (row_of_compact one.entry namespace) result }
{
    let repeats = seen.may_have(attributes, one.local);
    if repeats && is_refused(namespaces, attributes, seen, namespace, one.local) {
        return false;
    }
    let places = one.places();
    if !attributes.has_room(places.end) {
        return false;
    }
    let item = AttributeData {
        local: one.local,
        value: StringStorage::Borrowed(one.value),
        namespace,
    };
    attributes.put_compact(item, places, one.before)
}

/// Like `put_compact_attribute`, but for an attribute with any offsets and a value that may be owned.
#[inline(always)]
pub fn put_attribute_of<'input>(
    namespaces: &NamespaceTable<'input>,
    attributes: &mut AttributeTable<'input>,
    seen: &mut SeenNames,
    namespace: AttributeNamespace,
    own: UnresolvedAttribute<'input>,
) -> bool
    requires { TakesOneMore (length namespaces.now.items.items) seen.old
        (attribute_rows attributes.old) namespace }
    ensures { PutsNew (map namespace_view namespaces.now.items.items) seen.old seen.new
        (attribute_rows attributes.old) (attribute_rows attributes.new)
        (row_of_unresolved own.entry namespace) result }
{
    let local = own.name.local;
    let repeats = seen.may_have(attributes, local);
    if repeats && is_refused(namespaces, attributes, seen, namespace, local) {
        return false;
    }
    let places = AttributePlaces {
        start: own.start,
        name_end: own.name_end,
        value_start: own.value_start,
        end: own.end,
    };
    let item = AttributeData {
        local,
        value: own.value,
        namespace,
    };
    attributes.put((item, places))
}

/// Like `resolve`, but for a tag with many attributes: their expanded names are in a set, which takes time n log n.
#[cold]
#[inline(never)]
fn resolve_many<'input>(
    alloc: Global,
    namespaces: &[Namespace<'input>],
    few: Option<&[u16]>,
    present: &PrefixBindings<'_>,
    taken: &mut Vec<UnresolvedAttribute<'input>>,
    attributes: &mut AttributeTable<'input>,
) -> Result<(), Failure>
    requires { LooksWithin (length namespaces.now) (places_view few) present.now }
    ensures { (ds : List NamespaceDecl)
        → FindsBinding (map namespace_view namespaces.now) (places_view few.entry) present.now ds
        → Resolves namespaces.now ds taken.old.items (attribute_rows attributes.old)
        (attribute_rows attributes.new) result }
{
    let mut seen = BTreeSet::new(alloc);
    for turn in 0..taken.len() {
        let namespace = seen_namespace(namespaces, few, present, &mut seen, &taken[turn])?;
        let row = move_row(&mut taken[turn], namespace);
        if !attributes.put(row) {
            return Err(Failure::Memory);
        }
    }
    Ok(())
}

/// Returns whether so many codes of these names repeat that a set is faster.
#[cold]
#[inline(never)]
fn are_alike(taken: &[UnresolvedAttribute<'_>]) -> bool {
    let mut seen = SeenNames::new(0);
    for one in taken {
        if seen.put(one.name.local) {
            seen.count_again();
        }
    }
    seen.are_many_again()
}

/// Moves the attributes of a tag into the table, each with its namespace in this scope. Fails at the first attribute whose prefix
/// is not known, or whose expanded name repeats, and if memory runs out.
#[inline(always)]
pub fn resolve<'input>(
    alloc: Global,
    namespaces: &[Namespace<'input>],
    few: Option<&[u16]>,
    present: &PrefixBindings<'_>,
    taken: &mut Vec<UnresolvedAttribute<'input>>,
    attributes: &mut AttributeTable<'input>,
) -> Result<(), Failure>
    requires { LooksWithin (length namespaces.now) (places_view few) present.now }
    ensures { (ds : List NamespaceDecl)
        → FindsBinding (map namespace_view namespaces.now) (places_view few.entry) present.now ds
        → Resolves namespaces.now ds taken.old.items (attribute_rows attributes.old)
        (attribute_rows attributes.new) result }
{
    // Many tags that come here have declarations alone.
    if taken.is_empty() {
        return Ok(());
    }
    if taken.len() > MOST || taken.len() > FEW && are_alike(taken.as_slice()) {
        return resolve_many(alloc, namespaces, few, present, taken, attributes);
    }
    let mut seen = SeenNames::new(attributes.len());
    for turn in 0..taken.len() {
        let namespace = tested_namespace(
            namespaces,
            few,
            present,
            &attributes.items[seen.from..],
            &mut seen,
            &taken[turn],
        )?;
        let row = move_row(&mut taken[turn], namespace);
        if !attributes.put(row) {
            return Err(Failure::Memory);
        }
    }
    Ok(())
}

/// Returns the place of the namespace of an element's name, which starts at the offset `at`, in this scope. A name without a
/// prefix has the default. Fails if the prefix is not known.
#[inline(always)]
pub fn element_namespace(
    namespaces: &[Namespace<'_>],
    few: Option<&[u16]>,
    present: &PrefixBindings<'_>,
    name: QName<'_>,
    at: usize,
) -> Result<Option<u16>, Fault>
    requires within { LooksWithin (length namespaces.now) (places_view few) present.now }
    requires small { at < 2 ^ 63 }
    ensures { FindsElement namespaces.now (places_view few.entry) present.now
        (name_view name.entry) at result }
{
    if name.prefix.is_empty() {
        return Ok(find_default(namespaces, few, present));
    }
    match find_prefix(namespaces, few, present, name.prefix) {
        Some(place) => Ok(Some(place)),
        None => Err(Fault::UnknownNamespace(prefix_span(name.prefix, at), at)),
    }
}
