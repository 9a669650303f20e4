//! A stretch of the table of attributes, and its search for a name.

ghost use Rattle.std.specs.Prelude.{◌≡◌, None, map, slice_range, option_map, ◌≤◌, length};
ghost use Rattle.rox_rows.specs.Rows.{attribute, attribute_rows, NamespaceWithin};
ghost use Rattle.rox_scopes.specs.NamespaceViews.{namespace_view};
ghost use Rattle.rox_lists.specs.ElementLists.{attribute_of};
ghost use Rattle.rox_lists.specs.ExpandedNames.{expanded, named, named_locally};
ghost use Rattle.std.specs.List.{AllByRecursion};

use crate::attributes::{Attribute, Attributes};
use crate::names::{ExpandedName, equal_names};
use rox_names::tables::Tables;

/// Returns the attributes at the indices `from..until` of those of all elements.
#[inline]
pub fn attributes_at<'a, 'input>(
    tables: &'a Tables<'input>,
    from: usize,
    until: usize,
) -> Attributes<'a, 'input>
    requires ordered { from ≤ until }
    requires within { until ≤ length (attribute_rows tables.now.attributes) }
    requires each { AllByRecursion (λ r. NamespaceWithin (length tables.now.namespaces.items)
        r.0.namespace) (attribute_rows tables.now.attributes) }
    ensures { result
        ≡ map (attribute (map namespace_view tables.now.namespaces.items))
        (slice_range (attribute_rows tables.now.attributes) from until) }
{
    let rest = &tables.attributes.items[from..until];
    Attributes { tables, rest }
}

/// Returns the first of these attributes that has this local name and no namespace.
#[inline(always)]
pub fn plain_named<'a, 'input>(
    mut attributes: Attributes<'a, 'input>,
    local: &str,
) -> Option<Attribute<'a, 'input>>
    ensures { option_map attribute_of result ≡ named (None, local.now) attributes.entry }
{
    while let Some(attribute) = attributes.next() {
        if attribute.has_plain_name(local) {
            return Some(attribute);
        }
    }
    None
}

/// Returns the first of these attributes that has this expanded name. It is out of line, since most names that are looked up
/// have no namespace.
#[inline(never)]
pub fn named<'a, 'input>(
    mut attributes: Attributes<'a, 'input>,
    name: &ExpandedName<'_, '_>,
) -> Option<Attribute<'a, 'input>>
    ensures { option_map attribute_of result ≡ named (expanded name.now) attributes.entry }
{
    while let Some(attribute) = attributes.next() {
        if attribute.has_name(name) {
            return Some(attribute);
        }
    }
    None
}

/// Returns the first of these attributes that has this local name, whatever its namespace.
#[inline]
pub fn named_locally<'a, 'input>(
    mut attributes: Attributes<'a, 'input>,
    local: &str,
) -> Option<Attribute<'a, 'input>>
    ensures { option_map attribute_of result ≡ named_locally local.now attributes.entry }
{
    while let Some(attribute) = attributes.next() {
        if equal_names(attribute.name(), local) {
            return Some(attribute);
        }
    }
    None
}
