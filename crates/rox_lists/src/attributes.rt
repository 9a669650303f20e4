//! The attributes of an element.

ghost use Rattle.std.specs.Prelude.{◌≡◌, ◌≤◌, ◌-◌, None, length, bytes_eq};
ghost use Rattle.std.specs.Option.{option_map, option_eq};
ghost use Rattle.rox_rows.specs.StoredAttributes.{data_of, place_bound};
ghost use Rattle.rox_lists.specs.NamespaceBound.{namespace_bound};

use crate::debug::write_list;
use crate::names::{ExpandedName, NS_XML_URI, equal_names, name_of_parts};
use rox_names::tables::Tables;
use rox_rows::row::AttributeNamespace;
use rox_rows::stored_attribute::{NamespaceKind, StoredAttribute};
use rox_storage::storage::StringStorage;
use std::alloc::AllocError;
use std::fmt;
use std::marker::Model;
use std::ops::Range;

/// An attribute of an element (XML 1.0 section 3.1). Two are equal if their expanded names and values are, wherever they are
/// written.
///
/// ```
/// let document = Document::parse(alloc, "<e id='x'/>")?;
/// let id = document.root_element().attribute_node("id".into());
/// let id = id.expect(&rt, "an attribute");
/// assert!(rt; id.value() == "x");
/// assert!(rt; id.range().start == 3);
/// assert!(rt; id.range_value().start == 7);
/// ```
#[derive(Clone, Copy)]
pub struct Attribute<'a, 'input> {
    row: &'a StoredAttribute<'input>,
    tables: &'a Tables<'input>,
    ghost within: { namespace_bound (data_of row.now).namespace ≤ length tables.now.namespaces.items },
    ghost placed: { place_bound row.now ≤ length tables.now.attributes.explicit.items },
}

impl<'a, 'input> Attribute<'a, 'input> {
    ghost use Rattle.rox_lists.specs.ElementLists.{attribute_of};
    ghost use Rattle.rox_lists.specs.ExpandedNames.{expanded, same_expanded_name};
    ghost use Rattle.rox_lists.specs.StoredText.{stored};

    /// Returns the URI of its namespace, or `None` if its name has no prefix (Namespaces in XML 1.0 section 6.2).
    #[inline]
    #[tactic(auto, using(crate::proofs::Entries::entry_uri))]
    pub fn namespace(&self) -> Option<&'a str>
        ensures { option_map (λ u. u.now) result ≡ (attribute_of self.now).namespace }
    {
        match self.row.namespace() {
            AttributeNamespace::None => None,
            AttributeNamespace::Xml => Some(NS_XML_URI),
            AttributeNamespace::Listed(place) => {
                let tables = self.tables;
                Some(tables.namespaces[place as usize].uri())
            }
        }
    }

    /// Returns its local name.
    #[inline]
    pub fn name(&self) -> &'input str
        ensures { result.now ≡ (attribute_of self.now).local }
    {
        self.row.local
    }

    /// Returns whether it has this expanded name.
    #[inline]
    pub(crate) fn has_name(&self, name: &ExpandedName<'_, '_>) -> bool
        ensures { result
            ≡ same_expanded_name ((attribute_of self.now).namespace, (attribute_of self.now).local)
            (expanded name.now) }
    {
        equal_names(self.name(), name.name()) && self.has_namespace(name.namespace())
    }

    /// Returns whether it has this local name, and no namespace.
    #[inline(always)]
    pub(crate) fn has_plain_name(&self, local: &str) -> bool
        ensures { result
            ≡ same_expanded_name ((attribute_of self.now).namespace, (attribute_of self.now).local)
            (None, local.now) }
    {
        if !equal_names(self.name(), local) {
            return false;
        }
        match self.row.kind {
            NamespaceKind::None => true,
            _ => false,
        }
    }

    /// Returns whether it has this namespace, or none for `None`.
    #[inline]
    fn has_namespace(&self, uri: Option<&str>) -> bool
        ensures { result ≡ option_eq bytes_eq (attribute_of self.now).namespace (option_map
            (λ u. u.now) uri.entry) }
    {
        match (self.namespace(), uri) {
            (None, None) => true,
            (Some(own), Some(uri)) => equal_names(own, uri),
            _ => false,
        }
    }

    /// Returns its normalized value (XML 1.0 section 3.3.3).
    #[inline]
    pub fn value(&self) -> &'a str
        ensures { result.now ≡ (attribute_of self.now).value }
    {
        self.row.value.as_str()
    }

    /// Returns its value as storage, which distinguishes a slice of the input from an owned text.
    #[inline]
    pub fn value_storage(&self) -> &StringStorage<'input>
        ensures { stored result.now
            ≡ ((attribute_of self.now).value, (attribute_of self.now).borrowed) }
    {
        &self.row.value
    }

    /// Returns the offset of its first byte, from 0, in its source: the text, or the resolver's answer that it is written in.
    #[inline]
    pub fn position(&self) -> usize
        ensures { result ≡ (attribute_of self.now).start }
    {
        self.tables.attributes.places(self.row).start
    }

    /// Returns its range of bytes in its source, from its name through its closing quote.
    #[inline]
    pub fn range(&self) -> Range<usize>
        ensures start { result.start ≡ (attribute_of self.now).start }
        ensures end { result.end ≡ (attribute_of self.now).end }
    {
        let places = self.tables.attributes.places(self.row);
        places.start..places.end
    }

    /// Returns the range of bytes of its name in its source, the prefix included.
    ///
    /// ```
    /// let document = Document::parse(alloc, "<e xmlns:n='urn:n' n:a='1'/>")?;
    /// let a = document.root_element().attribute_local("a").expect(&rt, "an attribute");
    /// // the bytes of `n:a`
    /// assert!(rt; a.range_qname().start == 19);
    /// assert!(rt; a.range_qname().end == 22);
    /// ```
    #[inline]
    pub fn range_qname(&self) -> Range<usize>
        ensures start { result.start ≡ (attribute_of self.now).start }
        ensures end { result.end ≡ (attribute_of self.now).name_end }
    {
        let places = self.tables.attributes.places(self.row);
        places.start..places.name_end
    }

    /// Returns the range of bytes of its value in its source, without the quotes.
    #[inline]
    pub fn range_value(&self) -> Range<usize>
        ensures start { result.start ≡ (attribute_of self.now).value_start }
        ensures end { result.end ≡ (attribute_of self.now).end - 1 }
    {
        let places = self.tables.attributes.places(self.row);
        places.value_start..places.end.saturating_sub(1)
    }
}

impl PartialEq for Attribute<'_, '_> {
    ghost use Rattle.std.specs.Ordering.{on, eq_of_both};
    ghost use Rattle.std.specs.Cmp.{partial_equiv_from_equiv, and_equiv, on_equiv};
    ghost use Rattle.std.specs.Cmp.Lexicographic.{options_equiv, nat_list_eq_equiv};
    ghost use Rattle.rox_lists.specs.ElementLists.{attribute_of};

    ghost eq = { eq_of_both (eq_of_both (on (λ a. (attribute_of a).local) bytes_eq) (on (λ a. (attribute_of a).namespace) (option_eq bytes_eq))) (on (λ a. (attribute_of a).value) bytes_eq) };

    ghost laws = { partial_equiv_from_equiv (and_equiv (and_equiv (on_equiv (λ a. (attribute_of a).local) nat_list_eq_equiv) (on_equiv (λ a. (attribute_of a).namespace) (options_equiv nat_list_eq_equiv))) (on_equiv (λ a. (attribute_of a).value) nat_list_eq_equiv)) };

    fn eq(&self, other: &Self) -> bool {
        self.name() == other.name()
            && self.namespace() == other.namespace()
            && self.value() == other.value()
    }
}

impl fmt::Debug for Attribute<'_, '_> {
    fn fmt<W: fmt::Write>(&self, f: &mut fmt::Formatter<W>) -> fmt::Result {
        let name = name_of_parts(self.namespace(), self.name());
        let value = self.value_storage();
        write!(f, "Attribute {{ name: {name:?}, value: {value:?} }}")
    }
}

/// An iterator, from both ends, over the attributes of one element that are left.
///
/// ```
/// let document = Document::parse(alloc, "<e b='1' a='2'/>")?;
/// let mut attributes = document.root_element().attributes();
/// assert!(rt; attributes.len() == 2);
/// let first = attributes.next().expect(&rt, "an attribute");
/// assert!(rt; first.name() == "b");
/// ```
#[derive(Drop)]
pub struct Attributes<'a, 'input> {
    pub(crate) tables: &'a Tables<'input>,
    // a slice of the table of attributes
    pub(crate) rest: &'a [StoredAttribute<'input>],
}

impl<'a, 'input> Model for Attributes<'a, 'input> {
    ghost use Rattle.std.specs.Prelude.{List};
    ghost use Rattle.rox_grammar.specs.Tree as tree;
    ghost use Rattle.rox_lists.specs.ElementLists.{attributes_code, attributes_left, AttributesWithin};

    ghost Value = { List tree.Attribute };

    ghost coded = { attributes_code };

    ghost view = { attributes_left };

    ghost invariant = { AttributesWithin };
}

impl<'a, 'input> Attributes<'a, 'input> {
    ghost use Rattle.std.specs.Prelude.{◌≡◌};

    /// Returns an iterator over the attributes that are left.
    fn copy(&self) -> Attributes<'a, 'input>
        ensures { result ≡ self.now }
    {
        Attributes {
            tables: self.tables,
            rest: self.rest,
        }
    }
}

impl Clone for Attributes<'_, '_> {
    ghost use Rattle.std.specs.Prelude.{◌≡◌, ⊤};

    ghost is_clone = { λ attributes copy. copy ≡ attributes };

    ghost is_infallible = { λ _. ⊤ };

    fn clone(&self) -> Result<Self, AllocError> {
        Ok(self.copy())
    }
}

impl fmt::Debug for Attributes<'_, '_> {
    fn fmt<W: fmt::Write>(&self, f: &mut fmt::Formatter<W>) -> fmt::Result {
        write_list(f, "Attributes(", self.copy())
    }
}

impl<'a, 'input> Iterator for Attributes<'a, 'input> {
    type Item = Attribute<'a, 'input>;

    ghost use Rattle.std.specs.Prelude.{Some, IfSome, length};
    ghost use Rattle.std.specs.Iterator.{YieldsFirstBy, item_count, UpTo};
    ghost use Rattle.std.specs.Iterator.SizeHint.{IsWithinCount};
    ghost use Rattle.rox_lists.specs.ElementLists.{attribute_of};

    ghost next_gives = { YieldsFirstBy attribute_of (λ s. s) };

    ghost remaining = { item_count (λ s. s) };

    #[inline]
    fn next(&mut self) -> Option<Attribute<'a, 'input>> {
        let rest = self.rest;
        if rest.is_empty() {
            return None;
        }
        self.rest = &rest[1..];
        let tables = self.tables;
        Some(Attribute {
            row: &rest[0],
            tables,
        })
    }

    fn size_hint(&self) -> (usize, Option<usize>)
        ensures lower { IsWithinCount result.0 (item_count (λ s. s) self.now) }
        ensures upper { IfSome result.1 (UpTo (item_count (λ s. s) self.now)) }
        ensures exact { result ≡ (length self.now, Some (length self.now)) }
    {
        let left = self.len();
        (left, Some(left))
    }
}

impl<'a, 'input> DoubleEndedIterator for Attributes<'a, 'input> {
    ghost use Rattle.std.specs.Iterator.{YieldsLastBy};
    ghost use Rattle.rox_lists.specs.ElementLists.{attribute_of};

    ghost next_back_gives = { YieldsLastBy attribute_of (λ s. s) };

    #[inline]
    fn next_back(&mut self) -> Option<Attribute<'a, 'input>> {
        let rest = self.rest;
        if rest.is_empty() {
            return None;
        }
        let last = rest.len() - 1;
        self.rest = &rest[..last];
        let tables = self.tables;
        Some(Attribute {
            row: &rest[last],
            tables,
        })
    }
}

impl ExactSizeIterator for Attributes<'_, '_> {
    fn len(&self) -> usize {
        self.rest.len()
    }
}
