//! The name of an element, and the search of its attributes and namespaces.

ghost use Rattle.std.specs.Prelude.{◌≡◌, ◌&&◌, ◌<◌, ◌^◌, length, bytes_eq, option_map, is_some};
ghost use Rattle.rox_grammar.specs.Tree.{uri_of};
ghost use Rattle.roxmltree.specs.NodeParts.{is_element_node, local_of, namespace_of, listed_of, attributes_of};
ghost use Rattle.rox_lists.specs.ExpandedNames.{expanded, same_expanded_name, named, named_locally, prefix_of};
ghost use Rattle.rox_lists.specs.ElementLists.{attribute_of};
ghost use Rattle.roxmltree.specs.NodeRef.{item_of};

use crate::nodes::Node;
use rox_lists::attributes::{Attribute, Attributes};
use rox_lists::names::{ExpandedName, NS_XML_URI, equal_names, name_of_parts};
use rox_lists::namespaces::{NamespaceIter, all_of_scope, no_namespaces};
use rox_lists::search::{named, named_locally, plain_named};
use rox_rows::stored_node::KindRef;

impl<'a, 'input> Node<'a, 'input> {
    /// Returns the expanded name of an element. For other nodes, returns the empty name without a namespace.
    ///
    /// ```
    /// let document = Document::parse(alloc, "<p:e xmlns:p='urn:p'/>")?;
    /// let name = document.root_element().tag_name();
    /// assert!(rt; name.name() == "e");
    /// assert!(rt; name.namespace() == Some("urn:p"));
    /// ```
    #[inline]
    pub fn tag_name(&self) -> ExpandedName<'a, 'input>
        ensures { expanded result ≡ (namespace_of (item_of self.now), local_of (item_of self.now)) }
    {
        name_of_parts(self.name_namespace(), self.local_name())
    }

    /// Returns the local name of an element, or the empty text for other nodes.
    #[inline]
    #[tactic(auto, using(crate::proofs::Bare::local_of_bare))]
    fn local_name(&self) -> &'input str
        ensures { result.now ≡ local_of (item_of self.now) }
    {
        match self.kind() {
            KindRef::Element(element) => element.local,
            _ => "",
        }
    }

    /// Returns whether it is an element with this expanded name (Namespaces in XML 1.0 section 2.1).
    ///
    /// ```
    /// let document = Document::parse(alloc, "<e xmlns='http://www.w3.org'/>")?;
    /// let e = document.root_element();
    /// assert!(rt; e.has_tag_name(("http://www.w3.org", "e").into()));
    /// assert!(rt; !e.has_tag_name("e".into()));
    /// assert!(rt; e.has_local_name("e"));
    /// ```
    #[inline]
    pub fn has_tag_name(&self, name: ExpandedName<'_, '_>) -> bool
        ensures { result
            ≡ (is_element_node (item_of self.now)
            && same_expanded_name (namespace_of (item_of self.now), local_of (item_of self.now))
            (expanded name.entry)) }
    {
        self.is_element()
            && equal_names(self.local_name(), name.name())
            && self.name_namespace() == name.namespace()
    }

    /// Returns whether it is an element with this local name, whatever its namespace.
    #[inline]
    pub fn has_local_name(&self, local: &str) -> bool
        ensures { result
            ≡ (is_element_node (item_of self.now)
            && bytes_eq (local_of (item_of self.now)) local.now) }
    {
        self.is_element() && equal_names(self.local_name(), local)
    }

    /// Returns an iterator over the attributes of an element, in written order, or an empty iterator for other nodes.
    ///
    /// ```
    /// let document = Document::parse(alloc, "<e b='1' a='2'/>")?;
    /// let mut attributes = document.root_element().attributes();
    /// assert!(rt; attributes.len() == 2);
    /// let first = attributes.next().expect(&rt, "an attribute");
    /// assert!(rt; first.name() == "b");
    /// ```
    #[inline]
    pub fn attributes(&self) -> Attributes<'a, 'input>
        ensures value { result ≡ attributes_of (item_of self.now) }
        ensures few { length result < 2 ^ 32 }
    {
        self.document.whole();
        self.own_attributes()
    }

    /// Returns an iterator over the namespaces that an element lists, or an empty iterator for other nodes. Its own come first,
    /// as written. Then come those of its parent whose prefix it does not declare (Namespaces in XML 1.0 section 6).
    ///
    /// ```
    /// let document = Document::parse(alloc, "<r xmlns='urn:d' xmlns:p='urn:p'/>")?;
    /// let mut namespaces = document.root_element().namespaces();
    /// let first = namespaces.next().expect(&rt, "a namespace");
    /// assert!(rt; first.name().is_none());
    /// assert!(rt; first.uri() == "urn:d");
    /// ```
    #[inline]
    pub fn namespaces(&self) -> NamespaceIter<'a, 'input>
        ensures value { result ≡ listed_of (item_of self.now) }
        ensures few { length result < 2 ^ 64 }
    {
        let tables = self.tables;
        let KindRef::Element(element) = tables.nodes.kind(self.row) else {
            return no_namespaces();
        };
        let scopes = tables.scopes.as_slice();
        let listed = tables.listed.as_slice();
        let namespaces = tables.namespaces.as_slice();
        all_of_scope(scopes, listed, namespaces, element.scope)
    }

    /// Returns the attribute with this expanded name, or `None` if there is none.
    ///
    /// ```
    /// let document = Document::parse(alloc, "<e id='x'/>")?;
    /// let id = document.root_element().attribute_node("id".into());
    /// let id = id.expect(&rt, "an attribute");
    /// assert!(rt; id.value() == "x");
    /// assert!(rt; id.range().start == 3);
    /// assert!(rt; id.range_value().start == 7);
    /// ```
    #[inline(always)]
    pub fn attribute_node(&self, name: ExpandedName<'_, '_>) -> Option<Attribute<'a, 'input>>
        ensures { option_map attribute_of result
            ≡ named (expanded name.entry) (attributes_of (item_of self.now)) }
    {
        match name.namespace() {
            None => plain_named(self.attributes(), name.name()),
            Some(_) => named(self.attributes(), &name),
        }
    }

    /// Returns the value of the attribute with this expanded name, or `None` if there is none.
    ///
    /// ```
    /// let document = Document::parse(alloc, "<e xmlns:n='urn:n' a='1' n:a='2'/>")?;
    /// let e = document.root_element();
    /// assert!(rt; e.attribute("a".into()) == Some("1"));
    /// assert!(rt; e.attribute(("urn:n", "a").into()) == Some("2"));
    /// assert!(rt; e.attribute("b".into()).is_none());
    /// ```
    #[inline(always)]
    pub fn attribute(&self, name: ExpandedName<'_, '_>) -> Option<&'a str>
        ensures { option_map (λ s. s.now) result
            ≡ option_map
            (λ a. a.value) (named (expanded name.entry) (attributes_of (item_of self.now))) }
    {
        Some(self.attribute_node(name)?.value())
    }

    /// Returns whether there is an attribute with this expanded name.
    ///
    /// ```
    /// let document = Document::parse(alloc, "<e a='' xml:lang='en'/>")?;
    /// let e = document.root_element();
    /// assert!(rt; e.has_attribute("a".into()));
    /// assert!(rt; e.has_attribute((NS_XML_URI, "lang").into()) && !e.has_attribute("lang".into()));
    /// ```
    #[inline(always)]
    pub fn has_attribute(&self, name: ExpandedName<'_, '_>) -> bool
        ensures { result
            ≡ is_some (named (expanded name.entry) (attributes_of (item_of self.now))) }
    {
        self.attribute_node(name).is_some()
    }

    /// Returns the first attribute with this local name, whatever its namespace, or `None` if there is none.
    ///
    /// ```
    /// let document = Document::parse(alloc, "<e xmlns:n='urn:n' n:a='1'/>")?;
    /// let a = document.root_element().attribute_local("a").expect(&rt, "an attribute");
    /// assert!(rt; a.value() == "1");
    /// assert!(rt; a.namespace() == Some("urn:n"));
    /// ```
    #[inline]
    pub fn attribute_local(&self, local: &str) -> Option<Attribute<'a, 'input>>
        ensures { option_map attribute_of result
            ≡ named_locally local.now (attributes_of (item_of self.now)) }
    {
        named_locally(self.attributes(), local)
    }

    /// Returns the URI that is listed for the default namespace: `Some("")` if `xmlns=''` undeclares it. Returns `None` if none
    /// is listed, as on nodes that are not elements.
    ///
    /// ```
    /// let document = Document::parse(alloc, "<r xmlns='urn:d'><a xmlns=''/></r>")?;
    /// let r = document.root_element();
    /// let a = r.first_child().expect(&rt, "a child");
    /// assert!(rt; r.default_namespace() == Some("urn:d"));
    /// assert!(rt; a.default_namespace() == Some(""));
    /// assert!(rt; document.root().default_namespace().is_none());
    /// ```
    #[inline]
    pub fn default_namespace(&self) -> Option<&'a str>
        ensures { option_map (λ s. s.now) result ≡ uri_of (listed_of (item_of self.now)) None }
    {
        self.lookup_namespace_uri(None)
    }

    /// Returns the URI that is listed for this prefix, or for the default namespace if `prefix` is `None`. It is `Some("")` if
    /// the empty text is declared. Returns `None` if none is listed. That is so for `xml`, which is never listed, and for
    /// `Some("")`, since no prefix is empty. It is so on nodes that are not elements.
    ///
    /// ```
    /// let document = Document::parse(alloc, "<r xmlns:p='urn:p'><a/></r>")?;
    /// let a = document.root_element().first_child().expect(&rt, "a child");
    /// assert!(rt; a.lookup_namespace_uri(Some("p")) == Some("urn:p"));
    /// assert!(rt; a.lookup_namespace_uri(None).is_none());
    /// ```
    #[inline(always)]
    pub fn lookup_namespace_uri(&self, prefix: Option<&str>) -> Option<&'a str>
        ensures { option_map (λ s. s.now) result
            ≡ uri_of (listed_of (item_of self.now)) (option_map (λ s. s.now) prefix.entry) }
    {
        match self.listed_for(prefix) {
            Some(namespace) => Some(namespace.uri()),
            None => None,
        }
    }

    /// Returns `xml` for the URI of `xml` (Namespaces in XML 1.0 section 3), and for another URI the prefix of the first listed
    /// namespace with it, or `None` if that is the default or there is none.
    ///
    /// ```
    /// let document = Document::parse(alloc, "<r xmlns='urn:d' xmlns:p='urn:p'/>")?;
    /// let r = document.root_element();
    /// assert!(rt; r.lookup_prefix("urn:p") == Some("p"));
    /// // the default namespace has no prefix
    /// assert!(rt; r.lookup_prefix("urn:d").is_none());
    /// assert!(rt; r.lookup_prefix("http://www.w3.org/XML/1998/namespace") == Some("xml"));
    /// ```
    #[inline(always)]
    pub fn lookup_prefix(&self, uri: &str) -> Option<&'input str>
        ensures { option_map (λ s. s.now) result
            ≡ prefix_of uri.now (listed_of (item_of self.now)) }
    {
        if equal_names(uri, NS_XML_URI) {
            return Some("xml");
        }
        self.prefix_listed_for(uri)
    }
}
