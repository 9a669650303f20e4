//! A document: the tables of its nodes, which callers see as the one tree that they hold.

ghost use Rattle.std.specs.Prelude.{◌≡◌, ◌^◌, ◌<◌, ◌≤◌, List, length, Some, None, IfSome, IfNone, option_map};
ghost use Rattle.rox_grammar.specs.Forest.{Forest, size};
ghost use Rattle.rox_scopes.specs.NamespaceViews.{namespace_view};
ghost use Rattle.roxmltree.specs.Places.{place, children};
ghost use Rattle.roxmltree.specs.NodeParts.{start_of, end_of, content_of, namespace_of, listed_of, attributes_of};
ghost use Rattle.rox_lists.specs.ExpandedNames.{first_prefix, first_with_prefix};

use crate::iterators::Descendants;
use crate::nodes::{Node, NodeId};
use rox_builder::builder::Builder;
use rox_lists::attributes::Attributes;
use rox_lists::scopes::{first_in_scope, prefix_in_scope};
use rox_lists::search::attributes_at;
use rox_names::tables::{ElementTables, Tables};
use rox_rows::row::namespace_place;
use rox_rows::stored_node::{KindRef, RowRef, StoredNode};
use rox_scopes::namespace::Namespace;
use rox_scopes::namespace_table::NamespaceTable;
use std::marker::Model;

/// An XML document as a read-only tree of nodes.
///
/// ```
/// let document = Document::parse(alloc, "<r><a/>text</r>")?;
/// assert!(rt; document.descendants().count() == 4);
/// assert!(rt; document.root_element().children().count() == 2);
/// ```
#[derive(Drop)]
pub struct Document<'input> {
    text: &'input str,
    pub(crate) tables: Tables<'input>,
    key: u64,
    dtd: bool,
}

impl<'input> Model for Document<'input> {
    ghost use Rattle.roxmltree.specs.DocumentView.{DocumentView};
    ghost use Rattle.roxmltree.specs.DocumentCodes.{document_code};

    ghost Value = { DocumentView };

    ghost coded = { document_code };

    ghost use Rattle.roxmltree.specs.DocumentTables.{document_view, IsDocumentOf};

    ghost view = { document_view };

    ghost invariant = { IsDocumentOf };
}

impl<'input> Document<'input> {
    ghost use Rattle.rox_grammar.specs.Tree as grammar;
    ghost use Rattle.rox_grammar.specs.Doctype.{Asked};
    ghost use Rattle.rox_grammar.specs.Document.{IsTreeOf};
    ghost use Rattle.std.specs.Prelude.{IsUtf8};
    ghost use Rattle.rox_builder.specs.BuilderState.{tables_of};
    ghost use Rattle.rox_names.specs.Tables.{HoldsTree};
    ghost use Rattle.rox_rows.specs.StoredNodes.{kind_of};
    ghost use Rattle.roxmltree.specs.DocumentTables.{HoldsDocument};
    ghost use Rattle.roxmltree.specs.Stripped.{stripped, stripped_row, content_in};
    ghost use Rattle.roxmltree.specs.NodeRef.{number, node_ref, node_refs, id_of, document_of};
    ghost use Rattle.roxmltree.specs.Elements.{nearest_element, root_id};

    /// Returns the document of `text` with the tables of `builder`. `dtd` is whether the text has a document type declaration.
    /// The tables are moved directly into the document: one more move of all of them costs as much as a tag.
    #[inline(always)]
    pub(crate) fn from_builder(
        text: &'input str,
        key: u64,
        dtd: bool,
        builder: Builder<'input>,
    ) -> Document<'input>
        requires { HoldsDocument text.now dtd (tables_of builder) }
        ensures { (tree : Forest grammar.Node) → HoldsTree (tables_of builder.entry) tree
            → result
            ≡ record { tree = tree; text = text.now; key = key; dtd = dtd } }
    {
        let Builder {
            nodes,
            tables,
            opened: _,
            pending: _,
            joined: _,
            buffers: _,
            recent: _,
            nodes_limit: _,
            openings_left: _,
            names_entities: _,
        } = builder;
        let ElementTables {
            attributes,
            namespaces,
            listed,
            scopes,
            present: _,
        } = tables;
        let NamespaceTable {
            items: namespaces,
            places: _,
        } = namespaces;
        Document {
            text,
            tables: Tables {
                nodes,
                attributes,
                namespaces,
                listed,
                scopes,
            },
            key,
            dtd,
        }
    }

    /// States in its contract what is true of every document. It does nothing.
    #[inline]
    pub(crate) fn whole(&self)
        ensures parsed { (asked : List Asked)
            × IsTreeOf self.now.text self.now.dtd asked 4294967295 self.now.tree }
        ensures utf8 { IsUtf8 self.now.text }
    {
        let _ = &self.text;
    }

    /// Returns the number of nodes, the root node included.
    #[inline]
    pub(crate) fn count(&self) -> usize
        ensures value { result ≡ size self.now.tree }
        ensures few { result < 2 ^ 32 }
    {
        self.tables.nodes.len()
    }

    /// Returns the key that the caller gave to distinguish this document's nodes from those of others.
    #[inline]
    pub(crate) fn key(&self) -> u64
        ensures { result ≡ self.now.key }
    {
        self.key
    }

    /// Returns whether the text has a document type declaration.
    #[inline]
    pub(crate) fn has_doctype(&self) -> bool
        ensures { result ≡ self.now.dtd }
    {
        self.dtd
    }

    /// Returns the text that was parsed.
    ///
    /// ```
    /// let document = Document::parse(alloc, "<r><a x='1'>text</a></r>")?;
    /// let a = document.root_element().first_child().expect(&rt, "a child");
    /// let source = document.input_text().get(a.range());
    /// assert!(rt; source == Some("<a x='1'>text</a>"));
    /// ```
    #[inline]
    pub fn input_text(&self) -> &'input str
        ensures { result.now ≡ self.now.text }
    {
        self.text
    }

    /// Returns the root node, the parent of all top-level nodes. Its id is 0.
    #[inline]
    pub fn root(&self) -> Node<'_, 'input>
        ensures id { id_of result ≡ 0 }
        ensures document { document_of result ≡ self.now }
    {
        let _ = &self.tables;
        Node::of(self, NodeId(0))
    }

    /// Returns the outermost element (XML 1.0 section 2.1). Every document has exactly one.
    ///
    /// ```
    /// let document = Document::parse(alloc, "<!-- first --><r/>")?;
    /// assert!(rt; document.root().children().count() == 2);
    /// assert!(rt; document.root_element().id() == NodeId::new(2));
    /// ```
    #[tactic(auto, using(crate::proofs::Tops::root_element_there, crate::proofs::Contained::nearest_is))]
    pub fn root_element(&self) -> Node<'_, 'input>
        ensures element { Some (node_ref result)
            ≡ nearest_element (node_refs self.now (children self.now.tree 0)) }
        ensures id { id_of result ≡ root_id self.now.tree }
        ensures document { document_of result ≡ self.now }
    {
        let _ = &self.tables;
        let root = self.root();
        match root.first_element_child() {
            Some(element) => element,
            None => root,
        }
    }

    /// Returns the node with this id, or `None` if the id is not below the number of nodes.
    ///
    /// ```
    /// let document = Document::parse(alloc, "<r>text</r>")?;
    /// assert!(rt; document.get_node(NodeId::new(0)) == Some(document.root()));
    /// assert!(rt; document.get_node(NodeId::new(3)).is_none());
    /// ```
    #[inline]
    pub fn get_node(&self, id: NodeId) -> Option<Node<'_, 'input>>
        ensures some { IfSome result (λ node. (number id < size self.now.tree)
            × (id_of node ≡ number id) × (document_of node ≡ self.now)) }
        ensures none { IfNone result (size self.now.tree ≤ number id) }
    {
        if (id.0 as usize) < self.count() {
            Some(Node::of(self, id))
        } else {
            None
        }
    }

    /// Returns an iterator over all nodes in document order. The root node is the first.
    ///
    /// ```
    /// let document = Document::parse(alloc, "<r><a x='1'/><b><a x='2'/></b></r>")?;
    /// let mut last = None;
    /// for node in document.descendants() {
    ///     if node.has_tag_name("a".into()) {
    ///         last = node.attribute("x".into());
    ///     }
    /// }
    /// assert!(rt; last == Some("2"));
    /// ```
    #[inline]
    pub fn descendants(&self) -> Descendants<'_, 'input>
        ensures value { result ≡ node_refs self.now (place self.now.tree 0).descendants }
        ensures few { length result < 2 ^ 32 }
    {
        self.root().descendants()
    }
}

/// What the tables hold of a node, whose id is the index of its row.
impl<'a, 'input> Node<'a, 'input> {
    ghost use Rattle.rox_rows.specs.StoredNodes.{kind_of};
    ghost use Rattle.roxmltree.specs.Links.{HasLinks};
    ghost use Rattle.roxmltree.specs.NodeRef.{id_of, item_of};
    ghost use Rattle.roxmltree.specs.Stripped.{stripped, stripped_row, content_in};

    /// Returns the node with this id.
    #[inline(always)]
    pub(crate) fn of(document: &'a Document<'input>, id: NodeId) -> Node<'a, 'input>
        requires { id.0 < size document.now.tree }
        ensures id { result.id ≡ id }
        ensures document { result.document ≡ document.entry }
    {
        let tables = &document.tables;
        Node {
            document,
            tables,
            row: &tables.nodes.rows[id.0 as usize],
            id,
        }
    }

    /// Returns the row of the node, for its links.
    #[inline(always)]
    pub(crate) fn row(&self) -> &'a StoredNode<'input>
        ensures { HasLinks self.now result.now }
    {
        let document = self.document;
        document.whole();
        self.row
    }

    /// Returns the kind of the node.
    #[inline(always)]
    pub(crate) fn kind(&self) -> KindRef<'a, 'input>
        ensures item { let node = item_of self.now in stripped_row (start_of node)
            (end_of node) (kind_of result) ≡ stripped node }
        ensures content { content_in (kind_of result) ≡ content_of (item_of self.now) }
    {
        let tables = self.tables;
        tables.nodes.kind(self.row)
    }

    /// Returns the whole row of the node: its offsets and its kind.
    #[inline(always)]
    pub(crate) fn whole_row(&self) -> RowRef<'a, 'input>
        ensures { stripped_row result.start result.end (kind_of result.kind)
            ≡ stripped (item_of self.now) }
    {
        let tables = self.tables;
        tables.nodes.row(self.id.0 as usize)
    }

    /// Returns the URI of the namespace of an element's name; `None` if there is no namespace or the node is not an element.
    #[inline]
    pub(crate) fn name_namespace(&self) -> Option<&'a str>
        ensures { option_map (λ u. u.now) result ≡ namespace_of (item_of self.now) }
    {
        let tables = self.tables;
        match tables.nodes.kind(self.row) {
            KindRef::Element(element) => match namespace_place(element.namespace) {
                Some(place) => Some(tables.namespaces[place as usize].uri()),
                None => None,
            },
            _ => None,
        }
    }

    /// Returns the attributes of an element, and none for other nodes.
    #[inline]
    #[tactic(auto, using(crate::proofs::Bare::attributes_none))]
    pub(crate) fn own_attributes(&self) -> Attributes<'a, 'input>
        ensures { result ≡ attributes_of (item_of self.now) }
    {
        let tables = self.tables;
        // One comparison is enough for nodes that are not elements, which most nodes of many texts are.
        if !self.is_element() {
            return attributes_at(tables, 0, 0);
        }
        match tables.nodes.kind(self.row) {
            KindRef::Element(element) => {
                let from = element.attributes_from as usize;
                let until = element.attributes_until as usize;
                attributes_at(tables, from, until)
            }
            _ => attributes_at(tables, 0, 0),
        }
    }

    /// Returns the namespace that an element lists for this prefix, or for the default if it is `None`. Returns `None` if there
    /// is no such namespace or the node is not an element.
    #[inline(always)]
    pub(crate) fn listed_for(&self, prefix: Option<&str>) -> Option<&'a Namespace<'input>>
        ensures { option_map (λ n. namespace_view n.now) result
            ≡ first_with_prefix (option_map (λ s. s.now) prefix.entry)
            (listed_of (item_of self.now)) }
    {
        let tables = self.tables;
        if !self.is_element() {
            return None;
        }
        let node_kind = tables.nodes.kind(self.row);
        let namespaces = tables.namespaces.as_slice();
        if namespaces.is_empty() {
            return None;
        }
        let KindRef::Element(element) = node_kind else {
            return None;
        };
        let scopes = tables.scopes.as_slice();
        let listed = tables.listed.as_slice();
        first_in_scope(scopes, listed, namespaces, element.scope, prefix)
    }

    /// Returns the prefix of the first namespace with this URI that an element lists. Returns `None` if that is the default, if
    /// there is no such namespace, or if the node is not an element.
    #[inline(always)]
    pub(crate) fn prefix_listed_for(&self, uri: &str) -> Option<&'input str>
        ensures { option_map (λ s. s.now) result
            ≡ first_prefix uri.now (listed_of (item_of self.now)) }
    {
        let tables = self.tables;
        if !self.is_element() {
            return None;
        }
        let node_kind = tables.nodes.kind(self.row);
        let namespaces = tables.namespaces.as_slice();
        if namespaces.is_empty() {
            return None;
        }
        let KindRef::Element(element) = node_kind else {
            return None;
        };
        let scopes = tables.scopes.as_slice();
        let listed = tables.listed.as_slice();
        prefix_in_scope(scopes, listed, namespaces, element.scope, uri)
    }
}
