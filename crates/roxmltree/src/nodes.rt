//! A node of a document, its id, and its neighbours.

ghost use Rattle.std.specs.Prelude.{◌≡◌, ◌+◌, ◌^◌, ◌<◌, ◌≤◌, length, ◌∷◌, IsTrue, ◌↔◌, ◌≢◌, ◌⊎◌, reverse, option_map};
ghost use Rattle.rox_grammar.specs.Forest.{size};
ghost use Rattle.roxmltree.specs.NodeRows.{IsRowOf, IsRowOf-prop};
ghost use Rattle.roxmltree.specs.Places.{place, parent, children, first_child, last_child, next_sibling, prev_sibling};
ghost use Rattle.roxmltree.specs.Climbing.{up_to};

use crate::iterators::{Axis, AxisIter, Children, Descendants};
use crate::tree::Document;
use rox_names::tables::Tables;
use rox_rows::stored_node::StoredNode;
use std::fmt;

/// The id of a node: its index in document order. The root node has 0.
///
/// ```
/// let document = Document::parse(alloc, "<r><a/></r>")?;
/// let a = document.root_element().first_child().expect(&rt, "a child");
/// assert!(rt; a.id() == NodeId::new(2));
/// assert!(rt; a.id().get() == 2);
/// ```
#[derive(Clone, Copy, PartialEq, Eq, PartialOrd, Ord, Hash, Debug)]
pub struct NodeId(pub(crate) u32);

/// The error for a number that is not a node's id: it is above `u32::MAX`.
///
/// ```
/// assert!(rt; NodeId::try_from(4294967296usize) == Err(NodeIdTooLarge));
/// ```
#[derive(Clone, Copy, PartialEq, Eq, Debug)]
pub struct NodeIdTooLarge;

impl NodeId {
    ghost use Rattle.roxmltree.specs.NodeRef.{number};

    /// Returns the id with this number.
    #[inline]
    pub fn new(id: u32) -> NodeId
        ensures { number result ≡ id }
    {
        NodeId(id)
    }

    /// Returns its number.
    #[inline]
    pub fn get(self) -> u32
        ensures { result ≡ number self }
    {
        self.0
    }

    /// Returns its number as an index.
    #[inline]
    pub fn get_usize(self) -> usize
        ensures { result ≡ number self }
    {
        self.get() as usize
    }
}

impl From<u32> for NodeId {
    ghost use Rattle.roxmltree.specs.NodeRef.{number};

    ghost from_gives = { λ n id. number id ≡ n };

    fn from(id: u32) -> NodeId {
        NodeId::new(id)
    }
}

impl TryFrom<usize> for NodeId {
    type Error = NodeIdTooLarge;

    ghost use Rattle.std.specs.Prelude.{MatchResult};
    ghost use Rattle.roxmltree.specs.NodeRef.{number};

    ghost try_from_gives = { λ n r. MatchResult r (λ id. number id ≡ n) (λ _. 2 ^ 32 ≤ n) };

    fn try_from(id: usize) -> Result<NodeId, NodeIdTooLarge> {
        if id > u32::MAX as usize {
            return Err(NodeIdTooLarge);
        }
        Ok(NodeId(id as u32))
    }
}

impl fmt::Display for NodeIdTooLarge {
    ghost use Rattle.std.specs.Prelude.{Some, codes};

    ghost output = { λ _. Some (codes "a node's id is at most 4294967295") };

    fn fmt<W: fmt::Write>(&self, f: &mut fmt::Formatter<W>) -> fmt::Result {
        write!(f, "a node's id is at most 4294967295")
    }
}

impl std::error::Error for NodeIdTooLarge {}

/// A node of a document. Nodes are equal, ordered and hashed by the key of their document (`ParsingOptions::document_key`) and by
/// their id. The key is 0 if none is given, so nodes of two documents may be equal. Give each document its own key to distinguish
/// them.
///
/// ```
/// let document = Document::parse(alloc, "<r><a/><b/></r>")?;
/// let a = document.root_element().first_child().expect(&rt, "a child");
/// let b = a.next_sibling().expect(&rt, "a sibling");
/// assert!(rt; a.tag_name().name() == "a");
/// assert!(rt; b.parent() == a.parent());
/// assert!(rt; a < b);
/// ```
#[derive(Clone, Copy)]
pub struct Node<'a, 'input> {
    pub(crate) document: &'a Document<'input>,
    /// The tables of the document.
    pub(crate) tables: &'a Tables<'input>,
    /// The row of the node in the tables, which is found once for all calls on the node.
    pub(crate) row: &'a StoredNode<'input>,
    pub(crate) id: NodeId,
    ghost in_tree: { id.0 < size document.now.tree },
    ghost placed: { IsRowOf tables.now document.now.tree id.0 row.now } by { IsRowOf-prop tables.now document.now.tree id.0 row.now },
}

impl<'a, 'input> Node<'a, 'input> {
    ghost use Rattle.std.specs.Prelude.{All};
    ghost use Rattle.roxmltree.specs.GivesNode.{GivesNode};
    ghost use Rattle.roxmltree.specs.LaterNodes.{IsLater};
    ghost use Rattle.roxmltree.specs.Elements.{nearest_element};
    ghost use Rattle.roxmltree.specs.NodeRef.{number, id_of, document_of, tree_of, node_ref, node_refs};

    /// Returns the document that it is in.
    #[inline]
    pub fn document(&self) -> &'a Document<'input>
        ensures { result.now ≡ document_of self.now }
    {
        self.document
    }

    /// Returns its id: its index in document order, from 0.
    #[inline]
    pub fn id(&self) -> NodeId
        ensures { number result ≡ id_of self.now }
    {
        self.id
    }

    /// Returns the node that it is a child of, or `None` for the root node.
    ///
    /// ```
    /// let document = Document::parse(alloc, "<r>one<a/>two</r>")?;
    /// let r = document.root_element();
    /// let a = r.first_element_child().expect(&rt, "an element");
    /// assert!(rt; a.parent() == Some(r));
    /// assert!(rt; a.prev_sibling() == r.first_child());
    /// assert!(rt; a.next_sibling() == r.last_child());
    /// ```
    #[inline]
    #[tactic(auto, using(crate::proofs::Preorder::parent_is))]
    pub fn parent(&self) -> Option<Node<'a, 'input>>
        ensures { GivesNode self.now (parent (tree_of self.now) (id_of self.now)) result }
    {
        let document = self.document;
        let row = self.row();
        if self.id.0 == 0 {
            None
        } else {
            Some(Node::of(document, NodeId(row.parent)))
        }
    }

    /// Returns its first child, or `None` if it has none.
    #[inline]
    #[tactic(auto, using(crate::proofs::Preorder::place_end, crate::proofs::Preorder::first_child_some, crate::proofs::Preorder::first_child_none))]
    pub fn first_child(&self) -> Option<Node<'a, 'input>>
        ensures { GivesNode self.now (first_child (tree_of self.now) (id_of self.now)) result }
    {
        let document = self.document;
        let subtree_end = self.row().subtree_end;
        if subtree_end - self.id.0 > 1 {
            Some(Node::of(document, NodeId(self.id.0 + 1)))
        } else {
            None
        }
    }

    /// Returns the child of its parent right after it, or `None` if it is the last.
    #[inline]
    pub fn next_sibling(&self) -> Option<Node<'a, 'input>>
        ensures { GivesNode self.now (next_sibling (tree_of self.now) (id_of self.now)) result }
    {
        let document = self.document;
        let row = self.row();
        let id = NodeId(row.subtree_end);
        if (id.0 as usize) >= document.count() {
            return None;
        }
        let next = Node::of(document, id);
        if next.row().parent == row.parent {
            Some(next)
        } else {
            None
        }
    }

    /// Returns, of this node and its ancestors, the one that is a child of `ancestor`, which is an ancestor of this node.
    #[inline]
    #[tactic(auto, using(crate::proofs::Preorder::up_to_here))]
    pub(crate) fn climb(self, ancestor: NodeId) -> Node<'a, 'input>
        requires { parent (tree_of self) (up_to (tree_of self) (id_of self) (number ancestor))
            ≡ Some (number ancestor) }
        ensures id { id_of result
            ≡ up_to (tree_of self.entry) (id_of self.entry) (number ancestor) }
        ensures document { result.document ≡ self.entry.document }
    {
        let document = self.document;
        let mut node = self;
        while node.row().parent != ancestor.0 {
            node = Node::of(document, NodeId(node.row().parent));
        }
        node
    }

    /// Returns its last child, or `None` if it has none.
    #[inline]
    #[tactic(auto, using(crate::proofs::Preorder::place_end, crate::proofs::Preorder::last_child_some, crate::proofs::Preorder::last_child_none, crate::proofs::Preorder::last_child_under))]
    pub fn last_child(&self) -> Option<Node<'a, 'input>>
        ensures { GivesNode self.now (last_child (tree_of self.now) (id_of self.now)) result }
    {
        let document = self.document;
        let row = self.row();
        if row.subtree_end - self.id.0 > 1 {
            let last = Node::of(document, NodeId(row.subtree_end - 1));
            Some(last.climb(self.id))
        } else {
            None
        }
    }

    /// Returns the child of its parent right before it, or `None` if it is the first.
    #[inline]
    #[tactic(auto, using(crate::proofs::Preorder::prev_sibling_some, crate::proofs::Preorder::prev_sibling_under))]
    pub fn prev_sibling(&self) -> Option<Node<'a, 'input>>
        ensures { GivesNode self.now (prev_sibling (tree_of self.now) (id_of self.now)) result }
    {
        let document = self.document;
        let parent = self.row().parent;
        // This is so of the root node and of a first child.
        if self.id.0 as usize <= parent as usize + 1 {
            return None;
        }
        let before = Node::of(document, NodeId(self.id.0 - 1));
        Some(before.climb(NodeId(parent)))
    }

    /// Returns an iterator over its children, in document order. Each child has a greater id than this node, so a recursion over
    /// children ends.
    ///
    /// ```
    /// let document = Document::parse(alloc, "<r>one<a/>two</r>")?;
    /// let mut children = document.root_element().children();
    /// let last = children.next_back().expect(&rt, "a child");
    /// assert!(rt; last.text() == Some("two"));
    /// assert!(rt; children.count() == 2);
    /// ```
    #[inline]
    #[tactic(auto, using(crate::proofs::Preorder::place_end, crate::proofs::Stretches::children_left, crate::proofs::Stretches::children_stretch, crate::proofs::Few::few_left_of_children, crate::proofs::LaterChildren::left_later))]
    pub fn children(&self) -> Children<'a, 'input>
        ensures value { result
            ≡ node_refs (document_of self.now) (children (tree_of self.now) (id_of self.now)) }
        ensures few { length result < 2 ^ 32 }
        ensures later { All (IsLater (node_ref self.now)) result }
    {
        let document = self.document;
        let row = self.row();
        Children {
            document,
            from: NodeId(self.id.0 + 1),
            until: NodeId(row.subtree_end),
            parent: self.id,
        }
    }

    /// Returns an iterator over the node itself and all its descendants, in document order.
    ///
    /// ```
    /// let document = Document::parse(alloc, "<r>one<a>two</a></r>")?;
    /// let mut nodes = document.root_element().descendants();
    /// assert!(rt; nodes.len() == 4);
    /// assert!(rt; nodes.next() == Some(document.root_element()));
    /// ```
    #[inline]
    #[tactic(auto, using(crate::proofs::Preorder::place_end, crate::proofs::Siblings::descendants_is, crate::proofs::Ranges::spots_length))]
    pub fn descendants(&self) -> Descendants<'a, 'input>
        ensures value { result
            ≡ node_refs (document_of self.now)
            (place (tree_of self.now) (id_of self.now)).descendants }
        ensures few { length result < 2 ^ 32 }
    {
        let document = self.document;
        let until = self.row().subtree_end;
        let tables = self.tables;
        let rest = &tables.nodes.rows[self.id.0 as usize..until as usize];
        Descendants {
            document,
            tables,
            rest,
            from: self.id,
        }
    }

    /// Returns an iterator over the node itself and its ancestors, nearest first.
    ///
    /// ```
    /// let document = Document::parse(alloc, "<r lang='en'><a><b/></a></r>")?;
    /// let b = document.get_node(NodeId::new(3)).expect(&rt, "a node");
    /// let mut lang = None;
    /// for node in b.ancestors() {
    ///     if lang.is_none() {
    ///         lang = node.attribute("lang".into());
    ///     }
    /// }
    /// assert!(rt; lang == Some("en"));
    /// ```
    #[inline]
    #[tactic(auto, using(crate::proofs::Preorder::depth_le, crate::proofs::Ranges::length_spots))]
    pub fn ancestors(&self) -> AxisIter<'a, 'input>
        ensures value { result
            ≡ node_refs (document_of self.now) (id_of self.now
            ∷ (place (tree_of self.now) (id_of self.now)).above) }
        ensures few { length result < 2 ^ 32 }
    {
        let _nodes = self.document.count();
        AxisIter::along(Axis::Ancestors, *self)
    }

    /// Returns an iterator over the node itself and its siblings before it, nearest first.
    #[inline]
    #[tactic(auto, using(crate::proofs::Few::few_before, crate::proofs::Ranges::length_spots))]
    pub fn prev_siblings(&self) -> AxisIter<'a, 'input>
        ensures value { result
            ≡ node_refs (document_of self.now) (id_of self.now
            ∷ (place (tree_of self.now) (id_of self.now)).before) }
        ensures few { length result < 2 ^ 32 }
    {
        let _nodes = self.document.count();
        AxisIter::along(Axis::PrevSiblings, *self)
    }

    /// Returns an iterator over the node itself and its siblings after it, nearest first.
    #[inline]
    #[tactic(auto, using(crate::proofs::Few::few_after, crate::proofs::Ranges::length_spots))]
    pub fn next_siblings(&self) -> AxisIter<'a, 'input>
        ensures value { result
            ≡ node_refs (document_of self.now) (id_of self.now
            ∷ (place (tree_of self.now) (id_of self.now)).after) }
        ensures few { length result < 2 ^ 32 }
    {
        let _nodes = self.document.count();
        AxisIter::along(Axis::NextSiblings, *self)
    }

    /// Returns an iterator over the node itself, its first child, the first child of that, and so on.
    #[inline]
    #[tactic(auto, using(crate::proofs::Few::few_first_children, crate::proofs::Ranges::length_spots))]
    pub fn first_children(&self) -> AxisIter<'a, 'input>
        ensures value { result
            ≡ node_refs (document_of self.now)
            (place (tree_of self.now) (id_of self.now)).first_children }
        ensures few { length result < 2 ^ 32 }
    {
        let _nodes = self.document.count();
        AxisIter::along(Axis::FirstChildren, *self)
    }

    /// Returns an iterator over the node itself, its last child, the last child of that, and so on.
    #[inline]
    #[tactic(auto, using(crate::proofs::Few::few_last_children, crate::proofs::Ranges::length_spots))]
    pub fn last_children(&self) -> AxisIter<'a, 'input>
        ensures value { result
            ≡ node_refs (document_of self.now)
            (place (tree_of self.now) (id_of self.now)).last_children }
        ensures few { length result < 2 ^ 32 }
    {
        let _nodes = self.document.count();
        AxisIter::along(Axis::LastChildren, *self)
    }

    /// Returns the nearest ancestor that is an element, or `None` if there is none.
    #[inline]
    pub fn parent_element(&self) -> Option<Node<'a, 'input>>
        ensures { option_map node_ref result
            ≡ nearest_element
            (node_refs (document_of self.now) (place (tree_of self.now) (id_of self.now)).above) }
    {
        let mut nodes = self.ancestors();
        nodes.next();
        AxisIter::first_element(nodes)
    }

    /// Returns the nearest element among its siblings before it, or `None` if there is none.
    #[inline]
    pub fn prev_sibling_element(&self) -> Option<Node<'a, 'input>>
        ensures { option_map node_ref result
            ≡ nearest_element
            (node_refs (document_of self.now) (place (tree_of self.now) (id_of self.now)).before) }
    {
        let mut nodes = self.prev_siblings();
        nodes.next();
        AxisIter::first_element(nodes)
    }

    /// Returns the nearest element among its siblings after it, or `None` if there is none.
    #[inline]
    pub fn next_sibling_element(&self) -> Option<Node<'a, 'input>>
        ensures { option_map node_ref result
            ≡ nearest_element
            (node_refs (document_of self.now) (place (tree_of self.now) (id_of self.now)).after) }
    {
        let mut nodes = self.next_siblings();
        nodes.next();
        AxisIter::first_element(nodes)
    }

    /// Returns the first element among its children, or `None` if there is none.
    #[inline]
    pub fn first_element_child(&self) -> Option<Node<'a, 'input>>
        ensures { option_map node_ref result
            ≡ nearest_element
            (node_refs (document_of self.now) (children (tree_of self.now) (id_of self.now))) }
    {
        Children::first_element(self.children())
    }

    /// Returns the last element among its children, or `None` if there is none.
    #[inline]
    pub fn last_element_child(&self) -> Option<Node<'a, 'input>>
        ensures { option_map node_ref result
            ≡ nearest_element
            (reverse (node_refs (document_of self.now)
            (children (tree_of self.now) (id_of self.now)))) }
    {
        Children::last_element(self.children())
    }

    /// Returns whether it has a child.
    #[inline]
    pub fn has_children(&self) -> bool
        ensures { IsTrue result ↔ (first_child (tree_of self.now) (id_of self.now) ≢ None) }
    {
        self.first_child().is_some()
    }

    /// Returns whether its parent has another child.
    #[inline]
    pub fn has_siblings(&self) -> bool
        ensures { IsTrue result ↔ ((next_sibling (tree_of self.now) (id_of self.now) ≢ None) ⊎
            (prev_sibling (tree_of self.now) (id_of self.now) ≢ None)) }
    {
        self.prev_sibling().is_some() || self.next_sibling().is_some()
    }
}
