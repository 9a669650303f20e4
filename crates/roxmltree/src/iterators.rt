//! Iterators over nodes. After its end, each returns `None` again.

ghost use Rattle.std.specs.Prelude.{◌≡◌, ◌∷◌};

use crate::nodes::{Node, NodeId};
use crate::tree::Document;
use rox_names::tables::Tables;
use rox_rows::stored_node::StoredNode;
use std::alloc::AllocError;
use std::fmt;
use std::marker::Model;

/// The direction of an `AxisIter`.
#[derive(Clone, Copy)]
pub(crate) enum Axis {
    Ancestors,
    PrevSiblings,
    NextSiblings,
    FirstChildren,
    LastChildren,
}

/// An iterator over a node and those after it along an axis. Each node is found only when it is asked for, since a step to an
/// earlier sibling or a last child has to climb.
///
/// ```
/// let document = Document::parse(alloc, "<r lang='en'><a><b/></a></r>")?;
/// let b = document.get_node(NodeId::new(3)).expect(&rt, "a node");
/// let mut lang = None;
/// for node in b.ancestors() {
///     if lang.is_none() {
///         lang = node.attribute("lang".into());
///     }
/// }
/// assert!(rt; lang == Some("en"));
/// ```
#[derive(Drop)]
pub struct AxisIter<'a, 'input> {
    /// The node that was returned last, or the first one. `None` if there are no more nodes.
    pub(crate) node: Option<Node<'a, 'input>>,
    pub(crate) axis: Axis,
    /// Whether `node` was returned.
    pub(crate) given: bool,
}

impl<'a, 'input> Model for AxisIter<'a, 'input> {
    ghost use Rattle.std.specs.Prelude.{List, ℕ};
    ghost use Rattle.roxmltree.specs.DocumentView.{DocumentView};
    ghost use Rattle.roxmltree.specs.DocumentCodes.{node_refs_code};

    ghost Value = { List (DocumentView × ℕ) };

    ghost coded = { node_refs_code };

    ghost use Rattle.roxmltree.specs.AxisNodes.{axis_nodes_left};

    ghost view = { axis_nodes_left };
}

impl<'a, 'input> AxisIter<'a, 'input> {
    ghost use Rattle.std.specs.Prelude.{Some};
    ghost use Rattle.roxmltree.specs.AxisNodes.{axis_nodes_from, after_first};
    ghost use Rattle.roxmltree.specs.NodeRef.{node_ref};

    /// Returns an iterator over `node` and those after it along `axis`.
    #[inline(always)]
    pub(crate) fn along(axis: Axis, node: Node<'a, 'input>) -> AxisIter<'a, 'input>
        ensures { result ≡ axis_nodes_from axis (Some node.entry) }
    {
        AxisIter {
            node: Some(node),
            axis,
            given: false,
        }
    }

    /// Returns the node after this one along an axis, or `None` if there is none.
    #[inline(always)]
    #[tactic(auto, using(crate::proofs::Preorder::parent_is, crate::proofs::Siblings::no_parent, crate::proofs::Siblings::prev_row, crate::proofs::Siblings::no_prev, crate::proofs::Siblings::next_row, crate::proofs::Siblings::no_next, crate::proofs::Siblings::first_children_step, crate::proofs::Siblings::no_first_child, crate::proofs::Siblings::last_children_step, crate::proofs::Siblings::no_last_child))]
    fn step(axis: Axis, node: Node<'a, 'input>) -> Option<Node<'a, 'input>>
        ensures { axis_nodes_from axis (Some node.entry)
            ≡ node_ref node.entry ∷ axis_nodes_from axis result }
    {
        match axis {
            Axis::Ancestors => node.parent(),
            Axis::PrevSiblings => node.prev_sibling(),
            Axis::NextSiblings => node.next_sibling(),
            Axis::FirstChildren => node.first_child(),
            Axis::LastChildren => node.last_child(),
        }
    }

    /// Like `step`, but returns `None` after `None`.
    #[inline(always)]
    fn after(axis: Axis, node: Option<Node<'a, 'input>>) -> Option<Node<'a, 'input>>
        ensures { axis_nodes_from axis result ≡ after_first (axis_nodes_from axis node.entry) }
    {
        match node {
            None => None,
            Some(node) => AxisIter::step(axis, node),
        }
    }
}

impl<'a, 'input> AxisIter<'a, 'input> {
    ghost use Rattle.std.specs.Option.{option_map};
    ghost use Rattle.roxmltree.specs.Elements.{nearest_element};
    ghost use Rattle.roxmltree.specs.NodeRef.{node_ref};

    /// Returns the first element of these nodes, or `None` if there is none.
    #[inline(always)]
    pub(crate) fn first_element(mut nodes: AxisIter<'a, 'input>) -> Option<Node<'a, 'input>>
        ensures { option_map node_ref result ≡ nearest_element nodes.entry }
    {
        while let Some(node) = nodes.next() {
            if node.is_element() {
                return Some(node);
            }
        }
        None
    }
}

impl<'a, 'input> AxisIter<'a, 'input> {
    ghost use Rattle.std.specs.Prelude.{◌≡◌};

    /// Returns an iterator over the nodes that are left.
    fn copy(&self) -> AxisIter<'a, 'input>
        ensures { result ≡ self.now }
    {
        AxisIter {
            node: self.node,
            axis: self.axis,
            given: self.given,
        }
    }
}

impl Clone for AxisIter<'_, '_> {
    ghost use Rattle.std.specs.Prelude.{◌≡◌, ⊤};

    ghost is_clone = { λ nodes copy. copy ≡ nodes };

    ghost is_infallible = { λ _. ⊤ };

    fn clone(&self) -> Result<Self, AllocError> {
        Ok(self.copy())
    }
}

/// Prints the first node that is left.
impl fmt::Debug for AxisIter<'_, '_> {
    fn fmt<W: fmt::Write>(&self, f: &mut fmt::Formatter<W>) -> fmt::Result {
        let node = self.copy().next();
        f.debug_struct("AxisIter").field("node", &node).finish()
    }
}

impl<'a, 'input> Iterator for AxisIter<'a, 'input> {
    type Item = Node<'a, 'input>;

    ghost use Rattle.std.specs.Iterator.{YieldsFirstBy, item_count};
    ghost use Rattle.roxmltree.specs.NodeRef.{node_ref};

    ghost next_gives = { YieldsFirstBy node_ref (λ s. s) };

    ghost remaining = { item_count (λ s. s) };

    #[inline(always)]
    #[tactic(auto, using(crate::proofs::Axes::starts))]
    fn next(&mut self) -> Option<Node<'a, 'input>> {
        if self.given {
            self.node = AxisIter::after(self.axis, self.node);
        }
        self.given = true;
        self.node
    }
}

/// An iterator over a node and its descendants in document order, from both ends.
///
/// ```
/// let document = Document::parse(alloc, "<r>one<a>two</a></r>")?;
/// let mut nodes = document.root_element().descendants();
/// assert!(rt; nodes.len() == 4);
/// assert!(rt; nodes.next() == Some(document.root_element()));
/// ```
#[derive(Drop)]
pub struct Descendants<'a, 'input> {
    pub(crate) document: &'a Document<'input>,
    pub(crate) tables: &'a Tables<'input>,
    // the rows that are left, so that each step goes from row to row, and the id of the first
    pub(crate) rest: &'a [StoredNode<'input>],
    pub(crate) from: NodeId,
}

impl<'a, 'input> Model for Descendants<'a, 'input> {
    ghost use Rattle.std.specs.Prelude.{List, ℕ};
    ghost use Rattle.roxmltree.specs.DocumentView.{DocumentView};
    ghost use Rattle.roxmltree.specs.DocumentCodes.{node_refs_code};

    ghost Value = { List (DocumentView × ℕ) };

    ghost coded = { node_refs_code };

    ghost use Rattle.roxmltree.specs.DescendantsLeft.{in_range, IsRange};

    ghost view = { in_range };

    ghost invariant = { IsRange };
}

impl<'a, 'input> Descendants<'a, 'input> {
    ghost use Rattle.std.specs.Prelude.{◌≡◌};

    /// Returns an iterator over the nodes that are left.
    fn copy(&self) -> Descendants<'a, 'input>
        ensures { result ≡ self.now }
    {
        Descendants {
            document: self.document,
            tables: self.tables,
            rest: self.rest,
            from: self.from,
        }
    }
}

impl Clone for Descendants<'_, '_> {
    ghost use Rattle.std.specs.Prelude.{◌≡◌, ⊤};

    ghost is_clone = { λ nodes copy. copy ≡ nodes };

    ghost is_infallible = { λ _. ⊤ };

    fn clone(&self) -> Result<Self, AllocError> {
        Ok(self.copy())
    }
}

/// Prints the first and the last node that are left.
impl fmt::Debug for Descendants<'_, '_> {
    fn fmt<W: fmt::Write>(&self, f: &mut fmt::Formatter<W>) -> fmt::Result {
        let front = self.copy().next();
        let back = self.copy().next_back();
        f.debug_struct("Descendants")
            .field("front", &front)
            .field("back", &back)
            .finish()
    }
}

impl<'a, 'input> Iterator for Descendants<'a, 'input> {
    type Item = Node<'a, 'input>;

    ghost use Rattle.std.specs.Prelude.{Some, IfSome, length};
    ghost use Rattle.std.specs.Iterator.{YieldsFirstBy, item_count, UpTo};
    ghost use Rattle.std.specs.Iterator.SizeHint.{IsWithinCount};
    ghost use Rattle.roxmltree.specs.NodeRef.{node_ref};

    ghost next_gives = { YieldsFirstBy node_ref (λ s. s) };

    ghost remaining = { item_count (λ s. s) };

    #[inline]
    #[tactic(auto, using(crate::proofs::Ranges::spots_first, crate::proofs::Ranges::spots_length))]
    fn next(&mut self) -> Option<Node<'a, 'input>> {
        let rest = self.rest;
        if rest.is_empty() {
            return None;
        }
        let id = self.from;
        self.from = NodeId(id.0 + 1);
        self.rest = &rest[1..];
        Some(Node {
            document: self.document,
            tables: self.tables,
            row: &rest[0],
            id,
        })
    }

    fn size_hint(&self) -> (usize, Option<usize>)
        ensures lower { IsWithinCount result.0 (item_count (λ s. s) self.now) }
        ensures upper { IfSome result.1 (UpTo (item_count (λ s. s) self.now)) }
        ensures exact { result ≡ (length self.now, Some (length self.now)) }
    {
        let left = self.len();
        (left, Some(left))
    }
}

impl<'a, 'input> DoubleEndedIterator for Descendants<'a, 'input> {
    ghost use Rattle.std.specs.Iterator.{YieldsLastBy};
    ghost use Rattle.roxmltree.specs.NodeRef.{node_ref};

    ghost next_back_gives = { YieldsLastBy node_ref (λ s. s) };

    #[inline]
    #[tactic(auto, using(crate::proofs::Ranges::spots_last, crate::proofs::Ranges::spots_length))]
    fn next_back(&mut self) -> Option<Node<'a, 'input>> {
        let rest = self.rest;
        if rest.is_empty() {
            return None;
        }
        let last = rest.len() - 1;
        self.rest = &rest[..last];
        Some(Node {
            document: self.document,
            tables: self.tables,
            row: &rest[last],
            id: NodeId(self.from.0 + last as u32),
        })
    }
}

/// An iterator over the children of a node in document order, from both ends.
///
/// ```
/// let document = Document::parse(alloc, "<r>one<a/>two</r>")?;
/// let mut children = document.root_element().children();
/// let last = children.next_back().expect(&rt, "a child");
/// assert!(rt; last.text() == Some("two"));
/// assert!(rt; children.count() == 2);
/// ```
#[derive(Drop)]
pub struct Children<'a, 'input> {
    pub(crate) document: &'a Document<'input>,
    // the children from the id `from` on that end before the id `until` are left
    pub(crate) from: NodeId,
    pub(crate) until: NodeId,
    pub(crate) parent: NodeId,
}

impl<'a, 'input> Model for Children<'a, 'input> {
    ghost use Rattle.std.specs.Prelude.{List, ℕ};
    ghost use Rattle.roxmltree.specs.DocumentView.{DocumentView};
    ghost use Rattle.roxmltree.specs.DocumentCodes.{node_refs_code};

    ghost Value = { List (DocumentView × ℕ) };

    ghost coded = { node_refs_code };

    ghost use Rattle.roxmltree.specs.ChildrenLeft.{left, IsChildrenStretch};

    ghost view = { left };

    ghost invariant = { IsChildrenStretch };
}

impl<'a, 'input> Children<'a, 'input> {
    ghost use Rattle.std.specs.Prelude.{reverse};
    ghost use Rattle.std.specs.Option.{option_map};
    ghost use Rattle.roxmltree.specs.Elements.{nearest_element};
    ghost use Rattle.roxmltree.specs.NodeRef.{node_ref};

    /// Returns the first element of these nodes, or `None` if there is none.
    #[inline]
    pub(crate) fn first_element(mut nodes: Children<'a, 'input>) -> Option<Node<'a, 'input>>
        ensures { option_map node_ref result ≡ nearest_element nodes.entry }
    {
        while let Some(node) = nodes.next() {
            if node.is_element() {
                return Some(node);
            }
        }
        None
    }

    /// Returns the last element of these nodes, or `None` if there is none.
    #[inline]
    pub(crate) fn last_element(mut nodes: Children<'a, 'input>) -> Option<Node<'a, 'input>>
        ensures { option_map node_ref result ≡ nearest_element (reverse nodes.entry) }
    {
        while let Some(node) = nodes.next_back() {
            if node.is_element() {
                return Some(node);
            }
        }
        None
    }
}

impl<'a, 'input> Children<'a, 'input> {
    ghost use Rattle.std.specs.Prelude.{◌≡◌};

    /// Returns an iterator over the nodes that are left.
    fn copy(&self) -> Children<'a, 'input>
        ensures { result ≡ self.now }
    {
        Children {
            document: self.document,
            from: self.from,
            until: self.until,
            parent: self.parent,
        }
    }
}

impl Clone for Children<'_, '_> {
    ghost use Rattle.std.specs.Prelude.{◌≡◌, ⊤};

    ghost is_clone = { λ nodes copy. copy ≡ nodes };

    ghost is_infallible = { λ _. ⊤ };

    fn clone(&self) -> Result<Self, AllocError> {
        Ok(self.copy())
    }
}

/// Prints the first and the last node that are left.
impl fmt::Debug for Children<'_, '_> {
    fn fmt<W: fmt::Write>(&self, f: &mut fmt::Formatter<W>) -> fmt::Result {
        let front = self.copy().next();
        let back = self.copy().next_back();
        f.debug_struct("Children")
            .field("front", &front)
            .field("back", &back)
            .finish()
    }
}

impl<'a, 'input> Iterator for Children<'a, 'input> {
    type Item = Node<'a, 'input>;

    ghost use Rattle.std.specs.Iterator.{YieldsFirstBy, item_count};
    ghost use Rattle.roxmltree.specs.NodeRef.{node_ref};

    ghost next_gives = { YieldsFirstBy node_ref (λ s. s) };

    ghost remaining = { item_count (λ s. s) };

    #[inline]
    #[tactic(auto, using(crate::proofs::Stretches::front_left, crate::proofs::Stretches::front_rest, crate::proofs::Stretches::front_none))]
    fn next(&mut self) -> Option<Node<'a, 'input>> {
        if self.from.0 >= self.until.0 {
            return None;
        }
        let document = self.document;
        let front = Node::of(document, self.from);
        self.from = NodeId(front.row().subtree_end);
        Some(front)
    }
}

impl<'a, 'input> DoubleEndedIterator for Children<'a, 'input> {
    ghost use Rattle.std.specs.Iterator.{YieldsLastBy};
    ghost use Rattle.roxmltree.specs.NodeRef.{node_ref};

    ghost next_back_gives = { YieldsLastBy node_ref (λ s. s) };

    #[inline]
    #[tactic(auto, using(crate::proofs::Stretches::back_left, crate::proofs::Stretches::back_rest, crate::proofs::Stretches::back_fewer, crate::proofs::Stretches::front_none))]
    fn next_back(&mut self) -> Option<Node<'a, 'input>> {
        if self.from.0 >= self.until.0 {
            return None;
        }
        let document = self.document;
        let below = Node::of(document, NodeId(self.until.0 - 1));
        let back = below.climb(self.parent);
        self.until = back.id;
        Some(back)
    }
}

impl ExactSizeIterator for Descendants<'_, '_> {
    #[tactic(auto, using(crate::proofs::Ranges::spots_length))]
    fn len(&self) -> usize {
        self.rest.len()
    }
}
