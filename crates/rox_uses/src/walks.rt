//! Walks over a tree: by recursion, and by chains of iterators.
//!
//! ```
//! use rox_uses::{element_by_id, first_with_id, last_with_id, levels, source_of};
//!
//! let text = "<r xmlns:n='u'><a n:id='x'/><b id='y'><c id='x'/></b><d id='x'/></r>";
//! let document = Document::parse(alloc, text)?;
//! // `n:id` is another attribute
//! let c = element_by_id(&document, "x").expect(&rt, "an element");
//! assert!(rt; source_of(c) == Some("<c id='x'/>"));
//! assert!(rt; first_with_id(&document, "x") == Some(c));
//! let d = last_with_id(&document, "x").expect(&rt, "an element");
//! assert!(rt; d.has_tag_name("d".into()));
//! assert!(rt; first_with_id(&document, "").is_none());
//! assert!(rt; last_with_id(&document, "z").is_none());
//! assert!(rt; levels(document.root()) == 4);
//! assert!(rt; levels(c) == 1);
//! assert!(rt; source_of(document.root()) == Some(text));
//! ```

ghost use Rattle.std.specs.Prelude.{◌≡◌, ◌+◌, ◌^◌, ◌<◌, ◌≤◌, true, false, None, IfSome, IsNone, filter, slice_range, option_map, IsCharBoundary};
ghost use Rattle.std.specs.List.{find, last_or};
ghost use Rattle.roxmltree.specs.NodeParts.{is_element_node, start_of, end_of};
ghost use Rattle.roxmltree.specs.NodeRef.{node_ref, document_of, id_of, item_of};
ghost use Rattle.roxmltree.specs.LaterNodes.{nodes_left_from};
ghost use Rattle.rox_uses.specs.Ids.{has_id};
ghost use Rattle.rox_uses.specs.Levels.{levels_of};
ghost use Rattle.rox_uses.specs.Nodes.{nodes_of};

use rox_laws::laws::element_is_a_slice;
use roxmltree::{Document, Node};

/// Returns the number of levels of the tree from a node down: 1 for a node without children.
///
/// The recursion ends, as each child has fewer nodes from it on in document order than its parent. The sum does not wrap, as each
/// level has a greater id than the one above it.
#[tactic(auto, using(crate::proofs::NodeLevels::levels_are))]
pub fn levels(node: Node<'_, '_>) -> usize
    ensures levels { result ≡ levels_of (node_ref node.entry) }
    ensures some { 0 < result }
    ensures few { result ≤ nodes_left_from node.entry }
    ensures ids { id_of node.entry + result ≤ 2 ^ 32 }
{
    let mut below: usize = 0;
    for child in node.children() {
        below = below.max(levels(child));
    }
    below + 1
}

/// Returns whether the attribute `id` of a node has this value.
fn is_named(node: &Node<'_, '_>, id: &str) -> bool
    ensures { result ≡ has_id id.now (node_ref node.now) }
{
    node.attribute("id".into()) == Some(id)
}

/// Returns the first element, in document order, whose attribute `id` has this value: `element_by_id` as a chain.
pub fn first_with_id<'a, 'input>(
    document: &'a Document<'input>,
    id: &str,
) -> Option<Node<'a, 'input>>
    ensures { option_map node_ref result ≡ find (has_id id.now) (nodes_of document.now) }
{
    document.descendants().find(|node| is_named(node, id))
}

/// Returns the last element, in document order, whose attribute `id` has this value.
pub fn last_with_id<'a, 'input>(
    document: &'a Document<'input>,
    id: &str,
) -> Option<Node<'a, 'input>>
    ensures { option_map node_ref result
        ≡ last_or None (filter (has_id id.now) (nodes_of document.now)) }
{
    document
        .descendants()
        .filter(|node| is_named(node, id))
        .last()
}

/// Returns the slice of the document's text that a node's range selects, or `None` if the range does not fit that text. For a
/// node from a resolver's answer the range counts in that answer, so the slice is not its source.
pub fn source_of<'input>(node: Node<'_, 'input>) -> Option<&'input str>
    ensures some { IfSome result
        (λ source. source.now
        ≡ slice_range (document_of node.entry).text (start_of (item_of node.entry))
        (end_of (item_of node.entry))) }
    ensures none { IsNone result → start_of (item_of node.entry) ≤ end_of (item_of node.entry)
        → IsCharBoundary (document_of node.entry).text (start_of (item_of node.entry))
        → ¬ IsCharBoundary (document_of node.entry).text (end_of (item_of node.entry)) }
{
    node.document().input_text().get(node.range())
}

/// Returns the source of an element, from its `<` to its `>`.
pub fn element_source<'input>(element: Node<'_, 'input>) -> &'input str
    requires no_doctype { (document_of element).dtd ≡ false }
    requires element { is_element_node (item_of element) ≡ true }
    ensures { result.now
        ≡ slice_range (document_of element.entry).text (start_of (item_of element.entry))
        (end_of (item_of element.entry)) }
{
    element_is_a_slice(element);
    &element.document().input_text()[element.range()]
}
