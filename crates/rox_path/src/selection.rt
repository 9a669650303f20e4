//! The nodes that steps reach.
//!
//! ```
//! let document = Document::parse(alloc, "<r><a><b i='1'/></a><b i='2'><b i='3'/></b></r>")?;
//! let a = document.root_element().first_child().expect(&rt, "a child");
//! // the number of nodes that each path reaches from `a`
//! for (path, count) in [("//b", 1), ("/b", 1), ("/a", 0), ("//r", 0)] {
//!     let steps = parse_path(alloc, path)?;
//!     assert!(rt; select(alloc, a, &steps)?.len() == count, "{path}");
//! }
//! let nodes = select(alloc, a, &[])?;
//! assert!(rt; nodes.len() == 1 && nodes[0] == a);
//! ```

ghost use Rattle.std.specs.Prelude.{◌≡◌, ℕ, List, map, filter, IfOk};
ghost use Rattle.roxmltree.specs.ExpandedNames.{expanded};
ghost use Rattle.roxmltree.specs.NodeRef.{id_of, document_of, tree_of, node_ref, node_refs};
ghost use Rattle.rox_path.specs.Steps.{step_of};
ghost use Rattle.rox_path.specs.Match.{Selects};
ghost use Rattle.rox_path.specs.NodeMarks.{subtree_of, is_marked, is_marked_node, is_child, is_below, is_descendant, Laws, MarksSoFar};

use crate::steps::Step;
use roxmltree::laws::{
    descendants_are_below, descendants_are_in_order, ids_are_places, parents_are_the_nearest_above,
};
use roxmltree::{ExpandedName, Node};
use std::alloc::{AllocError, Global};

/// Returns the nodes that the steps reach from `start`, in document order, without duplicates. Without steps, it returns `start`
/// alone. Fails only if memory runs out.
///
/// It takes one pass over the descendants of `start` for each step, whatever their depth.
///
/// ```
/// let document = Document::parse(alloc, "<r><g><a/></g><a/></r>")?;
/// let steps = parse_path(alloc, "/r//a")?;
/// let found = select(alloc, document.root(), &steps)?;
/// assert!(rt; found.len() == 2);
/// ```
pub fn select<'a, 'input>(
    alloc: Global,
    start: Node<'a, 'input>,
    steps: &[Step<'_>],
) -> Result<Vec<Node<'a, 'input>>, AllocError>
    ensures { IfOk result (λ nodes. (ids : List ℕ)
        × (map node_ref nodes.items ≡ node_refs (document_of start.entry) ids)
        × Selects (tree_of start.entry) (id_of start.entry) (map step_of steps.now) ids) }
{
    laws(&start);
    // a node without a mark is not marked
    let mut marks = Vec::new(alloc);
    marks.push(true)?;
    for step in steps {
        marks = match step {
            Step::Child(name) => mark_children(alloc, &start, &marks, *name)?,
            Step::Descendant(name) => mark_descendants(alloc, &start, &marks, *name)?,
        };
    }
    marked_nodes(alloc, &start, &marks)
}

/// Returns marks for the elements with this name whose parent is marked.
fn mark_children(
    alloc: Global,
    start: &Node<'_, '_>,
    marks: &[bool],
    name: ExpandedName<'_, '_>,
) -> Result<Vec<bool>, AllocError>
    ensures { IfOk result
        (λ next. next.items ≡ map (is_child (id_of start.now) marks.now (expanded name.entry))
        (subtree_of start.now)) }
{
    let mut next = Vec::new(alloc);
    for node in start.descendants() {
        let reached = match node.parent() {
            Some(parent) => is_marked(start, marks, &parent),
            None => false,
        };
        next.push(reached && node.has_tag_name(name))?;
    }
    Ok(next)
}

/// Returns marks for the elements with this name that have a marked ancestor.
fn mark_descendants(
    alloc: Global,
    start: &Node<'_, '_>,
    marks: &[bool],
    name: ExpandedName<'_, '_>,
) -> Result<Vec<bool>, AllocError>
    ensures { IfOk result
        (λ next. next.items
        ≡ map (is_descendant (id_of start.now) marks.now (expanded name.entry))
        (subtree_of start.now)) }
{
    laws(start);
    // for each node, whether an ancestor is marked
    let mut below = Vec::new(alloc);
    let mut next = Vec::new(alloc);
    for node in start.descendants() {
        let reached = is_below(start, marks, &below, &node);
        below.push(reached)?;
        next.push(reached && node.has_tag_name(name))?;
    }
    Ok(next)
}

/// Returns whether a node has a marked ancestor. `below` says so of each node before it.
fn is_below(start: &Node<'_, '_>, marks: &[bool], below: &[bool], node: &Node<'_, '_>) -> bool
    requires { MarksSoFar start.now marks.now below.now node.now }
    ensures { result ≡ is_below (id_of start.now) marks.now (node_ref node.now) }
{
    laws(node);
    match node.parent() {
        Some(parent) => is_marked(start, marks, &parent) || is_marked(start, below, &parent),
        None => false,
    }
}

/// Returns the marked nodes, in document order.
fn marked_nodes<'a, 'input>(
    alloc: Global,
    start: &Node<'a, 'input>,
    marks: &[bool],
) -> Result<Vec<Node<'a, 'input>>, AllocError>
    ensures { IfOk result (λ nodes. map node_ref nodes.items
        ≡ filter (is_marked_node (id_of start.now) marks.now) (subtree_of start.now)) }
{
    let mut nodes = Vec::new(alloc);
    for node in start.descendants() {
        if is_marked(start, marks, &node) {
            nodes.push(node)?;
        }
    }
    Ok(nodes)
}

/// Returns whether a node is marked. The first mark is that of `start`.
fn is_marked(start: &Node<'_, '_>, marks: &[bool], node: &Node<'_, '_>) -> bool
    ensures { result ≡ is_marked (id_of start.now) marks.now (id_of node.now) }
{
    let first = start.id().get_usize();
    let id = node.id().get_usize();
    first <= id && marks.get(id - first) == Some(&true)
}

/// States the laws of the tree that a node is in.
fn laws(node: &Node<'_, '_>)
    ensures { Laws (tree_of node.now) }
{
    let document = node.document();
    ids_are_places(document);
    descendants_are_in_order(document);
    descendants_are_below(document);
    parents_are_the_nearest_above(document);
}
