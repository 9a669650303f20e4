//! Laws of the calls, each a function whose contract is the law.

ghost use Rattle.std.specs.Prelude.{◌≡◌, ◌≢◌, ◌↔◌, ℕ, ◌<◌, ◌≤◌, false, true, List, Some, None, IsTrue, IfSome, IsUtf8, length, slice_index, slice_get, count_by, if◌then◌else◌, option_map, is_some, IsCharBoundary};
ghost use Rattle.std.specs.List.{last_or};
ghost use Rattle.std.specs.Ordering.{nat_cmp, on, then_cmp};
ghost use Rattle.rox_grammar.specs.Forest.{Forest, size};
ghost use Rattle.rox_grammar.specs.Written.{Item};
ghost use Rattle.rox_grammar.specs.Tree.{document_tree};
ghost use Rattle.rox_grammar.specs.Doctype.{Asked};
ghost use Rattle.rox_grammar.specs.Document.{ParseOf, IsTreeOf};
ghost use Rattle.roxmltree.specs.Places.{parent, children, first_child, last_child, next_sibling, prev_sibling};
ghost use Rattle.roxmltree.specs.NodeRef.{id_of, document_of, tree_of, item_of, node_ref};
ghost use Rattle.roxmltree.specs.NodeParts.{attributes_of, is_element_node, start_of, end_of};
ghost use Rattle.roxmltree.specs.ExpandedNames.{expanded, same_expanded_name, named, IsNamedAt};
ghost use Rattle.roxmltree.specs.ElementLists.{attribute_of};
ghost use Rattle.rox_laws.specs.NearestDeclaration.{upwards, NoneDeclares, IsNearest, IsElementAt, xml};

pub use roxmltree::laws::{
    descendants_are_below, descendants_are_in_order, document_is_whole, ids_are_places,
    parents_are_the_nearest_above,
};
use roxmltree::{Attribute, Document, ExpandedName, Node};
use std::cmp::Ordering;

/// States that `next_sibling` and `prev_sibling` are inverse to each other.
#[tactic(auto, using(roxmltree::proofs::Siblings::next_prev, roxmltree::proofs::Siblings::prev_next))]
pub fn siblings_undo_each_other(document: &Document<'_>)
    ensures forth { (i j : ℕ) → i < size document.now.tree → next_sibling document.now.tree i ≡ Some j → prev_sibling document.now.tree j ≡ Some i }
    ensures back { (i j : ℕ) → i < size document.now.tree → prev_sibling document.now.tree i ≡ Some j → next_sibling document.now.tree j ≡ Some i }
{
    let _ = document;
}

/// Returns the node that `prev_sibling` returns for the next sibling of `node`: that is `node`. Returns `None` if there is no
/// next sibling.
#[tactic(auto, using(roxmltree::proofs::Siblings::next_prev))]
pub fn next_then_prev<'a, 'input>(node: Node<'a, 'input>) -> Option<Node<'a, 'input>>
    ensures { option_map node_ref result ≡ option_map (λ _. node_ref node.entry) (next_sibling (tree_of node.entry) (id_of node.entry)) }
{
    match node.next_sibling() {
        Some(next) => next.prev_sibling(),
        None => None,
    }
}

/// States that the parent of each child is the node that it is a child of.
#[tactic(auto, using(roxmltree::proofs::Siblings::child_parent))]
pub fn children_have_their_parent(document: &Document<'_>)
    ensures { (i k : ℕ) → i < size document.now.tree → k < length (children document.now.tree i) → parent document.now.tree (slice_index (children document.now.tree i) k) ≡ Some i }
{
    let _ = document;
}

/// States that the first and the last child of a node are the ends of its list of children.
pub fn ends_of_children(document: &Document<'_>)
    ensures first { (i : ℕ) → first_child document.now.tree i ≡ slice_get (children document.now.tree i) 0 }
    ensures last { (i : ℕ) → last_child document.now.tree i ≡ last_or None (children document.now.tree i) }
{
    let _ = document;
}

/// Returns the order of two nodes, and whether they are equal. The order is `Equal` exactly if they are equal.
pub fn order_agrees_with_equality(a: Node<'_, '_>, b: Node<'_, '_>) -> (Ordering, bool)
    ensures order { result.0 ≡ then_cmp (on (λ n. (document_of n).key) nat_cmp) (on id_of nat_cmp) a.entry b.entry }
    ensures equality { IsTrue result.1 ↔ (((document_of a.entry).key ≡ (document_of b.entry).key) × (id_of a.entry ≡ id_of b.entry)) }
    ensures agree { (result.0 ≡ Ordering.Equal) ↔ IsTrue result.1 }
{
    (a.cmp(&b), a == b)
}

/// Returns the order of two nodes: by the keys of their documents, and for equal keys by document order.
pub fn order_is_by_document(a: Node<'_, '_>, b: Node<'_, '_>) -> Ordering
    ensures grouped { (document_of a.entry).key < (document_of b.entry).key → result ≡ Ordering.Less }
    ensures grouped_behind { (document_of b.entry).key < (document_of a.entry).key → result ≡ Ordering.Greater }
    ensures inside { (document_of a.entry).key ≡ (document_of b.entry).key → result ≡ nat_cmp (id_of a.entry) (id_of b.entry) }
{
    a.cmp(&b)
}

/// States what is true of the document that a node is in.
pub(crate) fn whole(node: Node<'_, '_>)
    ensures parsed { (asked : List Asked) × IsTreeOf (document_of node.entry).text (document_of node.entry).dtd asked 4294967295 (tree_of node.entry) }
    ensures utf8 { IsUtf8 (document_of node.entry).text }
{
    document_is_whole(node.document());
}

/// Returns the one attribute with this name: what `attribute_node` returns has the name, and no other attribute has it.
pub fn the_only_attribute<'a, 'input>(
    node: Node<'a, 'input>,
    name: ExpandedName<'_, '_>,
) -> Option<Attribute<'a, 'input>>
    ensures named { IfSome result (λ a. (i : ℕ) × IsNamedAt (expanded name.entry) (attributes_of (item_of node.entry)) i × (slice_get (attributes_of (item_of node.entry)) i ≡ Some (attribute_of a))) }
    ensures only { (i : ℕ) → IsNamedAt (expanded name.entry) (attributes_of (item_of node.entry)) i → slice_get (attributes_of (item_of node.entry)) i ≡ option_map attribute_of result }
{
    whole(node);
    node.attribute_node(name)
}

/// Returns whether an attribute has this name.
fn has_name(attribute: &Attribute<'_, '_>, name: &ExpandedName<'_, '_>) -> bool
    ensures { result ≡ same_expanded_name ((attribute_of attribute.now).namespace, (attribute_of attribute.now).local) (expanded name.now) }
{
    attribute.name() == name.name() && attribute.namespace() == name.namespace()
}

/// Returns how many attributes of a node have this name: one if `has_attribute` returns true, otherwise none.
pub fn one_attribute_or_none(node: Node<'_, '_>, name: ExpandedName<'_, '_>) -> usize
    ensures count { result ≡ count_by (λ a. same_expanded_name (a.namespace, a.local) (expanded name.entry)) (attributes_of (item_of node.entry)) }
    ensures one_or_none { result ≡ (if is_some (named (expanded name.entry) (attributes_of (item_of node.entry))) then 1 else 0) }
{
    whole(node);
    let mut count: usize = 0;
    for attribute in node.attributes() {
        if has_name(&attribute, &name) {
            count += 1;
        }
    }
    count
}

/// Returns what `lookup_namespace_uri` does. On an element that is the URI of the nearest declaration of the prefix in the text
/// as written, by the element or an ancestor. It is `None` if none of them declares the prefix, for `xml`, and on other nodes.
///
/// `tops` is the text as written, with replacement texts in place of their references: a parse whose tree is the document's.
pub fn the_nearest_declaration<'a>(node: Node<'a, '_>, prefix: Option<&str>) -> Option<&'a str>
    ensures found { (asked : List Asked) (tops : Forest Item) → ParseOf (document_of node.entry).text (document_of node.entry).dtd asked tops → tree_of node.entry ≡ document_tree (length (document_of node.entry).text) tops → (uri : List ℕ) → IsElementAt (tree_of node.entry) (id_of node.entry) → option_map (λ s. s.now) prefix.entry ≢ xml → (option_map (λ s. s.now) result ≡ Some uri) ↔ IsNearest tops (tree_of node.entry) (id_of node.entry) (option_map (λ s. s.now) prefix.entry) uri }
    ensures none { (asked : List Asked) (tops : Forest Item) → ParseOf (document_of node.entry).text (document_of node.entry).dtd asked tops → tree_of node.entry ≡ document_tree (length (document_of node.entry).text) tops → IsElementAt (tree_of node.entry) (id_of node.entry) → option_map (λ s. s.now) prefix.entry ≢ xml → (option_map (λ s. s.now) result ≡ None) ↔ NoneDeclares tops (option_map (λ s. s.now) prefix.entry) (upwards (tree_of node.entry) (id_of node.entry)) }
    ensures never_xml { option_map (λ s. s.now) prefix.entry ≡ xml → option_map (λ s. s.now) result ≡ None }
    ensures others { ¬ IsElementAt (tree_of node.entry) (id_of node.entry) → option_map (λ s. s.now) result ≡ None }
{
    whole(node);
    node.lookup_namespace_uri(prefix)
}

/// States that the range of an element selects a slice of the text, so that `&document.input_text()[node.range()]` is proved. The
/// document has no document type declaration: with one, the range may be that of a replacement text.
pub fn element_is_a_slice(element: Node<'_, '_>)
    requires no_doctype { (document_of element).dtd ≡ false }
    requires element { is_element_node (item_of element) ≡ true }
    ensures ordered { start_of (item_of element.entry) ≤ end_of (item_of element.entry) }
    ensures starts { IsCharBoundary (document_of element.entry).text (start_of (item_of element.entry)) }
    ensures ends { IsCharBoundary (document_of element.entry).text (end_of (item_of element.entry)) }
{
    whole(element);
}
