//! Laws of every document on which callers' proofs rest, each a function whose contract is the law. More laws are in `rox_laws`.

ghost use Rattle.std.specs.Prelude.{◌≡◌, ℕ, ◌+◌, ◌<◌, ◌≤◌, ◌∷◌, ◌++◌, List, Some, IsUtf8};
ghost use Rattle.std.specs.List.{Contains, range_with_len};
ghost use Rattle.rox_grammar.specs.Forest.{size};
ghost use Rattle.rox_grammar.specs.Doctype.{Asked};
ghost use Rattle.rox_grammar.specs.Document.{IsTreeOf};
ghost use Rattle.roxmltree.specs.Places.{place, parent};

use crate::tree::Document;

/// States that the tree of every document is that of its text, which is in UTF-8.
pub fn document_is_whole(document: &Document<'_>)
    ensures parsed { (asked : List Asked)
        × IsTreeOf document.now.text document.now.dtd asked 4294967295 document.now.tree }
    ensures utf8 { IsUtf8 document.now.text }
{
    document.whole();
}

/// States that a node's id is its index in document order, and that its subtree ends within the document.
#[tactic(auto, using(crate::proofs::Preorder::place_id, crate::proofs::Preorder::place_end))]
pub fn ids_are_places(document: &Document<'_>)
    ensures place { (i : ℕ) → i < size document.now.tree → (place document.now.tree i).id ≡ i }
    ensures within { (i : ℕ) → i < size document.now.tree
        → i + (place document.now.tree i).count ≤ size document.now.tree }
{
    let _ = document;
}

/// States that the ancestors of a node are its parent and the ancestors of its parent.
#[tactic(auto, using(crate::proofs::Preorder::parent_is))]
pub fn parents_are_the_nearest_above(document: &Document<'_>)
    ensures inside { (i q : ℕ) → i < size document.now.tree → parent document.now.tree i ≡ Some q
        → q < size document.now.tree }
    ensures above { (i q : ℕ) → i < size document.now.tree → parent document.now.tree i ≡ Some q
        → (place document.now.tree i).above ≡ q ∷ (place document.now.tree q).above }
{
    let _ = document;
}

/// States that the ids of a subtree, in document order, are consecutive and begin with that of its top node.
#[tactic(auto, using(crate::proofs::Siblings::descendants_is))]
pub fn descendants_are_in_order(document: &Document<'_>)
    ensures { (i : ℕ) → i < size document.now.tree
        → (place document.now.tree i).descendants
        ≡ range_with_len i (place document.now.tree i).count }
{
    let _ = document;
}

/// States that the ancestors of a node inside a subtree are some nodes, the top node, and the ancestors of that. States too that
/// a node is in the subtrees of all its ancestors.
pub fn descendants_are_below(document: &Document<'_>)
    ensures leads { (i j : ℕ) → i < size document.now.tree → i < j
        → j < i + (place document.now.tree i).count
        → (between : List ℕ)
        × ((place document.now.tree j).above ≡ between ++ i ∷ (place document.now.tree i).above) }
    ensures inside { (i j : ℕ) → j < size document.now.tree
        → Contains (place document.now.tree j).above i
        → (i < j) × (j < i + (place document.now.tree i).count) }
{
    let _ = document;
}
