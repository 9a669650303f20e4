//! Laws of whole documents: an element as a document, and an element of another document in the place of one.

ghost use Rattle.std.specs.Prelude.{◌≡◌, ℕ, ◌-◌, ◌<◌, List, [], true, false, IsUtf8, IsCharBoundary};
ghost use Rattle.rox_grammar.specs.Forest.{Forest, Nil, Cons};
ghost use Rattle.rox_grammar.specs.Tree.{Node, Root};
ghost use Rattle.rox_grammar.specs.Names.{slice};
ghost use Rattle.rox_grammar.specs.Document.{IsTreeOf};
ghost use Rattle.rox_grammar.specs.Exchange.{shifted, subtree, self_contained, start_at, end_at, HasTree, with_other, text_with};

/// States that the slice of a self-contained element is a document, within the limits of the whole. Its tree is the element
/// only, moved to the start. The slice starts and ends between two characters.
pub fn elements_are_documents()
    ensures parse { (text : List ℕ) (tree : Forest Node) (id : ℕ) → IsUtf8 text → HasTree text tree
        → self_contained tree id ≡ true
        → HasTree (slice text (start_at tree id) (end_at tree id))
        (Cons (Root (end_at tree id - start_at tree id))
        (shifted (record { add = 0; sub = start_at tree id }) (subtree tree id)) Nil) }
    ensures within { (text : List ℕ) (tree : Forest Node) (id limit : ℕ) → IsUtf8 text
        → IsTreeOf text false [] limit tree → self_contained tree id ≡ true
        → IsTreeOf (slice text (start_at tree id) (end_at tree id)) false [] limit
        (Cons (Root (end_at tree id - start_at tree id))
        (shifted (record { add = 0; sub = start_at tree id }) (subtree tree id)) Nil) }
    ensures cut { (text : List ℕ) (tree : Forest Node) (id : ℕ) → IsUtf8 text → HasTree text tree
        → self_contained tree id ≡ true
        → (start_at tree id < end_at tree id) × IsCharBoundary text (start_at tree id)
        × IsCharBoundary text (end_at tree id) }
{}

/// States that another document's self-contained element may replace a self-contained element: the new text is a document, and
/// its tree is the first tree with the other document's element in the place of the old one.
pub fn elements_may_be_exchanged()
    ensures parse { (text : List ℕ) (tree : Forest Node) (id : ℕ) (other_text : List ℕ)
        (other : Forest Node) (at : ℕ) → IsUtf8 text → HasTree text tree
        → self_contained tree id ≡ true
        → IsUtf8 other_text → HasTree other_text other → self_contained other at ≡ true
        → HasTree (text_with tree text id other other_text at) (with_other tree id other at) }
    ensures utf8 { (text : List ℕ) (tree : Forest Node) (id : ℕ) (other_text : List ℕ)
        (other : Forest Node) (at : ℕ) → IsUtf8 text → HasTree text tree
        → self_contained tree id ≡ true
        → IsUtf8 other_text → HasTree other_text other → self_contained other at ≡ true
        → IsUtf8 (text_with tree text id other other_text at) }
{}
