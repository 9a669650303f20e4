//! Laws of exchanges: they keep elements self-contained, may be taken back, and commute.

ghost use Rattle.std.specs.Prelude.{◌≡◌, ℕ, List, true, IsUtf8};
ghost use Rattle.rox_grammar.specs.Forest.{Forest};
ghost use Rattle.rox_grammar.specs.Tree.{Node};
ghost use Rattle.rox_grammar.specs.Exchange.{self_contained, HasTree};
ghost use Rattle.rox_exchange.specs.ExchangeLaws.{AreSeparate, StaysContained, GoesBack, Commutes};

/// States that the element that was put in is self-contained, and so is each element outside of it that was self-contained.
pub fn elements_stay_contained()
    ensures { (tree : Forest Node) (id : ℕ) (other : Forest Node) (at : ℕ)
        → self_contained tree id ≡ true → self_contained other at ≡ true
        → StaysContained tree id other at }
{}

/// States that the old element put back gives the first text and the first tree.
pub fn exchanges_go_back()
    ensures { (text : List ℕ) (tree : Forest Node) (id : ℕ) (other_text : List ℕ)
        (other : Forest Node) (at : ℕ) → IsUtf8 text → IsUtf8 other_text → HasTree text tree
        → HasTree other_text other
        → self_contained tree id ≡ true → self_contained other at ≡ true
        → GoesBack tree text id other other_text at }
{}

/// States that exchanges at two places, neither inside the other, give one text and one tree in either order.
pub fn exchanges_commute()
    ensures { (text : List ℕ) (tree : Forest Node) (i : ℕ) (one_text : List ℕ) (one : Forest Node)
        (a j : ℕ) (two_text : List ℕ) (two : Forest Node) (b : ℕ)
        → IsUtf8 text → IsUtf8 one_text → IsUtf8 two_text → HasTree text tree → HasTree one_text one
        → HasTree two_text two
        → self_contained tree i ≡ true → self_contained tree j ≡ true → self_contained one a ≡ true
        → self_contained two b ≡ true → AreSeparate tree i j
        → Commutes tree text i one one_text a j two two_text b }
{}
