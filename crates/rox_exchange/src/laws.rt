//! Laws of locality: content and elements are wherever the same bytes follow, and in each source with the same bytes up to
//! their end. So are the constructs that they are made of, as lemmas.

ghost use Rattle.std.specs.Prelude.{ℕ, ◌<◌, ◌≤◌, ◌+◌, List, true};
ghost use Rattle.rox_grammar.specs.Forest.{Forest};
ghost use Rattle.rox_grammar.specs.Written.{Item};
ghost use Rattle.rox_grammar.specs.Content.{Content, IsElement};
ghost use Rattle.rox_grammar.specs.Entities.{no_entities};
ghost use Rattle.rox_grammar.specs.Exchange.{Move, moved};
ghost use Rattle.rox_exchange.specs.Local.{Follows, Fronts, moved_items};
ghost use Rattle.rox_exchange.specs.ElementWith.{ElementWith, exchanged_items};

/// States that content without entities is local.
pub fn content_is_local()
    ensures moves { (v : Move) (src to : List ℕ) (i j b c : ℕ) (items : Forest Item)
        → Follows v src i to (moved v i) → Content true no_entities src i j b c items
        → Content true no_entities to (moved v i) (moved v j) b c (moved_items v items) }
    ensures cut { (src to : List ℕ) (m : ℕ) (i j b c : ℕ) (items : Forest Item) → Fronts src to m
        → j < m → Content true no_entities src i j b c items
        → Content true no_entities to i j b c items }
{}

/// States that an element without entities is local.
pub fn element_is_local()
    ensures moves { (v : Move) (src to : List ℕ) (i j b c : ℕ) (one : Forest Item)
        → Follows v src i to (moved v i) → IsElement true no_entities src i j b c one
        → IsElement true no_entities to (moved v i) (moved v j) b c (moved_items v one) }
    ensures cut { (src to : List ℕ) (m : ℕ) (i j b c : ℕ) (one : Forest Item) → Fronts src to m
        → j ≤ m → IsElement true no_entities src i j b c one
        → IsElement true no_entities to i j b c one }
{}

/// States that an element with another one in the place that `ElementWith` names is an element, and that an element may be
/// exchanged there: what is after it moves, and its ancestors grow.
pub fn element_may_be_exchanged()
    ensures whole { (src : List ℕ) (s e : ℕ) (hole : Forest Item) (i j : ℕ) (all : Forest Item)
        → IsElement true no_entities src s e 255 255 hole → ElementWith src s e hole i j all
        → IsElement true no_entities src i j 255 255 all }
    ensures exchanged { (v : Move) (src own : List ℕ) (s e : ℕ) (hole one : Forest Item) (i j : ℕ)
        (all : Forest Item) → Fronts src own (s + 1) → Follows v src e own (moved v e)
        → IsElement true no_entities src s e 255 255 hole
        → IsElement true no_entities own s (moved v e) 255 255 one
        → ElementWith src s e hole i j all
        → ElementWith own s (moved v e) one i (moved v j) (exchanged_items v one s all) }
{}
