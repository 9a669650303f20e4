//! Laws of parts of documents.

ghost use Rattle.std.specs.Prelude.{◌≡◌, ℕ, ◌≤◌, ◌-◌, List, [], IsUtf8, true};
ghost use Rattle.rox_grammar.specs.Forest.{Forest, Nil, Cons};
ghost use Rattle.rox_grammar.specs.Written.{Item, Tag, Element};
ghost use Rattle.rox_grammar.specs.Tree.{Root, resolved};
ghost use Rattle.rox_grammar.specs.Names.{slice};
ghost use Rattle.rox_grammar.specs.Content.{IsElement};
ghost use Rattle.rox_grammar.specs.Entities.{no_entities};
ghost use Rattle.rox_grammar.specs.Document.{Misc};
ghost use Rattle.rox_grammar.specs.WellNamed.{AreWellNamed};
ghost use Rattle.rox_grammar.specs.Exchange.{Move, moved, HasTree, shifted, replaced};
ghost use Rattle.rox_exchange.specs.ElementWith.{ElementWith, exchanged_items};
ghost use Rattle.rox_exchange.specs.Local.{Follows, Fronts, moved_items};
ghost use Rattle.rox_exchange.specs.SourceKinds.{StandsInEach};
ghost use Rattle.rox_exchange.specs.SelfContained.{is_contained};

/// States that the slice of an element is a document, if its names are declared inside it. Its tree is the element only, moved to
/// the start.
pub fn element_is_a_document()
    ensures { (src : List ℕ) (s e openings_left : ℕ) (one : Forest Item) → IsUtf8 src
        → IsElement true no_entities src s e 255 openings_left one → AreWellNamed [] one
        → HasTree (slice src s e)
        (Cons (Root (e - s)) (shifted (record { add = 0; sub = s }) (resolved [] one)) Nil) }
{}

/// States that each element among the items of an element is there, with a derivation of its own.
pub fn element_is_found()
    ensures { (src : List ℕ) (i j b c : ℕ) (all : Forest Item) (s e : ℕ) (t : Tag)
        (kids : Forest Item) → IsElement true no_entities src i j b c all
        → StandsInEach s e t kids all
        → ElementWith src s e (Cons (Element s e t) kids Nil) i j all
        × IsElement true no_entities src s e 255 255 (Cons (Element s e t) kids Nil) }
{}

/// States that an element inside an element may be replaced by an element of another source: what is after it moves, and its
/// ancestors grow.
pub fn element_is_exchanged()
    ensures { (src other : List ℕ) (s e a z i j : ℕ) (hole one all : Forest Item) → IsUtf8 src
        → IsUtf8 other
        → IsElement true no_entities src s e 255 255 hole
        → IsElement true no_entities other a z 255 255 one → ElementWith src s e hole i j all
        → IsElement true no_entities (replaced src s e (slice other a z)) i
        (moved (record { add = z - a; sub = e - s }) j) 255 255
        (exchanged_items (record { add = z - a; sub = e - s })
        (moved_items (record { add = s; sub = a }) one) s all) }
{}

/// States that names stay well named if no ancestor of the element that is exchanged lists a namespace.
pub fn names_stay()
    ensures { (v : Move) (one all : Forest Item) (s : ℕ) → AreWellNamed [] one
        → is_contained s all ≡ true → AreWellNamed [] all
        → AreWellNamed [] (exchanged_items v one s all) }
{}

/// States that comments, processing instructions and white space around the root element are local.
pub fn misc_is_local()
    ensures moves { (v : Move) (src to : List ℕ) (i j : ℕ) (items : Forest Item)
        → Follows v src i to (moved v i) → Misc src i j items
        → Misc to (moved v i) (moved v j) (moved_items v items) }
    ensures cut { (src to : List ℕ) (m i j : ℕ) (items : Forest Item) → Fronts src to m → j ≤ m
        → Misc src i j items → Misc to i j items }
{}
