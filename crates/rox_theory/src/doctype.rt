//! Document type declarations, and the entities that they declare.

ghost use Rattle.std.specs.Prelude.{ℕ, Bool, List, IsUtf8};
ghost use Rattle.rox_grammar.specs.Forest.{Forest};
ghost use Rattle.rox_grammar.specs.Written.{Item};
ghost use Rattle.rox_grammar.specs.Entities.{Entity};
ghost use Rattle.rox_grammar.specs.Doctype.{Asked};
ghost use Rattle.rox_theory.specs.ParseParts.{MayHaveDoctype};
ghost use Rattle.rox_theory.specs.Openers.{AreTexts};

/// States that each entity that a document type declaration declares is a text.
pub fn entities_are_texts()
    ensures { (src : List ℕ) (i j : ℕ) (dtd : Bool) (nodes : Forest Item) (asked : List Asked)
        (es : List Entity) → IsUtf8 src → MayHaveDoctype src i j dtd nodes asked es → AreTexts es }
{}
