//! Properties of the items of every document.

ghost use Rattle.std.specs.Prelude.{ℕ, Bool, List, IsUtf8};
ghost use Rattle.rox_grammar.specs.Forest.{Forest};
ghost use Rattle.rox_grammar.specs.Written.{Item};
ghost use Rattle.rox_grammar.specs.Doctype.{Asked};
ghost use Rattle.rox_grammar.specs.Document.{ParseOf};
ghost use Rattle.rox_theory.specs.Apart.{Apart, AnyElement};
ghost use Rattle.rox_theory.specs.CharItems.{ItemsChars};
ghost use Rattle.rox_theory.specs.Pieces.{pieces_of, OnlySectionsAreEmpty};

/// States that the local names, declarations, targets, texts and values of all items are texts of Chars, also those that entities
/// give.
pub fn items_are_chars()
    ensures { (src : List ℕ) (dtd : Bool) (asked : List Asked) (tree : Forest Item) → IsUtf8 src
        → ParseOf src dtd asked tree → ItemsChars tree }
{}

/// States that no text is followed by a text, also where entities give texts.
pub fn texts_are_apart()
    ensures { (src : List ℕ) (dtd : Bool) (asked : List Asked) (tree : Forest Item)
        → ParseOf src dtd asked tree → Apart tree }
{}

/// States that a text is empty only if all its pieces are empty CDATA sections, also where entities give them, at any depth.
pub fn empty_texts_are_sections()
    ensures { (src : List ℕ) (dtd : Bool) (asked : List Asked) (tree : Forest Item)
        (p : ParseOf src dtd asked tree)
        → OnlySectionsAreEmpty src p.entities tree (pieces_of src dtd asked tree p) }
{}

/// States that there is an element at the top.
pub fn documents_have_an_element()
    ensures { (src : List ℕ) (dtd : Bool) (asked : List Asked) (tree : Forest Item)
        → ParseOf src dtd asked tree → AnyElement tree }
{}
