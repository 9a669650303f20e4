//! What entities add to a text.

ghost use Rattle.std.specs.Prelude.{◌≡◌, ◌≤◌, ℕ, Bool, false, List, [], length, max};
ghost use Rattle.rox_grammar.specs.Forest.{Forest};
ghost use Rattle.rox_grammar.specs.Written.{Item};
ghost use Rattle.rox_grammar.specs.Entities.{Entity, most_deep, included_in_main};
ghost use Rattle.rox_grammar.specs.Doctype.{Asked};
ghost use Rattle.rox_grammar.specs.Document.{ParseOf};
ghost use Rattle.rox_grammar.specs.Expansion.{Counts, longest};
ghost use Rattle.rox_theory.specs.Answers.{AreShort};
ghost use Rattle.rox_theory.specs.ItemSize.{IsBounded};
ghost use Rattle.rox_theory.specs.Openers.{AreTexts};
ghost use Rattle.rox_theory.specs.WithoutDoctype.{ParseWithout};

/// States that a text without a document type declaration asks nothing, and that nothing is opened in its root element.
pub fn plain_texts_open_nothing()
    ensures opens_nothing { (src : List ℕ) (asked : List Asked) (tree : Forest Item)
        → ParseOf src false asked tree → (asked ≡ []) × ParseWithout src tree }
    ensures is_parse { (src : List ℕ) (tree : Forest Item) → ParseWithout src tree
        → ParseOf src false [] tree }
{}

/// States that at most 256 replacement texts are opened under one reference of the main text, at most ten inside one another:
/// there is a count of them, and every count of what the reference opens is at most 256, if each entity is a text.
pub fn few_opened()
    ensures in_content { (es : List Entity) (name : List ℕ) (b c : ℕ) (items : Forest Item)
        → (included_in_main es).content name b items c
        → (n : ℕ) × (Counts es most_deep).content name 0 items n × (n ≤ 256) }
    ensures in_value { (es : List Entity) (name : List ℕ) (b c : ℕ) (v : List ℕ)
        → (included_in_main es).value name b v c
        → (n : ℕ) × (Counts es most_deep).value name 0 v n × (n ≤ 256) }
    ensures most_in_content { (es : List Entity) (name : List ℕ) (b c n : ℕ) (items : Forest Item)
        → AreTexts es → (included_in_main es).content name b items c
        → (Counts es most_deep).content name 0 items n → n ≤ 256 }
    ensures most_in_value { (es : List Entity) (name : List ℕ) (b c n : ℕ) (v : List ℕ)
        → AreTexts es → (included_in_main es).value name b v c
        → (Counts es most_deep).value name 0 v n → n ≤ 256 }
{}

/// States that the values of all texts and attributes together have at most the bytes of the text, and for each `&` in it 256
/// times the bytes of the longest replacement text. There are at most as many nodes and attributes together.
pub fn trees_are_bounded()
    ensures { (src : List ℕ) (dtd : Bool) (asked : List Asked) (tree : Forest Item)
        (p : ParseOf src dtd asked tree) → IsBounded src p.entities tree }
{}

/// States that a replacement text is in the text itself or in an answer. So if no answer has more than `most` bytes, no
/// replacement text has more than these or the bytes of the text.
pub fn replacement_texts_are_short()
    ensures { (src : List ℕ) (dtd : Bool) (asked : List Asked) (tree : Forest Item)
        (p : ParseOf src dtd asked tree) (most : ℕ) → AreShort most asked
        → longest p.entities ≤ max (length src) most }
{}
