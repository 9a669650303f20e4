//! Whole documents. A source is in UTF-8, and so is each text that is answered.

ghost use Rattle.std.specs.Prelude.{◌≡◌, ℕ, Bool, true, List, ◌++◌, Result, Ok, Err, map, IsUtf8};
ghost use Rattle.rox_grammar.specs.Forest.{Forest};
ghost use Rattle.rox_grammar.specs.Written.{Item};
ghost use Rattle.rox_grammar.specs.Tree.{Node};
ghost use Rattle.rox_grammar.specs.Doctype.{Request, Asked};
ghost use Rattle.rox_grammar.specs.Document.{ParseOf, IsWithinLimits, IsTreeOf, Permits, HasAsked, AsksNext};
ghost use Rattle.rox_reading.specs.Refusals.{Refusal, refused};
ghost use Rattle.rox_reading.specs.Answering.{IsTextRefusal};
ghost use Rattle.rox_reading.specs.Doctype.{Reply, replies_of, AreTextReplies};
ghost use Rattle.rox_reading.specs.Stopping.{with_refusal};
ghost use Rattle.rox_reading.specs.WholeText.{reading};
ghost use Rattle.rox_reading.specs.HasDoctype.{has_doctype};

/// States that what is read of a text is its parse with what was asked, within the limits, and with a document type declaration
/// only if one is allowed. A parse within the limits is read if the answers are those of the parse. A text that is refused has
/// no parse whose answers begin with those that were given, unless the resolver refused. `has_doctype` says whether there is a
/// document type declaration.
pub fn documents_read()
    ensures sound { (limit : ℕ) (allow : Bool) (replies : List Reply) (src : List ℕ)
        (asked : List Asked) (t : Forest Item) → IsUtf8 src → AreTextReplies replies
        → reading limit allow replies src ≡ (asked, Ok t)
        → ParseOf src (has_doctype limit src) asked t × IsWithinLimits limit t
        × Permits allow (has_doctype limit src) }
    ensures complete { (limit : ℕ) (allow dtd : Bool) (src : List ℕ) (asked : List Asked)
        (more : List Reply) (t : Forest Item) → IsUtf8 src → ParseOf src dtd asked t
        → IsWithinLimits limit t
        → Permits allow dtd → reading limit allow (replies_of asked ++ more) src ≡ (asked, Ok t) }
    ensures refused { (limit : ℕ) (allow dtd : Bool) (replies : List Reply) (src : List ℕ)
        (asked later : List Asked) (e : Refusal) (t : Forest Item) → IsUtf8 src
        → reading limit allow replies src ≡ (asked, Err e) → IsTextRefusal e
        → ParseOf src dtd (asked ++ later) t → IsWithinLimits limit t → Permits allow dtd → ⊥ }
    ensures seen { (limit : ℕ) (dtd : Bool) (src : List ℕ) (asked : List Asked) (t : Forest Item)
        → IsUtf8 src → ParseOf src dtd asked t → IsWithinLimits limit t
        → has_doctype limit src ≡ dtd }
{}

/// States that what is asked while a text is read, whatever the result, is what its declarations ask, in order, and that what
/// the resolver refuses is what they ask next. Replies after those that a reading takes change nothing of what is asked and
/// read, or of why it is refused.
pub fn texts_read()
    ensures asked { (limit : ℕ) (allow : Bool) (replies : List Reply) (src : List ℕ)
        (asked : List Asked) (x : Result (Forest Item) Refusal) → IsUtf8 src
        → AreTextReplies replies
        → reading limit allow replies src ≡ (asked, x) → HasAsked src allow asked }
    ensures resolver { (limit : ℕ) (allow : Bool) (replies : List Reply) (src : List ℕ)
        (asked : List Asked) (request : Request) (p : ℕ) (message : List ℕ) → IsUtf8 src
        → AreTextReplies replies
        → reading limit allow replies src ≡ (asked, Err (refused request p message))
        → (allow ≡ true) × AsksNext src asked request p }
    ensures same { (limit : ℕ) (allow : Bool) (replies more : List Reply) (src : List ℕ)
        (asked : List Asked) (t : Forest Item) → reading limit allow replies src ≡ (asked, Ok t)
        → reading limit allow (replies_of asked ++ more) src ≡ (asked, Ok t) }
    ensures same_refusal { (limit : ℕ) (allow : Bool) (replies more : List Reply) (src : List ℕ)
        (asked : List Asked) (e : Refusal) → reading limit allow replies src ≡ (asked, Err e)
        → reading limit allow (replies_of asked ++ with_refusal e more) src ≡ (asked, Err e) }
{}

/// States that for what was asked a text has at most one parse, and that its readers see one tree, whatever the limits are.
pub fn one_parse()
    ensures parse { (src : List ℕ) (dtd other : Bool) (asked : List Asked) (t u : Forest Item)
        → IsUtf8 src → ParseOf src dtd asked t → ParseOf src other asked u → t ≡ u }
    ensures tree { (src : List ℕ) (dtd other : Bool) (asked : List Asked) (limit most : ℕ)
        (t u : Forest Node) → IsUtf8 src → IsTreeOf src dtd asked limit t
        → IsTreeOf src other asked most u → t ≡ u }
{}

/// States that only the answers matter: if they are equal, what was asked is equal, and so are the parses.
pub fn one_parse_answered()
    ensures { (src : List ℕ) (dtd other : Bool) (a b : List Asked) (t u : Forest Item) → IsUtf8 src
        → ParseOf src dtd a t → ParseOf src other b u
        → map (λ x. x.answer) a ≡ map (λ x. x.answer) b
        → (dtd ≡ other) × (a ≡ b) × (t ≡ u) }
{}
