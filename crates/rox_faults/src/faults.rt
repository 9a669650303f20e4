//! The faults that reading meets. If no document type declaration is allowed, they are those of the grammar, and each names
//! only texts of the source in which it counts.

ghost use Rattle.std.specs.Prelude.{◌≡◌, ◌⊎◌, ℕ, Bool, false, List, [], Err, IsUtf8};
ghost use Rattle.rox_grammar.specs.declared.fault.Fault.{Fault};
ghost use Rattle.rox_grammar.specs.Forest.{Forest};
ghost use Rattle.rox_grammar.specs.Written.{Item};
ghost use Rattle.rox_grammar.specs.Doctype.{Asked};
ghost use Rattle.rox_grammar.specs.Document.{ParseOf, IsWithinLimits, Permits};
ghost use Rattle.rox_grammar.specs.FaultsWithDoctype.{RefusalOf, FaultOf};
ghost use Rattle.rox_grammar.specs.Spans.{NamesText};
ghost use Rattle.rox_reading.specs.Refusals.{Refusal, here, there};
ghost use Rattle.rox_reading.specs.Doctype.{Reply, AreTextReplies};
ghost use Rattle.rox_reading.specs.WholeText.{reading};
ghost use Rattle.rox_theory.specs.Answers.{SameAnswers};
ghost use Rattle.rox_theory.specs.Limits.{IsLimit};

/// States that the fault that reading meets first is in the text, as the grammar says.
pub fn faults_stand()
    ensures { (limit : ℕ) (replies : List Reply) (src : List ℕ) (asked : List Asked) (e : Refusal)
        → IsUtf8 src → reading limit false replies src ≡ (asked, Err e)
        → (f : Fault) × (here f ≡ e) × FaultOf limit src f }
{}

/// States that a text with a fault has no parse within the limits. So there are no false faults.
pub fn no_false_faults()
    ensures { (limit : ℕ) (src : List ℕ) (f : Fault) (asked : List Asked) (t : Forest Item)
        → IsUtf8 src → FaultOf limit src f → ParseOf src false asked t → IsWithinLimits limit t
        → ⊥ }
{}

/// States that each text has a parse within the limits without a document type declaration, or has a fault.
pub fn parse_or_fault()
    ensures { (limit : ℕ) (src : List ℕ) → IsUtf8 src
        → ((t : Forest Item) × ParseOf src false [] t × IsWithinLimits limit t) ⊎ ((f : Fault)
        × FaultOf limit src f) }
{}

/// States, with a document type declaration too, if the answers are texts, that the fault that reading meets first is in its
/// source, as the grammar says, after what was asked until then. The source is the text itself, a replacement text or an
/// answer.
pub fn refusals_stand()
    ensures own { (limit : ℕ) (allow : Bool) (replies : List Reply) (src : List ℕ)
        (asked : List Asked) (f : Fault) → IsUtf8 src → AreTextReplies replies
        → reading limit allow replies src ≡ (asked, Err (here f))
        → RefusalOf limit allow src asked src f }
    ensures other { (limit : ℕ) (allow : Bool) (replies : List Reply) (src source : List ℕ)
        (asked : List Asked) (f : Fault) → IsUtf8 src → AreTextReplies replies
        → reading limit allow replies src ≡ (asked, Err (there source f))
        → RefusalOf limit allow src asked source f }
{}

/// States that a text with a refusal has no parse within the limits, with a document type declaration if one is allowed or
/// without, if the answers of the parse are those that were given until then, one by one, as far as both go.
pub fn no_false_refusals()
    ensures { (limit : ℕ) (allow dtd : Bool) (src source : List ℕ) (asked given : List Asked)
        (f : Fault) (t : Forest Item) → IsUtf8 src → RefusalOf limit allow src asked source f
        → ParseOf src dtd given t
        → IsWithinLimits limit t → Permits allow dtd → SameAnswers asked given → ⊥ }
{}

/// States that a text that has a parse, but none within the limits, is refused only for a limit: each fault in it says that it
/// has too many nodes, attributes or pairs of a prefix and a URI. The parse has a document type declaration, if one is allowed,
/// or none, and its answers are those that were given until then, one by one, as far as both go.
pub fn only_limits_refuse_a_parse()
    ensures faults { (limit : ℕ) (src : List ℕ) (f : Fault) (asked : List Asked) (t : Forest Item)
        → IsUtf8 src → FaultOf limit src f → ParseOf src false asked t → IsLimit f }
    ensures refusals { (limit : ℕ) (allow dtd : Bool) (src source : List ℕ)
        (asked given : List Asked) (f : Fault) (t : Forest Item) → IsUtf8 src
        → RefusalOf limit allow src asked source f → ParseOf src dtd given t
        → Permits allow dtd → SameAnswers asked given → IsLimit f }
{}

/// States that the refusals are the faults of the text if no document type declaration is allowed: nothing is asked, and the
/// source is the text itself.
pub fn plain_refusals()
    ensures faults { (limit : ℕ) (src source : List ℕ) (asked : List Asked) (f : Fault)
        → RefusalOf limit false src asked source f → (asked ≡ []) × (source ≡ src)
        × FaultOf limit src f }
    ensures back { (limit : ℕ) (src : List ℕ) (f : Fault) → FaultOf limit src f
        → RefusalOf limit false src [] src f }
{}

/// States that each name of a fault is a text of the source, if no document type declaration is allowed: it starts and ends
/// between two characters.
pub fn names_are_text()
    ensures { (limit : ℕ) (replies : List Reply) (src : List ℕ) (asked : List Asked) (f : Fault)
        → IsUtf8 src → reading limit false replies src ≡ (asked, Err (here f)) → NamesText src f }
{}

/// States, with a document type declaration too, if the answers are texts, that each name is a text of the source in which the
/// fault counts: the text itself, a replacement text or an answer.
pub fn names_are_text_answered()
    ensures own { (limit : ℕ) (allow : Bool) (replies : List Reply) (src : List ℕ)
        (asked : List Asked) (f : Fault) → IsUtf8 src → AreTextReplies replies
        → reading limit allow replies src ≡ (asked, Err (here f)) → NamesText src f }
    ensures other { (limit : ℕ) (allow : Bool) (replies : List Reply) (src source : List ℕ)
        (asked : List Asked) (f : Fault) → IsUtf8 src → AreTextReplies replies
        → reading limit allow replies src ≡ (asked, Err (there source f)) → NamesText source f }
{}
