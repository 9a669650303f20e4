//! The laws that users of a document rest on, each a function whose contract is the law.

ghost use Rattle.std.specs.Prelude.{false, [], ◌≡◌, ◌≢◌, ◌↔◌, ◌⊎◌, ℕ, Bool, ◌<◌, ◌≤◌, List, Option, Some, None, Ok, IsUtf8, length, max, map};
ghost use Rattle.rox_grammar.specs.declared.fault.Fault.{Fault};
ghost use Rattle.rox_grammar.specs.Forest.{Forest, size};
ghost use Rattle.rox_grammar.specs.Written.{Item};
ghost use Rattle.rox_grammar.specs.Tree as grammar;
ghost use Rattle.rox_grammar.specs.Tree.{document_tree};
ghost use Rattle.rox_grammar.specs.Entities.{included_in_main, most_deep};
ghost use Rattle.rox_grammar.specs.Doctype.{Request, Asked};
ghost use Rattle.rox_grammar.specs.Document.{ParseOf, IsTreeOf, Permits};
ghost use Rattle.rox_grammar.specs.Expansion.{Counts, longest};
ghost use Rattle.rox_laws.specs.TreeSize.{IsTreeBounded};
ghost use Rattle.rox_grammar.specs.FaultsWithDoctype.{RefusalOf, FaultOf};
ghost use Rattle.rox_grammar.specs.Spans.{NamesText};
ghost use Rattle.rox_grammar.specs.Exchange.{HasTree};
ghost use Rattle.rox_theory.specs.Answers.{SameAnswers, AreShort};
ghost use Rattle.rox_theory.specs.Pieces.{pieces_of, OnlySectionsAreEmpty};
ghost use Rattle.roxmltree.specs.Requests.{Allows, AreAllowed};
ghost use Rattle.roxmltree.specs.EachNode.{EachNode};
ghost use Rattle.rox_error.specs.FaultErrors.{IsErrorOf};
ghost use Rattle.rox_error.specs.Messages.{message, message_with_position};
ghost use Rattle.rox_error.specs.declared.error.Error.{Error};
ghost use Rattle.rox_error.specs.declared.error.Error.TheVariants as error;
ghost use Rattle.rox_laws.specs.TreeLaws.{TextsApart, NamesDistinct, AllChars};
ghost use Rattle.rox_laws.specs.RangeLaws.{RangesNested, AttributesInOrder, AttributesWritten, RangesSelect};
ghost use Rattle.rox_laws.specs.EmptySections.{EmptyTextsAreSections, BeginsWithSection};
ghost use Rattle.rox_laws.specs.Sources.{IsLiteralIn, IsAnswerIn};
ghost use Rattle.roxmltree.specs.Places.{parent, next_sibling};
ghost use Rattle.roxmltree.specs.NodeParts.{node_at, start_of, end_of, attributes_of};
ghost use Rattle.roxmltree.specs.ExpandedNames.{IsNamedAt};
ghost use Rattle.rox_laws.specs.NearestDeclaration.{upwards, NoneDeclares, IsNearest, IsElementAt, xml, listed_uri};

use roxmltree::laws::document_is_whole;
use roxmltree::{Document, EntityResolver};

/// States that a text has at most one tree for one list of answers, whatever the limits are. The text alone determines whether it
/// has a document type declaration. Parses are unique too, within any limits or not. They depend on the answers alone: with equal
/// answers, the same was asked, and the same is written.
pub fn one_tree()
    ensures tree { (text : List ℕ) (one other : Bool) (asked : List Asked) (limit most : ℕ) (s t : Forest grammar.Node) → IsUtf8 text → IsTreeOf text one asked limit s → IsTreeOf text other asked most t → s ≡ t }
    ensures dtd { (text : List ℕ) (one other : Bool) (asked answered : List Asked) (limit most : ℕ) (s t : Forest grammar.Node) → IsUtf8 text → IsTreeOf text one asked limit s → IsTreeOf text other answered most t → one ≡ other }
    ensures parses { (text : List ℕ) (one other : Bool) (asked answered : List Asked) (s t : Forest Item) → IsUtf8 text → ParseOf text one asked s → ParseOf text other answered t → map (λ x. x.answer) asked ≡ map (λ x. x.answer) answered → (one ≡ other) × (asked ≡ answered) × (s ≡ t) }
{}

/// States that a text with a fault, if no document type declaration is allowed, has no tree without one within the limits. So a
/// refusal is true, unless memory ran out.
pub fn faults_refuse()
    ensures { (text : List ℕ) (limit : ℕ) (f : Fault) (tree : Forest grammar.Node) → IsUtf8 text → FaultOf limit text f → IsTreeOf text false [] limit tree → ⊥ }
{}

/// States that a text with a fault after some answers has no tree within the limits that the options allow and whose answers agree
/// with these. Answers agree if they are equal one by one, as far as both lists go.
pub fn refusals_refuse()
    ensures { (text source : List ℕ) (limit : ℕ) (allow dtd : Bool) (asked given : List Asked) (f : Fault) (tree : Forest grammar.Node) → IsUtf8 text → RefusalOf limit allow text asked source f → IsTreeOf text dtd given limit tree → Permits allow dtd → SameAnswers asked given → ⊥ }
{}

/// States that a text with a parse that the options allow, but with none within the limits, is refused for a limit alone. Each
/// fault in it, after the answers of that parse, is that its nodes, attributes or namespaces are too many. A text that `exchange`
/// returns has a parse, whatever its size.
pub fn only_limits_refuse_a_parse()
    ensures refusals { (text source : List ℕ) (limit : ℕ) (allow dtd : Bool) (asked given : List Asked) (f : Fault) (tops : Forest Item) (e : Error) → IsUtf8 text → RefusalOf limit allow text asked source f → ParseOf text dtd given tops → Permits allow dtd → SameAnswers asked given → IsErrorOf source f e → (e ≡ error.NodesLimitReached) ⊎ ((e ≡ error.AttributesLimitReached) ⊎ (e ≡ error.NamespacesLimitReached)) }
    ensures faults { (text : List ℕ) (limit : ℕ) (f : Fault) (tree : Forest grammar.Node) (e : Error) → IsUtf8 text → FaultOf limit text f → HasTree text tree → IsErrorOf text f e → (e ≡ error.NodesLimitReached) ⊎ ((e ≡ error.AttributesLimitReached) ⊎ (e ≡ error.NamespacesLimitReached)) }
{}

/// States in which source the fault of the clause `fault` is: the text, a replacement text that it declares by a literal, or an
/// answer. A literal's replacement text is a prefix of the text, up to the closing quote. So the error of a fault in it is that
/// of this fault in the text, with row, column and names of the text.
pub fn literals_are_told_in_the_text()
    ensures sources { (text source : List ℕ) (limit : ℕ) (allow : Bool) (asked : List Asked) (f : Fault) → RefusalOf limit allow text asked source f → (source ≡ text) ⊎ (IsLiteralIn text source ⊎ IsAnswerIn asked source) }
    ensures literal { (text source : List ℕ) (limit : ℕ) (allow : Bool) (asked : List Asked) (f : Fault) (e : Error) → IsUtf8 text → RefusalOf limit allow text asked source f → IsLiteralIn text source → NamesText source f → IsErrorOf source f e → IsErrorOf text f e }
{}

/// States that each error that parsing returns for a fault has a message: the bytes that `Display` writes of the error, and of its
/// `Message`. Only a `NonXmlChar` that a caller makes may have none.
pub fn errors_have_messages()
    ensures with_position { (text source : List ℕ) (limit : ℕ) (allow : Bool) (asked : List Asked) (f : Fault) (e : Error) → RefusalOf limit allow text asked source f → IsErrorOf source f e → message_with_position e ≢ None }
    ensures without_position { (text source : List ℕ) (limit : ℕ) (allow : Bool) (asked : List Asked) (f : Fault) (e : Error) → RefusalOf limit allow text asked source f → IsErrorOf source f e → message e ≢ None }
{}

/// States that the tree of every document is that of its text, with the answers for its external entities. Without a document
/// type declaration nothing was asked.
pub fn document_is_a_parse(document: &Document<'_>)
    ensures any { (asked : List Asked) × IsTreeOf document.now.text document.now.dtd asked 4294967295 document.now.tree }
    ensures plain { document.now.dtd ≡ false → IsTreeOf document.now.text false [] 4294967295 document.now.tree }
{
    document_is_whole(document);
}

/// States that the text determines whether there is a document type declaration. Documents of one text without one have the same
/// tree.
pub fn documents_of_one_text(one: &Document<'_>, other: &Document<'_>)
    ensures dtd { one.now.text ≡ other.now.text → one.now.dtd ≡ other.now.dtd }
    ensures tree { one.now.text ≡ other.now.text → one.now.dtd ≡ false → one.now.tree ≡ other.now.tree }
{
    document_is_whole(one);
    document_is_whole(other);
}

/// States that no text node directly follows another: a longest run of characters, references and CDATA sections is one node.
pub fn texts_are_apart(document: &Document<'_>)
    ensures { TextsApart document.now.tree }
{
    document_is_whole(document);
}

/// States that no element lists a prefix, or the default, twice. No element has two attributes with one expanded name (Namespaces
/// in XML 1.0 sections 5 and 6.3).
pub fn names_are_distinct(document: &Document<'_>)
    ensures { NamesDistinct document.now.tree }
{
    document_is_whole(document);
}

/// States that an element has at most one attribute with each name.
pub fn attributes_have_their_own_names(document: &Document<'_>)
    ensures { (id : ℕ) (name : Option (List ℕ) × List ℕ) (i j : ℕ) → IsNamedAt name (attributes_of (node_at document.now.tree id)) i → IsNamedAt name (attributes_of (node_at document.now.tree id)) j → i ≡ j }
{
    document_is_whole(document);
}

/// States which URI an element lists for a prefix, or for the default. It is that of the nearest declaration in the text as
/// written, by the element or an ancestor (Namespaces in XML 1.0 section 6.1). None is listed if none of them declares the
/// prefix, for `xml`, and on other nodes.
///
/// The text as written is the parse that the tree is of, with replacement texts in place of their references.
pub fn nearest_declaration_is_listed(document: &Document<'_>)
    ensures written { (asked : List Asked) × (tops : Forest Item) × ParseOf document.now.text document.now.dtd asked tops × (document.now.tree ≡ document_tree (length document.now.text) tops) }
    ensures only { document.now.dtd ≡ false → (tops : Forest Item) → ParseOf document.now.text false [] tops → document.now.tree ≡ document_tree (length document.now.text) tops }
    ensures found { (asked : List Asked) (tops : Forest Item) → ParseOf document.now.text document.now.dtd asked tops → document.now.tree ≡ document_tree (length document.now.text) tops → (id : ℕ) (prefix : Option (List ℕ)) (uri : List ℕ) → IsElementAt document.now.tree id → prefix ≢ xml → (listed_uri document.now.tree id prefix ≡ Some uri) ↔ IsNearest tops document.now.tree id prefix uri }
    ensures none { (asked : List Asked) (tops : Forest Item) → ParseOf document.now.text document.now.dtd asked tops → document.now.tree ≡ document_tree (length document.now.text) tops → (id : ℕ) (prefix : Option (List ℕ)) → IsElementAt document.now.tree id → prefix ≢ xml → (listed_uri document.now.tree id prefix ≡ None) ↔ NoneDeclares tops prefix (upwards document.now.tree id) }
    ensures never_xml { (id : ℕ) → listed_uri document.now.tree id xml ≡ None }
    ensures others { (id : ℕ) (prefix : Option (List ℕ)) → ¬ IsElementAt document.now.tree id → listed_uri document.now.tree id prefix ≡ None }
{
    document_is_whole(document);
}

/// States that each name, prefix, namespace, attribute value, text, comment and processing instruction is in UTF-8. Its
/// characters are all Chars (XML 1.0 section 2.2).
pub fn characters_are_chars(document: &Document<'_>)
    ensures { AllChars document.now.tree }
{
    document_is_whole(document);
}

/// States that a text is empty only if all its pieces are empty CDATA sections, in the text itself or in replacement texts.
///
/// By `pieces`, for every parse: the texts of its tree are the written pieces, each longest row of adjacent ones as one. Each
/// piece without a byte is such a section. By `range`, the range of an empty text is that of its first piece. By `plain`, without
/// a document type declaration, the pieces follow one another from its start on, and markup that is not a CDATA section follows
/// them.
///
/// The tree of the document is that of such a parse (`document_is_a_parse`).
pub fn empty_texts_are_sections(document: &Document<'_>)
    ensures pieces { (asked : List Asked) (tops : Forest Item) (p : ParseOf document.now.text document.now.dtd asked tops) → OnlySectionsAreEmpty document.now.text p.entities tops (pieces_of document.now.text document.now.dtd asked tops p) }
    ensures range { (asked : List Asked) (tops : Forest Item) (p : ParseOf document.now.text document.now.dtd asked tops) → EachNode (BeginsWithSection document.now.text p.entities) (document_tree (length document.now.text) tops) }
    ensures plain { document.now.dtd ≡ false → EmptyTextsAreSections document.now.text document.now.tree }
{
    document_is_whole(document);
}

/// States that, without a document type declaration, a node's range lies in its parent's. The ranges of siblings are in order and
/// disjoint: each ends where the next starts, or before. A text that was merged has the range of its first piece.
///
/// The ranges of what a reference opens are not compared: they count in the replacement text.
pub fn ranges_are_nested(document: &Document<'_>)
    ensures nested { document.now.dtd ≡ false → RangesNested 0 (length document.now.text) document.now.tree }
    ensures in_parent { document.now.dtd ≡ false → (i q : ℕ) → i < size document.now.tree → parent document.now.tree i ≡ Some q → (start_of (node_at document.now.tree q) ≤ start_of (node_at document.now.tree i)) × (end_of (node_at document.now.tree i) ≤ end_of (node_at document.now.tree q)) }
    ensures before_next { document.now.dtd ≡ false → (i j : ℕ) → i < size document.now.tree → next_sibling document.now.tree i ≡ Some j → end_of (node_at document.now.tree i) ≤ start_of (node_at document.now.tree j) }
{
    document_is_whole(document);
}

/// States how attributes are written in a document without a document type declaration (XML 1.0 section 3.1). The ranges of an
/// attribute select its name as written, and the raw value between its quotes. Attributes are in order within their element.
pub fn attributes_are_written(document: &Document<'_>)
    ensures selected { document.now.dtd ≡ false → RangesSelect document.now.text document.now.tree }
    ensures grammar { document.now.dtd ≡ false → AttributesWritten document.now.text document.now.tree }
    ensures ordered { document.now.dtd ≡ false → AttributesInOrder document.now.tree }
{
    document_is_whole(document);
}

/// States that a tree is bounded by its text and by the answers, whatever entities add.
///
/// By `replacements`, in the tree of every parse, the values of all texts and attributes together have at most B bytes. B is the
/// length of the text, and for each `&` in it 256 times the length of the longest replacement text that it declares. The number
/// of nodes without the root node, and of attributes, together is at most B too.
///
/// By `answers`, no replacement text is longer than the text or the longest answer. So a bound on the answers bounds the tree.
/// The tree of the document is that of such a parse (`document_is_a_parse`).
pub fn trees_are_bounded(document: &Document<'_>)
    ensures replacements { (asked : List Asked) (tops : Forest Item) (p : ParseOf document.now.text document.now.dtd asked tops) → IsTreeBounded document.now.text (longest p.entities) (document_tree (length document.now.text) tops) }
    ensures answers { (asked : List Asked) (tops : Forest Item) (most : ℕ) → ParseOf document.now.text document.now.dtd asked tops → AreShort most asked → IsTreeBounded document.now.text (max (length document.now.text) most) (document_tree (length document.now.text) tops) }
{
    let _ = document;
}

/// States a bound for what `Document::parse_with_options` returns. Suppose that a resolver may give only answers of at most
/// `most` bytes. Then every tree with allowed answers is bounded by `most` and the length of the text.
pub fn answers_bound_trees<'input, R: EntityResolver<'input>>(text: &str, resolver: &Option<R>)
    ensures { (most limit : ℕ) (dtd : Bool) (asked : List Asked) (tree : Forest grammar.Node) → ((request : Request) (answer : List ℕ) → Allows R.allows resolver.now request (Ok (Some answer)) → length answer ≤ most) → AreAllowed (Allows R.allows resolver.now) asked → IsTreeOf text.now dtd asked limit tree → IsTreeBounded text.now (max (length text.now) most) tree }
{
    let _ = text;
    let _ = resolver;
}

/// States that one reference of the text opens at most 256 replacement texts, at most ten inside one another. That holds in
/// content, and in the value of an attribute or declaration. The replacement texts are those of the entities that the text
/// declares. A count of them exists, and every count of what the reference opens is at most 256.
pub fn openings_are_few(document: &Document<'_>)
    ensures in_content { (asked : List Asked) (tops : Forest Item) (p : ParseOf document.now.text document.now.dtd asked tops) (name : List ℕ) (b c : ℕ) (items : Forest Item) → (included_in_main p.entities).content name b items c → (n : ℕ) × (Counts p.entities most_deep).content name 0 items n × (n ≤ 256) }
    ensures in_value { (asked : List Asked) (tops : Forest Item) (p : ParseOf document.now.text document.now.dtd asked tops) (name : List ℕ) (b c : ℕ) (v : List ℕ) → (included_in_main p.entities).value name b v c → (n : ℕ) × (Counts p.entities most_deep).value name 0 v n × (n ≤ 256) }
    ensures most_in_content { (asked : List Asked) (tops : Forest Item) (p : ParseOf document.now.text document.now.dtd asked tops) (name : List ℕ) (b c n : ℕ) (items : Forest Item) → (included_in_main p.entities).content name b items c → (Counts p.entities most_deep).content name 0 items n → n ≤ 256 }
    ensures most_in_value { (asked : List Asked) (tops : Forest Item) (p : ParseOf document.now.text document.now.dtd asked tops) (name : List ℕ) (b c n : ℕ) (v : List ℕ) → (included_in_main p.entities).value name b v c → (Counts p.entities most_deep).value name 0 v n → n ≤ 256 }
{
    document_is_whole(document);
}
