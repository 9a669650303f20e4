//! How a text is parsed into its document.

ghost use Rattle.std.specs.Prelude.{◌≡◌, ◌≢◌, ◌++◌, ℕ, Bool, false, true, List, [], Err, IfOk, IfErr};
ghost use Rattle.std.specs.Prelude.{String, string_bytes};
ghost use Rattle.std.specs.declared.alloc.Global.{Global};
ghost use Rattle.rox_grammar.specs.declared.fault.Fault.{Fault};
ghost use Rattle.rox_grammar.specs.Forest.{Forest};
ghost use Rattle.rox_grammar.specs.Spans.{NamesText};
ghost use Rattle.rox_grammar.specs.FaultsWithDoctype.{RefusalOf, FaultOf};
ghost use Rattle.rox_grammar.specs.Tree as grammar;
ghost use Rattle.rox_grammar.specs.Doctype.{Request, Asked};
ghost use Rattle.rox_grammar.specs.Document.{IsTreeOf, Permits, HasAsked, AsksNext};
ghost use Rattle.rox_reading.specs.Refusals.{here};
ghost use Rattle.rox_reading.specs.WholeText.{reading};
ghost use Rattle.rox_build.specs.Requests.{Allows, AreAllowed, MayAsk};
ghost use Rattle.rox_error.specs.FaultErrors.{position_at, IsErrorOf};
ghost use Rattle.roxmltree.specs.TextErrors.{IsTextError};
ghost use Rattle.roxmltree.specs.FirstError.{IsFirst};
ghost use Rattle.roxmltree.specs.ReadDocument.{IsReadDocument, IsErrorOfReason};

use crate::options::ParsingOptions;
use crate::tree::Document;
use rox_build::EntityResolver;
use rox_build::reader::{build, first_tables};
use rox_builder::builder::Builder;
use rox_error::error::Error;
use rox_error::from_fault::{error_of_fault, error_of_resolver};
use rox_error::position::TextPos;
use rox_values::parse_error::ParseError;
use std::alloc::Global;

impl<'input> Document<'input> {
    /// Returns the document of `text`, in which a document type declaration is an error. The key of the document is 0.
    ///
    /// The text is a document as `docs/RULES.md` defines it. It is well formed (XML 1.0 section 2.1) and its namespaces are
    /// (Namespaces in XML 1.0 section 7). The exceptions are listed in `docs/DIFFERENCES.md` under "Departures from the
    /// standards".
    ///
    /// `Error::OutOfMemory` says nothing about the text. Any other error says that the text is not such a document or exceeds a
    /// limit (`no_parse`). The limits are 4,294,967,295 nodes, 4,294,967,294 attributes, and 65,535 distinct pairs of a prefix
    /// and its namespace.
    ///
    /// Such an error reports a fault: its kind, its position and its names. By the clause `fault`, the grammar has that fault
    /// there: all before the construct with the fault is valid and within the limits. By the clause `first`, it is the fault that
    /// reading from left to right meets first; `reading` defines that.
    ///
    /// ```
    /// let document = Document::parse(alloc, "<list><item>one</item></list>")?;
    /// assert!(rt; document.root_element().has_tag_name("list".into()));
    /// // the end tag has another name
    /// assert!(rt; Document::parse(alloc, "<list></item>").is_err());
    /// ```
    pub fn parse(alloc: Global, text: &'input str) -> Result<Document<'input>, Error<'static>>
        ensures is_parse { IfOk result
            (λ document. IsTreeOf text.now false [] 4294967295 document.tree) }
        ensures dtd { IfOk result (λ document. document.dtd ≡ false) }
        ensures text { IfOk result (λ document. document.text ≡ text.now) }
        ensures key { IfOk result (λ document. document.key ≡ 0) }
        ensures no_parse { IfErr result (λ e. e ≢ Error.OutOfMemory → (tree : Forest grammar.Node)
            → IsTreeOf text.now false [] 4294967295 tree → ⊥) }
        ensures fault { IfErr result (λ e. e ≢ Error.OutOfMemory
            → (f : Fault) × FaultOf 4294967295 text.now f × NamesText text.now f
            × IsErrorOf text.now f e) }
        ensures first { IfErr result (λ e. e ≢ Error.OutOfMemory
            → (f : Fault) × (reading 4294967295 false [] text.now ≡ ([], Err (here f)))
            × FaultOf 4294967295 text.now f × NamesText text.now f × IsErrorOf text.now f e) }
    {
        Document::parse_with_options(alloc, text, ParsingOptions::default())
    }

    /// Returns the document of `text`, parsed with the options `opt`. A document type declaration is allowed if `opt.allow_dtd`
    /// is true (XML 1.0 section 2.8). At most `opt.nodes_limit` nodes are allowed, the root node included. The key of the
    /// document is `opt.document_key`.
    ///
    /// If document type declarations are allowed, the resolver, if there is one, has to allow being asked (`can_resolve`).
    /// Otherwise it is not asked (`may`). It is asked for the external entities that a declaration declares (XML 1.0 section
    /// 4.2.2). The tree is that of the text with some answers, each of which the resolver's relation `allows` (`is_parse`).
    /// Only tests show that each declaration is asked for once, in order, and that these answers are the given ones.
    ///
    /// `Error::OutOfMemory` says nothing about the text. `Error::EntityResolver` has words with which the resolver may refuse a
    /// request, and the position of that request (`resolver`). For any other error there are allowed answers to what the text
    /// asks for. No parse that the options allow, within the limits, has answers that begin with these (`no_parse`).
    ///
    /// By the clause `fault`, such an error reports a fault by the rules of the grammar, after the requests made until then. Its
    /// kind, position and names refer to this text, also if the fault is in the literal of an entity, or to an answer. By the
    /// clause `first`, each error except `Error::OutOfMemory` is the one that reading from left to right meets first.
    ///
    /// ```
    /// let mut options = ParsingOptions::default();
    /// options.allow_dtd = true;
    /// let text = "<!DOCTYPE r [<!ENTITY who 'you'>]><r>to &who;</r>";
    /// let document = Document::parse_with_options(alloc, text, options)?;
    /// assert!(rt; document.root_element().text() == Some("to you"));
    /// ```
    pub fn parse_with_options<'w, R: EntityResolver<'input> + Drop>(
        alloc: Global,
        text: &'input str,
        opt: ParsingOptions<R>,
    ) -> Result<Document<'input>, Error<'w>>
        requires may { opt.allow_dtd ≡ true → MayAsk R.can_resolve opt.entity_resolver }
        ensures is_parse { IfOk result (λ document. (asked : List Asked)
            × AreAllowed (Allows R.allows opt.entity_resolver) asked
            × Permits opt.allow_dtd document.dtd
            × IsTreeOf text.now document.dtd asked opt.nodes_limit document.tree) }
        ensures text { IfOk result (λ document. document.text ≡ text.now) }
        ensures key { IfOk result (λ document. document.key ≡ opt.document_key) }
        ensures no_parse { IfErr result (λ e. IsTextError e
            → (asked : List Asked) × HasAsked text.now opt.allow_dtd asked
            × AreAllowed (Allows R.allows opt.entity_resolver) asked
            × ((dtd : Bool) (later : List Asked) (tree : Forest grammar.Node)
            → Permits opt.allow_dtd dtd
            → IsTreeOf text.now dtd (asked ++ later) opt.nodes_limit tree → ⊥)) }
        ensures resolver { IfErr result (λ e. (p : TextPos) (words : String Global)
            → e ≡ Error.EntityResolver p words → (asked : List Asked) × (request : Request)
            × (at : ℕ) × (opt.allow_dtd ≡ true)
            × AreAllowed (Allows R.allows opt.entity_resolver) asked
            × AsksNext text.now asked request at
            × Allows R.allows opt.entity_resolver request (Err (string_bytes words))
            × (p ≡ position_at text.now at)) }
        ensures fault { IfErr result (λ e. IsTextError e → (asked : List Asked) × (source : List ℕ)
            × (f : Fault) × AreAllowed (Allows R.allows opt.entity_resolver) asked
            × RefusalOf opt.nodes_limit opt.allow_dtd text.now asked source f × NamesText source f
            × IsErrorOf source f e) }
        ensures first { IfErr result (λ e. e ≢ Error.OutOfMemory
            → IsFirst opt.nodes_limit opt.allow_dtd
            (Allows R.allows opt.entity_resolver) text.now e) }
    {
        read(alloc, text, opt)
    }
}

/// Returns the document of a text, or the first error that reading it meets.
fn read<'input, 'w, R: EntityResolver<'input> + Drop>(
    alloc: Global,
    text: &'input str,
    opt: ParsingOptions<R>,
) -> Result<Document<'input>, Error<'w>>
    requires may { opt.allow_dtd ≡ true → MayAsk R.can_resolve opt.entity_resolver }
    ensures document { IfOk result
        (λ document. IsReadDocument opt.nodes_limit opt.allow_dtd
        (Allows R.allows opt.entity_resolver) text.now opt.document_key document) }
    ensures told { IfErr result (λ e. e ≢ Error.OutOfMemory
        → IsFirst opt.nodes_limit opt.allow_dtd (Allows R.allows opt.entity_resolver) text.now e) }
{
    let Ok(first) = first_tables(alloc, text) else {
        return refusal(alloc, text, ParseError::Memory);
    };
    let mut builder = Builder::of_root(alloc, first, opt.nodes_limit);
    let dtd = match build(
        alloc,
        text,
        opt.allow_dtd,
        &opt.entity_resolver,
        &mut builder,
    ) {
        Ok(dtd) => dtd,
        Err(refused) => return refusal(alloc, text, refused),
    };
    Ok(Document::from_builder(text, opt.document_key, dtd, builder))
}

/// Returns the error for a refused text. It is made whole before it is moved: otherwise its place would be cleared first, for
/// every result.
#[inline(always)]
fn refusal<'input, 'w>(
    alloc: Global,
    text: &str,
    refused: ParseError<'_>,
) -> Result<Document<'input>, Error<'w>>
    ensures { (e : Error) × (result ≡ Err e) × IsErrorOfReason text.now refused.entry e }
{
    Err(told(alloc, text, refused))
}

/// Returns the error for a refusal.
#[cold]
#[inline(never)]
fn told<'w>(alloc: Global, text: &str, refused: ParseError<'_>) -> Error<'w>
    ensures { IsErrorOfReason text.now refused.entry result }
{
    match refused {
        ParseError::Memory => Error::OutOfMemory,
        ParseError::Fault(fault) => error_of_fault(alloc, text, fault),
        ParseError::FaultIn(source, fault) => error_of_fault(alloc, source, fault),
        ParseError::Resolver(at, words) => error_of_resolver(text, at, words),
    }
}
