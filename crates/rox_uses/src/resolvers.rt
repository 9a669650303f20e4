//! Resolvers of external entities (XML 1.0 section 4.2.2).

ghost use Rattle.std.specs.Prelude.{◌≡◌, ◌≢◌, Some, true, List, IfOk, IfErr, option_map};
ghost use Rattle.roxmltree.specs.Doctype.{Asked};
ghost use Rattle.roxmltree.specs.Document.{IsTreeOf};
ghost use Rattle.roxmltree.specs.FirstError.{IsFirst};
ghost use Rattle.roxmltree.specs.Requests.{Allows, AreAllowed};
ghost use Rattle.rox_uses.specs.Resolvers.{IsReplyOf, text_of_name};

use rox_error::error::Error;
use roxmltree::{Document, EntityResolver, ParsingOptions, ResolveWith};
use std::alloc::Global;

/// Returns the document of a text. A resolver of any type answers the requests for its external entities.
///
/// ```
/// use rox_uses::parse_answered;
///
/// let book = "<!DOCTYPE book [<!ENTITY a SYSTEM '1.xml'>]><book>&a;</book>";
/// let error = parse_answered(alloc, book, NoResolver).expect_err(&rt, book);
/// let printed = error.to_string(alloc)?;
/// assert!(rt; printed.as_str() == "unknown entity reference 'a' at 1:51");
/// ```
pub fn parse_answered<'input, 'w, R: EntityResolver<'input> + Drop>(
    alloc: Global,
    text: &'input str,
    resolver: R,
) -> Result<Document<'input>, Error<'w>>
    requires can { R.can_resolve resolver }
    ensures is_parse { IfOk result (λ document. (asked : List Asked)
        × AreAllowed (Allows R.allows (Some resolver)) asked
        × IsTreeOf text.now document.dtd asked 4294967295 document.tree) }
    ensures text { IfOk result (λ document. document.text ≡ text.now) }
    ensures first { IfErr result (λ e. e ≢ Error.OutOfMemory
        → IsFirst 4294967295 true (Allows R.allows (Some resolver)) text.now e) }
{
    let mut options = ParsingOptions::with_resolver(resolver);
    options.allow_dtd = true;
    Document::parse_with_options(alloc, text, options)
}

/// Returns the document of a text whose external entities are texts that were read before, each beside its system identifier.
/// A text that names another is refused as `Error::EntityResolver`.
///
/// ```
/// use rox_uses::parse_named;
///
/// let book = "<!DOCTYPE book [<!ENTITY a SYSTEM '1.xml'><!ENTITY b SYSTEM '2.xml'>]><book>&a;&b;</book>";
/// let chapters = [("2.xml", "<c n='2'/>"), ("1.xml", "<c n='1'/>")];
/// let document = parse_named(alloc, book, &chapters)?;
/// let first = document.root_element().first_child().expect(&rt, "a child");
/// assert!(rt; first.attribute("n".into()) == Some("1"));
///
/// // `1.xml` is not among these
/// let error = parse_named(alloc, book, &[("2.xml", "<c n='2'/>")]).expect_err(&rt, book);
/// let printed = error.to_string(alloc)?;
/// assert!(rt; printed.as_str() == "entity resolver failed at 1:42: no such text");
/// ```
pub fn parse_named<'input>(
    alloc: Global,
    text: &'input str,
    texts: &[(&str, &'input str)],
) -> Result<Document<'input>, roxmltree::Error>
    ensures is_parse { IfOk result (λ document. (asked : List Asked)
        × AreAllowed (IsReplyOf texts.now) asked
        × IsTreeOf text.now document.dtd asked 4294967295 document.tree) }
    ensures text { IfOk result (λ document. document.text ≡ text.now) }
    ensures first { IfErr result (λ e. e ≢ Error.OutOfMemory
        → IsFirst 4294967295 true (IsReplyOf texts.now) text.now e) }
{
    let answers = ResolveWith::new(|_public_id, uri| {
        match text_named(texts, uri) {
            Some(text) => Ok(Some(text)),
            None => Err(String::from_str(alloc, "no such text").unwrap_or(String::new(alloc))),
        }
    });
    let mut options = ParsingOptions::with_resolver(answers);
    options.allow_dtd = true;
    Document::parse_with_options(alloc, text, options)
}

/// Returns the first text with this name.
fn text_named<'input>(texts: &[(&str, &'input str)], uri: &str) -> Option<&'input str>
    ensures { option_map (λ t. t.now) result ≡ text_of_name texts.now uri.now }
{
    for (name, text) in texts {
        if *name == uri {
            return Some(*text);
        }
    }
    None
}
