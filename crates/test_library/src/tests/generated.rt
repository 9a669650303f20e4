//! Every text `<r>`..`</r>` of up to four pieces, and what stands in it as the text of an entity.

ghost use Rattle.std.specs.Prelude.{◌≡◌, Some};

use super::slices::{exchanged, reparsed};
use super::{child_count, document_of, is_refused, same};
use roxmltree::{Document, Error, Node, ParsingOptions, ResolveWith};
use std::alloc::{AllocError, Global};
use std::process::Abort;

/// A piece of content, and whether it is a node that stands by itself: other pieces that touch are one text node.
const PIECES: [(&str, bool); 6] = [
    ("x", false),
    ("\r", false),
    ("&amp;", false),
    ("<b/>", true),
    ("<!--c-->", true),
    ("<![CDATA[d]]>", false),
];

/// How many rows of up to four pieces there are.
const ROWS: usize = 1 + 6 + 36 + 216 + 1296;

/// A text, and how many nodes a row of pieces in it is.
#[derive(Drop)]
struct Case {
    text: String,
    children: usize,
}

/// The text of a row of pieces between two others: the digits of its number from the last, 1 to 6 in base 6. A piece `x` is
/// written as another text.
fn case_of(alloc: Global, row: usize, [open, x, close]: [&str; 3]) -> Result<Case, AllocError> {
    let mut text = String::from_str(alloc, open)?;
    let children = push_pieces(&mut text, row, x)?;
    text.push_str(close)?;
    Ok(Case { text, children })
}

/// Adds a row of pieces, and returns how many nodes it is.
fn push_pieces(text: &mut String, row: usize, x: &str) -> Result<usize, AllocError> {
    let mut children: usize = 0;
    let mut in_text = false;
    let mut left = row;
    for _ in 0..4 {
        if left == 0 {
            break;
        }
        let (piece, is_node) = PIECES[(left - 1) % 6];
        left = (left - 1) / 6;
        text.push_str(if piece == "x" { x } else { piece })?;
        if is_node || !in_text {
            children = children.saturating_add(1);
        }
        in_text = !is_node;
    }
    Ok(children)
}

/// The text of a case without its last byte, a `>`.
fn cut(case: &Case) -> &str {
    case.text.as_str().strip_suffix('>').unwrap_or("")
}

/// Wants a root element to have so many children, also where it is parsed alone, and to take its own place.
fn is_read(
    root: &Node<'_, '_>,
    document: &Document<'_>,
    rt: &(impl Abort + AllocGlobal),
    case: &Case,
) {
    let text = case.text.as_str();
    same(rt, text, root.children().count(), case.children);
    same(rt, text, child_count(&reparsed(root, rt)), case.children);
    same(rt, text, exchanged(root, document, rt).as_str(), text);
}

#[test]
fn texts_of_pieces(rt: HostRuntime) {
    for row in 0..ROWS {
        let case = case_of(rt.alloc(), row, ["<r>", "x", "</r>"]).expect(&rt, "memory");
        let document = document_of(&rt, case.text.as_str());
        is_read(&document.root_element(), &document, &rt, &case);
        is_refused(&rt, cut(&case), Error::UnexpectedEndOfStream);
    }
}

/// Returns options that allow a document type declaration, with this resolver.
fn answered_by<R>(resolver: R) -> ParsingOptions<R>
    ensures { result.entity_resolver ≡ Some resolver }
{
    let mut options = ParsingOptions::with_resolver(resolver);
    options.allow_dtd = true;
    options
}

/// How many children the root element of a text has where each external entity has one answer.
fn answered<'input>(
    rt: &impl AllocGlobal,
    text: &'input str,
    answer: &'input str,
) -> Result<usize, Error> {
    let options = answered_by(ResolveWith::new(|_id, _uri| Ok(Some(answer))));
    match Document::parse_with_options(rt.alloc(), text, options) {
        Ok(document) => Ok(child_count(&document)),
        Err(error) => Err(error),
    }
}

/// A text with an entity in place of `x`, one with an entity of the pieces, and one whose entity is elsewhere.
const MAIN: [&str; 3] = ["<!DOCTYPE r [<!ENTITY a 'x'>]><r>", "&a;", "</r>"];

const INNER: [&str; 3] = ["<!DOCTYPE r [<!ENTITY a '", "x", "'>]><r>&a;</r>"];

const OUTER: &str = "<!DOCTYPE r [<!ENTITY a SYSTEM 'u'>]><r>&a;</r>";

/// Wants the answer for a text with a row of pieces in it.
fn is_answered(rt: &(impl Abort + AllocGlobal), row: usize, parts: [&str; 3]) {
    let case = case_of(rt.alloc(), row, parts).expect(rt, "memory");
    let answer = answered(rt, case.text.as_str(), "");
    same(rt, case.text.as_str(), answer, Ok(case.children));
    let answer = answered(rt, cut(&case), "");
    same(rt, cut(&case), answer, Err(Error::UnexpectedEndOfStream));
}

#[test]
fn pieces_and_entities(rt: HostRuntime) {
    for row in 0..ROWS {
        is_answered(&rt, row, MAIN);
        is_answered(&rt, row, INNER);
        let case = case_of(rt.alloc(), row, ["", "x", ""]).expect(&rt, "memory");
        let answer = answered(&rt, OUTER, case.text.as_str());
        same(&rt, case.text.as_str(), answer, Ok(case.children));
    }
}
