//! How much a document may hold, and what errors of that print.

use super::{child_count, document_of, is_refused, same};
use roxmltree::{Document, Error, ParsingOptions, TextPos};
use std::alloc::{AllocError, Global};

/// Returns `open`, `count` elements that each declare another URI, and `</r>`.
pub(super) fn declaring(alloc: Global, open: &str, count: u32) -> Result<String, AllocError> {
    let mut text = String::from_str(alloc, open)?;
    for uri in 1..=count {
        write!(text, "<e xmlns:n='{uri}'/>")?;
    }
    text.push_str("</r>")?;
    Ok(text)
}

#[test]
fn as_many_namespaces_as_may_be(rt: HostRuntime) {
    let text = declaring(rt.alloc(), "<r>", 65535).expect(&rt, "memory");
    let document = document_of(&rt, text.as_str());
    same(&rt, "children", child_count(&document), 65535);
    let text = declaring(rt.alloc(), "<r>", 65536).expect(&rt, "memory");
    is_refused(&rt, text.as_str(), Error::NamespacesLimitReached);
}

/// Errors that no text of a test has. The others are in `texts/messages.txt`.
#[test]
fn messages(rt: HostRuntime) {
    for (error, message) in &[
        (
            Error::NamespacesLimitReached,
            "more than 2^16 unique namespaces were parsed",
        ),
        (
            Error::AttributesLimitReached,
            "more than 2^32 attributes were parsed",
        ),
        (
            Error::NonXmlChar('\u{e9}', TextPos { row: 2, col: 7 }),
            "a non-XML character 'é' found at 2:7",
        ),
        (Error::OutOfMemory, "out of memory"),
    ] {
        let shown = error.to_string(rt.alloc()).expect(&rt, "memory");
        same(&rt, "printed", shown.as_str(), *message);
    }
}

/// Returns a text with `count` entities, whose texts are their numbers and a comma, and references to them, the last first.
fn numbered(alloc: Global, count: u32) -> Result<String, AllocError> {
    let mut text = String::from_str(alloc, "<!DOCTYPE r [")?;
    for number in 0..count {
        write!(text, "<!ENTITY e{number} '{number},'>")?;
    }
    text.push_str("]><r>")?;
    push_references(&mut text, count)?;
    text.push_str("</r>")?;
    Ok(text)
}

/// Adds a reference to each of so many numbered entities, from the last on.
fn push_references(text: &mut String, count: u32) -> Result<(), AllocError> {
    for number in (0..count).rev() {
        write!(text, "&e{number};")?;
    }
    Ok(())
}

/// Returns the numbers below `count`, the greatest first, each with a comma after it.
fn numbers_from_the_last(alloc: Global, count: u32) -> Result<String, AllocError> {
    let mut text = String::new(alloc);
    for number in (0..count).rev() {
        write!(text, "{number},")?;
    }
    Ok(text)
}

#[test]
fn each_of_many_entities_is_found(rt: HostRuntime) {
    let text = numbered(rt.alloc(), 20_000).expect(&rt, "memory");
    let wanted = numbers_from_the_last(rt.alloc(), 20_000).expect(&rt, "memory");
    let mut options = ParsingOptions::default();
    options.allow_dtd = true;
    let document = Document::parse_with_options(rt.alloc(), text.as_str(), options);
    let document = document.expect(&rt, "not read");
    let found = document.root_element().text();
    same(&rt, "text", found, Some(wanted.as_str()));
}
