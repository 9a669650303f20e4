//! A book whose chapters are external entities (XML 1.0 section 4.2.2), as `<!ENTITY first SYSTEM "first.xml">`.

use roxmltree::{Document, Error, ParsingOptions, ResolveWith};
use std::alloc::{AllocError, Global};
use std::cell::RefCell;

/// A file that an external entity names, and its text.
#[derive(Drop)]
pub struct Chapter {
    /// The system identifier of the entity.
    pub name: String,
    /// The text of the file.
    pub text: String,
}

/// Returns the system identifiers of the entities that a book requests, in order. The book is parsed with no text in answer, only
/// to collect its requests. So an error of that parse says nothing about the book, and is ignored unless memory ran out.
pub fn asked_for(alloc: Global, book: &str) -> Result<Vec<String>, AllocError> {
    let asked = RefCell::new(Vec::new(alloc));
    let resolver = ResolveWith::new(|_public_id, uri| {
        match note(alloc, &asked, uri) {
            Ok(()) => Ok(None),
            Err(_) => Err(String::new(alloc)),
        }
    });
    let mut options = ParsingOptions::with_resolver(resolver);
    options.allow_dtd = true;
    match Document::parse_with_options(alloc, book, options) {
        Err(Error::EntityResolver(_, _) | Error::OutOfMemory) => Err(AllocError),
        _ => Ok(asked.into_inner()),
    }
}

/// Adds the identifier to those that were asked for.
fn note(alloc: Global, asked: &RefCell<Vec<String>>, uri: &str) -> Result<(), AllocError> {
    let uri = String::from_str(alloc, uri)?;
    if let Ok(mut asked) = asked.try_borrow_mut() {
        asked.push(uri)?;
    }
    Ok(())
}

/// Returns the document of a book. An entity whose file is not among these chapters is empty.
pub fn parse_book<'input>(
    alloc: Global,
    book: &'input str,
    chapters: &'input [Chapter],
) -> Result<Document<'input>, Error> {
    let resolver = ResolveWith::new(|_public_id, uri| Ok(Some(text_of(chapters, uri))));
    let mut options = ParsingOptions::with_resolver(resolver);
    options.allow_dtd = true;
    Document::parse_with_options(alloc, book, options)
}

/// Returns the text of the chapter in this file, or no text if there is none.
fn text_of<'c>(chapters: &'c [Chapter], name: &str) -> &'c str {
    for chapter in chapters {
        if chapter.name.as_str() == name {
            return chapter.text.as_str();
        }
    }
    ""
}

/// Returns the name of the chapter that a refused book is refused for: the first with which it is refused if all after it are
/// empty. Returns `None` if it is refused with all of them empty.
pub fn faulty_chapter<'c>(alloc: Global, book: &str, chapters: &'c [Chapter]) -> Option<&'c str> {
    if is_refused(alloc, book, &[]) {
        return None;
    }
    for (at, chapter) in chapters.iter().enumerate() {
        if is_refused(alloc, book, &chapters[..=at]) {
            return Some(chapter.name.as_str());
        }
    }
    None
}

/// Returns whether the book with these chapters is refused.
fn is_refused(alloc: Global, book: &str, chapters: &[Chapter]) -> bool {
    parse_book(alloc, book, chapters).is_err()
}
