//! Prints the contents of a book, whose chapters are external entities, in files beside it: the number of each chapter, its title,
//! and how many words it has.
//!
//! Of the book in the folder `data`, which begins with
//!
//! ```text
//! <!DOCTYPE book [
//!   <!ENTITY first SYSTEM "first.xml">
//!   <!ENTITY second SYSTEM "second.xml">
//! ]>
//! <book>
//! ```
//!
//! it prints
//!
//! ```text
//! 1. What a tree is (14 words)
//! 2. What a node is (8 words)
//! 3. Written here (8 words)
//! ```

use crate::chapters::{Chapter, asked_for, faulty_chapter, parse_book};
use anyhow::{Context, Result, bail};
use rox_path::{parse_path, select};
use roxmltree::{Document, Node};
use std::alloc::{AllocError, Global};
use std::fs;
use std::io::Write;
use std::path::Path;

/// Runs this example for the book in this file.
pub fn run(rt: &HostRuntime, file: &str) -> Result<()> {
    let text = fs::read_to_string(rt, file).context(format_args!("reading {file}"))?;
    let names = asked_for(rt.alloc(), text.as_str())?;
    let chapters = read_chapters(rt, Path::new(file), &names)?;
    print_book(rt, file, text.as_str(), &chapters)
}

/// Prints the contents of a book, or why it is refused, and for which file.
fn print_book(rt: &HostRuntime, file: &str, text: &str, chapters: &[Chapter]) -> Result<()> {
    match parse_book(rt.alloc(), text, chapters) {
        Ok(document) => print_contents(rt.alloc(), &document, &mut rt.stdout()),
        Err(error) => {
            let name = faulty_chapter(rt.alloc(), text, chapters).unwrap_or(file);
            bail!("{name}: {error}")
        }
    }
}

/// Returns whether a name is that of a file beside the book. Others are refused: a book must not read any file of the system.
fn is_beside(name: &str) -> bool {
    !name.contains('/') && name != ".."
}

/// Reads the files of these names, which are to be beside the book.
fn read_chapters(rt: &HostRuntime, book: Path<'_>, names: &[String]) -> Result<Vec<Chapter>> {
    let mut chapters = Vec::new(rt.alloc());
    for name in names {
        if !is_beside(name.as_str()) {
            bail!("{name}: a chapter has to be beside the book");
        }
        let path = book.with_file_name(rt.alloc(), name.as_str())?;
        let text = fs::read_to_string(rt, path).context(format_args!("reading {name}"))?;
        let name = name.clone()?;
        chapters.push(Chapter { name, text })?;
    }
    Ok(chapters)
}

/// Prints the line of each chapter.
fn print_contents<W: Write>(alloc: Global, document: &Document<'_>, out: &mut W) -> Result<()> {
    let steps = parse_path(alloc, "//chapter")?;
    let chapters = select(alloc, document.root(), &steps)?;
    for (at, chapter) in chapters.iter().enumerate() {
        print_chapter(chapter, alloc, at + 1, out)?;
    }
    Ok(())
}

/// Prints the line of a chapter.
fn print_chapter<W: Write>(
    chapter: &Node<'_, '_>,
    alloc: Global,
    number: usize,
    out: &mut W,
) -> Result<()> {
    let words = words(chapter);
    let title = title(chapter, alloc)?;
    writeln!(out, "{number}. {title} ({words} words)")?;
    Ok(())
}

/// Returns the text of the first element `title` among the children of a chapter.
fn title(chapter: &Node<'_, '_>, alloc: Global) -> Result<String, AllocError> {
    for child in chapter.children() {
        if child.has_local_name("title") {
            return full_text(alloc, child);
        }
    }
    String::from_str(alloc, "without title")
}

/// Returns the texts of an element and of those in it, one after the other.
fn full_text(alloc: Global, element: Node<'_, '_>) -> Result<String, AllocError> {
    let mut text = String::new(alloc);
    for node in element.descendants() {
        if node.is_text() {
            text.push_str(node.text().unwrap_or(""))?;
        }
    }
    Ok(text)
}

/// Returns the number of words in the texts of an element and of those in it.
fn words(element: &Node<'_, '_>) -> usize {
    let mut words = 0usize;
    for node in element.descendants() {
        words = words.saturating_add(own_words(&node));
    }
    words
}

/// Returns the number of words of a text, and 0 of another node.
fn own_words(node: &Node<'_, '_>) -> usize {
    if node.is_text() {
        return node.text().unwrap_or("").split_whitespace().count();
    }
    0
}
