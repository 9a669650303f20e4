//! How many bytes of memory a document holds.

use crate::fault::Fault;
use rox_programs::input::read_all;
use rox_programs::program_error::ProgramError;
use roxmltree::Document;
use std::alloc::Global;
use std::fs::File;
use std::rt::Files;

/// About how many bytes of text are parsed, in copies if one text is shorter: the system counts memory in pages.
const SAMPLE: usize = 4_000_000;

/// The maximum number of documents that are parsed.
const MOST_COPIES: usize = 10_000;

/// Returns the bytes that a document of this text holds, or `None` if the system does not report them. A short text is parsed
/// many times, all documents are kept, and the anonymous memory that the process uses is read before and after. So what the
/// allocator keeps for itself is counted, and pages of a table that were never written to are not. This has to be the first
/// parse of the process: memory that was freed before would be used again, and not be counted.
pub fn held<R: Files + AllocGlobal>(rt: &R, text: &str) -> Result<Option<u64>, Fault> {
    let copies = (SAMPLE / text.len().max(1)).clamp(1, MOST_COPIES);
    let mut documents = Vec::with_capacity(rt.alloc(), copies)?;
    let before = in_use(rt)?;
    parse_copies(rt.alloc(), text, copies, &mut documents)?;
    let after = in_use(rt)?;
    Ok(each(before, after, documents.len()))
}

/// Appends `copies` documents of the text.
fn parse_copies<'t>(
    alloc: Global,
    text: &'t str,
    copies: usize,
    documents: &mut Vec<Document<'t>>,
) -> Result<(), Fault> {
    for _ in 0..copies {
        documents.push(Document::parse(alloc, text)?)?;
    }
    Ok(())
}

// Returns the bytes for each of `count` documents, from the bytes in use before and after, or `None` if one of the two is `None`.
fn each(before: Option<u64>, after: Option<u64>, count: usize) -> Option<u64> {
    let taken = after?.saturating_sub(before?);
    Some(taken / count.max(1) as u64)
}

// Returns the bytes of anonymous memory that the process uses, or `None` if the system does not report them.
fn in_use<R: Files + AllocGlobal>(rt: &R) -> Result<Option<u64>, ProgramError> {
    let table = File::open(rt, "/proc/self/smaps_rollup").ok();
    match read_all(rt.alloc(), table) {
        Ok(table) => Ok(anonymous(&table)),
        Err(ProgramError::OutOfMemory) => Err(ProgramError::OutOfMemory),
        Err(_) => Ok(None),
    }
}

/// Returns the bytes of anonymous memory in a table of the system, or `None` if the table does not have them.
fn anonymous(table: &[u8]) -> Option<u64> {
    let table = str::from_utf8(table).ok()?;
    kibibytes(table, "Anonymous:")?.checked_mul(1024)
}

/// Returns the number in the first line of a table that begins with this word, as in `Anonymous:   148 kB`. Returns `None` if no
/// line begins with it, or no number follows it.
///
/// ```
/// use rox_measures::memory::kibibytes;
///
/// let table = "5500-7fff [rollup]\nRss:    2172 kB\nPss_Anon:  7 kB\nBad: x kB\nNone:\n";
/// assert!(rt; kibibytes(table, "Rss:") == Some(2172));
/// for word in ["Anon:", "Bad:", "None:"] {
///     assert!(rt; kibibytes(table, word).is_none(), "{word}");
/// }
/// ```
pub fn kibibytes(table: &str, word: &str) -> Option<u64> {
    for line in table.lines() {
        let mut words = line.split_ascii_whitespace();
        if words.next() == Some(word) {
            return words.next()?.parse().ok();
        }
    }
    None
}
