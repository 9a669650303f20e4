//! Checks XML files: `xmlcheck [--allow-dtd] FILE..`.
#![tactic(auto)]

use roxmltree::{Document, Error, Node, ParsingOptions, TextPos};
use std::alloc::{AllocError, Global};
use std::fmt::Display;
use std::io::ErrorKind;
use std::process::ExitCode;
use std::{env, fs, io, str};

const HELP: &str = "usage: xmlcheck [--allow-dtd] FILE..
Checks that files are well formed. For each that is refused, prints FILE:ROW:COLUMN: MESSAGE, the
line and a caret, or FILE: MESSAGE.
  --allow-dtd  accepts document type declarations in all files
  -h, --help   prints this text
Faults go to the standard output. Why a file cannot be read, or is not UTF-8, goes to the standard
error. Control characters, except TAB, are printed as U+FFFD. The status is 0 if no file is refused,
1 if one is, and 2 if one cannot be read or an argument is wrong; the highest counts.";

/// Runs the command, and reports an input or output that failed.
fn main(rt: HostRuntime) -> ExitCode {
    match check_files(&rt) {
        Ok(status) => ExitCode::from(status),
        // nobody reads on, as behind `xmlcheck FILE.. | head -1`
        Err(error) if error.kind() == ErrorKind::BrokenPipe => ExitCode::from(1),
        Err(error) => {
            let _ = eprintln!(rt; "xmlcheck: {error}");
            ExitCode::from(2)
        }
    }
}

/// Checks the files that the arguments name, and returns the highest of their statuses.
fn check_files(rt: &HostRuntime) -> io::Result<u8> {
    match env::args(rt) {
        Ok(words) => {
            let words: Vec<String> = words.skip(1).collect(rt.alloc())?;
            check_words(rt, &words)
        }
        Err(error) if error.kind() == ErrorKind::InvalidData => {
            eprintln!(rt; "xmlcheck: an argument is not UTF-8: no file was checked")?;
            Ok(2)
        }
        Err(error) => Err(error),
    }
}

/// Reads all words, then checks the files among them. An option holds for all files, and a wrong one leaves them unchecked.
fn check_words(rt: &HostRuntime, words: &[String]) -> io::Result<u8> {
    let mut options = ParsingOptions::default();
    let mut files = Vec::new(rt.alloc());
    for word in words {
        match word.as_str() {
            "--allow-dtd" => options.allow_dtd = true,
            "-h" | "--help" => return println!(rt; "{HELP}").map(|_| 0),
            option if option.starts_with('-') => return refuse_option(rt, option),
            file => files.push(file)?,
        }
    }
    if files.is_empty() {
        return eprintln!(rt; "{HELP}").map(|_| 2);
    }
    check_each(rt, &files, options)
}

/// Checks files in order, and returns the highest of their statuses.
fn check_each(rt: &HostRuntime, files: &[&str], options: ParsingOptions) -> io::Result<u8> {
    let mut highest = 0;
    for file in files {
        highest = highest.max(check_file(rt, file, options)?);
    }
    Ok(highest)
}

/// Reports an unknown option, and returns 2.
fn refuse_option(rt: &HostRuntime, option: &str) -> io::Result<u8> {
    let option = visible(rt.alloc(), option)?;
    eprintln!(rt; "xmlcheck: unknown option {option}\n{HELP}").map(|_| 2)
}

/// Checks a file, and returns 0 if it is well formed, 1 if it is not, and 2 if it cannot be read.
fn check_file(rt: &HostRuntime, file: &str, options: ParsingOptions) -> io::Result<u8> {
    let name = visible(rt.alloc(), file)?;
    match fs::read(rt, file) {
        Ok(bytes) => check_bytes(rt, name.as_str(), &bytes, options),
        Err(error) => eprintln!(rt; "{name}: {error}").map(|_| 2),
    }
}

/// Checks the bytes of a file, and returns what `check_file` does.
fn check_bytes(
    rt: &HostRuntime,
    file: &str,
    bytes: &[u8],
    options: ParsingOptions,
) -> io::Result<u8> {
    let error = match str::from_utf8(bytes) {
        Ok(text) => return check_text(rt, file, text, options),
        Err(error) => error,
    };
    if let Some(encoding) = marked_encoding(bytes) {
        eprintln!(rt; "{file}: {encoding} is not read (iconv -f {encoding} -t UTF-8)")?;
        return Ok(2);
    }
    let offset = error.valid_up_to();
    eprintln!(rt; "{file}: not UTF-8 at offset {offset}").map(|_| 2)
}

/// Returns the encoding, other than UTF-8, that a byte order mark tells (XML 1.0 appendix F.1), or `None`. In UTF-32 the mark may
/// begin with that of UTF-16.
fn marked_encoding(bytes: &[u8]) -> Option<&'static str> {
    if bytes.starts_with(&[0xFF, 0xFE, 0, 0]) || bytes.starts_with(&[0, 0, 0xFE, 0xFF]) {
        return Some("UTF-32");
    }
    if bytes.starts_with(&[0xFE, 0xFF]) || bytes.starts_with(&[0xFF, 0xFE]) {
        return Some("UTF-16");
    }
    None
}

/// Returns a text with U+FFFD for each control character except TAB, so that a terminal obeys none.
fn visible(alloc: Global, text: &str) -> Result<String, AllocError> {
    text.chars().map(visible_character).collect(alloc)
}

/// Returns U+FFFD for a control character other than TAB, and any other character as it is.
fn visible_character(character: char) -> char {
    if character != '\t' && character.is_control() {
        return '\u{FFFD}';
    }
    character
}

/// Checks the text of a file, and returns 0 if it is well formed, and 1 if it is not.
fn check_text(rt: &HostRuntime, file: &str, text: &str, options: ParsingOptions) -> io::Result<u8> {
    match Document::parse_with_options(rt.alloc(), text, options) {
        Ok(_) => Ok(0),
        Err(error) => {
            print_error(rt, file, text, &error)?;
            print_open(rt, file, front(text, &error))?;
            Ok(1)
        }
    }
}

/// Prints why a text is refused, and where.
fn print_error(rt: &HostRuntime, file: &str, text: &str, error: &Error) -> io::Result<()> {
    let message = format!(in rt.alloc(); "{}", error.message())?;
    let message = visible(rt.alloc(), message.as_str())?;
    match error.position() {
        Some(place) => print_at(rt, (file, text), place, message.as_str()),
        None => println!(rt; "{file}: {message}{}", remedy(error)),
    }
}

/// Returns what is printed after the message of an error: the option that accepts the text, if there is one.
fn remedy(error: &Error) -> &'static str {
    match error {
        Error::DtdDetected => "; --allow-dtd accepts it",
        _ => "",
    }
}

/// Prints the way to the innermost element that a text leaves open, if it does. A document type declaration is refused here: its
/// entities could slow each parse.
fn print_open(rt: &HostRuntime, file: &str, text: Option<&str>) -> io::Result<()> {
    let Some(text) = text else {
        return Ok(());
    };
    let closed = with_end_tags(rt.alloc(), text)?;
    match Document::parse(rt.alloc(), closed.as_str()) {
        Ok(document) => print_way(rt, file, text, &document),
        Err(_) => Ok(()),
    }
}

/// Prints the way to the innermost element that a text leaves open, as `/book/chapter`, and where it starts. The document is that of
/// the text with its end tags.
fn print_way(rt: &HostRuntime, file: &str, text: &str, document: &Document<'_>) -> io::Result<()> {
    let mut way = String::new(rt.alloc());
    let start = push_way(document, text.len(), &mut way)?;
    let message = format_args!("{way} is not closed");
    print_at(rt, (file, text), document.text_pos_at(start), message)
}

/// Adds the way to the innermost element that ends behind an offset, and returns where it starts.
fn push_way(document: &Document<'_>, end: usize, way: &mut String) -> Result<usize, AllocError> {
    let mut start = 0;
    for node in document.descendants() {
        if node.is_element() && node.range().end > end {
            start = node.range().start;
            push_step(&node, way)?;
        }
    }
    Ok(start)
}

/// Adds a step of a way: a slash and the local name of an element. Of a long name it adds 60 characters and `…`.
fn push_step(element: &Node<'_, '_>, way: &mut String) -> Result<(), AllocError> {
    way.push('/')?;
    let name = element.tag_name().name();
    for character in name.chars().take(60) {
        way.push(character)?;
    }
    if name.chars().nth(60).is_some() {
        way.push('…')?;
    }
    Ok(())
}

/// Prints a message, the line of its position, and a caret below the character there. Of a long line it prints a part.
fn print_at<M: Display + Drop>(
    rt: &HostRuntime,
    (file, text): (&str, &str),
    place: TextPos,
    message: M,
) -> io::Result<()> {
    let row = (place.row as usize).saturating_sub(1);
    let before = (place.col as usize).saturating_sub(1);
    let line = text.lines().nth(row).unwrap_or("");
    // a byte order mark takes no place in a terminal
    let skipped = before
        .saturating_sub(60)
        .max(line.starts_with('\u{FEFF}') as usize);
    let shown = shown_part(rt.alloc(), line, skipped)?;
    let indent = indent_below(rt.alloc(), line, skipped, before)?;
    println!(rt; "{file}:{place}: {message}\n{shown}\n{indent}^")
}

/// Returns what is shown of a line, without what is skipped.
fn shown_part(alloc: Global, line: &str, skipped: usize) -> Result<String, AllocError> {
    let part = line.chars().skip(skipped).take(78);
    part.map(visible_character).collect(alloc)
}

/// Returns what stands below the characters before a caret.
fn indent_below(
    alloc: Global,
    line: &str,
    skipped: usize,
    before: usize,
) -> Result<String, AllocError> {
    // a TAB moves the caret as it moves the character
    let blank = |character| if character == '\t' { '\t' } else { ' ' };
    let indent = line
        .chars()
        .skip(skipped)
        .take(before.saturating_sub(skipped));
    indent.map(blank).collect(alloc)
}

/// Returns the front of a text that leaves an element open, if it is refused for that.
fn front<'t>(text: &'t str, error: &Error) -> Option<&'t str> {
    match error {
        Error::UnclosedRootNode => Some(text),
        Error::UnexpectedCloseTag(_, _, place) => text.get(..offset(text, *place)),
        _ => None,
    }
}

/// Returns the offset of a position, in bytes.
fn offset(text: &str, place: TextPos) -> usize {
    let mut at = TextPos::new(1, 1);
    for (offset, character) in text.char_indices() {
        if at == place {
            return offset;
        }
        at = match character {
            '\n' => TextPos::new(at.row.saturating_add(1), 1),
            _ => TextPos::new(at.row, at.col.saturating_add(1)),
        };
    }
    text.len()
}

/// Returns the text with the end tags that it lacks.
fn with_end_tags(alloc: Global, text: &str) -> Result<String, AllocError> {
    let mut closed = String::from_str(alloc, text)?;
    // each takes a parse
    for _ in 0..64 {
        if !push_end_tag(alloc, &mut closed)? {
            break;
        }
    }
    Ok(closed)
}

/// Adds the end tag of the innermost element that is open, if this is why the text is refused, and returns whether it is. An end tag
/// of another name is refused with the one that is expected.
fn push_end_tag(alloc: Global, text: &mut String) -> Result<bool, AllocError> {
    match &refusal(alloc, text)? {
        Some(Error::UnexpectedCloseTag(name, _, _)) => write!(text, "</{name}>")?,
        None | Some(Error::UnclosedRootNode) => text.push_str("</_>")?,
        Some(_) => return Ok(false),
    }
    Ok(true)
}

/// Returns why a text is refused with the end tag of `_` behind it, or `None` if it is read.
fn refusal(alloc: Global, text: &String) -> Result<Option<Error>, AllocError> {
    let tried = format!(in alloc; "{text}</_>")?;
    Ok(Document::parse(alloc, tried.as_str()).err())
}
