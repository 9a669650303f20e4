//! The messages of errors, with their positions and without.

ghost use Rattle.std.specs.Prelude.{◌≡◌, ◌++◌, Some, codes, encode_utf8};
ghost use Rattle.std.specs.Fmt.{◌++?◌, DisplaysOnOk, WritesOnOk};
ghost use Rattle.rox_error.specs.Messages.{message_start, message_end, place_text, quoted};
ghost use Rattle.rox_error.specs.FixedStarts.{IsFixedStart};

use crate::error::Error;
use crate::position::TextPos;
use std::fmt;

/// The message of an error without its position. `Error::message` makes it.
///
/// ```
/// let text = "<a>\n</b>";
/// let error = Document::parse(alloc, text).expect_err(&rt, text);
/// let printed = error.message().to_string(alloc)?;
/// assert!(rt; printed.as_str() == "expected 'a' tag, not 'b'");
/// ```
#[derive(Clone, Copy, Debug)]
pub struct Message<'e>(
    /// The error that the message is of.
    pub &'e Error<'e>,
);

impl Error<'_> {
    /// Returns the message of the error without its position, to be printed. `Display` of the error itself prints this message
    /// with ` at ` and the position in it, if the error has one.
    ///
    /// ```
    /// let text = "<a>\n</b>";
    /// let error = Document::parse(alloc, text).expect_err(&rt, text);
    /// let printed = error.message().to_string(alloc)?;
    /// assert!(rt; printed.as_str() == "expected 'a' tag, not 'b'");
    /// ```
    pub fn message(&self) -> Message<'_>
        ensures { result.0.now ≡ self.now }
    {
        Message(self)
    }
}

/// Prints the message, with the position of the error if it keeps one.
impl fmt::Display for Error<'_> {
    ghost use Rattle.rox_error.specs.Messages.{message_with_position};

    ghost output = { message_with_position };

    fn fmt<W: fmt::Write>(&self, f: &mut fmt::Formatter<W>) -> fmt::Result {
        write_start(f, self)?;
        write_place(f, self.position())?;
        write_end(f, self)
    }
}

/// Prints the message.
impl fmt::Display for Message<'_> {
    ghost use Rattle.rox_error.specs.Messages.{message};

    ghost output = { λ m. message m.0.now };

    fn fmt<W: fmt::Write>(&self, f: &mut fmt::Formatter<W>) -> fmt::Result {
        write_start(f, self.0)?;
        write_end(f, self.0)
    }
}

/// Writes the message up to where the position comes.
#[tactic(auto, unfolding(crate::specs::Messages::message_start))]
fn write_start<W: fmt::Write>(f: &mut fmt::Formatter<W>, error: &Error<'_>) -> fmt::Result
    ensures { DisplaysOnOk W.write_str_gives f.old result (message_start error.now) f.new }
{
    match error {
        Error::DuplicatedNamespace(name, _) => write_name(f, "namespace '", name),
        Error::UnknownNamespace(name, _) => write_name(f, "an unknown namespace prefix '", name),
        Error::UnexpectedCloseTag(expected, actual, _) => write_names(f, expected, actual),
        Error::UnknownEntityReference(name, _) => write_name(f, "unknown entity reference '", name),
        Error::DuplicatedAttribute(name, _) => write_name(f, "attribute '", name),
        Error::NonXmlChar(character, _) => write_char(f, *character),
        Error::InvalidChar(expected, actual, _) => write_bytes(f, *expected, *actual),
        Error::InvalidChar2(expected, actual, _) => write_byte(f, expected, *actual),
        Error::InvalidString(expected, _) => write_name(f, "expected '", expected),
        _ => f.write_str(fixed_start(error)),
    }
}

/// Returns the message up to where the position comes if all errors of this kind have it, and otherwise an empty text.
#[tactic(auto, unfolding(crate::specs::Messages::message_start))]
fn fixed_start(error: &Error<'_>) -> &'static str
    ensures { IsFixedStart error.now result.now }
{
    match error {
        Error::InvalidXmlPrefixUri(_) => "'xml' namespace prefix mapped to wrong URI",
        Error::UnexpectedXmlUri(_) => "the 'xml' namespace URI is used for not 'xml' prefix",
        Error::UnexpectedXmlnsUri(_) => "the 'xmlns' URI is used",
        Error::InvalidElementNamePrefix(_) => "the 'xmlns' prefix is used",
        Error::UnexpectedEntityCloseTag(_) => "unexpected close tag",
        Error::MalformedEntityReference(_) => "malformed entity reference",
        Error::EntityReferenceLoop(_) => "a possible entity reference loop is detected",
        Error::InvalidAttributeValue(_) => "unescaped '<' found",
        Error::NoRootNode => "the document does not have a root node",
        Error::UnclosedRootNode => "the root node was opened but never closed",
        Error::UnexpectedDeclaration(_) => "unexpected XML declaration",
        Error::DtdDetected => "XML with DTD detected",
        Error::NodesLimitReached => "nodes limit reached",
        Error::AttributesLimitReached => "more than 2^32 attributes were parsed",
        Error::NamespacesLimitReached => "more than 2^16 unique namespaces were parsed",
        Error::InvalidName(_) => "invalid name token",
        Error::InvalidExternalID(_) => "invalid ExternalID",
        Error::EntityResolver(_, _) => "entity resolver failed",
        Error::InvalidComment(_) => "comment",
        Error::InvalidCharacterData(_) => "']]>'",
        Error::UnknownToken(_) => "unknown token",
        Error::UnexpectedEndOfStream => "unexpected end of stream",
        Error::OutOfMemory => "out of memory",
        Error::DuplicatedNamespace(_, _)
        | Error::UnknownNamespace(_, _)
        | Error::UnexpectedCloseTag(_, _, _)
        | Error::UnknownEntityReference(_, _)
        | Error::DuplicatedAttribute(_, _)
        | Error::NonXmlChar(_, _)
        | Error::InvalidChar(_, _, _)
        | Error::InvalidChar2(_, _, _)
        | Error::InvalidString(_, _) => "",
    }
}

/// Writes the position.
fn write_place<W: fmt::Write>(f: &mut fmt::Formatter<W>, position: Option<TextPos>) -> fmt::Result
    ensures { WritesOnOk W.write_str_gives f.old result (place_text position) f.new }
{
    match position {
        Some(position) => write!(f, " at {position}"),
        None => Ok(()),
    }
}

/// Writes what comes after the position.
#[tactic(auto, unfolding(crate::specs::Messages::message_end))]
fn write_end<W: fmt::Write>(f: &mut fmt::Formatter<W>, error: &Error<'_>) -> fmt::Result
    ensures { WritesOnOk W.write_str_gives f.old result (message_end error.now) f.new }
{
    match error {
        Error::UnexpectedXmlnsUri(_) => f.write_str(", but it must not be declared"),
        Error::InvalidElementNamePrefix(_) => f.write_str(", but it must not be"),
        Error::DuplicatedNamespace(_, _) | Error::DuplicatedAttribute(_, _) => {
            f.write_str(" is already defined")
        }
        Error::EntityResolver(_, reason) => write!(f, ": {reason}"),
        Error::InvalidComment(_) => f.write_str(" contains '--'"),
        Error::InvalidCharacterData(_) => f.write_str(" is not allowed inside a character data"),
        _ => Ok(()),
    }
}

/// Writes a text that ends in an opening quote, a name and the closing quote.
fn write_name<W: fmt::Write>(f: &mut fmt::Formatter<W>, front: &str, name: &str) -> fmt::Result
    ensures { WritesOnOk W.write_str_gives f.old result (front.now ++ (name.now ++ codes "'"))
        f.new }
{
    write!(f, "{front}{name}'")
}

/// Writes which name was expected in an end tag, and which one it has.
fn write_names<W: fmt::Write>(
    f: &mut fmt::Formatter<W>,
    expected: &str,
    actual: &str,
) -> fmt::Result
    ensures { WritesOnOk W.write_str_gives f.old result (codes "expected '"
        ++ (expected.now ++ (codes "' tag, not '" ++ (actual.now ++ codes "'")))) f.new }
{
    write!(f, "expected '{expected}' tag, not '{actual}'")
}

/// Writes which character is not allowed.
fn write_char<W: fmt::Write>(f: &mut fmt::Formatter<W>, character: char) -> fmt::Result
    ensures { DisplaysOnOk W.write_str_gives f.old result
        (Some (codes "a non-XML character ") ++? quoted character ++? Some (codes " found")) f.new }
{
    let quoted = Quoted(character);
    write!(f, "a non-XML character {quoted} found")
}

/// Writes which byte was expected, and which one is there.
fn write_bytes<W: fmt::Write>(f: &mut fmt::Formatter<W>, expected: u8, actual: u8) -> fmt::Result
    ensures { WritesOnOk W.write_str_gives f.old result (codes "expected '"
        ++ (encode_utf8 expected ++ (codes "' not '" ++ (encode_utf8 actual ++ codes "'")))) f.new }
{
    let expected = char::from(expected);
    let actual = char::from(actual);
    write!(f, "expected '{expected}' not '{actual}'")
}

/// Writes what was expected, and which byte is there.
fn write_byte<W: fmt::Write>(f: &mut fmt::Formatter<W>, expected: &str, actual: u8) -> fmt::Result
    ensures { WritesOnOk W.write_str_gives f.old result (codes "expected "
        ++ (expected.now ++ (codes " not '" ++ (encode_utf8 actual ++ codes "'")))) f.new }
{
    let actual = char::from(actual);
    write!(f, "expected {expected} not '{actual}'")
}

/// A character in quotes, as its `Debug` prints it. U+FFFE and U+FFFF, the only characters past ASCII that are no Char, are
/// written here.
#[derive(Drop)]
struct Quoted(char);

impl fmt::Display for Quoted {
    ghost use Rattle.rox_error.specs.Messages.{quoted};

    ghost output = { λ q. quoted q.0 };

    fn fmt<W: fmt::Write>(&self, f: &mut fmt::Formatter<W>) -> fmt::Result {
        match self.0 {
            '\u{fffe}' => write!(f, "'\\u{{fffe}}'"),
            '\u{ffff}' => write!(f, "'\\u{{ffff}}'"),
            character => write!(f, "{character:?}"),
        }
    }
}
