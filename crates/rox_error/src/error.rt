//! The errors that a parse returns.

use crate::position::TextPos;
use std::alloc::{AllocError, AllocFailed};

/// Why `Document::parse` or `Document::parse_with_options` returned no document.
///
/// Most kinds keep the position of the fault: a row and a column of the text, also for a fault in the literal of an entity, or of
/// the resolver's answer that the fault is in. `position` returns it. `docs/ERRORS.md` says for each kind when a parse returns it,
/// and at which position.
///
/// `InvalidChar2` and `InvalidString` keep fixed words. `Document::parse` returns an `Error<'static>`, and
/// `Document::parse_with_options` an `Error<'w>` with any lifetime `'w`.
///
/// ```
/// let text = "<a>\n</b>";
/// let error = Document::parse(alloc, text).expect_err(&rt, text);
/// assert!(rt; error.position() == Some(TextPos::new(2, 1)));
/// let printed = error.to_string(alloc)?;
/// assert!(rt; printed.as_str() == "expected 'a' tag, not 'b' at 2:1");
/// ```
#[derive(Debug, Drop, PartialEq, Eq, Hash)]
pub enum Error<'w> {
    /// The prefix `xml` is declared with a URI other than its own (Namespaces in XML 1.0 section 3).
    InvalidXmlPrefixUri(TextPos),
    /// The URI of the prefix `xml` is declared for another prefix, or for the default namespace (Namespaces in XML 1.0 section 3).
    UnexpectedXmlUri(TextPos),
    /// The URI of the prefix `xmlns` is declared (Namespaces in XML 1.0 section 3).
    UnexpectedXmlnsUri(TextPos),
    /// The name of an element has the prefix `xmlns` (Namespaces in XML 1.0 section 3).
    InvalidElementNamePrefix(TextPos),
    /// A start tag declares a prefix twice, or the default namespace twice (XML 1.0 section 3.1). Keeps the prefix; for the default
    /// namespace the word `xmlns`.
    DuplicatedNamespace(String, TextPos),
    /// A name has a prefix that is not declared (Namespaces in XML 1.0 section 5), or an element has the prefix `xml`. Keeps the
    /// prefix.
    UnknownNamespace(String, TextPos),
    /// The name of an end tag differs from that of the innermost open element (XML 1.0 section 3). Keeps the expected name, then
    /// the name in the tag.
    UnexpectedCloseTag(String, String, TextPos),
    /// An end tag in a replacement text is for an element that was opened outside of that text (XML 1.0 section 4.3.2).
    UnexpectedEntityCloseTag(TextPos),
    /// A reference is to an entity that is not declared (XML 1.0 section 4.1). Keeps the name of the entity.
    UnknownEntityReference(String, TextPos),
    /// A reference is not well formed (XML 1.0 section 4.1).
    MalformedEntityReference(TextPos),
    /// References are nested more than ten deep, or a reference of the text opens more than 256 replacement texts.
    EntityReferenceLoop(TextPos),
    /// A replacement text in the value of an attribute has a `<`, or a reference gives a `<` in such a text or in a value that is
    /// written in a replacement text or an answer (XML 1.0 section 3.1). The standard allows a reference that gives `<`, as in
    /// `<!ENTITY a '&lt;'>`. For a `<` in the value itself the error is `InvalidChar`.
    InvalidAttributeValue(TextPos),
    /// Two attributes of an element have the same expanded name (Namespaces in XML 1.0 section 6.3). Keeps the local name.
    DuplicatedAttribute(String, TextPos),
    /// The text has no root element, or ends in its start tag, right after the name or an attribute.
    NoRootNode,
    /// The text ends inside the root element, after its start tag.
    UnclosedRootNode,
    /// `<?xml` and a space (U+0020) are elsewhere than at the start of the text or of an answer (XML 1.0 section 2.8). Without the
    /// space after it, `<?xml` starts a processing instruction.
    UnexpectedDeclaration(TextPos),
    /// The text has a document type declaration, and `ParsingOptions::allow_dtd` is false.
    DtdDetected,
    /// The document would have more nodes than `ParsingOptions::nodes_limit`.
    NodesLimitReached,
    /// The document would have more than 4,294,967,294 attributes. Declarations of namespaces do not count.
    AttributesLimitReached,
    /// The elements of the document would list more than 65,535 distinct pairs of a prefix and its URI. The default namespace
    /// counts like a prefix.
    NamespacesLimitReached,
    /// A Name (XML 1.0 section 2.3) or a QName (Namespaces in XML 1.0 section 4) is expected and missing.
    InvalidName(TextPos),
    /// A character is not allowed in XML (XML 1.0 section 2.2). Keeps the character.
    NonXmlChar(char, TextPos),
    /// One byte is expected, and another one is there. Keeps the expected byte, then the one that is there.
    InvalidChar(u8, u8, TextPos),
    /// One of several things is expected, and missing. Keeps words for what is expected, then the byte that is there.
    InvalidChar2(&'w str, u8, TextPos),
    /// A fixed text, such as `version`, is expected and missing. Keeps that text.
    InvalidString(&'w str, TextPos),
    /// The definition of an entity starts with `S` or `P`, but not with `SYSTEM` or `PUBLIC` (XML 1.0 section 4.2.2). If it starts
    /// with another character that is not a quote, the error is `InvalidChar2`.
    InvalidExternalID(TextPos),
    /// The resolver refused a request. Keeps a position in the declaration that the request is for, after its external identifier,
    /// and the words of the resolver.
    EntityResolver(TextPos, String),
    /// A comment contains `--`, or ends in `-` (XML 1.0 section 2.5).
    InvalidComment(TextPos),
    /// Character data contains `]]>` (XML 1.0 section 2.4).
    InvalidCharacterData(TextPos),
    /// No construct of the grammar starts here, or an `<!ELEMENT`, `<!ATTLIST` or `<!NOTATION` of the document type declaration that
    /// starts here has no `>`.
    UnknownToken(TextPos),
    /// The text, or a replacement text, ends inside a construct. If a fixed text such as `-->` is missing at the end, the error is
    /// `InvalidString`.
    UnexpectedEndOfStream,
    /// Memory ran out. This says nothing about the text.
    OutOfMemory,
}

/// Copies the error. A copy needs memory only for the texts that the error owns, so a kind without an own text is always copied.
impl Clone for Error<'_> {
    ghost use Rattle.rox_error.specs.Copies.{IsCopy, NamesNothing};

    ghost is_clone = { IsCopy };

    ghost is_infallible = { NamesNothing };

    fn clone(&self) -> Result<Self, AllocError> {
        match self {
            Error::InvalidXmlPrefixUri(pos) => Ok(Error::InvalidXmlPrefixUri(*pos)),
            Error::UnexpectedXmlUri(pos) => Ok(Error::UnexpectedXmlUri(*pos)),
            Error::UnexpectedXmlnsUri(pos) => Ok(Error::UnexpectedXmlnsUri(*pos)),
            Error::InvalidElementNamePrefix(pos) => Ok(Error::InvalidElementNamePrefix(*pos)),
            Error::DuplicatedNamespace(name, pos) => Ok(Error::DuplicatedNamespace(
                name.clone()?,
                *pos,
            )),
            Error::UnknownNamespace(name, pos) => Ok(Error::UnknownNamespace(name.clone()?, *pos)),
            Error::UnexpectedCloseTag(expected, actual, pos) => Ok(Error::UnexpectedCloseTag(
                expected.clone()?,
                actual.clone()?,
                *pos,
            )),
            Error::UnexpectedEntityCloseTag(pos) => Ok(Error::UnexpectedEntityCloseTag(*pos)),
            Error::UnknownEntityReference(name, pos) => Ok(Error::UnknownEntityReference(
                name.clone()?,
                *pos,
            )),
            Error::MalformedEntityReference(pos) => Ok(Error::MalformedEntityReference(*pos)),
            Error::EntityReferenceLoop(pos) => Ok(Error::EntityReferenceLoop(*pos)),
            Error::InvalidAttributeValue(pos) => Ok(Error::InvalidAttributeValue(*pos)),
            Error::DuplicatedAttribute(name, pos) => Ok(Error::DuplicatedAttribute(
                name.clone()?,
                *pos,
            )),
            Error::NoRootNode => Ok(Error::NoRootNode),
            Error::UnclosedRootNode => Ok(Error::UnclosedRootNode),
            Error::UnexpectedDeclaration(pos) => Ok(Error::UnexpectedDeclaration(*pos)),
            Error::DtdDetected => Ok(Error::DtdDetected),
            Error::NodesLimitReached => Ok(Error::NodesLimitReached),
            Error::AttributesLimitReached => Ok(Error::AttributesLimitReached),
            Error::NamespacesLimitReached => Ok(Error::NamespacesLimitReached),
            Error::InvalidName(pos) => Ok(Error::InvalidName(*pos)),
            Error::NonXmlChar(character, pos) => Ok(Error::NonXmlChar(*character, *pos)),
            Error::InvalidChar(expected, actual, pos) => Ok(Error::InvalidChar(
                *expected, *actual, *pos,
            )),
            Error::InvalidChar2(expected, actual, pos) => Ok(Error::InvalidChar2(
                *expected, *actual, *pos,
            )),
            Error::InvalidString(expected, pos) => Ok(Error::InvalidString(*expected, *pos)),
            Error::InvalidExternalID(pos) => Ok(Error::InvalidExternalID(*pos)),
            Error::EntityResolver(pos, reason) => Ok(Error::EntityResolver(*pos, reason.clone()?)),
            Error::InvalidComment(pos) => Ok(Error::InvalidComment(*pos)),
            Error::InvalidCharacterData(pos) => Ok(Error::InvalidCharacterData(*pos)),
            Error::UnknownToken(pos) => Ok(Error::UnknownToken(*pos)),
            Error::UnexpectedEndOfStream => Ok(Error::UnexpectedEndOfStream),
            Error::OutOfMemory => Ok(Error::OutOfMemory),
        }
    }
}

impl Error<'_> {
    ghost use Rattle.std.specs.Prelude.{◌≡◌};
    ghost use Rattle.rox_error.specs.ErrorPositions.{kept_position, position_of};

    /// Returns the position of the error, or `None` if its kind has none. The kinds without a position are
    /// `NoRootNode`, `UnclosedRootNode`, `DtdDetected`, `NodesLimitReached`, `AttributesLimitReached`, `NamespacesLimitReached`,
    /// `UnexpectedEndOfStream` and `OutOfMemory`: each of them is about a whole text, about its end, or about memory.
    ///
    /// ```
    /// // the text ends inside of `a`
    /// let error = Document::parse(alloc, "<a>").expect_err(&rt, "<a>");
    /// assert!(rt; error.position().is_none());
    /// assert!(rt; error.pos() == TextPos::new(1, 1));
    /// ```
    pub fn position(&self) -> Option<TextPos>
        ensures { result ≡ kept_position self.now }
    {
        match self {
            Error::InvalidXmlPrefixUri(pos)
            | Error::UnexpectedXmlUri(pos)
            | Error::UnexpectedXmlnsUri(pos)
            | Error::InvalidElementNamePrefix(pos)
            | Error::DuplicatedNamespace(_, pos)
            | Error::UnknownNamespace(_, pos)
            | Error::UnexpectedCloseTag(_, _, pos)
            | Error::UnexpectedEntityCloseTag(pos)
            | Error::UnknownEntityReference(_, pos)
            | Error::MalformedEntityReference(pos)
            | Error::EntityReferenceLoop(pos)
            | Error::InvalidAttributeValue(pos)
            | Error::DuplicatedAttribute(_, pos)
            | Error::UnexpectedDeclaration(pos)
            | Error::InvalidName(pos)
            | Error::NonXmlChar(_, pos)
            | Error::InvalidChar(_, _, pos)
            | Error::InvalidChar2(_, _, pos)
            | Error::InvalidString(_, pos)
            | Error::InvalidExternalID(pos)
            | Error::EntityResolver(pos, _)
            | Error::InvalidComment(pos)
            | Error::InvalidCharacterData(pos)
            | Error::UnknownToken(pos) => Some(*pos),
            Error::NoRootNode
            | Error::UnclosedRootNode
            | Error::DtdDetected
            | Error::NodesLimitReached
            | Error::AttributesLimitReached
            | Error::NamespacesLimitReached
            | Error::UnexpectedEndOfStream
            | Error::OutOfMemory => None,
        }
    }

    /// Returns the position of the error, or 1:1 if its kind has none. `position` distinguishes the two.
    pub fn pos(&self) -> TextPos
        ensures { result ≡ position_of self.now }
    {
        self.position().unwrap_or(TextPos::new(1, 1))
    }
}

impl std::error::Error for Error<'_> {}

impl From<AllocError> for Error<'_> {
    ghost use Rattle.rox_error.specs.declared.error.Error.TheVariants.{OutOfMemory};
    ghost use Rattle.std.specs.Prelude.{◌≡◌};

    ghost from_gives = { λ _ e. e ≡ OutOfMemory };

    fn from(_error: AllocError) -> Self {
        Error::OutOfMemory
    }
}

impl<T: Drop> From<AllocFailed<T>> for Error<'_> {
    ghost use Rattle.rox_error.specs.declared.error.Error.TheVariants.{OutOfMemory};
    ghost use Rattle.std.specs.Prelude.{◌≡◌};

    ghost from_gives = { λ _ e. e ≡ OutOfMemory };

    fn from(_error: AllocFailed<T>) -> Self {
        Error::OutOfMemory
    }
}
