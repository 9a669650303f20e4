//! What refuses a text. Faults are plain data: a place is a count of bytes from the start of the source.

ghost use Rattle.std.specs.Prelude.{◌≡◌};

/// The bytes of a source from `start` up to `end`.
#[derive(Clone, Copy)]
pub struct Span {
    pub start: usize,
    pub end: usize,
}

/// A fixed text that a construct holds.
#[derive(Clone, Copy)]
pub enum Word {
    CommentStart,
    CommentEnd,
    PIStart,
    PIEnd,
    XmlDeclStart,
    CDataStart,
    CDataEnd,
    EndTagStart,
    MarkupStart,
    DoctypeStart,
    Version,
    Encoding,
    Standalone,
    System,
    Public,
    EntityStart,
    ElementStart,
    AttlistStart,
    NotationStart,
    NData,
    Xml,
    Xmlns,
}

impl Word {
    ghost use Rattle.rox_grammar.specs.FixedTexts.{word_text};

    /// Its bytes.
    #[inline]
    pub fn text(self) -> &'static [u8]
        ensures { result.now ≡ word_text self }
    {
        match self {
            Word::CommentStart => b"<!--",
            Word::CommentEnd => b"-->",
            Word::PIStart => b"<?",
            Word::PIEnd => b"?>",
            Word::XmlDeclStart => b"<?xml ",
            Word::CDataStart => b"<![CDATA[",
            Word::CDataEnd => b"]]>",
            Word::EndTagStart => b"</",
            Word::MarkupStart => b"<!",
            Word::DoctypeStart => b"<!DOCTYPE",
            Word::Version => b"version",
            Word::Encoding => b"encoding",
            Word::Standalone => b"standalone",
            Word::System => b"SYSTEM",
            Word::Public => b"PUBLIC",
            Word::EntityStart => b"<!ENTITY",
            Word::ElementStart => b"<!ELEMENT",
            Word::AttlistStart => b"<!ATTLIST",
            Word::NotationStart => b"<!NOTATION",
            Word::NData => b"NDATA",
            Word::Xml => b"xml",
            Word::Xmlns => b"xmlns",
        }
    }
}

/// A fixed text that is due at a place.
#[derive(Clone, Copy)]
pub enum Expected {
    CommentEnd,
    PIEnd,
    CDataEnd,
    Version,
}

impl Expected {
    ghost use Rattle.rox_grammar.specs.ExpectedTexts.{expected_text};
    ghost use Rattle.rox_grammar.specs.FixedTexts.{word_text};

    /// Its bytes.
    #[inline]
    pub fn text(self) -> &'static [u8]
        ensures { result.now ≡ expected_text self }
    {
        match self {
            Expected::CommentEnd => b"-->",
            Expected::PIEnd => b"?>",
            Expected::CDataEnd => b"]]>",
            Expected::Version => b"version",
        }
    }

    /// Returns the `Word` with the same bytes.
    #[inline]
    pub fn word(self) -> Word
        ensures { word_text result ≡ expected_text self }
    {
        match self {
            Expected::CommentEnd => Word::CommentEnd,
            Expected::PIEnd => Word::PIEnd,
            Expected::CDataEnd => Word::CDataEnd,
            Expected::Version => Word::Version,
        }
    }
}

/// What was due where another byte stands.
#[derive(Clone, Copy)]
pub enum Due {
    Space,
    Quote,
    SubsetOrEnd,
    End,
    EntityDefinition,
}

/// The first fault that reading met. The last number is the place that it is named at.
#[derive(Clone, Copy)]
pub enum Fault {
    InvalidXmlPrefixUri(usize),
    UnexpectedXmlUri(usize),
    UnexpectedXmlnsUri(usize),
    InvalidElementNamePrefix(usize),
    /// The prefix that is declared again, or `xmlns` for the default.
    DuplicatedNamespace(Span, usize),
    /// The prefix.
    UnknownNamespace(Span, usize),
    /// The name of the innermost open element, and that of the end tag.
    UnexpectedCloseTag(Span, Span, usize),
    UnexpectedEntityCloseTag(usize),
    /// The name of the entity.
    UnknownEntityReference(Span, usize),
    MalformedEntityReference(usize),
    EntityReferenceLoop(usize),
    InvalidAttributeValue(usize),
    /// The local name.
    DuplicatedAttribute(Span, usize),
    NoRootNode,
    UnclosedRootNode,
    UnexpectedDeclaration(usize),
    DtdDetected,
    NodesLimitReached,
    AttributesLimitReached,
    NamespacesLimitReached,
    InvalidName(usize),
    NonXmlChar(char, usize),
    /// The byte that is due, and the one that stands there.
    InvalidChar(u8, u8, usize),
    InvalidChar2(Due, u8, usize),
    InvalidString(Expected, usize),
    InvalidExternalID(usize),
    InvalidComment(usize),
    InvalidCharacterData(usize),
    UnknownToken(usize),
    UnexpectedEndOfStream,
}
