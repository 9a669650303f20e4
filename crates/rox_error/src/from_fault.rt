//! From a fault of a text to the error that reports it.

ghost use Rattle.std.specs.Prelude.{◌≡◌, IfOk};
ghost use Rattle.rox_grammar.specs.ExpectedTexts.{expected_text};
ghost use Rattle.rox_grammar.specs.declared.fault.Fault.TheVariants as fault;
ghost use Rattle.rox_error.specs.declared.error.Error.TheVariants as error;
ghost use Rattle.rox_error.specs.FaultErrors.{due_text, position_at, Names, IsErrorOf};

use crate::error::Error;
use crate::position::{TextPos, text_pos_at};
use rox_grammar::fault::{Due, Expected, Fault, Span};
use std::alloc::{AllocError, Global};
use std::str;

/// Returns the error of a fault of `text`: it has rows and columns where the fault has offsets in bytes, and names where the fault
/// has spans. Returns `OutOfMemory` if there is no memory for a name.
#[cold]
pub fn error_of_fault<'w>(alloc: Global, text: &str, fault: Fault) -> Error<'w>
    ensures { IsErrorOf text.now fault result }
{
    match fault {
        Fault::InvalidXmlPrefixUri(at) => Error::InvalidXmlPrefixUri(pos(text, at)),
        Fault::UnexpectedXmlUri(at) => Error::UnexpectedXmlUri(pos(text, at)),
        Fault::UnexpectedXmlnsUri(at) => Error::UnexpectedXmlnsUri(pos(text, at)),
        Fault::InvalidElementNamePrefix(at) => Error::InvalidElementNamePrefix(pos(text, at)),
        Fault::DuplicatedNamespace(prefix, at) => match named(alloc, text, prefix) {
            Ok(prefix) => Error::DuplicatedNamespace(prefix, pos(text, at)),
            Err(_) => Error::OutOfMemory,
        },
        Fault::UnknownNamespace(prefix, at) => match named(alloc, text, prefix) {
            Ok(prefix) => Error::UnknownNamespace(prefix, pos(text, at)),
            Err(_) => Error::OutOfMemory,
        },
        Fault::UnexpectedCloseTag(expected, actual, at) => {
            close_tag_error(alloc, text, expected, actual, at)
        }
        Fault::UnexpectedEntityCloseTag(at) => Error::UnexpectedEntityCloseTag(pos(text, at)),
        Fault::UnknownEntityReference(entity, at) => match named(alloc, text, entity) {
            Ok(entity) => Error::UnknownEntityReference(entity, pos(text, at)),
            Err(_) => Error::OutOfMemory,
        },
        Fault::MalformedEntityReference(at) => Error::MalformedEntityReference(pos(text, at)),
        Fault::EntityReferenceLoop(at) => Error::EntityReferenceLoop(pos(text, at)),
        Fault::InvalidAttributeValue(at) => Error::InvalidAttributeValue(pos(text, at)),
        Fault::DuplicatedAttribute(local, at) => match named(alloc, text, local) {
            Ok(local) => Error::DuplicatedAttribute(local, pos(text, at)),
            Err(_) => Error::OutOfMemory,
        },
        Fault::NoRootNode => Error::NoRootNode,
        Fault::UnclosedRootNode => Error::UnclosedRootNode,
        Fault::UnexpectedDeclaration(at) => Error::UnexpectedDeclaration(pos(text, at)),
        Fault::DtdDetected => Error::DtdDetected,
        Fault::NodesLimitReached => Error::NodesLimitReached,
        Fault::AttributesLimitReached => Error::AttributesLimitReached,
        Fault::NamespacesLimitReached => Error::NamespacesLimitReached,
        Fault::InvalidName(at) => Error::InvalidName(pos(text, at)),
        Fault::NonXmlChar(c, at) => Error::NonXmlChar(c, pos(text, at)),
        Fault::InvalidChar(expected, actual, at) => {
            Error::InvalidChar(expected, actual, pos(text, at))
        }
        Fault::InvalidChar2(expected, actual, at) => {
            Error::InvalidChar2(due_words(expected), actual, pos(text, at))
        }
        Fault::InvalidString(expected, at) => {
            Error::InvalidString(fixed_text(expected), pos(text, at))
        }
        Fault::InvalidExternalID(at) => Error::InvalidExternalID(pos(text, at)),
        Fault::InvalidComment(at) => Error::InvalidComment(pos(text, at)),
        Fault::InvalidCharacterData(at) => Error::InvalidCharacterData(pos(text, at)),
        Fault::UnknownToken(at) => Error::UnknownToken(pos(text, at)),
        Fault::UnexpectedEndOfStream => Error::UnexpectedEndOfStream,
    }
}

/// Returns the error of a resolver that refused a request with `reason`. `text` makes the request at the offset `at`, in bytes.
#[cold]
pub fn error_of_resolver<'w>(text: &str, at: usize, reason: String) -> Error<'w>
    ensures { result ≡ error.EntityResolver (position_at text.now at) reason }
{
    Error::EntityResolver(pos(text, at), reason)
}

/// Returns the error of an end tag at the offset `at` whose name is another than the expected one.
fn close_tag_error<'w>(
    alloc: Global,
    text: &str,
    expected: Span,
    actual: Span,
    at: usize,
) -> Error<'w>
    ensures { IsErrorOf text.now (fault.UnexpectedCloseTag expected actual at) result }
{
    let Ok(expected) = named(alloc, text, expected) else {
        return Error::OutOfMemory;
    };
    let Ok(actual) = named(alloc, text, actual) else {
        return Error::OutOfMemory;
    };
    Error::UnexpectedCloseTag(expected, actual, pos(text, at))
}

/// Returns the position of the character at the offset `at`, in bytes.
fn pos(text: &str, at: usize) -> TextPos
    ensures { result ≡ position_at text.now at }
{
    text_pos_at(text, at)
}

/// Returns the text of a span.
fn named(alloc: Global, text: &str, span: Span) -> Result<String, AllocError>
    ensures { IfOk result (Names text.now span) }
{
    let name = text.get(span.start..span.end).unwrap_or("");
    String::from_str(alloc, name)
}

/// Returns what was expected, in words.
fn due_words(due: Due) -> &'static str
    ensures { result.now ≡ due_text due }
{
    match due {
        Due::Space => "a whitespace",
        Due::Quote => "a quote",
        Due::SubsetOrEnd => "'[' or '>'",
        Due::End => "'>'",
        Due::EntityDefinition => "a quote, SYSTEM or PUBLIC",
    }
}

/// Returns the fixed text that was expected.
fn fixed_text(expected: Expected) -> &'static str
    ensures { result.now ≡ expected_text expected }
{
    str::from_utf8(expected.text()).unwrap()
}
