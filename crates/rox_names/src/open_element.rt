//! Open elements and their names, which are spelled by bytes of their source.

ghost use Rattle.std.specs.Prelude.{◌≡◌, take, true};
ghost use Rattle.rox_grammar.specs.Failures.{name_view};
ghost use Rattle.rox_names.specs.OpenElements.{HasName, MayHavePrefix, name_length, open_name};
ghost use Rattle.rox_names.specs.SpelledNames.{bytes_view};

use rox_bytes::search::before_byte;
use rox_compare::compare::same_stretch;
use rox_grammar::name::QName;

/// The count of a long name: a name of at least this many bytes.
pub const LONG_NAME: u32 = u32::MAX;

/// An open element: its row, its scope, the length of its name in bytes or `LONG_NAME`, and the number of its namespace. The row
/// gives the offset of the name, and `prefixed` is whether it has a prefix. `source` begins with the bytes of the name; for a
/// long name it has no others. There may be many open elements, so this is small.
#[derive(Clone, Copy)]
pub struct OpenElement<'input> {
    pub row: u32,
    pub scope: u32,
    pub name_count: u32,
    pub namespace: u16,
    pub prefixed: bool,
    pub source: &'input [u8],
}

/// A name, in bytes.
#[derive(Clone, Copy)]
pub struct NameBytes<'a> {
    /// The bytes before the colon, or empty.
    pub prefix: &'a [u8],
    pub local: &'a [u8],
}

/// Returns the bytes of a name.
#[inline(always)]
pub fn bytes_of<'input>(name: QName<'input>) -> NameBytes<'input>
    ensures { bytes_view result ≡ name_view name.entry }
{
    NameBytes {
        prefix: name.prefix.as_bytes(),
        local: name.local.as_bytes(),
    }
}

/// Returns the bytes of the name of an open element.
#[inline]
pub fn name_bytes<'input>(element: &OpenElement<'input>) -> &'input [u8]
    requires { HasName element.now }
    ensures { result.now ≡ take (name_length element.entry.now) element.entry.now.source.now }
{
    if element.name_count < LONG_NAME {
        return &element.source[..element.name_count as usize];
    }
    element.source
}

/// Returns the name of an open element.
#[inline]
pub fn open_name<'input>(element: &OpenElement<'input>) -> NameBytes<'input>
    requires { HasName element.now }
    ensures { bytes_view result ≡ open_name element.entry.now }
{
    let bytes = name_bytes(element);
    let before = before_byte(bytes, b':');
    if before < bytes.len() {
        return NameBytes {
            prefix: &bytes[..before],
            local: &bytes[before + 1..],
        };
    }
    NameBytes {
        prefix: &bytes[..0],
        local: bytes,
    }
}

/// Returns true only if the name of an open element has this prefix, which may be empty, before a colon.
#[inline(always)]
pub fn has_prefix(element: &OpenElement<'_>, prefix: &str) -> bool
    requires { MayHavePrefix element.now prefix.now }
    ensures { result ≡ true → (open_name element.entry.now).prefix ≡ prefix.entry.now }
{
    let count = prefix.len();
    if count >= element.name_count as usize || element.source[count] != b':' {
        return false;
    }
    same_stretch(&element.source[..count], prefix.as_bytes())
}
