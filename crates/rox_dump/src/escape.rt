//! Texts as the dump writes them: in printable ASCII.

ghost use Rattle.std.specs.Prelude.{◌≡◌, ◌<◌, false, OnOk};
ghost use Rattle.std.specs.Fmt.{digit_glyph};
ghost use Rattle.std.specs.Io.KnownBytes.{Appends};
ghost use Rattle.rox_dump.specs.Escaped.{is_printable, hexadecimal, escaped_byte, escaped, quoted_bytes};

use std::io;
use std::io::Write;

/// Writes a text between quotes.
pub fn write_quoted<W: Write>(text: &str, out: &mut W) -> io::Result<()>
    ensures { OnOk result (Appends (W.contents out.old) (W.contents out.new)
        (quoted_bytes text.now)) }
{
    out.write_all(b"\"")?;
    write_escaped(text, out)?;
    out.write_all(b"\"")
}

/// Writes a text with every byte but printable ASCII, and `"` and `\`, as `\x` and two hexadecimal digits.
pub fn write_escaped<W: Write>(text: &str, out: &mut W) -> io::Result<()>
    ensures { OnOk result (Appends (W.contents out.old) (W.contents out.new) (escaped text.now)) }
{
    for byte in text.as_bytes() {
        write_byte(*byte, out)?;
    }
    Ok(())
}

/// Writes a byte as it is if `is_printable` is true for it, and otherwise as `\x` and two hexadecimal digits.
fn write_byte<W: Write>(byte: u8, out: &mut W) -> io::Result<()>
    ensures { OnOk result (Appends (W.contents out.old) (W.contents out.new) (escaped_byte byte)) }
{
    if is_printable(byte) {
        out.write_all(&[byte])
    } else {
        out.write_all(&hexadecimal(byte))
    }
}

/// Returns whether the byte is written as it is: printable ASCII (U+0020 to U+007E) except `"` and `\`.
fn is_printable(byte: u8) -> bool
    ensures { result ≡ is_printable byte }
{
    matches!(byte, b' '..=b'~') && byte != b'"' && byte != b'\\'
}

/// Returns `\x` and the two hexadecimal digits of the byte, in lower case.
fn hexadecimal(byte: u8) -> [u8; 4]
    ensures { result ≡ hexadecimal byte }
{
    [b'\\', b'x', digit(byte / 16), digit(byte % 16)]
}

/// Returns the hexadecimal digit of a value below 16, in lower case.
fn digit(value: u8) -> u8
    requires { value < 16 }
    ensures { result ≡ digit_glyph false value }
{
    if value < 10 {
        b'0' + value
    } else {
        b'a' - 10 + value
    }
}
