//! Classes of characters (XML 1.0 sections 2.2 and 2.3, Namespaces in XML section 3).
ghost use Rattle.std.specs.Prelude.{◌≡◌, ◌<◌, ℕ, Bool};
ghost use Rattle.rox_grammar.specs.Chars as spec;

/// A set of characters, for finding runs of them.
pub trait Class {
    ghost test: { ℕ → Bool };

    /// Returns whether a character is in the set.
    fn has(c: char) -> bool
        ensures { result ≡ test c };

    /// Like `has`, but for an ASCII byte.
    fn has_byte(b: u8) -> bool
        requires { b < 128 }
        ensures { result ≡ test b };
}

/// The characters that are allowed in XML (XML 1.0 [2] Char).
pub struct XmlChar;

impl Class for XmlChar {
    ghost test = { spec.is_char };

    #[inline]
    fn has(c: char) -> bool {
        match c {
            '\t' | '\n' | '\r' => true,
            '\u{FFFE}'..='\u{FFFF}' => false,
            _ => c >= ' ',
        }
    }

    #[inline]
    fn has_byte(b: u8) -> bool {
        XmlChar::has(char::from(b))
    }
}

/// The characters that start a name (XML 1.0 [4] NameStartChar).
pub struct NameStart;

// A `#` at the index of each ASCII character that starts a name.
static START_BYTES: [u8; 128] = *b"\
    ................................\
    ..........................#.....\
    .##########################....#\
    .##########################.....";

impl Class for NameStart {
    ghost test = { spec.is_name_start };

    #[inline]
    #[tactic(auto, unfolding(rox_grammar::specs::Chars::is_name_start))]
    fn has(c: char) -> bool {
        matches!(c,
            ':' | '_' | 'A'..='Z' | 'a'..='z'
            | '\u{C0}'..='\u{D6}' | '\u{D8}'..='\u{F6}' | '\u{F8}'..='\u{2FF}'
            | '\u{370}'..='\u{37D}' | '\u{37F}'..='\u{1FFF}' | '\u{200C}'..='\u{200D}'
            | '\u{2070}'..='\u{218F}' | '\u{2C00}'..='\u{2FEF}' | '\u{3001}'..='\u{D7FF}'
            | '\u{F900}'..='\u{FDCF}' | '\u{FDF0}'..='\u{FFFD}' | '\u{10000}'..='\u{EFFFF}')
    }

    #[inline(always)]
    fn has_byte(b: u8) -> bool {
        START_BYTES[b as usize] == b'#'
    }
}

/// The characters of a name (XML 1.0 [4a] NameChar).
pub struct NameChar;

// A `#` at the index of each ASCII character of a name.
static NAME_BYTES: [u8; 128] = *b"\
    ................................\
    .............##.###########.....\
    .##########################....#\
    .##########################.....";

impl Class for NameChar {
    ghost test = { spec.is_name_char };

    #[inline]
    #[tactic(auto, unfolding(rox_grammar::specs::Chars::is_name_char))]
    fn has(c: char) -> bool {
        NameStart::has(c)
            || matches!(c,
            '-' | '.' | '0'..='9' | '\u{B7}' | '\u{300}'..='\u{36F}' | '\u{203F}'..='\u{2040}')
    }

    #[inline(always)]
    fn has_byte(b: u8) -> bool {
        NAME_BYTES[b as usize] == b'#'
    }
}

/// The characters of a name except the colon: those of each part of a qualified name.
pub struct PartChar;

// A `#` at the index of each ASCII character of a name except the colon.
static PART_BYTES: [u8; 128] = *b"\
    ................................\
    .............##.##########......\
    .##########################....#\
    .##########################.....";

impl Class for PartChar {
    ghost test = { spec.is_part_char };

    #[inline]
    #[tactic(auto, unfolding(rox_grammar::specs::Chars::is_part_char))]
    fn has(c: char) -> bool {
        NameChar::has(c) && c != ':'
    }

    #[inline(always)]
    fn has_byte(b: u8) -> bool {
        PART_BYTES[b as usize] == b'#'
    }
}
