//! An offset in a source, and the small steps that read from it.

ghost use Rattle.std.specs.Prelude.{◌≡◌, ◌==◌, ◌||◌, ◌+◌, ◌<◌, true, length, nat_le, IsCharBoundary, IsUtf8, slice_index, take};
ghost use Rattle.std.proofs.Props.{props};
ghost use Rattle.rox_grammar.specs.Chars.{is_name_char, is_space};
ghost use Rattle.rox_grammar.specs.Runs.{run_end};
ghost use Rattle.rox_grammar.specs.Search as search;
ghost use Rattle.rox_grammar.specs.ExpectedTexts.{expected_text};
ghost use Rattle.rox_bytes.specs.ScanResults.{Finds};

use memchr::memmem;
use rox_bytes::byte_set::{ByteSet, PartByte, SpaceByte, part_end, skip_set};
use rox_bytes::chars::{NameChar, NameStart};
use rox_bytes::runs::{after_byte, begins, is_at, run_end};
use rox_bytes::search::before_byte;
use rox_grammar::fault::{Due, Expected, Fault, Word};
use rox_grammar::name::QName;

/// An offset in a source, in bytes from its start, between two characters.
#[derive(Clone, Copy)]
pub struct Cursor<'input> {
    pub text: &'input str,
    pub pos: usize,
    pub ghost utf8: { IsUtf8 text.now } by { Prim.hlevel props },
    pub ghost cut: { IsCharBoundary text.now pos },
}

/// The length in bytes of the longest fixed text that is compared in line.
const WIDEST: usize = 8;

/// A quote, `'` or `"`, around a value.
#[derive(Clone, Copy)]
pub struct Quote {
    pub byte: u8,
    pub ghost is: { (byte == 39 || byte == 34) ≡ true },
}

/// Returns the end of the name characters from `start` on. Most are ASCII bytes other than the colon, which are passed sixteen at a
/// time.
#[inline(always)]
pub fn name_end(text: &str, start: usize) -> usize
    requires { IsCharBoundary text.now start }
    ensures { Finds text.now start result (run_end is_name_char text.now start) }
{
    let near = skip_set::<PartByte>(text, start);
    run_end::<NameChar>(text, near)
}

impl<'input> Cursor<'input> {
    ghost use Rattle.rox_grammar.specs.Failures.{name_view};
    ghost use Rattle.rox_bytes.specs.ScanResults.{AreBoundaries};
    ghost use Rattle.rox_scan.specs.CursorSteps.{IsAt, MovesTo, Steps};
    ghost use Rattle.rox_grammar.specs.Search.{stands};
    ghost use Rattle.rox_grammar.specs.FixedTexts.{word_text};
    ghost use Rattle.rox_grammar.specs.Names.{spaces_end};
    ghost use Rattle.rox_reading.specs.Lexical as spec;

    /// Returns a cursor at the start of a source.
    #[inline]
    pub fn new(text: &'input str) -> Cursor<'input>
        ensures { IsAt text.entry 0 result }
    {
        Cursor { text, pos: 0 }
    }

    /// Returns a cursor at the offset `pos` of a source.
    #[inline]
    pub fn at(text: &'input str, pos: usize) -> Cursor<'input>
        requires { IsCharBoundary text.now pos }
        ensures { IsAt text.entry pos result }
    {
        Cursor { text, pos }
    }

    /// Returns a cursor at the offset `start` of a source that is cut off at `end`. Offsets count from the start of the whole
    /// text.
    #[inline]
    pub fn within(text: &'input str, start: usize, end: usize) -> Cursor<'input>
        requires { AreBoundaries text.now start end }
        ensures place { result.pos ≡ start }
        ensures source { result.text.now ≡ take end text.entry.now }
    {
        Cursor {
            text: &text[..end],
            pos: start,
        }
    }

    /// Returns whether the source ends at the cursor.
    #[inline(always)]
    #[tactic(auto, using(std::proofs::lemmas::Bool::Decides::nat_tests))]
    pub fn is_at_end(&self) -> bool
        ensures { result ≡ nat_le (length self.now.text.now) self.now.pos }
    {
        self.pos >= self.text.len()
    }

    /// Moves past the ASCII byte at the cursor.
    #[inline(always)]
    pub fn advance(&mut self)
        requires there { self.old.pos < length self.old.text.now }
        requires ascii { slice_index self.old.text.now self.old.pos < 128 }
        ensures { MovesTo (self.old.pos + 1) self.old self.new }
    {
        self.pos += 1;
    }

    /// Moves past white space, if there is any (XML 1.0 [3] S).
    #[inline(always)]
    pub fn spaces(&mut self)
        ensures { MovesTo (spaces_end self.old.text.now self.old.pos) self.old self.new }
    {
        self.pos = space_end(*self);
    }

    /// Reads one or more characters of white space. Any other byte is a fault, and so is the end.
    #[inline]
    #[tactic(auto, unfolding(rox_reading::specs::Lexical::space_at))]
    pub fn space(&mut self) -> Result<(), Fault>
        ensures { Steps (λ x. x) self.old self.new result spec.space_at }
    {
        if self.pos >= self.text.len() {
            return Err(Fault::UnexpectedEndOfStream);
        }
        let here = self.text.as_bytes()[self.pos];
        if !SpaceByte::has(here) {
            return Err(Fault::InvalidChar2(Due::Space, here, self.pos));
        }
        self.spaces();
        Ok(())
    }

    /// Reads the ASCII byte `byte`. Any other byte is a fault, and so is the end.
    #[inline]
    #[tactic(auto, unfolding(rox_reading::specs::Lexical::byte_at))]
    pub fn byte(&mut self, byte: u8) -> Result<(), Fault>
        requires { byte < 128 }
        ensures { Steps (λ x. x) self.old self.new result (spec.byte_at byte) }
    {
        if self.pos >= self.text.len() {
            return Err(Fault::UnexpectedEndOfStream);
        }
        let here = self.text.as_bytes()[self.pos];
        if here != byte {
            return Err(Fault::InvalidChar(byte, here, self.pos));
        }
        self.advance();
        Ok(())
    }

    /// Reads a quote, `'` or `"`, and returns it. Any other byte is a fault, and so is the end.
    #[inline]
    #[tactic(auto, unfolding(rox_reading::specs::Lexical::quote_at))]
    pub fn quote(&mut self) -> Result<Quote, Fault>
        ensures { Steps (λ quote. quote.byte) self.old self.new result spec.quote_at }
    {
        if self.pos >= self.text.len() {
            return Err(Fault::UnexpectedEndOfStream);
        }
        let here = self.text.as_bytes()[self.pos];
        if here != b'\'' && here != b'"' {
            return Err(Fault::InvalidChar2(Due::Quote, here, self.pos));
        }
        self.advance();
        Ok(Quote { byte: here })
    }

    /// Reads the longest name (XML 1.0 [5] Name). It is a fault if no name starts at the cursor.
    #[inline]
    #[tactic(auto, unfolding(rox_reading::specs::Lexical::name_at))]
    pub fn name(&mut self) -> Result<&'input str, Fault>
        ensures { Steps (λ x. x.now) self.old self.new result spec.name_at }
    {
        let start = self.pos;
        if !begins::<NameStart>(self.text, start) {
            return Err(Fault::InvalidName(start));
        }
        self.pos = name_end(self.text, start);
        Ok(&self.text[start..self.pos])
    }

    /// Returns whether the fixed text `word` is at the cursor. A long one is compared out of line: most texts that differ from it
    /// do so in the second byte.
    #[inline]
    #[tactic(auto, using(rox_bytes::proofs::MarkLemmas::differs_early), unfolding(rox_grammar::specs::Search::stands))]
    pub fn starts(&self, word: Word) -> bool
        ensures { result ≡ stands (word_text word) self.now.text.now self.now.pos }
    {
        let rest = &self.text.as_bytes()[self.pos..];
        let word = word.text();
        if word.len() > WIDEST && (rest.len() < 2 || rest[1] != word[1]) {
            return false;
        }
        rest.starts_with(word)
    }

    /// Moves past the fixed text `word`, which is at the cursor.
    #[inline]
    pub fn skip(&mut self, word: Word)
        requires { stands (word_text word) self.old.text.now self.old.pos ≡ true }
        ensures { MovesTo (self.old.pos + length (word_text word)) self.old self.new }
    {
        self.pos += word.text().len();
    }

    /// Reads the fixed text `expected`. It is a fault if the text is not at the cursor.
    #[inline]
    #[tactic(auto, unfolding(rox_reading::specs::Lexical::string_at))]
    pub fn string(&mut self, expected: Expected) -> Result<(), Fault>
        ensures { Steps (λ x. x) self.old self.new result (spec.string_at expected) }
    {
        let word = expected.word();
        if !self.starts(word) {
            return Err(Fault::InvalidString(expected, self.pos));
        }
        self.skip(word);
        Ok(())
    }

    /// Reads the longest run of name characters, split at its colon (Namespaces in XML section 4). A second colon, an empty local
    /// part and a part that does not start as a name are faults at the start of the run.
    #[inline(always)]
    #[tactic(auto, unfolding(rox_reading::specs::Lexical::qname_at))]
    pub fn qname(&mut self) -> Result<QName<'input>, Fault>
        ensures { Steps name_view self.old self.new result spec.qname_at }
    {
        let start = self.pos;
        let text = self.text;
        let colon = part_end(text, start);
        if !is_at(text, colon, b':') {
            if !begins::<NameStart>(text, start) {
                return Err(Fault::InvalidName(start));
            }
            self.pos = colon;
            return Ok(QName {
                prefix: "",
                local: &text[start..colon],
            });
        }
        if colon != start && !begins::<NameStart>(text, start) {
            return Err(Fault::InvalidName(start));
        }
        let local = after_byte(text, colon, b':');
        let end = part_end(text, local);
        if !begins::<NameStart>(text, local) || is_at(text, local, b':') || is_at(text, end, b':') {
            return Err(Fault::InvalidName(start));
        }
        self.pos = end;
        Ok(QName {
            prefix: &text[start..colon],
            local: &text[local..end],
        })
    }
}

/// Like `space_end`, but sixteen bytes at a time, for white space that goes beyond one byte.
#[inline(always)]
pub fn space_end_beyond(from: Cursor<'_>) -> usize
    ensures { Finds from.entry.text.now from.entry.pos result
        (run_end is_space from.entry.text.now from.entry.pos) }
{
    skip_set::<SpaceByte>(from.text, from.pos)
}

/// Returns the end of the white space that starts at the cursor, byte by byte.
#[inline(always)]
#[tactic(auto, using(rox_bytes::proofs::RunLemmas::space_steps))]
pub fn space_end(from: Cursor<'_>) -> usize
    ensures { Finds from.entry.text.now from.entry.pos result
        (run_end is_space from.entry.text.now from.entry.pos) }
{
    let text = from.text;
    let bytes = text.as_bytes();
    let mut end = from.pos;
    while end < bytes.len() && SpaceByte::has(bytes[end]) {
        end += 1;
    }
    end
}

/// Returns the offset of the first `mark` from the cursor on, or the end. Most often the first byte that is the mark's begins it.
/// The time is linear in the length of the text, whatever it holds.
#[inline]
pub fn mark_from(from: Cursor<'_>, mark: Expected) -> usize
    ensures { Finds from.entry.text.now from.entry.pos result
        (search.mark_from (expected_text mark) from.entry.text.now from.entry.pos) }
{
    let rest = from.text[from.pos..].as_bytes();
    let needle = mark.text();
    let near = before_byte(rest, needle[0]);
    if rest.split_at(near).1.starts_with(needle) {
        return from.pos + near;
    }
    from.pos + memmem::find(rest, needle).unwrap_or(rest.len())
}
