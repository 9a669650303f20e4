//! The declaration that a text may start with (XML 1.0 [23] XMLDecl, [77] TextDecl).

ghost use Rattle.std.specs.Prelude.{◌≡◌, ◌||◌, ◌+◌, ◌<◌, Ok, if◌then◌else◌, true};
ghost use Rattle.rox_grammar.specs.Search.{stands};
ghost use Rattle.rox_grammar.specs.FixedTexts.{word_text};
ghost use Rattle.rox_grammar.specs.declared.fault.Word.TheVariants as word;
ghost use Rattle.rox_reading.specs.Markup as spec;
ghost use Rattle.rox_scan.specs.CursorSteps.{MovesTo, Steps};
ghost use Rattle.rox_markup.specs.DoctypeViews.{StandsAsName, up_to_quote, xml_decl_if};
ghost use Rattle.rox_bytes.specs.ByteSets.{IsOfLetters};

use rox_bytes::byte_set::{ByteSet, SpaceByte, ValueByte, skip_set};
use rox_bytes::runs::{after_byte, is_at};
use rox_bytes::search::either_from;
use rox_grammar::fault::{Due, Expected, Fault, Word};
use rox_scan::cursor::{Cursor, Quote};

/// Reads a value of the XML declaration, up to the quote or a `<`. The fast path reads plain bytes before a quote.
#[inline(always)]
fn value<'input>(cursor: &mut Cursor<'input>, quote: Quote) -> Result<&'input str, Fault>
    ensures { Steps (λ x. x.now) cursor.old cursor.new result (up_to_quote quote.byte) }
{
    let start = cursor.pos;
    let near = skip_set::<ValueByte>(cursor.text, start);
    if is_at(cursor.text, near, quote.byte) {
        cursor.pos = near;
        return Ok(&cursor.text[start..near]);
    }
    let end = either_from(cursor.text, start, quote.byte, b'<');
    cursor.chars_up_to(end)
}

/// Reads a pair of the XML declaration: a name, `=`, and a value in quotes.
#[tactic(auto, unfolding(rox_reading::specs::Markup::pair_at))]
fn pair(cursor: &mut Cursor<'_>) -> Result<(), Fault>
    ensures { Steps (λ x. x) cursor.old cursor.new result spec.pair_at }
{
    let _name = cursor.qname()?;
    cursor.spaces();
    cursor.byte(b'=')?;
    cursor.spaces();
    let quote = cursor.quote()?;
    let _value = value(cursor, quote)?;
    cursor.byte(quote.byte)
}

/// Reads white space, or nothing if `?>` is at the cursor or the source ends.
#[tactic(auto, unfolding(rox_reading::specs::Markup::gap_at))]
fn gap(cursor: &mut Cursor<'_>) -> Result<(), Fault>
    ensures { Steps (λ x. x) cursor.old cursor.new result spec.gap_at }
{
    if cursor.pos >= cursor.text.len() {
        return Ok(());
    }
    let here = cursor.text.as_bytes()[cursor.pos];
    if SpaceByte::has(here) {
        cursor.spaces();
        return Ok(());
    }
    if cursor.starts(Word::PIEnd) {
        return Ok(());
    }
    Err(Fault::InvalidChar2(Due::Space, here, cursor.pos))
}

/// Reads a pair and a gap, if the word `name` is at the cursor.
#[tactic(auto, unfolding(rox_reading::specs::Markup::pair_if))]
fn pair_if(cursor: &mut Cursor<'_>, name: Word) -> Result<(), Fault>
    ensures { Steps (λ x. x) cursor.old cursor.new result (spec.pair_if name) }
{
    if !cursor.starts(name) {
        return Ok(());
    }
    pair(cursor)?;
    gap(cursor)
}

/// Reads the pair `name="…"` by the fast path, if it has no white space and plain bytes only. If false is returned, the
/// cursor's position is unspecified.
#[inline(always)]
fn quick_pair(cursor: &mut Cursor<'_>, name: Word) -> bool
    ensures { result ≡ true → StandsAsName name cursor.old
        → Steps (λ x. x) cursor.old cursor.new (Ok tt) spec.pair_at }
{
    let text = cursor.text;
    let equals = cursor.pos + name.text().len();
    if !is_at(text, equals, b'=') {
        return false;
    }
    let before = after_byte(text, equals, b'=');
    if !is_at(text, before, b'"') {
        return false;
    }
    let from = after_byte(text, before, b'"');
    let end = skip_set::<ValueByte>(text, from);
    if !is_at(text, end, b'"') {
        return false;
    }
    cursor.pos = after_byte(text, end, b'"');
    true
}

/// Reads a gap by the fast path. Returns false if the source ends at the cursor, or if neither white space nor `?>` is there.
#[inline(always)]
#[tactic(auto, unfolding(rox_reading::specs::Markup::gap_at))]
fn quick_gap(cursor: &mut Cursor<'_>) -> bool
    ensures { result ≡ true → Steps (λ x. x) cursor.old cursor.new (Ok tt) spec.gap_at }
{
    if cursor.pos >= cursor.text.len() {
        return false;
    }
    if SpaceByte::has(cursor.text.as_bytes()[cursor.pos]) {
        cursor.spaces();
        return true;
    }
    cursor.starts(Word::PIEnd)
}

/// Reads a pair and a gap by the fast path, if the word `name` is at the cursor. If false is returned, the cursor's position
/// is unspecified.
#[inline(always)]
#[tactic(auto, unfolding(rox_reading::specs::Markup::pair_if))]
fn quick_pair_if(cursor: &mut Cursor<'_>, name: Word) -> bool
    ensures { result ≡ true → IsOfLetters name
        → Steps (λ x. x) cursor.old cursor.new (Ok tt) (spec.pair_if name) }
{
    if !cursor.starts(name) {
        return true;
    }
    if !quick_pair(cursor, name) {
        return false;
    }
    quick_gap(cursor)
}

/// Reads the pair `standalone` by the fast path, if it is at the cursor. No gap is required after it. If false is returned,
/// the cursor's position is unspecified.
#[inline(always)]
fn quick_last_pair(cursor: &mut Cursor<'_>) -> bool
    ensures { result ≡ true → Steps (λ x. x) cursor.old cursor.new (Ok tt) (λ src i.
        if stands (word_text word.Standalone) src i then spec.pair_at src i
        else Ok (tt, i)) }
{
    if !cursor.starts(Word::Standalone) {
        return true;
    }
    quick_pair(cursor, Word::Standalone)
}

/// Reads the XML declaration by the fast path, from `<?xml` and a space. The result is one word, so that nothing is cleared
/// for it. If false is returned, the cursor's position is unspecified.
#[inline(always)]
#[tactic(auto, unfolding(rox_reading::specs::Markup::xml_decl_at))]
fn quick_declaration(cursor: &mut Cursor<'_>) -> bool
    requires { stands (word_text word.XmlDeclStart) cursor.old.text.now cursor.old.pos ≡ true }
    ensures { result ≡ true → Steps (λ x. x) cursor.old cursor.new (Ok tt) spec.xml_decl_at }
{
    skip_xml_decl_start(cursor);
    cursor.spaces();
    if !cursor.starts(Word::Version) || !quick_pair_if(cursor, Word::Version) {
        return false;
    }
    if !quick_pair_if(cursor, Word::Encoding) {
        return false;
    }
    if !quick_last_pair(cursor) {
        return false;
    }
    cursor.spaces();
    if !cursor.starts(Word::PIEnd) {
        return false;
    }
    cursor.skip(Word::PIEnd);
    true
}

/// Moves past `<?xml`, up to the space after it.
#[inline]
fn skip_xml_decl_start(cursor: &mut Cursor<'_>)
    requires { stands (word_text word.XmlDeclStart) cursor.old.text.now cursor.old.pos ≡ true }
    ensures { MovesTo (cursor.old.pos + 5) cursor.old cursor.new }
{
    cursor.pos += 5;
}

/// Reads the XML declaration, from `<?xml` and a space to its end `?>` (XML 1.0 [23] XMLDecl). Its values are read and not
/// stored.
#[tactic(auto, unfolding(rox_reading::specs::Markup::xml_decl_at))]
#[cold]
#[inline(never)]
pub fn declaration(cursor: &mut Cursor<'_>) -> Result<(), Fault>
    requires { stands (word_text word.XmlDeclStart) cursor.old.text.now cursor.old.pos ≡ true }
    ensures { Steps (λ x. x) cursor.old cursor.new result spec.xml_decl_at }
{
    skip_xml_decl_start(cursor);
    cursor.spaces();
    if !cursor.starts(Word::Version) {
        return Err(Fault::InvalidString(Expected::Version, cursor.pos));
    }
    pair_if(cursor, Word::Version)?;
    pair_if(cursor, Word::Encoding)?;
    if cursor.starts(Word::Standalone) {
        pair(cursor)?;
    }
    cursor.spaces();
    cursor.string(Expected::PIEnd)
}

/// Reads the declaration that a text starts with, if it has one (XML 1.0 [23] XMLDecl, [77] TextDecl).
pub fn xml_decl_if(cursor: &mut Cursor<'_>) -> Result<(), Fault>
    ensures { Steps (λ x. x) cursor.old cursor.new result xml_decl_if }
{
    if !cursor.starts(Word::XmlDeclStart) {
        return Ok(());
    }
    let mut look = *cursor;
    if quick_declaration(&mut look) {
        *cursor = look;
        return Ok(());
    }
    declaration(cursor)
}
