//! Plain constructs with delimiters, read by the fast path: comments, CDATA sections and processing instructions (XML 1.0 sections 2.5,
//! 2.6, 2.7). Each is read out of line. The general step reads one that is not plain, or finds no room, from its first byte.

ghost use Rattle.std.specs.Prelude.{◌≡◌, true, IfSome, string_bytes};
ghost use Rattle.rox_grammar.specs.FixedTexts.{word_text};
ghost use Rattle.rox_grammar.specs.Search.{stands};
ghost use Rattle.rox_grammar.specs.declared.fault.Word.TheVariants as word;
ghost use Rattle.rox_reading.specs.Machine as machine;
ghost use Rattle.rox_reading.specs.Refusals.{lifted};
ghost use Rattle.rox_builder.specs.Outcomes.{MayStep};
ghost use Rattle.rox_builder.specs.Readiness.{IsApart, MayReadAt, HasRoom};
ghost use Rattle.rox_builder.specs.declared.pending.Pending.TheVariants as pending;
ghost use Rattle.rox_sections.specs.PlainOutcomes.{JoinsRun, ReadsIf, ReadsSection, ReadsSteps, any_context};
ghost use Rattle.rox_sections.specs.Sections.{IsPlainSection, ReadsPiece, is_section_byte};

use rox_builder::builder::Builder;
use rox_bytes::byte_set::{ByteSet, CharByte, find_other};
use rox_bytes::nibbles::by_low;
use rox_bytes::runs::is_at;
use rox_bytes::search::before_byte;
use rox_grammar::fault::Word;
use rox_markup::markup::{cdata, processing_instruction, whole_comment};
use rox_rows::row::{NodeKind, PI};
use rox_scan::character_data::text_end;
use rox_scan::cursor::Cursor;
use rox_storage::storage::StringStorage;
use rox_values::text_value::{TextValue, cdata_text};
use std::alloc::AllocError;
use std::simd::prelude::*;

/// Returned in place of the offset after a construct that was not read.
pub const NOT_READ: usize = usize::MAX;

/// The length in bytes of the longest text whose offsets all fit rows.
pub const MOST_BYTES: usize = 4294967295;

/// Reads a comment, from `<!--`, if it is valid. Returns whether it was read.
#[inline(always)]
fn put_comment<'input>(cursor: &mut Cursor<'input>, builder: &mut Builder<'input>) -> bool
    requires here { stands (word_text word.CommentStart) cursor.old.text.now cursor.old.pos ≡ true }
    requires room { HasRoom cursor.old.text.now builder.old }
    ensures { ReadsIf IsApart any_context (λ k src s. lifted (machine.comment_step k.limit src s))
        cursor.old cursor.new builder.old builder.new result }
{
    let start = cursor.pos;
    let Some(whole) = whole_comment(*cursor) else {
        return false;
    };
    cursor.pos = whole.end;
    let kind = NodeKind::Comment(StringStorage::Borrowed(whole.text));
    builder.put_leaf(builder.parent(), start, cursor.pos, kind);
    true
}

/// The bytes of a CDATA section that need no other test: not `]`, not 239, and not a control except TAB and LF.
struct SectionByte;

// The controls of the set, and `]`, each at its low half.
const SECTION_EXCEPTIONS: [u8; 16] = [1, 0, 0, 0, 0, 0, 0, 0, 0, b'\t', b'\n', 0, 0, b']', 0, 0];

impl ByteSet for SectionByte {
    ghost test = { is_section_byte };

    #[inline(always)]
    #[tactic(auto, unfolding(crate::specs::Sections::is_section_byte))]
    fn has(byte: u8) -> bool {
        (CharByte::has(byte) & (byte != b'\r')) & (byte != b']')
    }

    #[inline(always)]
    fn others(block: u8x16) -> u64 {
        let exceptions = by_low(SECTION_EXCEPTIONS, block).simd_eq(block);
        let controls = block.simd_lt(u8x16::splat(32)) ^ exceptions;
        (controls | block.simd_eq(u8x16::splat(239))).to_bitmask()
    }
}

/// A valid CDATA section without CR: its text, and the offset after it.
#[derive(Clone, Copy)]
struct PlainSection<'input> {
    text: &'input str,
    end: usize,
}

/// Returns true only if `]]>` is at `at`.
#[inline(always)]
fn is_section_end(text: &str, at: usize) -> bool
    ensures { result ≡ true → stands (word_text word.CDataEnd) text.now at ≡ true }
{
    is_at(text, at, b']') && (is_at(text, at + 1, b']') && is_at(text, at + 2, b'>'))
}

/// Returns the CDATA section that starts with the `<![CDATA[` at the cursor, if its text is of `SectionByte`s.
#[inline(always)]
fn section_of_set<'input>(from: Cursor<'input>) -> Option<PlainSection<'input>>
    requires { stands (word_text word.CDataStart) from.text.now from.pos ≡ true }
    ensures { IfSome result (IsPlainSection from.entry.text.now from.entry.pos) }
{
    let mut here = from;
    here.skip(Word::CDataStart);
    let start = here.pos;
    let end = find_other::<SectionByte>(from.text, start)?;
    if !is_section_end(from.text, end) {
        return None;
    }
    Some(PlainSection {
        text: &from.text[start..end],
        end: end + 3,
    })
}

/// Returns the CDATA section that starts with the `<![CDATA[` at the cursor, if it is valid and has no CR.
#[inline(never)]
fn section_beyond<'input>(from: Cursor<'input>) -> Option<PlainSection<'input>>
    requires { stands (word_text word.CDataStart) from.text.now from.pos ≡ true }
    ensures { IfSome result (IsPlainSection from.entry.text.now from.entry.pos) }
{
    let mut here = from;
    let Ok(raw) = cdata(&mut here) else {
        return None;
    };
    let bytes = raw.as_bytes();
    if before_byte(bytes, b'\r') < bytes.len() {
        return None;
    }
    Some(PlainSection {
        text: raw,
        end: here.pos,
    })
}

/// Like `section_beyond`, but most sections are of `SectionByte`s, which is tried first.
#[inline(always)]
fn plain_section<'input>(from: Cursor<'input>) -> Option<PlainSection<'input>>
    requires { stands (word_text word.CDataStart) from.text.now from.pos ≡ true }
    ensures { IfSome result (IsPlainSection from.entry.text.now from.entry.pos) }
{
    if let Some(section) = section_of_set(from) {
        return Some(section);
    }
    section_beyond(from)
}

/// Reads the construct at `start`, if it is a valid CDATA section without CR, and is a text of its own: no text is open before it,
/// and `<` is after it. Returns the offset after it, or `NOT_READ`: a cursor that is lent to a call would leave its registers.
#[inline(never)]
fn put_section_at<'input>(text: &'input str, start: usize, builder: &mut Builder<'input>) -> usize
    requires { MayReadAt text.now start builder.old }
    ensures { ReadsSection text.entry.now start result builder.old builder.new }
{
    let cursor = Cursor { text, pos: start };
    if builder.is_text_open() {
        return NOT_READ;
    }
    if !cursor.starts(Word::CDataStart) {
        return NOT_READ;
    }
    let Some(section) = plain_section(cursor) else {
        return NOT_READ;
    };
    if !is_at(text, section.end, b'<') {
        return NOT_READ;
    }
    builder.put_text(start, section.end, StringStorage::Borrowed(section.text));
    section.end
}

/// Reads the construct at `start`, if it is a valid processing instruction, for which there is room. Returns the offset after it, or
/// `NOT_READ`.
#[inline(never)]
fn put_instruction_at<'input>(
    text: &'input str,
    start: usize,
    builder: &mut Builder<'input>,
) -> usize
    requires { MayReadAt text.now start builder.old }
    ensures { ReadsSection text.entry.now start result builder.old builder.new }
{
    let mut cursor = Cursor { text, pos: start };
    if !cursor.starts(Word::PIStart) {
        return NOT_READ;
    }
    if !builder.nodes.has_room_for_instruction() {
        return NOT_READ;
    }
    let Ok(read) = processing_instruction(&mut cursor) else {
        return NOT_READ;
    };
    let (target, value) = (read.target, read.value);
    builder.put_instruction(start, cursor.pos, PI { target, value });
    cursor.pos
}

/// Like `put_section_at`, but also reads a valid processing instruction, which is tested for by its second byte.
#[inline(always)]
fn put_section_or_instruction<'input>(
    text: &'input str,
    start: usize,
    builder: &mut Builder<'input>,
) -> usize
    requires { MayReadAt text.now start builder.old }
    ensures { ReadsSection text.entry.now start result builder.old builder.new }
{
    if is_at(text, start + 1, b'?') {
        return put_instruction_at(text, start, builder);
    }
    put_section_at(text, start, builder)
}

/// Like `put_section_at`, but also reads a valid comment, which is tested for first, or a valid processing instruction.
#[inline(never)]
#[tactic(auto, unfolding(rox_reading::specs::Machine::step))]
pub fn put_delimited<'input>(
    text: &'input str,
    start: usize,
    builder: &mut Builder<'input>,
) -> usize
    requires { MayReadAt text.now start builder.old }
    ensures { ReadsSection text.entry.now start result builder.old builder.new }
{
    let mut cursor = Cursor { text, pos: start };
    if !cursor.starts(Word::CommentStart) {
        return put_section_or_instruction(text, start, builder);
    }
    if !put_comment(&mut cursor, builder) {
        return NOT_READ;
    }
    cursor.pos
}

/// Joins the character data at the cursor, up to the next `<`, to the text that waits for its row, if it is a slice of the source.
/// It fails only if memory runs out.
#[inline(always)]
fn join_run<'input>(
    cursor: &mut Cursor<'input>,
    builder: &mut Builder<'input>,
) -> Result<(), AllocError>
    requires { builder.old.pending ≡ pending.Joined }
    ensures { JoinsRun cursor.old cursor.new builder.old builder.new result }
{
    let start = cursor.pos;
    let text = cursor.text;
    if is_at(text, start, b'<') {
        return Ok(());
    }
    let Some(end) = text_end(text, start) else {
        return Ok(());
    };
    cursor.pos = end;
    builder.join_piece(TextValue::Plain(&text[start..end]))?;
    Ok(())
}

/// Reads the CDATA section at the cursor, if it is valid. Its text is a slice of the source if it has no CR, otherwise it is in
/// `scratch`. Returns `None` if the section is not valid. It fails only if memory runs out.
#[inline(always)]
fn section_piece<'input>(
    cursor: &mut Cursor<'input>,
    scratch: &mut String,
) -> Result<Option<TextValue<'input>>, AllocError>
    requires { stands (word_text word.CDataStart) cursor.old.text.now cursor.old.pos ≡ true }
    ensures { ReadsPiece cursor.old cursor.new (string_bytes scratch.new) result }
{
    if let Some(section) = section_of_set(*cursor) {
        cursor.pos = section.end;
        return Ok(Some(TextValue::Plain(section.text)));
    }
    let Ok(raw) = cdata(cursor) else {
        return Ok(None);
    };
    let piece = cdata_text(raw, scratch)?;
    Ok(Some(piece))
}

/// Reads the CDATA section at the cursor, if one is there and it is valid, and the character data after it, if that is a slice of
/// the source. Both join the text that may continue. Returns whether anything was read. It fails only if memory runs out.
#[inline(never)]
pub fn join_section<'input>(
    cursor: &mut Cursor<'input>,
    builder: &mut Builder<'input>,
) -> Result<bool, AllocError>
    requires { MayStep cursor.old builder.old }
    ensures { ReadsSteps cursor.old cursor.new builder.old builder.new result }
{
    let mut here = *cursor;
    if !here.starts(Word::CDataStart) {
        return Ok(false);
    }
    let Some(piece) = section_piece(&mut here, &mut builder.buffers.scratch)? else {
        return Ok(false);
    };
    let waits = builder.waiting_piece(cursor.pos, here.pos, piece)?;
    if !waits {
        return Ok(false);
    }
    join_run(&mut here, builder)?;
    builder.end_run(here.text, here.pos)?;
    *cursor = here;
    Ok(true)
}
