//! Content: character data and replacement texts, one construct after another (XML 1.0 sections 2.4, 3.1, 4.3.2, 4.4.2).

ghost use Rattle.std.specs.Prelude.{length};
ghost use Rattle.rox_reading.specs.Machine as machine;
ghost use Rattle.rox_builder.specs.BuilderState.{IsConsistent};
ghost use Rattle.rox_build.specs.OpenedTexts.{JoinsWhole, OpensText, ReadsText};
ghost use Rattle.rox_builder.specs.Outcomes.{MayStep, ParsesAs};
ghost use Rattle.rox_builder.specs.Readiness.{MayReadTo};

use rox_builder::builder::Builder;
use rox_constructs::constructs::{end_tag, markup};
use rox_constructs::data_parts::{part_piece, text_end};
use rox_constructs::parsed::parsed;
use rox_content::quick_content::{quick_constructs, quick_markup_of_text};
use rox_grammar::fault::Fault;
use rox_scan::character_data::raw_character_data;
use rox_scan::cursor::Cursor;
use rox_scan::short_run::is_plain_to_end;
use rox_sections::quick_sections::join_section;
use rox_values::context::Context;
use rox_values::parse_error::ParseError;
use rox_values::text_value::TextValue;
use std::alloc::AllocError;

/// Reads the pieces of character data, up to the next `<` or the end.
#[cycle(content)]
#[inline(always)]
fn character_data_pieces<'input>(
    cursor: &mut Cursor<'input>,
    builder: &mut Builder<'input>,
    context: Context<'_, 'input>,
) -> Result<(), ParseError<'input>>
    requires fine { IsConsistent builder.old.tables builder.old.opened.items }
    ensures { ParsesAs machine.character_data_step context.entry cursor.old cursor.new builder.old
        builder.new result }
{
    let start = cursor.pos;
    let raw = raw_character_data(cursor)?;
    if raw.is_verbatim {
        let piece = TextValue::Plain(raw.text);
        return parsed(builder.piece(start, cursor.pos, piece));
    }
    let stop = cursor.pos;
    cursor.pos = start;
    data_parts(cursor, builder, context, start, stop)
}

/// Reads character data, up to the next `<` or the end, and then writes a waiting text to its row if nothing can continue it.
#[cycle(content)]
#[inline(never)]
fn character_data<'input>(
    cursor: &mut Cursor<'input>,
    builder: &mut Builder<'input>,
    context: Context<'_, 'input>,
) -> Result<(), ParseError<'input>>
    requires fine { IsConsistent builder.old.tables builder.old.opened.items }
    ensures { ParsesAs machine.character_data_step context.entry cursor.old cursor.new builder.old
        builder.new result }
{
    character_data_pieces(cursor, builder, context)?;
    builder.end_run(cursor.text, cursor.pos)?;
    Ok(())
}

/// Reads the parts of character data from the cursor up to `stop`, and the replacement texts between them. The character data
/// starts at `start`.
#[cycle(content)]
fn data_parts<'input>(
    cursor: &mut Cursor<'input>,
    builder: &mut Builder<'input>,
    context: Context<'_, 'input>,
    start: usize,
    stop: usize,
) -> Result<(), ParseError<'input>>
    requires { MayReadTo stop cursor.old builder.old }
    ensures { ParsesAs (λ k src. machine.data_parts k (length src) src start stop) context.entry
        cursor.old cursor.new builder.old builder.new result }
{
    for _turn in 0..cursor.text.len() {
        match part_piece(cursor, builder, context, start, stop)? {
            Some(text) => open_text(cursor.pos, builder, context, text)?,
            None => {
                cursor.pos = stop;
                return Ok(());
            }
        }
    }
    cursor.pos = stop;
    Ok(())
}

/// Joins a replacement text that is plain character data, named in the main text, to the text that may continue. If none may, the
/// replacement text itself waits for its row. An empty text adds nothing. Returns false, with the builder unchanged, if the text
/// is not read so.
#[inline(always)]
fn joins<'input>(
    builder: &mut Builder<'input>,
    context: Context<'_, 'input>,
    text: Cursor<'input>,
) -> Result<bool, AllocError>
    ensures { JoinsWhole context.entry text.entry builder.old builder.new result }
{
    if !context.main || context.depth_left == 0 {
        return Ok(false);
    }
    let (source, start) = (text.text, text.pos);
    let end = source.len();
    if start == end {
        return Ok(true);
    }
    if source.as_bytes()[start] == b'<' {
        return Ok(false);
    }
    if !is_plain_to_end(text) {
        return Ok(false);
    }
    builder.waiting_piece(start, end, TextValue::Plain(&source[start..end]))
}

/// Reads a replacement text in content. Its reference ends at `after`.
#[cycle(content)]
#[inline(always)]
fn open_text<'input>(
    after: usize,
    builder: &mut Builder<'input>,
    context: Context<'_, 'input>,
    text: Cursor<'input>,
) -> Result<(), ParseError<'input>>
    requires fine { IsConsistent builder.old.tables builder.old.opened.items }
    ensures { OpensText context.entry after text.entry builder.old builder.new result }
{
    let joined = joins(builder, context, text)?;
    if joined {
        return Ok(());
    }
    open_other_text(after, builder, context, text)
}

/// Like `open_text`, but reads any text, construct by construct.
#[cycle(content)]
#[cold]
#[inline(never)]
fn open_other_text<'input>(
    after: usize,
    builder: &mut Builder<'input>,
    context: Context<'_, 'input>,
    text: Cursor<'input>,
) -> Result<(), ParseError<'input>>
    requires fine { IsConsistent builder.old.tables builder.old.opened.items }
    ensures { OpensText context.entry after text.entry builder.old builder.new result }
{
    let before = builder.openings_left;
    let (within, inner) = context.opened(after, before, builder.opened.len())?;
    builder.openings_left = inner;
    match content_text(builder, within, text) {
        Ok(()) => {
            builder.openings_left = context.left_behind(before, builder.openings_left);
            Ok(())
        }
        Err(refused) => Err(refused.within(text.text)),
    }
}

/// Reads the content of a replacement text, up to its end.
#[cycle(content)]
fn content_text<'input>(
    builder: &mut Builder<'input>,
    context: Context<'_, 'input>,
    text: Cursor<'input>,
) -> Result<(), ParseError<'input>>
    requires fine { IsConsistent builder.old.tables builder.old.opened.items }
    ensures { ReadsText context.entry text.entry builder.old builder.new result }
{
    let mut cursor = text;
    // Each turn but the last reads at least one byte.
    for _turn in 0..text.text.len() {
        if cursor.is_at_end() {
            return text_end(builder, context);
        }
        if quick_markup_of_text(&mut cursor, builder, context.open_around) {
            continue;
        }
        if builder.buffers.seen.lacking {
            return Err(ParseError::Memory);
        }
        step(&mut cursor, builder, context)?;
    }
    text_end(builder, context)
}

/// Reads one construct of content. It is out of line, so that its callers are small enough to be in line.
#[tactic(auto, unfolding(rox_reading::specs::Machine::step))]
#[cycle(content)]
#[inline(never)]
fn step<'input>(
    cursor: &mut Cursor<'input>,
    builder: &mut Builder<'input>,
    context: Context<'_, 'input>,
) -> Result<(), ParseError<'input>>
    requires { MayStep cursor.old builder.old }
    ensures { ParsesAs machine.step context.entry cursor.old cursor.new builder.old builder.new
        result }
{
    let bytes = cursor.text.as_bytes();
    if bytes[cursor.pos] != b'<' {
        return character_data(cursor, builder, context);
    }
    if cursor.pos + 1 >= bytes.len() {
        return Err(ParseError::Fault(Fault::UnknownToken(cursor.pos)));
    }
    let next = bytes[cursor.pos + 1];
    if next == b'/' {
        return parsed(end_tag(cursor, builder, context));
    }
    markup(cursor, builder, context)
}

/// Reads content through the end tag of the root element.
#[inline(always)]
pub fn content<'input>(
    cursor: &mut Cursor<'input>,
    builder: &mut Builder<'input>,
    context: Context<'_, 'input>,
) -> Result<(), ParseError<'input>>
    requires fine { IsConsistent builder.old.tables builder.old.opened.items }
    ensures { ParsesAs (λ k src. machine.drive k (length src) src) context.entry
        cursor.old cursor.new builder.old builder.new result }
{
    // Each turn but the last reads at least one byte.
    for _turn in 0..cursor.text.len() {
        let rows = builder.rows_left();
        let read = quick_constructs(cursor, builder, &context, rows);
        if builder.is_at_root() {
            return Ok(());
        }
        // The constructs read may have left no room for more.
        if read && builder.rows_left() < 2 {
            builder.make_room(cursor.pos)?;
            continue;
        }
        if cursor.is_at_end() {
            return Err(ParseError::Fault(Fault::UnclosedRootNode));
        }
        // What the fast path was refused memory for is not asked for again.
        if builder.buffers.seen.lacking {
            return Err(ParseError::Memory);
        }
        let joined = join_section(cursor, builder)?;
        if joined {
            continue;
        }
        step(cursor, builder, context)?;
    }
    if builder.is_at_root() {
        Ok(())
    } else {
        Err(ParseError::Fault(Fault::UnclosedRootNode))
    }
}
