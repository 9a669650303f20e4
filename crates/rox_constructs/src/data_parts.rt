//! Character data by the general step, part by part, and the ends of replacement texts (XML 1.0 sections 2.4, 4.3.2, 4.4.2). The
//! caller opens the replacement texts between the parts.

ghost use Rattle.std.specs.Prelude.{ℕ, List, IsCharBoundary, string_bytes};
ghost use Rattle.rox_grammar.specs.Entities.{Entity};
ghost use Rattle.rox_reading.specs.Machine as machine;
ghost use Rattle.rox_reading.specs.State.{State};
ghost use Rattle.rox_values.specs.Contexts.{context_of};
ghost use Rattle.rox_builder.specs.BuilderState.{HoldsState, ParsesToHeld};
ghost use Rattle.rox_builder.specs.Readiness.{MayReadTo};
ghost use Rattle.rox_constructs.specs.DataPieces.{GivesPiece, ReadsPart};

use rox_builder::builder::Builder;
use rox_grammar::failure::Failure;
use rox_grammar::fault::Fault;
use rox_names::start_tag::Buffers;
use rox_scan::cursor::Cursor;
use rox_values::character_data::data_part;
use rox_values::context::Context;
use rox_values::line_ends::line_feeds;
use rox_values::parse_error::ParseError;
use rox_values::text_value::TextValue;

/// Reads a part of character data into the buffer for values, up to `stop` or a reference to an entity. Returns the replacement
/// text of the entity.
fn part<'input>(
    cursor: &mut Cursor<'input>,
    buffers: &mut Buffers<'input>,
    context: Context<'_, 'input>,
    stop: usize,
) -> Result<Option<Cursor<'input>>, Failure>
    requires { IsCharBoundary cursor.old.text.now stop }
    ensures { ReadsPart context.entry stop cursor.old cursor.new (string_bytes buffers.new.scratch)
        result }
{
    buffers.scratch.clear();
    if context.main {
        return data_part(cursor, stop, context, &mut buffers.scratch);
    }
    buffers.raw.clear();
    let next = data_part(cursor, stop, context, &mut buffers.raw)?;
    line_feeds(buffers.raw.as_str(), &mut buffers.scratch)?;
    Ok(next)
}

/// Like `part_piece`, but adds the part as a piece of its own, from the buffer for values.
#[inline(never)]
fn other_part_piece<'input>(
    cursor: &mut Cursor<'input>,
    builder: &mut Builder<'input>,
    context: Context<'_, 'input>,
    start: usize,
    stop: usize,
) -> Result<Option<Cursor<'input>>, Failure>
    requires { MayReadTo stop cursor.old builder.old }
    ensures { GivesPiece context.entry start stop cursor.old cursor.new builder.old builder.new
        result }
{
    let next = part(cursor, &mut builder.buffers, context, stop)?;
    if builder.buffers.scratch.is_empty() {
        return Ok(next);
    }
    builder.piece(start, stop, TextValue::Changed)?;
    Ok(next)
}

/// Reads a part of the character data from `start` up to `stop`, and adds its piece if it has a character. The part ends at
/// `stop` or at a reference to an entity, whose replacement text is returned. In the main text the part is appended to the
/// waiting text, or starts one, unless a text that has its row may continue.
#[inline(always)]
pub fn part_piece<'input>(
    cursor: &mut Cursor<'input>,
    builder: &mut Builder<'input>,
    context: Context<'_, 'input>,
    start: usize,
    stop: usize,
) -> Result<Option<Cursor<'input>>, Failure>
    requires { MayReadTo stop cursor.old builder.old }
    ensures { GivesPiece context.entry start stop cursor.old cursor.new builder.old builder.new
        result }
{
    if context.main && !builder.is_written() {
        let before = builder.begin_part();
        let next = data_part(cursor, stop, context, &mut builder.joined.text)?;
        builder.end_part(before, start, stop)?;
        return Ok(next);
    }
    other_part_piece(cursor, builder, context, start, stop)
}

/// Checks the end of a replacement text: each element that it opened must be closed.
pub fn text_end<'input>(
    builder: &Builder<'input>,
    context: Context<'_, 'input>,
) -> Result<(), ParseError<'input>>
    ensures { (limit end : ℕ) (es : List Entity) (s : State) → HoldsState limit end s builder.now
        → ParsesToHeld limit end result builder.now
        (machine.text_ends (context_of limit es context.entry) s) }
{
    if builder.opened.len() == context.open_around {
        Ok(())
    } else {
        Err(ParseError::Fault(Fault::UnexpectedEndOfStream))
    }
}
