//! The constructs that have delimiters, each read into the builder: comments, processing instructions, CDATA sections and tags
//! (XML 1.0 sections 2.5, 2.6, 2.7, 3.1).

ghost use Rattle.std.specs.Prelude.{◌≡◌, ◌<◌, ◌+◌, ℕ, slice_index, ◌≢◌};
ghost use Rattle.rox_grammar.specs.declared.fault.Word.TheVariants as word;
ghost use Rattle.rox_reading.specs.Machine as machine;
ghost use Rattle.rox_grammar.specs.Faults.{cut_off};
ghost use Rattle.rox_grammar.specs.Forest.{Forest};
ghost use Rattle.rox_grammar.specs.Written.{Item};
ghost use Rattle.rox_grammar.specs.NameParts.{same_qname};
ghost use Rattle.rox_grammar.specs.State.{Open};
ghost use Rattle.rox_reading.specs.Refusals.{lifted};
ghost use Rattle.rox_builder.specs.BuilderState.{Represents};
ghost use Rattle.rox_names.specs.OpenElements.{HasName};
ghost use Rattle.rox_names.specs.SpelledNames.{bytes_view};
ghost use Rattle.rox_builder.specs.Outcomes.{ParsesAs, ScansAs, ScansIn, ScansWithin, SpansOpen};
ghost use Rattle.rox_builder.specs.Readiness.{MayRead, MayReadTag, MayReadMarkup};

use crate::misc::{comment, instruction};
use crate::parsed::parsed;
use rox_builder::builder::Builder;
use rox_compare::compare::same_stretch;
use rox_grammar::failure::Failure;
use rox_grammar::fault::{Fault, Span, Word};
use rox_markup::{markup, tag};
use rox_names::open_element::{NameBytes, OpenElement, bytes_of, name_bytes, open_name};
use rox_rows::row::NodeKind;
use rox_scan::cursor::Cursor;
use rox_starts::tag::{TagContext, start_tag};
use rox_values::context::Context;
use rox_values::parse_error::ParseError;
use rox_values::text_value::cdata_text;

/// Reads a CDATA section, from `<![CDATA[`.
fn cdata<'input>(cursor: &mut Cursor<'input>, builder: &mut Builder<'input>) -> Result<(), Failure>
    requires { MayRead word.CDataStart cursor.old builder.old }
    ensures { ScansAs (λ limit src s. lifted (machine.cdata_step limit src s)) cursor.old
        cursor.new builder.old builder.new result }
{
    let start = cursor.pos;
    let raw = markup::cdata(cursor)?;
    let piece = cdata_text(raw, &mut builder.buffers.scratch)?;
    builder.piece(start, cursor.pos, piece)
}

/// Reads the construct that `<!` starts: a comment or a CDATA section.
#[tactic(auto, unfolding(rox_reading::specs::Machine::step))]
fn comment_or_section<'input>(
    cursor: &mut Cursor<'input>,
    builder: &mut Builder<'input>,
) -> Result<(), Failure>
    requires markup { MayReadMarkup cursor.old builder.old }
    requires next { slice_index cursor.old.text.now (cursor.old.pos + 1) ≡ 33 }
    ensures { ScansIn machine.step cursor.old cursor.new builder.old builder.new result }
{
    if cursor.starts(Word::CommentStart) {
        return comment(cursor, builder);
    }
    if cursor.starts(Word::CDataStart) {
        return cdata(cursor, builder);
    }
    Err(Failure::Fault(Fault::UnknownToken(cursor.pos)))
}

/// Returns the fault of a start tag that is cut off by the end of the text.
fn cut_off_fault(builder: &Builder<'_>, context: Context<'_, '_>) -> Fault
    ensures { (end : ℕ) (stack : Open) (done : Forest Item) → Represents end stack done builder.now
        → result ≡ cut_off context.entry.main stack }
{
    if !context.main {
        Fault::UnexpectedEndOfStream
    } else if builder.is_at_root() {
        Fault::NoRootNode
    } else {
        Fault::UnclosedRootNode
    }
}

/// Reads a start tag, from its `<`.
pub fn element<'input>(
    cursor: &mut Cursor<'input>,
    builder: &mut Builder<'input>,
    context: Context<'_, 'input>,
) -> Result<(), ParseError<'input>>
    requires { MayReadTag cursor.old builder.old }
    ensures { ParsesAs machine.tag_step context.entry cursor.old cursor.new builder.old builder.new
        result }
{
    let start = cursor.pos;
    let cut = cut_off_fault(builder, context);
    let openings_left = builder.openings_left;
    let above = builder.scope();
    let around = TagContext {
        above,
        cut,
        openings_left,
    };
    let (tables, buffers) = (&mut builder.tables, &mut builder.buffers);
    let (tag, left) = start_tag(cursor, tables, buffers, around, context)?;
    builder.openings_left = left;
    if tag.empty {
        let kind = NodeKind::Element(tag.element);
        return parsed(builder.leaf(start, cursor.pos, kind));
    }
    parsed(builder.open_element(cursor.text, start, &tag))
}

/// Returns the span of a name that ends at `end`, in a tag whose name may start at `start`. A name without prefix has no colon in
/// its span.
fn name_span(name: NameBytes<'_>, start: usize, end: usize) -> Span
    ensures { result ≡ machine.name_span (bytes_view name.entry) start end }
{
    if name.prefix.is_empty() {
        let start = end.saturating_sub(name.local.len());
        Span { start, end }
    } else {
        Span { start, end }
    }
}

/// Returns the span of the name of the innermost open element. The name starts right after the `<`, at which the row of the
/// element starts.
#[cold]
#[inline(never)]
fn open_span(builder: &Builder<'_>, element: &OpenElement<'_>) -> Span
    requires { HasName element.now }
    ensures { SpansOpen builder.now element.now result }
{
    // An open element has a row, and its name ends at an offset that a text can have. So neither the test nor a sum cuts anything
    // off.
    let row = element.row as usize;
    let start = if row < builder.nodes.len() {
        builder.nodes.row(row).start.saturating_add(1)
    } else {
        0
    };
    let end = start.saturating_add(name_bytes(element).len());
    name_span(open_name(element), start, end)
}

/// Returns whether two names are written alike.
#[inline(always)]
fn same_qname(one: NameBytes<'_>, other: NameBytes<'_>) -> bool
    ensures { result ≡ same_qname (bytes_view one.entry) (bytes_view other.entry) }
{
    same_stretch(one.prefix, other.prefix) && same_stretch(one.local, other.local)
}

/// Reads an end tag, from `</`.
#[inline(always)]
pub fn end_tag<'input>(
    cursor: &mut Cursor<'input>,
    builder: &mut Builder<'input>,
    context: Context<'_, 'input>,
) -> Result<(), Failure>
    requires { MayRead word.EndTagStart cursor.old builder.old }
    ensures { ScansWithin (λ k src s. lifted (machine.end_step k src s)) context.entry cursor.old
        cursor.new builder.old builder.new result }
{
    let start = cursor.pos;
    let tag = tag::end_tag(cursor)?;
    if builder.opened.len() <= context.open_around {
        return Err(Failure::Fault(Fault::UnexpectedEntityCloseTag(start)));
    }
    let Some(open) = builder.opened.last() else {
        return Err(Failure::Fault(Fault::UnexpectedEntityCloseTag(start)));
    };
    let opened = open_name(open);
    let closed = bytes_of(tag.name);
    if !same_qname(opened, closed) {
        let expected = open_span(builder, open);
        let found = name_span(closed, start + 2, tag.name_end);
        return Err(Failure::Fault(Fault::UnexpectedCloseTag(expected, found, start)));
    }
    builder.close(cursor.pos)?;
    Ok(())
}

/// Reads what `<` starts, except an end tag.
#[tactic(auto, unfolding(rox_reading::specs::Machine::step))]
#[inline(always)]
pub fn markup<'input>(
    cursor: &mut Cursor<'input>,
    builder: &mut Builder<'input>,
    context: Context<'_, 'input>,
) -> Result<(), ParseError<'input>>
    requires markup { MayReadMarkup cursor.old builder.old }
    requires no_end_tag { slice_index cursor.old.text.now (cursor.old.pos + 1) ≢ 47 }
    ensures { ParsesAs machine.step context.entry cursor.old cursor.new builder.old builder.new
        result }
{
    let bytes = cursor.text.as_bytes();
    let next = bytes[cursor.pos + 1];
    if next == b'!' {
        return parsed(comment_or_section(cursor, builder));
    }
    if next == b'?' {
        return parsed(instruction(cursor, builder));
    }
    element(cursor, builder, context)
}
