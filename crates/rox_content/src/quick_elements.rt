//! Plain start tags of elements and end tags, read by the fast path. The general step reads a tag that is not plain, or finds no
//! room, from its first byte.

ghost use Rattle.std.specs.Prelude.{◌≡◌, true, slice_index, ◌+◌, ◌<◌};
ghost use Rattle.rox_reading.specs.Machine as machine;
ghost use Rattle.rox_reading.specs.Refusals.{lifted};
ghost use Rattle.rox_builder.specs.Outcomes.{ReadsAt};
ghost use Rattle.rox_builder.specs.Readiness.{IsApart, HasRoom};
ghost use Rattle.rox_sections.specs.PlainOutcomes.{MayReadEnd, MayReadFirst, MayReadPart, ReadsIf};
ghost use Rattle.rox_content.specs.PlainElements.{HasMainValues, MayPutElement, MayReadHead, PutsElement};
ghost use Rattle.rox_bytes.specs.ByteSets.{StopsSet, is_part_byte};

use rox_builder::builder::Builder;
use rox_bytes::byte_set::{RunEnd, part_end_beyond};
use rox_bytes::runs::{after_byte, is_at};
use rox_compare::same_front::closes_front;
use rox_rows::row::NodeKind;
use rox_scan::cursor::Cursor;
use rox_sections::quick_sections::{MOST_BYTES, NOT_READ};
use rox_tags::quick_tag::{
    PlainTag, TagHead, head_in_scope, head_of_run, start_tag, start_tag_of_name,
};
use rox_tags::repeated_declaration::head_repeating;
use rox_values::context::Context;
use rox_verbatim::quick_name::NamePlace;

/// The number of scopes of a document whose root element alone declares namespaces.
const SCOPES_OF_ROOT: usize = 2;

/// Reads an end tag, from its `</`, if it closes the innermost open element. It must have the very bytes of the element's name,
/// with `>` right after them. More elements than the `open_around` ones around the text must be open. Returns whether it was
/// read.
#[inline(always)]
pub fn close_element(cursor: &mut Cursor<'_>, builder: &mut Builder<'_>, open_around: usize) -> bool
    requires { MayReadEnd cursor.old builder.old }
    ensures { ReadsIf IsApart (λ k. k.open_around ≡ open_around)
        (λ k src s. lifted (machine.end_step k src s)) cursor.old cursor.new builder.old
        builder.new result }
{
    if builder.opened.len() <= open_around {
        return false;
    }
    let Some(open) = builder.opened.last() else {
        return false;
    };
    let text = cursor.text;
    let slash = after_byte(text, cursor.pos, b'<');
    let name = after_byte(text, slash, b'/');
    let count = open.name_count as usize;
    if !closes_front(open.source, &text.as_bytes()[name..], count) {
        return false;
    }
    let close = name + count;
    let end = after_byte(text, close, b'>');
    cursor.pos = end;
    builder.put_close(end);
    true
}

/// Reads a start tag that is a name alone, from its `<`, if the name of its parent has no prefix. The first ASCII bytes of its
/// name end at `near`. Returns whether it was read.
#[inline(always)]
pub fn element_of_name<'input>(
    cursor: &mut Cursor<'input>,
    builder: &mut Builder<'input>,
    near: usize,
) -> bool
    requires here { slice_index cursor.old.text.now cursor.old.pos ≡ 60 }
    requires near { StopsSet is_part_byte cursor.old.text.now (cursor.old.pos + 1) near }
    requires letter { 63 < slice_index cursor.old.text.now (cursor.old.pos + 1) }
    requires room { HasRoom cursor.old.text.now builder.old }
    ensures { ReadsIf IsApart (λ k. k.values.main ≡ true) machine.tag_step cursor.old cursor.new
        builder.old builder.new result }
{
    // Most tags have more than a name, so this is tested first.
    let bytes = cursor.text.as_bytes();
    if bytes[near] != b'>' || !builder.has_room_to_open() {
        return false;
    }
    let Some(parent) = builder.innermost() else {
        return false;
    };
    let start = cursor.pos;
    let Some(bare) = start_tag_of_name(cursor.text, start, &builder.tables, &parent, near) else {
        return false;
    };
    cursor.pos = bare.end;
    builder.put_open(parent.row, cursor.text, start, &bare.tag);
    true
}

/// Puts the row of the element whose start tag `read` starts at `start`, and opens the element unless the tag is empty. Its parent
/// has the row `parent`. Returns the offset after the tag.
#[inline(always)]
fn put_element<'input>(
    text: &'input str,
    start: usize,
    builder: &mut Builder<'input>,
    parent: u32,
    read: PlainTag<'input>,
) -> usize
    requires { MayPutElement text.now start builder.old parent read }
    ensures { PutsElement text.entry.now start builder.old builder.new read.entry result }
{
    if read.tag.empty {
        builder.put_leaf(parent, start, read.end, NodeKind::Element(read.tag.element));
        return read.end;
    }
    builder.put_open(parent, text, start, &read.tag);
    read.end
}

/// Reads the start tag that begins with `head`, from its `<` at `start`, if its attributes are plain. Returns the offset after
/// it, or `NOT_READ`: an offset that is passed and returned by itself stays in registers.
#[inline(always)]
fn element_of_head<'input>(
    text: &'input str,
    start: usize,
    builder: &mut Builder<'input>,
    context: &Context<'_, 'input>,
    head: TagHead<'input>,
) -> usize
    requires { MayReadHead text.now start builder.old head }
    ensures { ReadsAt (HasMainValues context.entry.now) machine.tag_step text.entry.now start result
        builder.old builder.new }
{
    let from = builder.tables.attributes.len();
    let (tables, seen) = (&mut builder.tables, &mut builder.buffers.seen);
    let Some(read) = start_tag(text, start, head, tables, context, seen) else {
        builder.tables.attributes.truncate(from);
        return NOT_READ;
    };
    let parent = builder.parent();
    put_element(text, start, builder, parent, read)
}

/// Like `element_in_scope`, but for a tag that has one declaration, before its attributes, as an earlier one below the same
/// namespaces had.
#[inline(never)]
fn element_repeating<'input>(
    text: &'input str,
    start: usize,
    builder: &mut Builder<'input>,
    context: &Context<'_, 'input>,
    part: usize,
) -> usize
    requires { MayReadPart text.now start part builder.old }
    ensures { ReadsAt (HasMainValues context.entry.now) machine.tag_step text.entry.now start result
        builder.old builder.new }
{
    if builder.tables.scopes.len() <= SCOPES_OF_ROOT || !builder.has_room_to_open() {
        return NOT_READ;
    }
    let depth = builder.opened.len();
    if depth == 0 {
        return NOT_READ;
    }
    let parent = &builder.opened[depth - 1];
    let place = NamePlace { start, part };
    let Some(head) = head_repeating(text, place, &builder.tables, parent) else {
        return NOT_READ;
    };
    element_of_head(text, start, builder, context, head)
}

/// Reads a start tag, from its `<` at `start`, if it is plain. The first part of its name ends at `part`. Returns the offset
/// after it, or `NOT_READ`. It is out of line: few tags have a name that `element` does not read.
#[inline(never)]
fn element_in_scope<'input>(
    text: &'input str,
    start: usize,
    builder: &mut Builder<'input>,
    context: &Context<'_, 'input>,
    part: usize,
) -> usize
    requires { MayReadPart text.now start part builder.old }
    ensures { ReadsAt (HasMainValues context.entry.now) machine.tag_step text.entry.now start result
        builder.old builder.new }
{
    let depth = builder.opened.len();
    if depth == 0 || !builder.has_room_to_open() {
        return NOT_READ;
    }
    let parent = &builder.opened[depth - 1];
    let place = NamePlace { start, part };
    let near = &mut builder.buffers.seen.near;
    let Some(head) = head_in_scope(text, place, &builder.tables, parent, near) else {
        return element_repeating(text, start, builder, context, part);
    };
    let end = element_of_head(text, start, builder, context, head);
    if end <= MOST_BYTES {
        return end;
    }
    element_repeating(text, start, builder, context, part)
}

/// Like `element_in_scope`, but the first ASCII bytes of the name end as `run` says.
#[inline]
pub fn element<'input>(
    text: &'input str,
    start: usize,
    builder: &mut Builder<'input>,
    context: &Context<'_, 'input>,
    run: RunEnd,
) -> usize
    requires { MayReadFirst text.now start run builder.old }
    ensures { ReadsAt (HasMainValues context.entry.now) machine.tag_step text.entry.now start result
        builder.old builder.new }
{
    let part = part_end_beyond(text, after_byte(text, start, b'<'), run.at);
    let depth = builder.opened.len();
    if depth == 0 || !builder.has_room_to_open() {
        return NOT_READ;
    }
    let parent = &builder.opened[depth - 1];
    let near = &mut builder.buffers.seen.near;
    let Some(head) = head_of_run(text, start, run, &builder.tables, parent, near) else {
        if is_at(text, part, b':') {
            return element_repeating(text, start, builder, context, part);
        }
        return element_in_scope(text, start, builder, context, part);
    };
    let end = element_of_head(text, start, builder, context, head);
    if end <= MOST_BYTES {
        return end;
    }
    element_repeating(text, start, builder, context, part)
}
