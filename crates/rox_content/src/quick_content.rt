//! Plain constructs of content, read by the fast path one after another: what `quick_data`, `quick_elements` and `quick_sections`
//! read. Nothing fails here: the general step reads a construct that is not plain, or finds no room, from its first byte.

ghost use Rattle.std.specs.Prelude.{◌≡◌, true, ◌<◌, ℕ};
ghost use Rattle.rox_builder.specs.Outcomes.{MayStep};
ghost use Rattle.rox_values.specs.Contexts.{IsContextOf};
ghost use Rattle.rox_content.specs.PlainElements.{IsMainContext};
ghost use Rattle.rox_sections.specs.PlainOutcomes.{MayReadPlain, ReadsRows, ReadsStep, StandsApart};
ghost use Rattle.rox_builder.specs.BuilderState.{IsReady, IsConsistent, IsReadyTo};

use crate::quick_elements::{close_element, element, element_of_name};
use rox_builder::builder::Builder;
use rox_bytes::byte_set::{PartByte, find_run};
use rox_bytes::runs::{after_byte, is_at};
use rox_scan::cursor::Cursor;
use rox_sections::quick_data::put_character_data;
use rox_sections::quick_sections::{MOST_BYTES, put_delimited};
use rox_values::context::Context;

/// Returns true only if no text is open that character data at the cursor would continue.
#[inline(always)]
fn stands_apart(cursor: &Cursor<'_>, builder: &Builder<'_>) -> bool
    ensures { result ≡ true → StandsApart cursor.now builder.now }
{
    is_at(cursor.text, cursor.pos, b'<') || !builder.is_text_open()
}

/// Reads what `<` starts in the main text, if it is plain and finds room. Returns false if nothing was read.
#[inline]
#[tactic(auto, unfolding(rox_reading::specs::Machine::step))]
fn quick_markup<'input>(
    cursor: &mut Cursor<'input>,
    builder: &mut Builder<'input>,
    context: &Context<'_, 'input>,
) -> bool
    requires { MayReadPlain cursor.old builder.old }
    ensures reads { ReadsStep (IsMainContext context.entry.now) cursor.old cursor.new builder.old
        builder.new result }
    ensures ready { result ≡ true → (most : ℕ) → IsReadyTo most builder.old
        → IsReadyTo most builder.new }
    ensures apart { result ≡ true → StandsApart cursor.new builder.new }
    ensures moves { result ≡ true → cursor.old.pos < cursor.new.pos }
{
    let bytes = cursor.text.as_bytes();
    if cursor.pos + 1 >= bytes.len() {
        return false;
    }
    let next = bytes[cursor.pos + 1];
    let text = cursor.text;
    let start = cursor.pos;
    if next <= b'?' {
        if next == b'/' {
            return close_element(cursor, builder, context.open_around);
        }
        let behind = put_delimited(text, start, builder);
        if behind > MOST_BYTES {
            return false;
        }
        cursor.pos = behind;
        return true;
    }
    let name = after_byte(text, start, b'<');
    let Some(run) = find_run::<PartByte>(text, name) else {
        return false;
    };
    let near = run.at;
    if element_of_name(cursor, builder, near) {
        return true;
    }
    let end = element(text, start, builder, context, run);
    if end > MOST_BYTES {
        return false;
    }
    cursor.pos = end;
    true
}

/// Reads the constructs from the cursor on inside the root element, as long as they are plain, if the text is the main text. It
/// stops when fewer than two of `rows` rows are left. Returns whether any was read.
#[inline(always)]
pub fn quick_constructs<'input>(
    cursor: &mut Cursor<'input>,
    builder: &mut Builder<'input>,
    context: &Context<'_, 'input>,
    rows: usize,
) -> bool
    requires ready { 0 < rows → IsReady rows builder.old }
    requires fine { IsConsistent builder.old.tables builder.old.opened.items }
    ensures { ReadsRows (IsContextOf context.entry.now) cursor.old cursor.new builder.old builder.new
        result }
{
    let mut here = *cursor;
    if !context.main {
        return false;
    }
    if cursor.text.len() > MOST_BYTES {
        return false;
    }
    // No text is open after markup, so one test is enough.
    if !stands_apart(&here, builder) {
        return false;
    }
    // Character data and the markup after it take at most one row each.
    let most = builder.nodes.len() + rows;
    let from = here.pos;
    while builder.nodes.len() + 1 < most {
        if builder.is_at_root() {
            break;
        }
        let bytes = here.text.as_bytes();
        if here.pos >= bytes.len() {
            break;
        }
        if bytes[here.pos] != b'<' {
            if !put_character_data(&mut here, builder) {
                break;
            }
        }
        if !quick_markup(&mut here, builder, context) {
            break;
        }
    }
    *cursor = here;
    here.pos > from
}

/// Like `quick_markup`, but in a replacement text, where it reads no start tag: few replacement texts have tags, and the values of
/// attributes are read in another way there.
#[tactic(auto, unfolding(rox_reading::specs::Machine::step))]
fn markup_of_text<'input>(
    cursor: &mut Cursor<'input>,
    builder: &mut Builder<'input>,
    around: usize,
) -> bool
    requires { MayReadPlain cursor.old builder.old }
    ensures { ReadsStep (λ k. k.open_around ≡ around) cursor.old cursor.new builder.old builder.new
        result }
{
    let bytes = cursor.text.as_bytes();
    if cursor.pos + 1 >= bytes.len() {
        return false;
    }
    let next = bytes[cursor.pos + 1];
    if next == b'/' {
        return close_element(cursor, builder, around);
    }
    if next > b'?' {
        return false;
    }
    let stop = put_delimited(cursor.text, cursor.pos, builder);
    if stop > MOST_BYTES {
        return false;
    }
    cursor.pos = stop;
    true
}

/// Reads the markup of a replacement text at the cursor, if it is plain and finds room. Returns false if nothing was read.
#[inline(always)]
pub fn quick_markup_of_text<'input>(
    cursor: &mut Cursor<'input>,
    builder: &mut Builder<'input>,
    open_around: usize,
) -> bool
    requires { MayStep cursor.old builder.old }
    ensures { ReadsStep (λ k. k.open_around ≡ open_around) cursor.old cursor.new builder.old
        builder.new result }
{
    let bytes = cursor.text.as_bytes();
    if bytes.len() > MOST_BYTES || builder.rows_left() == 0 {
        return false;
    }
    if bytes[cursor.pos] != b'<' {
        return false;
    }
    markup_of_text(cursor, builder, open_around)
}
