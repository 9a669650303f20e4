//! Plain character data, read by the fast path: it refers to no entity but the predefined ones.

ghost use Rattle.std.specs.Prelude.{◌≡◌, true, slice_index, ◌+◌, slice_range};
ghost use Rattle.rox_sections.specs.PlainOutcomes.{MayReadRun, MayReadRunAt, ReadsRun, ReadsRunAt};
ghost use Rattle.rox_scan.specs.Lookahead.{IsLineRun};
ghost use Rattle.rox_storage.specs.Storage.{IsOwnText};

use crate::quick_sections::{MOST_BYTES, NOT_READ};
use rox_builder::builder::Builder;
use rox_bytes::runs::is_at;
use rox_scan::character_data::{changed_run_end, line_run_end, near_line_run_end, text_end};
use rox_scan::cursor::Cursor;
use rox_storage::storage::StringStorage;
use rox_values::character_data::changed_data;

/// Reads the character data at `start`, up to the next `<`, if it refers to no entity but the predefined ones and needs a
/// replacement: it has references or line ends other than LF. It is of the main text. Returns the offset after it, or `NOT_READ`. If
/// some named an entity before, more will, so the general step reads it.
#[inline(never)]
fn put_changed_data<'input>(text: &'input str, start: usize, builder: &mut Builder<'input>) -> usize
    requires { MayReadRunAt text.now start builder.old }
    ensures { ReadsRunAt (λ k. k.values.main ≡ true) text.entry.now start result builder.old builder.new }
{
    if builder.names_entities {
        return NOT_READ;
    }
    let Some(end) = changed_run_end(Cursor { text, pos: start }) else {
        return NOT_READ;
    };
    let is_before_markup = is_at(text, end, b'<');
    if !is_before_markup {
        return NOT_READ;
    }
    if builder.buffers.scratch.reserve(end - start).is_err() {
        builder.buffers.seen.lacking = true;
        return NOT_READ;
    }
    if !changed_data(text, start, end, &mut builder.buffers.scratch) {
        builder.names_entities = true;
        return NOT_READ;
    }
    let alloc = builder.alloc();
    let changed = builder.buffers.scratch.as_str();
    let Ok(owned) = builder.recent.owned(alloc, changed) else {
        builder.buffers.seen.lacking = true;
        return NOT_READ;
    };
    builder.put_text(start, end, owned);
    end
}

/// Puts the character data from `start` up to `end`, which is CR LF followed only by bytes that need no replacement. `owned` is its
/// text. Returns `end`.
#[inline(always)]
fn put_line<'input>(
    text: &'input str,
    start: usize,
    end: usize,
    owned: StringStorage<'input>,
    builder: &mut Builder<'input>,
) -> usize
    requires here { MayReadRunAt text.now start builder.old }
    requires run { IsLineRun text.now start end }
    requires behind { slice_index text.now end ≡ 60 }
    requires owned { IsOwnText (slice_range text.now (start + 1) end) owned }
    ensures { ReadsRunAt (λ k. k.values.main ≡ true) text.entry.now start result builder.old builder.new }
{
    builder.put_text(start, end, owned);
    end
}

/// Like `put_changed_data`, but first tests whether the character data is CR LF followed only by bytes that need no replacement,
/// as most that gets here is.
#[inline(never)]
fn put_new_line<'input>(text: &'input str, start: usize, builder: &mut Builder<'input>) -> usize
    requires { MayReadRunAt text.now start builder.old }
    ensures { ReadsRunAt (λ k. k.values.main ≡ true) text.entry.now start result builder.old builder.new }
{
    let Some(end) = line_run_end(Cursor { text, pos: start }) else {
        return put_changed_data(text, start, builder);
    };
    if !is_at(text, end, b'<') {
        return NOT_READ;
    }
    let alloc = builder.alloc();
    let Ok(owned) = builder.recent.owned(alloc, &text[start + 1..end]) else {
        builder.buffers.seen.lacking = true;
        return NOT_READ;
    };
    put_line(text, start, end, owned, builder)
}

/// Like `put_new_line`, but first looks for the text among those that were seen, if it is CR LF and a few bytes. Most lines that end
/// with CR LF are so. The other function is called last, so that this one saves no registers.
#[inline(never)]
fn put_line_end<'input>(text: &'input str, start: usize, builder: &mut Builder<'input>) -> usize
    requires { MayReadRunAt text.now start builder.old }
    ensures { ReadsRunAt (λ k. k.values.main ≡ true) text.entry.now start result builder.old builder.new }
{
    let Some(end) = near_line_run_end(Cursor { text, pos: start }) else {
        return put_new_line(text, start, builder);
    };
    let Some(shared) = builder.recent.shared(&text[start + 1..end]) else {
        return put_new_line(text, start, builder);
    };
    put_line(text, start, end, shared, builder)
}

/// Like `put_line_end`, but moves the cursor. Returns whether character data was read. Whether a CR is at the cursor is tested out
/// of line: a byte that is tested after a search would take the register of the text.
#[inline(always)]
fn read_line_end<'input>(cursor: &mut Cursor<'input>, builder: &mut Builder<'input>) -> bool
    requires { MayReadRun cursor.old builder.old }
    ensures { ReadsRun (λ k. k.values.main ≡ true) cursor.old cursor.new builder.old builder.new
        result }
{
    let end = put_line_end(cursor.text, cursor.pos, builder);
    if end > MOST_BYTES {
        return false;
    }
    cursor.pos = end;
    true
}

/// Reads character data of the main text, up to the next `<`, if it is a slice of the source, or what `put_line_end` reads. No text
/// is open that it would continue. Returns whether it was read.
#[inline(always)]
pub fn put_character_data<'input>(
    cursor: &mut Cursor<'input>,
    builder: &mut Builder<'input>,
) -> bool
    requires { MayReadRun cursor.old builder.old }
    ensures { ReadsRun (λ k. k.values.main ≡ true) cursor.old cursor.new builder.old builder.new
        result }
{
    let start = cursor.pos;
    let text = cursor.text;
    let Some(end) = text_end(text, start) else {
        return read_line_end(cursor, builder);
    };
    cursor.pos = end;
    builder.put_text(start, end, StringStorage::Borrowed(&text[start..end]));
    true
}
