//! Text nodes: adjacent pieces of character data are one text. While it may continue, it waits for its row, or has a row, which
//! is taken back if a piece joins it.

ghost use Rattle.std.specs.Prelude.{◌<◌, ◌≤◌, ◌+◌, ◌≡◌, ◌≢◌, [], ℕ, List, length, is_some, IfOk, OnOk, string_bytes, ◌^◌, vec_len};
ghost use Rattle.rox_rows.specs.StoredNodes.{kind_of};
ghost use Rattle.rox_rows.specs.declared.row.NodeKind.TheVariants as kind;
ghost use Rattle.rox_builder.specs.TakenText.{MayTakeLast, TakesLast};
ghost use Rattle.rox_builder.specs.PendingText.{waiting, written, text_of};
ghost use Rattle.rox_storage.specs.Storage.{storage_bytes, is_borrowed};
ghost use Rattle.rox_builder.specs.declared.pending.Pending.TheVariants as pending;
ghost use Rattle.rox_values.specs.Values.{IsItsSlice, piece_view};

use crate::builder::Builder;
use crate::pending::Pending;
use rox_bytes::runs::is_at;
use rox_grammar::failure::Failure;
use rox_rows::node_table::NodeTable;
use rox_rows::row::NodeKind;
use rox_rows::stored_node::KindRef;
use rox_seen::recent_texts::Recent;
use rox_storage::storage::StringStorage;
use rox_values::text_value::TextValue;
use std::alloc::{AllocError, Global};

/// The range of a text, in bytes of its source.
#[derive(Clone, Copy)]
struct TextRange {
    start: usize,
    end: usize,
}

/// Puts the text of a text node into the buffer `joined`, which is cleared first.
fn start_joined(joined: &mut String, kind: KindRef<'_, '_>) -> Result<(), AllocError>
    ensures ok { OnOk result (string_bytes joined.new ≡ text_of (kind_of kind.entry)) }
{
    joined.clear();
    if let KindRef::Text(before) = kind {
        joined.push_str(before.as_str())?;
    }
    Ok(())
}

/// Removes the last row, which is a text, and puts its text and `text` into the buffer. Returns the range of the row's text. If
/// memory runs out, the rows are unchanged.
#[cold]
#[inline(never)]
fn join_last(
    nodes: &mut NodeTable<'_>,
    joined: &mut String,
    text: &str,
) -> Result<TextRange, AllocError>
    requires { MayTakeLast nodes.old }
    ensures { TakesLast nodes.old nodes.new (string_bytes joined.new) text.now result }
{
    let last = nodes.len() - 1;
    let row = nodes.row(last);
    let range = TextRange {
        start: row.start,
        end: row.end,
    };
    start_joined(joined, row.kind)?;
    joined.push_str(text)?;
    nodes.truncate(last);
    Ok(range)
}

/// Returns the storage of the text `text`, which is the slice `slice` of the source if there is one.
#[inline(always)]
fn storage_of<'input>(
    alloc: Global,
    recent: &mut Recent,
    slice: Option<&'input str>,
    text: &str,
) -> Result<StringStorage<'input>, AllocError>
    ensures borrowed { IfOk result (λ t. is_borrowed t ≡ is_some slice.entry) }
    ensures bytes { IsItsSlice slice.entry text.now → IfOk result (λ t. storage_bytes t ≡ text.now) }
{
    match slice {
        Some(slice) => Ok(StringStorage::Borrowed(slice)),
        None => recent.owned(alloc, text),
    }
}

impl<'input> Builder<'input> {
    ghost use Rattle.std.specs.Prelude.{◌-◌, false, true, Ok};
    ghost use Rattle.rox_grammar.specs.Forest.{Forest};
    ghost use Rattle.rox_grammar.specs.State.{Open};
    ghost use Rattle.rox_grammar.specs.Written.{Item, Text};
    ghost use Rattle.rox_reading.specs.State.{State};
    ghost use Rattle.rox_reading.specs.Machine.{with_piece};
    ghost use Rattle.rox_builder.specs.DataParts.{HasPart};
    ghost use Rattle.rox_builder.specs.BuilderState.{Represents, RepresentsFlushed, Adds, IsReady, IsReadyTo, KeepsOpen};
    ghost use Rattle.rox_builder.specs.Outcomes.{AddsText, Flushes};
    ghost use Rattle.rox_builder.specs.Putting.{AddsWaiting, EndsRun, JoinsText};

    /// Writes the text that may continue, if there is one.
    #[inline(always)]
    pub(crate) fn flush(&mut self) -> Result<(), AllocError>
        ensures { Flushes self.old self.new result }
    {
        match self.pending {
            Pending::None => Ok(()),
            Pending::Written => {
                self.pending = Pending::None;
                Ok(())
            }
            Pending::Joined => self.flush_joined(),
        }
    }

    /// Writes the text in the buffer.
    #[inline(never)]
    fn flush_joined(&mut self) -> Result<(), AllocError>
        requires { self.old.pending ≡ pending.Joined }
        ensures { Flushes self.old self.new result }
    {
        let alloc = self.alloc();
        let joined = &self.joined;
        let text = storage_of(alloc, &mut self.recent, joined.slice, joined.text.as_str())?;
        let row = self.row(self.joined.start, self.joined.end, NodeKind::Text(text));
        self.pending = Pending::None;
        self.nodes.push(row)?;
        Ok(())
    }

    /// Ends character data at `at`: a text that waits gets its row, if no text can continue there.
    #[inline(always)]
    pub fn end_run(&mut self, text: &str, at: usize) -> Result<(), AllocError>
        requires { at ≤ length text.now }
        ensures { EndsRun self.old self.new result }
    {
        if !self.is_joining() {
            return Ok(());
        }
        // A CDATA section, which may start with the `<!` there, continues the text.
        if !is_at(text, at, b'<') || is_at(text, at + 1, b'!') {
            return Ok(());
        }
        self.flush_joined()?;
        self.pending = Pending::Written;
        Ok(())
    }

    /// Joins a piece of text to the text that may continue, which then waits for its row.
    #[inline(always)]
    pub fn join_piece(&mut self, piece: TextValue<'input>) -> Result<(), AllocError>
        requires { self.old.pending ≢ pending.None }
        ensures { JoinsText self.old self.new result (piece_view piece.entry (string_bytes self.old.buffers.scratch)) }
    {
        let text = piece.text_in(self.buffers.scratch.as_str());
        if let Pending::Joined = self.pending {
            self.joined.text.push_str(text)?;
            self.joined.slice = None;
            return Ok(());
        }
        let range = join_last(&mut self.nodes, &mut self.joined.text, text)?;
        self.joined.start = range.start;
        self.joined.end = range.end;
        self.joined.slice = None;
        self.pending = Pending::Joined;
        Ok(())
    }

    /// Begins a part of character data, which is put into the buffer of the text that waits, if one does. Returns the length of
    /// the buffer in bytes.
    #[inline(always)]
    pub fn begin_part(&mut self) -> usize
        requires { written self.old.pending ≡ 0 }
        ensures { HasPart result [] self.old self.new }
    {
        if let Pending::None = self.pending {
            self.joined.text.clear();
        }
        self.joined.text.len()
    }

    /// Adds the bytes of the buffer from `before` on as a piece of text, unless there are none. The only fault is that there are
    /// too many nodes.
    #[inline(always)]
    pub fn end_part(&mut self, before: usize, start: usize, end: usize) -> Result<(), Failure>
        ensures value { (total : ℕ) (s : State) (bs : List ℕ) (b : Builder)
            → Represents total s.stack s.done b → HasPart before bs b self.old
            → Adds total result self.new (with_piece self.old.nodes_limit s start end bs) }
        ensures kept { KeepsOpen self.old self.new }
    {
        if self.joined.text.len() == before {
            return Ok(());
        }
        self.joined.slice = None;
        match self.pending {
            Pending::None => {
                self.room()?;
                self.joined.start = start;
                self.joined.end = end;
                self.pending = Pending::Joined;
            }
            Pending::Written => {}
            Pending::Joined => {}
        }
        Ok(())
    }

    /// Adds a piece of text: a slice of the source, or otherwise what the buffer for values holds. The only fault is that there
    /// are too many nodes.
    #[inline(always)]
    pub fn piece(
        &mut self,
        start: usize,
        end: usize,
        piece: TextValue<'input>,
    ) -> Result<(), Failure>
        ensures { let text = piece_view piece.entry (string_bytes self.old.buffers.scratch) in
            AddsText self.old self.new result (Text start end text.value text.borrowed) }
    {
        if self.is_text_open() {
            self.join_piece(piece)?;
            return Ok(());
        }
        self.room()?;
        let alloc = self.alloc();
        let text = piece.text_in(self.buffers.scratch.as_str());
        let stored = storage_of(alloc, &mut self.recent, piece.slice(), text)?;
        let row = self.row(start, end, NodeKind::Text(stored));
        self.nodes.push(row)?;
        self.pending = Pending::Written;
        Ok(())
    }

    /// Adds a piece of text as `piece` does, but a text that it starts waits for its row. Returns false, with the builder unchanged,
    /// if there are too many nodes. It fails only if memory runs out.
    #[inline(always)]
    pub fn waiting_piece(
        &mut self,
        start: usize,
        end: usize,
        piece: TextValue<'input>,
    ) -> Result<bool, AllocError>
        ensures { let text = piece_view piece.entry (string_bytes self.old.buffers.scratch) in
            AddsWaiting self.old self.new result (Text start end text.value text.borrowed) }
    {
        if self.is_text_open() {
            self.join_piece(piece)?;
            return Ok(true);
        }
        if self.nodes.len() >= self.nodes_limit as usize {
            return Ok(false);
        }
        let text = piece.text_in(self.buffers.scratch.as_str());
        self.joined.text.clear();
        self.joined.text.push_str(text)?;
        self.joined.slice = piece.slice();
        self.joined.start = start;
        self.joined.end = end;
        self.pending = Pending::Joined;
        Ok(true)
    }

    /// Returns whether a text waits in the buffer for its row.
    #[inline(always)]
    pub(crate) fn is_joining(&self) -> bool
        ensures { result ≡ true → self.now.pending ≡ pending.Joined }
    {
        match self.pending {
            Pending::Joined => true,
            _ => false,
        }
    }

    /// Returns whether a text that has its row may continue.
    #[inline(always)]
    pub fn is_written(&self) -> bool
        ensures { result ≡ false → written self.now.pending ≡ 0 }
    {
        match self.pending {
            Pending::Written => true,
            _ => false,
        }
    }

    /// Returns whether a text may continue.
    #[inline(always)]
    pub fn is_text_open(&self) -> bool
        ensures yes { result ≡ true → self.now.pending ≢ pending.None }
        ensures no { result ≡ false → self.now.pending ≡ pending.None }
    {
        match self.pending {
            Pending::None => false,
            _ => true,
        }
    }

    /// Ends the text that may continue. No text waits for its row.
    #[inline(always)]
    pub(crate) fn settle(&mut self)
        requires { waiting self.old.pending ≡ 0 }
        ensures ok { (end : ℕ) (stack : Open) (done : Forest Item)
            → Represents end stack done self.old → RepresentsFlushed end stack done self.new }
        ensures nodes { self.new.nodes ≡ self.old.nodes }
        ensures kept { KeepsOpen self.old self.new }
        ensures empty { self.new.pending ≡ pending.None }
    {
        self.pending = Pending::None;
    }

    /// Puts a text. No text may continue, and there is room for its row.
    #[inline(always)]
    pub fn put_text(&mut self, start: usize, end: usize, text: StringStorage<'input>)
        requires ready { IsReady 1 self.old }
        requires apart { self.old.pending ≡ pending.None }
        requires start { start < 2 ^ 32 }
        requires end { end < 2 ^ 32 }
        ensures adds { AddsText self.old self.new (Ok tt)
            (Text start end (storage_bytes text.entry) (is_borrowed text.entry)) }
        ensures rows { vec_len self.new.nodes.rows ≡ vec_len self.old.nodes.rows + 1 }
        ensures ready { (most : ℕ) → IsReadyTo most self.old → IsReadyTo most self.new }
    {
        let row = self.row(start, end, NodeKind::Text(text));
        self.nodes.put(row);
        self.pending = Pending::Written;
    }
}
