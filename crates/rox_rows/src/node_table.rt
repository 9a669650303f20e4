//! The table of nodes.

ghost use Rattle.std.specs.Prelude.{◌≡◌, ◌<◌, ◌≤◌, ◌+◌, ◌-◌, ◌^◌, ◌∷◌, [], true, length, get_or, vec_len, vec_capacity, if◌then◌else◌, is_ok, IfOk, set, take};
ghost use Rattle.std.proofs.Props.{props};
ghost use Rattle.rox_rows.specs.StoredNodes as stored;
ghost use Rattle.rox_rows.specs.StoredNodes.{are_within, IsSmallKind};
ghost use Rattle.rox_rows.specs.declared.row.PI.{PI};
ghost use Rattle.rox_rows.specs.declared.row.NodeData.{NodeData};
ghost use Rattle.rox_rows.specs.declared.row.NodeKind.TheVariants as kind;
ghost use Rattle.rox_rows.specs.declared.stored_node.StoredNode.{StoredNode};
ghost use Rattle.rox_rows.specs.declared.stored_node.HighPlaces.{HighPlaces};

use crate::row::{NodeData, PI};
use crate::stored_node::{
    FIRST_HIGH, HighPlaces, KindRef, RowRef, StoredKind, StoredNode, high_half, kind_ref, low_half,
    owns_text, put_kind, small_kind, store_kind, whole_place,
};
use rox_growth::growth::{self, first_room, trim};
use std::alloc::{AllocError, Global};

/// The nodes of a text, in document order. What few nodes have is stored beside the rows, so that these are small. That is
/// processing instructions, and upper halves of offsets, which only texts of at least 4 GiB have.
pub struct NodeTable<'input> {
    pub rows: Vec<StoredNode<'input>>,
    pub instructions: Vec<PI<'input>>,
    /// The upper halves for the first rows. The offsets of all later rows have 32 bits.
    pub high: Vec<HighPlaces>,
    /// The number of the last row that owns a text, counted from 1, or 0.
    pub last_owned: u32,
    pub ghost short: { length high.items ≤ length rows.items },
    pub ghost chained: { length rows.items < 2 ^ 32 → stored.is_chain 0 0 last_owned rows.items ≡ true } by { Prim.hlevel props },
    pub ghost within: { are_within (length instructions.items) rows.items ≡ true } by { Prim.hlevel props },
}

/// The number of rows a table starts with if memory for more is refused.
const FEWEST_ROWS: usize = 16;

/// Returns the upper halves of the offsets of the row at `index`, which are 0 past the end of `high`. It is kept out of line,
/// since only texts of 4 GiB and more have any.
#[cold]
#[inline(never)]
fn high_places_at(high: &[HighPlaces], index: usize) -> HighPlaces
    ensures { result ≡ stored.high_at high.now index }
{
    if index < high.len() {
        return high[index];
    }
    HighPlaces { start: 0, end: 0 }
}

/// Like `high_places_at`. A loop over nodes asks once whether there are any.
#[inline(always)]
fn high_places(high: &[HighPlaces], index: usize) -> HighPlaces
    ensures { result ≡ stored.high_at high.now index }
{
    if high.is_empty() {
        return HighPlaces { start: 0, end: 0 };
    }
    high_places_at(high, index)
}

/// Returns the upper halves for the root node of a text of at least 4 GiB. `end` is the upper half of its length.
#[cold]
#[inline(never)]
fn high_with_root(alloc: Global, end: u32) -> Result<Vec<HighPlaces>, AllocError>
    ensures { IfOk result (λ high. high.items ≡ record { start = 0; end = end } ∷ []) }
{
    let mut high = Vec::with_capacity(alloc, 1)?;
    high.push_reserved(HighPlaces { start: 0, end });
    Ok(high)
}

/// Returns the upper halves for the root node of a text of `bytes` bytes: none if the text is shorter than 4 GiB.
#[inline(always)]
fn root_high(alloc: Global, bytes: usize) -> Result<Vec<HighPlaces>, AllocError>
    ensures { IfOk result (λ high. high.items ≡ stored.root_high bytes) }
{
    if bytes < FIRST_HIGH {
        return Ok(Vec::new(alloc));
    }
    high_with_root(alloc, high_half(bytes))
}

/// Appends upper halves of 0 until there are `count`, and makes room for one more.
#[cold]
#[inline(never)]
fn fill(high: &mut Vec<HighPlaces>, count: usize) -> Result<(), AllocError>
    requires { vec_len high.old ≤ count }
    ensures { stored.FillsHigh count high.old high.new result }
{
    while high.len() < count {
        growth::push(high, HighPlaces { start: 0, end: 0 })?;
    }
    high.reserve(1)?;
    Ok(())
}

/// Writes the lower half of an element's end into its row, and the id after its last descendant.
#[inline(always)]
fn end_stored(rows: &mut Vec<StoredNode<'_>>, row: u32, end: u32, subtree_end: u32)
    ensures { stored.ChangesRow row
        (λ (d : StoredNode). record d { end = end; subtree_end = subtree_end }) rows.old rows.new }
{
    if let Some(node) = rows.get_mut(row as usize) {
        node.end = end;
        node.subtree_end = subtree_end;
    }
}

/// Writes the upper half of an element's end, if its row has upper halves.
#[inline(always)]
fn end_high(high: &mut Vec<HighPlaces>, row: u32, end: u32)
    ensures { stored.ChangesRow row (λ (d : HighPlaces). record d { end = end }) high.old high.new }
{
    if let Some(places) = high.get_mut(row as usize) {
        places.end = end;
    }
}

/// Writes the number of all rows into the row of the root node.
fn close_stored(rows: &mut Vec<StoredNode<'_>>, count: u32)
    ensures { stored.ChangesRow 0
        (λ (d : StoredNode). record d { subtree_end = count }) rows.old rows.new }
{
    if let Some(node) = rows.get_mut(0) {
        node.subtree_end = count;
    }
}

/// Returns the number of the last row that owns a text after one more row. It was `last` before, with `count` rows.
#[inline(always)]
fn last_with(last: u32, owns: bool, count: usize) -> u32
    requires { count < 2 ^ 63 }
    ensures { count + 1 < 2 ^ 32 → result ≡ (if owns then count + 1 else last) }
{
    if owns {
        return low_half(count + 1);
    }
    last
}

/// Removes the last row and frees its text. Returns the number of the last remaining row that owns one.
fn take_last(rows: &mut Vec<StoredNode<'_>>, last: u32) -> u32
    ensures { stored.TakesLast last result rows.old rows.new }
{
    match rows.pop() {
        Some(row) => row.kind.freed(last),
        None => last,
    }
}

/// Frees the texts that rows own. `last` is the number of the last such row.
#[inline]
fn free_texts(rows: &mut [StoredNode<'_>], last: u32) {
    let mut number = last as usize;
    while number > 0 && number <= rows.len() {
        let kind = std::mem::replace(&mut rows[number - 1].kind, StoredKind::Root);
        let before = kind.freed(0) as usize;
        if before >= number {
            return;
        }
        number = before;
    }
}

impl Drop for NodeTable<'_> {
    fn drop(self) {
        let NodeTable {
            mut rows,
            instructions: _,
            high: _,
            last_owned,
        } = self;
        free_texts(&mut rows, last_owned);
    }
}

impl<'input> NodeTable<'input> {
    ghost use Rattle.rox_rows.specs.Rows.{node_rows};
    ghost use Rattle.rox_rows.specs.NodeChanges.{EndsNode, EndsRow, FitsNode, IsRootAlone, KeepsNodes, MakesNodeRoom, MayTakeLast, PushesNode, PutsNode};

    /// Returns a table with only the root node of a text of `bytes` bytes, and room for `room` rows. If that is refused and the
    /// table would not be small, it has room for `FEWEST_ROWS` (see `first_room`).
    #[inline(always)]
    pub fn of_text(
        alloc: Global,
        bytes: usize,
        room: usize,
    ) -> Result<NodeTable<'input>, AllocError>
        requires { 0 < room }
        ensures { IfOk result (IsRootAlone bytes) }
    {
        let mut rows = first_room(alloc, room, FEWEST_ROWS)?;
        // The row is pushed before the table exists: a value that is not borrowed need not lie in memory.
        rows.push_reserved(StoredNode {
            start: 0,
            end: low_half(bytes),
            parent: 0,
            subtree_end: 0,
            kind: StoredKind::Root,
        });
        let high = root_high(alloc, bytes)?;
        Ok(NodeTable {
            rows,
            instructions: Vec::new(alloc),
            high,
            last_owned: 0,
        })
    }

    /// Returns the number of nodes.
    #[inline(always)]
    pub fn len(&self) -> usize
        ensures rows { result ≡ vec_len self.now.rows }
        ensures nodes { result ≡ length (node_rows self.now) }
    {
        self.rows.len()
    }

    /// Returns how many more rows there is room for.
    #[inline(always)]
    pub fn room(&self) -> usize
        ensures { vec_len self.now.rows + result ≡ vec_capacity self.now.rows }
    {
        self.rows.capacity() - self.rows.len()
    }

    /// Returns the node with this index.
    #[inline(always)]
    pub fn row(&self, index: usize) -> RowRef<'_, 'input>
        requires { index < vec_len self.now.rows }
        ensures { stored.data_of result
            ≡ get_or (node_rows self.now) index (stored.data_of result) }
    {
        let row = &self.rows[index];
        let high = high_places(&self.high, index);
        RowRef {
            start: whole_place(row.start, high.start),
            end: whole_place(row.end, high.end),
            parent: row.parent,
            subtree_end: row.subtree_end,
            kind: kind_ref(&row.kind, &self.instructions),
        }
    }

    /// Returns the kind of a node from its row in this table.
    #[inline(always)]
    pub fn kind<'a>(&'a self, row: &'a StoredNode<'input>) -> KindRef<'a, 'input>
        ensures { stored.kind_of result
            ≡ stored.whole_kind self.now.instructions.items row.now.kind }
    {
        kind_ref(&row.kind, &self.instructions)
    }

    /// Returns where the text ends, in bytes: the end of the root node, which is the first row.
    fn text_end(&self) -> usize {
        if self.rows.is_empty() {
            return 0;
        }
        self.row(0).end
    }

    /// Makes room for more rows, estimated from those that there are. The next node is at `start..end`.
    #[cold]
    #[inline(never)]
    pub fn make_room(&mut self, start: usize, end: usize) -> Result<(), AllocError>
        ensures { MakesNodeRoom self.old self.new result }
    {
        let text_end = self.text_end();
        growth::make_room(&mut self.rows, start.max(end), text_end)
    }

    /// Appends a node. Its row needs no other table, and there is room for it.
    #[inline(always)]
    pub fn put(&mut self, row: NodeData<'input>)
        requires fits { FitsNode row self.old }
        requires small { IsSmallKind row.kind }
        ensures { PutsNode row.entry self.old self.new }
    {
        let owns = owns_text(&row.kind);
        let kind = small_kind(row.kind, self.last_owned);
        self.last_owned = last_with(self.last_owned, owns, self.rows.len());
        self.rows.push_reserved(StoredNode {
            start: row.start as u32,
            end: row.end as u32,
            parent: row.parent,
            subtree_end: row.subtree_end,
            kind,
        });
    }

    /// Returns whether there is room for one more processing instruction, except for its row.
    #[inline(always)]
    pub fn has_room_for_instruction(&self) -> bool
        ensures { result ≡ true
            → vec_len self.now.instructions < vec_capacity self.now.instructions }
    {
        self.instructions.len() < self.instructions.capacity()
    }

    /// Like `put`, but for a processing instruction: it is `instruction` in place of the kind of `row`. There is room for it.
    #[inline(always)]
    pub fn put_instruction(&mut self, row: NodeData<'input>, instruction: PI<'input>)
        requires fits { FitsNode row self.old }
        requires more { vec_len self.old.instructions < vec_capacity self.old.instructions }
        ensures { PutsNode (record row.entry { kind = kind.PI instruction.entry }) self.old
            self.new }
    {
        let kind = put_kind(&mut self.instructions, instruction);
        self.rows.push_reserved(StoredNode {
            start: row.start as u32,
            end: row.end as u32,
            parent: row.parent,
            subtree_end: row.subtree_end,
            kind,
        });
    }

    /// Appends a node. If memory is refused, the nodes stay as before.
    #[inline(always)]
    pub fn push(&mut self, row: NodeData<'input>) -> Result<(), AllocError>
        ensures { PushesNode row.entry (is_ok result) self.old self.new }
    {
        if self.rows.len() >= self.rows.capacity() {
            self.make_room(row.start, row.end)?;
        }
        if row.start >= FIRST_HIGH || row.end >= FIRST_HIGH {
            return self.push_high(row);
        }
        self.push_low(row)
    }

    /// Like `push`, but for a node whose offsets have no upper halves, with room for its row.
    #[inline(always)]
    fn push_low(&mut self, row: NodeData<'input>) -> Result<(), AllocError>
        requires { FitsNode row self.old }
        ensures { PushesNode row.entry (is_ok result) self.old self.new }
    {
        let owns = owns_text(&row.kind);
        let kind = store_kind(&mut self.instructions, row.kind, self.last_owned)?;
        self.last_owned = last_with(self.last_owned, owns, self.rows.len());
        self.rows.push_reserved(StoredNode {
            start: row.start as u32,
            end: row.end as u32,
            parent: row.parent,
            subtree_end: row.subtree_end,
            kind,
        });
        Ok(())
    }

    /// Like `push`, but for a node whose offsets may have upper halves, with room for its row.
    #[cold]
    #[inline(never)]
    fn push_high(&mut self, row: NodeData<'input>) -> Result<(), AllocError>
        requires { vec_len self.old.rows < vec_capacity self.old.rows }
        ensures { PushesNode row.entry (is_ok result) self.old self.new }
    {
        fill(&mut self.high, self.rows.len())?;
        let owns = owns_text(&row.kind);
        let kind = store_kind(&mut self.instructions, row.kind, self.last_owned)?;
        self.last_owned = last_with(self.last_owned, owns, self.rows.len());
        self.high.push_reserved(HighPlaces {
            start: high_half(row.start),
            end: high_half(row.end),
        });
        self.rows.push_reserved(StoredNode {
            start: low_half(row.start),
            end: low_half(row.end),
            parent: row.parent,
            subtree_end: row.subtree_end,
            kind,
        });
        Ok(())
    }

    /// Writes the end of an element into its row, and that all later rows are its descendants. There is room for the upper half
    /// of the end if it has one.
    #[inline(always)]
    pub fn put_end(&mut self, row: u32, end: usize)
        requires few { vec_len self.old.rows < 2 ^ 32 }
        requires room { vec_len self.old.high < vec_len self.old.rows → end < 2 ^ 32 }
        ensures { EndsNode row end self.old self.new }
    {
        let subtree_end = self.rows.len() as u32;
        end_stored(&mut self.rows, row, low_half(end), subtree_end);
        end_high(&mut self.high, row, high_half(end));
    }

    /// Like `put_end`, but for any end. If memory is refused, the nodes stay as before.
    #[inline(always)]
    pub fn end_row(&mut self, row: u32, end: usize) -> Result<(), AllocError>
        requires { vec_len self.old.rows < 2 ^ 32 }
        ensures { EndsRow row end self.old self.new result }
    {
        if end >= FIRST_HIGH {
            fill(&mut self.high, self.rows.len())?;
        }
        self.put_end(row, end);
        Ok(())
    }

    /// Writes the number of all rows into the row of the root node.
    pub fn end_root(&mut self, count: u32)
        ensures rows { (d : NodeData) → node_rows self.new ≡ set (node_rows self.old) 0
            (record (get_or (node_rows self.old) 0 d) { subtree_end = count }) }
        ensures len { vec_len self.new.rows ≡ vec_len self.old.rows }
    {
        close_stored(&mut self.rows, count);
    }

    /// Removes the last node if there are more than `count` nodes.
    pub fn truncate(&mut self, count: usize)
        requires { MayTakeLast count self.old }
        ensures rows { node_rows self.new ≡ take count (node_rows self.old) }
        ensures len { count ≤ vec_len self.old.rows → vec_len self.new.rows ≡ count }
        ensures capacity { vec_capacity self.new.rows ≡ vec_capacity self.old.rows }
    {
        if self.rows.len() <= count {
            return;
        }
        self.last_owned = take_last(&mut self.rows, self.last_owned);
        self.high.truncate(count);
    }

    /// Gives back the spare room of the rows if there is much of it.
    pub fn trim(&mut self)
        ensures { KeepsNodes self.old self.new }
    {
        trim(&mut self.rows);
    }
}
