//! The tables as they grow, and the open elements.

ghost use Rattle.std.specs.Prelude.{◌<◌, ◌≤◌, ◌+◌, ◌++◌, ◌^◌, ◌≡◌, ◌∷◌, [], ℕ, length, drop, vec_len, max, IfNone, IfOk, IfSome, OnOk};
ghost use Rattle.rox_rows.specs.declared.row.NodeData.{NodeData};
ghost use Rattle.rox_rows.specs.Rows.{node_rows, attribute_rows};
ghost use Rattle.rox_scopes.specs.declared.stored_scope.Scope.TheVariants as scope;
ghost use Rattle.rox_rows.specs.declared.row.NodeKind.TheVariants as kind;
ghost use Rattle.rox_names.specs.SpelledNames.{KeepsName, SpellsName};
ghost use Rattle.rox_builder.specs.PendingText.{waiting, written};

use crate::pending::{JoinedText, Pending};
use rox_grammar::failure::Failure;
use rox_grammar::fault::Fault;
use rox_growth::growth::push_with_room;
use rox_names::open_element::{LONG_NAME, OpenElement};
use rox_names::start_tag::{Buffers, StartTag};
use rox_names::tables::ElementTables;
use rox_rows::attributes::AttributeTable;
use rox_rows::node_table::NodeTable;
use rox_rows::row::{NodeData, NodeKind, PI};
use rox_scopes::bindings::PrefixBindings;
use rox_scopes::namespace_table::NamespaceTable;
use rox_scopes::stored_scope::{Scope, Stretch};
use rox_seen::recent_texts::Recent;
use rox_seen::seen_names::SeenNames;
use rox_values::context::MOST_WITHIN;
use std::alloc::{AllocError, Global};
use std::collections::BTreeSet;

/// The tables of what is read so far. The root node has row 0.
#[derive(Drop)]
pub struct Builder<'input> {
    /// The tables that a start tag is put into. They are the first field, so that their address is that of the builder.
    pub tables: ElementTables<'input>,
    pub nodes: NodeTable<'input>,
    /// The open elements, outermost first.
    pub opened: Vec<OpenElement<'input>>,
    pub pending: Pending,
    pub joined: JoinedText<'input>,
    pub buffers: Buffers<'input>,
    /// The owned texts that may repeat.
    pub recent: Recent,
    pub nodes_limit: u32,
    /// How many replacement texts may still be opened inside the one that is read.
    pub openings_left: u32,
    /// Whether the fast path met character data that is not for it, as it names an entity of the document.
    pub names_entities: bool,
    pub ghost few: { vec_len nodes.rows + waiting pending < 2 ^ 32 },
    pub ghost counted: { vec_len nodes.rows + waiting pending ≤ max 1 nodes_limit },
    pub ghost shallow: { vec_len opened + written pending < vec_len nodes.rows },
}

/// The number of elements that may be open before their table grows, more than most texts open. The table has 640 bytes then, a
/// size for which the C library caches free blocks. While the table is full, the general step reads each construct.
pub const ROOM_TO_OPEN: usize = 20;

/// The number of scopes for which there is room before their table grows: most texts have few.
const ROOM_FOR_SCOPES: usize = 4;

/// Returns a table with the scope of the root node, which lists nothing.
pub fn empty_scope(alloc: Global) -> Result<Vec<Scope>, AllocError>
    ensures ok { IfOk result (λ scopes. scopes.items ≡ Scope.Few (record { from = 0; until = 0 })
        ∷ []) }
{
    let mut scopes = Vec::with_capacity(alloc, ROOM_FOR_SCOPES)?;
    scopes.push_reserved(Scope::Few(Stretch { from: 0, until: 0 }));
    Ok(scopes)
}

/// What is allocated at the start: the row of the root node, its scope, which lists nothing, and no attribute yet.
#[derive(Drop)]
pub struct FirstTables<'input> {
    pub attributes: AttributeTable<'input>,
    pub scopes: Vec<Scope>,
    pub nodes: NodeTable<'input>,
    pub ghost none: { attribute_rows attributes ≡ [] },
    pub ghost root: { scopes.items ≡ scope.Few (record { from = 0; until = 0 }) ∷ [] },
    pub ghost one: { vec_len nodes.rows ≡ 1 },
}

/// Returns the bytes of a text from `start` on.
#[inline(always)]
fn from_place<'input>(text: &'input str, start: usize) -> &'input [u8]
    requires { start ≤ length text.now }
    ensures { result.now ≡ drop start text.entry.now }
{
    &text.as_bytes()[start..]
}

/// Returns the length in bytes of the name of a start tag, and the source that spells it, as an open element stores both.
#[inline(always)]
fn kept_name<'input>(text: &'input str, tag: &StartTag<'input>) -> (u32, &'input [u8])
    requires { SpellsName text.now tag.now }
    ensures { KeepsName text.entry.now tag.entry.now result.0 result.1.now }
{
    let count = tag.name_end - tag.name_start;
    if count < LONG_NAME as usize {
        return (count as u32, from_place(text, tag.name_start));
    }
    (LONG_NAME, &text.as_bytes()[tag.name_start..tag.name_end])
}

impl<'input> Builder<'input> {
    ghost use Rattle.std.specs.Prelude.{List, ◌-◌, true, Ok, Err, IfErr, vec_capacity};
    ghost use Rattle.rox_grammar.specs.declared.failure.Failure.TheVariants as failure;
    ghost use Rattle.rox_grammar.specs.declared.fault.Fault.TheVariants as fault;
    ghost use Rattle.rox_rows.specs.StoredNodes.{IsSmallKind};
    ghost use Rattle.rox_grammar.specs.Forest.{Forest};
    ghost use Rattle.rox_grammar.specs.Written.{Item, Element, merge, leaf};
    ghost use Rattle.rox_grammar.specs.State.{Open, root, is_root};
    ghost use Rattle.rox_reading.specs.Machine.{counted};
    ghost use Rattle.rox_builder.specs.BuilderState.{Represents, AreSound, IsReady, IsReadyTo, opened_in, last_row, tables_of};
    ghost use Rattle.rox_builder.specs.Outcomes.{AddsNode, OpensElement};
    ghost use Rattle.rox_builder.specs.Readiness.{IsApart, MayPutRow};
    ghost use Rattle.rox_builder.specs.Putting.{Closes, IsInnermostScope, IsOfRoot, KeepsRows, MayPutOpen, PutsLeaf, PutsOpen};
    ghost use Rattle.rox_names.specs.Tables.{HoldsTree};
    ghost use Rattle.rox_grammar.specs.Tree.{document_tree};
    ghost use Rattle.rox_names.specs.declared.open_element.OpenElement.{OpenElement};

    /// Returns the tables with the root node alone. No error is possible, so that they are built in place.
    #[inline(always)]
    pub fn of_root(alloc: Global, first: FirstTables<'input>, nodes_limit: u32) -> Builder<'input>
        ensures { IsOfRoot first.entry nodes_limit result }
    {
        let FirstTables {
            attributes,
            scopes,
            nodes,
        } = first;
        Builder {
            nodes,
            tables: ElementTables {
                attributes,
                namespaces: NamespaceTable::new(alloc),
                listed: Vec::new(alloc),
                scopes,
                present: PrefixBindings::new(alloc),
            },
            opened: Vec::new(alloc),
            pending: Pending::None,
            joined: JoinedText {
                text: String::new(alloc),
                slice: None,
                start: 0,
                end: 0,
            },
            buffers: Buffers {
                scratch: String::new(alloc),
                raw: String::new(alloc),
                taken: Vec::new(alloc),
                prefix_set: BTreeSet::new(alloc),
                seen: SeenNames::new(0),
            },
            recent: Recent::new(alloc),
            nodes_limit,
            openings_left: MOST_WITHIN,
            names_entities: false,
        }
    }

    /// Returns the allocator of the tables.
    #[inline(always)]
    pub fn alloc(&self) -> Global {
        *self.opened.allocator()
    }

    /// Returns whether no element is open.
    #[inline]
    pub fn is_at_root(&self) -> bool
        ensures { (end : ℕ) (stack : Open) (done : Forest Item) → Represents end stack done self.now
            → result ≡ is_root stack }
    {
        self.opened.is_empty()
    }

    /// Returns the row of the innermost open element, or of the root node.
    #[inline]
    pub fn parent(&self) -> u32
        ensures { result ≡ last_row (opened_in self.now.tables self.now.opened.items) }
    {
        match self.opened.last() {
            Some(element) => element.row,
            None => 0,
        }
    }

    /// Returns the scope of the innermost open element, or of the root node.
    #[inline]
    pub fn scope(&self) -> u32
        ensures { IsInnermostScope self.now result }
    {
        match self.opened.last() {
            Some(element) => element.scope,
            None => 0,
        }
    }

    /// Returns the innermost open element, if one is open.
    #[inline(always)]
    pub fn innermost(&self) -> Option<OpenElement<'input>>
        ensures some { IfSome result (λ o. (outer : List OpenElement)
            × (self.entry.now.opened.items ≡ outer ++ o ∷ [])) }
        ensures none { IfNone result (self.now.opened.items ≡ []) }
    {
        match self.opened.last() {
            Some(element) => Some(*element),
            None => None,
        }
    }

    /// Returns the number of nodes, including a text that waits for its row.
    #[inline]
    fn count(&self) -> usize
        ensures { result ≡ vec_len self.now.nodes.rows + waiting self.now.pending }
    {
        match self.pending {
            Pending::Joined => self.nodes.len() + 1,
            _ => self.nodes.len(),
        }
    }

    /// Returns an error exactly if one more node would be too many.
    #[inline(always)]
    pub(crate) fn room(&self) -> Result<(), Failure>
        ensures ok { OnOk result
            (vec_len self.now.nodes.rows + waiting self.now.pending < self.now.nodes_limit) }
        ensures few { OnOk result
            (vec_len self.now.nodes.rows + waiting self.now.pending + 1 < 2 ^ 32) }
        ensures err { IfErr result (λ e. (e ≡ failure.Fault fault.NodesLimitReached)
            × (self.now.nodes_limit ≤ vec_len self.now.nodes.rows + waiting self.now.pending)) }
    {
        if self.count() >= self.nodes_limit as usize {
            return Err(Failure::Fault(Fault::NodesLimitReached));
        }
        Ok(())
    }

    /// Returns the next row, of a node without descendants, whose parent is the row `parent`. This is the row of the innermost
    /// open element, or of the root node.
    #[inline(always)]
    fn row_below(
        &self,
        parent: u32,
        start: usize,
        end: usize,
        kind: NodeKind<'input>,
    ) -> NodeData<'input>
        requires small { vec_len self.now.nodes.rows + 1 < 2 ^ 32 }
        requires parent { parent ≡ last_row (opened_in self.now.tables self.now.opened.items) }
        ensures { result ≡ record {
          start = start;
          end = end;
          parent = last_row (opened_in self.now.tables self.now.opened.items);
          subtree_end = length (node_rows self.now.nodes) + 1;
          kind = kind.entry;
        } }
    {
        NodeData {
            start,
            end,
            parent,
            subtree_end: self.nodes.len() as u32 + 1,
            kind,
        }
    }

    /// Like `row_below`, but finds the parent's row itself.
    #[inline(always)]
    pub(crate) fn row(&self, start: usize, end: usize, kind: NodeKind<'input>) -> NodeData<'input>
        requires { vec_len self.now.nodes.rows + 1 < 2 ^ 32 }
        ensures { result ≡ record {
          start = start;
          end = end;
          parent = last_row (opened_in self.now.tables self.now.opened.items);
          subtree_end = length (node_rows self.now.nodes) + 1;
          kind = kind.entry;
        } }
    {
        self.row_below(self.parent(), start, end, kind)
    }

    /// Appends a node that is not a text and has no descendants. The only fault is that there are too many nodes.
    #[inline(always)]
    pub fn leaf(&mut self, start: usize, end: usize, kind: NodeKind<'input>) -> Result<(), Failure>
        ensures { AddsNode self.old self.new result start end kind.entry }
    {
        self.flush()?;
        self.room()?;
        let row = self.row(start, end, kind);
        self.nodes.push(row)?;
        Ok(())
    }

    /// Opens an element at `start`. The only fault is that there are too many nodes.
    #[inline(always)]
    pub fn open_element(
        &mut self,
        text: &'input str,
        start: usize,
        tag: &StartTag<'input>,
    ) -> Result<(), Failure>
        requires { SpellsName text.now tag.now }
        ensures { OpensElement self.old self.new result text.now start tag.now }
    {
        self.flush()?;
        self.room()?;
        let row = self.nodes.len() as u32;
        let mut opening = self.row(start, 0, NodeKind::Element(tag.element));
        opening.subtree_end = 0;
        self.nodes.push(opening)?;
        let (name_count, source) = kept_name(text, tag);
        let element = OpenElement {
            row,
            scope: tag.element.scope,
            name_count,
            namespace: tag.element.namespace,
            prefixed: !tag.name.prefix.is_empty(),
            source,
        };
        push_with_room(&mut self.opened, element, ROOM_TO_OPEN)?;
        Ok(())
    }

    /// Closes the innermost open element at `end`.
    #[inline(always)]
    pub fn close(&mut self, end: usize) -> Result<(), AllocError>
        ensures { Closes self.old self.new result end }
    {
        self.flush()?;
        if let Some(element) = self.opened.pop() {
            self.nodes.end_row(element.row, end)?;
        }
        Ok(())
    }

    /// Returns how many more rows there is room for if no text waits for its row, and 0 otherwise.
    #[inline]
    pub fn rows_left(&self) -> usize
        ensures { (n : ℕ) → 0 < n → n ≤ result → IsReady n self.now }
    {
        if let Pending::Joined = self.pending {
            return 0;
        }
        let permitted = (self.nodes_limit as usize).saturating_sub(self.nodes.len());
        self.nodes.room().min(permitted)
    }

    /// Makes room for the rows of what is read from `at` on, if there are fewer than two left.
    #[inline(never)]
    pub fn make_room(&mut self, at: usize) -> Result<(), AllocError>
        ensures { KeepsRows self.old self.new }
    {
        if self.nodes.room() < 2 {
            self.nodes.make_room(at, at)?;
        }
        Ok(())
    }

    /// Returns whether there is room for one more open element.
    #[inline(always)]
    pub fn has_room_to_open(&self) -> bool
        ensures { result ≡ true → vec_len self.now.opened < vec_capacity self.now.opened }
    {
        self.opened.len() < self.opened.capacity()
    }

    /// Puts a node that is not a text and has no descendants. There is room for its row. Its parent is the row `parent`, that of
    /// the innermost open element or of the root node.
    #[inline(always)]
    pub fn put_leaf(&mut self, parent: u32, start: usize, end: usize, kind: NodeKind<'input>)
        requires row { MayPutRow self.old parent start }
        requires end { end < 2 ^ 32 }
        requires small { IsSmallKind kind }
        ensures { PutsLeaf self.old self.new start end kind.entry }
    {
        self.settle();
        let row = self.row_below(parent, start, end, kind);
        self.nodes.put(row);
    }

    /// Like `put_leaf`, but puts a processing instruction, for which there is room in its own table too.
    #[inline(always)]
    pub fn put_instruction(&mut self, start: usize, end: usize, instruction: PI<'input>)
        requires ready { IsReady 1 self.old }
        requires start { start < 2 ^ 32 }
        requires end { end < 2 ^ 32 }
        requires more { vec_len self.old.nodes.instructions < vec_capacity
            self.old.nodes.instructions }
        ensures { PutsLeaf self.old self.new start end (kind.PI instruction.entry) }
    {
        self.settle();
        let row = self.row(start, end, NodeKind::Root);
        self.nodes.put_instruction(row, instruction);
    }

    /// Opens an element at `start`, for which there is room. Its parent is the row `parent`, that of the innermost open element
    /// or of the root node.
    #[inline(always)]
    pub fn put_open(&mut self, parent: u32, text: &'input str, start: usize, tag: &StartTag<'input>)
        requires { MayPutOpen self.old parent text.now start tag.now }
        ensures { PutsOpen self.old self.new text.now start tag.now }
    {
        self.settle();
        let row = self.nodes.len() as u32;
        let mut opening = self.row_below(parent, start, 0, NodeKind::Element(tag.element));
        opening.subtree_end = 0;
        self.nodes.put(opening);
        let source = from_place(text, tag.name_start);
        self.opened.push_reserved(OpenElement {
            row,
            scope: tag.element.scope,
            name_count: (tag.name_end - tag.name_start) as u32,
            namespace: tag.element.namespace,
            prefixed: !tag.name.prefix.is_empty(),
            source,
        });
    }

    /// Closes the innermost open element at `end`. No text waits for its row.
    #[inline(always)]
    pub fn put_close(&mut self, end: usize)
        requires settled { waiting self.old.pending ≡ 0 }
        requires short { end < 2 ^ 32 }
        ensures closes { Closes self.old self.new (Ok tt) end }
        ensures ready { (most : ℕ) → IsReadyTo most self.old → IsApart most self.new }
    {
        self.settle();
        if let Some(element) = self.opened.pop() {
            self.nodes.put_end(element.row, end);
        }
    }

    /// Ends the text: writes the text node that waits, ends the row of the root node, and frees unused room.
    #[inline(always)]
    pub fn end(&mut self) -> Result<(), AllocError>
        ensures ok { OnOk result ((end : ℕ) (done : Forest Item)
            → Represents end root done self.old → AreSound self.old.tables
            → HoldsTree (tables_of self.new) (document_tree end (merge done))) }
    {
        self.flush()?;
        let count = self.nodes.len() as u32;
        self.nodes.end_root(count);
        self.nodes.trim();
        self.tables.attributes.trim();
        Ok(())
    }
}
