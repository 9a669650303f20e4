//! A node as its table stores it.

ghost use Rattle.std.specs.Prelude.{◌≡◌, ◌+◌, ◌*◌, ◌/◌, ◌^◌, ◌<◌, vec_len, vec_capacity, ℕ, List, true, false, if◌then◌else◌};
ghost use Rattle.rox_storage.specs.Storage.{is_borrowed};
ghost use Rattle.rox_rows.specs.StoredNodes as stored;
ghost use Rattle.rox_rows.specs.declared.row.PI.{PI};
ghost use Rattle.rox_rows.specs.declared.row.NodeKind.TheVariants as kind;
ghost use Rattle.rox_rows.specs.declared.stored_node.HighPlaces.{HighPlaces};
ghost use Rattle.rox_rows.specs.declared.stored_node.StoredNode.{StoredNode};

use crate::row::{ElementData, NodeKind, PI};
use rox_growth::growth::push;
use rox_storage::storage::StringStorage;
use std::alloc::AllocError;
use std::mem::ManuallyDrop;

/// The kind of a node: 32 bytes. A text is not dropped with its row. So a table need not visit each row to find the few that own
/// a text: it frees them along a chain. The number before a text is that of the last earlier row that owns one, counted from 1,
/// or 0.
#[derive(Drop)]
pub enum StoredKind<'input> {
    /// An element: the number of its namespace, its scope, its local name, and the range of its attributes.
    Element(u16, u32, &'input str, u32, u32),
    /// An index into the table of processing instructions.
    Instruction(usize),
    Root,
    Text(u32, ManuallyDrop<StringStorage<'input>>),
    Comment(u32, ManuallyDrop<StringStorage<'input>>),
}

/// A node: 48 bytes. `start` and `end` are the lower halves of its offsets.
#[derive(Drop)]
pub struct StoredNode<'input> {
    pub start: u32,
    pub end: u32,
    pub parent: u32,
    pub subtree_end: u32,
    pub kind: StoredKind<'input>,
}

impl<'input> StoredNode<'input> {
    /// Returns whether the node is an element. It reads the kind alone, so a loop over many nodes takes one test for each.
    #[inline(always)]
    pub fn is_element(&self) -> bool
        ensures { (pis : List PI)
            → result ≡ stored.is_element (stored.whole_kind pis self.now.kind) }
    {
        match &self.kind {
            StoredKind::Element(_, _, _, _, _) => true,
            _ => false,
        }
    }

    /// Returns whether the node is a text node.
    #[inline(always)]
    pub fn is_text(&self) -> bool
        ensures { (pis : List PI)
            → result ≡ stored.is_text (stored.whole_kind pis self.now.kind) }
    {
        match &self.kind {
            StoredKind::Text(_, _) => true,
            _ => false,
        }
    }
}

impl<'input> StoredKind<'input> {
    /// Frees the text of this row. Returns the number of the earlier row that owns one if this row owned its text, otherwise
    /// `last`.
    pub(crate) fn freed(self, last: u32) -> u32
        ensures { result ≡ (if stored.owns self.entry then stored.previous self.entry else last) }
    {
        match self {
            StoredKind::Text(previous, text) | StoredKind::Comment(previous, text) => {
                match ManuallyDrop::into_inner(text) {
                    StringStorage::Owned(_) => previous,
                    StringStorage::Borrowed(_) => last,
                }
            }
            _ => last,
        }
    }
}

/// The upper halves of the offsets of a node.
#[derive(Clone, Copy)]
pub struct HighPlaces {
    pub start: u32,
    pub end: u32,
}

/// The kind of a node, with its text borrowed.
#[derive(Clone, Copy)]
pub enum KindRef<'a, 'input> {
    Root,
    Element(ElementData<'input>),
    Text(&'a StringStorage<'input>),
    Comment(&'a StringStorage<'input>),
    PI(PI<'input>),
}

/// A node as its table returns it.
#[derive(Clone, Copy)]
pub struct RowRef<'a, 'input> {
    pub start: usize,
    pub end: usize,
    pub parent: u32,
    pub subtree_end: u32,
    pub kind: KindRef<'a, 'input>,
}

/// The lowest offset whose upper half is not 0.
pub(crate) const FIRST_HIGH: usize = 4294967296;

/// Returns the offset with these two halves.
#[inline(always)]
pub(crate) fn whole_place(low: u32, high: u32) -> usize
    ensures { result ≡ high * 2 ^ 32 + low }
{
    high as usize * FIRST_HIGH + low as usize
}

/// Returns the lower half of an offset.
#[inline(always)]
pub(crate) fn low_half(place: usize) -> u32
    ensures { place ≡ (place / 2 ^ 32) * 2 ^ 32 + result }
{
    (place % FIRST_HIGH) as u32
}

/// Returns the upper half of an offset.
#[inline(always)]
pub(crate) fn high_half(place: usize) -> u32
    ensures { result ≡ place / 2 ^ 32 }
{
    (place / FIRST_HIGH) as u32
}

/// Returns whether a node owns a text.
#[inline(always)]
pub(crate) fn owns_text(kind: &NodeKind<'_>) -> bool
    ensures { result ≡ stored.owns_text kind.now }
{
    match kind {
        NodeKind::Text(StringStorage::Owned(_)) | NodeKind::Comment(StringStorage::Owned(_)) =>
            true,
        _ => false,
    }
}

/// Returns the number to store before a text: `last` if the text is owned, otherwise 0. `last` is the number of the last row that
/// owns one.
#[inline(always)]
fn number_before(text: &StringStorage<'_>, last: u32) -> u32
    ensures { is_borrowed text.now ≡ false → result ≡ last }
{
    match text {
        StringStorage::Owned(_) => last,
        StringStorage::Borrowed(_) => 0,
    }
}

/// Returns the stored kind of an element.
#[inline(always)]
fn stored_element<'input>(element: ElementData<'input>) -> StoredKind<'input>
    ensures { (pis : List PI) (last : ℕ)
        → stored.Stores pis last (kind.Element element.entry) result }
{
    let ElementData {
        local,
        attributes_from,
        attributes_until,
        scope,
        namespace,
    } = element;
    StoredKind::Element(namespace, scope, local, attributes_from, attributes_until)
}

/// Returns the stored kind of a node that is not a processing instruction. `last` is the number of the last row that owns a text.
#[inline(always)]
pub(crate) fn small_kind<'input>(kind: NodeKind<'input>, last: u32) -> StoredKind<'input>
    requires { stored.IsSmallKind kind }
    ensures { (pis : List PI) → stored.Stores pis last kind.entry result }
{
    match kind {
        NodeKind::Root | NodeKind::PI(_) => StoredKind::Root,
        NodeKind::Element(element) => stored_element(element),
        NodeKind::Text(text) => {
            let previous = number_before(&text, last);
            StoredKind::Text(previous, ManuallyDrop::new(text))
        }
        NodeKind::Comment(text) => {
            let previous = number_before(&text, last);
            StoredKind::Comment(previous, ManuallyDrop::new(text))
        }
    }
}

/// Returns the stored kind of a node. A processing instruction is appended to `instructions`. `last` is the number of the last
/// row that owns a text.
#[inline(always)]
pub(crate) fn store_kind<'input>(
    instructions: &mut Vec<PI<'input>>,
    kind: NodeKind<'input>,
    last: u32,
) -> Result<StoredKind<'input>, AllocError>
    ensures { stored.StoresKind last kind.entry instructions.old.items instructions.new.items
        result }
{
    match kind {
        NodeKind::PI(instruction) => {
            let place = instructions.len();
            push(instructions, instruction)?;
            Ok(StoredKind::Instruction(place))
        }
        NodeKind::Root => Ok(StoredKind::Root),
        NodeKind::Element(element) => Ok(stored_element(element)),
        NodeKind::Text(text) => {
            let previous = number_before(&text, last);
            Ok(StoredKind::Text(previous, ManuallyDrop::new(text)))
        }
        NodeKind::Comment(text) => {
            let previous = number_before(&text, last);
            Ok(StoredKind::Comment(previous, ManuallyDrop::new(text)))
        }
    }
}

/// Returns the stored kind of a processing instruction, which is appended to `instructions`. There is room for it.
#[inline(always)]
pub(crate) fn put_kind<'input>(
    instructions: &mut Vec<PI<'input>>,
    instruction: PI<'input>,
) -> StoredKind<'input>
    requires { vec_len instructions.old < vec_capacity instructions.old }
    ensures { stored.PutsKind instruction.entry instructions.old.items instructions.new.items
        result }
{
    let place = instructions.len();
    instructions.push_reserved(instruction);
    StoredKind::Instruction(place)
}

/// Returns the kind of a node from its stored kind and the table of processing instructions.
#[inline(always)]
pub(crate) fn kind_ref<'a, 'input>(
    kind: &'a StoredKind<'input>,
    instructions: &[PI<'input>],
) -> KindRef<'a, 'input>
    ensures { stored.kind_of result ≡ stored.whole_kind instructions.now kind.now }
{
    match kind {
        StoredKind::Root => KindRef::Root,
        StoredKind::Element(namespace, scope, local, attributes_from, attributes_until) => {
            KindRef::Element(ElementData {
                local,
                attributes_from: *attributes_from,
                attributes_until: *attributes_until,
                scope: *scope,
                namespace: *namespace,
            })
        }
        StoredKind::Text(_, text) => KindRef::Text(text),
        StoredKind::Comment(_, text) => KindRef::Comment(text),
        StoredKind::Instruction(place) => {
            if *place < instructions.len() {
                return KindRef::PI(instructions[*place]);
            }
            KindRef::Root
        }
    }
}
