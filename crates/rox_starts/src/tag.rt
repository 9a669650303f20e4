//! Start tags: attributes and declarations, each tested in order (XML 1.0 section 3.1, Namespaces in XML 1.0).

ghost use Rattle.std.specs.Prelude.{◌≡◌, ◌<◌, ◌^◌, List, length, map, IfOk, ◌+◌, ◌≤◌, slice_index};
ghost use Rattle.rox_grammar.specs.Failures.{name_view};
ghost use Rattle.rox_starts.specs.ElementRow.{IsElementFrom, MakesElement, ReadsStartTag};
ghost use Rattle.rox_starts.specs.TagReadiness.{MayResolve, MayReadBelow};
ghost use Rattle.rox_markup.specs.Views.{attribute_view};
ghost use Rattle.rox_grammar.specs.Entities.{Entity};
ghost use Rattle.rox_values.specs.DeclaredEntities.{AreDeclared, values_in};
ghost use Rattle.rox_values.specs.Values.{piece_view};
ghost use Rattle.rox_names.specs.TagDeclarations.{unresolved_view};
ghost use Rattle.rox_starts.specs.TagState.{IsReadingTag, GivesAttribute, ReadsAttributes, ReadsTagPart, TakesAttribute, IsStored, value_of};
ghost use Rattle.rox_scan.specs.Views.{HasValue};
ghost use Rattle.rox_rows.specs.Rows.{attribute_rows};
ghost use Rattle.rox_grammar.specs.Document.{most_attributes};

use rox_compare::compare::same_text;
use rox_grammar::failure::Failure;
use rox_grammar::fault::Fault;
use rox_grammar::name::QName;
use rox_growth::growth::push_with_room;
use rox_markup::tag::{TagItem, tag_item};
use rox_names::namespace_decl::{declare_namespace, is_namespace_decl};
use rox_names::resolve::{element_namespace, resolve};
use rox_names::start_tag::{Buffers, StartTag};
use rox_names::tables::ElementTables;
use rox_names::tag_scope::scope_of_tag;
use rox_names::unresolved_attribute::UnresolvedAttribute;
use rox_rows::row::{ElementData, namespace_number};
use rox_scan::cursor::Cursor;
use rox_scan::raw_attribute::RawAttribute;
use rox_scopes::scope::few_places;
use rox_scopes::stored_scope::OwnDeclarations;
use rox_storage::storage::StringStorage;
use rox_values::attribute_value::value;
use rox_values::context::Context;
use rox_values::parse_error::ParseError;
use rox_values::text_value::TextValue;
use std::alloc::{AllocError, Global};

/// The maximum number of attributes in a document.
pub const MOST_ATTRIBUTES: usize = 4294967294;

/// The number of attributes for which the buffer of a tag gets room with its first.
pub const ROOM_OF_A_TAG: usize = 11;

/// Returns the storage of a text: borrowed if it is a slice of the source, otherwise a copy of `scratch`.
#[inline]
fn stored<'input>(
    alloc: Global,
    piece: TextValue<'input>,
    scratch: &str,
) -> Result<StringStorage<'input>, AllocError>
    ensures { IfOk result (λ s. IsStored (piece_view piece.entry scratch.now) s) }
{
    match piece {
        TextValue::Plain(text) => Ok(StringStorage::Borrowed(text)),
        TextValue::Changed => StringStorage::new_owned(alloc, scratch),
    }
}

/// Returns the length of a text in bytes, which is always less than 2^63.
#[inline]
fn byte_count(text: &str) -> usize
    ensures value { result ≡ length text.now }
    ensures small { length text.now < 2 ^ 63 }
{
    let bytes = text.as_bytes();
    bytes.len()
}

/// The context of a start tag. `above` is the scope of its parent. `cut` is the fault if the text ends right after its name or an
/// attribute. `openings_left` is how many replacement texts may be opened in it.
#[derive(Clone, Copy)]
pub struct TagContext {
    pub above: u32,
    pub cut: Fault,
    pub openings_left: u32,
}

/// The context of a start tag whose name is read. `own` is the index of the first place that the tag lists.
#[derive(Clone, Copy)]
struct OpenTag {
    own: usize,
    cut: Fault,
    openings_left: u32,
}

/// Returns the attribute or declaration `raw`, which ends at the cursor, with its value. The number returned is how many
/// replacement texts may be opened after it; `openings_left` could be opened before it.
fn unresolved<'input>(
    alloc: Global,
    cursor: &Cursor<'input>,
    raw: &RawAttribute<'input>,
    context: Context<'_, 'input>,
    openings_left: u32,
    scratch: &mut String,
) -> Result<(UnresolvedAttribute<'input>, u32), ParseError<'input>>
    requires value { HasValue cursor.now.text.now raw.now }
    requires placed { raw.now.start < 2 ^ 63 }
    requires end { cursor.now.pos ≡ raw.now.value_end + 1 }
    ensures { (es : List Entity) → AreDeclared es context.entry.entities.now
        → GivesAttribute (attribute_view raw.now) result
        (value_of (values_in es context.entry) cursor.now.text.now
        (attribute_view raw.now) openings_left) }
{
    let (piece, openings_left) = value(cursor.text, raw, context, openings_left, scratch)?;
    let value = stored(alloc, piece, scratch.as_str())?;
    let one = UnresolvedAttribute {
        start: raw.start,
        name_end: raw.name_end,
        value_start: raw.value_start,
        end: cursor.pos,
        name: raw.name,
        value,
    };
    Ok((one, openings_left))
}

/// The next item of a start tag. `One` is an attribute or a declaration, and how many replacement texts may be opened after it.
/// `End` is the end of the tag, and whether the tag is empty.
#[derive(Drop)]
pub enum TagPart<'input> {
    One(UnresolvedAttribute<'input>, u32),
    End(bool),
}

/// Reads the next item of a start tag, in which `openings_left` replacement texts may be opened.
#[inline(always)]
fn tag_part<'input>(
    alloc: Global,
    cursor: &mut Cursor<'input>,
    context: Context<'_, 'input>,
    openings_left: u32,
    scratch: &mut String,
) -> Result<TagPart<'input>, ParseError<'input>>
    ensures { ReadsTagPart context.entry cursor.old cursor.new openings_left result }
{
    // The length is not used: the contract of the call bounds offsets for the proof.
    let small = byte_count(cursor.text);
    match tag_item(cursor)? {
        TagItem::More(raw) => {
            let (one, left) = unresolved(alloc, cursor, &raw, context, openings_left, scratch)?;
            Ok(TagPart::One(one, left))
        }
        TagItem::Open => Ok(TagPart::End(false)),
        TagItem::Empty => Ok(TagPart::End(true)),
    }
}

/// Puts the attribute or declaration `one` into the tables and buffers of its tag, whose declarations so far are `own`. Returns
/// whether the tag declares `xml` now.
fn add_attribute<'input>(
    elements: &mut ElementTables<'input>,
    buffers: &mut Buffers<'input>,
    own: OwnDeclarations,
    one: UnresolvedAttribute<'input>,
) -> Result<bool, Failure>
    requires { IsReadingTag elements.old buffers.old.prefix_set.keys own.from }
    ensures { TakesAttribute elements.old elements.new buffers.old buffers.new own
        (unresolved_view one.entry) result }
{
    if is_namespace_decl(one.name) {
        let xml = declare_namespace(
            &mut elements.namespaces,
            &mut elements.listed,
            &mut buffers.prefix_set,
            own.from,
            own.xml,
            one,
        )?;
        return Ok(xml);
    }
    push_with_room(&mut buffers.taken, one, ROOM_OF_A_TAG)?;
    Ok(own.xml)
}

/// Reads the attributes and declarations of a tag, up to its end. Returns whether the tag declares `xml`, whether it is empty,
/// and how many replacement texts may be opened after it.
#[inline(always)]
#[tactic(auto, unfolding(rox_reading::specs::Tags::attributes_at))]
fn attributes<'input>(
    cursor: &mut Cursor<'input>,
    elements: &mut ElementTables<'input>,
    buffers: &mut Buffers<'input>,
    tag: OpenTag,
    context: Context<'_, 'input>,
) -> Result<(bool, bool, u32), ParseError<'input>>
    requires { IsReadingTag elements.old buffers.old.prefix_set.keys tag.own }
    ensures { ReadsAttributes context.entry tag cursor.old cursor.new elements.old elements.new
        buffers.old buffers.new result }
{
    let alloc = *elements.attributes.items.allocator();
    let mut xml = false;
    let mut openings_left = tag.openings_left;
    let count = byte_count(cursor.text);
    'attributes: for _turn in 0..count {
        if cursor.is_at_end() {
            return Err(ParseError::Fault(tag.cut));
        }
        match tag_part(alloc, cursor, context, openings_left, &mut buffers.scratch)? {
            TagPart::One(one, left) => {
                let own = OwnDeclarations { from: tag.own, xml };
                xml = add_attribute(elements, buffers, own, one)?;
                openings_left = left;
            }
            TagPart::End(empty) => return Ok((xml, empty, openings_left)),
        }
    }
    Err(ParseError::Fault(tag.cut))
}

/// Returns the data of an element in the scope `scope`. Its attributes are those from the row `from` on, and `namespace` is the
/// number of its namespace.
#[inline(always)]
pub fn element_of<'input>(
    elements: &ElementTables<'input>,
    local: &'input str,
    from: usize,
    scope: u32,
    namespace: u16,
) -> ElementData<'input>
    requires within { from ≤ length (attribute_rows elements.now.attributes) }
    requires few { length (attribute_rows elements.now.attributes) ≤ most_attributes }
    ensures { IsElementFrom elements.entry.now local.entry from scope namespace result }
{
    ElementData {
        local,
        attributes_from: from as u32,
        attributes_until: elements.attributes.len() as u32,
        scope,
        namespace,
    }
}

/// Returns the data of an element in the scope `scope`, once its names are tested. Its attributes are put into the table. Its
/// name is at `at`.
#[inline(always)]
fn element_data<'input>(
    elements: &mut ElementTables<'input>,
    taken: &mut Vec<UnresolvedAttribute<'input>>,
    name: QName<'input>,
    at: usize,
    scope: u32,
) -> Result<ElementData<'input>, Failure>
    requires { MayResolve elements.old scope at }
    ensures { MakesElement elements.old elements.new scope at (name_view name.entry)
        (map unresolved_view taken.old.items) result }
{
    let alloc = *elements.attributes.items.allocator();
    let from = elements.attributes.len();
    if taken.len() > MOST_ATTRIBUTES - from {
        return Err(Failure::Fault(Fault::AttributesLimitReached));
    }
    let few = few_places(&elements.scopes, &elements.listed, scope);
    resolve(
        alloc,
        elements.namespaces.as_slice(),
        few,
        &elements.present,
        taken,
        &mut elements.attributes,
    )?;
    let namespace = element_namespace(
        elements.namespaces.as_slice(),
        few,
        &elements.present,
        name,
        at,
    )?;
    let number = namespace_number(namespace);
    Ok(element_of(elements, name.local, from, scope, number))
}

/// Reads a start tag, from its `<`, in the context `around`. The number returned is how many replacement texts may be opened
/// after it.
#[tactic(auto, unfolding(rox_reading::specs::Tags::tag_at))]
pub fn start_tag<'input>(
    cursor: &mut Cursor<'input>,
    elements: &mut ElementTables<'input>,
    buffers: &mut Buffers<'input>,
    around: TagContext,
    context: Context<'_, 'input>,
) -> Result<(StartTag<'input>, u32), ParseError<'input>>
    requires there { cursor.old.pos < length cursor.old.text.now }
    requires here { slice_index cursor.old.text.now cursor.old.pos ≡ 60 }
    requires below { MayReadBelow elements.old around.above }
    ensures { ReadsStartTag context.entry around cursor.old cursor.new elements.old elements.new
        result }
{
    // The length is not used: the contract of the call bounds offsets for the proof.
    let small = byte_count(cursor.text);
    cursor.advance();
    let name_start = cursor.pos;
    let name = cursor.qname()?;
    let name_end = cursor.pos;
    if same_text(name.prefix, "xmlns") {
        return Err(ParseError::Fault(Fault::InvalidElementNamePrefix(name_start)));
    }
    let own = elements.listed.len();
    let open = OpenTag {
        own,
        cut: around.cut,
        openings_left: around.openings_left,
    };
    buffers.taken.clear();
    let (xml, empty, openings_left) = attributes(cursor, elements, buffers, open, context)?;
    let declared = OwnDeclarations { from: own, xml };
    let scope = scope_of_tag(elements, &buffers.prefix_set, around.above, declared)?;
    let element = element_data(elements, &mut buffers.taken, name, name_start, scope)?;
    let tag = StartTag {
        name,
        name_start,
        name_end,
        element,
        empty,
    };
    Ok((tag, openings_left))
}
