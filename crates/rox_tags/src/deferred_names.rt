//! The attributes and declarations of the tag of a root element by the fast path, if an attribute uses a prefix that the tag declares
//! after it. The names are resolved at the end of the tag (Namespaces in XML 1.0 section 6.1).

ghost use Rattle.std.specs.Prelude.{◌≡◌, ◌<◌, ◌≤◌, [], true, length, slice_index, IfSome, IsCharBoundary};
ghost use Rattle.rox_grammar.specs.Document.{most_attributes};
ghost use Rattle.rox_rows.specs.Rows.{attribute_rows};
ghost use Rattle.rox_attributes.specs.PlainAttribute.{HasScope};
ghost use Rattle.rox_tags.specs.DeferredNames.{ResolvesTaken, TakesPlain, TakesUpTo};
ghost use Rattle.rox_tags.specs.TagAttributes.{MayReadAttributes, ReadsAttributes};
ghost use Rattle.rox_values.specs.DeclaredEntities.{AreMainValues};

use crate::own_declaration::{OWN, may_declare, put_declaration};
use crate::quick_tag::{TagEnd, next_item, tag_end};
use rox_attributes::quick_attribute::any_attribute;
use rox_bytes::byte_set::{PartByte, skip_set};
use rox_grammar::failure::Failure;
use rox_growth::growth::push_with_room;
use rox_names::namespace_decl::is_namespace_decl;
use rox_names::resolve::resolve;
use rox_names::start_tag::Buffers;
use rox_names::tables::ElementTables;
use rox_names::unresolved_attribute::UnresolvedAttribute;
use rox_scopes::scope::few_places;
use rox_starts::tag::{MOST_ATTRIBUTES, ROOM_OF_A_TAG};
use rox_values::context::Context;
use rox_verbatim::quick_name::NamePlace;

/// Appends the attribute at `start` to `taken` of the buffers. Returns the offset after it, or `None` if it is not plain or
/// declares a namespace. Sets `lacking` if memory was refused.
#[inline(always)]
fn take_attribute<'input>(
    text: &'input str,
    start: usize,
    context: &Context<'_, 'input>,
    buffers: &mut Buffers<'input>,
) -> Option<usize>
    requires cut { IsCharBoundary text.now start }
    requires begins { 62 < slice_index text.now start }
    ensures { IfSome result (λ j. TakesPlain (AreMainValues context.entry.now) text.entry.now start j
        buffers.old.taken.items buffers.new.taken.items) }
{
    let part = skip_set::<PartByte>(text, start);
    let one = any_attribute(text, NamePlace { start, part }, context, &mut buffers.seen)?;
    if is_namespace_decl(one.name) {
        return None;
    }
    let end = one.end;
    if push_with_room(&mut buffers.taken, one, ROOM_OF_A_TAG).is_err() {
        buffers.seen.lacking = true;
        return None;
    }
    Some(end)
}

/// Reads the attributes and declarations of the tag of a root element from `start` up to its end, if they are plain. The
/// declarations are in the tables then, and the attributes in `taken` of the buffers.
#[inline(always)]
fn taken_end<'input>(
    text: &'input str,
    start: usize,
    elements: &mut ElementTables<'input>,
    context: &Context<'_, 'input>,
    buffers: &mut Buffers<'input>,
) -> Option<TagEnd>
    requires may { MayReadAttributes text.now start elements.old true 1 }
    requires none { buffers.old.taken.items ≡ [] }
    ensures { TakesUpTo (AreMainValues context.entry.now) elements.old elements.new text.entry.now start
        buffers.new.taken.items result }
{
    let mut at = start;
    while at + 1 < text.len() {
        let next = next_item(text, at);
        if !next.may_begin {
            return tag_end(text, next.at);
        }
        if may_declare(text, next.at) {
            at = put_declaration(text, next.at, elements, context, &mut buffers.seen)?;
        } else {
            at = take_attribute(text, next.at, context, buffers)?;
        }
    }
    None
}

/// Puts the attributes `taken` into the table, with their namespaces in the scope of the root element. Returns false if a prefix is
/// not known, if two attributes have the same expanded name, if they are too many, or if memory is refused, which sets `lacking`.
#[inline(always)]
fn put_taken<'input>(
    elements: &mut ElementTables<'input>,
    taken: &mut Vec<UnresolvedAttribute<'input>>,
    lacking: &mut bool,
) -> bool
    requires { HasScope elements.old 1 }
    ensures others { elements.new ≡ record elements.old { attributes = elements.new.attributes } }
    ensures resolves { result ≡ true → ResolvesTaken elements.old elements.new taken.old.items }
    ensures few { result ≡ true → length (attribute_rows elements.new.attributes) ≤ most_attributes }
{
    let alloc = *elements.attributes.items.allocator();
    let Some(places) = few_places(&elements.scopes, &elements.listed, OWN) else {
        return false;
    };
    let namespaces = elements.namespaces.as_slice();
    let attributes = &mut elements.attributes;
    match resolve(
        alloc,
        namespaces,
        Some(places),
        &elements.present,
        taken,
        attributes,
    ) {
        Ok(()) => elements.attributes.len() <= MOST_ATTRIBUTES,
        Err(Failure::Fault(_)) => false,
        Err(Failure::Memory) => {
            *lacking = true;
            false
        }
    }
}

/// Reads the attributes and declarations of the tag of a root element, like `tag_attributes`, if the table has no attributes yet.
/// A prefix may be declared after an attribute that uses it. `taken` of the buffers is cleared first.
#[inline(always)]
pub fn deferred_attributes<'input>(
    text: &'input str,
    start: usize,
    elements: &mut ElementTables<'input>,
    context: &Context<'_, 'input>,
    buffers: &mut Buffers<'input>,
) -> Option<TagEnd>
    requires { MayReadAttributes text.now start elements.old true 1 }
    ensures { ReadsAttributes (AreMainValues context.entry.now) elements.old elements.new true 1 text.entry.now start
        result }
{
    if elements.attributes.len() != 0 {
        return None;
    }
    buffers.taken.clear();
    let end = taken_end(text, start, elements, context, buffers)?;
    let (seen, taken) = (&mut buffers.seen, &mut buffers.taken);
    if !put_taken(elements, taken, &mut seen.lacking) {
        return None;
    }
    Some(end)
}
