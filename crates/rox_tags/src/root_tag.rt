//! The start tag of a root element by the fast path, with its declarations, read into the tables of its elements.

ghost use Rattle.std.specs.Prelude.{◌≡◌, [], IfOk, OnOk, length, slice_index, true, ◌<◌, ◌^◌, IsCharBoundary};
ghost use Rattle.rox_rows.specs.Rows.{attribute_rows};
ghost use Rattle.rox_names.specs.declared.tables.ElementTables.{ElementTables};
ghost use Rattle.rox_tags.specs.RootTag.{BeginsOwn, BeginsScopes, GivesRootTag, IsBlank, ReadsRootTag, TakesBack};
ghost use Rattle.rox_tags.specs.TagAttributes.{BeginsRoot, MayReadAttributes, ReadsAttributes};
ghost use Rattle.rox_values.specs.DeclaredEntities.{AreMainValues};

use crate::deferred_names::deferred_attributes;
use crate::own_declaration::{OWN, TagScope};
use crate::quick_tag::{PlainTag, TagEnd, namespace_in_scope, tag_attributes, tag_name};
use rox_bytes::byte_set::part_end;
use rox_bytes::runs::after_byte;
use rox_growth::growth::push;
use rox_names::start_tag::{Buffers, StartTag};
use rox_names::tables::ElementTables;
use rox_scopes::bindings::PrefixBindings;
use rox_scopes::namespace_table::NamespaceTable;
use rox_scopes::stored_scope::{Scope, Stretch};
use rox_starts::tag::element_of;
use rox_values::context::Context;
use rox_verbatim::quick_name::NamePlace;
use std::alloc::AllocError;

/// Appends the scope of a root element, which lists nothing yet, after that of the root node.
#[inline(always)]
fn begin_root(elements: &mut ElementTables<'_>) -> Result<(), AllocError>
    requires { length elements.old.scopes.items ≡ 1 }
    ensures { BeginsOwn elements.old elements.new result }
{
    // This row lists nothing already. It is written so that the proof knows the row itself.
    elements.scopes[0] = Scope::Few(Stretch { from: 0, until: 0 });
    push(
        &mut elements.scopes,
        Scope::Few(Stretch { from: 0, until: 0 }),
    )
}

/// Resets the scopes to that of the root node, with nothing declared.
#[cold]
#[inline(never)]
fn begin_scopes(elements: &mut ElementTables<'_>) -> Result<(), AllocError>
    ensures { BeginsScopes elements.old elements.new result }
{
    let alloc = *elements.scopes.allocator();
    elements.listed.clear();
    elements.scopes.clear();
    elements.present = PrefixBindings::new(alloc);
    push(
        &mut elements.scopes,
        Scope::Few(Stretch { from: 0, until: 0 }),
    )
}

/// Takes back what a tag has put into the tables, which had `attributes` attributes before it and no declarations.
#[cold]
#[inline(never)]
fn take_back(elements: &mut ElementTables<'_>, attributes: usize) -> Result<(), AllocError>
    ensures { TakesBack elements.old elements.new attributes result }
{
    elements.attributes.truncate(attributes);
    elements.namespaces = NamespaceTable::new(*elements.scopes.allocator());
    begin_scopes(elements)
}

/// Takes back what the tag of a root element has put into the tables, which had no attributes before it. They list the scope of
/// the element again, with nothing declared.
#[cold]
#[inline(never)]
fn begin_again(elements: &mut ElementTables<'_>) -> Result<(), AllocError>
    ensures begun { OnOk result (BeginsRoot elements.new) }
    ensures rows { attribute_rows elements.new.attributes ≡ [] }
{
    take_back(elements, 0)?;
    push(
        &mut elements.scopes,
        Scope::Few(Stretch { from: 0, until: 0 }),
    )
}

/// Like `root_attributes`, for a tag that `tag_attributes` did not read. The table had no attributes before it.
#[cold]
#[inline(never)]
fn attributes_again<'input>(
    text: &'input str,
    start: usize,
    elements: &mut ElementTables<'input>,
    context: &Context<'_, 'input>,
    buffers: &mut Buffers<'input>,
) -> Option<TagEnd>
    requires cut { IsCharBoundary text.now start }
    requires short { length text.now < 2 ^ 32 }
    ensures { (t : ElementTables) → BeginsRoot t
        → attribute_rows t.attributes ≡ []
        → ReadsAttributes (AreMainValues context.entry.now) t elements.new true 1 text.entry.now start result }
{
    if begin_again(elements).is_err() {
        buffers.seen.lacking = true;
        return None;
    }
    deferred_attributes(text, start, elements, context, buffers)
}

/// Reads the attributes and declarations of the tag of a root element from `start` up to its end, if they are plain. If a prefix is
/// declared after an attribute that uses it, they are read once more.
#[inline(always)]
fn root_attributes<'input>(
    text: &'input str,
    start: usize,
    elements: &mut ElementTables<'input>,
    context: &Context<'_, 'input>,
    buffers: &mut Buffers<'input>,
) -> Option<TagEnd>
    requires { MayReadAttributes text.now start elements.old true 1 }
    ensures { ReadsAttributes (AreMainValues context.entry.now) elements.old elements.new true 1 text.entry.now start
        result }
{
    let from = elements.attributes.len();
    let scope = TagScope {
        scope: OWN,
        declares: true,
        context,
    };
    if let Some(end) = tag_attributes(text, start, elements, scope, &mut buffers.seen) {
        return Some(end);
    }
    // Memory that was refused is not asked for again.
    if buffers.seen.lacking || from != 0 {
        return None;
    }
    attributes_again(text, start, elements, context, buffers)
}

/// Reads a start tag, from its `<`, of a child of the root node, if it is plain. It is in line, as its result would be moved
/// twice otherwise.
#[inline(always)]
fn root_tag<'input>(
    text: &'input str,
    start: usize,
    elements: &mut ElementTables<'input>,
    context: &Context<'_, 'input>,
    buffers: &mut Buffers<'input>,
) -> Option<PlainTag<'input>>
    requires here { slice_index text.now start ≡ 60 }
    requires short { length text.now < 2 ^ 32 }
    requires begins { BeginsRoot elements.old }
    ensures { ReadsRootTag (AreMainValues context.entry.now) elements.old elements.new text.entry.now start result }
{
    let name_start = after_byte(text, start, b'<');
    let part = part_end(text, name_start);
    let name = tag_name(text, NamePlace { start, part })?;
    let from = elements.attributes.len();
    let end = root_attributes(text, name.end, elements, context, buffers)?;
    let namespace = namespace_in_scope(elements, name.name, OWN)?;
    let element = element_of(elements, name.name.local, from, OWN, namespace);
    let tag = StartTag {
        name: name.name,
        name_start,
        name_end: name.end,
        element,
        empty: end.empty,
    };
    Some(PlainTag { tag, end: end.at })
}

/// Returns true only if nothing is declared yet.
#[inline(always)]
fn is_blank(elements: &ElementTables<'_>) -> bool
    ensures { result ≡ true → IsBlank elements.now }
{
    if elements.namespaces.as_slice().len() != 0 {
        return false;
    }
    if elements.listed.len() != 0 {
        return false;
    }
    if elements.scopes.len() != 1 {
        return false;
    }
    elements.present.is_of_none()
}

/// Reads the start tag of a root element, from its `<`, if nothing is declared yet and it is plain. If it returns `Ok(None)`,
/// the tables hold what they held.
#[inline(always)]
pub fn first_tag<'input>(
    text: &'input str,
    start: usize,
    elements: &mut ElementTables<'input>,
    context: &Context<'_, 'input>,
    buffers: &mut Buffers<'input>,
) -> Result<Option<PlainTag<'input>>, AllocError>
    requires { slice_index text.now start ≡ 60 }
    ensures { IfOk result
        (λ r. GivesRootTag (AreMainValues context.entry.now) elements.old elements.new text.entry.now start r) }
{
    if !is_blank(elements) || text.len() > u32::MAX as usize {
        return Ok(None);
    }
    let attributes = elements.attributes.len();
    begin_root(elements)?;
    if let Some(read) = root_tag(text, start, elements, context, buffers) {
        return Ok(Some(read));
    }
    // Memory that was refused is not asked for again.
    if buffers.seen.lacking {
        return Err(AllocError);
    }
    take_back(elements, attributes)?;
    Ok(None)
}
