//! Declarations of the tag of a root element, by the fast path, while they are few. Its scope lists them (Namespaces in XML 1.0
//! section 3).

ghost use Rattle.std.specs.Prelude.{◌≡◌, IfSome, length, true, IsCharBoundary};
ghost use Rattle.rox_tags.specs.TagAttributes.{AreOfMainText, DeclaresOwn, HasXmlns, IsDeclaredName, IsDeclaration, IsNearDeclaration, ListsOwn, ListsDeclaration};
ghost use Rattle.rox_values.specs.DeclaredEntities.{AreMainValues};
ghost use Rattle.rox_seen.specs.SeenNames.{KeepsCodes};

use rox_attributes::quick_attribute::any_attribute;
use rox_bytes::byte_set::{PartByte, ValueByte, skip_set};
use rox_bytes::runs::{after_byte, is_at};
use rox_names::namespace_decl::{declare_new, is_namespace_decl};
use rox_names::tables::ElementTables;
use rox_names::unresolved_attribute::UnresolvedAttribute;
use rox_scopes::prefix_set::FEW;
use rox_scopes::stored_scope::{Scope, Stretch};
use rox_seen::seen_names::SeenNames;
use rox_storage::storage::StringStorage;
use rox_values::context::Context;
use rox_verbatim::quick_name::{NameAt, NamePlace, name_without_prefix, prefixed_name};
use rox_verbatim::quick_space::one_space_end;
use rox_verbatim::quick_value::{quote_after_equals, quote_before, unchanged_value};

/// The scope of a root element: the one after that of the root node.
pub const OWN: u32 = 1;

/// The scope of a start tag, and the context of the text. Only the tag of a root element may declare namespaces, and its scope is
/// then `OWN`.
#[derive(Clone, Copy)]
pub struct TagScope<'t, 'e, 'input> {
    pub scope: u32,
    pub declares: bool,
    pub context: &'t Context<'e, 'input>,
}

/// Returns true only if `xmlns` is at `at`, and a byte follows it.
#[inline(always)]
pub(crate) fn may_declare(text: &str, at: usize) -> bool
    ensures { result ≡ true → HasXmlns text.now at }
{
    let bytes = text.as_bytes();
    at < bytes.len()
        && bytes.len() - at > 5
        && bytes[at] == b'x'
        && bytes[at + 1] == b'm'
        && bytes[at + 2] == b'l'
        && bytes[at + 3] == b'n'
        && bytes[at + 4] == b's'
}

/// Returns true only if the tag may declare namespaces, and `xmlns` is at `at` with a byte after it.
#[inline(always)]
pub fn declares_at(text: &str, at: usize, tag: TagScope<'_, '_, '_>) -> bool
    ensures declares { result ≡ true → tag.entry.declares ≡ true }
    ensures here { result ≡ true → HasXmlns text.now at }
{
    tag.declares && may_declare(text, at)
}

/// Returns the name of the declaration that starts with the `xmlns` at `start`, if `=` and a quote are right after it. The byte
/// after `xmlns` shows whether that is its prefix or all of it.
#[inline(always)]
fn declared_name<'input>(text: &'input str, start: usize) -> Option<NameAt<'input>>
    requires { HasXmlns text.now start }
    ensures { IfSome result (λ n. IsDeclaredName text.entry.now start n) }
{
    let part = start + 5;
    if is_at(text, part, b':') {
        return prefixed_name(text, start, part);
    }
    if quote_after_equals(text, part) == 0 {
        return None;
    }
    Some(name_without_prefix(text, start, part))
}

/// Returns the declaration that starts with the `xmlns` at `start`, if `=` and a quote are right after its name and its value needs
/// no replacement.
#[inline(always)]
fn plain_declaration<'input>(text: &'input str, start: usize) -> Option<UnresolvedAttribute<'input>>
    requires { HasXmlns text.now start }
    ensures { IfSome result (λ a. IsDeclaration AreOfMainText text.entry.now start a) }
{
    let name = declared_name(text, start)?;
    let value_start = name.end + 2;
    let quote = quote_before(text, value_start);
    let near = skip_set::<ValueByte>(text, value_start);
    let value = unchanged_value(text, value_start, quote, near)?;
    let end = after_byte(text, value.end, quote);
    Some(UnresolvedAttribute {
        start,
        name_end: name.end,
        value_start,
        end,
        name: name.name,
        value: StringStorage::Borrowed(value.text),
    })
}

/// Returns the declaration after the white space at `at`, if it is plain.
#[inline(always)]
pub(crate) fn declaration_after<'input>(
    text: &'input str,
    at: usize,
) -> Option<UnresolvedAttribute<'input>>
    requires { IsCharBoundary text.now at }
    ensures { IfSome result (λ a. IsNearDeclaration text.entry.now at a) }
{
    if at + 1 >= text.len() {
        return None;
    }
    let start = one_space_end(text, at);
    if start == at || !may_declare(text, start) {
        return None;
    }
    let one = plain_declaration(text, start)?;
    Some(one)
}

/// Returns the declaration at `start`, however it is written, or `None` if none is there. Sets `lacking` of `seen` if memory was
/// refused. It is out of line, as few declarations are not plain: their values refer to entities.
#[cold]
#[inline(never)]
fn any_declaration<'input>(
    text: &'input str,
    start: usize,
    context: &Context<'_, 'input>,
    seen: &mut SeenNames,
) -> Option<UnresolvedAttribute<'input>>
    requires { HasXmlns text.now start }
    ensures read { IfSome result (λ a. IsDeclaration (AreMainValues context.entry.now) text.entry.now
        start a) }
    ensures kept { KeepsCodes seen.old seen.new }
{
    let part = skip_set::<PartByte>(text, start);
    let one = any_attribute(text, NamePlace { start, part }, context, seen)?;
    if !is_namespace_decl(one.name) {
        return None;
    }
    Some(one)
}

/// Returns the declaration at `start`, like `any_declaration`. Most are plain.
#[inline(always)]
fn declaration_at<'input>(
    text: &'input str,
    start: usize,
    context: &Context<'_, 'input>,
    seen: &mut SeenNames,
) -> Option<UnresolvedAttribute<'input>>
    requires { HasXmlns text.now start }
    ensures read { IfSome result (λ a. IsDeclaration (AreMainValues context.entry.now) text.entry.now
        start a) }
    ensures kept { KeepsCodes seen.old seen.new }
{
    match plain_declaration(text, start) {
        Some(one) => Some(one),
        None => any_declaration(text, start, context, seen),
    }
}

/// Puts the declaration at `start` into the tables, if there is one and `declare_new` declares it. Returns the offset after it.
/// Sets `lacking` of `seen` if memory was refused.
#[inline(always)]
fn declared<'input>(
    text: &'input str,
    start: usize,
    elements: &mut ElementTables<'input>,
    context: &Context<'_, 'input>,
    seen: &mut SeenNames,
) -> Option<usize>
    requires { HasXmlns text.now start }
    ensures others { elements.new ≡ record elements.old
        { namespaces = elements.new.namespaces; listed = elements.new.listed } }
    ensures lists { IfSome result (λ j. ListsDeclaration (AreMainValues context.entry.now) elements.old
        elements.new text.entry.now start j) }
    ensures kept { KeepsCodes seen.old seen.new }
{
    let one = declaration_at(text, start, context, seen)?;
    let end = one.end;
    match declare_new(&mut elements.namespaces, &mut elements.listed, one) {
        Ok(true) => Some(end),
        Ok(false) => None,
        Err(_) => {
            seen.lacking = true;
            None
        }
    }
}

/// Makes the scope of the root element list all listed places, if they are few. Returns false if they are not.
#[inline(always)]
fn list_own(elements: &mut ElementTables<'_>) -> bool
    requires { length elements.old.scopes.items ≡ 2 }
    ensures { ListsOwn elements.old elements.new result }
{
    let count = elements.listed.len();
    if count > FEW {
        return false;
    }
    elements.scopes[OWN as usize] = Scope::Few(Stretch {
        from: 0,
        until: count as u32,
    });
    true
}

/// Puts the declaration at `start` into the tables, like `declared`, and lists it in the scope of the root element. It is out of
/// line, so that the loop over attributes is small enough to be in line.
#[inline(never)]
pub fn put_declaration<'input>(
    text: &'input str,
    start: usize,
    elements: &mut ElementTables<'input>,
    context: &Context<'_, 'input>,
    seen: &mut SeenNames,
) -> Option<usize>
    requires here { HasXmlns text.now start }
    requires scopes { length elements.old.scopes.items ≡ 2 }
    ensures { DeclaresOwn (AreMainValues context.entry.now) elements.old elements.new seen.old seen.new
        text.entry.now start result }
{
    let end = declared(text, start, elements, context, seen)?;
    if !list_own(elements) {
        return None;
    }
    Some(end)
}
