//! The declarations of a start tag, one by one (XML 1.0 section 3.1, Namespaces in XML 1.0 section 3).

ghost use Rattle.std.specs.Prelude.{◌≡◌, ◌<◌, ◌+◌, ◌-◌, ◌^◌, map, true, false, Ok, Err, IfOk};
ghost use Rattle.rox_grammar.specs.Written.{Attribute, Name, is_namespace_decl};
ghost use Rattle.rox_grammar.specs.NameParts.{local_span, prefix_span};
ghost use Rattle.rox_grammar.specs.Tree.{is_declared};
ghost use Rattle.rox_reading.specs.Tags as spec;
ghost use Rattle.rox_grammar.specs.Failures.{name_view};
ghost use Rattle.rox_scopes.specs.NamespaceViews.{namespace_view};
ghost use Rattle.rox_scopes.specs.Scopes.{prefix_view};
ghost use Rattle.rox_names.specs.TagDeclarations.{unresolved_view, DeclaresNew, DeclaresOne, HasOwn};

use crate::unresolved_attribute::UnresolvedAttribute;
use rox_compare::compare::same_text;
use rox_grammar::failure::Failure;
use rox_grammar::fault::{Fault, Span};
use rox_grammar::name::QName;
use rox_growth::growth::push_with_room;
use rox_scopes::namespace::Namespace;
use rox_scopes::namespace_table::{FIRST_ROOM, NamespaceTable};
use rox_scopes::prefix_set::{FEW, add_prefix};
use rox_scopes::scope::{XML_URI, XMLNS_URI, is_own, is_xml, same_prefix};
use std::alloc::AllocError;
use std::collections::BTreeSet;

/// Returns the span of the local part of a name that ends at the offset `end`.
#[inline]
pub fn local_span(local: &str, end: usize) -> Span
    ensures { (n : Name) → n.local ≡ local.now → result ≡ local_span n end }
{
    Span {
        start: end.saturating_sub(local.len()),
        end,
    }
}

/// Returns the span of the prefix of a name that begins at the offset `start`.
#[inline]
pub fn prefix_span(prefix: &str, start: usize) -> Span
    requires { start < 2 ^ 63 }
    ensures { (n : Name) → n.prefix ≡ prefix.now → result ≡ prefix_span n start }
{
    Span {
        start,
        end: start + prefix.len(),
    }
}

/// Returns whether an attribute of this name declares a prefix or the default.
#[inline]
pub fn is_namespace_decl(name: QName<'_>) -> bool
    ensures { result ≡ is_namespace_decl (name_view name.entry) }
{
    same_text(name.prefix, "xmlns") || same_text(name.local, "xmlns")
}

/// Tests a declaration of the prefix `local`. Fails for the URI of `xmlns`, for `xml` with another URI than its own, and for
/// another prefix with the URI of `xml`.
#[inline(always)]
fn test_prefix_uri(local: &str, uri: &str, at: usize) -> Result<(), Fault>
    ensures { (a : Attribute) → a.name.local ≡ local.now → a.value ≡ uri.now → a.start ≡ at
        → result ≡ spec.prefix_tested a }
{
    if same_text(uri, XMLNS_URI) {
        return Err(Fault::UnexpectedXmlnsUri(at));
    }
    let is_xml = same_text(uri, XML_URI);
    if same_text(local, "xml") {
        return if is_xml {
            Ok(())
        } else {
            Err(Fault::InvalidXmlPrefixUri(at))
        };
    }
    if is_xml {
        Err(Fault::UnexpectedXmlUri(at))
    } else {
        Ok(())
    }
}

/// Tests a declaration of the default. Fails for the URIs of `xml` and of `xmlns`.
#[inline(always)]
fn test_default_uri(uri: &str, at: usize) -> Result<(), Fault>
    ensures { (a : Attribute) → a.value ≡ uri.now → a.start ≡ at → result ≡ spec.default_tested a }
{
    if same_text(uri, XML_URI) {
        return Err(Fault::UnexpectedXmlUri(at));
    }
    if same_text(uri, XMLNS_URI) {
        return Err(Fault::UnexpectedXmlnsUri(at));
    }
    Ok(())
}

impl<'input> UnresolvedAttribute<'input> {
    ghost use Rattle.rox_names.specs.TagDeclarations.{unresolved_view};
    ghost use Rattle.rox_grammar.specs.Written.{namespace_decl_of};
    ghost use Rattle.rox_scopes.specs.Scopes.{prefix_view};

    /// Tests the declaration. Fails for a prefix and URI that may not be declared.
    #[inline(always)]
    pub fn test_uri(&self) -> Result<(), Fault>
        ensures { result ≡ spec.uri_tested (unresolved_view self.now) }
    {
        let uri = self.value.as_str();
        if same_text(self.name.prefix, "xmlns") {
            return test_prefix_uri(self.name.local, uri, self.start);
        }
        test_default_uri(uri, self.start)
    }

    /// Returns the prefix that it declares, or `None` for the default.
    #[inline]
    pub fn declared_prefix(&self) -> Option<&'input str>
        ensures { prefix_view result ≡ (namespace_decl_of (unresolved_view self.now)).prefix }
    {
        if same_text(self.name.prefix, "xmlns") {
            Some(self.name.local)
        } else {
            None
        }
    }
}

/// Declares a namespace: lists it, unless its prefix is `xml`. The places that the tag declares are listed from `own` on, and
/// `prefix_set` has their prefixes if they are many. Returns whether the tag has declared `xml` by now. Fails if the pair may not
/// be declared or the prefix repeats, and if the pairs are too many or memory runs out.
#[inline(always)]
pub fn declare_namespace<'input>(
    namespaces: &mut NamespaceTable<'input>,
    listed: &mut Vec<u16>,
    prefix_set: &mut BTreeSet<Option<&'input str>>,
    own: usize,
    xml: bool,
    taken: UnresolvedAttribute<'input>,
) -> Result<bool, Failure>
    requires { HasOwn namespaces.old.items.items listed.old.items prefix_set.old.keys own }
    ensures { DeclaresOne namespaces.old.items.items listed.old.items namespaces.new.items.items
        listed.new.items prefix_set.new.keys own xml taken.entry result }
{
    taken.test_uri()?;
    let prefix = taken.declared_prefix();
    if is_own(
        namespaces.as_slice(),
        &listed[own..],
        prefix_set,
        xml,
        prefix,
    ) {
        return Err(Failure::Fault(Fault::DuplicatedNamespace(
            local_span(taken.name.local, taken.name_end),
            taken.start,
        )));
    }
    if is_xml(prefix) {
        return Ok(true);
    }
    let place = namespaces.place(prefix, taken.value)?;
    push_with_room(listed, place, FIRST_ROOM)?;
    add_prefix(prefix_set, namespaces.as_slice(), &listed[own..], prefix)?;
    Ok(xml)
}

/// Returns whether one of these pairs has this prefix, or is the default for `None`.
#[inline(always)]
fn has_prefix(pairs: &[Namespace<'_>], prefix: Option<&str>) -> bool
    ensures { result ≡ is_declared (prefix_view prefix.entry) (map namespace_view pairs.now) }
{
    for pair in pairs {
        if same_prefix(pair.name(), prefix) {
            return true;
        }
    }
    false
}

/// Like `declare_namespace`, but for a tag whose declarations are all that is listed. Returns true if it is declared: no pair has
/// its prefix, so the pair is new, and no search for it is needed. Returns false, and declares nothing, if a pair has its prefix,
/// if it declares `xml` or is not valid, or if there are many pairs or listed places.
#[inline(always)]
pub fn declare_new<'input>(
    namespaces: &mut NamespaceTable<'input>,
    listed: &mut Vec<u16>,
    taken: UnresolvedAttribute<'input>,
) -> Result<bool, AllocError>
    ensures declared { IfOk result (λ new. new ≡ true → DeclaresNew namespaces.old.items.items
        listed.old.items namespaces.new.items.items listed.new.items taken.entry) }
    ensures none { IfOk result (λ new. new ≡ false → (namespaces.new ≡ namespaces.old)
        × (listed.new ≡ listed.old)) }
{
    if taken.test_uri().is_err() {
        return Ok(false);
    }
    let prefix = taken.declared_prefix();
    let pairs = namespaces.as_slice();
    if pairs.len() >= FEW || listed.len() >= FEW || is_xml(prefix) || has_prefix(pairs, prefix) {
        return Ok(false);
    }
    let added = namespaces.add_new(prefix, taken.value)?;
    push_with_room(listed, added, FIRST_ROOM)?;
    Ok(true)
}
