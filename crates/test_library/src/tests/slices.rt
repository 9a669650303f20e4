//! Elements parsed alone, and put in the place of others.

use super::limits::declaring;
use super::{document_of, is_refused, node_of, same};
use roxmltree::{Document, Error, Node, ParsingOptions};
use std::process::Abort;

/// The text that a node is in, with the root element of another text in its place.
pub(super) fn exchanged(
    node: &Node<'_, '_>,
    other: &Document<'_>,
    rt: &(impl Abort + AllocGlobal),
) -> String {
    assert!(rt; node.is_self_contained());
    assert!(rt; other.root_element().is_self_contained());
    node.exchange(rt.alloc(), other).expect(rt, "memory")
}

/// The document of a node alone.
pub(super) fn reparsed<'input>(
    node: &Node<'_, 'input>,
    rt: &(impl Abort + AllocGlobal),
) -> Document<'input> {
    assert!(rt; node.is_self_contained());
    node.reparse(rt.alloc()).expect(rt, "memory")
}

const NAMESPACES: &str = "<a xmlns:p='1'><b/></a>";

const XML: &str = "<a xmlns:xml='http://www.w3.org/XML/1998/namespace'><b/></a>";

const UNDECLARED: &str = "<a xmlns=''><b/></a>";

const NESTED: &str = "<a><b xmlns:p='1'><c/></b><d/></a>";

const KINDS: &str = "<r>t<!--c--><?p?></r>";

/// No element of a document with a document type declaration is: its references depend on the declaration.
#[test]
fn which_are_self_contained(rt: HostRuntime) {
    for (text, id, wanted) in &[
        (NAMESPACES, 0, false),
        (NAMESPACES, 1, true),
        (NAMESPACES, 2, false),
        (XML, 1, true),
        (XML, 2, true),
        (UNDECLARED, 1, true),
        (UNDECLARED, 2, false),
        (NESTED, 2, true),
        (NESTED, 3, false),
        (NESTED, 4, true),
        (KINDS, 2, false),
        (KINDS, 3, false),
        (KINDS, 4, false),
        ("<!DOCTYPE r><r/>", 1, false),
        ("<!DOCTYPE r [<!ENTITY a '<b/>'>]><r>&a;</r>", 1, false),
        ("<r/>", 1, true),
    ] {
        is_self_contained(&rt, text, *id, *wanted);
    }
}

/// Asserts that `is_self_contained` of the node with this id returns `wanted`.
fn is_self_contained(rt: &(impl Abort + AllocGlobal), text: &str, id: u32, wanted: bool) {
    let mut options = ParsingOptions::default();
    options.allow_dtd = true;
    let document = Document::parse_with_options(rt.alloc(), text, options).expect(rt, text);
    let is_contained = node_of(&document, rt, id).is_self_contained();
    same(rt, text, is_contained, wanted);
}

const ROW: &str = "<?xml version='1.0'?><r>a<b/>c</r>";

const PUT: &str = "<?xml version='1.0'?><r>a<x y='1'>&lt;</x>c</r>";

#[test]
fn exchanges(rt: HostRuntime) {
    for (text, id, other, wanted) in &[
        (ROW, 3, "<!--z--><x y='1'>&lt;</x>", PUT),
        (PUT, 3, "<b/>", ROW),
        ("<!--k--><r/>", 2, "<x a='1'/>", "<!--k--><x a='1'/>"),
        (
            "<r><b/></r>",
            2,
            "<n:x xmlns:n='u'/>",
            "<r><n:x xmlns:n='u'/></r>",
        ),
        ("<r>\r<b/>\n</r>", 3, "<x/>", "<r>\r<x/>\n</r>"),
    ] {
        let answer = exchange_of(&rt, text, *id, other);
        same(&rt, text, answer.as_str(), wanted);
    }
}

/// The text in which the root element of another takes the place of the element of this id.
fn exchange_of(rt: &(impl Abort + AllocGlobal), text: &str, id: u32, other: &str) -> String {
    let (document, other) = (document_of(rt, text), document_of(rt, other));
    exchanged(&node_of(&document, rt, id), &other, rt)
}

#[test]
fn too_many_namespaces_after_an_exchange(rt: HostRuntime) {
    let text = declaring(rt.alloc(), "<r><b/>", 65535).expect(&rt, "memory");
    let answer = exchange_of(&rt, text.as_str(), 2, "<e xmlns:n='65536'/>");
    is_refused(&rt, answer.as_str(), Error::NamespacesLimitReached);
}

/// Wants the root element of a document to be all of its text, and to have an attribute `b` and two children.
fn is_whole(root: &Node<'_, '_>, rt: &impl Abort) {
    let text = root.document().input_text();
    same(rt, "text", text, "<a n:b='1' xmlns:n='u'><c/>\r\n</a>");
    same(rt, "range", root.range(), 0..33);
    same(rt, "b", root.attribute(("u", "b").into()), Some("1"));
    same(rt, "children", root.children().count(), 2);
}

#[test]
fn an_element_alone(rt: HostRuntime) {
    let document = document_of(&rt, "<r>x<a n:b='1' xmlns:n='u'><c/>\r\n</a></r>");
    let alone = reparsed(&node_of(&document, &rt, 3), &rt);
    is_whole(&alone.root_element(), &rt);
}
