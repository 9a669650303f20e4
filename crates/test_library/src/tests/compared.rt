//! What is equal, and what stands before another; and copies that take memory.

use super::{document_of, node_of, same};
use roxmltree::{
    Attribute, Document, ExpandedName, Namespace, Node, ParsingOptions, StringStorage,
};
use std::cmp::Ordering;
use std::hash::{BuildHasher, BuildHasherDefault, FoldHasher, Hash};
use std::process::Abort;

/// The name of an element, its first attribute, and the first namespace that it lists.
fn firsts<'a, 'input>(
    element: &Node<'a, 'input>,
) -> (
    ExpandedName<'a, 'input>,
    Option<Attribute<'a, 'input>>,
    Option<&'a Namespace<'input>>,
) {
    (
        element.tag_name(),
        element.attributes().next(),
        element.namespaces().next(),
    )
}

/// Whether the names, the first attributes and the first namespaces of two root elements are equal.
fn are_equal(one: &Document<'_>, other: &Document<'_>) -> [bool; 3] {
    let one = firsts(&one.root_element());
    let other = firsts(&other.root_element());
    [one.0 == other.0, one.1 == other.1, one.2 == other.2]
}

#[test]
fn names_attributes_and_namespaces(rt: HostRuntime) {
    let document = document_of(&rt, "<n:e xmlns:n='u' n:a='1'/>");
    for (text, wanted) in &[
        (
            "<n:e xmlns:n='&#117;'   n:a = '&#49;'/>",
            [true, true, true],
        ),
        ("<m:e xmlns:m='u' m:a='1'/>", [true, true, false]),
        ("<e xmlns='u' xmlns:n='u' n:a='2'/>", [true, false, false]),
        ("<n:f xmlns:n='u' n:b='1'/>", [false, false, true]),
        ("<e xmlns:n='u' a='1'/>", [false, false, true]),
        ("<n:e xmlns:n='v' n:a='1'/>", [false, false, false]),
        ("<e/>", [false, false, false]),
    ] {
        let other = document_of(&rt, text);
        same(&rt, text, are_equal(&document, &other), *wanted);
    }
}

/// The document of a text with two nodes, with this key.
fn keyed(rt: &(impl Abort + AllocGlobal), key: u64) -> Document<'static> {
    let mut options = ParsingOptions::default();
    options.document_key = key;
    Document::parse_with_options(rt.alloc(), "<r/>", options).expect(rt, "not read")
}

fn hash_of<T: Hash + Drop>(value: T) -> u64 {
    BuildHasherDefault::<FoldHasher>::default().hash_one(value)
}

/// Wants a node to stand before another, or to be equal to it.
fn compare(one: &Node<'_, '_>, rt: &impl Abort, other: &Node<'_, '_>, wanted: Ordering) {
    same(rt, "order", one.cmp(other), wanted);
    let is_so = [one == other, one < other];
    let wanted = [wanted == Ordering::Equal, wanted == Ordering::Less];
    same(rt, "equal, less", is_so, wanted);
}

/// Nodes of documents with equal keys are compared by their ids alone.
#[test]
fn nodes_by_key_and_id(rt: HostRuntime) {
    let (first, copy, second) = (keyed(&rt, 1), keyed(&rt, 1), keyed(&rt, 2));
    for (one, id, other, other_id, wanted) in [
        (&first, 1, &copy, 1, Ordering::Equal),
        (&first, 0, &copy, 1, Ordering::Less),
        (&first, 1, &copy, 0, Ordering::Greater),
        (&first, 1, &second, 0, Ordering::Less),
        (&second, 1, &first, 1, Ordering::Greater),
    ] {
        let (one, other) = (node_of(one, &rt, id), node_of(other, &rt, other_id));
        compare(&one, &rt, &other, wanted);
    }
}

#[test]
fn equal_nodes_have_equal_hashes(rt: HostRuntime) {
    let (first, copy) = (keyed(&rt, 1), keyed(&rt, 1));
    let (one, other) = (first.root_element(), copy.root_element());
    same(&rt, "hash", hash_of(one), hash_of(other));
}

/// The clauses of `clone` say what a copy is, but not that `clone` returns one.
#[test]
fn copies_of_texts(rt: HostRuntime) {
    let text = StringStorage::new_owned(rt.alloc(), "text").expect(&rt, "memory");
    let copy = text.clone().expect(&rt, "memory");
    same(&rt, "text", copy.as_str(), "text");
}

#[test]
fn copies_of_errors(rt: HostRuntime) {
    let error = Document::parse(rt.alloc(), "<e p:a=''/>").expect_err(&rt, "read");
    let copy = error.clone().expect(&rt, "memory");
    same(&rt, "error", copy == error, true);
}

#[test]
fn copies_of_namespaces(rt: HostRuntime) {
    let document = document_of(&rt, "<e xmlns='&#117;'/>");
    for namespace in document.root_element().namespaces() {
        let copy = namespace.clone().expect(&rt, "memory");
        same(&rt, "namespace", copy.uri(), "u");
    }
}
