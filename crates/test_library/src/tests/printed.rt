//! What `Debug` prints. No text of it is promised: it names what it is of.

use super::{document_of, same};
use roxmltree::{
    Document, Node, NodeId, NodeIdTooLarge, NodeType, ParsingOptions, StringStorage, TextPos,
};
use std::fmt::Debug;
use std::process::Abort;

/// Wants these texts in what is printed.
fn names<T: Debug>(rt: &(impl Abort + AllocGlobal), value: &T, parts: &[&str]) {
    let shown = format!(in rt.alloc(); "{value:?}").expect(rt, "memory");
    for part in parts {
        assert!(rt; shown.as_str().contains(part), "{part:?} in {shown}");
    }
}

#[test]
fn values(rt: HostRuntime) {
    let error = Document::parse(rt.alloc(), "<e p:a=''/>").expect_err(&rt, "read");
    let (place, text) = (TextPos::new(2, 7), StringStorage::Borrowed("slice"));
    let shown = format!(in rt.alloc(); "{place} {text} {}", NodeIdTooLarge);
    let wanted = "2:7 slice a node's id is at most 4294967295";
    same(&rt, "Display", shown.expect(&rt, "memory").as_str(), wanted);
    let values = (place, text, NodeIdTooLarge, NodeId::new(12));
    names(&rt, &values, &["7", "slice", "NodeIdTooLarge", "12"]);
    names(
        &rt,
        &(NodeType::Comment, error),
        &["Comment", "UnknownNamespace"],
    );
}

/// Wants a node and the iterators from it to be named.
fn node_and_iterators(element: &Node<'_, '_>, rt: &(impl Abort + AllocGlobal)) {
    let nodes = (
        element.children(),
        element.ancestors(),
        element.descendants(),
    );
    names(rt, &nodes, &["Children", "AxisIter", "Descendants", "PI {"]);
    let others = (element.attributes(), element.namespaces());
    names(
        rt,
        &others,
        &["Attributes", "\"b\"", "NamespaceIter", "\"uri\""],
    );
    names(rt, element, &["Element", "{uri}e", "\"b\"", "\"uri\""]);
}

/// A resolver that is not `Debug`.
#[derive(Drop)]
struct Silent;

#[test]
fn parts_of_documents_and_options(rt: HostRuntime) {
    let document = document_of(&rt, "<e xmlns='uri' a='b'><?target value?></e>");
    node_and_iterators(&document.root_element(), &rt);
    names(&rt, &document.root(), &["Root"]);
    let options = ParsingOptions::with_resolver(Silent);
    names(&rt, &options, &["4294967295", "Some(..)"]);
}

/// What `Debug` prints of a document with a node of each kind.
const PRINTED: &str = "Document [
    Comment(\"c\")
    PI { target: \"t\", value: Some(\"v\") }
    Element {
        tag_name: {u}r
        attributes: [
            Attribute { name: a, value: Borrowed(\"1\") }
            Attribute { name: b, value: Owned(\"x&y\") }
        ]
        namespaces: [
            Namespace { name: None, uri: Borrowed(\"u\") }
        ]
        children: [
            Element {
                tag_name: {u}e
                namespaces: [
                    Namespace { name: None, uri: Borrowed(\"u\") }
                ]
            }
            Text(\"text\")
        ]
    }
]
";

#[test]
fn a_document_prints_its_tree(rt: HostRuntime) {
    let document = document_of(
        &rt,
        "<!--c--><?t v?><r xmlns='u' a='1' b='x&amp;y'><e/>text</r>",
    );
    let shown = format!(in rt.alloc(); "{document:?}").expect(&rt, "memory");
    same(&rt, "printed", shown.as_str(), PRINTED);
}
