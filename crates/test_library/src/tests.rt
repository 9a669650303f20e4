//! What no dump, no command and no example shows of the library, and what is made by code.

mod compared;
mod generated;
mod kinds;
mod limits;
mod positions;
mod printed;
mod resolvers;
mod slices;
mod tables;

use roxmltree::{Document, Error, Node, NodeId};
use std::fmt::Debug;
use std::process::Abort;

/// Asserts that `got` equals `wanted`. A failure prints both, and `of`, which names what was compared.
fn same<T: PartialEq + Debug + Drop>(rt: &impl Abort, of: &str, got: T, wanted: T) {
    assert_eq!(rt; got, wanted, "{of:?}");
}

/// Returns the document of a text, and fails if the text is refused.
fn document_of<'input>(rt: &(impl Abort + AllocGlobal), text: &'input str) -> Document<'input> {
    Document::parse(rt.alloc(), text).expect(rt, text)
}

/// Asserts that a text is refused with this error.
fn is_refused(rt: &(impl Abort + AllocGlobal), text: &str, wanted: Error) {
    let error = Document::parse(rt.alloc(), text).err();
    same(rt, text, error, Some(wanted));
}

/// Returns the node with this id, and fails if there is none.
fn node_of<'a, 'input>(
    document: &'a Document<'input>,
    rt: &impl Abort,
    id: u32,
) -> Node<'a, 'input> {
    document
        .get_node(NodeId::new(id))
        .expect(rt, "no node of this id")
}

/// Returns the number of children of the root element of a document.
fn child_count(document: &Document<'_>) -> usize {
    document.root_element().children().count()
}
