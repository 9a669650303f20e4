//! The debug text of a document and of its nodes. `layout.rt` of `rox_lists` writes its lines.

use crate::nodes::{Node, NodeId};
use crate::tree::Document;
use rox_lists::layout::{
    ElementParts, close_elements, end_element, open_element, write_item, write_line, write_text,
};
use rox_rows::stored_node::KindRef;
use std::fmt;

/// Prints the tree, one node after the other, in a loop: no depth of the tree uses up the stack.
impl fmt::Debug for Document<'_> {
    fn fmt<W: fmt::Write>(&self, f: &mut fmt::Formatter<W>) -> fmt::Result {
        let mut done = f.write_str("Document [\n");
        // The next node is in some of the `open` elements, whose ends are still to be printed.
        let mut open = 0;
        for index in 1..self.count() {
            let node = Node::of(self, NodeId(index as u32));
            let around = count_around(&node);
            done = close_elements(f, done, around, open);
            done = write_node(f, done, &node, around);
            open = around.saturating_add(node.has_children() as usize);
        }
        done = close_elements(f, done, 0, open);
        write_line(f, done, 0, 0, "]\n")
    }
}

/// Prints the kind of the node, with its names or its text. Its descendants are not printed.
impl fmt::Debug for Node<'_, '_> {
    fn fmt<W: fmt::Write>(&self, f: &mut fmt::Formatter<W>) -> fmt::Result {
        match self.kind() {
            KindRef::Root => f.write_str("Root"),
            KindRef::Element(_) => fmt::Debug::fmt(&parts_of(self), f),
            KindRef::Text(text) => write_text(f, "Text", text.as_str()),
            KindRef::Comment(text) => write_text(f, "Comment", text.as_str()),
            KindRef::PI(pi) => fmt::Debug::fmt(&pi, f),
        }
    }
}

// Returns what is printed of an element.
fn parts_of<'a, 'input>(element: &Node<'a, 'input>) -> ElementParts<'a, 'input> {
    ElementParts {
        tag_name: element.tag_name(),
        attributes: element.attributes(),
        namespaces: element.namespaces(),
    }
}

// Returns how many elements are around a node that is not the root node.
fn count_around(node: &Node<'_, '_>) -> usize {
    node.ancestors().count().saturating_sub(2)
}

// Prints a node that is inside `around` elements. An element with children is left open.
fn write_node<W: fmt::Write>(
    f: &mut fmt::Formatter<W>,
    done: fmt::Result,
    node: &Node<'_, '_>,
    around: usize,
) -> fmt::Result {
    if node.is_element() {
        let done = open_element(f, done, around, parts_of(node));
        return end_element(f, done, around, node.has_children());
    }
    write_item(f, done, around, 1, node)
}
