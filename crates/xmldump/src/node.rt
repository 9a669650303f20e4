//! The first line of a node: its neighbours, its place, its names and its texts.

use rox_dump::output::{gap, write_name, write_number, write_quoted, write_range, write_text};
use rox_programs::output::Output;
use roxmltree::{Attribute, Node, NodeType, PI, StringStorage};
use std::io::Write;

/// Writes the first line of a node.
pub fn write_node<W: Write>(node: &Node<'_, '_>, out: &mut Output<'_, W>) {
    write_number(node.id().get() as u64, out);
    write_kind(node.node_type(), out);
    write_links(node, out);
    write_range(" range=", node.range(), out);
    if node.is_element() {
        write_element(node, out);
    }
    if let Some(pi) = node.pi() {
        write_pi(pi, out);
    }
    write_storage_or_none(" text=", node.text_storage(), out);
    write_storage_or_none(" tail=", node.tail_storage(), out);
    out.text("\n");
}

// Writes the name of a kind, behind a space.
fn write_kind<W: Write>(kind: NodeType, out: &mut Output<'_, W>) {
    if out.result.is_ok() {
        out.result = write!(out.writer, " {kind:?}");
    }
}

fn write_links<W: Write>(node: &Node<'_, '_>, out: &mut Output<'_, W>) {
    write_link(&node.parent(), " parent=", out);
    write_link(&node.prev_sibling(), " prev=", out);
    write_link(&node.next_sibling(), " next=", out);
    write_link(&node.first_child(), " first=", out);
    write_link(&node.last_child(), " last=", out);
}

/// Writes a label and the id of a node.
pub fn write_link<W: Write>(node: &Option<Node<'_, '_>>, label: &str, out: &mut Output<'_, W>) {
    out.text(label);
    match node {
        None => out.text("-"),
        Some(node) => write_number(node.id().get() as u64, out),
    }
}

fn write_element<W: Write>(node: &Node<'_, '_>, out: &mut Output<'_, W>) {
    let name = node.tag_name();
    write_name(" tag=", name.namespace(), name.name(), out);
    write_attributes(node, out);
    write_namespaces(node, out);
}

fn write_attributes<W: Write>(node: &Node<'_, '_>, out: &mut Output<'_, W>) {
    out.text(" attrs=[");
    let mut is_first = true;
    for attribute in node.attributes() {
        write_attribute(&attribute, gap(is_first), out);
        is_first = false;
    }
    out.text("]");
}

fn write_attribute<W: Write>(attribute: &Attribute<'_, '_>, gap: &str, out: &mut Output<'_, W>) {
    write_name(gap, attribute.namespace(), attribute.name(), out);
    write_storage("=", attribute.value_storage(), out);
    write_range("@", attribute.range(), out);
    write_range(",", attribute.range_qname(), out);
    write_range(",", attribute.range_value(), out);
}

fn write_namespaces<W: Write>(node: &Node<'_, '_>, out: &mut Output<'_, W>) {
    out.text(" ns=[");
    let mut is_first = true;
    for namespace in node.namespaces() {
        write_text(gap(is_first), namespace.name(), out);
        write_text("=", Some(namespace.uri()), out);
        is_first = false;
    }
    out.text("]");
}

fn write_pi<W: Write>(pi: PI<'_>, out: &mut Output<'_, W>) {
    write_text(" target=", Some(pi.target), out);
    write_text(" value=", pi.value, out);
}

fn write_storage_or_none<W: Write>(
    label: &str,
    storage: Option<&StringStorage<'_>>,
    out: &mut Output<'_, W>,
) {
    match storage {
        None => write_text(label, None, out),
        Some(storage) => write_storage(label, storage, out),
    }
}

// Whether a text is borrowed or owned is told before it.
fn write_storage<W: Write>(label: &str, storage: &StringStorage<'_>, out: &mut Output<'_, W>) {
    out.text(label);
    match storage {
        StringStorage::Borrowed(_) => out.text("B"),
        StringStorage::Owned(_) => out.text("O"),
    }
    write_quoted(storage.as_str(), out);
}
