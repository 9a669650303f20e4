//! The look-ups of a node: its rows and columns, what is found by prefix, by URI and by name, and what its iterators give from
//! their backs.

use crate::axes::write_ids;
use rox_dump::output::{gap, write_name, write_number, write_text, write_truth};
use rox_programs::output::Output;
use roxmltree::{Attribute, ExpandedName, NS_XML_URI, Node, TextPos};
use std::io::Write;

/// Writes the line of a node's look-ups.
pub fn write_lookups<W: Write>(node: &Node<'_, '_>, out: &mut Output<'_, W>) {
    write_places(node, out);
    write_uris(node, out);
    write_prefixes(node, out);
    write_named(node, out);
    write_own_name(node, out);
    write_backs(node, out);
    out.text("\n");
}

fn write_places<W: Write>(node: &Node<'_, '_>, out: &mut Output<'_, W>) {
    let (range, document) = (node.range(), node.document());
    out.text("  pos=");
    write_position(document.text_pos_at(range.start), out);
    out.text("..");
    write_position(document.text_pos_at(range.end), out);
}

// Writes a row and a column.
fn write_position<W: Write>(position: TextPos, out: &mut Output<'_, W>) {
    if out.result.is_ok() {
        out.result = write!(out.writer, "{position}");
    }
}

// The URIs of the default, of `xml` and of each prefix that is listed.
fn write_uris<W: Write>(node: &Node<'_, '_>, out: &mut Output<'_, W>) {
    write_text(" default=", node.default_namespace(), out);
    write_uri(node, " uris=[", None, out);
    write_uri(node, " ", Some("xml"), out);
    for namespace in node.namespaces() {
        write_uri(node, " ", namespace.name(), out);
    }
    out.text("]");
}

fn write_uri<W: Write>(
    node: &Node<'_, '_>,
    gap: &str,
    prefix: Option<&str>,
    out: &mut Output<'_, W>,
) {
    write_text(gap, prefix, out);
    write_text("=", node.lookup_namespace_uri(prefix), out);
}

// The prefixes of the URI of `xml`, of the empty one and of each that is listed.
fn write_prefixes<W: Write>(node: &Node<'_, '_>, out: &mut Output<'_, W>) {
    write_prefix(node, " prefixes=[", NS_XML_URI, out);
    write_prefix(node, " ", "", out);
    for namespace in node.namespaces() {
        write_prefix(node, " ", namespace.uri(), out);
    }
    out.text("]");
}

fn write_prefix<W: Write>(node: &Node<'_, '_>, gap: &str, uri: &str, out: &mut Output<'_, W>) {
    write_text(gap, Some(uri), out);
    write_text("=", node.lookup_prefix(uri), out);
}

// What is found by the name of each attribute, and by its local name without namespace and alone.
fn write_named<W: Write>(node: &Node<'_, '_>, out: &mut Output<'_, W>) {
    out.text(" named=[");
    let mut is_first = true;
    for attribute in node.attributes() {
        write_found(node, gap(is_first), &attribute, out);
        is_first = false;
    }
    out.text("]");
}

fn write_found<W: Write>(
    node: &Node<'_, '_>,
    gap: &str,
    attribute: &Attribute<'_, '_>,
    out: &mut Output<'_, W>,
) {
    let local = attribute.name();
    write_name(gap, attribute.namespace(), local, out);
    write_start(&node.attribute_node(name_of(attribute)), "@", out);
    write_start(&node.attribute_node(local.into()), ",", out);
    write_start(&node.attribute_local(local), ",", out);
}

fn name_of<'a, 'input>(attribute: &Attribute<'a, 'input>) -> ExpandedName<'a, 'input> {
    let local = attribute.name();
    if let Some(uri) = attribute.namespace() {
        return ExpandedName::from((uri, local));
    }
    ExpandedName::from(local)
}

// Where an attribute starts, behind a mark.
fn write_start<W: Write>(
    attribute: &Option<Attribute<'_, '_>>,
    mark: &str,
    out: &mut Output<'_, W>,
) {
    out.text(mark);
    match attribute {
        Some(attribute) => write_number(attribute.position() as u64, out),
        None => out.text("-"),
    }
}

// Whether the node has its own name, and an attribute of it; and what is there by its local name alone.
fn write_own_name<W: Write>(node: &Node<'_, '_>, out: &mut Output<'_, W>) {
    let name = node.tag_name();
    let local = name.name();
    write_truth(" own=", node.has_tag_name(name), out);
    write_truth(",", node.has_tag_name(local.into()), out);
    write_truth(",", node.has_local_name(local), out);
    write_truth(" has=", node.has_attribute(name), out);
    write_text(" value=", node.attribute(local.into()), out);
}

fn write_backs<W: Write>(node: &Node<'_, '_>, out: &mut Output<'_, W>) {
    write_attributes_back(node, out);
    write_prefixes_back(node, out);
    write_ids(" order=", node.descendants(), out);
    write_ids(" order_back=", node.descendants().rev(), out);
}

fn write_attributes_back<W: Write>(node: &Node<'_, '_>, out: &mut Output<'_, W>) {
    out.text(" attrs_back=[");
    let mut is_first = true;
    for attribute in node.attributes().rev() {
        write_name(gap(is_first), attribute.namespace(), attribute.name(), out);
        is_first = false;
    }
    out.text("]");
}

fn write_prefixes_back<W: Write>(node: &Node<'_, '_>, out: &mut Output<'_, W>) {
    out.text(" ns_back=[");
    let mut is_first = true;
    for namespace in node.namespaces().rev() {
        write_text(gap(is_first), namespace.name(), out);
        is_first = false;
    }
    out.text("]");
}
