//! The listing of a tree.

ghost use Rattle.std.specs.Prelude.{◌≤◌, OnOk, flat_map, map};
ghost use Rattle.std.specs.Io.KnownBytes.{Appends};
ghost use Rattle.rox_programs.specs.Output.{Writes};
ghost use Rattle.roxmltree.specs.NodeRef.{item_of, node_ref};
ghost use Rattle.roxmltree.specs.NodeParts.{local_of, namespace_of};
ghost use Rattle.xmltree.specs.Listing.{element_line, name_line, reached_line};

use crate::entries::{Entry, attribute_entries, namespace_entries};
use crate::output::{write_debug, write_range};
use rox_programs::output::Output;
use rox_programs::program_error::ProgramError;
use roxmltree::{Document, Node, NodeId, NodeType, PI};
use std::alloc::{AllocError, Global};
use std::io::Write;

/// Writes the tree of a document, one node after the other, in a loop: no depth of the tree uses up the stack.
pub fn write_document<W: Write>(
    alloc: Global,
    document: &Document<'_>,
    out: &mut W,
) -> Result<(), ProgramError> {
    let mut out = Output::new(out);
    out.text("Document:\n");
    let listed = write_nodes(alloc, document, &mut out);
    out.into_result()?;
    Ok(listed?)
}

/// Writes a line for each of these elements: its range in bytes and its name.
pub fn write_elements<W: Write>(elements: &[Node<'_, '_>], out: &mut W) -> Result<(), ProgramError>
    ensures { OnOk result (Appends (W.contents out.old) (W.contents out.new)
        (flat_map reached_line (map node_ref elements.now))) }
{
    let mut out = Output::new(out);
    for element in elements {
        write_element_line(element, &mut out);
        if out.has_failed() {
            return Ok(out.into_result()?);
        }
    }
    Ok(out.into_result()?)
}

// Writes the range of an element and its name.
fn write_element_line<W: Write>(element: &Node<'_, '_>, out: &mut Output<'_, W>)
    ensures { Writes W.contents out.old out.new (element_line (item_of element.now)) }
{
    write_range(element.range(), out);
    out.text(" ");
    write_name(element, out);
}

fn write_nodes<W: Write>(
    alloc: Global,
    document: &Document<'_>,
    out: &mut Output<'_, W>,
) -> Result<(), AllocError> {
    // the elements around the node, the outermost first
    let mut open = Vec::new(alloc);
    for node in document.descendants() {
        if let Some(parent) = node.parent() {
            leave(&mut open, parent.id());
            write_node(alloc, &node, open.len(), out)?;
            if node.has_children() {
                open.push(node.id())?;
            }
        }
        if out.has_failed() {
            break;
        }
    }
    Ok(())
}

// Removes the elements after `parent` from `open`: all of them, if `parent` is the root node.
fn leave(open: &mut Vec<NodeId>, parent: NodeId) {
    let kept = match open.iter().rposition(|id| *id == parent) {
        Some(at) => at + 1,
        None => 0,
    };
    open.truncate(kept);
}

fn write_node<W: Write>(
    alloc: Global,
    node: &Node<'_, '_>,
    depth: usize,
    out: &mut Output<'_, W>,
) -> Result<(), AllocError> {
    match node.node_type() {
        NodeType::Root => {}
        NodeType::Element => write_element(alloc, node, depth, out)?,
        NodeType::Text => write_text("- Text: ", node, depth, out),
        NodeType::Comment => write_text("- Comment: ", node, depth, out),
        NodeType::PI => write_pi(node, depth, out),
    }
    Ok(())
}

fn write_element<W: Write>(
    alloc: Global,
    node: &Node<'_, '_>,
    depth: usize,
    out: &mut Output<'_, W>,
) -> Result<(), AllocError> {
    write_label("- Element:\n", depth, 1, out);
    // a tag name has no `@` if its URI is empty
    write_label("tag_name: ", depth, 3, out);
    write_name(node, out);
    write_attributes(alloc, node, depth, out)?;
    write_namespaces(alloc, node, depth, out)?;
    if node.has_children() {
        write_label("children:\n", depth, 3, out);
    }
    Ok(())
}

fn write_name<W: Write>(node: &Node<'_, '_>, out: &mut Output<'_, W>)
    ensures { Writes W.contents out.old out.new
        (name_line (local_of (item_of node.now)) (namespace_of (item_of node.now))) }
{
    let name = node.tag_name();
    let uri = name.namespace().unwrap_or("");
    out.text(name.name());
    if !uri.is_empty() {
        out.text("@");
        out.text(uri);
    }
    out.text("\n");
}

fn write_attributes<W: Write>(
    alloc: Global,
    node: &Node<'_, '_>,
    depth: usize,
    out: &mut Output<'_, W>,
) -> Result<(), AllocError> {
    let entries = attribute_entries(alloc, node)?;
    write_title("attributes:\n", &entries, depth, out);
    for entry in &entries {
        write_label(entry.name.as_str(), depth, 4, out);
        write_quoted(": ", entry.value, out);
    }
    Ok(())
}

fn write_namespaces<W: Write>(
    alloc: Global,
    node: &Node<'_, '_>,
    depth: usize,
    out: &mut Output<'_, W>,
) -> Result<(), AllocError> {
    let entries = namespace_entries(alloc, node)?;
    write_title("namespaces:\n", &entries, depth, out);
    for entry in &entries {
        write_label(entry.name.as_str(), depth, 4, out);
        out.text(": ");
        out.text(entry.value);
        out.text("\n");
    }
    Ok(())
}

// Writes the line before some entries, or nothing if there are none.
fn write_title<W: Write>(
    title: &str,
    entries: &[Entry<'_>],
    depth: usize,
    out: &mut Output<'_, W>,
) {
    if !entries.is_empty() {
        write_label(title, depth, 3, out);
    }
}

fn write_text<W: Write>(kind: &str, node: &Node<'_, '_>, depth: usize, out: &mut Output<'_, W>) {
    let text = node.text().unwrap_or("");
    write_label(kind, depth, 1, out);
    write_quoted("", text, out);
}

// Writes a processing instruction, unless it is beside the root element: that is not listed.
fn write_pi<W: Write>(node: &Node<'_, '_>, depth: usize, out: &mut Output<'_, W>) {
    if depth == 0 {
        return;
    }
    if let Some(pi) = node.pi() {
        write_instruction(pi, depth, out);
    }
}

fn write_instruction<W: Write>(pi: PI<'_>, depth: usize, out: &mut Output<'_, W>) {
    write_label("- PI:\n", depth, 1, out);
    write_label("target: ", depth, 3, out);
    write_quoted("", pi.target, out);
    if let Some(value) = pi.value {
        write_label("value: ", depth, 3, out);
        write_quoted("", value, out);
    }
}

// Writes a text in its debug form after `mark`, and ends the line.
fn write_quoted<W: Write>(mark: &str, text: &str, out: &mut Output<'_, W>) {
    out.text(mark);
    write_debug(text, out);
    out.text("\n");
}

// Eight indentations: the lines of an element's children have six more spaces than its own.
const SPACES: &[u8; 48] = b"                                                ";

// Writes the start of a line: six spaces for each element around its node, two for each of `steps`, and `label`.
fn write_label<W: Write>(label: &str, depth: usize, steps: usize, out: &mut Output<'_, W>)
    requires { steps ≤ 24 }
{
    for _ in 0..depth / 8 {
        out.bytes(SPACES);
    }
    out.bytes(&SPACES[..depth % 8 * 6]);
    out.bytes(&SPACES[..steps * 2]);
    out.text(label);
}
