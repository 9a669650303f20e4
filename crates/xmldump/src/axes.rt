//! The second line of a node: its nearest elements, and what stands along each axis.

ghost use Rattle.std.specs.Iterator.{IsFinite};

use crate::node::write_link;
use rox_dump::output::{write_number, write_truth};
use rox_programs::output::Output;
use roxmltree::Node;
use std::io::Write;

/// Writes the second line of a node.
pub fn write_axes<W: Write>(node: &Node<'_, '_>, out: &mut Output<'_, W>) {
    write_elements(node, out);
    write_truth(" sib=", node.has_siblings(), out);
    write_truth(" kids=", node.has_children(), out);
    write_axes_around(node, out);
    write_axes_below(node, out);
    out.text(" desc=");
    write_number(node.descendants().len() as u64, out);
    out.text("\n");
}

fn write_elements<W: Write>(node: &Node<'_, '_>, out: &mut Output<'_, W>) {
    write_link(&node.parent_element(), "  pe=", out);
    write_link(&node.prev_sibling_element(), " pse=", out);
    write_link(&node.next_sibling_element(), " nse=", out);
    write_link(&node.first_element_child(), " fec=", out);
    write_link(&node.last_element_child(), " lec=", out);
}

fn write_axes_around<W: Write>(node: &Node<'_, '_>, out: &mut Output<'_, W>) {
    write_ids(" anc=", node.ancestors(), out);
    write_ids(" prevs=", node.prev_siblings(), out);
    write_ids(" nexts=", node.next_siblings(), out);
}

fn write_axes_below<W: Write>(node: &Node<'_, '_>, out: &mut Output<'_, W>) {
    write_ids(" firsts=", node.first_children(), out);
    write_ids(" lasts=", node.last_children(), out);
    write_ids(" children=", node.children(), out);
    write_ids(" children_back=", node.children().rev(), out);
}

/// Writes a label and the ids of some nodes, with commas between them.
pub fn write_ids<'a, I: Iterator<Item = Node<'a, 'a>>, W: Write>(
    label: &str,
    nodes: I,
    out: &mut Output<'_, W>,
)
    requires can { I.can_next nodes }
    requires finite { IsFinite (I.remaining nodes) }
{
    out.text(label);
    let mut is_first = true;
    for node in nodes {
        out.text(if is_first { "" } else { "," });
        write_number(node.id().get() as u64, out);
        is_first = false;
    }
}
