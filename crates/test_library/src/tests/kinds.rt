//! The kinds of nodes.

use super::{document_of, node_of, same};
use roxmltree::Node;

/// Whether a node is the root node, an element, a text, a comment, and a processing instruction.
fn kinds(node: &Node<'_, '_>) -> [bool; 5] {
    [
        node.is_root(),
        node.is_element(),
        node.is_text(),
        node.is_comment(),
        node.is_pi(),
    ]
}

#[test]
fn each_node_is_of_one_kind(rt: HostRuntime) {
    let document = document_of(&rt, "<r>x<!--c--><?t w?></r>");
    for id in 0..5 {
        let mut wanted = [false; 5];
        wanted[id as usize] = true;
        same(&rt, "kinds", kinds(&node_of(&document, &rt, id)), wanted);
    }
}
