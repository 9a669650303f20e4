//! Elements found by their ids.

ghost use Rattle.std.specs.Prelude.{◌≡◌, option_map, find};
ghost use Rattle.roxmltree.specs.NodeRef.{node_ref};
ghost use Rattle.rox_uses.specs.Ids.{has_id};
ghost use Rattle.rox_uses.specs.Nodes.{nodes_of};

use roxmltree::{Document, Node};

/// Returns the first element, in document order, whose attribute `id` has this value, or `None` if there is none.
pub fn element_by_id<'a, 'input>(
    document: &'a Document<'input>,
    id: &str,
) -> Option<Node<'a, 'input>>
    ensures { option_map node_ref result ≡ find (has_id id.now) (nodes_of document.now) }
{
    for node in document.descendants() {
        if node.attribute("id".into()) == Some(id) {
            return Some(node);
        }
    }
    None
}
