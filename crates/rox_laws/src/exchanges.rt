//! Laws of elements that are exchanged for others, each a function whose contract is the law.

ghost use Rattle.std.specs.Prelude.{◌≡◌, true, false};
ghost use Rattle.rox_exchange.specs.ExchangeLaws.{AreSeparate, StaysContained, GoesBack, Commutes};
ghost use Rattle.roxmltree.specs.SelfContained.{stands_alone};
ghost use Rattle.roxmltree.specs.NodeRef.{id_of, document_of, tree_of};
ghost use Rattle.roxmltree.specs.Elements.{root_id};

use crate::laws::whole;
use roxmltree::laws::document_is_whole;
use roxmltree::{Document, Node};

/// States that the root element of a document without a document type declaration is self-contained. Its only ancestor is the
/// root node, which lists nothing. So `exchange` accepts every such document as its other one, as those that `reparse` returns.
pub fn root_elements_stand_alone(document: &Document<'_>)
    ensures { document.now.dtd ≡ false → stands_alone document.now (root_id document.now.tree) ≡ true }
{
    document_is_whole(document);
}

/// States that the element which `exchange` puts in is self-contained. States too that each node outside of it stays
/// self-contained if it was so before.
pub fn elements_stay_contained(node: Node<'_, '_>, other: &Document<'_>)
    requires mine { stands_alone (document_of node) (id_of node) ≡ true }
    requires others { stands_alone other.now (root_id other.now.tree) ≡ true }
    ensures { StaysContained (tree_of node.entry) (id_of node.entry) other.now.tree (root_id other.now.tree) }
{}

/// States that exchanging the new element for the old one again gives the first text and the first tree.
pub fn exchanges_go_back(node: Node<'_, '_>, other: &Document<'_>)
    requires mine { stands_alone (document_of node) (id_of node) ≡ true }
    requires others { stands_alone other.now (root_id other.now.tree) ≡ true }
    ensures { GoesBack (tree_of node.entry) (document_of node.entry).text (id_of node.entry) other.now.tree other.now.text (root_id other.now.tree) }
{
    whole(node);
    document_is_whole(other);
}

/// States that two exchanges at separate nodes of one document give the same text and the same tree in either order. Nodes are
/// separate if neither is a descendant of the other.
pub fn exchanges_commute(
    first: Node<'_, '_>,
    one: &Document<'_>,
    second: Node<'_, '_>,
    two: &Document<'_>,
)
    requires document { document_of second ≡ document_of first }
    requires separate { AreSeparate (tree_of first) (id_of first) (id_of second) }
    requires first { stands_alone (document_of first) (id_of first) ≡ true }
    requires second { stands_alone (document_of second) (id_of second) ≡ true }
    requires one { stands_alone one.now (root_id one.now.tree) ≡ true }
    requires two { stands_alone two.now (root_id two.now.tree) ≡ true }
    ensures { Commutes (tree_of first.entry) (document_of first.entry).text (id_of first.entry) one.now.tree one.now.text (root_id one.now.tree) (id_of second.entry) two.now.tree two.now.text (root_id two.now.tree) }
{
    whole(first);
    document_is_whole(one);
    document_is_whole(two);
}
