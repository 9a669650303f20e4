//! Walks over a document.
//!
//! ```
//! use rox_measures::walk::{count, walk, walk_links};
//!
//! let text = "<r a='1' xmlns:p='uv'><p:b p:c='&lt;e'/>text<!--skip--></r>";
//! let document = Document::parse(alloc, text)?;
//! let census = count(&document);
//! assert!(rt; [census.nodes, census.elements, census.attributes] == [5, 2, 2]);
//! // one for each node; `r`; `a` and `1`; `b` and `uv`; `c`, `uv` and `<e`; `text`
//! assert!(rt; walk(&document, 100) == 100 + 5 + 1 + 2 + 3 + 5 + 4);
//! assert!(rt; walk_links(&document, 100) == 100 + 5);
//! ```

use roxmltree::{Document, Node};

/// Reads of each node the tag name and all attributes, with names, namespaces and values, or the text. Returns the sum of `start`
/// and, for each node, 1 and the bytes of these strings. Sums wrap.
#[inline(never)]
pub fn walk(document: &Document<'_>, start: u64) -> u64 {
    let mut sum = start;
    for node in document.descendants() {
        sum = sum.wrapping_add(weight(node));
    }
    sum
}

// One for the node, and the bytes of its strings.
#[inline]
fn weight(node: Node<'_, '_>) -> u64 {
    let mut sum = 1u64;
    if node.is_element() {
        let name = node.tag_name();
        sum = sum
            .wrapping_add(name.name().len() as u64)
            .wrapping_add(uri_weight(name.namespace()));
        for attribute in node.attributes() {
            sum = sum
                .wrapping_add(attribute.name().len() as u64)
                .wrapping_add(attribute.value().len() as u64)
                .wrapping_add(uri_weight(attribute.namespace()));
        }
    } else if node.is_text() {
        sum = sum.wrapping_add(node.text().map_or(0, |text| text.len() as u64));
    }
    sum
}

#[inline]
fn uri_weight(uri: Option<&str>) -> u64 {
    uri.map_or(0, |uri| uri.len() as u64)
}

/// Visits each node in document order by `first_child`, `next_sibling` and `parent`. Returns the sum of `start` and 1 for each
/// node. Sums wrap.
#[inline(never)]
pub fn walk_links(document: &Document<'_>, start: u64) -> u64 {
    let mut count = start;
    let mut next = Some(document.root());
    for _ in 0..u64::MAX {
        let Some(node) = next else {
            break;
        };
        count = count.wrapping_add(1);
        next = match node.first_child() {
            Some(child) => Some(child),
            None => next_beside(node),
        };
    }
    count
}

// The next node in document order that is not below this one.
#[inline]
fn next_beside<'a, 'input>(node: Node<'a, 'input>) -> Option<Node<'a, 'input>> {
    let mut last = node;
    for _ in 0..u64::MAX {
        if let Some(sibling) = last.next_sibling() {
            return Some(sibling);
        }
        last = last.parent()?;
    }
    None
}

/// Numbers of parts of a document.
#[derive(Clone, Copy)]
pub struct Census {
    /// The number of nodes, the root node among them.
    pub nodes: u64,
    /// The number of elements.
    pub elements: u64,
    /// The number of attributes of all elements, without declarations of namespaces.
    pub attributes: u64,
}

/// Counts the nodes, the elements among them, and the attributes of all elements.
pub fn count(document: &Document<'_>) -> Census {
    let mut found = Census {
        nodes: 0,
        elements: 0,
        attributes: 0,
    };
    for node in document.descendants() {
        found.nodes = found.nodes.wrapping_add(1);
        if node.is_element() {
            found.elements = found.elements.wrapping_add(1);
        }
        let attributes = node.attributes().len() as u64;
        found.attributes = found.attributes.wrapping_add(attributes);
    }
    found
}
