//! The attributes and namespaces of an element, as they are listed.

use roxmltree::Node;
use std::alloc::{AllocError, Global};
use std::borrow::CowStr;

/// A name and its value.
#[derive(Drop)]
pub struct Entry<'a> {
    /// The name of an attribute, with its URI, or the prefix of a namespace.
    pub name: CowStr<'a>,
    /// The value of the attribute, or the URI of the namespace.
    pub value: &'a str,
}

/// Returns the attributes of a node, sorted by name. A name is a local name and, if there is a namespace, `@` and its URI.
pub fn attribute_entries<'a>(
    alloc: Global,
    node: &Node<'a, '_>,
) -> Result<Vec<Entry<'a>>, AllocError> {
    let mut entries = Vec::new(alloc);
    for attribute in node.attributes() {
        let name = full_name(alloc, attribute.name(), attribute.namespace())?;
        let value = attribute.value();
        entries.push(Entry { name, value })?;
    }
    sort(&mut entries)?;
    Ok(entries)
}

/// Returns the namespaces that a node lists, sorted by prefix, with `None` for the default. An empty URI is shown as `""`.
pub fn namespace_entries<'a>(
    alloc: Global,
    node: &Node<'a, '_>,
) -> Result<Vec<Entry<'a>>, AllocError> {
    let mut entries = Vec::new(alloc);
    for namespace in node.namespaces() {
        let name = CowStr::Borrowed(namespace.name().unwrap_or("None"));
        let uri = namespace.uri();
        let value = if uri.is_empty() { "\"\"" } else { uri };
        entries.push(Entry { name, value })?;
    }
    sort(&mut entries)?;
    Ok(entries)
}

fn full_name<'a>(
    alloc: Global,
    local: &'a str,
    uri: Option<&str>,
) -> Result<CowStr<'a>, AllocError> {
    match uri {
        None => Ok(CowStr::Borrowed(local)),
        Some(uri) => Ok(CowStr::Owned(format!(in alloc; "{local}@{uri}")?)),
    }
}

// Sorts by the bytes of the names. Entries with one name keep their order.
fn sort(entries: &mut Vec<Entry<'_>>) -> Result<(), AllocError> {
    entries.sort_by(|a, b| a.name.as_str().cmp(&b.name.as_str()))
}
