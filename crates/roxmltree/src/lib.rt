//! A read-only tree of an XML document, in document order. `Document::parse` returns the tree of a text.
//!
//! ```
//! let text = "<books><book id='a'><title>Emma</title></book><book id='b'/></books>";
//! let document = Document::parse(alloc, text)?;
//! let books = document.root_element();
//! let book = books.first_element_child().expect(&rt, "a book");
//! assert!(rt; book.has_tag_name("book".into()) && book.attribute("id".into()) == Some("a"));
//! let title = book.first_element_child().expect(&rt, "a title");
//! assert!(rt; title.text() == Some("Emma"));
//! assert!(rt; books.children().count() == 2);
//! // a refused text
//! let refused = Document::parse(alloc, "<a>\n</b>").err().expect(&rt, "an error");
//! assert!(rt; refused.position() == Some(TextPos::new(2, 1)));
//! ```
#![tactic(auto)]

mod debug;
mod exchange;
mod iterators;
pub mod laws;
mod lookups;
mod node_content;
mod nodes;
mod options;
mod order;
mod parse;
mod positions;
mod tree;

pub use crate::iterators::{AxisIter, Children, Descendants};
pub use crate::node_content::NodeType;
pub use crate::nodes::{Node, NodeId, NodeIdTooLarge};
pub use crate::options::ParsingOptions;
pub use crate::tree::Document;
pub use rox_build::{EntityResolver, NoResolver, ResolveWith};
pub use rox_error::message::Message;
pub use rox_error::position::TextPos;
pub use rox_lists::attributes::{Attribute, Attributes};
pub use rox_lists::names::{ExpandedName, NS_XML_URI, NS_XMLNS_URI};
pub use rox_lists::namespaces::NamespaceIter;
pub use rox_rows::row::PI;
pub use rox_scopes::namespace::Namespace;
pub use rox_storage::storage::StringStorage;

/// The reason why a text is refused.
pub type Error = rox_error::error::Error<'static>;
