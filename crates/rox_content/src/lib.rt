//! Content by the fast path: elements, one construct after another, and the start tag of the root element.
#![tactic(auto)]

pub mod quick_content;
pub mod quick_elements;
pub mod quick_root;
