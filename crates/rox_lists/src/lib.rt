//! The attributes and the namespaces of an element, and the names by which they are looked up.
#![tactic(auto)]

pub mod attributes;
mod debug;
pub mod layout;
pub mod names;
pub mod namespaces;
pub mod scopes;
pub mod search;
