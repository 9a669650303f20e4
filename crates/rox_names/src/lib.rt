//! The tables of a tree, and what a tag names: its declarations, its scope, the names of its attributes with their tests, and the
//! names of open elements.
#![tactic(auto)]

pub mod expanded_names;
pub mod namespace_decl;
pub mod open_element;
pub mod resolve;
pub mod start_tag;
pub mod tables;
pub mod tag_scope;
pub mod unresolved_attribute;
