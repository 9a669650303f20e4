//! The rows of a tree: those of its nodes and attributes, and how many a text is expected to have.
#![tactic(auto)]

pub mod attributes;
pub mod forecast;
pub mod node_table;
pub mod row;
pub mod stored_attribute;
pub mod stored_node;
