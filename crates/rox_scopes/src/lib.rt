//! Namespaces and scopes: the table of namespaces, what each scope lists, and how a prefix is found.
#![tactic(auto)]

pub mod bindings;
pub mod hidden;
pub mod namespace;
pub mod namespace_table;
pub mod prefix_set;
pub mod rope;
pub mod scope;
pub mod stored_scope;
