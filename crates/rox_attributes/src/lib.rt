//! Attributes by the fast path, put into their table, with their namespaces.
#![tactic(auto)]

pub mod any_value;
pub mod prefix_cache;
pub mod quick_attribute;
