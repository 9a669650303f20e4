//! Start tags by the fast path: their attributes and declarations, read into the tables of their elements.
#![tactic(auto)]

pub mod deferred_names;
pub mod own_declaration;
pub mod quick_tag;
pub mod repeated_declaration;
pub mod root_tag;
