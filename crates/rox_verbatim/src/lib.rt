//! Names of elements and attributes, white space in tags, and values of attributes as they are written, by the fast path: they
//! are read from the source alone.
#![tactic(auto)]

pub mod quick_name;
pub mod quick_space;
pub mod quick_value;
