//! From a text to the tables of its tree.
#![tactic(auto)]

pub mod content;
pub mod reader;

pub use rox_prolog::resolver::{EntityResolver, NoResolver, ResolveWith};
