//! Path queries: the elements that a path of names reaches, such as `/svg/{http://www.w3.org/2000/svg}g//path`.
#![tactic(auto)]

pub mod parse;
pub mod selection;
pub mod steps;

pub use crate::parse::{PathError, parse_path};
pub use crate::selection::select;
pub use crate::steps::Step;
