//! How reading from left to right relates to the written grammar.
#![tactic(auto)]

pub mod doctype;
pub mod document;
pub mod expansion;
pub mod items;
pub mod laws;
