//! The tables as they grow: the open elements, and the text that may continue.
#![tactic(auto)]

pub mod builder;
pub mod pending;
pub mod text_nodes;
