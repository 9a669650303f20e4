//! The prolog: document type declarations, and what answers for external entities.
#![tactic(auto)]

pub mod dtd;
pub mod prolog;
pub mod resolver;
