//! The growth of tables.
#![tactic(auto)]

pub mod growth;
