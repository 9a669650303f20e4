//! The errors that callers are given: the kind of the fault, its row and column, and its message.
#![tactic(auto)]

mod counting;
pub mod error;
pub mod from_fault;
pub mod message;
pub mod position;
