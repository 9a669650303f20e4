//! The definitions that XML is read by: characters, names, constructs, the tree of a text, scope and limits, all in
//! `specs/`, each with the section of the standard that it comes from; and the faults that a text can have.
#![tactic(auto)]

pub mod failure;
pub mod fault;
pub mod name;
