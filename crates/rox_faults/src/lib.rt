//! The fault that reading meets is in the text, as the grammar says, and each fault in a text refuses it.
#![tactic(auto)]

pub mod faults;
