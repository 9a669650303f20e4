//! Equality of short texts, and of the first bytes of texts, in line.
#![tactic(auto)]

pub mod compare;
pub mod same_front;
