//! Laws of all documents and of the calls on them, each a function whose contract is the law. No program needs them.
#![tactic(auto)]

pub mod exchanges;
pub mod laws;
pub mod theorem;
