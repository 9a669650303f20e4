//! What the programs share: their arguments, the reading of input, the writing of text, and the faults that all of them may report.
#![tactic(auto)]

pub mod arguments;
pub mod buffered;
pub mod input;
pub mod output;
pub mod program_error;
