//! What the program `benchmark` does: the command of its arguments, and measures of parsing, walks and memory.
#![tactic(auto)]

pub mod arguments;
pub mod clock;
pub mod fault;
pub mod figures;
pub mod memory;
pub mod report;
pub mod run;
pub mod turns;
pub mod walk;
pub mod work;
