//! The constructs of content by the general step, with their faults, each read into the builder.
#![tactic(auto)]

pub mod constructs;
pub mod data_parts;
pub mod misc;
pub mod parsed;
