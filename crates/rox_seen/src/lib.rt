//! What was read before: the names of a tag's attributes, and owned texts that may repeat.
#![tactic(auto)]

pub mod recent_texts;
pub mod recent_values;
pub mod seen_names;
