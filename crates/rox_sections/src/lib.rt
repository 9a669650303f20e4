//! Character data, comments, processing instructions and CDATA sections by the fast path.
#![tactic(auto)]

pub mod quick_data;
pub mod quick_sections;
