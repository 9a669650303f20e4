//! The scanner: an offset in a source, the small steps that read from it, and character data as it is written. Each step returns
//! what is there, or the first fault, and moves the cursor past it.
#![tactic(auto)]

pub mod character_data;
pub mod cursor;
pub mod lookahead;
pub mod raw_attribute;
pub mod short_run;
