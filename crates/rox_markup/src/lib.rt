//! Markup: the constructs that contain no others, read from the cursor. Each function returns what is there, or the first fault,
//! and moves the cursor past it.
#![tactic(auto)]

pub mod doctype;
pub mod markup;
pub mod source;
pub mod tag;
pub mod xml_decl;
