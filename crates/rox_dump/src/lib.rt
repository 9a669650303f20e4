//! What `xmldump` does without a document: its words, the answers of a resolver, the texts of a batch, and how texts, numbers and names
//! are written. It does not use the library, so it is proved while that still is.
#![tactic(auto)]

pub mod answers;
pub mod arguments;
pub mod cases;
pub mod escape;
pub mod numbers;
pub mod options;
pub mod output;
