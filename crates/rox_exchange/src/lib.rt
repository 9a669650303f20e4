//! Each construct, content and elements are wherever the same bytes are. So an element of a document is a document, and an
//! element of another document may replace it.
#![tactic(auto)]

pub mod exchanges;
pub mod laws;
pub mod parts;
pub mod whole;
