//! Bytes of a source: sets of bytes, classes of characters, runs of both, searches, and windows of sixteen bytes.
#![tactic(auto)]

pub mod byte_set;
pub mod chars;
pub mod near;
pub mod nibbles;
pub mod runs;
pub mod search;
pub mod window;
