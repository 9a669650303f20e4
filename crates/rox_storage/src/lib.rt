//! The texts that a tree stores, which are slices of the input or owned.
#![tactic(auto)]

pub mod storage;
