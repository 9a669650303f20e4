//! Start tags by the general step, which finds each fault in order.
#![tactic(auto)]

pub mod tag;
