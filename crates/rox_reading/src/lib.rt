//! Reading from left to right, as functions: what is at a place and where it ends, or the first fault. The code gives exactly
//! this, and the theory shows that this is the grammar. Of the public clauses of parsing, only `first` rests on it.
#![tactic(auto)]
