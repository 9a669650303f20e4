//! What the library answers where no dump, no command and no example shows it: texts that are made by code, limits, the kinds of
//! nodes, elements alone and exchanged, a resolver of a caller's own type, positions inside of characters and past the end, what is
//! equal, order and hashes, copies that take memory, what `Debug` prints, and how low ropes stay. The crate has only tests.
#![tactic(auto)]

#[cfg(test)]
mod tests;
