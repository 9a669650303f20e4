//! Text that may continue.

/// The text at the end of what is read, which adjacent pieces join.
#[derive(Clone, Copy)]
pub enum Pending {
    None,
    /// A text that has its row, which is the last.
    Written,
    /// A text that waits for its row, in a buffer (see `JoinedText`).
    Joined,
}

/// The text of `Pending::Joined`, and the range of its first piece in bytes. It is beside `Pending`, so that `Pending` is one
/// byte.
#[derive(Drop)]
pub struct JoinedText<'input> {
    pub text: String,
    /// The text as a slice of its source, as long as it is one.
    pub slice: Option<&'input str>,
    pub start: usize,
    pub end: usize,
}
