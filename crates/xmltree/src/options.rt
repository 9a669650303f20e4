//! The options of the program.

/// What the words after the program's name ask for.
#[derive(Drop)]
pub struct Command {
    /// Whether a document with a DOCTYPE is read.
    pub allow_dtd: bool,
    /// The path of the nodes to print, or `None` for the whole tree.
    pub path: Option<String>,
    /// The file to read, or `None` for standard input.
    pub file: Option<String>,
}
