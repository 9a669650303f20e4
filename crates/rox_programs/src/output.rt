//! Where a program writes its text.

use std::io;
use std::io::Write;

/// A writer, and the result of what was written. After its first error nothing more is written, so only the end of a text has to
/// check `result`. It has no `Drop`, so it has to end in `into_result`.
pub struct Output<'o, W: Write> {
    /// The writer.
    pub writer: &'o mut W,
    /// The first error of the writer, or `Ok` if there was none yet.
    pub result: io::Result<()>,
}

impl<'o, W: Write> Output<'o, W> {
    ghost use Rattle.std.specs.Prelude.{◌≡◌, Ok, is_err};
    ghost use Rattle.rox_programs.specs.Output.{Writes};

    /// Returns an output to this writer, to which nothing was written yet.
    pub fn new(writer: &'o mut W) -> Output<'o, W>
        ensures same { result.writer.ghost_name ≡ writer.entry.ghost_name }
        ensures writer { result.writer.now ≡ writer.old }
        ensures fine { result.result ≡ Ok tt }
    {
        Output {
            writer,
            result: Ok(()),
        }
    }

    /// Returns the result of all that was written.
    pub fn into_result(self) -> io::Result<()>
        ensures value { result ≡ self.entry.result }
        ensures writer { self.exit.0.now ≡ self.entry.writer.now }
    {
        let Output { writer: _, result } = self;
        result
    }

    /// Returns whether something could not be written.
    pub fn has_failed(&self) -> bool
        ensures { result ≡ is_err self.now.result }
    {
        self.result.is_err()
    }

    /// Writes some bytes.
    pub fn bytes(&mut self, bytes: &[u8])
        ensures { Writes W.contents self.old self.new bytes.now }
    {
        if self.result.is_ok() {
            self.result = self.writer.write_all(bytes);
        }
    }

    /// Writes a text unchanged.
    pub fn text(&mut self, text: &str)
        ensures { Writes W.contents self.old self.new text.now }
    {
        self.bytes(text.as_bytes());
    }
}
