//! What the program is asked to do.

/// How texts are read, and what is written of them.
#[derive(Clone, Copy)]
pub struct Options {
    /// Whether a document with a DOCTYPE is read.
    pub allow_dtd: bool,
    /// How many nodes a document may have.
    pub nodes_limit: u32,
    /// Whether each node has a second line, for its axes.
    pub axes: bool,
    /// Whether each node has a line for its look-ups.
    pub lookups: bool,
    /// Whether the input is a batch of texts.
    pub batch: bool,
}

impl Default for Options {
    ghost use Rattle.std.specs.Prelude.{◌≡◌};
    ghost use Rattle.rox_dump.specs.Command.{no_options};

    ghost is_default = { λ options. options ≡ no_options };

    fn default() -> Options {
        Options {
            allow_dtd: false,
            nodes_limit: u32::MAX,
            axes: false,
            lookups: false,
            batch: false,
        }
    }
}

/// What the resolver of external entities is to answer.
#[derive(Clone, Copy)]
pub enum AnswerWord<'a> {
    /// The text of this file.
    File(&'a str),
    /// No text.
    Nothing,
    /// A refusal in these words.
    Refusal(&'a str),
}

/// What the words after the program's name ask for.
#[derive(Drop)]
pub struct Command<'a> {
    /// How texts are read, and what is written of them.
    pub options: Options,
    /// The answers to the first request, the second, and so on; the last answers all later requests.
    pub answers: Vec<AnswerWord<'a>>,
    /// The file of the main text. If there is one, it is parsed for each text of the input, which is then the answer to every
    /// request.
    pub main: Option<&'a str>,
    /// The file that is read, or `None` for standard input.
    pub file: Option<&'a str>,
}
