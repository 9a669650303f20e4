//! Reading of the program's arguments.

ghost use Rattle.std.specs.Prelude.{◌≡◌, map, string_bytes, IfOk, option_map};
ghost use Rattle.rox_measures.specs.Command.{meaning, AsksFor, with_file, Gives};

use std::alloc::AllocError;

/// What the program prints if its arguments are wrong.
pub const USAGE: &str = "usage: benchmark FILE [SECONDS]";

/// The seconds that are spent if the arguments do not give a number.
const SECONDS: u32 = 4;

/// What the words after the program's name ask for.
#[derive(Drop)]
pub struct Command {
    /// The file that is measured.
    pub file: String,
    /// About how many seconds its measures take.
    pub seconds: u32,
}

/// Reads the words after the program's name: `FILE [SECONDS]`. Returns `None` if an argument is wrong: a FILE that begins with
/// `-`, SECONDS that are not a number below 2^32, or another count of words.
pub fn read(words: &[String]) -> Result<Option<Command>, AllocError>
    ensures { IfOk result (λ c. AsksFor (map string_bytes words.now) (option_map meaning c)) }
{
    match words {
        [file] => for_file(file, Some(SECONDS)),
        [file, word] => for_file(file, seconds(word.as_str())),
        _ => Ok(None),
    }
}

/// Returns the number of seconds that a word gives, or `None` if it is not a number below 2^32.
fn seconds(word: &str) -> Option<u32>
    ensures { Gives word.now result }
{
    word.parse().ok()
}

/// Returns the command for a file, or `None` if `seconds` is `None` or the file's name begins with `-`.
fn for_file(file: &String, seconds: Option<u32>) -> Result<Option<Command>, AllocError>
    ensures { IfOk result (λ c. option_map meaning c ≡ with_file (string_bytes file.now) seconds) }
{
    match seconds {
        Some(seconds) if !file.as_str().starts_with('-') => {
            let file = file.clone()?;
            Ok(Some(Command { file, seconds }))
        }
        _ => Ok(None),
    }
}
