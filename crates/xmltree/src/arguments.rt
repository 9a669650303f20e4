//! The arguments of the program.

ghost use Rattle.std.specs.Prelude.{◌≡◌, map, string_bytes, IfOk, option_map};
ghost use Rattle.xmltree.specs.Command.{meaning, command_of, command_behind, command_with};

use crate::options::Command;
use std::alloc::{AllocError, Global};

/// The text that the program prints if its arguments are wrong.
pub const USAGE: &str = "usage: xmltree [--allow-dtd] [--path P] [FILE]";

/// Returns the command of the words after the program's name: `[--allow-dtd] [--path P] [FILE]`. P may begin with any character.
///
/// Returns `None` for a wrong argument. A word that begins with `-` is wrong, except P, `--allow-dtd` as the first word, and
/// `--path` before P. A second FILE is wrong too.
pub fn command(alloc: Global, words: &[String]) -> Result<Option<Command>, AllocError>
    ensures { IfOk result (λ c. option_map meaning c ≡ command_of (map string_bytes words.now)) }
{
    match words.split_first() {
        Some((first, rest)) if first.as_str() == "--allow-dtd" => with_path(alloc, true, rest),
        _ => with_path(alloc, false, words),
    }
}

/// Returns the command whose last words are these: a path or none, and a FILE or none.
#[tactic(auto, unfolding(crate::specs::Command::command_behind))]
fn with_path(
    alloc: Global,
    allow_dtd: bool,
    words: &[String],
) -> Result<Option<Command>, AllocError>
    ensures { IfOk result
        (λ c. option_map meaning c ≡ command_behind allow_dtd (map string_bytes words.now)) }
{
    match words {
        [option, path, rest @ ..] if option.as_str() == "--path" => {
            let path = path.clone()?;
            with_file(alloc, allow_dtd, Some(path), rest)
        }
        _ => with_file(alloc, allow_dtd, None, words),
    }
}

/// Returns the command whose last words are these: none, or a FILE.
fn with_file(
    alloc: Global,
    allow_dtd: bool,
    path: Option<String>,
    words: &[String],
) -> Result<Option<Command>, AllocError>
    ensures { IfOk result
        (λ c. option_map meaning c
        ≡ command_with allow_dtd (option_map string_bytes path) (map string_bytes words.now)) }
{
    match words {
        [] => Ok(Some(Command {
            allow_dtd,
            path,
            file: None,
        })),
        [file] if !file.as_str().starts_with('-') => {
            let file = file.clone()?;
            Ok(Some(Command {
                allow_dtd,
                path,
                file: Some(file),
            }))
        }
        _ => Ok(None),
    }
}
