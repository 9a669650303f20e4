//! Reading of the program's arguments.

ghost use Rattle.std.specs.Prelude.{◌≡◌, ◌<◌, map, length, string_bytes, IfOk, IfSome, IsNone, OnOk, option_map};
ghost use Rattle.rox_dump.specs.Command.{CommandView, meaning, nothing_asked, changed, limit_of, with_flag, with_value, with_file, with_last, command_with, command_of};

use crate::numbers::number;
use crate::options::{AnswerWord, Command, Options};
use std::alloc::{AllocError, Global};

/// What the program prints if its arguments are wrong.
pub const USAGE: &str =
    "usage: xmldump [--allow-dtd] [--nodes-limit N] [--axes] [--lookups] [--batch] [--ans-file PATH] [--ans-none] \
[--ans-err TEXT] [--main MAIN] FILE";

/// What an option asks for.
#[derive(Clone, Copy)]
enum Change<'a> {
    AllowDtd,
    NodesLimit(u32),
    Axes,
    Lookups,
    Batch,
    Answer(AnswerWord<'a>),
    Main(&'a str),
}

/// Reads the words after the program's name: `[--allow-dtd] [--nodes-limit N] [--axes] [--lookups] [--batch] [--ans-file PATH]
/// [--ans-none] [--ans-err TEXT] [--main MAIN] FILE`, the options in any order. Returns `None` if an argument is wrong: an
/// unknown word that begins with `-`, a limit that is not a `u32`, no FILE, or a second one.
pub fn command(alloc: Global, words: &[String]) -> Result<Option<Command<'_>>, AllocError>
    ensures { IfOk result (λ c. option_map meaning c ≡ command_of (map string_bytes words.now)) }
{
    let mut asked = no_command(alloc);
    let mut rest = words;
    while let Some((change, behind)) = next_option(rest) {
        apply(&mut asked, change)?;
        rest = behind;
    }
    match rest {
        [file] => Ok(file_command(asked, file.as_str())),
        _ => Ok(None),
    }
}

/// Returns the command of no words: nothing is asked for, and there is no file.
fn no_command<'a>(alloc: Global) -> Command<'a>
    ensures { meaning result ≡ nothing_asked }
{
    Command {
        options: Options::default(),
        answers: Vec::new(alloc),
        main: None,
        file: None,
    }
}

/// Returns what the first option asks for, and the words after it, or `None` if the words do not start with an option.
fn next_option(words: &[String]) -> Option<(Change<'_>, &[String])>
    ensures some { IfSome result (λ next. (a : CommandView)
        → command_with a (map string_bytes words.now)
        ≡ command_with (changed a next.0) (map string_bytes next.1.now)) }
    ensures fewer { IfSome result (λ next. length next.1.now < length words.now) }
    ensures none { IsNone result → (a : CommandView)
        → command_with a (map string_bytes words.now) ≡ with_last a (map string_bytes words.now) }
{
    let (word, rest) = words.split_first()?;
    if let Some(change) = flag(word.as_str()) {
        return Some((change, rest));
    }
    let (value, rest) = rest.split_first()?;
    let change = valued(word.as_str(), value.as_str())?;
    Some((change, rest))
}

/// Returns what an option without a value asks for, or `None` if the word is not such an option.
fn flag<'a>(word: &str) -> Option<Change<'a>>
    ensures { (a : CommandView) → option_map (changed a) result ≡ with_flag a word.now }
{
    match word {
        "--allow-dtd" => Some(Change::AllowDtd),
        "--axes" => Some(Change::Axes),
        "--lookups" => Some(Change::Lookups),
        "--batch" => Some(Change::Batch),
        "--ans-none" => Some(Change::Answer(AnswerWord::Nothing)),
        _ => None,
    }
}

/// Returns what an option asks for with its value, the next word, or `None` if the word is not an option with a value, or the
/// limit of nodes is not a `u32`.
fn valued<'a>(word: &str, value: &'a str) -> Option<Change<'a>>
    ensures { (a : CommandView) → option_map (changed a) result ≡ with_value a word.now value.now }
{
    match word {
        "--nodes-limit" => Some(Change::NodesLimit(limit(value)?)),
        "--ans-file" => Some(Change::Answer(AnswerWord::File(value))),
        "--ans-err" => Some(Change::Answer(AnswerWord::Refusal(value))),
        "--main" => Some(Change::Main(value)),
        _ => None,
    }
}

/// Returns the limit of nodes that this word gives, or `None` if it is not a `u32` in decimal digits.
fn limit(word: &str) -> Option<u32>
    ensures { result ≡ limit_of word.now }
{
    let number = number(word)?;
    u32::try_from(number).ok()
}

/// Adds what an option asks for.
fn apply<'a>(command: &mut Command<'a>, change: Change<'a>) -> Result<(), AllocError>
    ensures { OnOk result (meaning command.new ≡ changed (meaning command.old) change.entry) }
{
    match change {
        Change::AllowDtd => command.options.allow_dtd = true,
        Change::NodesLimit(limit) => command.options.nodes_limit = limit,
        Change::Axes => command.options.axes = true,
        Change::Lookups => command.options.lookups = true,
        Change::Batch => command.options.batch = true,
        Change::Answer(answer) => command.answers.push(answer)?,
        Change::Main(main) => command.main = Some(main),
    }
    Ok(())
}

/// Returns the command with this file, or `None` if the word begins with `-`. But `-` alone is standard input.
fn file_command<'a>(command: Command<'a>, word: &'a str) -> Option<Command<'a>>
    ensures { option_map meaning result ≡ with_file (meaning command.entry) word.now }
{
    if word == "-" {
        return Some(command);
    }
    if word.starts_with('-') {
        return None;
    }
    Some(Command {
        file: Some(word),
        ..command
    })
}
