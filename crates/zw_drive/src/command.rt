// The words of a command line.
ghost use Rattle.std.specs.Prelude.{◌≡◌, IfOk};
ghost use Rattle.zw_drive.specs.Commands.{Asks, command_of, command_on, line_of};

use std::alloc::Global;
use zw_base::{Oom, Word};
use zw_calls::{RequestWords, read_request};

/// What a command line asks for.
#[derive(Debug, Drop)]
pub enum Command<'a> {
    /// Checks the tree of files below this root.
    Check { root: &'a Word },
    /// Builds the tree of files below this root, and writes the module.
    Build { root: &'a Word },
    /// Reads and validates the module's file at this path.
    Validate { file: &'a Word },
    /// Runs calls of a module's file.
    Exec { request: RequestWords<'a> },
    /// Nothing: the words are no command.
    Unknown,
}

/// The command that these words are.
pub fn read_command(alloc: Global, words: &[Word]) -> Result<Command<'_>, Oom>
    ensures { IfOk result (λ command. Asks words.now (line_of command)) }
{
    let Some((verb, behind)) = words.split_first() else {
        return Ok(Command::Unknown);
    };
    if verb.bytes() != b"exec".as_slice() {
        return Ok(read_plain_command(words));
    }
    match read_request(alloc, behind)? {
        Some(request) => Ok(Command::Exec { request }),
        None => Ok(Command::Unknown),
    }
}

/// The command of a verb and one word that these words are.
fn read_plain_command(words: &[Word]) -> Command<'_>
    ensures { line_of result ≡ command_of words.now }
{
    match words {
        [verb, word] if !word.bytes().is_empty() => read_command_on(verb, word),
        _ => Command::Unknown,
    }
}

/// The command of a verb and one word.
fn read_command_on<'a>(verb: &Word, word: &'a Word) -> Command<'a>
    ensures { line_of result ≡ command_on verb.now word.now }
{
    if verb.bytes() == b"check".as_slice() {
        return Command::Check { root: word };
    }
    if verb.bytes() == b"build".as_slice() {
        return Command::Build { root: word };
    }
    if verb.bytes() == b"validate".as_slice() {
        return Command::Validate { file: word };
    }
    Command::Unknown
}
