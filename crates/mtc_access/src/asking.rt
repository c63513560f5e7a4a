//! Which commands only ask.

ghost use Rattle.std.specs.Prelude.{◌≡◌, map, string_bytes, IfOk};
ghost use Rattle.mtc_words.specs.Commands.{command_value};
ghost use Rattle.mtc_words.specs.Words.{command_of};
ghost use Rattle.mtc_access.specs.Asking.{asks_only, words_ask_only};

use mtc_io::Memory;
use mtc_words::{Command, WordError, read_words};
use std::alloc::Global;

/// Whether a command opens journals, and only reads them and the files beside them.
pub fn only_asks(command: &Command<'_>) -> bool
    ensures { result ≡ asks_only (command_value command.now) }
{
    match command {
        Command::Checkpoint(_) => true,
        Command::Entries(_, _) => true,
        Command::EntriesFrom(_, _, _) => true,
        Command::Consist(_, _, _) => true,
        Command::Subtree(_, _, _, _) => true,
        Command::Export(_) => true,
        Command::Landmarks(_) => true,
        Command::LightCert(_, _) => true,
        Command::LightCerts(_, _, _) => true,
        Command::Cert(_, _, _, _, _) => true,
        Command::Certs(_, _, _, _, _, _) => true,
        Command::MirrorEntries(_, _) => true,
        _ => false,
    }
}

/// Whether these arguments are a command that only asks. Arguments that are no command aren't.
pub fn words_only_ask(alloc: Global, words: &[String]) -> Result<bool, Memory>
    ensures { IfOk result (λ asks. asks
        ≡ words_ask_only (command_of (map string_bytes words.now))) }
{
    match read_words(alloc, words) {
        Ok(command) => Ok(only_asks(&command)),
        Err(WordError::Memory) => Err(Memory),
        Err(_) => Ok(false),
    }
}
