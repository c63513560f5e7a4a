//! The command that arguments name and describe.

ghost use Rattle.std.specs.Prelude.{◌≡◌, false, [], ◌∷◌, length, map, string_bytes, IfNone, IfOk};
ghost use Rattle.byte_formats.specs.Readings.{Answers};
ghost use Rattle.mtc_words.specs.Commands.{command_value, journals_of, said, IsInRange};
ghost use Rattle.mtc_words.specs.Names.{is_tiles_name};
ghost use Rattle.mtc_words.specs.Words.{is_bad_word, bad_word, journal_fault, word_fault};
ghost use Rattle.mtc_words.specs.Words.{command_of, is_named_twice, known_word, HaveOwnNames};

use crate::building::build;
use crate::command::Command;
use crate::error::WordError;
use crate::name::{read_name, wanted_count};
use std::alloc::Global;

fn is_bad(word: &str) -> bool
    ensures { result ≡ is_bad_word word.now }
{
    matches!(word.as_bytes(), [] | [b'-', ..])
}

// The number of the first bad argument.
fn first_bad(words: &[String]) -> Option<usize>
    ensures { result ≡ bad_word 1 (map string_bytes words.now) }
{
    for (i, word) in words.iter().enumerate() {
        if is_bad(word.as_str()) {
            return Some(i + 1);
        }
    }
    None
}

// The fault of the arguments after a command that wants so many.
#[tactic(auto, unfolding(crate::specs::Words::word_fault))]
fn fault(words: &[String], want: usize) -> Option<WordError>
    ensures exact { result ≡ word_fault want (map string_bytes words.now) }
    ensures counted { IfNone result (length words.now ≡ want) }
{
    if let Some(index) = first_bad(words) {
        return Some(WordError::BadWord(index));
    }
    let have = words.len();
    if have == want {
        None
    } else {
        Some(WordError::WrongCount { have, want })
    }
}

#[tactic(auto, unfolding(crate::specs::Names::is_tiles_name))]
fn ends_as_tiles(word: &str) -> bool
    ensures { result ≡ is_tiles_name word.now }
{
    word.as_bytes().ends_with(b".tiles")
}

// The fault of the one journal of a command.
fn one_fault(journal: &str) -> Option<WordError>
    ensures exact { result ≡ journal_fault (journal.now ∷ []) }
    ensures own_names { IfNone result (HaveOwnNames (journal.now ∷ [])) }
{
    if ends_as_tiles(journal) {
        Some(WordError::TilesName(1))
    } else {
        None
    }
}

// The fault of the two journals of a command.
fn two_fault(cosigner: &str, mirror: &str) -> Option<WordError>
    ensures exact { result ≡ journal_fault (cosigner.now ∷ mirror.now ∷ []) }
    ensures own_names { IfNone result (HaveOwnNames (cosigner.now ∷ mirror.now ∷ [])) }
    ensures differ { IfNone result
        (is_named_twice (cosigner.now ∷ mirror.now ∷ []) ≡ false) }
{
    if ends_as_tiles(cosigner) {
        Some(WordError::TilesName(1))
    } else if ends_as_tiles(mirror) {
        Some(WordError::TilesName(2))
    } else if cosigner == mirror {
        Some(WordError::BadWord(1))
    } else {
        None
    }
}

// The fault of the journals of a command.
fn journal_fault(command: &Command<'_>) -> Option<WordError>
    ensures exact { result ≡ journal_fault (journals_of (command_value command.now)) }
    ensures own_names { IfNone result (HaveOwnNames (journals_of (command_value command.now))) }
    ensures differ { IfNone result
        (is_named_twice (journals_of (command_value command.now)) ≡ false) }
{
    match command {
        Command::MirrorAdvance(cosigner, mirror, _) => two_fault(cosigner, mirror),
        Command::MirrorCosign(cosigner, mirror, _, _) => two_fault(cosigner, mirror),
        Command::InitLog(journal, _, _, _) => one_fault(journal),
        Command::Issue(journal, _) => one_fault(journal),
        Command::Checkpoint(journal) => one_fault(journal),
        Command::Entries(journal, _) => one_fault(journal),
        Command::EntriesFrom(journal, _, _) => one_fault(journal),
        Command::Consist(journal, _, _) => one_fault(journal),
        Command::Subtree(journal, _, _, _) => one_fault(journal),
        Command::InitCosigner(journal, _, _, _, _, _, _) => one_fault(journal),
        Command::Advance(journal, _) => one_fault(journal),
        Command::Child(journal) => one_fault(journal),
        Command::Cosign(journal, _) => one_fault(journal),
        Command::Export(journal) => one_fault(journal),
        Command::Landmark(journal) => one_fault(journal),
        Command::Landmarks(journal) => one_fault(journal),
        Command::LightCert(journal, _) => one_fault(journal),
        Command::Cert(journal, _, _, _, _) => one_fault(journal),
        Command::Tile(journal) => one_fault(journal),
        Command::TileAnew(journal) => one_fault(journal),
        Command::Switch(journal) => one_fault(journal),
        Command::IssueList(journal, _) => one_fault(journal),
        Command::LightCerts(journal, _, _) => one_fault(journal),
        Command::Certs(journal, _, _, _, _, _) => one_fault(journal),
        Command::MirrorInit(journal, _) => one_fault(journal),
        Command::MirrorTake(journal, _) => one_fault(journal),
        Command::MirrorTile(journal) => one_fault(journal),
        Command::MirrorEntries(journal, _) => one_fault(journal),
        _ => None,
    }
}

/// Reads the arguments of a command. Refuses, the first that holds: `NoCommand`, `UnknownCommand`,
/// `BadWord` with the number of the first argument that is empty or begins with a hyphen,
/// `WrongCount`, `BadNumber` with the number of the first number that is none, or lies outside its
/// range, `BadId` with that of the first id that is no anchor id, `TilesName` with that of the
/// first journal that ends in `.tiles` (input files may), `BadWord` 1 where two journals are named
/// alike.
#[tactic(auto, unfolding(crate::specs::Words::command_of))]
pub fn read_words<'a>(alloc: Global, words: &'a [String]) -> Result<Command<'a>, WordError>
    ensures exact { Answers WordError.Memory
        (command_of (map string_bytes words.now)) (said result) }
    ensures range { IfOk result (λ command. IsInRange (command_value command)) }
    ensures own_names { IfOk result
        (λ command. HaveOwnNames (journals_of (command_value command))) }
    ensures differ { IfOk result
        (λ command. is_named_twice (journals_of (command_value command)) ≡ false) }
{
    let Some((first, rest)) = words.split_first() else {
        return Err(WordError::NoCommand);
    };
    let Some(name) = read_name(first.as_str()) else {
        return Err(WordError::UnknownCommand);
    };
    if let Some(why) = fault(rest, wanted_count(name)) {
        return Err(why);
    }
    let command = build(alloc, name, rest)?;
    match journal_fault(&command) {
        Some(why) => Err(why),
        None => Ok(command),
    }
}

/// The first argument if it is a command, and else an empty text: a line about the command begins
/// with it.
pub fn command_word(words: &[String]) -> &str
    ensures { result.now ≡ known_word (map string_bytes words.now) }
{
    match words.first() {
        Some(first) if read_name(first.as_str()).is_some() => first.as_str(),
        _ => "",
    }
}
