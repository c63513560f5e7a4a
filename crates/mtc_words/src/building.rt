//! The command of a name, from the arguments after it.

ghost use Rattle.std.specs.Prelude.{◌≡◌, ◌<◌, ◌+◌, true, false, length, map, string_bytes, IfOk};
ghost use Rattle.byte_formats.specs.Readings.{Answers};
ghost use Rattle.tls_wire.specs.Decimal.{number_of};
ghost use Rattle.mtc_words.specs.Commands.{command_value, said, is_height, is_width, is_time};
ghost use Rattle.mtc_words.specs.Commands.{is_active, is_limit, is_any, IsInRange};
ghost use Rattle.mtc_words.specs.Names.{takes_journal, word_count};
ghost use Rattle.mtc_words.specs.Words.{command_from, number_word, id_word, word};

use crate::command::Command;
use crate::error::WordError;
use crate::name::{Name, takes_journal};
use landmarks::{MOST_ACTIVE, MOST_ENTRIES};
use std::alloc::Global;
use tls_wire::{AnchorError, AnchorId, read_number};

// The last second of the year 9999.
const LAST_UNIX_TIME: u64 = 253_402_300_799;

// The argument with this number, counted from 0.
fn text(words: &[String], at: usize) -> &str
    requires { at < length words.now }
    ensures { result.now ≡ word (map string_bytes words.now) at }
{
    words[at].as_str()
}

// The number that this argument is, if it is one.
fn number_at(words: &[String], at: usize) -> Option<u64>
    requires { at < length words.now }
    ensures { result ≡ number_of (word (map string_bytes words.now) at) }
{
    read_number(text(words, at).as_bytes())
}

// A height of keys that are made.
fn height(words: &[String], at: usize) -> Result<u64, WordError>
    requires { at < length words.now }
    ensures { result ≡ number_word (at + 1) is_height (word (map string_bytes words.now) at) }
{
    match number_at(words, at) {
        Some(height) if height == 5 || height == 10 => Ok(height),
        _ => Err(WordError::BadNumber(at + 1)),
    }
}

// A width of keys that are made.
fn width(words: &[String], at: usize) -> Result<u64, WordError>
    requires { at < length words.now }
    ensures { result ≡ number_word (at + 1) is_width (word (map string_bytes words.now) at) }
{
    match number_at(words, at) {
        Some(width) if width == 1 || width == 2 || width == 4 || width == 8 => Ok(width),
        _ => Err(WordError::BadNumber(at + 1)),
    }
}

// A time, up to the end of the year 9999.
fn time(words: &[String], at: usize) -> Result<u64, WordError>
    requires { at < length words.now }
    ensures { result ≡ number_word (at + 1) is_time (word (map string_bytes words.now) at) }
{
    match number_at(words, at) {
        Some(seconds) if seconds <= LAST_UNIX_TIME => Ok(seconds),
        _ => Err(WordError::BadNumber(at + 1)),
    }
}

// A number of active landmarks.
fn active(words: &[String], at: usize) -> Result<u64, WordError>
    requires { at < length words.now }
    ensures { result ≡ number_word (at + 1) is_active (word (map string_bytes words.now) at) }
{
    match number_at(words, at) {
        Some(count) if 1 <= count && count <= MOST_ACTIVE as u64 => Ok(count),
        _ => Err(WordError::BadNumber(at + 1)),
    }
}

// The most entries of a log.
fn limit(words: &[String], at: usize) -> Result<u64, WordError>
    requires { at < length words.now }
    ensures { result ≡ number_word (at + 1) is_limit (word (map string_bytes words.now) at) }
{
    match number_at(words, at) {
        Some(count) if 2 <= count && count <= MOST_ENTRIES as u64 => Ok(count),
        _ => Err(WordError::BadNumber(at + 1)),
    }
}

// Any number.
fn number(words: &[String], at: usize) -> Result<u64, WordError>
    requires { at < length words.now }
    ensures { result ≡ number_word (at + 1) is_any (word (map string_bytes words.now) at) }
{
    match number_at(words, at) {
        Some(number) => Ok(number),
        None => Err(WordError::BadNumber(at + 1)),
    }
}

fn id(alloc: Global, words: &[String], at: usize) -> Result<AnchorId, WordError>
    requires { at < length words.now }
    ensures { Answers WordError.Memory
        (id_word (at + 1) (word (map string_bytes words.now) at)) result }
{
    match AnchorId::from_text(alloc, text(words, at)) {
        Ok(id) => Ok(id),
        Err(AnchorError::Memory) => Err(WordError::Memory),
        Err(_) => Err(WordError::BadId(at + 1)),
    }
}

// The arguments of `init-log`.
fn init_log<'a>(alloc: Global, words: &'a [String]) -> Result<Command<'a>, WordError>
    requires { length words.now ≡ word_count Name.InitLog }
    ensures exact { Answers WordError.Memory
        (command_from Name.InitLog (map string_bytes words.now)) (said result) }
    ensures range { IfOk result (λ command. IsInRange (command_value command)) }
{
    let active = active(words, 2)?;
    let limit = limit(words, 3)?;
    let id = id(alloc, words, 1)?;
    Ok(Command::InitLog(text(words, 0), id, active, limit))
}

// The arguments of the commands that ask for proofs.
fn consist<'a>(words: &'a [String]) -> Result<Command<'a>, WordError>
    requires { length words.now ≡ word_count Name.Consist }
    ensures exact { said result ≡ command_from Name.Consist (map string_bytes words.now) }
    ensures range { IfOk result (λ command. IsInRange (command_value command)) }
{
    let old = number(words, 1)?;
    let new = number(words, 2)?;
    Ok(Command::Consist(text(words, 0), old, new))
}

fn subtree<'a>(words: &'a [String]) -> Result<Command<'a>, WordError>
    requires { length words.now ≡ word_count Name.Subtree }
    ensures exact { said result ≡ command_from Name.Subtree (map string_bytes words.now) }
    ensures range { IfOk result (λ command. IsInRange (command_value command)) }
{
    let start = number(words, 1)?;
    let end = number(words, 2)?;
    let size = number(words, 3)?;
    Ok(Command::Subtree(text(words, 0), start, end, size))
}

fn keygen<'a>(words: &'a [String]) -> Result<Command<'a>, WordError>
    requires { length words.now ≡ word_count Name.Keygen }
    ensures exact { said result ≡ command_from Name.Keygen (map string_bytes words.now) }
    ensures range { IfOk result (λ command. IsInRange (command_value command)) }
{
    let height = height(words, 0)?;
    let width = width(words, 1)?;
    Ok(Command::Keygen(height, width, text(words, 2)))
}

fn verify<'a>(words: &'a [String]) -> Result<Command<'a>, WordError>
    requires { length words.now ≡ word_count Name.Verify }
    ensures exact { said result ≡ command_from Name.Verify (map string_bytes words.now) }
    ensures range { IfOk result (λ command. IsInRange (command_value command)) }
{
    let now = time(words, 2)?;
    Ok(Command::Verify(text(words, 0), text(words, 1), now))
}

fn entries<'a>(words: &'a [String]) -> Result<Command<'a>, WordError>
    requires { length words.now ≡ word_count Name.Entries }
    ensures exact { said result ≡ command_from Name.Entries (map string_bytes words.now) }
    ensures range { IfOk result (λ command. IsInRange (command_value command)) }
{
    let size = number(words, 1)?;
    Ok(Command::Entries(text(words, 0), size))
}

fn entries_from<'a>(words: &'a [String]) -> Result<Command<'a>, WordError>
    requires { length words.now ≡ word_count Name.EntriesFrom }
    ensures exact { said result ≡ command_from Name.EntriesFrom (map string_bytes words.now) }
    ensures range { IfOk result (λ command. IsInRange (command_value command)) }
{
    let first = number(words, 1)?;
    let size = number(words, 2)?;
    Ok(Command::EntriesFrom(text(words, 0), first, size))
}

fn light_cert<'a>(words: &'a [String]) -> Result<Command<'a>, WordError>
    requires { length words.now ≡ word_count Name.LightCert }
    ensures exact { said result ≡ command_from Name.LightCert (map string_bytes words.now) }
    ensures range { IfOk result (λ command. IsInRange (command_value command)) }
{
    let index = number(words, 1)?;
    Ok(Command::LightCert(text(words, 0), index))
}

fn light_certs<'a>(words: &'a [String]) -> Result<Command<'a>, WordError>
    requires { length words.now ≡ word_count Name.LightCerts }
    ensures exact { said result ≡ command_from Name.LightCerts (map string_bytes words.now) }
    ensures range { IfOk result (λ command. IsInRange (command_value command)) }
{
    let first = number(words, 1)?;
    let last = number(words, 2)?;
    Ok(Command::LightCerts(text(words, 0), first, last))
}

fn certs<'a>(words: &'a [String]) -> Result<Command<'a>, WordError>
    requires { length words.now ≡ word_count Name.Certs }
    ensures exact { said result ≡ command_from Name.Certs (map string_bytes words.now) }
    ensures range { IfOk result (λ command. IsInRange (command_value command)) }
{
    let first = number(words, 1)?;
    let last = number(words, 2)?;
    let start = number(words, 3)?;
    let end = number(words, 4)?;
    Ok(Command::Certs(text(words, 0), first, last, start, end, text(words, 5)))
}

// The arguments of `init-cosigner`.
fn init_cosigner<'a>(alloc: Global, words: &'a [String]) -> Result<Command<'a>, WordError>
    requires { length words.now ≡ word_count Name.InitCosigner }
    ensures exact { Answers WordError.Memory
        (command_from Name.InitCosigner (map string_bytes words.now)) (said result) }
    ensures range { IfOk result (λ command. IsInRange (command_value command)) }
{
    let height = height(words, 3)?;
    let width = width(words, 4)?;
    let own = id(alloc, words, 1)?;
    let log = id(alloc, words, 2)?;
    Ok(Command::InitCosigner(
        text(words, 0),
        own,
        log,
        height,
        None,
        width,
        text(words, 5),
    ))
}

// The arguments of `init-cosigner2`.
fn init_cosigner2<'a>(alloc: Global, words: &'a [String]) -> Result<Command<'a>, WordError>
    requires { length words.now ≡ word_count Name.InitCosigner2 }
    ensures exact { Answers WordError.Memory
        (command_from Name.InitCosigner2 (map string_bytes words.now)) (said result) }
    ensures range { IfOk result (λ command. IsInRange (command_value command)) }
{
    let top = height(words, 3)?;
    let low = height(words, 4)?;
    let width = width(words, 5)?;
    let own = id(alloc, words, 1)?;
    let log = id(alloc, words, 2)?;
    Ok(Command::InitCosigner(
        text(words, 0),
        own,
        log,
        top,
        Some(low),
        width,
        text(words, 6),
    ))
}

fn trust_landmarks<'a>(words: &'a [String]) -> Result<Command<'a>, WordError>
    requires { length words.now ≡ word_count Name.TrustLandmarks }
    ensures exact { said result ≡ command_from Name.TrustLandmarks (map string_bytes words.now) }
    ensures range { IfOk result (λ command. IsInRange (command_value command)) }
{
    let active = active(words, 1)?;
    Ok(Command::TrustLandmarks(text(words, 0), active, text(words, 2)))
}

fn cert<'a>(words: &'a [String]) -> Result<Command<'a>, WordError>
    requires { length words.now ≡ word_count Name.Cert }
    ensures exact { said result ≡ command_from Name.Cert (map string_bytes words.now) }
    ensures range { IfOk result (λ command. IsInRange (command_value command)) }
{
    let index = number(words, 1)?;
    let start = number(words, 2)?;
    let end = number(words, 3)?;
    Ok(Command::Cert(text(words, 0), index, start, end, text(words, 4)))
}

fn audit<'a>(words: &'a [String]) -> Result<Command<'a>, WordError>
    requires { length words.now ≡ word_count Name.Audit }
    ensures exact { said result ≡ command_from Name.Audit (map string_bytes words.now) }
    ensures range { IfOk result (λ command. IsInRange (command_value command)) }
{
    let now = time(words, 2)?;
    Ok(Command::Audit(
        text(words, 0),
        text(words, 1),
        now,
        text(words, 3),
        text(words, 4),
    ))
}

fn drill<'a>(words: &'a [String]) -> Result<Command<'a>, WordError>
    requires { length words.now ≡ word_count Name.Drill }
    ensures exact { said result ≡ command_from Name.Drill (map string_bytes words.now) }
    ensures range { IfOk result (λ command. IsInRange (command_value command)) }
{
    let number = number(words, 0)?;
    Ok(Command::Drill(number))
}

fn monitor_init<'a>(alloc: Global, words: &'a [String]) -> Result<Command<'a>, WordError>
    requires { length words.now ≡ word_count Name.MonitorInit }
    ensures exact { Answers WordError.Memory
        (command_from Name.MonitorInit (map string_bytes words.now)) (said result) }
    ensures range { IfOk result (λ command. IsInRange (command_value command)) }
{
    let log = id(alloc, words, 0)?;
    Ok(Command::MonitorInit(log))
}

fn monitor<'a>(words: &'a [String]) -> Result<Command<'a>, WordError>
    requires { length words.now ≡ word_count Name.Monitor }
    ensures exact { said result ≡ command_from Name.Monitor (map string_bytes words.now) }
    ensures range { IfOk result (λ command. IsInRange (command_value command)) }
{
    Ok(Command::Monitor(
        text(words, 0),
        text(words, 1),
        text(words, 2),
        text(words, 3),
    ))
}

fn mirror_init<'a>(alloc: Global, words: &'a [String]) -> Result<Command<'a>, WordError>
    requires { length words.now ≡ word_count Name.MirrorInit }
    ensures exact { Answers WordError.Memory
        (command_from Name.MirrorInit (map string_bytes words.now)) (said result) }
    ensures range { IfOk result (λ command. IsInRange (command_value command)) }
{
    let log = id(alloc, words, 1)?;
    Ok(Command::MirrorInit(text(words, 0), log))
}

fn mirror_entries<'a>(words: &'a [String]) -> Result<Command<'a>, WordError>
    requires { length words.now ≡ word_count Name.MirrorEntries }
    ensures exact { said result ≡ command_from Name.MirrorEntries (map string_bytes words.now) }
    ensures range { IfOk result (λ command. IsInRange (command_value command)) }
{
    let size = number(words, 1)?;
    Ok(Command::MirrorEntries(text(words, 0), size))
}

fn mirror_advance<'a>(words: &'a [String]) -> Result<Command<'a>, WordError>
    requires { length words.now ≡ word_count Name.MirrorAdvance }
    ensures exact { said result ≡ command_from Name.MirrorAdvance (map string_bytes words.now) }
    ensures range { IfOk result (λ command. IsInRange (command_value command)) }
{
    let size = number(words, 2)?;
    Ok(Command::MirrorAdvance(text(words, 0), text(words, 1), size))
}

fn mirror_cosign<'a>(words: &'a [String]) -> Result<Command<'a>, WordError>
    requires { length words.now ≡ word_count Name.MirrorCosign }
    ensures exact { said result ≡ command_from Name.MirrorCosign (map string_bytes words.now) }
    ensures range { IfOk result (λ command. IsInRange (command_value command)) }
{
    let start = number(words, 2)?;
    let end = number(words, 3)?;
    Ok(Command::MirrorCosign(text(words, 0), text(words, 1), start, end))
}

// The command of a name whose first argument is a journal.
fn build_on_journal<'a>(
    alloc: Global,
    name: Name,
    words: &'a [String],
) -> Result<Command<'a>, WordError>
    requires counted { length words.now ≡ word_count name }
    requires journal { takes_journal name ≡ true }
    ensures exact { Answers WordError.Memory
        (command_from name (map string_bytes words.now)) (said result) }
    ensures range { IfOk result (λ command. IsInRange (command_value command)) }
{
    match name {
        Name::InitLog => init_log(alloc, words),
        Name::Issue => Ok(Command::Issue(text(words, 0), text(words, 1))),
        Name::Checkpoint => Ok(Command::Checkpoint(text(words, 0))),
        Name::Entries => entries(words),
        Name::EntriesFrom => entries_from(words),
        Name::Consist => consist(words),
        Name::Subtree => subtree(words),
        Name::InitCosigner => init_cosigner(alloc, words),
        Name::InitCosigner2 => init_cosigner2(alloc, words),
        Name::Advance => Ok(Command::Advance(text(words, 0), text(words, 1))),
        Name::Child => Ok(Command::Child(text(words, 0))),
        Name::Cosign => Ok(Command::Cosign(text(words, 0), text(words, 1))),
        Name::Export => Ok(Command::Export(text(words, 0))),
        Name::Landmark => Ok(Command::Landmark(text(words, 0))),
        Name::Landmarks => Ok(Command::Landmarks(text(words, 0))),
        Name::LightCert => light_cert(words),
        Name::Cert => cert(words),
        Name::Tile => Ok(Command::Tile(text(words, 0))),
        Name::TileAnew => Ok(Command::TileAnew(text(words, 0))),
        Name::Switch => Ok(Command::Switch(text(words, 0))),
        Name::IssueList => Ok(Command::IssueList(text(words, 0), text(words, 1))),
        Name::LightCerts => light_certs(words),
        Name::Certs => certs(words),
        Name::MirrorInit => mirror_init(alloc, words),
        Name::MirrorTake => Ok(Command::MirrorTake(text(words, 0), text(words, 1))),
        Name::MirrorTile => Ok(Command::MirrorTile(text(words, 0))),
        Name::MirrorEntries => mirror_entries(words),
        Name::MirrorAdvance => mirror_advance(words),
        Name::MirrorCosign => mirror_cosign(words),
        _ => unreachable!(),
    }
}

// The command of any other name.
fn build_alone<'a>(alloc: Global, name: Name, words: &'a [String]) -> Result<Command<'a>, WordError>
    requires counted { length words.now ≡ word_count name }
    requires alone { takes_journal name ≡ false }
    ensures exact { Answers WordError.Memory
        (command_from name (map string_bytes words.now)) (said result) }
    ensures range { IfOk result (λ command. IsInRange (command_value command)) }
{
    match name {
        Name::Member => Ok(Command::Member(text(words, 0))),
        Name::Show => Ok(Command::Show(text(words, 0))),
        Name::Verify => verify(words),
        Name::Keygen => keygen(words),
        Name::TrustLandmarks => trust_landmarks(words),
        Name::Audit => audit(words),
        Name::Quarrel => Ok(Command::Quarrel(text(words, 0))),
        Name::Drill => drill(words),
        Name::Root => Ok(Command::Root(text(words, 0))),
        Name::Held => Ok(Command::Held(text(words, 0))),
        Name::MonitorInit => monitor_init(alloc, words),
        Name::Monitor => monitor(words),
        Name::Help => Ok(Command::Help),
        Name::Version => Ok(Command::Version),
        _ => unreachable!(),
    }
}

// The command of this name with its arguments, of which there are as many as it wants.
pub fn build<'a>(alloc: Global, name: Name, words: &'a [String]) -> Result<Command<'a>, WordError>
    requires { length words.now ≡ word_count name }
    ensures exact { Answers WordError.Memory
        (command_from name (map string_bytes words.now)) (said result) }
    ensures range { IfOk result (λ command. IsInRange (command_value command)) }
{
    if takes_journal(name) {
        build_on_journal(alloc, name, words)
    } else {
        build_alone(alloc, name, words)
    }
}
