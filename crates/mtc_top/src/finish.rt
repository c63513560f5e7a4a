//! The last step: what was decided goes out.

ghost use Rattle.std.specs.Prelude.{◌≡◌, ◌⊎◌, ◌++◌, Some, codes, option_map};
ghost use Rattle.hex.specs.Hex.{encode_lower};
ghost use Rattle.mtc_io.specs.Counts.{Rose};
ghost use Rattle.mtc_command.specs.Answers.{said, said_code, stopped_code, ending_of, more_text};
ghost use Rattle.mtc_command.specs.Answers.{reason_text, stop_ending, tiles_name};
ghost use Rattle.mtc_command.specs.Lines.{line_of, of_command, WritesLine};
ghost use Rattle.mtc_top.specs.Concluded.{Wrote, Lost, Concludes, SaysEnding, SaysWritten, word_of};

use itoa::Buffer;
use mtc_command::{Answer, More, Reason, Said, Stop, Stopped};
use mtc_io::{Failed, Sink, write_all, write_pieces};
use mtc_lines::Written;
use mtc_room::Cause;

const ROOM_FAILED: u8 = 5;

const OUTPUT_FAILED: u8 = 6;

const NO_MEMORY: u8 = 8;

fn code_said(status: Said) -> u8
    ensures { result ≡ said_code status }
{
    match status {
        Said::Done => 0,
        Said::Against => 3,
        Said::Collided => 10,
    }
}

fn code_stopped(why: Stopped) -> u8
    ensures { result ≡ stopped_code why }
{
    match why {
        Stopped::BadWords => 1,
        Stopped::BadForm => 2,
        Stopped::NotAllowed => 4,
        Stopped::Missing => 7,
        Stopped::Beyond => 9,
    }
}

fn word_of(cause: Cause) -> &'static str
    ensures { result.now ≡ word_of cause }
{
    match cause {
        Cause::Locked => "Locked",
        Cause::Failed => "Failed",
    }
}

// Bytes that stand one after the other.
type Pieces<'x> = (&'x [u8], &'x [u8], &'x [u8], &'x [u8]);

// The hexadecimal digits of a hash, which are written to the buffer.
fn digits_of<'x>(hash: [u8; 32], digits: &'x mut [u8; 64]) -> &'x [u8]
    ensures { result.now ≡ encode_lower hash }
{
    match hex::encode_to_slice(hash, digits) {
        Ok(()) => digits,
        Err(_) => unreachable!(),
    }
}

// What follows the name of a reason. Numbers and hashes are written to the buffers.
fn pieces_of<'x>(
    more: More,
    numbers: (&'x mut Buffer, &'x mut Buffer),
    hashes: (&'x mut [u8; 64], &'x mut [u8; 64]),
) -> Pieces<'x>
    ensures { result.0.now ++ (result.1.now ++ (result.2.now ++ result.3.now)) ≡ more_text more }
{
    let none: &[u8] = b"";
    let blank: &[u8] = b" ";
    match more {
        More::Nothing => (none, none, none, none),
        More::Name(name) => (blank, name.as_bytes(), none, none),
        More::Number(number) => (blank, numbers.0.format(number).as_bytes(), none, none),
        More::NameAndNumber(name, number) => (
            blank,
            name.as_bytes(),
            blank,
            numbers.0.format(number).as_bytes(),
        ),
        More::Numbers(one, two) => (
            blank,
            numbers.0.format(one).as_bytes(),
            blank,
            numbers.1.format(two).as_bytes(),
        ),
        More::Hashes(one, two) => (
            blank,
            digits_of(one, hashes.0),
            blank,
            digits_of(two, hashes.1),
        ),
    }
}

// Writes a line in pieces, so that it takes no memory.
fn write_pieces_of<'x, E: Sink>(
    err: &mut E,
    command: &'x str,
    file: (&'x str, &'x str, &'x str),
    name: &'x str,
    more: Pieces<'x>,
)
    ensures { WritesLine (Rose (E.faults err.old) (E.faults err.new))
        (E.taken err.old) (E.taken err.new)
        (codes "mtc: " ++ of_command command.now (file.entry.0.now ++ (file.entry.1.now
        ++ (file.entry.2.now ++ (name.now ++ (more.entry.0.now ++ (more.entry.1.now
        ++ (more.entry.2.now ++ (more.entry.3.now ++ codes "\n"))))))))) }
{
    let after_command = if command.is_empty() { "" } else { ": " };
    let _ = write_pieces(
        err,
        &[
            b"mtc: ",
            command.as_bytes(),
            after_command.as_bytes(),
            file.0.as_bytes(),
            file.1.as_bytes(),
            file.2.as_bytes(),
            name.as_bytes(),
            more.0,
            more.1,
            more.2,
            more.3,
            b"\n",
        ],
    );
}

// The line of a refusal or a failure that is about a file, whose name and the colon stand in three
// pieces, or about none.
fn write_reason<'x, E: Sink>(
    err: &mut E,
    command: &'x str,
    file: (&'x str, &'x str, &'x str),
    reason: Reason,
)
    ensures { WritesLine (Rose (E.faults err.old) (E.faults err.new))
        (E.taken err.old) (E.taken err.new)
        (codes "mtc: " ++ of_command command.now (file.entry.0.now ++ (file.entry.1.now
        ++ (file.entry.2.now ++ (reason_text reason ++ codes "\n"))))) }
{
    let mut first = Buffer::new();
    let mut second = Buffer::new();
    let mut one = [0; 64];
    let mut other = [0; 64];
    let more = pieces_of(
        reason.more,
        (&mut first, &mut second),
        (&mut one, &mut other),
    );
    write_pieces_of(err, command, file, reason.name, more);
}

// The line of a refusal or a failure.
fn write_line<E: Sink>(err: &mut E, command: &str, file: Option<&str>, reason: Reason)
    ensures { WritesLine (Rose (E.faults err.old) (E.faults err.new))
        (E.taken err.old) (E.taken err.new)
        (line_of command.now (option_map (λ f. f.now) file.entry) (reason_text reason)) }
{
    match file {
        Some(file) => write_reason(err, command, (file, "", ": "), reason),
        None => write_reason(err, command, ("", "", ""), reason),
    }
}

// The line of a refusal or a failure of the file of tiles beside a journal.
fn write_tiles_line<E: Sink>(err: &mut E, command: &str, journal: &str, reason: Reason)
    ensures { WritesLine (Rose (E.faults err.old) (E.faults err.new))
        (E.taken err.old) (E.taken err.new)
        (line_of command.now (Some (tiles_name journal.now)) (reason_text reason)) }
{
    write_reason(err, command, (journal, ".tiles", ": "), reason);
}

// Writes the text of an answer. If it is empty no output fails.
fn write_answer<O: Sink, E: Sink>(command: &str, out: &mut O, err: &mut E, answer: &Answer) -> u8
    ensures { Wrote O.Sink E.Sink command.now out.old out.new err.old err.new
        (said answer.now.status answer.now.text) result
        ⊎ Lost O.Sink E.Sink command.now out.old out.new err.old err.new answer.now.text result }
{
    if answer.text.is_empty() {
        return code_said(answer.status);
    }
    match write_all(out, answer.text.as_slice()) {
        Ok(()) => code_said(answer.status),
        Err(Failed) => {
            write_line(err, command, None, Reason::named("OutputFailed"));
            OUTPUT_FAILED
        }
    }
}

// Writes why a command was stopped, and answers the status. If the file system failed, the line
// says why.
fn report<E: Sink>(command: &str, stop: Stop, cause: Cause, err: &mut E) -> u8
    ensures { SaysEnding E.Sink command.now err.old err.new (stop_ending stop.entry) cause result }
{
    match stop {
        Stop::Refused(refusal) => {
            write_line(err, command, refusal.file, refusal.reason);
            code_stopped(refusal.why)
        }
        Stop::Room(file) => {
            write_line(err, command, Some(file), Reason::named(word_of(cause)));
            ROOM_FAILED
        }
        Stop::Tiles(journal) => {
            write_tiles_line(err, command, journal, Reason::named(word_of(cause)));
            ROOM_FAILED
        }
        Stop::BadTile {
            journal,
            level,
            place,
        } => {
            let reason = Reason::with_numbers("BadTile", u64::from(level), place);
            write_tiles_line(err, command, journal, reason);
            code_stopped(Stopped::BadForm)
        }
        Stop::Memory => {
            write_line(err, command, None, Reason::named("Memory"));
            NO_MEMORY
        }
    }
}

/// Writes what is left to say of a command that has written its text itself, and answers the
/// status.
pub fn conclude_written<E: Sink>(
    command: &str,
    ended: Result<Written, Stop>,
    cause: Cause,
    err: &mut E,
) -> u8
    ensures { SaysWritten E.Sink command.now err.old err.new ended.entry cause result }
{
    match ended {
        Ok(Ok(())) => code_said(Said::Done),
        Ok(Err(Failed)) => {
            write_line(err, command, None, Reason::named("OutputFailed"));
            OUTPUT_FAILED
        }
        Err(stop) => report(command, stop, cause, err),
    }
}

/// Writes what a command ended with, and answers the status. If the file system failed, the line
/// says why.
pub fn conclude<O: Sink, E: Sink>(
    command: &str,
    ended: Result<Answer, Stop>,
    cause: Cause,
    out: &mut O,
    err: &mut E,
) -> u8
    ensures { Concludes O.Sink E.Sink command.now out.old out.new err.old err.new
        (ending_of ended.entry) cause result }
{
    match ended {
        Ok(answer) => write_answer(command, out, err, &answer),
        Err(stop) => report(command, stop, cause, err),
    }
}
