//! Scripts: files in a file system, runs of the program over them, and what each run has to answer.
//!
//! A line of a script is one of these:
//!
//! ```text
//! # TEXT          a remark
//! case TEXT       a new file system, without files
//! toy             in it the program hashes by the sum of the bytes
//! name X BYTES    from here on X represents these bytes
//! file F BYTES    the file system has this file
//! again F         a file that is there, as it then is
//! times N BYTES   so many times these bytes
//! cut N           of its bytes the first N alone
//! byte N HEX      another byte at its offset N
//! fails N ..      the calls on it that fail
//! fresh N ..      the calls that fail on each file that is made
//! takes N         the output of the next run takes so many bytes a call
//! out-fails N ..  the calls on it that fail
//! err-fails N ..  the calls on the standard error of the next run that fail
//! $ WORD ..       a run with these arguments, '' for an empty one; it has to do what follows
//! status N        the status, if it isn't 0
//! ! TEXT          a line of its standard error
//! > F BYTES       its output isn't compared: it becomes this file, after these bytes
//! left F BYTES    what a file holds then
//! gone F          there is no such file then
//! same F G        two files hold the same
//! length F N      a file holds so many bytes
//! ```
//!
//! BYTES are pairs of hexadecimal digits and names. They continue in lines that begin with a blank,
//! and in lines `| TEXT`, each of which is a line of text. Those after `$` are the output.
//! `|= TEXT` and `!= TEXT` are text without the end of its line.

use crate::blocks::{Begun, Block};
use crate::desk::{Answer, Desk, sink};
use crate::texts::{Unread, numbers, owned_words, parted};
use mtc_io::Bytes;
use std::alloc::Global;
use std::mem::replace;

/// How a script ended: so many runs did what it says, or it failed in the lines up to this one.
#[derive(Clone, Copy, Debug, PartialEq, Eq)]
pub enum Outcome {
    Passed(u64),
    FailedBefore(u64),
}

// A name, and the bytes that it represents.
#[derive(Drop)]
struct Named {
    name: String,
    bytes: Vec<u8>,
}

// The streams of the next run: how many bytes a call its output takes, and which calls fail.
#[derive(Drop)]
struct Streams {
    takes: usize,
    out_fails: Vec<u64>,
    err_fails: Vec<u64>,
}

// What the last run answered, and which status and which lines of an error are wanted of it.
#[derive(Drop)]
struct Ran {
    answer: Answer,
    status: u8,
    err: Vec<u8>,
}

#[derive(Drop)]
struct Script {
    alloc: Global,
    names: Vec<Named>,
    desk: Desk,
    block: Block,
    streams: Streams,
    ran: Ran,
    runs: u64,
}

// The bytes that a name represents.
fn known<'a>(names: &'a [Named], word: &str) -> Option<&'a [u8]> {
    for named in names {
        if named.name.as_str() == word {
            return Some(named.bytes.as_slice());
        }
    }
    None
}

impl Streams {
    fn new(alloc: Global) -> Streams {
        Streams {
            takes: 100,
            out_fails: Vec::new(alloc),
            err_fails: Vec::new(alloc),
        }
    }
}

impl Ran {
    // Before the first run.
    fn new(alloc: Global) -> Ran {
        Ran {
            answer: Answer {
                status: 0,
                out: sink(alloc, 1, Vec::new(alloc)),
                err: sink(alloc, 1, Vec::new(alloc)),
            },
            status: 0,
            err: Vec::new(alloc),
        }
    }

    fn want_error(&mut self, text: &str, end: &str) -> Option<bool> {
        self.err.extend_from_slice(text.as_bytes()).ok()?;
        self.err.extend_from_slice(end.as_bytes()).ok()?;
        Some(true)
    }

    // Whether the run answered as is wanted, with this output.
    fn is(&self, out: &[u8]) -> bool {
        self.answer.is(self.status, out, self.err.as_slice())
    }

    // The same with any output.
    fn ended(&self) -> bool {
        self.is(self.answer.out.taken())
    }
}

fn new_script(alloc: Global) -> Script {
    Script {
        alloc,
        names: Vec::new(alloc),
        desk: Desk::new(alloc),
        block: Block::new(alloc),
        streams: Streams::new(alloc),
        ran: Ran::new(alloc),
        runs: 0,
    }
}

// If a line can't be read, or memory is refused, its helpers answer none; and else whether all is
// as the line says.
impl Script {
    // Appends what a name represents, or what a word encodes in hexadecimal.
    fn append_word(&mut self, word: &str) -> Option<bool> {
        match known(self.names.as_slice(), word) {
            Some(bytes) => self.block.append(bytes),
            None => self.block.append_encoded(word),
        }
    }

    fn append(&mut self, words: &str) -> Option<bool> {
        for word in words.split_whitespace() {
            self.append_word(word)?;
        }
        Some(true)
    }

    // So many times the same bytes: `N BYTES`.
    fn append_times(&mut self, words: &str) -> Option<bool> {
        let (count, bytes) = parted(words);
        for _ in 0..count.parse::<u64>().ok()? {
            self.append(bytes)?;
        }
        Some(true)
    }

    fn end_name(&mut self) -> Option<bool> {
        let name = self.block.take_name();
        let bytes = self.block.take();
        self.names.push(Named { name, bytes }).ok()?;
        Some(true)
    }

    // A file that has the bytes and fails the calls of the block.
    fn end_file(&mut self) -> Option<bool> {
        let bytes = Bytes::from_vec(self.block.take());
        let failing = self.block.take_failing();
        self.desk
            .place(self.block.name.as_str(), bytes, failing)
            .ok()?;
        Some(true)
    }

    fn end_left(&mut self) -> bool {
        let bytes = self.block.take();
        self.desk.bytes(self.block.name.as_str()) == Some(bytes.as_slice())
    }

    fn end_run(&mut self) -> bool {
        let out = self.block.take();
        self.runs = self.runs.saturating_add(1);
        self.ran.is(out.as_slice())
    }

    // Makes a file of what the run wrote, after the bytes: whether it ended as is wanted.
    fn end_kept(&mut self) -> Option<bool> {
        self.block.append(self.ran.answer.out.taken())?;
        self.end_file()?;
        self.runs = self.runs.saturating_add(1);
        Some(self.ran.ended())
    }

    // Ends what was begun: whether it is as the script says.
    fn end(&mut self) -> Option<bool> {
        let begun = self.block.begun;
        self.block.begun = Begun::Nothing;
        match begun {
            Begun::Nothing => Some(self.block.bytes.is_empty()),
            Begun::Name => self.end_name(),
            Begun::File => self.end_file(),
            Begun::Left => Some(self.end_left()),
            Begun::Run => Some(self.end_run()),
            Begun::Kept => self.end_kept(),
        }
    }

    // What a run with these arguments answers over the streams that were set.
    fn answer(&mut self, words: &[String]) -> Answer {
        let streams = replace(&mut self.streams, Streams::new(self.alloc));
        let out = sink(self.alloc, streams.takes, streams.out_fails);
        let err = sink(self.alloc, 100, streams.err_fails);
        self.desk.run_over(self.alloc, words, out, err)
    }

    fn run(&mut self, words: &str) -> Option<bool> {
        let words = owned_words(self.alloc, words).ok()?;
        self.ran.answer = self.answer(words.as_slice());
        self.ran.status = 0;
        self.ran.err.truncate(0);
        self.block.begun = Begun::Run;
        Some(true)
    }

    // Begins what continues in the next lines.
    fn begin(&mut self, begun: Begun, words: &str) -> Option<bool> {
        let (name, bytes) = parted(words);
        self.block.begin(begun, name)?;
        self.append(bytes)
    }

    // Begins with what a file holds.
    fn begin_again(&mut self, name: &str) -> Option<bool> {
        match self.desk.bytes(name) {
            Some(bytes) => self.block.append(bytes)?,
            None => return Some(false),
        };
        self.block.begin(Begun::File, name)
    }

    // Whether two files hold the same.
    fn are_same(&self, words: &str) -> bool {
        let (first, second) = parted(words);
        match (self.desk.bytes(first), self.desk.bytes(second)) {
            (Some(first), Some(second)) => first == second,
            _ => false,
        }
    }

    // Whether a file holds so many bytes: `F N`.
    fn has_length(&self, words: &str) -> Option<bool> {
        let (name, length) = parted(words);
        let length = length.parse::<usize>().ok()?;
        match self.desk.bytes(name) {
            Some(bytes) => Some(bytes.len() == length),
            None => Some(false),
        }
    }

    fn fail_fresh(&mut self, words: &str) -> Option<bool> {
        self.desk.fail_fresh(numbers(self.alloc, words)?);
        Some(true)
    }

    // A line after the end of what was begun.
    fn start(&mut self, what: &str, words: &str) -> Option<bool> {
        match what {
            "case" => self.desk = Desk::new(self.alloc),
            "toy" => self.desk.use_toy(),
            "fresh" => return self.fail_fresh(words),
            "$" => return self.run(words),
            "again" => return self.begin_again(words),
            "same" => return Some(self.are_same(words)),
            "length" => return self.has_length(words),
            "gone" => return Some(self.desk.bytes(words).is_none()),
            "name" => return self.begin(Begun::Name, words),
            "file" => return self.begin(Begun::File, words),
            "left" => return self.begin(Begun::Left, words),
            _ => return Some(false),
        }
        Some(true)
    }

    // A line that ends what was begun.
    fn start_after(&mut self, what: &str, words: &str) -> Option<bool> {
        if self.end()? {
            self.start(what, words)
        } else {
            Some(false)
        }
    }

    // A line that says how streams and files behave.
    fn set(&mut self, what: &str, words: &str) -> Option<bool> {
        match what {
            "fails" => self.block.failing = numbers(self.alloc, words)?,
            "takes" => self.streams.takes = words.parse::<usize>().ok()?,
            "out-fails" => self.streams.out_fails = numbers(self.alloc, words)?,
            "err-fails" => self.streams.err_fails = numbers(self.alloc, words)?,
            "status" => self.ran.status = words.parse::<u8>().ok()?,
            _ => return self.start_after(what, words),
        }
        Some(true)
    }

    // A line that says more of what was begun.
    fn go_on(&mut self, what: &str, words: &str) -> Option<bool> {
        match what {
            "#" => Some(true),
            "" => self.append(words),
            "times" => self.append_times(words),
            "|" => self.block.append_text(words, "\n"),
            "|=" => self.block.append_text(words, ""),
            "byte" => self.block.change(words),
            "cut" => self.block.cut(words),
            "!" => self.ran.want_error(words, "\n"),
            "!=" => self.ran.want_error(words, ""),
            ">" => self.begin(Begun::Kept, words),
            _ => self.set(what, words),
        }
    }

    fn line(&mut self, line: &str) -> Option<bool> {
        let (what, words) = parted(line);
        if self.block.is_in_place(what) {
            self.go_on(what, words)
        } else {
            Some(false)
        }
    }

    // Does what a text says.
    fn play(&mut self, text: &str) -> Option<Outcome> {
        let mut number = 0u64;
        for line in text.lines() {
            number = number.saturating_add(1);
            if !self.line(line)? {
                return Some(Outcome::FailedBefore(number));
            }
        }
        Some(if self.end()? {
            Outcome::Passed(self.runs)
        } else {
            Outcome::FailedBefore(number)
        })
    }
}

/// How a script ends.
pub fn outcome_of(alloc: Global, text: &str) -> Result<Outcome, Unread> {
    let mut script = new_script(alloc);
    script.play(text).ok_or(Unread)
}

/// How a script ends that continues after the names of another one.
pub fn outcome_after(alloc: Global, names: &str, text: &str) -> Result<Outcome, Unread> {
    let mut script = new_script(alloc);
    match script.play(names) {
        Some(Outcome::Passed(_)) => script.play(text).ok_or(Unread),
        _ => Err(Unread),
    }
}

/// The file system that a script leaves after the names of another one, if both pass.
pub fn desk_after(alloc: Global, names: &str, text: &str) -> Option<Desk> {
    let mut script = new_script(alloc);
    match (script.play(names), script.play(text)) {
        (Some(Outcome::Passed(_)), Some(Outcome::Passed(_))) => Some(script.desk),
        _ => None,
    }
}

// Scripts that fail in their last line: another status, no line of an error, an output that isn't
// written, bytes that a file doesn't have, a file that is there, a cut after the end, no such line,
// a status of no run, an output of a refusal, a file that isn't there, files that differ, and
// another length.
const WRONG: [&str; 12] = [
    "$ frob\n! mtc: UnknownCommand",
    "$ frob\nstatus 1",
    "$ frob\nstatus 1\n! mtc: UnknownCommand\n| frob",
    "file f 00\nleft f 01",
    "file f 00\ngone f",
    "file f 00\ncut 1",
    "$ frob\nstatus 1\n! mtc: UnknownCommand\nfrob",
    "file f 00\nstatus 1",
    "$ frob\n> f",
    "again f",
    "file f 00\nfile g 01\nsame f g",
    "file f 00\nlength f 2",
];

#[test]
fn wrong_scripts_fail(rt: HostRuntime) {
    for script in WRONG {
        let last = script.lines().count() as u64;
        assert!(rt;
            outcome_of(rt.alloc(), script) == Ok(Outcome::FailedBefore(last)),
            "{script}"
        );
    }
}
