//! A file system in memory, runs of the program over it, and runs in which a device stops.

ghost use Rattle.std.specs.Prelude.{◌≡◌};

use disk_core::MemDisk;
use fuse_room::FuseRoom;
use mtc_io::{Bytes, MemSink};
use mtc_top::{MemRoom, Room, RoomError, run};
use std::alloc::Global;
use tree_core::Sha;

/// What a run answered: its status, and what its streams took.
#[derive(Drop)]
pub struct Answer {
    pub status: u8,
    pub out: MemSink,
    pub err: MemSink,
}

impl Answer {
    /// Whether the run answered so.
    pub fn is(&self, status: u8, out: &[u8], err: &[u8]) -> bool {
        self.status == status && self.out.taken() == out && self.err.taken() == err
    }

    /// Whether the run did its work, and printed what begins so.
    pub fn begins_with(&self, out: &[u8]) -> bool {
        self.status == 0 && self.out.taken().starts_with(out) && self.err.taken().is_empty()
    }
}

/// A crash state of a file, and how many of sixteen picks leave it.
#[derive(Drop)]
pub struct CrashState {
    pub bytes: Bytes,
    pub picks: u64,
}

// Whether both are the same. They mostly differ at their ends, if they do.
fn are_same(one: &[u8], other: &[u8]) -> bool {
    let end = one.len().saturating_sub(64);
    other.ends_with(&one[end..]) && one == other
}

// Counts a crash state: as one of those that there are, or as a new one.
fn note(states: &mut Vec<CrashState>, bytes: Bytes) -> Option<()> {
    for at in 0..states.len() {
        if are_same(states[at].bytes.as_slice(), bytes.as_slice()) {
            states[at].picks = states[at].picks.saturating_add(1);
            return Some(());
        }
    }
    states.push(CrashState { bytes, picks: 1 }).ok()
}

// The crash states of a device by the picks 0 to 15, each once.
fn states_of(alloc: Global, device: &MemDisk) -> Option<Vec<CrashState>> {
    let mut states = Vec::new(alloc);
    for pick in 0..16 {
        let left = device.open_copy().ok()?.crash(pick).ok()?;
        note(&mut states, Bytes::copy_of(alloc, left.bytes()).ok()?)?;
    }
    Some(states)
}

// The one state of a file that isn't there.
fn no_bytes(alloc: Global) -> Option<Vec<CrashState>> {
    let mut states = Vec::new(alloc);
    let bytes = Bytes::new(alloc);
    states.push(CrashState { bytes, picks: 16 }).ok()?;
    Some(states)
}

fn sink(alloc: Global) -> MemSink {
    MemSink::new(alloc, 1_000, Vec::new(alloc))
}

// The arguments of a text, as the program gets them.
fn words_of(alloc: Global, text: &str) -> Option<Vec<String>> {
    let mut words = Vec::new(alloc);
    for word in text.split_whitespace() {
        words.push(String::from_str(alloc, word).ok()?).ok()?;
    }
    Some(words)
}

// A run over any file system of which nothing is open.
fn run_over<R: Room>(alloc: Global, words: &[String], room: &mut R) -> Answer
    requires { R.opened room.old ≡ 0 }
    ensures { R.opened room.new ≡ 0 }
{
    let (mut out, mut err) = (sink(alloc), sink(alloc));
    let status = run::<Sha, _, _, _>(alloc, words, room, &mut out, &mut err);
    Answer { status, out, err }
}

/// A file system of which nothing is open.
#[derive(Drop)]
pub struct Files {
    alloc: Global,
    room: MemRoom,
    ghost idle: { ⟦<MemRoom as Room>⟧.opened room ≡ 0 },
}

/// What a run left in which a device stopped, or passed all calls: its answer, how many calls the
/// device failed, and the files.
#[derive(Drop)]
pub struct Stopped {
    pub answer: Answer,
    pub refused: u64,
    pub files: Files,
}

impl Files {
    /// A file system without a file.
    pub fn new(alloc: Global) -> Files {
        Files {
            alloc,
            room: MemRoom::new(alloc),
        }
    }

    /// Puts a file with these bytes in its place.
    pub fn place(&mut self, name: &str, bytes: &[u8]) -> Option<()> {
        let bytes = Bytes::copy_of(self.alloc, bytes).ok()?;
        self.room.place(name, bytes, Vec::new(self.alloc)).ok()
    }

    /// Runs the program.
    pub fn run(&mut self, words: &str) -> Option<Answer> {
        let words = words_of(self.alloc, words)?;
        Some(run_over(self.alloc, words.as_slice(), &mut self.room))
    }

    /// Runs the program over a device that passes so many calls and stops.
    pub fn run_until(self, words: &str, name: &str, passes: u64) -> Option<Stopped> {
        let Files { alloc, room } = self;
        let words = words_of(alloc, words)?;
        let name = Bytes::copy_of(alloc, name.as_bytes()).ok()?;
        let mut fuses = FuseRoom::new(room, name, passes);
        let answer = run_over(alloc, words.as_slice(), &mut fuses);
        let refused = fuses.refused();
        let files = Files {
            alloc,
            room: fuses.into_inner(),
        };
        Some(Stopped {
            answer,
            refused,
            files,
        })
    }

    /// What a crash leaves of a file by the picks 0 to 15, each crash state once: nothing of a file
    /// that isn't there.
    pub fn crash_states(&mut self, name: &str) -> Option<Vec<CrashState>> {
        match self.room.disk(name) {
            Ok(opened) => {
                let states = states_of(self.alloc, &opened);
                self.room.keep(name, opened);
                states
            }
            Err(RoomError::Absent) => no_bytes(self.alloc),
            Err(_) => None,
        }
    }
}
