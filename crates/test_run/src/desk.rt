//! A file system in memory, and runs of the program over it.

ghost use Rattle.std.specs.Prelude.{◌≡◌};

use crate::texts::owned_words;
use mtc_io::{Bytes, MemSink, Memory};
use mtc_top::{MemRoom, Room, run};
use std::alloc::Global;
use tree_core::{Sha, Toy};

/// What a run answered: its status, and what its streams took.
#[derive(Drop)]
pub struct Answer {
    pub status: u8,
    pub out: MemSink,
    pub err: MemSink,
}

impl Answer {
    /// Whether the run answered so.
    pub fn is(&self, status: u8, out: &[u8], err: &[u8]) -> bool {
        self.status == status && self.out.taken() == out && self.err.taken() == err
    }
}

/// A stream that takes so many bytes a call, and fails in these calls.
pub fn sink(alloc: Global, takes: usize, failing: Vec<u64>) -> MemSink {
    MemSink::new(alloc, takes.max(1), failing)
}

/// A file system of which nothing is open.
#[derive(Drop)]
pub struct Desk {
    room: MemRoom,
    is_toy: bool,
    ghost idle: { ⟦<MemRoom as Room>⟧.opened room ≡ 0 },
}

impl Desk {
    /// A file system without a file.
    pub fn new(alloc: Global) -> Desk {
        Desk {
            room: MemRoom::new(alloc),
            is_toy: false,
        }
    }

    /// From here on each file that is made fails these calls.
    pub fn fail_fresh(&mut self, failing: Vec<u64>) {
        self.room.fail_fresh(failing);
    }

    /// From here on the program hashes by the sum of the bytes, for which pairs are easily found.
    pub fn use_toy(&mut self) {
        self.is_toy = true;
    }

    /// Puts a file with these bytes and failing calls in its place.
    pub fn place(&mut self, name: &str, bytes: Bytes, failing: Vec<u64>) -> Result<(), Memory> {
        self.room.place(name, bytes, failing)
    }

    /// From here on these calls fail on a file that is there.
    pub fn fail(&mut self, alloc: Global, name: &str, failing: Vec<u64>) -> Option<()> {
        let bytes = Bytes::copy_of(alloc, self.room.bytes(name)?).ok()?;
        self.room.place(name, bytes, failing).ok()
    }

    /// The bytes of a file.
    pub fn bytes(&self, name: &str) -> Option<&[u8]> {
        self.room.bytes(name)
    }

    // Runs the program, and answers the status.
    fn run(&mut self, alloc: Global, words: &[String], out: &mut MemSink, err: &mut MemSink) -> u8 {
        if self.is_toy {
            return run::<Toy, _, _, _>(alloc, words, &mut self.room, out, err);
        }
        run::<Sha, _, _, _>(alloc, words, &mut self.room, out, err)
    }

    /// What a run with these arguments and streams answers.
    pub fn run_over(
        &mut self,
        alloc: Global,
        words: &[String],
        mut out: MemSink,
        mut err: MemSink,
    ) -> Answer {
        let status = self.run(alloc, words, &mut out, &mut err);
        Answer { status, out, err }
    }

    /// What a run with the arguments of a text answers, where its streams take 1,000 bytes a call.
    pub fn answer(&mut self, alloc: Global, text: &str) -> Result<Answer, Memory> {
        let words = owned_words(alloc, text)?;
        let out = sink(alloc, 1_000, Vec::new(alloc));
        let err = sink(alloc, 1_000, Vec::new(alloc));
        Ok(self.run_over(alloc, words.as_slice(), out, err))
    }
}
