//! A file system in memory, runs of the program over it, and what a stop of the machine leaves of
//! it.

ghost use Rattle.std.specs.Prelude.{◌≡◌};

use crate::difference::Difference;
use disk_core::MemDisk;
use mtc_io::{Bytes, MemSink};
use mtc_top::{MemRoom, Room, run, stop_leaving};
use std::alloc::Global;
use tree_core::Sha;

/// How standard output behaves in a run: so many bytes a call, and the call that fails.
#[derive(Clone, Copy)]
pub struct Outlet {
    pub per_call: usize,
    pub failing: Option<u64>,
}

/// One that doesn't fail.
pub const WHOLE: Outlet = Outlet {
    per_call: 100,
    failing: None,
};

// The list of the call that fails.
fn listed(alloc: Global, failing: Option<u64>) -> Result<Vec<u64>, Difference> {
    let mut list = Vec::new(alloc);
    if let Some(call) = failing {
        list.push(call)?;
    }
    Ok(list)
}

/// How a run ended.
#[derive(Drop)]
pub struct Ran {
    pub status: u8,
    pub out: Vec<u8>,
}

/// A file system of which nothing is open.
#[derive(Drop)]
pub struct Desk {
    alloc: Global,
    room: MemRoom,
    ghost idle: { ⟦<MemRoom as Room>⟧.opened room ≡ 0 },
}

impl Desk {
    /// A file system without a file.
    pub fn new(alloc: Global) -> Desk {
        Desk {
            alloc,
            room: MemRoom::new(alloc),
        }
    }

    // Puts a file with these bytes in its place, on a device that fails these calls.
    fn put(&mut self, name: &str, bytes: Bytes, failing: Option<u64>) -> Result<(), Difference> {
        let failing = listed(self.alloc, failing)?;
        self.room.place(name, bytes, failing)?;
        Ok(())
    }

    /// The same of a copy, on a device that doesn't fail.
    pub fn place(&mut self, name: &str, bytes: &[u8]) -> Result<(), Difference> {
        let bytes = Bytes::copy_of(self.alloc, bytes)?;
        self.put(name, bytes, None)
    }

    /// What a read of a file gives.
    pub fn bytes(&self, name: &str) -> Result<&[u8], Difference> {
        match self.room.bytes(name) {
            Some(bytes) => Ok(bytes),
            None => Err(Difference::Journal),
        }
    }

    /// The same file on a new device, which fails this call.
    pub fn renew(&mut self, name: &str, failing: Option<u64>) -> Result<(), Difference> {
        let bytes = Bytes::copy_of(self.alloc, self.bytes(name)?)?;
        self.put(name, bytes, failing)
    }

    // A copy of a file's device.
    fn device(&mut self, name: &str) -> Result<MemDisk, Difference> {
        let Ok(opened) = self.room.disk(name) else {
            return Err(Difference::Journal);
        };
        let copy = opened.open_copy();
        self.room.keep(name, opened);
        Ok(copy?)
    }

    /// One of the crash states that a stop of the machine may leave of a file.
    pub fn crash_state(&mut self, name: &str, pick: u64) -> Result<Bytes, Difference> {
        let crash_state = self.device(name)?.crash(pick)?;
        Ok(Bytes::copy_of(self.alloc, crash_state.bytes())?)
    }

    /// The machine stops, and leaves this crash state.
    pub fn leave(&mut self, name: &str, crash_state: Bytes) -> Result<(), Difference> {
        stop_leaving::<Sha, MemSink, MemSink>(
            &mut self.room,
            name,
            crash_state,
            Vec::new(self.alloc),
        )?;
        Ok(())
    }

    // The arguments of a text, as the program gets them.
    fn words(&self, text: &str) -> Result<Vec<String>, Difference> {
        let mut words = Vec::new(self.alloc);
        for word in text.split_whitespace() {
            words.push(String::from_str(self.alloc, word)?)?;
        }
        Ok(words)
    }

    // Runs the program with these arguments.
    fn run_words(&mut self, words: &[String], out: &mut MemSink) -> u8 {
        let mut err = MemSink::new(self.alloc, 100, Vec::new(self.alloc));
        run::<Sha, _, _, _>(self.alloc, words, &mut self.room, out, &mut err)
    }

    fn run_to(&mut self, text: &str, out: &mut MemSink) -> Result<u8, Difference> {
        let words = self.words(text)?;
        Ok(self.run_words(words.as_slice(), out))
    }

    /// Runs the program.
    pub fn run(&mut self, text: &str, outlet: Outlet) -> Result<Ran, Difference> {
        let failing = listed(self.alloc, outlet.failing)?;
        let mut out = MemSink::new(self.alloc, outlet.per_call.max(1), failing);
        let status = self.run_to(text, &mut out)?;
        Ok(Ran {
            status,
            out: Vec::from_slice(self.alloc, out.taken())?,
        })
    }
}
