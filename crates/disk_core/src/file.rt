//! An open file as a disk.

ghost use Rattle.std.specs.Prelude.{◌≡◌, ◌≤◌, None, false, if◌then◌else◌, is_err, IfOk, OnOk};
ghost use Rattle.byte_formats.specs.Offsets.{IsBytes};
ghost use Rattle.mtc_io.specs.Counts.{Rose, HasCause, with_count};
ghost use Rattle.disk_core.specs.File.{open_file, file_faults, file_known, file_clock, FileTurn};
ghost use Rattle.disk_core.specs.File.{is_file_lost};

use crate::disk::Disk;
use crate::refusing::refuse_if;
use mtc_io::Failed;
use std::fs::{File, OpenFile};
use std::io;
use std::os::unix::fs::FileExt;

/// An open file. The model knows neither its bytes, nor what a crash leaves but that it is bytes:
/// that the operating system follows the rules of [`Disk`] until a sync of the file fails is taken
/// on trust. After a sync that failed the file is lost, since the system may have forgotten what it
/// couldn't write: each later call fails, and, as is tested, reaches no file. The caller has to
/// open the file again, and to write again what it reads of it. The value has the known length, a
/// clock and a count of its failures.
#[derive(Debug, Drop)]
pub struct FileDisk<F = File> {
    file: F,
    known: u64,
    clock: u64,
    faults: u64,
    lost: bool,
}

impl<F: OpenFile + FileExt> FileDisk<F> {
    /// The file as it stands, with a known length of 0, no failure so far, not lost, and the clock
    /// at its start. It takes no lock and syncs nothing: others may open the file and write to it.
    pub fn unlocked(file: F) -> FileDisk<F>
        ensures file { open_file result ≡ file }
        ensures known { file_known result ≡ 0 }
        ensures clock_at { file_clock result ≡ 0 }
        ensures faults { file_faults result ≡ 0 }
        ensures kept { is_file_lost result ≡ false }
    {
        FileDisk {
            file,
            known: 0,
            clock: 0,
            faults: 0,
            lost: false,
        }
    }

    /// The count of its failures: each call that fails adds one, up to the last value.
    pub fn faults(&self) -> u64
        ensures { result ≡ file_faults self.now }
    {
        self.faults
    }

    /// The file, for another use. After a failed sync that is no disk again: the caller has to open
    /// the file again.
    pub fn into_inner(self) -> F
        ensures { result ≡ open_file self }
    {
        self.file
    }
}

// The answer of the system, counted: an Ok moves the clock, and an error is a failure.
fn count<T: Drop>(clock: &mut u64, faults: &mut u64, answer: io::Result<T>) -> Result<T, Failed>
    ensures value { IfOk result (λ v. answer ≡ Ok v) }
    ensures later { clock.old ≤ clock.new }
    ensures rose { OnOk result (Rose clock.old clock.new) }
    ensures cause { HasCause faults.old faults.new result }
    ensures counted { faults.new ≡ (if is_err result then with_count faults.old 1 else faults.old) }
{
    match answer {
        Ok(value) => {
            *clock = clock.saturating_add(1);
            Ok(value)
        }
        Err(_) => {
            *faults = faults.saturating_add(1);
            Err(Failed)
        }
    }
}

fn measure(file: &impl OpenFile) -> io::Result<u64> {
    Ok(file.metadata()?.len())
}

impl<F: OpenFile + FileExt> Disk for FileDisk<F> {
    ghost contents = { λ _. None };

    ghost known = { λ d. d.known };

    ghost clock_at = { λ d. d.clock };

    ghost may_leave = { λ _ c. IsBytes c };

    ghost left_since = { λ _ _ c. IsBytes c };

    ghost faults = { λ d. d.faults };

    ghost turn = { λ d call ok e. FileTurn d call ok e };

    fn len(&mut self) -> Result<u64, Failed> {
        refuse_if(self.lost, &mut self.faults)?;
        let length = count(&mut self.clock, &mut self.faults, measure(&self.file))?;
        self.known = self.known.max(length);
        Ok(length)
    }

    fn read_at(&mut self, place: u64, out: &mut [u8]) -> Result<(), Failed> {
        refuse_if(self.lost, &mut self.faults)?;
        let answer = self.file.read_exact_at(out, place);
        count(&mut self.clock, &mut self.faults, answer)
    }

    fn write_at(&mut self, place: u64, bytes: &[u8]) -> Result<(), Failed> {
        refuse_if(self.lost, &mut self.faults)?;
        let answer = self.file.write_all_at(bytes, place);
        count(&mut self.clock, &mut self.faults, answer)?;
        self.known = self.known.max(place + bytes.len() as u64);
        Ok(())
    }

    fn sync(&mut self) -> Result<(), Failed> {
        refuse_if(self.lost, &mut self.faults)?;
        let answer = count(&mut self.clock, &mut self.faults, self.file.sync_all());
        self.lost = answer.is_err();
        answer
    }

    ghost reads_crash_state = { λ _ _ is. Prim.cc };

    ghost contents_bytes = { λ _ _ is _. Prim.cc };

    ghost known_there = { λ _ _ is. Prim.cc };

    ghost counts_now = { λ _ _ _ _ is. is };

    ghost only_now = { λ _ _ is. is };

    ghost left_bytes = { λ _ _ _ is. is };
}
