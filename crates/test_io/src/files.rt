//! Open files as disks.

use disk_core::{Disk, FileDisk, write_synced};
use mtc_io::Failed;
use std::cell::Cell;
use std::fs::{self, File, Metadata, OpenFile};
use std::io::{self, ErrorKind};
use std::os::unix::fs::FileExt;
use std::rt::Files;
use std::test::Fail;

// A file that keeps nothing but the order of its calls, a digit for each: 1 a write, 2 a sync, 4 a
// read, 5 one for its length. Its first sync may fail; each later one is answered Ok, as by a
// system that forgets what it couldn't write.
#[derive(Drop)]
struct Counted {
    calls: Cell<u32>,
    fails: Cell<bool>,
}

impl Counted {
    fn new(fails: bool) -> Counted {
        Counted {
            calls: Cell::new(0),
            fails: Cell::new(fails),
        }
    }

    fn note(&self, digit: u32) {
        let calls = self.calls.get();
        self.calls
            .set(calls.saturating_mul(10).saturating_add(digit));
    }
}

impl OpenFile for Counted {
    fn metadata(&self) -> io::Result<Metadata> {
        self.note(5);
        Err(io::Error::from(ErrorKind::Unsupported))
    }

    fn set_len(&self, _size: u64) -> io::Result<()> {
        self.note(9);
        Ok(())
    }

    fn sync_all(&self) -> io::Result<()> {
        self.note(2);
        if self.fails.get() {
            self.fails.set(false);
            return Err(io::Error::from(ErrorKind::StorageFull));
        }
        Ok(())
    }

    fn sync_data(&self) -> io::Result<()> {
        self.note(3);
        Ok(())
    }
}

impl FileExt for Counted {
    fn read_at(&self, buf: &mut [u8], _offset: u64) -> io::Result<usize> {
        self.note(4);
        Ok(buf.len())
    }

    fn write_at(&self, buf: &[u8], _offset: u64) -> io::Result<usize> {
        self.note(1);
        Ok(buf.len())
    }
}

// Two writes, each synced, and one that isn't.
fn write_thrice(disk: &mut FileDisk<Counted>) -> Result<(), Failed> {
    write_synced(disk, 0, b"abcd")?;
    write_synced(disk, 2, b"WXYZ")?;
    disk.write_at(0, b"a")
}

// The calls that these make.
fn calls_of_writes() -> u32 {
    let mut disk = FileDisk::unlocked(Counted::new(false));
    let written = write_thrice(&mut disk);
    let calls = disk.into_inner().calls.get();
    if written == Ok(()) { calls } else { 0 }
}

#[test]
fn each_write_is_followed_by_its_sync(rt: HostRuntime) {
    assert!(rt; calls_of_writes() == 12121);
}

// Whether each call of a lost file fails, after two that failed.
fn is_lost(disk: &mut FileDisk<Counted>) -> bool {
    disk.len() == Err(Failed)
        && disk.write_at(0, b"a") == Err(Failed)
        && disk.sync() == Err(Failed)
        && disk.faults() == 5
}

// Whether a sync after a write fails, and then all calls.
fn is_lost_by_a_sync(disk: &mut FileDisk<Counted>) -> bool {
    if disk.write_at(0, b"abcd") != Ok(()) || disk.sync() != Err(Failed) {
        return false;
    }
    disk.read_at(0, &mut [0; 4]) == Err(Failed) && is_lost(disk)
}

// The calls that reach a file whose first sync fails.
fn calls_of_a_lost_file() -> u32 {
    let mut disk = FileDisk::unlocked(Counted::new(true));
    let lost = is_lost_by_a_sync(&mut disk);
    let calls = disk.into_inner().calls.get();
    if lost { calls } else { 0 }
}

#[test]
fn after_a_failed_sync_no_call_reaches_the_file(rt: HostRuntime) {
    assert!(rt; calls_of_a_lost_file() == 12);
}

fn opened<R: Files<File = File>>(rt: &R, path: &str) -> io::Result<File> {
    let mut how = fs::OpenOptions::new();
    how.read(true).write(true).create(true);
    how.open(rt, path)
}

// What is read after two writes, one over the other, in an empty file.
fn written(disk: &mut FileDisk) -> Result<[u8; 5], Failed> {
    if disk.len()? != 0 {
        return Err(Failed);
    }
    write_synced(disk, 0, b"abcd")?;
    write_synced(disk, 2, b"WXYZ")?;
    let mut out = [0; 5];
    disk.read_at(1, &mut out)?;
    Ok(out)
}

// Whether it is what was written.
fn is_written(file: File) -> bool {
    let mut disk = FileDisk::unlocked(file);
    written(&mut disk) == Ok(*b"bWXYZ") && disk.faults() == 0
}

// Whether a file that is open to be read alone refuses a write, and counts that.
fn refuses(disk: &mut FileDisk) -> bool {
    disk.len() == Ok(6) && disk.write_at(0, b"x") == Err(Failed) && disk.faults() == 1
}

fn is_shut(file: File) -> bool {
    let mut shut = FileDisk::unlocked(file);
    refuses(&mut shut)
}

#[test]
fn a_file_is_a_disk(rt: HostRuntime) -> Result<(), Fail> {
    let path = "disk_core_test";
    let _ = fs::remove_file(&rt, path);
    assert!(rt; is_written(opened(&rt, path)?));
    assert!(rt; is_shut(fs::OpenOptions::new().read(true).open(&rt, path)?));
    fs::remove_file(&rt, path)?;
    Ok(())
}
