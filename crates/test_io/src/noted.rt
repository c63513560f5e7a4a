//! The files of the system, which know what calls are to come.

ghost use Rattle.std.specs.Prelude.{IsErr};

use mtc_files::Held;
use std::alloc::Allocator;
use std::cell::Cell;
use std::fs::{File, Metadata, OpenFile, OpenOptions, TryLockError};
use std::io::{self, ErrorKind, Read, Seek, SeekFrom, Write};
use std::os::fd::AsRawFd;
use std::os::unix::fs::FileExt;
use std::rt::Files;

// A call of the system: for a name, whose link is followed or not; one that opens a file to be
// written or to be read, a new file, or a folder; and of an open file one that locks it for one
// process or for all readers, moves its descriptor, asks for its length and node, reads or writes
// so many bytes from an offset on, cuts it off or makes it longer, so that it has so many bytes, or
// syncs it.
#[derive(Clone, Copy, PartialEq)]
pub enum Call {
    Find,
    FindLink,
    Open,
    OpenToRead,
    Create,
    OpenFolder,
    Lock,
    Share,
    Move,
    Inspect,
    Read(u64, usize),
    Write(u64, usize),
    Cut(u64),
    Sync,
    SyncFolder,
}

// Which calls are to come. One of these numbers fails, and in which way; at one the name leads
// elsewhere; at one a file is found open to others than its owner; and an open file may have the
// descriptor of a stream.
#[derive(Drop)]
pub struct Wanted {
    pub calls: Vec<Call>,
    pub failing: Option<usize>,
    pub failure: ErrorKind,
    pub elsewhere: Option<usize>,
    pub open_to_others: Option<usize>,
    pub on_stream: bool,
    made: Cell<usize>,
    strange: Cell<bool>,
}

impl Wanted {
    pub fn new(calls: Vec<Call>) -> Wanted {
        Wanted {
            calls,
            failing: None,
            failure: ErrorKind::StorageFull,
            elsewhere: None,
            open_to_others: None,
            on_stream: false,
            made: Cell::new(0),
            strange: Cell::new(false),
        }
    }

    // Counts a call, and answers its number.
    fn note(&self, call: Call) -> io::Result<usize> {
        let number = self.made.get();
        self.made.set(number.saturating_add(1));
        if self.calls.get(number) != Some(&call) {
            self.strange.set(true);
        }
        if self.failing == Some(number) {
            return Err(io::Error::from(self.failure));
        }
        Ok(number)
    }

    // A call that is never to come.
    fn refuse<T>(&self) -> io::Result<T>
        ensures { IsErr result }
    {
        self.strange.set(true);
        Err(io::Error::from(ErrorKind::Unsupported))
    }

    // How many calls were made, where each was the one to come.
    pub fn met(&self) -> Option<usize> {
        if self.strange.get() {
            None
        } else {
            Some(self.made.get())
        }
    }
}

// An open file of the system.
#[derive(Drop)]
pub struct NotedFile<'a> {
    file: File,
    wanted: &'a Wanted,
    is_folder: bool,
}

// The files of the system.
#[derive(Drop)]
pub struct Noted<'a, R> {
    pub files: &'a R,
    pub wanted: &'a Wanted,
}

impl<'a, R> Noted<'a, R> {
    // The name by which a file is looked for at the call of this number.
    fn found<'n>(&self, path: &'n str, number: usize) -> &'n str {
        if self.wanted.elsewhere == Some(number) {
            "."
        } else {
            path
        }
    }
}

impl<'a, R: Files<File = File>> Files for Noted<'a, R> {
    type File = NotedFile<'a>;

    type Dir = R::Dir;

    fn open_file(&self, how: &OpenOptions, path: &str) -> io::Result<NotedFile<'a>> {
        let call = if how.asks_create() || how.asks_truncate() || how.asks_append() {
            return self.wanted.refuse();
        } else if how.asks_create_new() {
            Call::Create
        } else if how.asks_write() {
            Call::Open
        } else if path == "." {
            Call::OpenFolder
        } else {
            Call::OpenToRead
        };
        self.wanted.note(call)?;
        Ok(NotedFile {
            file: self.files.open_file(how, path)?,
            wanted: self.wanted,
            is_folder: call == Call::OpenFolder,
        })
    }

    fn open_dir(&self, _path: &str) -> io::Result<R::Dir> {
        self.wanted.refuse()
    }

    fn metadata(&self, path: &str) -> io::Result<Metadata> {
        let number = self.wanted.note(Call::Find)?;
        self.files.metadata(self.found(path, number))
    }

    fn symlink_metadata(&self, path: &str) -> io::Result<Metadata> {
        let number = self.wanted.note(Call::FindLink)?;
        self.files.symlink_metadata(self.found(path, number))
    }

    fn copy(&self, _from: &str, _to: &str) -> io::Result<u64> {
        self.wanted.refuse()
    }

    fn rename(&self, _from: &str, _to: &str) -> io::Result<()> {
        self.wanted.refuse()
    }

    fn remove_file(&self, _path: &str) -> io::Result<()> {
        self.wanted.refuse()
    }

    fn create_dir(&self, _path: &str) -> io::Result<()> {
        self.wanted.refuse()
    }

    fn remove_dir(&self, _path: &str) -> io::Result<()> {
        self.wanted.refuse()
    }

    fn remove_dir_all<B: Allocator>(&self, _alloc: B, _path: &str) -> io::Result<()> {
        self.wanted.refuse()
    }
}

impl<'a> OpenFile for NotedFile<'a> {
    fn metadata(&self) -> io::Result<Metadata> {
        let number = self.wanted.note(Call::Inspect)?;
        if self.wanted.open_to_others == Some(number) {
            return Ok(Metadata::of_file(0));
        }
        self.file.metadata()
    }

    fn set_len(&self, size: u64) -> io::Result<()> {
        self.wanted.note(Call::Cut(size))?;
        self.file.set_len(size)
    }

    fn sync_all(&self) -> io::Result<()> {
        self.wanted.note(if self.is_folder {
            Call::SyncFolder
        } else {
            Call::Sync
        })?;
        Ok(())
    }

    fn sync_data(&self) -> io::Result<()> {
        self.wanted.refuse()
    }

    fn try_clone(&self) -> io::Result<NotedFile<'a>> {
        self.wanted.note(Call::Move)?;
        Ok(NotedFile {
            file: self.file.try_clone()?,
            wanted: self.wanted,
            is_folder: self.is_folder,
        })
    }
}

impl<'a> FileExt for NotedFile<'a> {
    fn read_at(&self, buf: &mut [u8], offset: u64) -> io::Result<usize> {
        self.wanted.note(Call::Read(offset, buf.len()))?;
        self.file.read_at(buf, offset)
    }

    fn write_at(&self, buf: &[u8], offset: u64) -> io::Result<usize> {
        self.wanted.note(Call::Write(offset, buf.len()))?;
        self.file.write_at(buf, offset)
    }
}

impl<'a> Held for NotedFile<'a> {
    fn try_hold(&self) -> Result<(), TryLockError> {
        match self.wanted.note(Call::Lock) {
            Ok(_) => self.file.try_lock(),
            Err(why) => Err(TryLockError::Error(why)),
        }
    }

    fn try_share(&self) -> Result<(), TryLockError> {
        match self.wanted.note(Call::Share) {
            Ok(_) => self.file.try_lock_shared(),
            Err(why) => Err(TryLockError::Error(why)),
        }
    }

    fn descriptor(&self) -> i32 {
        if self.wanted.on_stream {
            2
        } else {
            self.file.as_raw_fd()
        }
    }
}

impl<'a> Read for NotedFile<'a> {
    fn read(&mut self, _buf: &mut [u8]) -> io::Result<usize> {
        self.wanted.refuse()
    }
}

impl<'a> Write for NotedFile<'a> {
    fn write(&mut self, _buf: &[u8]) -> io::Result<usize> {
        self.wanted.refuse()
    }

    fn flush(&mut self) -> io::Result<()> {
        self.wanted.refuse()
    }
}

impl<'a> Seek for NotedFile<'a> {
    fn seek(&mut self, _to: SeekFrom) -> io::Result<u64> {
        self.wanted.refuse()
    }
}
