//! An open journal or tile file, which may be there to be read alone.

ghost use Rattle.std.specs.Prelude.{IsErr};

use crate::written::Written;
use std::fs::{File, Metadata, OpenFile};
use std::io::{self, ErrorKind};
use std::os::unix::fs::FileExt;

/// A journal or a tile file as a file system of real files opened it.
#[derive(Drop)]
pub enum Opened<F = File> {
    /// It is read and written.
    ToWrite(Written<F>),
    /// It is only read: a write is refused with `PermissionDenied`, and reaches no file. A sync is
    /// asked for, and passes where the file system has none.
    ToRead(F),
    /// There is no file, and none can be made: it reads as an empty one, and a write is refused.
    Missing,
}

/// The answer of the system to a sync of what is only read. A file system that has no sync
/// (EINVAL), or that may only be read (EROFS), has nothing to write.
pub fn passed(answer: io::Result<()>) -> io::Result<()> {
    match answer {
        Err(why) if is_unsynced(&why) => Ok(()),
        other => other,
    }
}

fn is_unsynced(why: &io::Error) -> bool {
    matches!(
        why.kind(),
        ErrorKind::InvalidInput | ErrorKind::ReadOnlyFilesystem
    )
}

fn refuse<T>() -> io::Result<T>
    ensures { IsErr result }
{
    Err(io::Error::from(ErrorKind::PermissionDenied))
}

impl<F: OpenFile + FileExt + Drop> OpenFile for Opened<F> {
    fn metadata(&self) -> io::Result<Metadata> {
        match self {
            Opened::ToWrite(file) => file.metadata(),
            Opened::ToRead(file) => file.metadata(),
            Opened::Missing => Ok(Metadata::of_file(0)),
        }
    }

    fn set_len(&self, size: u64) -> io::Result<()> {
        match self {
            Opened::ToWrite(file) => file.set_len(size),
            _ => refuse(),
        }
    }

    fn sync_all(&self) -> io::Result<()> {
        match self {
            Opened::ToWrite(file) => file.sync_all(),
            Opened::ToRead(file) => passed(file.sync_all()),
            Opened::Missing => Ok(()),
        }
    }

    fn sync_data(&self) -> io::Result<()> {
        self.sync_all()
    }
}

impl<F: OpenFile + FileExt + Drop> FileExt for Opened<F> {
    fn read_at(&self, buf: &mut [u8], offset: u64) -> io::Result<usize> {
        match self {
            Opened::ToWrite(file) => file.read_at(buf, offset),
            Opened::ToRead(file) => file.read_at(buf, offset),
            Opened::Missing => Ok(0),
        }
    }

    fn write_at(&self, buf: &[u8], offset: u64) -> io::Result<usize> {
        match self {
            Opened::ToWrite(file) => file.write_at(buf, offset),
            _ => refuse(),
        }
    }
}
