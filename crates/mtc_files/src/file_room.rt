//! The files of the system as a file system of the program.

ghost use Rattle.std.specs.Prelude.{◌≡◌, ◌+◌, ◌≤◌, ◌<◌, ◌^◌, None, IfOk, IfErr};
ghost use Rattle.mtc_io.specs.Counts.{Rose, with_count};
ghost use Rattle.mtc_room.specs.Room.{Opens};
ghost use Rattle.disk_core.specs.File.{file_faults, file_clock};
ghost use Rattle.mtc_files.specs.Access.{room_access};

use crate::access::Access;
use crate::held::Held;
use crate::journal::{create_journal, hold_journal, hold_new, hold_tiles, open_plain, share_tiles};
use crate::opened::Opened;
use crate::written::{Content, Written};
use disk_core::{Disk, FileDisk};
use mtc_io::{Failed, Source, StdSource};
use mtc_room::{Cause, Room, RoomError};
use std::fs::{self, OpenFile};
use std::io::{self, ErrorKind};
use std::os::unix::fs::FileExt;
use std::rt::Files;

/// The files of the system. The model knows nothing of them: what a file holds is taken as it
/// comes. A journal, or its tile file, is opened for this process alone, or only to be read, as the
/// [`Access`] says; and its name is on the disk before it is opened. Where files are only read no
/// journal is made and none is written: the device refuses it, and the file system fails.
#[derive(Drop)]
pub struct FileRoom<'a, R> {
    files: &'a R,
    access: Access,
    opened: u64,
    faults: u64,
    cause: Cause,
}

// What the system says of an error: a lock that can't be had at once would block.
fn cause_of(why: &io::Error) -> Cause {
    if why.kind() == ErrorKind::WouldBlock {
        Cause::Locked
    } else {
        Cause::Failed
    }
}

// Whether the system has no file of that name, also where the name continues after a file.
fn is_absent(why: &io::Error) -> bool {
    matches!(why.kind(), ErrorKind::NotFound | ErrorKind::NotADirectory)
}

// What this process holds, as it may be used.
fn opened<F: OpenFile + FileExt + Drop>(
    held: io::Result<F>,
    access: Access,
    content: Content,
) -> io::Result<Opened<F>> {
    let file = held?;
    Ok(match access {
        Access::Read => Opened::ToRead(file),
        Access::Write => Opened::ToWrite(Written::new(file, content)?),
    })
}

// Makes the empty file of a new journal, where files may be written.
fn create_to_write<R: Files>(files: &R, name: &str, access: Access) -> io::Result<R::File> {
    match access {
        Access::Read => Err(io::Error::from(ErrorKind::PermissionDenied)),
        Access::Write => create_journal(files, name),
    }
}

impl<'a, R: Files> FileRoom<'a, R>
where
    R::File: Held,
{
    /// A file system with nothing open, and no failure so far, whose journals and tile files are
    /// opened so.
    pub fn new(files: &'a R, access: Access) -> FileRoom<'a, R>
        ensures access { room_access result ≡ access }
        ensures opened { ⟦<FileRoom<'a, R> as Room>⟧.opened result ≡ 0 }
        ensures faults { ⟦<FileRoom<'a, R> as Room>⟧.faults result ≡ 0 }
    {
        FileRoom {
            files,
            access,
            opened: 0,
            faults: 0,
            cause: Cause::Failed,
        }
    }

    // An error of the system for which a file system has no other answer: a failure.
    fn fail(&mut self, why: &io::Error) -> RoomError
        ensures error { result ≡ RoomError.Failed }
        ensures opened { self.new.opened ≡ self.old.opened }
        ensures later { self.old.faults ≤ self.new.faults }
        ensures fault { Rose self.old.faults self.new.faults }
        ensures counted { self.new.faults ≡ with_count self.old.faults 1 }
    {
        self.faults = self.faults.saturating_add(1);
        self.cause = cause_of(why);
        RoomError::Failed
    }

    // Closes an object that counted so many failures. No lock is the cause of these.
    fn take_back(&mut self, faults: u64)
        requires { 0 < self.old.opened }
        ensures out { self.new.opened + 1 ≡ self.old.opened }
        ensures count { self.new.faults ≡ with_count self.old.faults faults }
    {
        if faults > 0 {
            self.cause = Cause::Failed;
        }
        self.faults = self.faults.saturating_add(faults);
        self.opened -= 1;
    }

    // Opens a file that this process holds, or counts the failure.
    fn open_file(
        &mut self,
        held: io::Result<Opened<R::File>>,
    ) -> Result<FileDisk<Opened<R::File>>, RoomError>
        requires { self.old.opened < 2 ^ 32 }
        ensures opens { Opens self.old.opened self.new.opened
            self.old.faults self.new.faults result }
        ensures failed { IfErr result (λ why. why ≡ RoomError.Failed) }
        ensures time { IfOk result (λ disk. file_clock disk ≡ 0) }
        ensures begins { IfOk result (λ disk. file_faults disk ≡ 0) }
    {
        match held {
            Ok(file) => {
                self.opened += 1;
                Ok(FileDisk::unlocked(file))
            }
            Err(why) => Err(self.fail(&why)),
        }
    }
}

impl<'a, R: Files> Room for FileRoom<'a, R>
where
    R::File: Held,
{
    type Src = StdSource<R::File>;

    type Dsk = FileDisk<Opened<R::File>>;

    ghost is_modelled = { λ _. ⊥ };

    ghost leads_to = { λ path. path };

    ghost file = { λ _ _. None };

    ghost device = { λ _ _. None };

    ghost faults = { λ r. r.faults };

    ghost opened = { λ r. r.opened };

    ghost why = { λ r. r.cause };

    fn source(&mut self, name: &str) -> Result<StdSource<R::File>, RoomError> {
        match fs::open(self.files, name) {
            Ok(file) => {
                self.opened += 1;
                Ok(StdSource::new(file))
            }
            Err(why) if is_absent(&why) => Err(RoomError::Absent),
            Err(why) => Err(self.fail(&why)),
        }
    }

    fn disk(&mut self, name: &str) -> Result<FileDisk<Opened<R::File>>, RoomError> {
        match open_plain(self.files, name, self.access) {
            Ok(file) => {
                let held = hold_journal(self.files, file, name, self.access);
                self.open_file(opened(held, self.access, Content::Journal))
            }
            Err(why) if is_absent(&why) => Err(RoomError::Absent),
            Err(why) => Err(self.fail(&why)),
        }
    }

    fn fresh(&mut self, name: &str) -> Result<FileDisk<Opened<R::File>>, RoomError> {
        match create_to_write(self.files, name, self.access) {
            Ok(file) => {
                // A file that isn't held stays: its name may lead to another command's by now.
                let held = hold_new(self.files, file, name, self.access);
                self.open_file(opened(held, self.access, Content::Journal))
            }
            Err(why) if why.kind() == ErrorKind::AlreadyExists => Err(RoomError::Exists),
            Err(why) => Err(self.fail(&why)),
        }
    }

    fn scratch(&mut self, name: &str) -> Result<FileDisk<Opened<R::File>>, Failed> {
        let held = match self.access {
            Access::Read => share_tiles(self.files, name),
            Access::Write => opened(hold_tiles(self.files, name), self.access, Content::Tiles),
        };
        match self.open_file(held) {
            Ok(disk) => Ok(disk),
            Err(_) => Err(Failed),
        }
    }

    fn cause(&self) -> Cause {
        self.cause
    }

    fn done(&mut self, source: StdSource<R::File>) {
        self.take_back(source.faults());
    }

    fn keep(&mut self, _name: &str, disk: FileDisk<Opened<R::File>>) {
        self.take_back(disk.faults());
    }

    ghost modelled_file = { λ _ _ contents. absurd contents };

    ghost one_device = { λ _ _ _ contents _. absurd contents };
}
