//! The file of a journal, and that of its tiles: how each is opened, made, locked and synced.

use crate::access::Access;
use crate::held::Held;
use crate::kind::{Kind, kind_of, refuse_journal};
use crate::opened::{Opened, passed};
use arrayvec::ArrayString;
use journal_core::LONGEST_WRITE;
use std::fs::{self, File, Metadata, OpenFile};
use std::io::{self, ErrorKind};
use std::os::unix::fs::{FileExt, MetadataExt, OpenOptionsExt};
use std::path::Path;
use std::rt::Files;

// The mode of a new file: it is read and written by its owner alone.
const OWNER_ALONE: u32 = 0o600;
// What others than the owner may do by a mode.
const OTHERS: u32 = 0o077;
// The descriptors of the standard streams are those up to this one, that of standard error.
const LAST_STREAM: i32 = 2;
// So many bytes at the end of a journal are written again at each opening that may write, in
// pieces: all that a command may have written after the last sync that answered Ok. After that sync
// it writes one record, and no more if a call fails. No write is longer than a journal's longest,
// of 131,094 bytes, which is the first one of a new file. A later record's has at most 131,077, and
// so far at most the file continues after the closed commit byte: a commit byte that was just
// opened stands at most 131,078 bytes before the end.
const TAIL: u64 = PIECES * PIECE as u64;

const PIECES: u64 = ((LONGEST_WRITE + PIECE - 1) / PIECE) as u64;

const PIECE: usize = 4096;
// The system takes no path of more bytes.
const LONGEST_PATH: usize = 4096;

/// Opens a file that exists, to read it, and to write it where that is wanted. A pipe is opened to
/// be read only once its other end is, so what isn't a plain file is refused before.
pub fn open_plain<R: Files>(files: &R, name: &str, access: Access) -> io::Result<R::File> {
    if access == Access::Read && !fs::metadata(files, name)?.is_file() {
        return Err(io::Error::from(ErrorKind::InvalidInput));
    }
    File::options()
        .read(true)
        .write(access == Access::Write)
        .open(files, name)
}

/// Makes the empty file of a new journal. A name that has a file, or a link, is refused, and so is
/// one that is too long for the name of its tile file, and a file system that lets others than the
/// owner do anything with the file, whatever mode was asked for.
pub fn create_journal<R: Files>(files: &R, name: &str) -> io::Result<R::File> {
    if let Err(why) = allow_tiles(files, name) {
        return match fs::symlink_metadata(files, name) {
            Ok(_) => Err(io::Error::from(ErrorKind::AlreadyExists)),
            Err(_) => Err(why),
        };
    }
    let file = create_empty(files, name)?;
    if is_open_to_others(&file.metadata()?) {
        return Err(io::Error::from(ErrorKind::PermissionDenied));
    }
    Ok(file)
}

/// Locks the open file of a journal without waiting, and makes it ready to be opened: the file and
/// the folder of its name are synced. The name has to lead to the file that was locked, a plain
/// one. The journal of a cosigner, which has a secret in it, is refused where its mode lets others
/// than its owner do anything. If the file may be written its end is, as it is read, so that the
/// sync with which it is opened carries these bytes to the disk also if a command was killed while
/// a sync of it failed. A file that doesn't begin as a journal isn't written. The lock is held
/// until the file is closed.
pub fn hold_journal<R: Files>(
    files: &R,
    file: R::File,
    name: &str,
    access: Access,
) -> io::Result<R::File>
where
    R::File: Held,
{
    let file = lock(file, access)?;
    let found = file.metadata()?;
    if !is_plain(&fs::metadata(files, name)?, &found) {
        return Err(io::Error::from(ErrorKind::NotFound));
    }
    allowed(file.sync_all(), access)?;
    let kind = kind_of(&file, found.len())?;
    if kind == Kind::Cosigner && is_open_to_others(&found) {
        return Err(io::Error::from(ErrorKind::PermissionDenied));
    }
    if kind != Kind::NoJournal && access == Access::Write {
        write_end_again(&file, found.len())?;
    }
    sync_folder(files, name, access)?;
    Ok(file)
}

/// Locks a new file likewise, and syncs it and the folder of its name, so that the file is on the
/// disk before it is written. The name has to be that of the file itself, and no link to it.
pub fn hold_new<R: Files>(
    files: &R,
    file: R::File,
    name: &str,
    access: Access,
) -> io::Result<R::File>
where
    R::File: Held,
{
    let file = lock(file, access)?;
    if !is_plain(&fs::symlink_metadata(files, name)?, &file.metadata()?) {
        return Err(io::Error::from(ErrorKind::NotFound));
    }
    allowed(file.sync_all(), access)?;
    sync_folder(files, name, access)?;
    Ok(file)
}

/// Opens the tile file of this name to write it, and locks it likewise, or makes an empty one where
/// there is none, as a new journal's. A link isn't followed: it is refused, and no file is made
/// where it leads; and so is a file that has another name, which may be a file of another kind. One
/// that is there is synced. It isn't written again, and its folder isn't synced, which is that of
/// its journal.
pub fn hold_tiles<R: Files>(files: &R, name: &str) -> io::Result<R::File>
where
    R::File: Held,
{
    match find_tiles(files, name, Access::Write)? {
        Some(file) => Ok(file),
        None => hold_new(files, create_empty(files, name)?, name, Access::Write),
    }
}

/// Opens the tile file of this name to read it, and locks it likewise, or makes an empty one.
/// Another reader may make it in the meantime. Where none is there, and the folder can't be
/// written, it is missing.
pub fn share_tiles<R: Files>(files: &R, name: &str) -> io::Result<Opened<R::File>>
where
    R::File: Held,
{
    if let Some(file) = find_tiles(files, name, Access::Read)? {
        return Ok(Opened::ToRead(file));
    }
    match create_empty(files, name) {
        Ok(file) => Ok(Opened::ToRead(hold_new(files, file, name, Access::Read)?)),
        Err(why) if is_unwritable(&why) => Ok(Opened::Missing),
        Err(why) if why.kind() == ErrorKind::AlreadyExists => {
            match find_tiles(files, name, Access::Read)? {
                Some(file) => Ok(Opened::ToRead(file)),
                None => Err(why),
            }
        }
        Err(why) => Err(why),
    }
}

// Opens the tile file of this name and locks it, if there is one.
fn find_tiles<R: Files>(files: &R, name: &str, access: Access) -> io::Result<Option<R::File>>
where
    R::File: Held,
{
    match fs::symlink_metadata(files, name) {
        Ok(found) if found.is_symlink() => Err(io::Error::from(ErrorKind::AlreadyExists)),
        Ok(_) => {
            let file = open_plain(files, name, access)?;
            Ok(Some(hold_old_tiles(files, file, name, access)?))
        }
        Err(why) if why.kind() == ErrorKind::NotFound => Ok(None),
        Err(why) => Err(why),
    }
}

// Locks a tile file that was there. It must not begin as a journal: no tile is ever written over
// one. The lock is tried after that test, so that a journal that another process holds is reported
// as a journal; and the test is made again under the lock.
fn hold_old_tiles<R: Files>(
    files: &R,
    file: R::File,
    name: &str,
    access: Access,
) -> io::Result<R::File>
where
    R::File: Held,
{
    refuse_journal(&file, file.metadata()?.len())?;
    let file = lock(file, access)?;
    let found = file.metadata()?;
    if !is_plain(&fs::symlink_metadata(files, name)?, &found) {
        return Err(io::Error::from(ErrorKind::NotFound));
    }
    if found.nlink() != 1 {
        return Err(io::Error::from(ErrorKind::AlreadyExists));
    }
    allowed(file.sync_all(), access)?;
    refuse_journal(&file, found.len())?;
    Ok(file)
}

// Whether the system takes the name of the tile file of a journal of this name: the only question
// is whether it is too long.
fn allow_tiles<R: Files>(files: &R, name: &str) -> io::Result<()> {
    let mut tiles = ArrayString::<LONGEST_PATH>::new();
    let fits = tiles.try_push_str(name).is_ok() && tiles.try_push_str(".tiles").is_ok();
    if !fits {
        return Err(io::Error::from(ErrorKind::InvalidFilename));
    }
    match fs::symlink_metadata(files, tiles.as_str()) {
        Err(why) if why.kind() == ErrorKind::InvalidFilename => Err(why),
        _ => Ok(()),
    }
}

// Makes an empty file that its owner alone may read and write, and opens it for both. A name that
// has a file, or a link, is refused.
fn create_empty<R: Files>(files: &R, name: &str) -> io::Result<R::File> {
    File::options()
        .read(true)
        .write(true)
        .create_new(true)
        .mode(OWNER_ALONE)
        .open(files, name)
}

// Whether a file can't be made since its folder can't be written.
fn is_unwritable(why: &io::Error) -> bool {
    matches!(
        why.kind(),
        ErrorKind::ReadOnlyFilesystem | ErrorKind::PermissionDenied
    )
}

// Locks an open file without waiting: for this process alone where it may be written, and for all
// that read it where it is only read. A standard stream that was closed at the start leaves its
// descriptor to the file that is opened next: what is meant for the stream must not land in that
// file.
fn lock<F: Held + Drop>(file: F, access: Access) -> io::Result<F> {
    let file = if file.descriptor() <= LAST_STREAM {
        file.try_clone()?
    } else {
        file
    };
    match access {
        Access::Read => file.try_share()?,
        Access::Write => file.try_hold()?,
    }
    Ok(file)
}

// Whether what a name leads to is this open file, and no folder, pipe or device.
fn is_plain(named: &Metadata, open: &Metadata) -> bool {
    open.is_file() && named.dev() == open.dev() && named.ino() == open.ino()
}

// Whether a mode lets others than the owner do anything with a file.
fn is_open_to_others(found: &Metadata) -> bool {
    found.mode() & OTHERS != 0
}

// The answer to a sync: whoever only reads needs none where the file system has none.
fn allowed(synced: io::Result<()>, access: Access) -> io::Result<()> {
    match access {
        Access::Read => passed(synced),
        Access::Write => synced,
    }
}

// Writes the last bytes of a journal of so many bytes again, as they are read. The system may take
// a page for written although its sync failed, if the command that asked for it was killed: after
// this call the next sync has to write it, or fails.
fn write_end_again(file: &impl FileExt, length: u64) -> io::Result<()> {
    let mut offset = length.saturating_sub(TAIL);
    let mut piece = [0; PIECE];
    for _ in 0..PIECES {
        let size = length.saturating_sub(offset).min(PIECE as u64) as usize;
        file.read_exact_at(&mut piece[..size], offset)?;
        file.write_all_at(&piece[..size], offset)?;
        offset = offset.saturating_add(size as u64);
    }
    Ok(())
}

// Syncs the folder in which the name stands.
fn sync_folder<R: Files>(files: &R, name: &str, access: Access) -> io::Result<()> {
    let folder = match Path::new(name).parent() {
        Some(folder) if folder != Path::new("") => folder,
        _ => Path::new("."),
    };
    allowed(File::open(files, folder)?.sync_all(), access)
}
