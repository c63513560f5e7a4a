//! The devices of a journal and of the tiles beside it, in files of the system: how a program opens
//! what it shares with crashes, with other programs and with itself.

ghost use Rattle.std.specs.Prelude.{◌≡◌, false, IfOk};
ghost use Rattle.disk_core.specs.File.{file_faults, file_clock, is_file_lost};

use crate::access::Access;
use crate::held::Held;
use crate::journal::{create_journal, hold_journal, hold_new, hold_tiles, open_plain, share_tiles};
use crate::opened::Opened;
use crate::written::{Content, Written};
use disk_core::FileDisk;
use std::alloc::Global;
use std::io;
use std::rt::Files;

/// Opens the journal of this name, for this process alone until the device is dropped: the call
/// with which a program opens a log or a cosigner that it keeps in a file.
///
/// In this order: the file is opened to read and to write, and locked without waiting; its name has
/// to lead to the file that was locked, and that has to be a plain one; the file is synced; the
/// journal of a cosigner, which has a secret in it, is refused where its mode lets others than its
/// owner do anything; the last bytes, all that the last command may have written, are written again
/// as they are read, so that the next sync carries them to the disk also if that command was killed
/// while a sync failed; and the folder of the name is synced. [`FileDisk::unlocked`] does none of
/// this: two processes that open one cosigner by it sign with the same one-time keys.
///
/// A file that doesn't begin as a journal is neither written nor refused: opening a log or a
/// cosigner on the device refuses it. After a sync of the device that fails, what was written since
/// the last one is removed from the file ([`Written`]), and each later call fails: drop it, and
/// open the journal again.
///
/// Errors are those of the system, in the order of these steps: `NotFound` where there is no such
/// file, or the name no longer leads to the one that was locked; `WouldBlock` where another process
/// has it open; `PermissionDenied` for the journal of a cosigner that is open to others.
pub fn open_journal<R: Files>(files: &R, name: &str) -> io::Result<FileDisk<Opened<R::File>>>
where
    R::File: Held,
    ensures time { IfOk result (λ disk. file_clock disk ≡ 0) }
    ensures begins { IfOk result (λ disk. file_faults disk ≡ 0) }
    ensures whole { IfOk result (λ disk. is_file_lost disk ≡ false) }
{
    let file = open_plain(files, name, Access::Write)?;
    let held = hold_journal(files, file, name, Access::Write)?;
    Ok(FileDisk::unlocked(Opened::ToWrite(Written::new(held, Content::Journal)?)))
}

/// Opens the journal of this name to read it alone, with all that read it, until the device is
/// dropped: by the steps and with the errors of [`open_journal`], but that the file is opened to be
/// read, if it is a plain one, its lock is shared, and nothing is written. So a journal on a file
/// system that may only be read is opened too, and one that this user may only read. A sync passes
/// where the file system has none, and a write fails and reaches no file. `WouldBlock` comes where
/// a process may write the journal and has it open.
pub fn open_journal_to_read<R: Files>(
    files: &R,
    name: &str,
) -> io::Result<FileDisk<Opened<R::File>>>
where
    R::File: Held,
    ensures time { IfOk result (λ disk. file_clock disk ≡ 0) }
    ensures begins { IfOk result (λ disk. file_faults disk ≡ 0) }
    ensures whole { IfOk result (λ disk. is_file_lost disk ≡ false) }
{
    let file = open_plain(files, name, Access::Read)?;
    let held = hold_journal(files, file, name, Access::Read)?;
    Ok(FileDisk::unlocked(Opened::ToRead(held)))
}

/// Makes the empty file of a new journal, that its owner alone may read and write (mode 0600), and
/// opens it for this process alone until the device is dropped. It is locked, and it and the folder
/// of its name are synced, before anything is written. A log or a cosigner is begun on the device.
///
/// Errors are those of the system: `InvalidFilename` where the name, or that of its tile file,
/// which has `.tiles` at its end, is too long for the system; `AlreadyExists` where the name has a
/// file or a link; `NotFound` where its folder isn't there, or where the name no longer leads to
/// the new file; `PermissionDenied` where the file system lets others than its owner do anything
/// with the new file, whatever mode was asked for; `WouldBlock` where another process has locked it
/// since. A file that was made stays where a later step fails: its name may lead to another
/// program's by now.
pub fn new_journal<R: Files>(files: &R, name: &str) -> io::Result<FileDisk<Opened<R::File>>>
where
    R::File: Held,
    ensures time { IfOk result (λ disk. file_clock disk ≡ 0) }
    ensures begins { IfOk result (λ disk. file_faults disk ≡ 0) }
    ensures whole { IfOk result (λ disk. is_file_lost disk ≡ false) }
{
    let file = create_journal(files, name)?;
    let held = hold_new(files, file, name, Access::Write)?;
    Ok(FileDisk::unlocked(Opened::ToWrite(Written::new(held, Content::Journal)?)))
}

/// Opens the tile file beside the journal of a log, for this process alone until the device is
/// dropped, or makes an empty one where there is none. Its name is that of the journal, with
/// `.tiles` at its end. A program opens the journal first, and its tiles while it holds that: then
/// no other process has either.
///
/// A new file is made, locked and synced as a new journal's is, with its folder. One that is there
/// is locked and synced, and isn't written: the log takes from it what its records rely on, after
/// it has read and compared it. After a sync of the device that fails, the file is cut off behind
/// the tiles that are on the disk.
///
/// Errors are those of the system: `OutOfMemory` where there is no memory for the name;
/// `AlreadyExists` where the name has a link, which isn't followed, the file has another name, or
/// another process has made the file since; `InvalidData` where the file begins as a journal: no
/// tile is written over one; `WouldBlock` where another process has it open; `NotFound` where its
/// folder isn't there, or the name no longer leads to the file that was locked.
pub fn open_tiles<R: Files>(
    alloc: Global,
    files: &R,
    journal: &str,
) -> io::Result<FileDisk<Opened<R::File>>>
where
    R::File: Held,
    ensures time { IfOk result (λ disk. file_clock disk ≡ 0) }
    ensures begins { IfOk result (λ disk. file_faults disk ≡ 0) }
    ensures whole { IfOk result (λ disk. is_file_lost disk ≡ false) }
{
    let name = format!(in alloc; "{journal}.tiles")?;
    let held = hold_tiles(files, name.as_str())?;
    Ok(FileDisk::unlocked(Opened::ToWrite(Written::new(held, Content::Tiles)?)))
}

/// Opens the tile file beside the journal of a log to read it alone, as [`open_journal_to_read`]
/// opens the journal, or makes an empty one where there is none. Where none is there and the folder
/// can't be written, the device reads as an empty file. Errors are those of [`open_tiles`], but
/// that another reader may make the file.
pub fn open_tiles_to_read<R: Files>(
    alloc: Global,
    files: &R,
    journal: &str,
) -> io::Result<FileDisk<Opened<R::File>>>
where
    R::File: Held,
    ensures time { IfOk result (λ disk. file_clock disk ≡ 0) }
    ensures begins { IfOk result (λ disk. file_faults disk ≡ 0) }
    ensures whole { IfOk result (λ disk. is_file_lost disk ≡ false) }
{
    let name = format!(in alloc; "{journal}.tiles")?;
    Ok(FileDisk::unlocked(share_tiles(files, name.as_str())?))
}
