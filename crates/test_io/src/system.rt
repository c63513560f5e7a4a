//! The file system of real files.

use disk_core::{Disk, FileDisk};
use mtc_files::{
    Access, FileRoom, Held, Opened, new_journal, open_journal, open_journal_to_read, open_tiles,
};
use mtc_io::{Bytes, Failed, ReadError, Source, read_all};
use mtc_room::{Cause, Room, RoomError};
use std::alloc::Global;
use std::fs::{self, File, TryLockError};
use std::io;
use std::os::unix::fs::MetadataExt;
use std::rt::Files;
use std::test::Fail;

// Why a file system doesn't open an input file of that name; none if it does.
fn source_refusal<R: Files>(files: &R, name: &str) -> Option<RoomError>
where
    R::File: Held,
{
    let mut room = FileRoom::new(files, Access::Write);
    match room.source(name) {
        Ok(source) => {
            room.done(source);
            None
        }
        Err(why) => Some(why),
    }
}

// The same of a journal.
pub fn disk_refusal<R: Files>(files: &R, name: &str) -> Option<RoomError>
where
    R::File: Held,
{
    journal_refusal(files, name, Access::Write)
}

// The same of a journal that is opened so.
pub fn journal_refusal<R: Files>(files: &R, name: &str, access: Access) -> Option<RoomError>
where
    R::File: Held,
{
    let mut room = FileRoom::new(files, access);
    match room.disk(name) {
        Ok(disk) => {
            room.keep(name, disk);
            None
        }
        Err(why) => Some(why),
    }
}

// The same of a new journal.
pub fn fresh_refusal<R: Files>(files: &R, name: &str) -> Option<RoomError>
where
    R::File: Held,
{
    let mut room = FileRoom::new(files, Access::Write);
    match room.fresh(name) {
        Ok(disk) => {
            room.keep(name, disk);
            None
        }
        Err(why) => Some(why),
    }
}

// The same of a tile file, which only fails.
pub fn scratch_refusal<R: Files>(files: &R, name: &str) -> Option<RoomError>
where
    R::File: Held,
{
    beside_refusal(files, name, Access::Write)
}

// The same of a tile file that is opened so.
pub fn beside_refusal<R: Files>(files: &R, name: &str, access: Access) -> Option<RoomError>
where
    R::File: Held,
{
    let mut room = FileRoom::new(files, access);
    match room.scratch(name) {
        Ok(disk) => {
            room.keep(name, disk);
            None
        }
        Err(Failed) => Some(RoomError::Failed),
    }
}

// The same of the device alone of a journal, whatever the system says of it.
pub fn device_refusal<R: Files>(files: &R, name: &str) -> Option<RoomError>
where
    R::File: Held,
{
    match open_journal(files, name) {
        Ok(_device) => None,
        Err(_) => Some(RoomError::Failed),
    }
}

// The same of the device alone of a journal that is only read.
pub fn read_refusal<R: Files>(files: &R, name: &str) -> Option<RoomError>
where
    R::File: Held,
{
    match open_journal_to_read(files, name) {
        Ok(_device) => None,
        Err(_) => Some(RoomError::Failed),
    }
}

// The same of the device of a new journal.
pub fn new_refusal<R: Files>(files: &R, name: &str) -> Option<RoomError>
where
    R::File: Held,
{
    match new_journal(files, name) {
        Ok(_device) => None,
        Err(_) => Some(RoomError::Failed),
    }
}

// The same of the file of tiles beside a journal.
pub fn tiles_refusal<R: Files>(alloc: Global, files: &R, journal: &str) -> Option<RoomError>
where
    R::File: Held,
{
    match open_tiles(alloc, files, journal) {
        Ok(_device) => None,
        Err(_) => Some(RoomError::Failed),
    }
}

// What each of these calls answers for a name.
fn refusals<R: Files<File = File>>(files: &R, name: &str) -> [Option<RoomError>; 3] {
    [
        source_refusal(files, name),
        disk_refusal(files, name),
        fresh_refusal(files, name),
    ]
}

fn read<S: Source>(alloc: Global, source: &mut S) -> Result<Bytes, ReadError> {
    read_all(alloc, source, 5)
}

// What a file system gives of an input file of five bytes at most.
fn opened_bytes<R: Files<File = File>>(files: &R, alloc: Global, name: &str) -> Option<Bytes> {
    let mut room = FileRoom::new(files, Access::Write);
    let mut source = room.source(name).ok()?;
    let bytes = read(alloc, &mut source);
    room.done(source);
    bytes.ok()
}

// Whether these are the bytes.
fn is_opened<R: Files<File = File>>(files: &R, alloc: Global, name: &str, wanted: &[u8]) -> bool {
    match opened_bytes(files, alloc, name) {
        Some(bytes) => bytes.as_slice() == wanted,
        None => false,
    }
}

#[test]
fn opens_the_files_of_the_system(rt: HostRuntime) -> Result<(), Fail> {
    let name = "mtc_file_room_test";
    fs::write(&rt, name, b"entry")?;
    assert!(rt; is_opened(&rt, rt.alloc(), name, b"entry"));
    fs::remove_file(&rt, name)?;
    assert!(rt; source_refusal(&rt, name) == Some(RoomError::Absent));
    Ok(())
}

// Whether an empty file takes five bytes.
fn is_filled(disk: &mut FileDisk<Opened<File>>) -> bool {
    disk.len() == Ok(0) && disk.write_at(0, b"entry") == Ok(()) && disk.sync() == Ok(())
}

// Whether they are there, and it takes two more.
fn is_filled_up(disk: &mut FileDisk<Opened<File>>) -> bool {
    disk.len() == Ok(5) && disk.write_at(5, b" 1") == Ok(())
}

// Whether a new file is made that takes bytes, and no second one of that name.
fn makes<R: Files<File = File>>(files: &R, name: &str) -> bool {
    let mut room = FileRoom::new(files, Access::Write);
    let Ok(mut disk) = room.fresh(name) else {
        return false;
    };
    let filled = is_filled(&mut disk);
    room.keep(name, disk);
    filled && fresh_refusal(files, name) == Some(RoomError::Exists)
}

// Whether the file is opened again, and takes more.
fn opens_again<R: Files<File = File>>(files: &R, name: &str) -> bool {
    let mut room = FileRoom::new(files, Access::Write);
    let Ok(mut disk) = room.disk(name) else {
        return false;
    };
    let filled = is_filled_up(&mut disk);
    room.keep(name, disk);
    filled
}

fn holds<R: Files<File = File> + Alloc>(files: &R, name: &str, bytes: &[u8]) -> io::Result<bool> {
    Ok(fs::read(files, name)?.as_slice() == bytes)
}

#[test]
fn makes_files_and_opens_them_again(rt: HostRuntime) -> Result<(), Fail> {
    let name = "mtc_file_room_fresh_test";
    // One may be left of a run that was cut off.
    let _ = fs::remove_file(&rt, name);
    assert!(rt; disk_refusal(&rt, name) == Some(RoomError::Absent));
    assert!(rt; makes(&rt, name));
    assert!(rt; fs::metadata(&rt, name)?.mode() & 0o777 == 0o600);
    assert!(rt; opens_again(&rt, name));
    assert!(rt; holds(&rt, name, b"entry 1")?);
    fs::remove_file(&rt, name)?;
    assert!(rt; disk_refusal(&rt, name) == Some(RoomError::Absent));
    Ok(())
}

// A name, and what is answered of an input file, of a journal and of a new journal. A folder opens
// as a source, and fails where it is read.
const REFUSALS: &str = "\
mtc_file_room_refusals/folder opened failed exists
mtc_file_room_refusals/file opened opened exists
mtc_file_room_refusals/file/below absent absent failed
mtc_file_room_refusals/none/new absent absent failed
";

fn is_word(answer: &Option<RoomError>, word: &str) -> bool {
    match word {
        "opened" => *answer == None,
        "absent" => *answer == Some(RoomError::Absent),
        "exists" => *answer == Some(RoomError::Exists),
        "failed" => *answer == Some(RoomError::Failed),
        _ => false,
    }
}

// Whether three words are these answers.
fn are_words(answers: &[Option<RoomError>; 3], words: &str) -> bool {
    match words.split_once(' ') {
        Some((source, rest)) => match rest.split_once(' ') {
            Some((disk, fresh)) => {
                is_word(&answers[0], source)
                    && is_word(&answers[1], disk)
                    && is_word(&answers[2], fresh)
            }
            None => false,
        },
        None => false,
    }
}

// Whether the calls answer as a line says.
fn is_answered<R: Files<File = File>>(files: &R, line: &str) -> bool {
    match line.split_once(' ') {
        Some((name, words)) => are_words(&refusals(files, name), words),
        None => false,
    }
}

#[test]
fn each_error_of_the_system_has_its_answer(rt: HostRuntime) -> Result<(), Fail> {
    let _ = fs::create_dir(&rt, "mtc_file_room_refusals");
    let _ = fs::create_dir(&rt, "mtc_file_room_refusals/folder");
    let _ = fs::write(&rt, "mtc_file_room_refusals/file", b"");
    for line in REFUSALS.lines() {
        assert!(rt; is_answered(&rt, line), "{line}");
    }
    assert!(rt; !fs::exists(&rt, "mtc_file_room_refusals/none")?);
    fs::remove_dir_all(&rt, "mtc_file_room_refusals")?;
    Ok(())
}

// A file that exists, open to be read and written.
fn open_to_write<R: Files>(files: &R, name: &str) -> io::Result<R::File> {
    File::options().read(true).write(true).open(files, name)
}

// Whether a file system can open the journal of that name.
fn opens<R: Files<File = File>>(files: &R, name: &str) -> bool {
    disk_refusal(files, name).is_none()
}

// Whether no other opening of a new journal succeeds while it is open.
fn is_opened_alone<R: Files<File = File>>(files: &R, name: &str) -> bool {
    let mut room = FileRoom::new(files, Access::Write);
    let Ok(disk) = room.fresh(name) else {
        return false;
    };
    let found = refusals(files, name);
    room.keep(name, disk);
    found == [None, Some(RoomError::Failed), Some(RoomError::Exists)]
}

// Why a file system failed at a journal, and at a file of tiles, if it did.
fn causes<R: Files<File = File>>(files: &R, name: &str) -> [Cause; 2] {
    let mut room = FileRoom::new(files, Access::Write);
    if let Ok(disk) = room.disk(name) {
        room.keep(name, disk);
    }
    let of_journal = room.cause();
    let mut room = FileRoom::new(files, Access::Write);
    if let Ok(disk) = room.scratch(name) {
        room.keep(name, disk);
    }
    [of_journal, room.cause()]
}

// Why a file system failed at a journal that is locked, and then at a folder that it opens and
// can't read: nothing if it doesn't open it.
fn causes_after_lock<R: Files<File = File>>(files: &R, name: &str) -> Option<[Cause; 2]> {
    let mut room = FileRoom::new(files, Access::Write);
    if let Ok(disk) = room.disk(name) {
        room.keep(name, disk);
    }
    let of_journal = room.cause();
    let Ok(mut folder) = room.source(".") else {
        return None;
    };
    let mut byte = [0];
    let _ = folder.read(&mut byte);
    room.done(folder);
    Some([of_journal, room.cause()])
}

// Whether a file isn't opened that another opening has locked, as a journal or for tiles, and that
// is reported; once the lock is gone it is opened.
fn is_refused<R: Files<File = File>>(files: &R, name: &str) -> io::Result<bool> {
    let other = open_to_write(files, name)?;
    let is_reported = other.try_lock().is_ok() && !opens(files, name);
    let locked = causes(files, name) == [Cause::Locked, Cause::Locked]
        && causes_after_lock(files, name) == Some([Cause::Locked, Cause::Failed]);
    drop(other);
    Ok(is_reported && locked && causes(files, name) == [Cause::Failed, Cause::Failed])
}

// Whether another opening can't lock a file.
fn is_locked<R: Files<File = File>>(files: &R, name: &str) -> bool {
    match open_to_write(files, name) {
        Ok(other) => matches!(other.try_lock(), Err(TryLockError::WouldBlock)),
        Err(_) => false,
    }
}

// Whether it can't while the journal is open.
fn is_opened_locked<R: Files<File = File>>(files: &R, name: &str) -> bool {
    let mut room = FileRoom::new(files, Access::Write);
    let Ok(disk) = room.disk(name) else {
        return false;
    };
    let locked = is_locked(files, name);
    room.keep(name, disk);
    locked
}

#[test]
fn a_journal_is_opened_once_at_a_time(rt: HostRuntime) -> Result<(), Fail> {
    let name = "mtc_file_room_lock_test";
    let _ = fs::remove_file(&rt, name);
    assert!(rt; is_opened_alone(&rt, name));
    assert!(rt; opens(&rt, name));
    assert!(rt; is_refused(&rt, name)?);
    assert!(rt; is_opened_locked(&rt, name));
    assert!(rt; opens(&rt, name));
    fs::remove_file(&rt, name)?;
    Ok(())
}

// Whether a journal and a tile file are opened so.
fn are_opened<R: Files<File = File>>(files: &R, name: &str, access: Access) -> [bool; 2] {
    [
        journal_refusal(files, name, access).is_none(),
        beside_refusal(files, name, access).is_none(),
    ]
}

// What can be opened while one is open so: to read, and to write.
fn opened_beside<R: Files<File = File>>(
    files: &R,
    name: &str,
    access: Access,
) -> Option<[[bool; 2]; 2]> {
    let mut room = FileRoom::new(files, access);
    let disk = room.disk(name).ok()?;
    let found = [
        are_opened(files, name, Access::Read),
        are_opened(files, name, Access::Write),
    ];
    room.keep(name, disk);
    Some(found)
}

// What of this a device that is only read does: it is read and synced, and takes no byte.
fn is_only_read<R: Files<File = File>>(files: &R, name: &str) -> bool {
    let mut room = FileRoom::new(files, Access::Read);
    let Ok(mut disk) = room.disk(name) else {
        return false;
    };
    let mut bytes = [0; 5];
    let right = disk.len() == Ok(5)
        && disk.write_at(0, b"other").is_err()
        && disk.read_at(0, &mut bytes) == Ok(())
        && disk.sync() == Ok(());
    room.keep(name, disk);
    right && &bytes == b"entry"
}

#[test]
fn readers_open_a_journal_at_the_same_time(rt: HostRuntime) -> Result<(), Fail> {
    let name = "mtc_file_room_share_test";
    let _ = fs::remove_file(&rt, name);
    assert!(rt; makes(&rt, name));
    let (every, none) = ([true; 2], [false; 2]);
    assert!(rt; opened_beside(&rt, name, Access::Read) == Some([every, none]));
    assert!(rt; opened_beside(&rt, name, Access::Write) == Some([none, none]));
    assert!(rt; is_only_read(&rt, name));
    assert!(rt; holds(&rt, name, b"entry")?);
    fs::remove_file(&rt, name)?;
    Ok(())
}

// Whether a file system that only reads makes no journal, and opens none that isn't there.
fn makes_none<R: Files<File = File>>(files: &R, name: &str) -> bool {
    let mut room = FileRoom::new(files, Access::Read);
    match room.fresh(name) {
        Ok(disk) => {
            room.keep(name, disk);
            false
        }
        Err(why) => {
            why == RoomError::Failed
                && journal_refusal(files, name, Access::Read) == Some(RoomError::Absent)
        }
    }
}

#[test]
fn a_reader_makes_no_journal(rt: HostRuntime) -> Result<(), Fail> {
    let name = "mtc_file_room_none_test";
    let _ = fs::remove_file(&rt, name);
    assert!(rt; makes_none(&rt, name));
    assert!(rt; !fs::exists(&rt, name)?);
    Ok(())
}
