//! Files that the file system of real files refuses, though they can be opened.

use crate::system::{fresh_refusal, journal_refusal, scratch_refusal, tiles_refusal};
use journal_core::HEADER;
use mtc_files::{Access, open_tiles};
use mtc_room::RoomError;
use std::alloc::{AllocError, Global};
use std::fs::{self, File, Permissions};
use std::io;
use std::os::unix::fs::{MetadataExt, PermissionsExt};
use std::rt::Files;
use std::test::Fail;

const FAILED: Option<RoomError> = Some(RoomError::Failed);

const FOLDER: &str = "mtc_files_others";

// The first bytes of a log's journal, and of a cosigner's.
fn begins(alloc: Global, tag: u8) -> Result<Vec<u8>, AllocError> {
    let mut bytes = Vec::from_slice(alloc, &HEADER)?;
    bytes.extend_from_slice(&[1, 0, 0, 0, 19, tag, 7])?;
    Ok(bytes)
}

// A file that its owner alone may use.
fn put<R: Files<File = File>>(files: &R, name: &str, bytes: &[u8]) -> io::Result<()> {
    fs::write(files, name, bytes)?;
    fs::set_permissions(files, name, Permissions::from_mode(0o600))
}

fn put_begun<R: Files<File = File>>(
    files: &R,
    alloc: Global,
    name: &str,
    tag: u8,
) -> io::Result<()> {
    let bytes = begins(alloc, tag)?;
    put(files, name, bytes.as_slice())
}

fn put_journals<R: Files<File = File>>(files: &R, alloc: Global) -> io::Result<()> {
    put_begun(files, alloc, "mtc_files_others/log", 0x01)?;
    put_begun(files, alloc, "mtc_files_others/cosigner", 0x11)?;
    put(files, "mtc_files_others/begun", &HEADER)?;
    put(files, "mtc_files_others/tiles", &[7; 8192])
}

fn put_links<R: Files<File = File>>(files: &R) -> io::Result<()> {
    fs::hard_link(
        files,
        "mtc_files_others/cosigner",
        "mtc_files_others/hard.tiles",
    )?;
    put(files, "mtc_files_others/named", &[7; 8192])?;
    fs::hard_link(
        files,
        "mtc_files_others/named",
        "mtc_files_others/twice.tiles",
    )?;
    files.symlink("cosigner", "mtc_files_others/soft.tiles")?;
    files.symlink("tiles", "mtc_files_others/tiled.tiles")?;
    files.symlink("nowhere", "mtc_files_others/dangling.tiles")
}

// A folder with journals, and files of tiles that are others' by a link of either kind.
fn make<R: Files<File = File> + Alloc>(files: &R, alloc: Global) -> io::Result<()> {
    let _ = fs::remove_dir_all(files, FOLDER);
    fs::create_dir(files, FOLDER)?;
    put_journals(files, alloc)?;
    put_links(files)
}

// What is answered to each of these names that is asked for as a file of tiles.
const TILES: &str = "\
mtc_files_others/log refused
mtc_files_others/cosigner refused
mtc_files_others/begun refused
mtc_files_others/hard.tiles refused
mtc_files_others/twice.tiles refused
mtc_files_others/soft.tiles refused
mtc_files_others/tiled.tiles refused
mtc_files_others/dangling.tiles refused
mtc_files_others/tiles opened
mtc_files_others/new.tiles opened
";

// Whether it answers as a line says.
fn is_answered<R: Files<File = File>>(files: &R, line: &str) -> bool {
    match line.split_once(' ') {
        Some((name, "refused")) => scratch_refusal(files, name) == FAILED,
        Some((name, "opened")) => scratch_refusal(files, name) == None,
        _ => false,
    }
}

// No tile is written over a journal, and no link is followed to one.
#[test]
fn tiles_are_never_written_over_a_journal(rt: HostRuntime) -> Result<(), Fail> {
    make(&rt, rt.alloc())?;
    for line in TILES.lines() {
        assert!(rt; is_answered(&rt, line), "{line}");
    }
    assert!(rt; !fs::exists(&rt, "mtc_files_others/nowhere")?);
    fs::remove_dir_all(&rt, FOLDER)?;
    Ok(())
}

// The same by the names of journals, of which each has its file of tiles beside it.
const BESIDE: &str = "\
mtc_files_others/hard refused
mtc_files_others/twice refused
mtc_files_others/soft refused
mtc_files_others/tiled refused
mtc_files_others/dangling refused
mtc_files_others/nofolder/log refused
mtc_files_others/log opened
mtc_files_others/cosigner opened
";

// Whether it answers as a line says for a journal's name.
fn is_answered_beside<R: Files<File = File>>(files: &R, alloc: Global, line: &str) -> bool {
    match line.split_once(' ') {
        Some((name, "refused")) => tiles_refusal(alloc, files, name) == FAILED,
        Some((name, "opened")) => tiles_refusal(alloc, files, name) == None,
        _ => false,
    }
}

// The file of tiles is made beside its journal, for one device at a time.
#[test]
fn tiles_stand_beside_their_journal(rt: HostRuntime) -> Result<(), Fail> {
    make(&rt, rt.alloc())?;
    for line in BESIDE.lines() {
        assert!(rt; is_answered_beside(&rt, rt.alloc(), line), "{line}");
    }
    let held = open_tiles(rt.alloc(), &rt, "mtc_files_others/log")?;
    assert!(rt; tiles_refusal(rt.alloc(), &rt, "mtc_files_others/log") == FAILED);
    drop(held);
    assert!(rt; tiles_refusal(rt.alloc(), &rt, "mtc_files_others/log") == None);
    assert!(rt; fs::metadata(&rt, "mtc_files_others/log.tiles")?.mode() & 0o777 == 0o600);
    fs::remove_dir_all(&rt, FOLDER)?;
    Ok(())
}

// Whether the file system refuses a journal with this mode.
fn is_refused<R: Files<File = File>>(
    files: &R,
    name: &str,
    mode: u32,
    access: Access,
) -> io::Result<bool> {
    fs::set_permissions(files, name, Permissions::from_mode(mode))?;
    Ok(journal_refusal(files, name, access) == FAILED)
}

// Whether it refuses each of the four with this mode.
fn are_refused<R: Files<File = File>>(
    files: &R,
    mode: u32,
    access: Access,
) -> io::Result<[bool; 4]> {
    Ok([
        is_refused(files, "mtc_files_modes/cosigner", mode, access)?,
        is_refused(
            files,
            "mtc_files_modes/cosigner-of-two-levels",
            mode,
            access,
        )?,
        is_refused(files, "mtc_files_modes/log", mode, access)?,
        is_refused(files, "mtc_files_modes/other", mode, access)?,
    ])
}

// The journals of cosigners and of a log, and another file.
fn make_four<R: Files<File = File> + Alloc>(
    files: &R,
    alloc: Global,
    folder: &str,
) -> io::Result<()> {
    let _ = fs::remove_dir_all(files, folder);
    fs::create_dir(files, folder)?;
    put_begun(files, alloc, "mtc_files_modes/cosigner", 0x11)?;
    put_begun(files, alloc, "mtc_files_modes/cosigner-of-two-levels", 0x15)?;
    put_begun(files, alloc, "mtc_files_modes/log", 0x01)?;
    put(
        files,
        "mtc_files_modes/other",
        b"mtc-journal/v0\n\0.....\x11",
    )
}

// The journal of a cosigner is refused where others may do anything with it; no other file is.
#[test]
fn a_cosigners_journal_is_its_owners_alone(rt: HostRuntime) -> Result<(), Fail> {
    let folder = "mtc_files_modes";
    make_four(&rt, rt.alloc(), folder)?;
    let modes = [
        0o600, 0o700, 0o640, 0o620, 0o610, 0o604, 0o602, 0o601, 0o666,
    ];
    for mode in modes {
        let is_open = mode & 0o77 != 0;
        let refused = [is_open, is_open, false, false];
        assert!(rt;
            are_refused(&rt, mode, Access::Write)? == refused,
            "{mode} to write"
        );
        assert!(rt;
            are_refused(&rt, mode, Access::Read)? == refused,
            "{mode} to read"
        );
    }
    // Its owner may read it, and so may others.
    assert!(rt; are_refused(&rt, 0o400, Access::Read)? == [false; 4]);
    assert!(rt; are_refused(&rt, 0o440, Access::Read)? == [true, true, false, false]);
    fs::remove_dir_all(&rt, folder)?;
    Ok(())
}

fn put_letters(name: &mut String, length: usize) -> Result<(), AllocError> {
    for _ in 0..length {
        name.push('n')?;
    }
    Ok(())
}

// A name of so many bytes.
fn long_name(alloc: Global, length: usize) -> Result<String, AllocError> {
    let mut name = String::new(alloc);
    put_letters(&mut name, length)?;
    Ok(name)
}

// A new journal's name is short enough that `.tiles` can follow it. One that has a file is reported
// as such.
#[test]
fn a_new_name_leaves_space_for_its_tiles(rt: HostRuntime) -> Result<(), Fail> {
    for (length, wanted) in [(249, None), (250, FAILED), (255, FAILED), (256, FAILED)] {
        let name = long_name(rt.alloc(), length)?;
        let _ = fs::remove_file(&rt, &name);
        assert!(rt; fresh_refusal(&rt, &name) == wanted, "{length}");
        assert!(rt; fs::exists(&rt, &name).is_ok_and(|is_there| is_there) == (length < 250));
        let _ = fs::remove_file(&rt, &name);
    }
    let name = long_name(rt.alloc(), 250)?;
    fs::write(&rt, &name, b"")?;
    assert!(rt; fresh_refusal(&rt, &name) == Some(RoomError::Exists));
    fs::remove_file(&rt, &name)?;
    Ok(())
}
