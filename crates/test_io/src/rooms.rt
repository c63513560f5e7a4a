//! File systems in memory.

ghost use Rattle.std.specs.Prelude.{◌≡◌, IfOk};
ghost use Rattle.mtc_room.specs.Memory.{state};

use disk_core::{Disk, MemDisk};
use mtc_io::{Bytes, Failed, MemSource, Memory, ReadError, read_all};
use mtc_room::{MemRoom, Room, RoomError};
use std::alloc::Global;
use std::test::Fail;

// Places a file of which these calls fail, and opens nothing.
fn place(
    alloc: Global,
    room: &mut MemRoom,
    name: &str,
    bytes: &[u8],
    failing: &[u64],
) -> Result<(), Memory>
    ensures { (state room.new).opened ≡ (state room.old).opened }
{
    let bytes = Bytes::copy_of(alloc, bytes)?;
    room.place(name, bytes, Vec::from_slice(alloc, failing)?)
}

// Places two files; the first is placed twice, and reading the second fails.
fn place_all(alloc: Global, room: &mut MemRoom) -> Result<(), Memory>
    ensures { (state room.new).opened ≡ (state room.old).opened }
{
    place(alloc, room, "f", b"one", &[])?;
    place(alloc, room, "f", b"two", &[])?;
    place(alloc, room, "bad", b"three", &[0])
}

// The file system with these files. None of them is open.
fn room(alloc: Global) -> Result<MemRoom, Memory>
    ensures { IfOk result (λ room. (state room).opened ≡ 0) }
{
    let mut room = MemRoom::new(alloc);
    place_all(alloc, &mut room)?;
    Ok(room)
}

fn holds(room: &MemRoom, name: &str, bytes: &[u8]) -> bool {
    room.bytes(name) == Some(bytes)
}

// What a file system answers to one that reads a file of three bytes.
#[derive(Clone, Copy, Debug, PartialEq, Eq)]
enum Opened {
    Refused(RoomError),
    NotRead(ReadError),
    Read([u8; 3]),
    Other,
}

fn read(alloc: Global, source: &mut MemSource) -> Result<Bytes, ReadError> {
    read_all(alloc, source, 3)
}

fn found(read: Result<Bytes, ReadError>) -> Opened {
    match read {
        Ok(bytes) => match bytes.as_slice() {
            [a, b, c] => Opened::Read([*a, *b, *c]),
            _ => Opened::Other,
        },
        Err(why) => Opened::NotRead(why),
    }
}

fn open_file(alloc: Global, name: &str) -> Result<Opened, Memory> {
    let mut room = room(alloc)?;
    let mut source = match room.source(name) {
        Ok(source) => source,
        Err(why) => return Ok(Opened::Refused(why)),
    };
    let bytes = read(alloc, &mut source);
    room.done(source);
    let found = found(bytes);
    Ok(if room.failed_allocations() == 0 {
        found
    } else {
        Opened::Other
    })
}

#[test]
fn a_room_opens_what_was_placed(rt: HostRuntime) -> Result<(), Fail> {
    let placed = room(rt.alloc())?;
    assert!(rt; holds(&placed, "f", b"two"));
    assert!(rt; placed.bytes("g") == None && placed.failed_allocations() == 0);
    let cases: [(&str, Opened); 3] = [
        ("f", Opened::Read(*b"two")),
        ("bad", Opened::NotRead(ReadError::Failed)),
        ("g", Opened::Refused(RoomError::Absent)),
    ];
    for (name, wanted) in cases {
        assert!(rt; open_file(rt.alloc(), name)? == wanted, "file {name}");
    }
    Ok(())
}

fn takes_three(disk: &mut MemDisk) -> bool {
    disk.len() == Ok(0) && disk.write_at(0, b"abc") == Ok(())
}

fn fails_to_sync(disk: &mut MemDisk) -> bool {
    disk.sync() == Err(Failed) && disk.faults() == 1
}

// Why no file of that name is made, by a file system of which nothing else is open.
fn fresh_refusal(room: &mut MemRoom, name: &str) -> Option<RoomError>
    requires { (state room.old).opened ≡ 1 }
    ensures { (state room.new).opened ≡ 1 }
{
    match room.fresh(name) {
        Ok(disk) => {
            room.keep(name, disk);
            None
        }
        Err(why) => Some(why),
    }
}

// Whether a file is made that takes three bytes while its device is open, and no second one of its
// name.
fn makes(room: &mut MemRoom) -> bool
    requires { (state room.old).opened ≡ 0 }
    ensures { (state room.new).opened ≡ 0 }
{
    let Ok(mut disk) = room.fresh("j") else {
        return false;
    };
    let again = fresh_refusal(room, "j");
    let written = takes_three(&mut disk) && holds(room, "j", b"");
    room.keep("j", disk);
    again == Some(RoomError::Exists) && written && holds(room, "j", b"abc")
}

// Whether the calls are counted over all openings: the third one fails.
fn fails_later(room: &mut MemRoom) -> bool
    requires { (state room.old).opened ≡ 0 }
    ensures { (state room.new).opened ≡ 0 }
{
    let Ok(mut disk) = room.disk("j") else {
        return false;
    };
    let failed = fails_to_sync(&mut disk);
    room.keep("j", disk);
    failed
}

// Why a file isn't opened.
fn disk_refusal(room: &mut MemRoom, name: &str) -> Option<RoomError>
    requires { (state room.old).opened ≡ 0 }
{
    match room.disk(name) {
        Ok(disk) => {
            room.keep(name, disk);
            None
        }
        Err(why) => Some(why),
    }
}

fn puts_back(alloc: Global, failing: Vec<u64>) -> bool {
    let mut room = MemRoom::new(alloc);
    room.fail_fresh(failing);
    makes(&mut room)
        && fails_later(&mut room)
        && disk_refusal(&mut room, "k") == Some(RoomError::Absent)
}

#[test]
fn a_room_takes_devices_back(rt: HostRuntime) -> Result<(), Fail> {
    assert!(rt; puts_back(rt.alloc(), Vec::from_slice(rt.alloc(), &[2])?));
    Ok(())
}

// Whether a file that isn't there is made, and takes three bytes.
fn makes_what_it_has_not(room: &mut MemRoom) -> bool
    requires { (state room.old).opened ≡ 0 }
    ensures { (state room.new).opened ≡ 0 }
{
    let Ok(mut disk) = room.scratch("t") else {
        return false;
    };
    let written = holds(room, "t", b"") && takes_three(&mut disk);
    room.keep("t", disk);
    written
}

// Whether it has them when it is opened a second time.
fn opens_what_it_made(room: &mut MemRoom) -> bool
    requires { (state room.old).opened ≡ 0 }
{
    let Ok(mut disk) = room.scratch("t") else {
        return false;
    };
    let length = disk.len();
    room.keep("t", disk);
    length == Ok(3) && holds(room, "t", b"abc")
}

#[test]
fn a_room_makes_what_it_has_not(rt: HostRuntime) {
    let mut room = MemRoom::new(rt.alloc());
    assert!(rt; makes_what_it_has_not(&mut room));
    assert!(rt; opens_what_it_made(&mut room));
}
