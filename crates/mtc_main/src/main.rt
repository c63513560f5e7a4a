//! The program `mtc`: a certification authority, its cosigners and its relying party for Merkle
//! Tree Certificates. All that it does is done by [`mtc_top::run`], over the system's files and the
//! standard streams.
//!
//! No clause says that `main` passes on all arguments and writes the line: that is tested alone.
//! What it calls, `act`, does what `run` does, with SHA-256 and the system's files, and answers its
//! status.
#![tactic(auto)]

ghost use Rattle.std.specs.Prelude.{◌≡◌, true, map, string_bytes};
ghost use Rattle.std.specs.Process.{exit_status};
ghost use Rattle.mtc_words.specs.Words.{command_of};
ghost use Rattle.mtc_access.specs.Asking.{words_ask_only};
ghost use Rattle.mtc_files.specs.Access.{room_access};
ghost use Rattle.mtc_top.specs.Run.{HasRun};

use disk_core::{Disk, FileDisk};
use mtc_access::words_only_ask;
use mtc_files::{Access, FileRoom, LineSink, Opened};
use mtc_io::{Sink, StdSink, write_all};
use mtc_top::{Room, run};
use std::alloc::Global;
use std::env::Env;
use std::fs::File;
use std::io::{Stderr, Stdout};
use std::process::ExitCode;
use std::rt::Files;
use std::{env, io};
use tree_core::{Sha, TreeHash};

const BAD_WORDS: u8 = 1;

const NO_MEMORY: u8 = 8;

// Collects the arguments after the program's name.
fn words_after_name(rt: &(impl Env + AllocGlobal)) -> io::Result<Vec<String>> {
    let mut words = Vec::new(rt.alloc());
    for word in env::args(rt)?.skip(1) {
        words.push(word)?;
    }
    Ok(words)
}

// Says that the arguments can't be had, and answers the status.
fn refuse(err: &mut impl Sink, why: &io::Error) -> u8 {
    if why.kind() == io::ErrorKind::OutOfMemory {
        let _ = write_all(err, b"mtc: Memory\n");
        NO_MEMORY
    } else {
        let _ = write_all(err, b"mtc: NotUtf8\n");
        BAD_WORDS
    }
}

// How the journals of a command are opened: to be read alone if it only asks. Where memory is
// refused they are opened as those of a command that may write them.
fn access_of(alloc: Global, words: &[String]) -> Access
    ensures { result ≡ Access.Read
        → words_ask_only (command_of (map string_bytes words.now)) ≡ true }
{
    match words_only_ask(alloc, words) {
        Ok(true) => Access::Read,
        _ => Access::Write,
    }
}

// Does what the arguments say with SHA-256, over the system's files and the standard streams. The
// files of a command that may write its journals aren't opened to be read alone.
fn act<'a, R: Files<File = File>>(
    alloc: Global,
    words: &[String],
    room: &mut FileRoom<'a, R>,
    out: &mut StdSink<Stdout>,
    err: &mut LineSink<Stderr>,
) -> ExitCode
    requires opened { ⟦<FileRoom<'a, R> as Room>⟧.opened room.old ≡ 0 }
    requires access { room_access room.old ≡ Access.Read
        → words_ask_only (command_of (map string_bytes words.now)) ≡ true }
    ensures { HasRun ⟦<Sha as TreeHash>⟧.hash ⟦<FileRoom<'a, R> as Room>⟧
        ⟦<FileDisk<Opened<File>> as Disk>⟧ ⟦<StdSink<Stdout> as Sink>⟧ ⟦<LineSink<Stderr> as Sink>⟧
        (map string_bytes words.now) room.old room.new out.old out.new err.old err.new
        (exit_status result) }
{
    ExitCode::from(run::<Sha, _, _, _>(alloc, words, room, out, err))
}

fn main(rt: HostRuntime) -> ExitCode {
    let mut err = LineSink::new(rt.stderr());
    let code = match words_after_name(&rt) {
        Ok(words) => {
            let access = access_of(rt.alloc(), &words);
            let mut room = FileRoom::new(&rt, access);
            let mut out = StdSink::new(rt.stdout());
            act(rt.alloc(), &words, &mut room, &mut out, &mut err)
        }
        Err(why) => ExitCode::from(refuse(&mut err, &why)),
    };
    let _ = err.finish();
    code
}
