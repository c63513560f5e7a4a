//! A file that is read as a journal.

ghost use Rattle.std.specs.Prelude.{◌≡◌, ◌≢◌, ◌+◌, ◌<◌, ◌≤◌, List, length, take, true, false};
ghost use Rattle.std.specs.Prelude.{MatchBool, MatchOption, Some, None, IfSome, IfOk, IfErr, OnOk};
ghost use Rattle.std.proofs.Props.{props};
ghost use Rattle.byte_formats.specs.Types.{Text};
ghost use Rattle.mtc_io.specs.Counts.{HasCause};
ghost use Rattle.disk_core.specs.Disk.{Only};
ghost use Rattle.disk_core.specs.Times.{OnlyReads};
ghost use Rattle.journal_core.specs.Format.{header, end_offset, IsClosedAt, Represents};
ghost use Rattle.journal_core.specs.Format.{records_before};
ghost use Rattle.journal_core.specs.Opens.{HasReason, IsOfHeader};
ghost use Rattle.journal_core.specs.Windows.{Holds, Holds-prop};
ghost use Rattle.journal_core.specs.Durable.{IsReading, IsReading-prop, IsClosedAt-prop};

use crate::error::{OpenError, Refused, return_rest};
use crate::format::{HEADER, buffer};
use crate::journal::Journal;
use crate::record::{Body, read_record};
use crate::window::Window;
use disk_core::{Disk, make_durable, read_len, read_part};
use mtc_io::{Failed, Memory};
use std::alloc::Global;

/// A file that is read record by record. All of it is on the disk.
#[derive(Drop)]
pub struct Opening<D: Disk> {
    disk: D,
    size: u64,
    place: u64,
    count: u64,
    body: Body,
    ended: bool,
    refused: Option<OpenError>,
    window: Window,
    ghost inside: { body.start + body.size ≤ 131094 },
    ghost held: { (b : Text) → D.Disk.contents disk ≡ Some b
        → Holds window b } by { Prim.hlevel (props, Holds-prop) },
    ghost known: { size ≤ D.Disk.known disk },
    ghost begun: { 16 ≤ place },
    ghost few: { count < place },
    ghost within: { ended ≡ true → place < size },
    ghost exact: { (b : Text) → D.Disk.contents disk ≡ Some b → size ≡ length b },
    ghost reading: { (b : Text) → D.Disk.contents disk ≡ Some b
        → IsReading b (D.Disk.may_leave disk) place } by { Prim.hlevel (props, IsReading-prop) },
    ghost counted: { (b : Text) → D.Disk.contents disk ≡ Some b
        → count ≡ length (records_before b place) },
    ghost closed: { ended ≡ true → (b : Text) → D.Disk.contents disk ≡ Some b
        → IsClosedAt b place } by { Prim.hlevel (props, IsClosedAt-prop) },
}

// The header stands where it is to stand.
fn read_header<D: Disk>(disk: &mut D) -> Result<bool, Failed>
    requires { 16 ≤ D.known disk.old }
    ensures header { IfOk result (λ is. IfSome (D.contents disk.old)
        (λ b. MatchBool is (take 16 b ≡ header) (take 16 b ≢ header))) }
    ensures known { D.known disk.new ≡ D.known disk.old }
    ensures only_reads { OnlyReads D.Disk disk.old disk.new }
    ensures cause { HasCause (D.faults disk.old) (D.faults disk.new) result }
{
    let mut first = [0; 16];
    read_part(disk, 0, &mut first)?;
    Ok(first == HEADER)
}

// The length of a file that begins with the header. All of it is on the disk then.
fn measure<D: Disk>(disk: &mut D) -> Result<Option<u64>, Failed>
    ensures header { IfOk result (λ r. IfSome (D.contents disk.old)
        (λ b. MatchOption r (take 16 b ≢ header) (λ n. (take 16 b ≡ header) × (n ≡ length b)))) }
    ensures known { IfOk result (λ r. IfSome r (λ n. (16 ≤ n) × (n ≤ D.known disk.new))) }
    ensures durable { OnOk result
        (IfSome (D.contents disk.new) (λ b. Only b (D.may_leave disk.new))) }
    ensures only_reads { OnlyReads D.Disk disk.old disk.new }
    ensures cause { HasCause (D.faults disk.old) (D.faults disk.new) result }
{
    make_durable(disk)?;
    let size = read_len(disk)?;
    if size < 16 {
        return Ok(None);
    }
    let is_journal = read_header(disk)?;
    Ok(if is_journal { Some(size) } else { None })
}

impl<D: Disk> Opening<D> {
    ghost use Rattle.journal_core.specs.Openings.{opening_disk, read_list, is_ended, last_body};
    ghost use Rattle.journal_core.specs.Openings.{next_offset};
    ghost use Rattle.journal_core.specs.Openings.{HasBegun, Steps, Nexts};
    ghost use Rattle.journal_core.specs.contracts.opening.Opening.{the_row};
    ghost use Rattle.std.specs.Borrow.{sem};
    ghost use Rattle.std.specs.Io.BufRead.{Rests};
    ghost use Rattle.journal_core.specs.Words.{AllRepresent, disk_of, end_of, is_broken, records};

    /// Takes a file to read it as a journal. It syncs first, so that what is read is on the disk.
    ///
    /// Errors, in the order of the tests: `Failed`; `NotJournal` where the first sixteen bytes
    /// aren't the header; `Memory` for the buffer. A refusal returns the disk.
    pub fn begin(alloc: Global, mut disk: D) -> Result<Opening<D>, Refused<D, OpenError>>
        ensures ok { IfOk result (HasBegun disk) }
        ensures reason { IfErr result (λ e. HasReason D.Disk disk e.disk 0 e.why) }
        ensures kind { IfErr result (λ e. IsOfHeader e.why) }
        ensures whole { IfErr result (λ e. IfSome (D.contents disk)
            (λ bytes. (list : List Text) → Represents bytes list
            → e.why ≢ OpenError.NotJournal)) }
        ensures only_reads { IfErr result (λ e. OnlyReads D.Disk disk e.disk) }
        ensures fine { IfErr result (λ e. e.why ≢ OpenError.Failed
            → D.faults e.disk ≡ D.faults disk) }
    {
        let size = match measure(&mut disk) {
            Ok(Some(size)) => size,
            Ok(None) => return Err(return_rest(disk, OpenError::NotJournal)),
            Err(failed) => return Err(return_rest(disk, failed.into())),
        };
        let buffer = match buffer(alloc) {
            Ok(buffer) => buffer,
            Err(Memory) => return Err(return_rest(disk, OpenError::Memory)),
        };
        Ok(Opening {
            disk,
            size,
            place: 16,
            count: 0,
            body: Body { start: 0, size: 0 },
            ended: false,
            refused: None,
            window: Window::new(buffer),
        })
    }

    /// The body of the next record, or none at the closed commit byte, and then none again.
    ///
    /// Errors, of which each is given again from then on: `CutShort` where the file ends before the
    /// commit byte or within the record; `BadLength` where an open record's length is 0 or above
    /// 131,072; `Failed`. A file that is a journal is refused only for a failure of the disk. It
    /// takes no memory.
    pub fn next(&mut self) -> Result<Option<&[u8]>, OpenError>
        ensures* after_borrow { sem 𝓛 (Rests (the_row D.row D.Disk) self.entry
            (λ new. Nexts self.old new result)) }
    {
        match self.step() {
            Ok(true) => Ok(Some(self.last())),
            Ok(false) => Ok(None),
            Err(why) => Err(why),
        }
    }

    /// How many records were read, so the number of the next one.
    pub fn read_count(&self) -> u64
        ensures { IfSome (read_list self.now) (λ list. result ≡ length list) }
    {
        self.count
    }

    /// The offset of the next commit byte, after the records that were read. The length of the next
    /// body stands one byte further on. `Journal::end` is one byte further on, too.
    pub fn place(&self) -> u64
        ensures value { result ≡ next_offset self.now }
        ensures list { IfSome (read_list self.now) (λ list. result + 1 ≡ end_offset list) }
    {
        self.place
    }

    /// The journal, once its closed commit byte was read.
    pub fn ready(self) -> Journal<D>
        requires { is_ended self ≡ true }
        ensures list { records result ≡ read_list self }
        ensures disk { disk_of result ≡ opening_disk self }
        ensures sound { is_broken result ≡ false }
        ensures place { end_of result ≡ next_offset self + 1 }
        ensures all { IfSome (records result) (AllRepresent D.Disk (disk_of result)) }
        ensures end { IfSome (records result) (λ list. end_of result ≡ end_offset list) }
    {
        Journal {
            disk: self.disk,
            end: self.place + 1,
            broken: false,
            buffer: self.window.buffer,
        }
    }

    /// The disk, for another use.
    pub fn into_disk(self) -> D
        ensures { result ≡ opening_disk self }
    {
        self.disk
    }

    fn last(&self) -> &[u8]
        ensures { result.now ≡ last_body self.now }
    {
        &self.window.buffer[self.body.start..self.body.start + self.body.size]
    }

    // Reads on by one record: whether there was one.
    fn step(&mut self) -> Result<bool, OpenError>
        ensures { Steps self.old self.new result }
    {
        match self.refused {
            Some(why) => return Err(why),
            None => {}
        }
        if self.ended {
            return Ok(false);
        }
        match read_record(&mut self.disk, self.size, &mut self.window, self.place) {
            Ok(Some(body)) => {
                self.place += 5 + body.size as u64;
                self.count += 1;
                self.body = body;
                Ok(true)
            }
            Ok(None) => {
                self.ended = true;
                Ok(false)
            }
            Err(why) => {
                self.refused = Some(why);
                Err(why)
            }
        }
    }
}
