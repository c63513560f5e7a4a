//! The streams, and the loops over them.

use mtc_io::{
    Bytes, Failed, MemSink, MemSource, Memory, ReadError, Sink, Source, StdSink, StdSource,
    read_all, write_all, write_pieces,
};
use std::alloc::Global;
use std::io::{self, ErrorKind, Read};
use std::test::Fail;

fn source(alloc: Global, bytes: &[u8], failing: &[u64]) -> Result<MemSource, Memory> {
    let bytes = Bytes::copy_of(alloc, bytes)?;
    Ok(MemSource::new(bytes, Vec::from_slice(alloc, failing)?))
}

fn read(alloc: Global, source: &mut MemSource, limit: u64) -> Result<Bytes, ReadError> {
    read_all(alloc, source, limit)
}

// Whether the bytes were read without a failure, or refused so.
fn is_read(read: Result<Bytes, ReadError>, bytes: &[u8], refusal: Option<ReadError>) -> bool {
    match read {
        Ok(read) => refusal.is_none() && read.as_slice() == bytes,
        Err(why) => Some(why) == refusal,
    }
}

fn faults_of(refusal: Option<ReadError>) -> u64 {
    if refusal == Some(ReadError::Failed) {
        1
    } else {
        0
    }
}

// Whether a source of these bytes is read whole, or refused so, by a limit.
fn reads(
    alloc: Global,
    bytes: &[u8],
    failing: &[u64],
    limit: u64,
    refusal: Option<ReadError>,
) -> Result<bool, Memory> {
    let mut source = source(alloc, bytes, failing)?;
    let read = read(alloc, &mut source, limit);
    Ok(source.faults() == faults_of(refusal) && is_read(read, bytes, refusal))
}

#[test]
fn a_source_is_read_to_its_end_or_refused(rt: HostRuntime) -> Result<(), Fail> {
    let long = [7; 5000];
    let cases: [(&[u8], &[u64], u64, Option<ReadError>); 9] = [
        (b"", &[], 0, None),
        (b"abc", &[], 3, None),
        (b"abc", &[], 2, Some(ReadError::TooLong)),
        (b"abc", &[0], 3, Some(ReadError::Failed)),
        (b"abc", &[1], 3, Some(ReadError::Failed)),
        (b"abc", &[1], 2, Some(ReadError::TooLong)),
        (b"abc", &[2], 3, None),
        (&long, &[], 5000, None),
        (&long, &[], 4999, Some(ReadError::TooLong)),
    ];
    for (bytes, failing, limit, refusal) in cases {
        assert!(rt;
            reads(rt.alloc(), bytes, failing, limit, refusal)?,
            "limit {limit}"
        );
    }
    Ok(())
}

fn sink(alloc: Global, per_call: usize, failing: &[u64]) -> Result<MemSink, Memory> {
    let failing = Vec::from_slice(alloc, failing)?;
    Ok(MemSink::new(alloc, per_call.max(1), failing))
}

// One piece is written at once.
fn write(sink: &mut MemSink, pieces: &[&[u8]]) -> Result<(), Failed> {
    match pieces {
        [whole] => write_all(sink, whole),
        _ => write_pieces(sink, pieces),
    }
}

fn has_taken(sink: &MemSink, taken: &[u8]) -> bool {
    sink.taken() == taken && sink.failed_allocations() == 0
}

// Whether a sink that takes so much a call answers so, and has so much at the end.
fn writes(
    alloc: Global,
    per_call: usize,
    failing: &[u64],
    pieces: &[&[u8]],
    answer: Result<(), Failed>,
    taken: &[u8],
) -> Result<bool, Memory> {
    let mut sink = sink(alloc, per_call, failing)?;
    let made = write(&mut sink, pieces);
    Ok(made == answer && has_taken(&sink, taken))
}

#[test]
fn a_sink_takes_the_whole_or_a_prefix(rt: HostRuntime) -> Result<(), Fail> {
    let cases: [(usize, &[u64], Result<(), Failed>, &[u8]); 5] = [
        (100, &[], Ok(()), b"member 0\n"),
        (1, &[], Ok(()), b"member 0\n"),
        (3, &[1], Err(Failed), b"mem"),
        (1, &[7], Err(Failed), b"member "),
        (1, &[9], Ok(()), b"member 0\n"),
    ];
    let whole: [&[u8]; 1] = [b"member 0\n"];
    let parts: [&[u8]; 4] = [b"mem", b"", b"ber 0", b"\n"];
    for (per_call, failing, answer, taken) in cases {
        for pieces in [whole.as_slice(), parts.as_slice()] {
            assert!(rt; writes(rt.alloc(), per_call, failing, pieces, answer, taken)?);
        }
    }
    Ok(())
}

// Whether a reader of five bytes gives them, and then its end.
fn reader_is_read() -> bool {
    let mut reader = StdSource::new(b"entry".as_slice());
    let mut into = [0; 8];
    let first = reader.read(&mut into);
    let given = into == *b"entry\0\0\0";
    first == Ok(5) && given && reader.read(&mut into) == Ok(0) && reader.faults() == 0
}

// A reader that gives nothing but errors.
#[derive(Drop)]
struct Broken;

impl Read for Broken {
    fn read(&mut self, _into: &mut [u8]) -> io::Result<usize> {
        Err(io::Error::from(ErrorKind::Other))
    }
}

// Whether each call of a reader that fails is counted once.
fn failed_reads_are_counted() -> bool {
    let mut reader = StdSource::new(Broken);
    let mut into = [0; 8];
    let first = reader.read(&mut into) == Err(Failed) && reader.faults() == 1;
    first && reader.read(&mut into) == Err(Failed) && reader.faults() == 2
}

// A writer with capacity for two bytes takes no more, which is a failure for a piece that isn't
// empty.
fn full_writer_fails() -> bool {
    let mut room = [0; 2];
    let mut full = StdSink::new(room.as_mut_slice());
    let first = full.write(b"root") == Ok(2);
    first && full.write(b"ot") == Err(Failed) && full.write(b"") == Ok(0)
}

#[test]
fn readers_and_writers_are_adapted(rt: HostRuntime) -> Result<(), Fail> {
    assert!(rt; reader_is_read());
    assert!(rt; failed_reads_are_counted());
    let mut writer = StdSink::new(Vec::new(rt.alloc()));
    assert!(rt; writer.write(b"root") == Ok(4));
    assert!(rt; full_writer_fails());
    Ok(())
}

// Bytes that were appended, one after the other.
fn grown(alloc: Global) -> Result<Bytes, Memory> {
    let mut bytes = Bytes::copy_of(alloc, b"log")?;
    bytes.append(b" ")?;
    bytes.append_both(b"en", b"try")?;
    Ok(bytes)
}

fn is_cut(bytes: &mut Bytes) -> bool {
    bytes.truncate(3);
    bytes.len() == 3 && !bytes.is_empty()
}

fn is_kept(bytes: Bytes) -> bool {
    Bytes::from_vec(bytes.into_vec()).as_slice() == b"log".as_slice()
}

#[test]
fn bytes_grow_and_shrink(rt: HostRuntime) -> Result<(), Fail> {
    let mut bytes = grown(rt.alloc())?;
    assert!(rt; bytes.as_slice() == b"log entry".as_slice());
    assert!(rt; is_cut(&mut bytes));
    assert!(rt; is_kept(bytes));
    Ok(())
}
