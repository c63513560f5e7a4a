//! A line on standard error.

use mtc_files::LineSink;
use mtc_io::{Memory, write_all, write_pieces};
use std::alloc::Global;
use std::io::{self, ErrorKind, Write};
use std::test::Fail;

// A writer that retains what it takes, with a bar after each write; or one that takes nothing.
#[derive(Drop)]
struct Barred {
    bytes: Vec<u8>,
    is_full: bool,
}

impl Write for Barred {
    fn write(&mut self, buf: &[u8]) -> io::Result<usize> {
        if self.is_full {
            return Err(io::Error::from(ErrorKind::StorageFull));
        }
        self.bytes.extend_from_slice(buf)?;
        self.bytes.push(b'|')?;
        Ok(buf.len())
    }

    fn flush(&mut self) -> io::Result<()> {
        Ok(())
    }
}

fn sink(alloc: Global, is_full: bool) -> LineSink<Barred> {
    LineSink::new(Barred {
        bytes: Vec::new(alloc),
        is_full,
    })
}

// What goes out of a line in such pieces, which stand between signs of plus.
fn written(alloc: Global, pieces: &str) -> Vec<u8> {
    let mut line = sink(alloc, false);
    for piece in pieces.split('+') {
        let _ = write_all(&mut line, piece.as_bytes());
    }
    line.finish().bytes
}

#[test]
fn a_line_is_one_write_and_stays_one_line(rt: HostRuntime) {
    let cases: [(&str, &str); 9] = [
        ("mtc: +show+: +f+: +Absent+\n", "mtc: show: f: Absent\n|"),
        ("mtc: Memory\n", "mtc: Memory\n|"),
        ("a\nmtc: b+\n", "a\\x0amtc: b\n|"),
        ("\n+: Absent+\n", "\\x0a: Absent\n|"),
        ("\n+\n", "\\x0a\n|"),
        ("\x1b[2J\r\t\0\x7f+\n", "\\x1b[2J\\x0d\\x09\\x00\\x7f\n|"),
        (
            "x\u{80}\u{9b}\u{9f}\u{a0}y\u{c2}+\n",
            "x\\xc2\\x80\\xc2\\x9b\\xc2\\x9f\u{a0}y\u{c2}\n|",
        ),
        (
            "a \\ b \"\u{2026}\u{1f600}~+\n",
            "a \\ b \"\u{2026}\u{1f600}~\n|",
        ),
        ("no newline", "no newline|"),
    ];
    for (pieces, wanted) in cases {
        assert!(rt;
            written(rt.alloc(), pieces).as_slice() == wanted.as_bytes(),
            "{wanted}"
        );
    }
}

// A piece of so many bytes.
fn long(alloc: Global, length: usize) -> Result<Vec<u8>, Memory> {
    Ok(vec![in alloc; b'n'; length]?)
}

// How many bytes go out of a line with a name of so many, and how many writes that takes.
fn counted(alloc: Global, length: usize) -> Result<(usize, usize), Memory> {
    let name = long(alloc, length)?;
    let mut line = sink(alloc, false);
    let _ = write_pieces(&mut line, &[name.as_slice(), b"\n"]);
    let bytes = line.finish().bytes;
    let writes = bytes.iter().filter(|byte| **byte == b'|').count();
    Ok((bytes.len().saturating_sub(writes), writes))
}

#[test]
fn a_longer_line_goes_out_whole(rt: HostRuntime) -> Result<(), Fail> {
    for (length, wanted) in [
        (0, (1, 1)),
        (20_479, (20_480, 1)),
        (20_480, (20_481, 2)),
        (131_072, (131_073, 7)),
    ] {
        assert!(rt; counted(rt.alloc(), length)? == wanted, "{length}");
    }
    Ok(())
}

#[test]
fn a_stream_that_takes_nothing_is_a_fault(rt: HostRuntime) -> Result<(), Fail> {
    let mut line = sink(rt.alloc(), true);
    assert!(rt; write_all(&mut line, b"mtc: Memory\n").is_ok());
    let name = long(rt.alloc(), 21_000)?;
    assert!(rt; write_all(&mut line, &name).is_err());
    assert!(rt; line.finish().bytes.is_empty());
    Ok(())
}
