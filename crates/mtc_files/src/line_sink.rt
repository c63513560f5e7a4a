//! A line on standard error.

ghost use Rattle.std.specs.Prelude.{◌≡◌, None};

use arrayvec::ArrayVec;
use mtc_io::{Failed, Sink};
use std::io::{self, Write};

// So many bytes of a line go out at once: the longest name of a file fits, each of its bytes
// escaped.
const LONGEST: usize = 5 * 4096;

/// A writer that takes one line. It gathers what it is given, and [`LineSink::finish`] writes that
/// at once, so that the lines of programs that share a stream aren't mixed: of a line of more than
/// 20,480 bytes each full 20,480 go out by themselves. The model doesn't know what it took.
///
/// A control character, from U+0000 to U+001F or from U+007F to U+009F, goes out as `\x` and two
/// hexadecimal digits for each of its bytes, but for a newline at the end. So a name that stands in
/// the line can't end it, and begins no other.
#[derive(Drop)]
pub struct LineSink<W> {
    line: Line<W>,
    faults: u64,
}

// What was gathered, with each control character escaped. A newline waits: it goes out as it is if
// nothing follows.
#[derive(Drop)]
struct Line<W> {
    writer: W,
    held: ArrayVec<u8, LONGEST>,
    is_ended: bool,
}

impl<W: Write> Line<W> {
    // Writes what is held.
    fn send(&mut self) -> io::Result<()> {
        self.writer.write_all(self.held.as_slice())?;
        self.held.clear();
        Ok(())
    }

    // Holds one byte more.
    fn hold(&mut self, byte: u8) -> io::Result<()> {
        if self.held.is_full() {
            self.send()?;
        }
        let _ = self.held.try_push(byte);
        Ok(())
    }

    // Holds a byte in its escaped form.
    fn encode(&mut self, byte: u8) -> io::Result<()> {
        for part in [b'\\', b'x', digit(byte >> 4), digit(byte & 15)] {
            self.hold(part)?;
        }
        Ok(())
    }

    // Holds a piece of the line.
    fn gather(&mut self, piece: &[u8]) -> io::Result<()> {
        let mut before = 0;
        for (index, byte) in piece.iter().enumerate() {
            if self.is_ended {
                self.encode(b'\n')?;
                self.is_ended = false;
            }
            let following = piece.get(index.saturating_add(1)).copied().unwrap_or(0);
            if *byte == b'\n' {
                self.is_ended = true;
            } else if is_control(before, *byte, following) {
                self.encode(*byte)?;
            } else {
                self.hold(*byte)?;
            }
            before = *byte;
        }
        Ok(())
    }

    // Writes the line.
    fn finish(&mut self) -> io::Result<()> {
        if self.is_ended {
            self.hold(b'\n')?;
        }
        self.send()
    }
}

// Whether a byte is one of a control character, by the bytes around it. In UTF-8 those from U+0080
// to U+009F are C2 and a byte from 80 to 9F.
fn is_control(before: u8, byte: u8, following: u8) -> bool {
    byte < b' ' || byte == 0x7F || is_high_control(before, byte) || is_high_control(byte, following)
}

fn is_high_control(first: u8, second: u8) -> bool {
    first == 0xC2 && (0x80..=0x9F).contains(&second)
}

// A hexadecimal digit.
fn digit(value: u8) -> u8 {
    b"0123456789abcdef"[usize::from(value & 15)]
}

impl<W: Write> LineSink<W> {
    /// A sink that has gathered nothing, without a failure so far.
    pub fn new(writer: W) -> LineSink<W>
        ensures faults { ⟦<LineSink<W> as Sink>⟧.faults result ≡ 0 }
    {
        LineSink {
            line: Line {
                writer,
                held: ArrayVec::new(),
                is_ended: false,
            },
            faults: 0,
        }
    }

    /// Writes what was gathered. The call reports no error: there is no other stream for the line.
    pub fn finish(self) -> W {
        let mut line = self.line;
        let _ = line.finish();
        line.writer
    }
}

impl<W: Write> Sink for LineSink<W> {
    ghost taken = { λ _. None };

    ghost faults = { λ s. s.faults };

    fn write(&mut self, piece: &[u8]) -> Result<usize, Failed> {
        match self.line.gather(piece) {
            Ok(()) => Ok(piece.len()),
            Err(_) => {
                self.faults = self.faults.saturating_add(1);
                Err(Failed)
            }
        }
    }
}
