//! Where bytes come from.

ghost use Rattle.std.specs.Prelude.{◌≡◌, ◌≢◌, ℕ, Option, ◌≤◌, ◌<◌, length, IfOk, OnOk, IfSome};
ghost use Rattle.std.specs.Prelude.{IsErrOf, MatchResult};
ghost use Rattle.std.specs.Io.KnownBytes.{ReadConsumes, Consumes, IsAtEnd};
ghost use Rattle.byte_formats.specs.Types.{Text};
ghost use Rattle.mtc_io.specs.Counts.{Rose, HasCause};
ghost use Rattle.mtc_io.specs.Streams.{ConsumesSome};
ghost use Rattle.mtc_io.specs.declared.source.ReadError.TheVariants.{Failed as ReadFailed};
ghost use Rattle.mtc_io.specs.declared.source.ReadError.TheVariants.{Memory as ReadMemory};

use crate::bytes::Bytes;
use crate::fault::{Failed, Memory};
use std::alloc::Global;
use std::error::Error;
use std::fmt;

/// Something that gives bytes, one after the other, and may fail.
pub trait Source {
    /// The bytes left, if the model knows them.
    ghost left: { Self → Option Text };

    /// The count of its failures, which rises with each call that fails and never falls.
    ghost faults: { Self → ℕ };

    /// Puts the next bytes into a prefix of `into`, and answers how many. If `into` isn't empty, 0
    /// means the end of input. `Failed` comes only with a failure, and then nothing was given.
    fn read(&mut self, into: &mut [u8]) -> Result<usize, Failed>
        ensures bound { IfOk result (λ count. count ≤ length into.new) }
        ensures bytes { ReadConsumes (left self.old) (left self.new) result into.new }
        ensures cause { HasCause (faults self.old) (faults self.new) result };
}

/// Why a source wasn't read to its end.
#[derive(Clone, Copy, Debug, PartialEq, Eq)]
pub enum ReadError {
    /// The source failed.
    Failed,
    /// The source gave more bytes than the limit.
    TooLong,
    /// Memory was refused.
    Memory,
}

impl fmt::Display for ReadError {
    ghost use Rattle.std.specs.Prelude.{Some};
    ghost use Rattle.mtc_io.specs.Reasons.{read_fault_text};

    ghost output = { λ why. Some (read_fault_text why) };

    fn fmt<W: fmt::Write>(&self, f: &mut fmt::Formatter<W>) -> fmt::Result {
        match self {
            ReadError::Failed => f.write_str("Failed"),
            ReadError::TooLong => f.write_str("TooLong"),
            ReadError::Memory => f.write_str("Memory"),
        }
    }
}

impl Error for ReadError {}

impl From<Failed> for ReadError {
    ghost from_gives = { λ _ e. e ≡ ReadFailed };

    fn from(_failed: Failed) -> ReadError {
        ReadError::Failed
    }
}

impl From<Memory> for ReadError {
    ghost from_gives = { λ _ e. e ≡ ReadMemory };

    fn from(_refused: Memory) -> ReadError {
        ReadError::Memory
    }
}

// So many bytes are asked for at a time.
const CHUNK: usize = 4096;

/// Reads to the end of input. `TooLong` comes only if the source gives more than `limit` bytes, and
/// Ok only if it gives no more; the length is tested before memory is taken for the bytes. `Failed`
/// comes only with a failure of the source, and no other answer counts one.
pub fn read_all<S: Source>(alloc: Global, source: &mut S, limit: u64) -> Result<Bytes, ReadError>
    ensures whole { IfOk result (Consumes (S.left source.old) (S.left source.new)) }
    ensures spent { OnOk result (IsAtEnd (S.left source.new)) }
    ensures within { IfOk result (λ bytes. length bytes ≤ limit) }
    ensures too_long { IsErrOf result ReadError.TooLong
        → IfSome (S.left source.old) (λ bytes. limit < length bytes) }
    ensures failed { IsErrOf result ReadError.Failed
        → Rose (S.faults source.old) (S.faults source.new) }
    ensures count { S.faults source.old ≤ S.faults source.new }
    ensures fine { MatchResult result (λ _. S.faults source.new ≡ S.faults source.old)
        (λ why. why ≢ ReadError.Failed → S.faults source.new ≡ S.faults source.old) }

    // What was read on the way to a refusal is lost, and nothing else.
    ensures rest { ConsumesSome (S.left source.old) (S.left source.new) }
{
    let mut bytes = Bytes::new(alloc);
    let mut chunk = [0; CHUNK];
    loop {
        let count = source.read(&mut chunk)?;
        if count == 0 {
            return Ok(bytes);
        }
        if count as u64 > limit - bytes.len() as u64 {
            return Err(ReadError::TooLong);
        }
        bytes.append(&chunk[..count])?;
    }
}
