//! What is left of a source.

ghost use Rattle.std.specs.Prelude.{◌≡◌, ◌≢◌, ◌≤◌, ◌<◌, length, IfOk, OnOk, IfSome, IsErrOf};
ghost use Rattle.std.specs.Prelude.{MatchResult};
ghost use Rattle.std.specs.Io.KnownBytes.{IsAtEnd};
ghost use Rattle.mtc_io.specs.Counts.{Rose};
ghost use Rattle.mtc_io.specs.Streams.{ConsumesSome};
ghost use Rattle.entry_stream.specs.Streams.{HadLeft};

use mtc_io::{ReadError, Source};

// So many bytes are asked for at a time.
const CHUNK: usize = 65_536;

/// Reads what is left, and lets it go. Refuses as [`mtc_io::read_all`], and never with `Memory`.
pub(crate) fn skip_rest<S: Source>(source: &mut S, limit: u64) -> Result<u64, ReadError>
    ensures whole { IfOk result (HadLeft (S.left source.old) (S.left source.new)) }
    ensures within { IfOk result (λ count. count ≤ limit) }
    ensures spent { OnOk result (IsAtEnd (S.left source.new)) }
    ensures too_long { IsErrOf result ReadError.TooLong
        → IfSome (S.left source.old) (λ bytes. limit < length bytes) }
    ensures failed { IsErrOf result ReadError.Failed
        → Rose (S.faults source.old) (S.faults source.new) }
    ensures count { S.faults source.old ≤ S.faults source.new }
    ensures fine { MatchResult result (λ _. S.faults source.new ≡ S.faults source.old)
        (λ why. why ≢ ReadError.Failed → S.faults source.new ≡ S.faults source.old) }
    ensures rest { ConsumesSome (S.left source.old) (S.left source.new) }
{
    let mut chunk = [0; CHUNK];
    let mut total: u64 = 0;
    'each: loop {
        let count = source.read(&mut chunk)?;
        if count == 0 {
            return Ok(total);
        }
        if count as u64 > limit - total {
            return Err(ReadError::TooLong);
        }
        total += count as u64;
    }
}
