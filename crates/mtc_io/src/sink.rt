//! Where bytes go.

ghost use Rattle.std.specs.Prelude.{ℕ, Option, ◌≤◌, ◌<◌, length, IfOk, OnOk};
ghost use Rattle.std.specs.Io.KnownBytes.{WriteAppends, Appends};
ghost use Rattle.byte_formats.specs.Types.{Text};
ghost use Rattle.mtc_io.specs.Counts.{HasCause};
ghost use Rattle.mtc_io.specs.Streams.{AppendsPrefix, joined};

use crate::fault::Failed;

/// Something that takes bytes, one after the other, and may fail.
pub trait Sink {
    /// The bytes taken, if the model knows them.
    ghost taken: { Self → Option Text };

    /// The count of its failures, which rises with each call that fails and never falls.
    ghost faults: { Self → ℕ };

    /// Takes a prefix of a piece, and answers its length: at least 1 if the piece isn't empty.
    /// `Failed` comes only with a failure, and then nothing was taken.
    fn write(&mut self, piece: &[u8]) -> Result<usize, Failed>
        ensures bound { IfOk result (λ count. count ≤ length piece.now) }
        ensures some { IfOk result (λ count. 0 < length piece.now → 0 < count) }
        ensures bytes { WriteAppends (taken self.old) (taken self.new) result piece.now }
        ensures cause { HasCause (faults self.old) (faults self.new) result };
}

/// Writes a whole piece. `Failed` comes only with a failure of the sink, and then a prefix of the
/// piece was taken.
#[tactic(auto, using(crate::proofs::Streams::taken_more))]
pub fn write_all<O: Sink>(sink: &mut O, piece: &[u8]) -> Result<(), Failed>
    ensures ok { OnOk result (Appends (O.taken sink.old) (O.taken sink.new) piece.now) }
    ensures cause { HasCause (O.faults sink.old) (O.faults sink.new) result }

    // It holds of both results, for a caller that doesn't read which one it is.
    ensures prefix { AppendsPrefix (O.taken sink.old) (O.taken sink.new) piece.now }
{
    let mut done = 0;
    while done < piece.len() {
        done += sink.write(&piece[done..])?;
    }
    Ok(())
}

/// Writes pieces, one after the other. `Failed` comes only with a failure of the sink, and then a
/// prefix of the whole was taken.
pub fn write_pieces<O: Sink>(sink: &mut O, pieces: &[&[u8]]) -> Result<(), Failed>
    ensures ok { OnOk result (Appends (O.taken sink.old) (O.taken sink.new) (joined pieces.now)) }
    ensures cause { HasCause (O.faults sink.old) (O.faults sink.new) result }

    // It holds of both results, for a caller that doesn't read which one it is.
    ensures prefix { AppendsPrefix (O.taken sink.old) (O.taken sink.new) (joined pieces.now) }
{
    for piece in pieces {
        write_all(sink, piece)?;
    }
    Ok(())
}
