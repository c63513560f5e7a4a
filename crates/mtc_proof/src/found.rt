//! Going over the signatures of a proof.

ghost use Rattle.std.specs.Prelude.{◌≡◌, [], ◌∷◌, MatchOption};
ghost use Rattle.std.specs.Iterator.{YieldsFirstBy, item_count};
ghost use Rattle.byte_formats.specs.Offsets.{at};
ghost use Rattle.mtc_proof.specs.Reading.{signatures_left};
ghost use Rattle.mtc_proof.specs.Views.{sig_parts};

use crate::list::signature;
use crate::proof::SigRef;
use std::marker::Model;
use tls_wire::Cursor;

/// The signatures of a proof, one after another.
#[derive(Drop)]
pub struct Signatures<'a> {
    left: Cursor<'a>,
}

impl<'a> Model for Signatures<'a> {
    ghost use Rattle.std.specs.Prelude.{List};
    ghost use Rattle.mtc_proof.specs.Proofs.{SigParts};
    ghost use Rattle.mtc_proof.specs.Reading.{signatures_left};

    ghost Value = { List SigParts };

    ghost view = { λ s. signatures_left s.left };
}

impl<'a> Signatures<'a> {
    // Those in these bytes.
    pub(crate) fn of(bytes: &'a [u8]) -> Signatures<'a>
        ensures { result ≡ signatures_left (at bytes.now 0) }
    {
        Signatures {
            left: Cursor::new(bytes),
        }
    }
}

impl<'a> Iterator for Signatures<'a> {
    type Item = SigRef<'a>;

    ghost use Rattle.mtc_proof.specs.Views.{sig_parts};

    ghost next_gives = { YieldsFirstBy sig_parts (λ left. left) };

    ghost remaining = { item_count (λ left. left) };

    fn next(&mut self) -> Option<SigRef<'a>> {
        next_signature(&mut self.left)
    }
}

// The next signature; none where what is left doesn't read as one.
fn next_signature<'a>(cursor: &mut Cursor<'a>) -> Option<SigRef<'a>>
    ensures { MatchOption result
        ((signatures_left cursor.old ≡ []) × (signatures_left cursor.new ≡ []))
        (λ s. signatures_left cursor.old ≡ sig_parts s ∷ signatures_left cursor.new) }
{
    match signature(cursor) {
        Ok(next) => Some(next),
        Err(_) => {
            *cursor = Cursor::new(&[]);
            None
        }
    }
}
