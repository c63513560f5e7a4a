//! Which records may follow the first one of a mirror's journal.

ghost use Rattle.std.specs.Prelude.{◌≡◌, ◌≢◌, [], ◌∷◌, ◌++◌, Err};
ghost use Rattle.mirror_core.specs.Folds.{may_follow_mirror, next_mirror_view};
ghost use Rattle.mirror_core.specs.Results.{MirrorTakes};
ghost use Rattle.mirror_core.specs.declared.error.RecordError.TheVariants.{Memory as RecordMemory};

use crate::error::RecordError;
use crate::numbers::Numbers;
use crate::record::read_batch;
use mtc_io::Bytes;
use tls_wire::AnchorId;
use tree_core::TreeHash;

// Takes one record more. `Unfit` comes exactly if it breaks the rules, and leaves all as it was.
fn take_next<H: TreeHash>(numbers: &mut Numbers, body: &[u8]) -> Result<(), RecordError>
    ensures taken { MirrorTakes (next_mirror_view H.hash numbers.old body.now) numbers.old result
        numbers.new }
    ensures never { result ≢ Err RecordMemory }
{
    match read_batch(body) {
        Ok((count, items)) => {
            if !numbers.takes_all::<H>(count, items) {
                return Err(RecordError::Unfit);
            }
            numbers.add_items(count);
            Ok(())
        }
        Err(RecordError::Unfit) => numbers.take_other::<H>(body),
        Err(RecordError::Memory) => unreachable!(),
    }
}

/// Whether these records, and one more after them, may follow the first record of a mirror of the
/// log with this id. It takes no memory.
pub fn may_follow<H: TreeHash>(log: AnchorId, bodies: &[Bytes], body: &[u8]) -> bool
    ensures { result ≡ may_follow_mirror H.hash log (bodies.now ++ body.now ∷ []) }
{
    let mut numbers = Numbers::new(log);
    for earlier in bodies {
        match take_next::<H>(&mut numbers, earlier.as_slice()) {
            Ok(()) => {}
            Err(_unfit) => return false,
        }
    }
    take_next::<H>(&mut numbers, body).is_ok()
}
