//! Journals with the records of two signatures in conflict: the clause is the law, and the function
//! does nothing.

ghost use Rattle.mtc_top.specs.Executions.{program};
ghost use Rattle.mtc_laws.specs.RecordedTwice.{RecordedSignaturesCollide};

use disk_core::Disk;
use mtc_io::Sink;
use mtc_room::Room;
use tree_core::TreeHash;

/// A journal with the records of two signatures of one interval and different hashes convicts its
/// cosigner, whatever became of it before: it may have been recovered after a crash, or restored.
/// Let the export file be what a run of `export` over it with status 0 printed. Then a run of
/// `quarrel` over that file prints two numbers of keys and two different strings with one hash,
/// with status 10. Or it ends with status 5, 6 or 8.
pub fn law_recorded_signatures_collide<H: TreeHash, R: Room, O: Sink, E: Sink>()
    ensures { RecordedSignaturesCollide H.hash
        (program H.hash R.Room R.Dsk.Disk O.Sink E.Sink) }
{}
