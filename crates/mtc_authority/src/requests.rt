//! The commands `consist` and `subtree`: requests to a cosigner of a log.

ghost use Rattle.std.specs.Prelude.{◌≡◌, ◌<◌, ◌≤◌, true, IfErr, IfOk, IfSome};
ghost use Rattle.cosigner_core.specs.Requests.{advance_text, subtree_text};
ghost use Rattle.issuance_log.specs.Words.{LogAsksTiles, log_tiles_disk, modelled_by_both, view_of};
ghost use Rattle.mtc_io.specs.Counts.{Rose};
ghost use Rattle.tree_core.specs.Subtree.{is_subtree};
ghost use Rattle.mtc_command.specs.Answers.{ending_of, stop_ending, tiles_name};
ghost use Rattle.mtc_authority.specs.LogOutcomes.{StopsAt};
ghost use Rattle.mtc_authority.specs.RequestOutcomes.{advance_by_log, consist_reply, subtree_of};
ghost use Rattle.mtc_authority.specs.RequestOutcomes.{subtree_reply};
ghost use Rattle.mtc_authority.specs.Works.{RepliesOnLog};

use crate::entries::too_many;
use crate::tree::{growth_of, hash_of, proof_of, root_of};
use cosigner_core::{write_advance, write_subtree};
use disk_core::Disk;
use issuance_log::Log;
use mtc_command::{Answer, Reason, Said, Stop, Stopped, refuse};
use mtc_io::Bytes;
use std::alloc::Global;
use tree_core::{TreeHash, subtree_ok};

// The request to hold the first `new` entries.
fn advance_request<'a, H: TreeHash, D: Disk>(
    alloc: Global,
    journal: &'a str,
    log: &mut Log<H, D, D>,
    old: u64,
    new: u64,
) -> Result<Bytes, Stop<'a>>
    requires more { old < new }
    requires within { new ≤ (view_of log.old).size }
    ensures text { IfOk result (λ text. IfSome (modelled_by_both log.old)
        (λ s. text ≡ advance_text (advance_by_log H.hash s old new))) }
    ensures stops { IfErr result (λ stop. StopsAt (Rose (D.faults (log_tiles_disk log.old))
        (D.faults (log_tiles_disk log.new))) (tiles_name journal.now) (stop_ending stop)) }
    ensures asks { LogAsksTiles log.old log.new }
{
    let Ok(root) = root_of(log, new) else {
        return Err(Stop::Tiles(journal));
    };
    let Ok(proof) = growth_of(log, old, new) else {
        return Err(Stop::Tiles(journal));
    };
    let settings = log.settings();
    Ok(write_advance(alloc, settings.id.as_bytes(), new, &root, &proof)?)
}

/// The work of `consist J OLD NEW`.
pub fn consist<'a, H: TreeHash, D: Disk>(
    alloc: Global,
    journal: &'a str,
    log: &mut Log<H, D, D>,
    old: u64,
    new: u64,
) -> Result<Answer, Stop<'a>>
    ensures { RepliesOnLog journal.now (consist_reply H.hash old new) log.old log.new
        (ending_of result) }
{
    log.law_sound();
    if new <= old {
        return Err(refuse(Stopped::NotAllowed, Reason::named("NothingNew")));
    }
    if log.size() < new {
        return Err(too_many(log.size()));
    }
    Ok(Answer {
        status: Said::Done,
        text: advance_request(alloc, journal, log, old, new)?,
    })
}

// The request to sign the subtree `[start, end)` of the first `size` entries.
fn subtree_request<'a, H: TreeHash, D: Disk>(
    alloc: Global,
    journal: &'a str,
    log: &mut Log<H, D, D>,
    start: u64,
    end: u64,
    size: u64,
) -> Result<Bytes, Stop<'a>>
    requires valid { is_subtree start end ≡ true }
    requires inside { end ≤ size }
    requires within { size ≤ (view_of log.old).size }
    ensures text { IfOk result (λ text. IfSome (modelled_by_both log.old)
        (λ s. text ≡ subtree_text (subtree_of H.hash s start end size))) }
    ensures stops { IfErr result (λ stop. StopsAt (Rose (D.faults (log_tiles_disk log.old))
        (D.faults (log_tiles_disk log.new))) (tiles_name journal.now) (stop_ending stop)) }
    ensures asks { LogAsksTiles log.old log.new }
{
    let Ok(hash) = hash_of(log, start, end) else {
        return Err(Stop::Tiles(journal));
    };
    let Ok(proof) = proof_of(log, start, end, size) else {
        return Err(Stop::Tiles(journal));
    };
    let settings = log.settings();
    Ok(write_subtree(alloc, settings.id.as_bytes(), start, end, &hash, &proof)?)
}

/// The work of `subtree J START END SIZE`.
pub fn subtree<'a, H: TreeHash, D: Disk>(
    alloc: Global,
    journal: &'a str,
    log: &mut Log<H, D, D>,
    start: u64,
    end: u64,
    size: u64,
) -> Result<Answer, Stop<'a>>
    ensures { RepliesOnLog journal.now (subtree_reply H.hash start end size) log.old log.new
        (ending_of result) }
{
    log.law_sound();
    if !subtree_ok(start, end) {
        return Err(refuse(Stopped::NotAllowed, Reason::named("BadSubtree")));
    }
    if log.size() < size {
        return Err(too_many(log.size()));
    }
    if size < end {
        return Err(too_many(size));
    }
    Ok(Answer {
        status: Said::Done,
        text: subtree_request(alloc, journal, log, start, end, size)?,
    })
}
