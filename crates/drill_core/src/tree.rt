//! Hashes and proofs over the entries of a log.

ghost use Rattle.std.specs.Prelude.{◌≡◌, ◌≤◌, true, length, IfOk};
ghost use Rattle.tree_core.specs.Path.{part_of};
ghost use Rattle.tree_core.specs.Subtree.{is_subtree};
ghost use Rattle.tree_core.specs.Tree.{tree_hash};
ghost use Rattle.issuance_log.specs.Words.{LogStays};
ghost use Rattle.drill_core.specs.Parties.{log_seen};

use crate::log_party::size_of;
use disk_core::MemDisk;
use issuance_log::Log;
use mtc_io::{Failed, Memory};
use tree_core::TreeHash;
use tree_proofs::{Path, consist, node_of};

/// The hash of a subtree.
pub(crate) fn hash_of<H: TreeHash>(
    log: &mut Log<H, MemDisk, MemDisk>,
    start: u64,
    end: u64,
) -> Result<[u8; 32], Memory>
    requires valid { is_subtree start end ≡ true }
    requires within { end ≤ length (log_seen log.old).entries }
    ensures hash { IfOk result (λ x. x
        ≡ tree_hash H.hash (part_of (log_seen log.old).entries start end)) }
    ensures stays { LogStays log.old log.new }
{
    log.law_sound();
    match node_of(log, start, end) {
        Ok(hash) => Ok(hash),
        Err(Failed) => Err(Memory),
    }
}

// The tree hash of all entries.
fn root_of<H: TreeHash>(log: &mut Log<H, MemDisk, MemDisk>) -> Result<[u8; 32], Memory>
    ensures hash { IfOk result (λ x. x ≡ tree_hash H.hash (log_seen log.old).entries) }
    ensures stays { LogStays log.old log.new }
{
    let size = size_of(log);
    hash_of(log, 0, size)
}

// The consistency proof of the first entries, of which there may be none.
fn proof_from<H: TreeHash>(log: &mut Log<H, MemDisk, MemDisk>, held: u64) -> Result<Path, Memory>
    requires { held ≤ length (log_seen log.old).entries }
    ensures { LogStays log.old log.new }
{
    log.law_sound();
    let mut proof = Path::new();
    if held == 0 {
        return Ok(proof);
    }
    let size = size_of(log);
    match consist(log, 0, held, size, &mut proof) {
        Ok(()) => Ok(proof),
        Err(Failed) => Err(Memory),
    }
}

/// The tree hash of all entries, and the consistency proof of the first ones.
pub(crate) fn root_and_proof<H: TreeHash>(
    log: &mut Log<H, MemDisk, MemDisk>,
    held: u64,
) -> Result<([u8; 32], Path), Memory>
    requires { held ≤ length (log_seen log.old).entries }
    ensures hash { IfOk result (λ x. x.0 ≡ tree_hash H.hash (log_seen log.old).entries) }
    ensures stays { LogStays log.old log.new }
{
    let root = root_of(log)?;
    let proof = proof_from(log, held)?;
    Ok((root, proof))
}
