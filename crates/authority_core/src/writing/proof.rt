//! The proof of a certificate.

ghost use Rattle.std.specs.Prelude.{◌≡◌, ◌⊎◌, ◌^◌, ◌<◌, ◌≤◌, length, true, IfSome, IfOk, IfErr};
ghost use Rattle.tls_wire.specs.Encoding.{AreHashes};
ghost use Rattle.issuance_log.specs.Words.{LogAsksTiles, log_tiles_disk, modelled_by_both, view_of};
ghost use Rattle.mtc_proof.specs.Proofs.{AreSignatures, IsProof, proof_text};
ghost use Rattle.tree_core.specs.Subtree.{is_subtree};
ghost use Rattle.authority_core.specs.Certificates.{proof_for, TilesCounts};

use crate::writing::error::WriteError;
use disk_core::Disk;
use issuance_log::Log;
use mtc_io::{Bytes, Failed};
use mtc_proof::write_proof;
use std::alloc::Global;
use tree_core::TreeHash;
use tree_proofs::{Path, include};

// The type of a path makes its hashes as long as hashes are: the clause says it, and the call does
// nothing.
fn law_are_hashes(path: &[[u8; 32]])
    requires { length path.now ≤ 128 }
    ensures { AreHashes path.now }
{
    let _few = path.len();
}

/// The proof that the entry at an index is in the subtree `[start, end)` of the log, with these
/// signatures.
pub fn proof_of<H: TreeHash, D: Disk, T: Disk>(
    alloc: Global,
    log: &mut Log<H, D, T>,
    index: u64,
    start: u64,
    end: u64,
    signatures: &[u8],
) -> Result<Bytes, WriteError>
    requires valid { is_subtree start end ≡ true }
    requires from { start ≤ index }
    requires below { index < end }
    requires within { end ≤ (view_of log.old).size }
    requires signed { AreSignatures signatures.now }
    requires short { length signatures.now < 2 ^ 16 }
    ensures proof { IfOk result (λ bytes. IfSome (modelled_by_both log.old) (λ s. bytes
        ≡ proof_text (proof_for H.hash s index start end signatures.now))) }
    ensures fits { IfOk result (λ _. IfSome (modelled_by_both log.old) (λ s.
        IsProof (proof_for H.hash s index start end signatures.now))) }
    ensures few { IfOk result (λ bytes. length bytes ≤ 200000) }
    ensures why { IfErr result
        (λ why. (why ≡ WriteError.TilesFailed) ⊎ (why ≡ WriteError.Memory)) }
    ensures asks { LogAsksTiles log.old log.new }
    ensures cause { TilesCounts (T.faults (log_tiles_disk log.old))
        (T.faults (log_tiles_disk log.new)) result }
{
    let mut path = Path::new();
    match include(log, index, start, end, &mut path) {
        Ok(()) => {
            law_are_hashes(path.as_slice());
            Ok(write_proof(alloc, start, end, &path, signatures)?)
        }
        Err(Failed) => Err(WriteError::TilesFailed),
    }
}
