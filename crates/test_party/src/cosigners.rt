//! Cosigners over disks in memory, for the cases of this crate.

use crate::journals::disk;
use crate::known::{
    Known, LOG, NEW, NODE_4_TO_6, NODE_4_TO_8, NODE_6_TO_8, PUBLIC, ROOT_OF_4, ROOT_OF_8,
};
use cosigner_core::{
    AdvanceRequest, CosignError, Cosigner, CosignerOpenError, CosignerSettings, SubtreeRequest,
    create,
};
use disk_core::{Disk, MemDisk};
use hss_core::{LmsType, OtsType, SECRET_LEN, Secret, SigBuf};
use journal_core::{Refused, StartError};
use mtc_io::Memory;
use std::alloc::Global;
use tls_wire::AnchorId;
use tree_core::{Sha, TreeHash};

pub(crate) type MemCosigner = Cosigner<Sha, MemDisk>;

pub(crate) fn open(alloc: Global, disk: MemDisk) -> Result<MemCosigner, CosignerOpenError> {
    match MemCosigner::open(alloc, disk) {
        Ok(cosigner) => Ok(cosigner),
        Err(Refused { why, .. }) => Err(why),
    }
}

/// The cosigner on a disk, where there is one.
pub(crate) fn opened(alloc: Global, disk: MemDisk) -> Option<MemCosigner> {
    open(alloc, disk).ok()
}

/// The cosigner in these bytes, over a disk of which these calls fail, where it is opened.
pub(crate) fn cosigner_in(
    alloc: Global,
    bytes: &[u8],
    failing: &[u64],
) -> Result<Option<MemCosigner>, Memory> {
    Ok(opened(alloc, disk(alloc, bytes, failing)?))
}

/// The disk of a cosigner.
pub(crate) fn disk_after(cosigner: MemCosigner) -> MemDisk {
    cosigner.into_disk()
}

/// How many entries a cosigner holds, and their root.
pub(crate) fn held(cosigner: &MemCosigner) -> (u64, [u8; 32]) {
    cosigner.held()
}

/// Whether a cosigner has the known key.
pub(crate) fn has_the_key(cosigner: &MemCosigner) -> bool {
    cosigner.public() == PUBLIC
}

fn id(alloc: Global, text: &str) -> Result<AnchorId, Memory> {
    match AnchorId::from_text(alloc, text) {
        Ok(id) => Ok(id),
        Err(_) => Err(Memory),
    }
}

/// The ids of cosigner 32473.2 and of its log 32473.1.
pub(crate) fn ids(alloc: Global) -> Result<(AnchorId, AnchorId), Memory> {
    let log = id(alloc, "32473.1")?;
    Ok((id(alloc, "32473.2")?, log))
}

/// 16 bytes of 2 are the identifier, and 32 of 7 the seed.
pub(crate) fn secret() -> Option<Secret> {
    let mut bytes = [7; SECRET_LEN];
    bytes[..16].copy_from_slice(&[2; 16]);
    Secret::from_slice(&bytes)
}

/// Begins the journal of that cosigner, of height 5 and width 4.
pub(crate) fn begin<D: Disk + Drop>(
    alloc: Global,
    disk: D,
) -> Result<(D, Option<StartError>), Memory> {
    let secret = secret().ok_or(Memory)?;
    let (id, log) = ids(alloc)?;
    let settings = CosignerSettings {
        id,
        log,
        lms: LmsType::H5,
        low: None,
        ots: OtsType::W4,
    };
    Ok(match create(alloc, disk, &settings, &secret) {
        Ok(journal) => (journal.into_disk(), None),
        Err(Refused { disk, why }) => (disk, Some(why)),
    })
}

/// So many bytes with this hash.
pub(crate) fn is_known(bytes: &[u8], known: Known) -> bool {
    let mut running = Sha::begin();
    running.add(bytes);
    bytes.len() == known.0 && running.end() == known.1
}

/// Holds the first four entries of the log.
pub(crate) fn advance_to_4<D: Disk>(cosigner: &mut Cosigner<Sha, D>) -> Result<(), CosignError> {
    cosigner.advance(&AdvanceRequest {
        log: &LOG,
        size: 4,
        root: ROOT_OF_4,
        proof: &[],
    })
}

/// Holds all eight.
pub(crate) fn advance_to_8<D: Disk>(cosigner: &mut Cosigner<Sha, D>) -> Result<(), CosignError> {
    cosigner.advance(&AdvanceRequest {
        log: &LOG,
        size: 8,
        root: ROOT_OF_8,
        proof: &[NODE_4_TO_8],
    })
}

/// Signs all eight.
pub(crate) fn sign_all<D: Disk>(
    cosigner: &mut Cosigner<Sha, D>,
    out: &mut SigBuf,
) -> Result<(), CosignError> {
    let request = SubtreeRequest {
        log: &LOG,
        start: 0,
        end: 8,
        hash: ROOT_OF_8,
        proof: &[],
    };
    cosigner.cosign(&request, out)
}

/// Signs the fifth and the sixth.
pub(crate) fn sign_two(cosigner: &mut MemCosigner, out: &mut SigBuf) -> Result<(), CosignError> {
    let request = SubtreeRequest {
        log: &LOG,
        start: 4,
        end: 6,
        hash: NODE_4_TO_6,
        proof: &[NODE_6_TO_8, ROOT_OF_4],
    };
    cosigner.cosign(&request, out)
}

fn advance_twice(cosigner: &mut MemCosigner) -> bool {
    advance_to_4(cosigner).is_ok() && advance_to_8(cosigner).is_ok()
}

/// The cosigner that holds all eight entries, over a disk of which these calls fail. None where it
/// is not opened, or does not follow.
pub(crate) fn of_eight(alloc: Global, failing: &[u64]) -> Result<Option<MemCosigner>, Memory> {
    let Some(mut cosigner) = cosigner_in(alloc, &NEW, failing)? else {
        return Ok(None);
    };
    let held = advance_twice(&mut cosigner);
    Ok(if held { Some(cosigner) } else { None })
}

/// Signs with each of the 32 one-time keys, the second time two entries: whether each signed.
pub(crate) fn sign_32(cosigner: &mut MemCosigner, out: &mut SigBuf) -> bool {
    for index in 0..32 {
        let answer = if index == 1 {
            sign_two(cosigner, out)
        } else {
            sign_all(cosigner, out)
        };
        if answer.is_err() {
            return false;
        }
    }
    true
}

/// The number of the one-time key in a signature of one level.
pub(crate) fn index_of(signature: &[u8]) -> Option<u32> {
    let word = signature.get(4..8)?;
    let mut index = 0;
    for byte in word {
        index = index << 8 | *byte as u32;
    }
    Some(index)
}
