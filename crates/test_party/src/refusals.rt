//! Requests that are refused, each at its turn in the order of the tests.

use crate::cosigners::{
    MemCosigner, advance_to_4, cosigner_in, disk_after, held, is_known, of_eight, sign_32,
    sign_all, sign_two,
};
use crate::known::{
    JOURNALS, LAST_JOURNAL, LOG, NEW, NODE_4_TO_6, NODE_4_TO_8, NODE_6_TO_8, OTHER, ROOT_OF_4,
    ROOT_OF_8,
};
use cosigner_core::{AdvanceRequest, CosignError, SubtreeRequest};
use hss_core::SigBuf;
use journal_core::AppendError;
use mtc_io::Memory;
use std::alloc::Global;
use std::test::Fail;

fn asked_to_advance(
    cosigner: &mut MemCosigner,
    request: &AdvanceRequest<'_>,
) -> Option<CosignError> {
    cosigner.advance(request).err()
}

// What a cosigner answers that holds the eight entries, and still does.
fn advance(cosigner: &mut MemCosigner, request: &AdvanceRequest<'_>) -> Option<CosignError> {
    let answer = asked_to_advance(cosigner, request);
    if held(cosigner) == (8, ROOT_OF_8) {
        answer
    } else {
        None
    }
}

// The same of a request to sign, which leaves no signature. The buffer held another one.
fn cosign(cosigner: &mut MemCosigner, request: &SubtreeRequest<'_>) -> Option<CosignError> {
    let mut out = SigBuf::new();
    out.append(&[1, 2, 3]);
    let answer = cosigner.cosign(request, &mut out);
    if out.as_slice().is_empty() {
        answer.err()
    } else {
        None
    }
}

fn fails_to_sign(cosigner: &mut MemCosigner) -> bool {
    let failed = Err(CosignError::Append(AppendError::Failed));
    sign_all(cosigner, &mut SigBuf::new()) == failed
}

// The cosigner that holds the eight entries, also with an append that has failed: call 12 of its
// disk is the next append's first.
fn ready(alloc: Global, broken: bool) -> Result<Option<MemCosigner>, Memory> {
    if !broken {
        return of_eight(alloc, &[]);
    }
    let Some(mut cosigner) = of_eight(alloc, &[12])? else {
        return Ok(None);
    };
    let failed = fails_to_sign(&mut cosigner);
    Ok(if failed { Some(cosigner) } else { None })
}

// Whether a journal is that of this cosigner.
fn is_kept(cosigner: MemCosigner) -> bool {
    is_known(disk_after(cosigner).bytes(), JOURNALS[1])
}

// Whether it is that of the new one.
fn is_new(cosigner: MemCosigner) -> bool {
    disk_after(cosigner).bytes() == NEW.as_slice()
}

#[test]
fn an_advance_is_refused_by_the_first_test(rt: HostRuntime) -> Result<(), Fail> {
    let cases: [(&[u8], u64, &[[u8; 32]], CosignError); 6] = [
        (&OTHER, 8, &[], CosignError::WrongLog),
        (&LOG[..3], 9, &[], CosignError::WrongLog),
        (&LOG, 8, &[], CosignError::NotNewer(8)),
        (&LOG, 0, &[NODE_4_TO_8], CosignError::NotNewer(8)),
        (&LOG, 9, &[], CosignError::BadProof),
        (&LOG, 16, &[NODE_4_TO_8], CosignError::BadProof),
    ];
    for broken in [false, true] {
        let mut cosigner = ready(rt.alloc(), broken)?.ok_or("the cosigner")?;
        for (log, size, proof, wanted) in cases {
            let request = AdvanceRequest {
                log,
                size,
                root: ROOT_OF_8,
                proof,
            };
            assert!(rt; advance(&mut cosigner, &request) == Some(wanted), "{size}");
        }
        assert!(rt; is_kept(cosigner));
    }
    Ok(())
}

#[test]
fn a_subtree_is_refused_by_the_first_test(rt: HostRuntime) -> Result<(), Fail> {
    let cases: [(&[u8], u64, u64, &[[u8; 32]], CosignError); 8] = [
        (&OTHER, 1, 3, &[], CosignError::WrongLog),
        (&LOG, 1, 3, &[], CosignError::BadSubtree),
        (&LOG, 8, 8, &[], CosignError::BadSubtree),
        (&LOG, 9, 12, &[], CosignError::BadSubtree),
        (&LOG, 0, 16, &[], CosignError::Beyond(8)),
        (&LOG, 8, 9, &[], CosignError::Beyond(8)),
        (&LOG, 0, 8, &[], CosignError::BadProof),
        (&LOG, 4, 6, &[NODE_6_TO_8], CosignError::BadProof),
    ];
    for broken in [false, true] {
        let mut cosigner = ready(rt.alloc(), broken)?.ok_or("the cosigner")?;
        for (log, start, end, proof, wanted) in cases {
            let request = SubtreeRequest {
                log,
                start,
                end,
                hash: NODE_4_TO_6,
                proof,
            };
            assert!(rt;
                cosign(&mut cosigner, &request) == Some(wanted),
                "{start} to {end}"
            );
        }
        assert!(rt; is_kept(cosigner));
    }
    Ok(())
}

// What a cosigner that holds nothing answers to a first checkpoint with a proof.
fn first_with_proof(alloc: Global) -> Result<Option<CosignError>, Memory> {
    let Some(mut cosigner) = cosigner_in(alloc, &NEW, &[])? else {
        return Ok(None);
    };
    let request = AdvanceRequest {
        log: &LOG,
        size: 4,
        root: ROOT_OF_4,
        proof: &[NODE_4_TO_8],
    };
    let answer = asked_to_advance(&mut cosigner, &request);
    Ok(if is_new(cosigner) { answer } else { None })
}

#[test]
fn a_first_checkpoint_has_no_proof(rt: HostRuntime) -> Result<(), Fail> {
    assert!(rt; first_with_proof(rt.alloc())? == Some(CosignError::BadProof));
    Ok(())
}

// What a journal that is broken by the Advance to four entries answers to the same one again. It is
// as it was, so a call that fails first leaves it so.
fn reported_to_advance(alloc: Global) -> Result<Option<CosignError>, Memory> {
    let Some(mut cosigner) = cosigner_in(alloc, &NEW, &[4])? else {
        return Ok(None);
    };
    let first = advance_to_4(&mut cosigner).err();
    let again = advance_to_4(&mut cosigner).err();
    let failed = first == Some(CosignError::Append(AppendError::Failed));
    Ok(if is_new(cosigner) && failed {
        again
    } else {
        None
    })
}

// What one that is broken by a first Sign answers to another request that passes its tests.
fn reported_to_sign(alloc: Global) -> Result<Option<CosignError>, Memory> {
    let Some(mut cosigner) = ready(alloc, true)? else {
        return Ok(None);
    };
    let again = sign_two(&mut cosigner, &mut SigBuf::new()).err();
    Ok(if is_kept(cosigner) { again } else { None })
}

#[test]
fn a_failed_append_is_reported_last(rt: HostRuntime) -> Result<(), Fail> {
    let broken = Some(CosignError::Append(AppendError::Broken));
    assert!(rt; reported_to_advance(rt.alloc())? == broken);
    assert!(rt; reported_to_sign(rt.alloc())? == broken);
    Ok(())
}

// What a cosigner answers to a request with a wrong proof, and to a right one.
fn reported_after_the_last(
    cosigner: &mut MemCosigner,
) -> (Option<CosignError>, Option<CosignError>) {
    let request = SubtreeRequest {
        log: &LOG,
        start: 0,
        end: 8,
        hash: ROOT_OF_4,
        proof: &[],
    };
    let wrong = cosign(cosigner, &request);
    (wrong, sign_all(cosigner, &mut SigBuf::new()).err())
}

// The same of one whose one-time keys have all signed. The second Sign is that of two entries.
fn exhausted(alloc: Global) -> Result<Option<(Option<CosignError>, Option<CosignError>)>, Memory> {
    let Some(mut cosigner) = of_eight(alloc, &[])? else {
        return Ok(None);
    };
    if !sign_32(&mut cosigner, &mut SigBuf::new()) {
        return Ok(None);
    }
    let reported = reported_after_the_last(&mut cosigner);
    let kept = is_known(disk_after(cosigner).bytes(), LAST_JOURNAL);
    Ok(if kept { Some(reported) } else { None })
}

#[test]
fn exhaustion_is_reported_after_the_proof(rt: HostRuntime) -> Result<(), Fail> {
    let wanted = (Some(CosignError::BadProof), Some(CosignError::Exhausted));
    assert!(rt; exhausted(rt.alloc())? == Some(wanted));
    Ok(())
}
