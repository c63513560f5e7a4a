//! Files that are opened as cosigners', or refused.

use crate::cosigners::{disk_after, held, of_eight, open, sign_all};
use crate::journals::{changed, disk};
use cosigner_core::CosignerOpenError;
use disk_core::MemDisk;
use hss_core::SigBuf;
use journal_core::OpenError;
use mtc_io::Memory;
use std::alloc::Global;
use std::test::Fail;

// The disk with two Advances and a Sign.
fn signed(alloc: Global) -> Result<Option<MemDisk>, Memory> {
    let Some(mut cosigner) = of_eight(alloc, &[])? else {
        return Ok(None);
    };
    let signed = sign_all(&mut cosigner, &mut SigBuf::new()).is_ok();
    let disk = disk_after(cosigner);
    Ok(if signed { Some(disk) } else { None })
}

// How many entries are held by the cosigner on a disk, or why it is refused.
fn held_on(alloc: Global, disk: MemDisk) -> Result<u64, CosignerOpenError> {
    match open(alloc, disk) {
        Ok(cosigner) => Ok(held(&cosigner).0),
        Err(why) => Err(why),
    }
}

// The same of a journal with another byte.
fn held_with(
    alloc: Global,
    journal: &[u8],
    offset: usize,
    byte: u8,
) -> Result<Result<u64, CosignerOpenError>, Memory> {
    let bytes = changed(alloc, journal, offset, byte)?;
    Ok(held_on(alloc, disk(alloc, bytes.as_slice(), &[])?))
}

// Record 0 begins at 16, the Advances at 88 and 136, the Sign at 216.
#[test]
fn a_changed_byte_is_reported(rt: HostRuntime) -> Result<(), Fail> {
    let changes: [(usize, u8, Result<u64, CosignerOpenError>); 17] = [
        (16, 0x80, Ok(8)),
        (16, 0x00, Err(CosignerOpenError::BadRecord(0))),
        (21, 0x12, Err(CosignerOpenError::BadRecord(0))),
        (22, 0x05, Err(CosignerOpenError::BadRecord(0))),
        (23, 0x80, Err(CosignerOpenError::BadRecord(0))),
        (35, 0x07, Err(CosignerOpenError::BadRecord(0))),
        (39, 0x05, Err(CosignerOpenError::BadRecord(0))),
        (88, 0x00, Ok(0)),
        (93, 0x13, Err(CosignerOpenError::BadRecord(1))),
        (101, 0x00, Err(CosignerOpenError::BadRecord(1))),
        (135, 0x20, Err(CosignerOpenError::BadRecord(1))),
        (149, 0x04, Err(CosignerOpenError::BadRecord(2))),
        (183, 0x00, Err(CosignerOpenError::BadRecord(2))),
        (221, 0x11, Err(CosignerOpenError::BadRecord(3))),
        (225, 0x01, Err(CosignerOpenError::BadRecord(3))),
        (233, 0x01, Err(CosignerOpenError::BadRecord(3))),
        (0, 0x00, Err(CosignerOpenError::Open(OpenError::NotJournal))),
    ];
    let journal = signed(rt.alloc())?.ok_or("the journal")?;
    for (offset, byte, wanted) in changes {
        assert!(rt;
            held_with(rt.alloc(), journal.bytes(), offset, byte)? == wanted,
            "byte {offset}"
        );
    }
    Ok(())
}
