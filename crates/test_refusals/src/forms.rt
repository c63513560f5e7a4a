//! Refusals of bytes and texts that aren't in their form.

use crate::shown::shown;
use der_core::{CertError, DerError};
use entry_list::ItemsError;
use landmarks::ListError;
use lms_core::SigError;
use log_entry::EntryError;
use mtc_io::{Failed, Memory, ReadError};
use mtc_proof::ProofError;
use std::test::Fail;
use tls_wire::{AnchorBytesError, AnchorError, HashesError, Short};
use toml_fields::TreeError;
use tree_core::EvalError;
use tree_proofs::ConsistError;

const DER: &str = "\
Truncated 1
LongForm 2
HighTag 3
WrongTag 4
BadInteger 5
BadBool 6
BadOid 7
BadBits 8
SetOrder 9
Trailing 10
";

#[test]
fn elements(rt: HostRuntime) -> Result<(), Fail> {
    let list = [
        DerError::Truncated(1),
        DerError::LongForm(2),
        DerError::HighTag(3),
        DerError::WrongTag(4),
        DerError::BadInteger(5),
        DerError::BadBool(6),
        DerError::BadOid(7),
        DerError::BadBits(8),
        DerError::SetOrder(9),
        DerError::Trailing(10),
    ];
    assert!(rt; shown(rt.alloc(), &list)?.as_str() == DER);
    Ok(())
}

const CERT: &str = "\
Truncated 231
BadVersion
BadSerial
BadTime
AlgorithmsDiffer
RepeatedExtension
UniqueId
BadExtension
BadName
";

#[test]
fn certificates(rt: HostRuntime) -> Result<(), Fail> {
    let list = [
        CertError::Der(DerError::Truncated(231)),
        CertError::BadVersion,
        CertError::BadSerial,
        CertError::BadTime,
        CertError::AlgorithmsDiffer,
        CertError::RepeatedExtension,
        CertError::UniqueId,
        CertError::BadExtension,
        CertError::BadName,
    ];
    assert!(rt; shown(rt.alloc(), &list)?.as_str() == CERT);
    Ok(())
}

const ENTRY: &str = "Short\nUnknownType 65535\nBadVersion\nBadHashLength\nNullHasBody\n";

#[test]
fn entries(rt: HostRuntime) -> Result<(), Fail> {
    let list = [
        EntryError::Short,
        EntryError::UnknownType(65_535),
        EntryError::Body(CertError::BadVersion),
        EntryError::BadHashLength,
        EntryError::NullHasBody,
    ];
    assert!(rt; shown(rt.alloc(), &list)?.as_str() == ENTRY);
    let list = [
        ItemsError::Short(7),
        ItemsError::BadItem(8),
        ItemsError::Memory,
    ];
    assert!(rt; shown(rt.alloc(), &list)?.as_str() == "Short 7\nBadItem 8\nMemory\n");
    Ok(())
}

#[test]
fn proofs(rt: HostRuntime) -> Result<(), Fail> {
    let list = [
        ProofError::Short(18_446_744_073_709_551_615),
        ProofError::HashLength,
        ProofError::Trailing,
        ProofError::EmptyId(0),
    ];
    let words = "Short 18446744073709551615\nHashLength\nTrailing\nEmptyId 0\n";
    assert!(rt; shown(rt.alloc(), &list)?.as_str() == words);
    let list = [
        EvalError::BadSubtree,
        EvalError::Outside,
        EvalError::WrongLength,
    ];
    assert!(rt; shown(rt.alloc(), &list)?.as_str() == "BadSubtree\nOutside\nWrongLength\n");
    let list = [
        ConsistError::BadSubtree,
        ConsistError::Beyond,
        ConsistError::WrongLength,
        ConsistError::WrongNode,
        ConsistError::WrongRoot,
    ];
    let words = "BadSubtree\nBeyond\nWrongLength\nWrongNode\nWrongRoot\n";
    assert!(rt; shown(rt.alloc(), &list)?.as_str() == words);
    Ok(())
}

#[test]
fn signatures(rt: HostRuntime) -> Result<(), Fail> {
    let list = [
        SigError::BadKey,
        SigError::BadLength,
        SigError::TypeDiffers,
        SigError::BadIndex,
        SigError::WrongRoot,
    ];
    let words = "BadKey\nBadLength\nTypeDiffers\nBadIndex\nWrongRoot\n";
    assert!(rt; shown(rt.alloc(), &list)?.as_str() == words);
    Ok(())
}

#[test]
fn lists_of_landmarks(rt: HostRuntime) -> Result<(), Fail> {
    let list = [
        ListError::BadLine(0),
        ListError::NotFalling(1),
        ListError::TooManyActive,
        ListError::BeyondLog,
        ListError::Memory,
    ];
    let words = "BadLine 0\nNotFalling 1\nTooManyActive\nBeyondLog\nMemory\n";
    assert!(rt; shown(rt.alloc(), &list)?.as_str() == words);
    Ok(())
}

const ANCHOR: &str = "Empty\nNotDecimal 6\nLeadingZero 6\nTooLong\nArcTooLarge 6\nMemory\n";

const ANCHOR_BYTES: &str = "Empty\nPadding 1\nUnfinished\nTooLong\nArcTooLarge 1\nMemory\n";

#[test]
fn anchor_ids(rt: HostRuntime) -> Result<(), Fail> {
    let list = [
        AnchorError::Empty,
        AnchorError::NotDecimal(6),
        AnchorError::LeadingZero(6),
        AnchorError::TooLong,
        AnchorError::ArcTooLarge(6),
        AnchorError::Memory,
    ];
    assert!(rt; shown(rt.alloc(), &list)?.as_str() == ANCHOR);
    let list = [
        AnchorBytesError::Empty,
        AnchorBytesError::Padding(1),
        AnchorBytesError::Unfinished,
        AnchorBytesError::TooLong,
        AnchorBytesError::ArcTooLarge(1),
        AnchorBytesError::Memory,
    ];
    assert!(rt; shown(rt.alloc(), &list)?.as_str() == ANCHOR_BYTES);
    Ok(())
}

#[test]
fn vectors_of_hashes(rt: HostRuntime) -> Result<(), Fail> {
    let short = Short { place: 9 };
    let list = [HashesError::Short(short), HashesError::HashLength];
    assert!(rt; shown(rt.alloc(), &[short])?.as_str() == "Short 9\n");
    assert!(rt; shown(rt.alloc(), &list)?.as_str() == "Short 9\nHashLength\n");
    Ok(())
}

#[test]
fn inputs(rt: HostRuntime) -> Result<(), Fail> {
    assert!(rt; shown(rt.alloc(), &[Failed])?.as_str() == "Failed\n");
    assert!(rt; shown(rt.alloc(), &[Memory])?.as_str() == "Memory\n");
    let list = [ReadError::Failed, ReadError::TooLong, ReadError::Memory];
    assert!(rt; shown(rt.alloc(), &list)?.as_str() == "Failed\nTooLong\nMemory\n");
    let list = [TreeError::NotToml, TreeError::Memory];
    assert!(rt; shown(rt.alloc(), &list)?.as_str() == "NotToml\nMemory\n");
    Ok(())
}
