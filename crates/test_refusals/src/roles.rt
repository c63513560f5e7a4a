//! Refusals of an authority, a cosigner, a relying party and a monitor, and of a command's words.

use crate::shown::shown;
use authority_core::{Field, IssueError, RequestError, RequestListError, SeveralError, WriteError};
use cosigner_core::{ChildError, CosignError, FormError, ReadExportError};
use issuance_log::LogError;
use journal_core::AppendError;
use monitor_core::{MonitorError, TextError};
use mtc_proof::ProofError;
use mtc_words::WordError;
use policy_core::{Key, Refusal, StoreError};
use std::test::Fail;
use tree_core::EvalError;

const FIELDS: &str = "NotBefore\nNotAfter\nDns\nCommonName\nPublicKey\n";

#[test]
fn fields_of_requests(rt: HostRuntime) -> Result<(), Fail> {
    let list = [
        Field::NotBefore,
        Field::NotAfter,
        Field::Dns,
        Field::CommonName,
        Field::PublicKey,
    ];
    assert!(rt; shown(rt.alloc(), &list)?.as_str() == FIELDS);
    Ok(())
}

const REQUEST: &str = "\
NotToml
UnknownKey
Missing Dns
BadValue PublicKey
DatesReversed
NoNames
Memory
";

#[test]
fn requests(rt: HostRuntime) -> Result<(), Fail> {
    let list = [
        RequestError::NotToml,
        RequestError::UnknownKey,
        RequestError::Missing(Field::Dns),
        RequestError::BadValue(Field::PublicKey),
        RequestError::DatesReversed,
        RequestError::NoNames,
        RequestError::Memory,
    ];
    assert!(rt; shown(rt.alloc(), &list)?.as_str() == REQUEST);
    let list = [
        IssueError::Log(LogError::Full),
        IssueError::Log(LogError::Append(AppendError::Full)),
    ];
    assert!(rt; shown(rt.alloc(), &list)?.as_str() == "Full\nJournalFull\n");
    Ok(())
}

const REQUESTS: &str = "\
NotToml
UnknownKey
Missing Requests
BadValue Requests
Missing Dns 3
Memory
";

#[test]
fn lists_of_requests(rt: HostRuntime) -> Result<(), Fail> {
    let list = [
        RequestListError::NotToml,
        RequestListError::UnknownKey,
        RequestListError::Missing,
        RequestListError::BadValue,
        RequestListError::OfRequest(RequestError::Missing(Field::Dns), 3),
        RequestListError::Memory,
    ];
    assert!(rt; shown(rt.alloc(), &list)?.as_str() == REQUESTS);
    Ok(())
}

const WRITE: &str = "\
NoSuchEntry
NullEntry
BadSubtree
Outside
Beyond 8
NotCovered
TooManySignatures
Failed
Failed
Memory
";

#[test]
fn certificates(rt: HostRuntime) -> Result<(), Fail> {
    let list = [
        WriteError::NoSuchEntry,
        WriteError::NullEntry,
        WriteError::BadSubtree,
        WriteError::Outside,
        WriteError::Beyond(8),
        WriteError::NotCovered,
        WriteError::TooManySignatures,
        WriteError::JournalFailed,
        WriteError::TilesFailed,
        WriteError::Memory,
    ];
    assert!(rt; shown(rt.alloc(), &list)?.as_str() == WRITE);
    let list = [
        SeveralError::NothingNew,
        SeveralError::OfEntry(WriteError::Beyond(8), 3),
        SeveralError::JournalFailed,
        SeveralError::TilesFailed,
        SeveralError::Memory,
    ];
    assert!(rt; shown(rt.alloc(), &list)?.as_str() == SEVERAL);
    Ok(())
}

const SEVERAL: &str = "NothingNew\nBeyond 8 3\nFailed\nFailed\nMemory\n";

const STEP: &str = "\
WrongLog
NotNewer 4
BadSubtree
Beyond 4
BadProof
NeedsChild
Exhausted
Broken
JournalFull
Failed
";

#[test]
fn steps(rt: HostRuntime) -> Result<(), Fail> {
    let list = [
        CosignError::WrongLog,
        CosignError::NotNewer(4),
        CosignError::BadSubtree,
        CosignError::Beyond(4),
        CosignError::BadProof,
        CosignError::NeedsChild,
        CosignError::Exhausted,
        CosignError::Append(AppendError::Broken),
        CosignError::Append(AppendError::Full),
        CosignError::Append(AppendError::Failed),
    ];
    assert!(rt; shown(rt.alloc(), &list)?.as_str() == STEP);
    Ok(())
}

const CHILD: &str = "\
OneLevel
ChildLeft 32
Exhausted
Broken
JournalFull
Failed
Memory
";

#[test]
fn children(rt: HostRuntime) -> Result<(), Fail> {
    let list = [
        ChildError::OneLevel,
        ChildError::ChildLeft(32),
        ChildError::Exhausted,
        ChildError::Append(AppendError::Broken),
        ChildError::Append(AppendError::Full),
        ChildError::Append(AppendError::Failed),
        ChildError::Memory,
    ];
    assert!(rt; shown(rt.alloc(), &list)?.as_str() == CHILD);
    Ok(())
}

#[test]
fn exports_and_forms(rt: HostRuntime) -> Result<(), Fail> {
    let list = [
        ReadExportError::Short(5),
        ReadExportError::BadKey,
        ReadExportError::BadId,
        ReadExportError::BadRecord(6),
        ReadExportError::Memory,
    ];
    let words = "Short 5\nBadKey\nBadId\nBadRecord 6\nMemory\n";
    assert!(rt; shown(rt.alloc(), &list)?.as_str() == words);
    let list = [
        FormError::Short(5),
        FormError::HashLength,
        FormError::Trailing,
        FormError::EmptyId,
    ];
    let words = "Short 5\nHashLength\nTrailing\nEmptyId\n";
    assert!(rt; shown(rt.alloc(), &list)?.as_str() == words);
    Ok(())
}

const KEYS: &str = "\
LogId
AlgorithmFrom
CosignerId
CosignerKey
Count
Cosigners
Start
End
Hash
Table
";

#[test]
fn keys_of_stores(rt: HostRuntime) -> Result<(), Fail> {
    let list = [
        Key::LogId,
        Key::AlgorithmFrom,
        Key::CosignerId,
        Key::CosignerKey,
        Key::Count,
        Key::Cosigners,
        Key::Start,
        Key::End,
        Key::Hash,
        Key::Table,
    ];
    assert!(rt; shown(rt.alloc(), &list)?.as_str() == KEYS);
    Ok(())
}

const STORE: &str = "\
NotToml
UnknownKey
Missing LogId
BadValue Cosigners
RepeatedId
RepeatedSubtree
BadRange
Memory
";

#[test]
fn stores(rt: HostRuntime) -> Result<(), Fail> {
    let list = [
        StoreError::NotToml,
        StoreError::UnknownKey,
        StoreError::Missing(Key::LogId),
        StoreError::BadValue(Key::Cosigners),
        StoreError::RepeatedId,
        StoreError::RepeatedSubtree,
        StoreError::BadRange,
        StoreError::Memory,
    ];
    assert!(rt; shown(rt.alloc(), &list)?.as_str() == STORE);
    Ok(())
}

const REFUSAL: &str = "\
Algorithm
UnknownLog
NotYet
Expired
UnknownCritical
Revoked
HashLength
ProofShape Outside
LandmarkDiffers
TooFewCosigners 2
";

#[test]
fn judgements(rt: HostRuntime) -> Result<(), Fail> {
    let list = [
        Refusal::Algorithm,
        Refusal::UnknownLog,
        Refusal::NotYet,
        Refusal::Expired,
        Refusal::UnknownCritical,
        Refusal::Revoked,
        Refusal::ProofGrammar(ProofError::HashLength),
        Refusal::ProofShape(EvalError::Outside),
        Refusal::LandmarkDiffers,
        Refusal::TooFewCosigners(2),
    ];
    assert!(rt; shown(rt.alloc(), &list)?.as_str() == REFUSAL);
    Ok(())
}

const RUN: &str = "\
WrongLog
NotNewer 4
ItemCount 3 5
BadProof
RootDiffers \
0000000000000000000000000000000000000000000000000000000000000000 \
abababababababababababababababababababababababababababababababab
Memory
";

#[test]
fn runs_of_monitors(rt: HostRuntime) -> Result<(), Fail> {
    let list = [
        MonitorError::WrongLog,
        MonitorError::NotNewer(4),
        MonitorError::ItemCount { have: 3, want: 5 },
        MonitorError::BadProof,
        MonitorError::RootDiffers {
            wanted: [0; 32],
            found: [0xAB; 32],
        },
        MonitorError::Memory,
    ];
    assert!(rt; shown(rt.alloc(), &list)?.as_str() == RUN);
    let list = [TextError::BadLine(2), TextError::Memory];
    assert!(rt; shown(rt.alloc(), &list)?.as_str() == "BadLine 2\nMemory\n");
    Ok(())
}

const WORDS: &str = "\
NoCommand
UnknownCommand
BadWord 3
WrongCount 1 2
TilesName 0
BadNumber 4
BadId 5
Memory
";

#[test]
fn words_of_commands(rt: HostRuntime) -> Result<(), Fail> {
    let list = [
        WordError::NoCommand,
        WordError::UnknownCommand,
        WordError::BadWord(3),
        WordError::WrongCount { have: 1, want: 2 },
        WordError::TilesName(0),
        WordError::BadNumber(4),
        WordError::BadId(5),
        WordError::Memory,
    ];
    assert!(rt; shown(rt.alloc(), &list)?.as_str() == WORDS);
    Ok(())
}
