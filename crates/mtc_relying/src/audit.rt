//! The command `audit`: what is accepted of a certificate is compared with the entries of a log and
//! the export of a cosigner.

ghost use Rattle.std.specs.Prelude.{◌≡◌, ◌<◌, ◌^◌, true, [], ◌∷◌, IfOk, IfSome};
ghost use Rattle.byte_formats.specs.Readings.{Gives};
ghost use Rattle.byte_formats.specs.Types.{Text};
ghost use Rattle.cert_fields.specs.Views.{parts};
ghost use Rattle.entry_list.specs.Reading.{items_in};
ghost use Rattle.entry_list.specs.Reasons.{items_fault_text};
ghost use Rattle.mtc_words.specs.Commands.{is_time};
ghost use Rattle.mtc_command.specs.Answers.{ending_of};
ghost use Rattle.mtc_command.specs.Served.{HasAnswered};
ghost use Rattle.mtc_command.specs.Steps.{Outcome, with_form};
ghost use Rattle.mtc_proof.specs.Views.{proof_parts};
ghost use Rattle.cosigner_steps.specs.Steps.{AreSteps};
ghost use Rattle.world_core.specs.Audit.{WasJudged};
ghost use Rattle.mtc_relying.specs.AuditOutcome.{accepted_in, audit_cert_says, audit_export_says};
ghost use Rattle.mtc_relying.specs.AuditOutcome.{audit_outcome, audit_store_says};
ghost use Rattle.mtc_relying.specs.Compared.{CanBeAudited, IfClaims, LeavesOf};
ghost use Rattle.mtc_relying.specs.Views.{accepted_parts, input_file};

use crate::accepted::AcceptedCert;
use crate::claim::{Claim, Judged};
use crate::comparing::compared;
use crate::input::Input;
use crate::reasons::store_reason;
use crate::verify::verdict_answer;
use cert_fields::parse;
use cosigner_core::{Export, ReadExportError};
use cosigner_steps::read_steps;
use mtc_command::{Answer, INPUT_LIMIT, LIST_LIMIT, Stop, Stopped, read_input, refuse_file};
use mtc_io::Bytes;
use mtc_lines::export_reason;
use mtc_proof::read_proof;
use mtc_room::Room;
use mtc_streams::fold_input;
use policy_core::{Refusal, StoreError, ValidStore};
use relying_party::judge_cert;
use std::alloc::Global;
use tree_core::TreeHash;

// Judges a certificate, and gives the parts of one that is accepted.
#[tactic(auto, unfolding(policy_core::specs::Judgement::judgement))]
fn accepted_in<'b, H: TreeHash>(
    bytes: &'b [u8],
    store: &ValidStore,
    now: i64,
) -> Result<AcceptedCert<'b>, Refusal>
    ensures exact { Gives accepted_parts result (accepted_in H.hash bytes.now store.now now) }
    ensures judged { IfOk result (λ a. WasJudged H.hash store.now (parts a.cert)
        (proof_parts a.proof) a.accepted) }
{
    let cert = parse(bytes)?;
    let accepted = judge_cert::<H>(&cert, store, now)?;
    let proof = read_proof(cert.proof)?;
    Ok(AcceptedCert {
        accepted,
        cert,
        proof,
    })
}

// Judges the certificate.
fn cert_judged<'a, 'b, H: TreeHash>(
    alloc: Global,
    cert: Input<'a, 'b>,
    now: u64,
    store: ValidStore,
    kept: Option<Export>,
) -> Judged<'a, 'b>
    requires time { is_time now ≡ true }
    requires allowed { IfSome kept (λ e. AreSteps H.hash e.steps) }
    ensures claims { IfClaims (CanBeAudited H.hash) result }
    ensures leaves { (entries : Text) (wanted : Text → Outcome)
        → ((bytes : Text) → wanted bytes ≡ with_form items_fault_text entries
        (items_in H.hash bytes)
        (λ items. audit_cert_says H.hash (input_file cert.entry) now store items kept))
        → LeavesOf H.hash entries wanted result }
{
    match accepted_in::<H>(cert.bytes, &store, now as i64) {
        Ok(accepted) => Judged::Claims(Claim {
            accepted,
            store,
            kept,
        }),
        Err(why) => Judged::Ends(verdict_answer(alloc, cert.name, Err(why))),
    }
}

// Reads the export, and then judges the certificate.
fn export_judged<'a, 'b, H: TreeHash>(
    alloc: Global,
    cert: Input<'a, 'b>,
    now: u64,
    export: Input<'a, '_>,
    store: ValidStore,
) -> Judged<'a, 'b>
    requires { is_time now ≡ true }
    ensures claims { IfClaims (CanBeAudited H.hash) result }
    ensures leaves { (entries : Text) (wanted : Text → Outcome)
        → ((bytes : Text) → wanted bytes ≡ with_form items_fault_text entries
        (items_in H.hash bytes)
        (audit_export_says H.hash (input_file cert.entry) now (input_file export.entry) store))
        → LeavesOf H.hash entries wanted result }
{
    match read_steps::<H>(alloc, export.bytes) {
        Ok(kept) => cert_judged::<H>(alloc, cert, now, store, kept),
        Err(ReadExportError::Memory) => Judged::Ends(Err(Stop::Memory)),
        Err(why) => {
            let reason = export_reason(why);
            Judged::Ends(Err(refuse_file(Stopped::BadForm, export.name, reason)))
        }
    }
}

// Reads the store, then the export, and so on.
fn store_judged<'a, 'b, H: TreeHash>(
    alloc: Global,
    cert: Input<'a, 'b>,
    store: Input<'a, '_>,
    now: u64,
    export: Input<'a, '_>,
) -> Judged<'a, 'b>
    requires { is_time now ≡ true }
    ensures claims { IfClaims (CanBeAudited H.hash) result }
    ensures leaves { (entries : Text) → LeavesOf H.hash entries (λ bytes. audit_store_says H.hash
        (input_file cert.entry) (input_file store.entry) now
        (record { name = entries; text = bytes }) (input_file export.entry)) result }
{
    match ValidStore::read(alloc, store.bytes) {
        Ok(trusted) => export_judged::<H>(alloc, cert, now, export, trusted),
        Err(StoreError::Memory) => Judged::BadStore(Stop::Memory),
        Err(why) => {
            let reason = store_reason(why);
            Judged::BadStore(refuse_file(Stopped::BadForm, store.name, reason))
        }
    }
}

// A file with its bytes.
fn input<'a, 'b>(name: &'a str, bytes: &'b Bytes) -> Input<'a, 'b>
    ensures { input_file result ≡ record { name = name.now; text = bytes.now } }
{
    Input {
        name,
        bytes: bytes.as_slice(),
    }
}

/// The command `audit CERT STORE NOW ENTRIES EXPORT`. The time is in seconds since
/// 1970-01-01T00:00:00Z. The answer is as if all files were read in the order of the arguments
/// before any is tested, and then the store, the entries and the export were tested, and the
/// certificate judged last. The entries are read after the other files, as a stream. Only where two
/// strings have to be shown they are read once more, into memory.
pub fn audit<'a, H: TreeHash, R: Room>(
    alloc: Global,
    room: &mut R,
    cert: &'a str,
    store: &'a str,
    now: u64,
    entries: &'a str,
    export: &'a str,
) -> Result<Answer, Stop<'a>>
    requires opened { R.opened room.old < 2 ^ 32 }
    requires time { is_time now ≡ true }
    ensures { HasAnswered R.Room R.Dsk.Disk
        (cert.now ∷ store.now ∷ entries.now ∷ export.now ∷ [])
        (audit_outcome H.hash cert.now store.now now entries.now export.now (R.file room.old))
        room.old room.new (ending_of result) }
{
    let certificate = read_input(alloc, room, cert, INPUT_LIMIT)?;
    let trusted = read_input(alloc, room, store, INPUT_LIMIT)?;
    match read_input(alloc, room, export, LIST_LIMIT) {
        Ok(exported) => {
            let judged = store_judged::<H>(
                alloc,
                input(cert, &certificate),
                input(store, &trusted),
                now,
                input(export, &exported),
            );
            compared::<H, R>(alloc, room, entries, judged)
        }
        Err(stop) => {
            let _read = fold_input::<H, R, ()>(alloc, room, entries, LIST_LIMIT, &mut ())?;
            Err(stop)
        }
    }
}
