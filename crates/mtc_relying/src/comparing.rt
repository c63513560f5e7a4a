//! What an audit finds in the entries of a log, which are read as a stream.

ghost use Rattle.std.specs.Prelude.{◌≡◌, ◌<◌, ◌^◌, [], ◌∷◌};
ghost use Rattle.byte_formats.specs.Types.{Text};
ghost use Rattle.entry_stream.specs.Streams.{AreItemsOf, empty_list};
ghost use Rattle.mtc_command.specs.Answers.{ending_of};
ghost use Rattle.mtc_command.specs.Endings.{Replies};
ghost use Rattle.mtc_command.specs.Served.{HasAnswered};
ghost use Rattle.mtc_command.specs.Steps.{Outcome, with_bytes};
ghost use Rattle.audit_stream.specs.Summaries.{IsSummaryOf, asked_for, summary_parts};
ghost use Rattle.mtc_relying.specs.Compared.{CanBeAudited, IfClaims, ItemsTest, LeavesOf};
ghost use Rattle.mtc_relying.specs.Compared.{RepliesFirst, claim_says, wanted_by};

use crate::claim::{Claim, Judged};
use crate::found::{answer_to, audited};
use audit_stream::{Summary, decided, summary_of, summing};
use entry_list::{ItemsError, read_items};
use entry_stream::{Both, ItemAt, ItemFold, RangeHash};
use mtc_command::{Answer, LIST_LIMIT, Stop, Stopped, read_input, refuse_file};
use mtc_lines::items_reason;
use mtc_room::Room;
use mtc_streams::fold_input;
use std::alloc::Global;
use tree_core::TreeHash;
use world_core::wanted_hash;

// The fold for what a claim asks of the entries; where there is none it asks for nothing.
fn asking<H: TreeHash>(alloc: Global, judged: &Judged<'_, '_>) -> Both<RangeHash<H>, ItemAt>
    ensures none { ⟦<Both<RangeHash<H>, ItemAt> as ItemFold>⟧.has_taken result empty_list }
    ensures made_with { IfClaims (λ c. ⟦<Both<RangeHash<H>, ItemAt> as ItemFold>⟧.made_with result
        ≡ asked_for (wanted_by H.hash c) c.accepted.accepted.index) judged.now }
{
    match judged {
        Judged::Claims(claim) => {
            let accepted = &claim.accepted.accepted;
            let wanted = wanted_hash::<H>(accepted, claim.kept.as_ref());
            summing(alloc, wanted, accepted.index)
        }
        _ => summing(alloc, None, 0),
    }
}

// Refuses entries that have a fault.
fn tested<'a>(entries: &'a str, counted: Result<u64, ItemsError>) -> Result<(), Stop<'a>>
    ensures { ItemsTest entries.now counted result }
{
    match counted {
        Ok(_) => Ok(()),
        Err(why) => Err(refuse_file(Stopped::BadForm, entries, items_reason(why))),
    }
}

// The answer by the summary of the entries, unless two strings have to be shown.
fn by_summary<'a, H: TreeHash>(
    alloc: Global,
    entries: &'a str,
    claim: &Claim<'_>,
    counted: Result<u64, ItemsError>,
    summary: &Summary<'_>,
) -> Result<Option<Answer>, Stop<'a>>
    ensures { (bytes : Text) → AreItemsOf H.hash (λ items. IsSummaryOf H.hash items
        (wanted_by H.hash claim.now) claim.now.accepted.accepted.index (summary_parts summary.now))
        counted bytes → RepliesFirst (claim_says H.hash entries.now claim.now bytes) result }
{
    tested(entries, counted)?;
    let accepted = &claim.accepted;
    match decided::<H>(
        alloc,
        &accepted.accepted,
        &accepted.cert,
        claim.store.as_store(),
        claim.kept.as_ref(),
        summary,
    )? {
        Some(found) => Ok(Some(answer_to(alloc, found)?)),
        None => Ok(None),
    }
}

// The answer by the whole list.
fn by_list<'a, H: TreeHash>(
    alloc: Global,
    entries: &'a str,
    bytes: &[u8],
    claim: &Claim<'_>,
) -> Result<Answer, Stop<'a>>
    requires { CanBeAudited H.hash claim.now }
    ensures { Replies (claim_says H.hash entries.now claim.now bytes.now).answer
        (ending_of result) }
{
    match read_items::<H>(alloc, bytes) {
        Ok(items) => {
            let store = claim.store.as_store();
            let kept = claim.kept.as_ref();
            Ok(audited(alloc, &claim.accepted, store, &items, kept)?)
        }
        Err(ItemsError::Memory) => Err(Stop::Memory),
        Err(why) => Err(refuse_file(Stopped::BadForm, entries, items_reason(why))),
    }
}

// Reads the entries into memory, and shows two strings.
fn shown<'a, H: TreeHash, R: Room>(
    alloc: Global,
    room: &mut R,
    entries: &'a str,
    claim: &Claim<'_>,
) -> Result<Answer, Stop<'a>>
    requires opened { R.opened room.old < 2 ^ 32 }
    requires claim { CanBeAudited H.hash claim.now }
    ensures { HasAnswered R.Room R.Dsk.Disk (entries.now ∷ [])
        (with_bytes 8589934592 entries.now (R.file room.old entries.now)
        (claim_says H.hash entries.now claim.now))
        room.old room.new (ending_of result) }
{
    let bytes = read_input(alloc, room, entries, LIST_LIMIT)?;
    by_list::<H>(alloc, entries, bytes.as_slice(), claim)
}

/// Reads the entries of a log, and compares them with what the other files leave. Where two strings
/// have to be shown they are read once more, into memory.
pub(crate) fn compared<'a, H: TreeHash, R: Room>(
    alloc: Global,
    room: &mut R,
    entries: &'a str,
    judged: Judged<'a, '_>,
) -> Result<Answer, Stop<'a>>
    requires opened { R.opened room.old < 2 ^ 32 }
    requires claims { IfClaims (CanBeAudited H.hash) judged }
    ensures { (wanted : Text → Outcome) → LeavesOf H.hash entries.now wanted judged.entry
        → HasAnswered R.Room R.Dsk.Disk (entries.now ∷ [])
        (with_bytes 8589934592 entries.now (R.file room.old entries.now) wanted)
        room.old room.new (ending_of result) }
{
    let mut fold = asking::<H>(alloc, &judged);
    let counted = fold_input::<H, R, _>(alloc, room, entries, LIST_LIMIT, &mut fold)?;
    match judged {
        Judged::BadStore(stop) => Err(stop),
        Judged::Ends(ending) => {
            tested(entries, counted)?;
            ending
        }
        Judged::Claims(claim) => {
            match by_summary::<H>(alloc, entries, &claim, counted, &summary_of(&fold))? {
                Some(answer) => Ok(answer),
                None => shown::<H, R>(alloc, room, entries, &claim),
            }
        }
    }
}
