//! What an audit finds, and what it reports of that.

ghost use Rattle.std.specs.Prelude.{◌≡◌, IfOk, IfSome, option_map};
ghost use Rattle.cert_fields.specs.Views.{parts};
ghost use Rattle.mtc_command.specs.Answers.{said};
ghost use Rattle.mtc_command.specs.Wanted.{Meets};
ghost use Rattle.mtc_proof.specs.Views.{proof_parts};
ghost use Rattle.cosigner_steps.specs.Steps.{AreSteps};
ghost use Rattle.world_core.specs.Audit.{WasJudged};
ghost use Rattle.mtc_relying.specs.AuditOutcome.{audit_says, case_of};
ghost use Rattle.mtc_relying.specs.Views.{accepted_parts, audit_reply};

use crate::accepted::AcceptedCert;
use cosigner_core::Export;
use entry_list::Items;
use mtc_command::{Answer, Said};
use mtc_io::Memory;
use policy_core::Store;
use std::alloc::Global;
use tree_core::TreeHash;
use world_core::{Audit, audit};

/// The answer to that of an audit.
pub(crate) fn answer_to(alloc: Global, found: Audit) -> Result<Answer, Memory>
    ensures { IfOk result (λ answer. said answer.status answer.text ≡ audit_reply found) }
{
    match found {
        Audit::Foreign { wanted, found } => {
            let wanted = hex::encode(alloc, wanted)?;
            let found = hex::encode(alloc, found)?;
            let text = format!(in alloc; "foreign {wanted} {found}\n")?;
            Ok(Answer::of_text(Said::Against, text))
        }
        Audit::Unrecorded => {
            let text = format!(in alloc; "unrecorded\n")?;
            Ok(Answer::of_text(Said::Against, text))
        }
        Audit::Stands(index) => {
            let text = format!(in alloc; "stands {index}\n")?;
            Ok(Answer::of_text(Said::Done, text))
        }
        Audit::Pair(one, other) => {
            let one = hex::encode(alloc, one.as_slice())?;
            let other = hex::encode(alloc, other.as_slice())?;
            let text = format!(in alloc; "collision\n{one}\n{other}\n")?;
            Ok(Answer::of_text(Said::Collided, text))
        }
    }
}

/// Compares what was accepted with these items, and with the export of a cosigner.
pub(crate) fn audited<H: TreeHash>(
    alloc: Global,
    accepted: &AcceptedCert,
    store: &Store,
    items: &Items<'_, H>,
    kept: Option<&Export>,
) -> Result<Answer, Memory>
    requires judged { WasJudged H.hash store.now (parts accepted.now.cert)
        (proof_parts accepted.now.proof) accepted.now.accepted }
    requires allowed { IfSome kept (λ e. AreSteps H.hash e.now.steps) }
    ensures { IfOk result (λ answer. Meets (audit_says H.hash (case_of store.now items.now
        (option_map (λ e. e.now) kept.entry) (accepted_parts accepted.now))).answer
        (said answer.status answer.text)) }
{
    let found = audit::<H>(
        alloc,
        &accepted.accepted,
        &accepted.cert,
        &accepted.proof,
        store,
        items,
        kept,
    )?;
    answer_to(alloc, found)
}
