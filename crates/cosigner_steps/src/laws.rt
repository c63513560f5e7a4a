//! Laws of a cosigner's steps: the clauses are the laws, and the functions do nothing.

ghost use Rattle.std.specs.Prelude.{◌≡◌, IfSome, List, Ok, Option, Some};
ghost use Rattle.std.specs.List.{AllByRecursion};
ghost use Rattle.byte_formats.specs.Offsets.{IsBytes};
ghost use Rattle.byte_formats.specs.Types.{HashFunction, Text};
ghost use Rattle.cosigner_core.specs.ExportReading.{IsExport, export_in};
ghost use Rattle.cosigner_core.specs.Progress.{first_progress, progress_by};
ghost use Rattle.cosigner_core.specs.declared.lists.Export.{Export};
ghost use Rattle.cosigner_core.specs.declared.progress.Progress.{Progress};
ghost use Rattle.cosigner_core.specs.declared.step.Step.{Step};
ghost use Rattle.cosigner_core.specs.declared.terms.KeyTerms.{KeyTerms};
ghost use Rattle.cosigner_steps.specs.Laws.{HasHashes, OneListAfter};
ghost use Rattle.cosigner_steps.specs.Steps.{AreSteps, held_by};

use tree_core::TreeHash;

/// The steps of what is read as an export, or is one by its rules, are allowed, and their proofs
/// have 32-byte hashes, as [`law_exports_prove_one_list`] asks.
pub fn law_exports_have_allowed_steps()
    ensures read { (h : HashFunction) (bytes : Text) (kept : Option Export) → IsBytes bytes
        → export_in h bytes ≡ Ok kept → IfSome kept (λ e. AreSteps h e.steps) }
    ensures export { (h : HashFunction) (e : Export) → IsExport h e → AreSteps h e.steps }
    ensures hashes { (h : HashFunction) (e : Export) → IsExport h e
        → AllByRecursion HasHashes e.steps }
{}

/// What is held at last by steps that are allowed is the checkpoint to which they lead.
pub fn law_steps_lead_to_what_is_held()
    ensures { (h : HashFunction) (terms : KeyTerms) (done : Progress) (steps : List Step)
        → progress_by h terms (first_progress h) steps ≡ Some done → held_by h steps ≡ done.held }
{}

/// One list and a cosigner: if the list begins with what is held at last by steps that are allowed,
/// with proofs of 32-byte hashes, each Sign among them has the hash of the list's own entries in
/// its interval. Or else there are two different strings with one hash: the first is hashed in the
/// tree hash of so many of the list's first entries as a checkpoint of the steps has, the second in
/// the opening of their proofs.
pub fn law_exports_prove_one_list<H: TreeHash>()
    ensures { OneListAfter H.hash }
{}
