//! Issuing: the call adds the entry of a request to the log.

ghost use Rattle.std.specs.Prelude.{◌≡◌, ◌≢◌, ◌++◌, ◌∷◌, [], slice_index_or, None, Ok, Err};
ghost use Rattle.std.specs.Prelude.{IfOk, IfSome};
ghost use Rattle.issuance_log.specs.Folds.{log_of, one_item_more};
ghost use Rattle.issuance_log.specs.declared.error.LogError.TheVariants.{Memory as NoMemory};
ghost use Rattle.issuance_log.specs.Refusals.{add_refusal};
ghost use Rattle.issuance_log.specs.Shown.{shown_with};
ghost use Rattle.issuance_log.specs.Words.{log_end, log_broken, log_records, log_tiles_disk};
ghost use Rattle.issuance_log.specs.Words.{modelled_state, view_of, LogAppends};
ghost use Rattle.authority_core.specs.Acceptance.{IsOwnEntry};
ghost use Rattle.authority_core.specs.Issues.{KeepsToOrMemory, issued_entry, issued_log};
ghost use Rattle.authority_core.specs.Issues.{issued_record, of_log};

use crate::issuing::entry::entry_of_request;
use crate::issuing::error::IssueError;
use crate::requests::Request;
use disk_core::Disk;
use issuance_log::Log;
use std::alloc::Global;
use tree_core::TreeHash;

/// Issues a request: makes its entry under the id of the log, in the form of the log's next entry,
/// adds it with the key of the request, and answers its index, at which the log then has an entry
/// with its own name as issuer and no critical extension that is unknown. At Ok a crash leaves the
/// records with that of the entry; at any time of the call it leaves the old records, or these and
/// that one. The call leaves the disk of the tiles alone.
///
/// Errors: what [`Log::add`] refuses. Its own memory is taken before the log is touched, so
/// `Log(Memory)` may come before any test, and leaves the log as it was.
pub fn issue<H: TreeHash, D: Disk, T: Disk>(
    alloc: Global,
    log: &mut Log<H, D, T>,
    request: &Request,
) -> Result<u64, IssueError>
    ensures appends { LogAppends (issued_record H.hash (view_of log.old) request.now)
        one_item_more (issued_log H.hash (view_of log.old) request.now) log.old log.new
        (of_log result) }
    ensures tiles { log_tiles_disk log.new ≡ log_tiles_disk log.old }
    ensures index { IfOk result (λ index. index ≡ (view_of log.old).size) }
    ensures own { IfOk result (λ index. IfSome (modelled_state log.new) (λ s.
        IsOwnEntry s.settings.id (slice_index_or s.entries index []))) }
    ensures answer { KeepsToOrMemory
        (add_refusal (view_of log.old) (log_broken log.old) (log_end log.old)
        (issued_entry H.hash (view_of log.old) request.now) request.now.key)
        (of_log result) }
    ensures valid { result ≢ Err (IssueError.Log NoMemory)
        → add_refusal (view_of log.old) (log_broken log.old) (log_end log.old)
        (issued_entry H.hash (view_of log.old) request.now) request.now.key ≡ None
        → IfSome (log_records log.old) (λ list. log_of H.hash
        (list ++ issued_record H.hash (view_of log.old) request.now ∷ [])
        ≡ Ok (issued_log H.hash (view_of log.old) request.now
        (shown_with (view_of log.old) list))) }
{
    log.law_sound();
    log.law_unrefused_records_are_taken();
    let form = log.form();
    let settings = log.settings();
    let entry = entry_of_request::<H>(alloc, &settings.id, form, request)?;
    let index = log.add(entry.as_slice(), request.key.as_slice())?;
    Ok(index)
}
