//! Issuing several requests: the call adds their entries to the log by one record.

ghost use Rattle.std.specs.Prelude.{◌≡◌, ◌≢◌, ◌≤◌, ◌++◌, ◌∷◌, [], length, map, None, Ok, Err};
ghost use Rattle.std.specs.Prelude.{IfOk, IfSome, OnOk};
ghost use Rattle.std.specs.List.{AllByRecursion};
ghost use Rattle.issuance_log.specs.Batches.{AreOfForm};
ghost use Rattle.issuance_log.specs.Folds.{log_of, more_entries};
ghost use Rattle.issuance_log.specs.declared.error.LogError.TheVariants.{Memory as NoMemory};
ghost use Rattle.issuance_log.specs.Refusals.{batch_refusal};
ghost use Rattle.issuance_log.specs.Shown.{shown_with};
ghost use Rattle.issuance_log.specs.Words.{log_end, log_broken, log_records, log_tiles_disk};
ghost use Rattle.issuance_log.specs.Words.{modelled_state, view_of, LogAppends};
ghost use Rattle.authority_core.specs.Acceptance.{IsOwnEntry};
ghost use Rattle.authority_core.specs.Issues.{BatchKeepsToOrMemory, HasIssuedAll, issued_batch};
ghost use Rattle.authority_core.specs.Issues.{issued_items, issued_log_of_all, of_log};
ghost use Rattle.authority_core.specs.Issuing.{entry_for};

use crate::issuing::entry::entry_of_request;
use crate::issuing::error::IssueError;
use crate::requests::Request;
use disk_core::Disk;
use issuance_log::{Log, LogItem};
use log_entry::Form;
use mtc_io::{Bytes, Memory};
use std::alloc::Global;
use tls_wire::AnchorId;
use tree_core::TreeHash;

// The entry of a request in this form, and the key of the request.
fn item_of<H: TreeHash>(
    alloc: Global,
    id: &AnchorId,
    form: Form,
    request: &Request,
) -> Result<LogItem, Memory>
    ensures item { IfOk result (λ item. item
        ≡ (entry_for H.hash form id.now request.now, request.now.key)) }
    ensures own { IsOwnEntry id.now (entry_for H.hash form id.now request.now) }
    ensures fits { AreOfForm H.hash form
        ((entry_for H.hash form id.now request.now, request.now.key) ∷ []) }
{
    let entry = entry_of_request::<H>(alloc, id, form, request)?;
    let key = Bytes::copy_of(alloc, request.key.as_slice())?;
    Ok(LogItem { entry, key })
}

// One item more.
fn push_item(items: &mut Vec<LogItem>, item: LogItem) -> Result<(), Memory>
    ensures { OnOk result (items.new.items ≡ items.old.items ++ item ∷ []) }
{
    items.push(item)?;
    Ok(())
}

// The items of the requests, in their order.
fn items_of<H: TreeHash>(
    alloc: Global,
    id: &AnchorId,
    form: Form,
    requests: &[Request],
) -> Result<Vec<LogItem>, Memory>
    ensures items { IfOk result (λ items. items.items
        ≡ map (λ r. (entry_for H.hash form id.now r, r.key)) requests.now) }
    ensures own { IfOk result (λ items. AllByRecursion
        (λ r. IsOwnEntry id.now (entry_for H.hash form id.now r)) requests.now) }
    ensures fit { IfOk result (λ items. AreOfForm H.hash form items.items) }
{
    let mut items = Vec::new(alloc);
    for request in requests {
        let item = item_of::<H>(alloc, id, form, request)?;
        push_item(&mut items, item)?;
    }
    Ok(items)
}

/// Issues several requests: makes the entry of each under the id of the log, in the form of the
/// log's next entry, adds them with the keys of the requests by one record, and answers the index
/// of the first. The others follow it in their order. At Ok a crash leaves the records with that of
/// the entries; at any time of the call it leaves the old records, or these and that one, so all of
/// the entries or none. The call leaves the disk of the tiles alone.
///
/// Errors: what [`Log::add_all`] refuses. Its own memory is taken before the log is touched, so
/// `Log(Memory)` may come before any test, and leaves the log as it was.
pub fn issue_list<H: TreeHash, D: Disk, T: Disk>(
    alloc: Global,
    log: &mut Log<H, D, T>,
    requests: &[Request],
) -> Result<u64, IssueError>
    requires { 1 ≤ length requests.now }
    ensures appends { LogAppends (issued_batch H.hash (view_of log.old) requests.now)
        (more_entries (length requests.now))
        (issued_log_of_all H.hash (view_of log.old) requests.now) log.old log.new (of_log result) }
    ensures tiles { log_tiles_disk log.new ≡ log_tiles_disk log.old }
    ensures index { IfOk result (λ index. index ≡ (view_of log.old).size) }
    ensures issued { IfOk result (λ index. IfSome (modelled_state log.new)
        (HasIssuedAll H.hash (view_of log.old) requests.now index)) }
    ensures answer { BatchKeepsToOrMemory
        (batch_refusal (view_of log.old) (log_broken log.old) (log_end log.old)
        (issued_items H.hash (view_of log.old) requests.now)) (of_log result) }
    ensures valid { result ≢ Err (IssueError.Log NoMemory)
        → batch_refusal (view_of log.old) (log_broken log.old) (log_end log.old)
        (issued_items H.hash (view_of log.old) requests.now) ≡ None
        → IfSome (log_records log.old) (λ list. log_of H.hash
        (list ++ issued_batch H.hash (view_of log.old) requests.now ∷ [])
        ≡ Ok (issued_log_of_all H.hash (view_of log.old) requests.now
        (shown_with (view_of log.old) list))) }
{
    log.law_sound();
    log.law_unrefused_records_are_taken();
    let form = log.form();
    let settings = log.settings();
    let items = items_of::<H>(alloc, &settings.id, form, requests)?;
    let index = log.add_all(items.as_slice())?;
    Ok(index)
}
