//! Calls of a log that add a record.

ghost use Rattle.std.specs.Prelude.{IfOk};
ghost use Rattle.drill_core.specs.Calls.{HasCalledLog, HasOpenedLog};
ghost use Rattle.drill_core.specs.declared.calls.LogCall.TheVariants.{Issue, Mark};

use authority_core::{IssueError, Request, issue};
use disk_core::Disk;
use frame_pool::Pool;
use issuance_log::{Log, LogError};
use journal_core::AppendError;
use mtc_io::Memory;
use std::alloc::Global;
use tree_core::TreeHash;

/// A call of a log that adds a record.
#[derive(Debug, Drop)]
pub(crate) enum LogCall {
    /// A request is issued.
    Issue(Request),
    /// A landmark is set.
    Mark,
}

// Issues a request. An error that isn't the device's is answered as out of memory.
fn issue_on<H: TreeHash, D: Disk, T: Disk>(
    alloc: Global,
    log: &mut Log<H, D, T>,
    request: &Request,
) -> Result<bool, Memory>
    ensures { IfOk result (HasCalledLog H.hash (Issue request.now) log.old log.new) }
{
    log.law_sound();
    match issue(alloc, log, request) {
        Ok(_) => Ok(true),
        Err(IssueError::Log(LogError::Append(AppendError::Failed))) => Ok(false),
        Err(_) => Err(Memory),
    }
}

// Sets a landmark, likewise.
fn mark_on<H: TreeHash, D: Disk, T: Disk>(log: &mut Log<H, D, T>) -> Result<bool, Memory>
    ensures { IfOk result (HasCalledLog H.hash Mark log.old log.new) }
{
    log.law_sound();
    log.law_unrefused_records_are_taken();
    match log.mark() {
        Ok(_) => Ok(true),
        Err(LogError::Append(AppendError::Failed)) => Ok(false),
        Err(_) => Err(Memory),
    }
}

/// Makes the call: whether it was done, or its device failed.
pub(crate) fn call_log<H: TreeHash, D: Disk, T: Disk>(
    alloc: Global,
    log: &mut Log<H, D, T>,
    call: &LogCall,
) -> Result<bool, Memory>
    ensures { IfOk result (HasCalledLog H.hash call.now log.old log.new) }
{
    match call {
        LogCall::Issue(request) => issue_on(alloc, log, request),
        LogCall::Mark => mark_on(log),
    }
}

/// Opens the log on a device that represents one, and a device for its tiles, of which it has
/// stored none. Each error is answered as out of memory.
pub(crate) fn open_log<H: TreeHash, D: Disk + Drop, T: Disk + Drop>(
    alloc: Global,
    disk: D,
    tiles: T,
) -> Result<Log<H, D, T>, Memory>
    ensures { IfOk result (HasOpenedLog H.hash disk) }
{
    let pool = Pool::new(alloc, 1)?;
    match Log::open(alloc, disk, tiles, pool) {
        Ok(log) => Ok(log),
        Err(_) => Err(Memory),
    }
}
