//! Laws of what watchers are answered: the clauses are the laws, and the functions do nothing.

ghost use Rattle.byte_formats.specs.Types.{HashFunction};
ghost use Rattle.mtc_monitor.specs.StateFiles.{StateFilesChain};

/// Commands `monitor` that ended with status 0, each over the state file that the one before left,
/// all of what it printed or the last line of it, and the first over what `monitor-init` prints: if
/// they watch one list of domains, and ask for sizes below 2^63, what they printed is what runs of
/// one monitor found, each from the state of the one before
/// (`monitor_core::law_each_entry_is_reported_once` says what that is).
pub fn law_state_files_chain()
    ensures { (h : HashFunction) → StateFilesChain h }
{}
