//! What monitors print: the clauses are the laws, and the functions do nothing.

ghost use Rattle.mtc_top.specs.Executions.{program};
ghost use Rattle.mtc_laws.specs.MonitorLaws.{MonitorsArePrinted};

use disk_core::Disk;
use mtc_io::Sink;
use mtc_room::Room;
use tree_core::TreeHash;

/// From the first byte on that may have gone out of `monitor`, and with status 0, its output is a
/// prefix of the text that the command has to print over its four files, and with status 0 all of
/// it. `mtc_monitor::law_state_files_chain` says what such texts are, of commands that follow each
/// other.
pub fn law_monitors_print_what_was_found<H: TreeHash, R: Room, O: Sink, E: Sink>()
    ensures { MonitorsArePrinted H.hash (program H.hash R.Room R.Dsk.Disk O.Sink E.Sink) }
{}
