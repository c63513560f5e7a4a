//! Witnesses: what a law supposes comes about. Each clause makes a record that stands in a premise
//! of the headline out of plain facts of runs and files, so a field more in that record, which no
//! run gives, isn't proved here. The functions do nothing.

ghost use Rattle.mtc_top.specs.Executions.{program};
ghost use Rattle.mtc_headline.specs.Witnesses.{ExecutionsBegin, ExecutionsGoOn, ExportsAreGiven};
ghost use Rattle.mtc_headline.specs.Witnesses.{FilesAreAudited, FilesAreVerified};
ghost use Rattle.mtc_headline.specs.Witnesses.{OtherFilesChange, PrintedIsWritten};
ghost use Rattle.mtc_headline.specs.Witnesses.{RunsWithoutFailuresGoWell, SigningCommandsSign};
ghost use Rattle.mtc_headline.specs.Witnesses.{StopsHappen};

use disk_core::Disk;
use file_events::Programs;
use mtc_io::Sink;
use mtc_room::Room;
use tree_core::TreeHash;

/// What is printed with status 0 over a known output was written, and what `export` printed so
/// after an execution was exported.
pub fn witness_exports_are_given<H: TreeHash, R: Room, O: Sink, E: Sink>()
    ensures written { PrintedIsWritten H.hash (program H.hash R.Room R.Dsk.Disk O.Sink E.Sink) }
    ensures exported { ExportsAreGiven H.hash (program H.hash R.Room R.Dsk.Disk O.Sink E.Sink) }
{}

/// A run that found or made a cosigner's journal begins an execution, and whatever happens next
/// continues it: a stop of the machine, or a change of other files, are such events.
pub fn witness_executions_go_on<H: TreeHash, P: Programs>()
    ensures begins { ExecutionsBegin H.hash P.program }
    ensures goes_on { ExecutionsGoOn H.hash P.program }
    ensures stops { StopsHappen H.hash P.program }
    ensures writes { OtherFilesChange H.hash P.program }
{}

/// `cosign` and `mirror-cosign` sign. A run of `verify` or `audit` over files that are read is one
/// of which the headline speaks, and a run without a failure and without status 8 went well.
pub fn witness_runs_are_of_the_headline<H: TreeHash, P: Programs>()
    ensures signs { SigningCommandsSign }
    ensures verified { FilesAreVerified H.hash P.program }
    ensures audited { FilesAreAudited H.hash P.program }
    ensures well { RunsWithoutFailuresGoWell H.hash P.program }
{}
