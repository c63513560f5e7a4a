//! Laws of plans, over any kinds of journals, and of the work on devices: the clauses are the laws,
//! and the functions do nothing.

ghost use Rattle.command_plans.specs.Devices.{DevicesServe};
ghost use Rattle.command_plans.specs.Facts.{FoundIsValid, HeardHasPassed, MisreadIsAbout};
ghost use Rattle.command_plans.specs.Facts.{NoCommandIsBadWords, OutcomesCome, UnopenedIsEarly};
ghost use Rattle.command_plans.specs.Stops.{StopsServe};

use crate::JournalKinds;
use mtc_room::Room;

/// Whatever its plan and whatever files there are, what a command has to answer is one of six
/// outcomes: a file or a journal isn't there; a file is too long; a journal that is to be made is
/// there; a file isn't in its form; a journal is none of its kind, or the file beside it lacks
/// something; or all of these tests are passed, and the command does its work.
pub fn law_outcomes_come<K: JournalKinds>()
    ensures { OutcomesCome K.kinds }
{}

/// What a status says of a command. Status 1 is for arguments that are no command. Status 2 is
/// about a file that the command reads, a journal that it opens and that is none of its kind, or a
/// file beside one that lacks something. If a journal isn't opened, the status is one that may come
/// before.
pub fn law_statuses_mean<K: JournalKinds>()
    ensures words { NoCommandIsBadWords K.kinds }
    ensures misread { MisreadIsAbout K.kinds }
    ensures early { UnopenedIsEarly K.kinds }
{}

/// A command opens and makes all of its journals or none. The records that it finds in one are
/// those that the file represents, and a party of its kind has them; a journal that it makes had no
/// file.
pub fn law_found_records_are_valid<K: JournalKinds>()
    ensures { FoundIsValid K.kinds }
{}

/// If something goes to standard output, a command has passed all tests: its files were read and
/// are in their forms, its journals were found, and what it answered and did is the work for these.
pub fn law_heard_commands_have_passed<K: JournalKinds>()
    ensures { HeardHasPassed K.kinds }
{}

/// A command opens the devices of any number of journals, each of which is there, and of other
/// files, which are made empty where they aren't there. It closes them in the opposite order. It
/// has done what the outcome wants if its work on them gives the outcome of the files that they
/// read as, whatever these are. If the model knows the files, no two are of one place.
pub fn law_work_on_devices_serves<R: Room>()
    ensures { DevicesServe R.Room R.Dsk.Disk }
{}

/// A command that stops before its work, after it has opened some devices, closes them and leaves
/// nothing new of them, also where it opened one file twice, by two names. It has done what the
/// outcome wants if it replies as is wanted, with an early status, or stops at a failure.
pub fn law_stops_before_the_work_serve<R: Room>()
    ensures { StopsServe R.Room R.Dsk.Disk }
{}
