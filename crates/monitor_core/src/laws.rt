//! Laws of monitors: the clauses are the laws, and the functions do nothing.

ghost use Rattle.byte_formats.specs.Types.{HashFunction};
ghost use Rattle.sha2.specs.Sha256.{sha256};
ghost use Rattle.monitor_core.specs.Chains.{EachEntryOnce, GivesHashes, LastLinesAreOfOneList};
ghost use Rattle.monitor_core.specs.Chains.{MonitorsSawOneList, StatesAreOfOneList};
ghost use Rattle.monitor_core.specs.Laws.{MonitorIsExact};
ghost use Rattle.monitor_core.specs.TextLaws.{StatesAreReadAsWritten, WatchesAreReadAsWritten};

use collide::laws::law_lists_extract;
use tree_core::TreeHash;

/// The law of one run, for every hash function. The empty list has the state without entries. For
/// every list that has the state, and all new entries, a run is answered with what was found, or
/// with `Memory`, exactly if the ids are equal, the size is that of the list with the new entries
/// and above that of the list, the proof passes, or has no hash where the list has no entry, and
/// the list with the new entries has the root. Then the lines are the report of the new entries,
/// and the state is that of the list with them.
pub fn law_monitors_are_exact()
    ensures { (h : HashFunction) → MonitorIsExact h }
{}

/// The law of runs one after another, each from the state of the one before and with one list of
/// domains, the first from the state of a log without entries: their lines are the report of all
/// entries, so that each entry is reported once, under its own index. The premise is that each run
/// takes the state of the last one.
pub fn law_each_entry_is_reported_once()
    ensures { (h : HashFunction) → EachEntryOnce h }
{}

/// The law of states: two lists that have one state are one list, or they show two different
/// strings with one hash. So two monitors that both began at the state without entries, and whose
/// last states are one, saw one list, whatever they watch and however their runs were cut, or their
/// lists show two such strings. The last clause says it of the last lines of their texts, for a
/// hash function of 32 bytes, as SHA-256 ([`law_sha256_gives_hashes`]), and lists of fewer than
/// 2^63 entries.
pub fn law_one_state_is_of_one_list<H: TreeHash>()
    ensures states { StatesAreOfOneList H.hash }
    ensures monitors { MonitorsSawOneList H.hash }
    ensures lines { LastLinesAreOfOneList H.hash }
{
    law_lists_extract::<H>();
}

/// The text of what was found is read as the state that was found, and so is the last line of it,
/// where its size is below 2^63. Each text that is read is whole lines, and then the line of the
/// state that is read. States that have one line are one state.
pub fn law_states_are_read_as_written()
    ensures { StatesAreReadAsWritten }
{}

/// Each value of SHA-256 is 32 bytes.
pub fn law_sha256_gives_hashes()
    ensures { GivesHashes sha256 }
{}

/// A watch file that is read is the lines of the domains that were read, at most 1,000, each a host
/// name without a star and a newline; and the lines of such domains are read as them.
pub fn law_watch_files_are_read_as_written()
    ensures { WatchesAreReadAsWritten }
{}
