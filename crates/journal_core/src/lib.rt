//! Journals: files of records, of which a crash leaves all that were appended.
//!
//! A journal is a header and records. A record counts once its commit byte, one byte, is open.
//! [`start`] begins a journal on an empty disk, [`Opening`] reads one record by record, and
//! [`Journal::append`] adds one: it writes the record after a closed commit byte, syncs, opens the
//! commit byte, and syncs. So a crash at any time leaves the records from before, or these and the
//! new one, and once the call has answered Ok it leaves the latter. [`copy_after`] writes the
//! records from one of its ends on to a sink.
//!
//! A layer above speaks of lists of records, and may read one again at its offset: a file
//! represents a list, every crash state of a disk represents a list, or one of two lists while a
//! record is appended.
#![tactic(auto)]

mod copying;
mod error;
mod first_record;
mod format;
mod held;
mod journal;
pub mod laws;
mod opening;
mod record;
mod window;

pub use copying::copy_after;
pub use error::{AppendError, CopyError, OpenError, Refused, StartError};
pub use first_record::{FirstRecord, start};
pub use format::{HEADER, LONGEST_WRITE, MAX_BODY};
pub use journal::Journal;
pub use opening::Opening;
