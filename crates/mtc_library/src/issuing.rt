//! An authority: a log is opened or begun, entries are added as requests ask for them, and
//! certificates are made of entries.

pub use crate::beginning::{LogBeginError, LogNotBegun, begin_log};
pub use authority_core::{
    Field, IssueError, Names, Request, RequestError, RequestListError, SeveralError, WriteError,
    cert, certs, issue, issue_list, light_cert, light_certs, read_request, read_requests,
};
pub use cert_time::Validity;
pub use disk_core::{Disk, FileDisk, MemDisk};
pub use frame_pool::Pool;
pub use issuance_log::{Log, LogError, LogOpenError, LogRefused, LogSettings};
pub use journal_core::{AppendError, OpenError, StartError};
pub use landmarks::{Landmarks, MOST_ACTIVE, MOST_ENTRIES};
pub use mtc_files::{Held, Opened, new_journal, open_journal, open_tiles};
pub use mtc_io::{Bytes, Failed, Memory};
pub use mtc_proof::{ProofError, check_signatures};
pub use tile_store::TileError;
pub use tls_wire::{AnchorBytesError, AnchorError, AnchorId};
pub use tree_core::{Sha, TreeHash};
