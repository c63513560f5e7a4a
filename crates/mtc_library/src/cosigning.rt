//! A cosigner: its journal is opened or begun, and it holds the root of a log and signs subtrees.

pub use crate::beginning::{CosignerBeginError, begin_cosigner};
pub use cosigner_core::{
    AdvanceRequest, ChildError, CosignError, Cosigner, CosignerOpenError, CosignerSettings,
    ExportError, FormError, KeylessCosigner, SubtreeRequest, read_advance, read_subtree,
};
pub use disk_core::{Disk, FileDisk, MemDisk};
pub use hss_core::{LmsType, OtsType, PUBLIC_KEY_LEN, Secret, SigBuf};
pub use journal_core::{AppendError, OpenError, Refused, StartError};
pub use mtc_files::{Held, Opened, new_journal, open_journal};
pub use mtc_io::{Bytes, Failed, MemSink, Memory, Sink, StdSink};
pub use mtc_proof::{ReservedSignature, put_signature};
pub use tls_wire::{AnchorBytesError, AnchorError, AnchorId};
pub use tree_core::{Sha, TreeHash};
