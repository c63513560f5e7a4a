//! A monitor: from run to run it reads the new entries of a log, and reports each that has a name
//! under a watched domain.

pub use cosigner_core::{AdvanceRequest, FormError, read_advance};
pub use entry_list::{Entries, Item, Items, ItemsError, read_items};
pub use monitor_core::{
    Found, Line, MonitorError, State, TextError, Watch, monitor, read_state, read_watch,
    write_found, write_state,
};
pub use mtc_io::{Bytes, Memory};
pub use tls_wire::{AnchorBytesError, AnchorError, AnchorId};
pub use tree_core::{Sha, TreeHash};
pub use tree_proofs::EntryList;
