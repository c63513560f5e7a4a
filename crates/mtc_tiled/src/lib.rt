//! A journal and the file of its tiles, for the commands on parties of any kind that have both: how
//! they are opened and closed.
//!
//! A command opens the journal and reads its header ([`open_devices`]), and then the file of the
//! tiles, which is made empty where it isn't there. So no file of tiles is made beside a file that
//! is no journal. It opens its party over both devices with a pool of [`FRAMES`], or of
//! [`OPENING_FRAMES`] if it asks for no node, works on it, and closes both ([`close_devices`]).
//! What of this holds for every kind of party is in `specs/` and `proofs/`: from a party that was
//! opened, or not, to what the command has done.
//!
//! No clause says that the tiles are closed before the journal: the order of the calls is read off
//! the program.
#![tactic(auto)]

mod opening;
mod refusals;

pub use opening::{FRAMES, OPENING_FRAMES, close_devices, open_devices};
pub use refusals::{refuse_open, refuse_tiles, text_of_tiles};
