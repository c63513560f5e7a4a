//! The names of the parties.

ghost use Rattle.std.specs.Prelude.{◌≡◌, IfOk};
ghost use Rattle.drill_parties.specs.Ids.{id_of};

use mtc_io::Memory;
use std::alloc::Global;
use tls_wire::AnchorId;

/// The log is `32473.1`.
pub const LOG: u8 = 1;

/// The id of the log.
pub(crate) const LOG_ID: [u8; 4] = [0x81, 0xFD, 0x59, LOG];

/// The anchor id `32473.N`, where N is below 128.
pub fn id_of(alloc: Global, last: u8) -> Result<AnchorId, Memory>
    ensures { IfOk result (λ id. id ≡ id_of last) }
{
    match AnchorId::from_bytes(alloc, &[0x81, 0xFD, 0x59, last]) {
        Ok(id) => Ok(id),
        // These bytes are an anchor id if N is below 128, so memory was refused.
        Err(_) => Err(Memory),
    }
}
