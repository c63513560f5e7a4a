//! What is fixed when a log begins.

ghost use Rattle.std.specs.Prelude.{◌≡◌, IfOk};

use mtc_io::Memory;
use std::alloc::Global;
use std::marker::Model;
use tls_wire::AnchorId;

/// The settings of a log, which never change. Contracts see them as they are, within their ranges.
#[derive(Debug, Drop)]
pub struct LogSettings {
    /// The name of the log.
    pub id: AnchorId,
    /// How many landmarks are active at most, from 1 to [`MOST_ACTIVE`](landmarks::MOST_ACTIVE).
    pub max_active: u32,
    /// How many entries the log has at most, from 2 to
    /// [`MOST_ENTRIES`](landmarks::MOST_ENTRIES). The null entry counts.
    pub limit: u32,
}

impl Model for LogSettings {
    ghost use Rattle.issuance_log.specs.Settings.{Settings, AreAllowed};

    ghost Value = { Settings };

    ghost view = { λ s. record { id = s.id; max_active = s.max_active; limit = s.limit } };

    ghost invariant = { λ s. AreAllowed s.max_active s.limit };
}

impl LogSettings {
    /// The same settings once more.
    pub fn copy(&self, alloc: Global) -> Result<LogSettings, Memory>
        ensures { IfOk result (λ copy. copy ≡ self.now) }
    {
        // An id is read again, unless memory is refused.
        let id = match AnchorId::from_bytes(alloc, self.id.as_bytes()) {
            Ok(id) => id,
            Err(_) => return Err(Memory),
        };
        Ok(LogSettings {
            id,
            max_active: self.max_active,
            limit: self.limit,
        })
    }
}
