//! What a party begins with.

ghost use Rattle.std.specs.Prelude.{◌≡◌, IfOk};

use cosigner_core::CosignerSettings;
use issuance_log::LogSettings;
use mtc_io::Memory;
use std::alloc::Global;
use tls_wire::AnchorId;

/// How a party begins: as a log, as a cosigner, or as a mirror. It has no secret.
#[derive(Debug, Drop)]
pub enum PartyStart {
    /// A log with these settings.
    Log(LogSettings),
    /// A cosigner with these settings, of one level or of two, and this public key.
    Cosigner {
        settings: CosignerSettings,
        public: [u8; 60],
    },
    /// A mirror of the log with this id.
    Mirror(AnchorId),
}

/// The same id once more.
pub(crate) fn copy_of(alloc: Global, id: &AnchorId) -> Result<AnchorId, Memory>
    ensures { IfOk result (λ copy. copy ≡ id.now) }
{
    // It is read again, unless memory is refused.
    match AnchorId::from_bytes(alloc, id.as_bytes()) {
        Ok(copy) => Ok(copy),
        Err(_) => Err(Memory),
    }
}

impl PartyStart {
    /// The same start once more.
    pub(crate) fn copy(&self, alloc: Global) -> Result<PartyStart, Memory>
        ensures { IfOk result (λ copy. copy ≡ self.now) }
    {
        match self {
            PartyStart::Log(settings) => Ok(PartyStart::Log(settings.copy(alloc)?)),
            PartyStart::Cosigner { settings, public } => Ok(PartyStart::Cosigner {
                settings: CosignerSettings {
                    id: copy_of(alloc, &settings.id)?,
                    log: copy_of(alloc, &settings.log)?,
                    lms: settings.lms,
                    low: settings.low,
                    ots: settings.ots,
                },
                public: *public,
            }),
            PartyStart::Mirror(log) => Ok(PartyStart::Mirror(copy_of(alloc, log)?)),
        }
    }
}
