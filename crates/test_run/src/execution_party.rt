//! The two parties of an execution: a log, and a cosigner of it.

use crate::difference::Difference;
use cosigner_core::CosignerSettings;
use hss_core::{LmsType, OtsType};
use issuance_log::LogSettings;
use party_history::PartyStart;
use std::alloc::Global;
use tls_wire::AnchorId;

#[derive(Clone, Copy, Debug, PartialEq, Eq)]
pub enum Party {
    Log,
    Cosigner,
}

pub const PARTIES: [Party; 2] = [Party::Log, Party::Cosigner];

// The first records. That of the cosigner holds its secret, and the key belongs to it.
const FIRST_OF_LOG: [u8; 14] = [
    0x01, 0x04, 0x81, 0xFD, 0x59, 0x01, 0x00, 0x00, 0x00, 0x02, 0x00, 0x00, 0x00, 0x10,
];

const FIRST_OF_COSIGNER: [u8; 67] = [
    0x11, 0x04, 0x81, 0xFD, 0x59, 0x02, 0x04, 0x81, 0xFD, 0x59, 0x01, 0x00, 0x00, 0x00, 0x05, 0x00,
    0x00, 0x00, 0x01, 0x00, 0x01, 0x02, 0x03, 0x04, 0x05, 0x06, 0x07, 0x08, 0x09, 0x0A, 0x0B, 0x0C,
    0x0D, 0x0E, 0x0F, 0x10, 0x11, 0x12, 0x13, 0x14, 0x15, 0x16, 0x17, 0x18, 0x19, 0x1A, 0x1B, 0x1C,
    0x1D, 0x1E, 0x1F, 0x20, 0x21, 0x22, 0x23, 0x24, 0x25, 0x26, 0x27, 0x28, 0x29, 0x2A, 0x2B, 0x2C,
    0x2D, 0x2E, 0x2F,
];

const PUBLIC: [u8; 60] = [
    0x00, 0x00, 0x00, 0x01, 0x00, 0x00, 0x00, 0x05, 0x00, 0x00, 0x00, 0x01, 0x00, 0x01, 0x02, 0x03,
    0x04, 0x05, 0x06, 0x07, 0x08, 0x09, 0x0A, 0x0B, 0x0C, 0x0D, 0x0E, 0x0F, 0xA8, 0x66, 0x40, 0x67,
    0x56, 0x0A, 0x77, 0xF7, 0xC0, 0x0D, 0x2A, 0x0B, 0xED, 0x57, 0xB4, 0x41, 0xC8, 0x37, 0x45, 0xAE,
    0xF8, 0x46, 0xC2, 0xF2, 0x62, 0xF8, 0x19, 0x41, 0xB3, 0x96, 0xE6, 0x52,
];

/// The secret of the cosigner, the last 48 bytes of its first record.
pub fn secret() -> &'static [u8] {
    match FIRST_OF_COSIGNER.split_at_checked(19) {
        Some((_, secret)) => secret,
        None => &[],
    }
}

impl Party {
    /// Its index among the starts.
    pub fn number(self) -> u32 {
        match self {
            Party::Log => 0,
            Party::Cosigner => 1,
        }
    }

    /// The name of its journal.
    pub fn file(self) -> &'static str {
        match self {
            Party::Log => "j",
            Party::Cosigner => "s",
        }
    }

    /// The first record of its journal.
    pub fn first(self) -> &'static [u8] {
        match self {
            Party::Log => &FIRST_OF_LOG,
            Party::Cosigner => &FIRST_OF_COSIGNER,
        }
    }
}

fn id(alloc: Global, text: &str) -> Result<AnchorId, Difference> {
    match AnchorId::from_text(alloc, text) {
        Ok(id) => Ok(id),
        Err(_) => Err(Difference::Memory),
    }
}

fn start_of_log(alloc: Global) -> Result<PartyStart, Difference> {
    Ok(PartyStart::Log(LogSettings {
        id: id(alloc, "32473.1")?,
        max_active: 2,
        limit: 16,
    }))
}

fn start_of_cosigner(alloc: Global) -> Result<PartyStart, Difference> {
    let log = id(alloc, "32473.1")?;
    Ok(PartyStart::Cosigner {
        settings: CosignerSettings {
            id: id(alloc, "32473.2")?,
            log,
            lms: LmsType::H5,
            low: None,
            ots: OtsType::W1,
        },
        public: PUBLIC,
    })
}

/// How both begin.
pub fn starts(alloc: Global) -> Result<[PartyStart; 2], Difference> {
    let log = start_of_log(alloc)?;
    Ok([log, start_of_cosigner(alloc)?])
}
