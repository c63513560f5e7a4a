//! What a drill leaves.

use disk_core::MemDisk;
use mtc_io::Bytes;
use std::marker::Model;

/// Certificates. Contracts see the list of them, each as its bytes.
#[derive(Debug, Drop)]
pub struct Certs {
    items: Vec<Bytes>,
}

impl Model for Certs {
    ghost use Rattle.std.specs.Prelude.{ℕ, List};

    ghost Value = { List (List ℕ) };

    ghost view = { λ c. c.items.items };
}

impl Certs {
    ghost use Rattle.std.specs.Prelude.{◌≡◌};

    pub(crate) fn from_vec(items: Vec<Bytes>) -> Certs
        ensures { result ≡ items.items }
    {
        Certs { items }
    }

    /// The certificates, in their order.
    pub fn as_slice(&self) -> &[Bytes]
        ensures { result.now ≡ self.now }
    {
        self.items.as_slice()
    }
}

/// What a drill came to, in numbers: the entries and the landmarks of the log, the records that
/// sign in the journals of the cosigners, the stops that were made, the certificates that were
/// accepted by all three cosigners, the audits that found the entry at its index, and the
/// certificates without signatures that were accepted.
#[derive(Clone, Copy, Debug, PartialEq, Eq)]
pub struct Counts {
    pub entries: u64,
    pub landmarks: u64,
    pub signatures: u64,
    pub stops: u64,
    pub verified: u64,
    pub stands: u64,
    pub light: u64,
}

/// What a drill has made: the devices of the log and of the cosigners `32473.2`, `32473.3` and
/// `32473.4`, the certificates of its rounds, and what it came to in numbers.
///
/// Two more numbers say that calls were stopped, and where: how many of the calls in which a stop
/// was made did not answer Ok, and after how many stops in calls of the log and in advances the
/// record of the call was there.
#[derive(Debug, Drop)]
pub struct DrillOutput {
    pub log: MemDisk,
    pub cosigners: Vec<MemDisk>,
    pub certs: Certs,
    pub counts: Counts,
    pub unfinished: u64,
    pub recovered: u64,
}
