//! Cosigners and logs that begin, and are open then as one is that was there.

ghost use Rattle.std.specs.Prelude.{ℕ, IfOk, IfErr, IfSome};
ghost use Rattle.cosigner_core.specs.Records.{cosigner_record};
ghost use Rattle.disk_core.specs.Times.{OnlyReads};
ghost use Rattle.frame_pool.specs.Frames.{HoldsKey};
ghost use Rattle.frame_pool.specs.declared.key.TileKey.{TileKey as Key};
ghost use Rattle.issuance_log.specs.Records.{settings_record};
ghost use Rattle.lms_core.specs.Heights.{IsSigningHeight};
ghost use Rattle.mtc_library.specs.Beginnings.{CosignerIsNotBegun, IsNewCosigner, IsNewLog};
ghost use Rattle.mtc_library.specs.Beginnings.{LogIsNotBegun};

use cosigner_core::{Cosigner, CosignerOpenError, CosignerSettings};
use disk_core::Disk;
use frame_pool::Pool;
use hss_core::Secret;
use issuance_log::{Log, LogOpenError, LogSettings};
use journal_core::{Refused, StartError};
use std::alloc::Global;
use std::error::Error;
use std::fmt;
use tree_core::TreeHash;

/// Why a cosigner isn't begun.
#[derive(Clone, Copy, Debug, PartialEq, Eq)]
pub enum CosignerBeginError {
    /// The journal isn't started.
    Start(StartError),
    /// The journal stands, and isn't opened: the disk failed, or memory was refused.
    Open(CosignerOpenError),
}

impl fmt::Display for CosignerBeginError {
    ghost use Rattle.std.specs.Prelude.{Some};
    ghost use Rattle.mtc_library.specs.Reasons.{cosigner_begin_text};

    ghost output = { λ why. Some (cosigner_begin_text why) };

    fn fmt<W: fmt::Write>(&self, f: &mut fmt::Formatter<W>) -> fmt::Result {
        match self {
            CosignerBeginError::Start(why) => why.fmt(f),
            CosignerBeginError::Open(why) => why.fmt(f),
        }
    }
}

impl Error for CosignerBeginError {}

/// Why a log isn't begun.
#[derive(Clone, Copy, Debug, PartialEq, Eq)]
pub enum LogBeginError {
    /// The journal isn't started.
    Start(StartError),
    /// The journal stands, and isn't opened: a disk failed, or memory was refused.
    Open(LogOpenError),
}

impl fmt::Display for LogBeginError {
    ghost use Rattle.std.specs.Prelude.{Some};
    ghost use Rattle.mtc_library.specs.Reasons.{log_begin_text};

    ghost output = { λ why. Some (log_begin_text why) };

    fn fmt<W: fmt::Write>(&self, f: &mut fmt::Formatter<W>) -> fmt::Result {
        match self {
            LogBeginError::Start(why) => why.fmt(f),
            LogBeginError::Open(why) => why.fmt(f),
        }
    }
}

impl Error for LogBeginError {}

/// A log that isn't begun: both disks are returned.
#[derive(Debug, Drop)]
pub struct LogNotBegun<D, T> {
    pub disk: D,
    pub tiles: T,
    pub why: LogBeginError,
}

/// Begins a new cosigner on an empty disk, and opens it. It holds no entries, and no one-time key
/// of the secret has signed. A program begins a secret once, on one journal: after that it opens
/// the journal, whatever this call answered, unless the disk is still empty.
///
/// Errors, in the order of the tests: `Start` with `Memory`, `Failed`, or `NotEmpty` where the disk
/// holds bytes, which stay; then `Open` with what [`Cosigner::open`] refuses, after which the
/// journal of the new cosigner stands on the disk that is returned.
pub fn begin_cosigner<H: TreeHash, D: Disk>(
    alloc: Global,
    disk: D,
    settings: &CosignerSettings,
    secret: &Secret,
) -> Result<Cosigner<H, D>, Refused<D, CosignerBeginError>>
    requires small { IsSigningHeight settings.now.lms }
    requires low { IfSome settings.now.low IsSigningHeight }
    ensures begun { IfOk result (IsNewCosigner settings.now secret.now disk) }
    ensures refused { IfErr result (λ e. CosignerIsNotBegun D.Disk H.hash
        (cosigner_record settings.now secret.now) disk e.disk e.why) }
{
    let journal = match cosigner_core::create(alloc, disk, settings, secret) {
        Ok(journal) => journal,
        Err(refused) => {
            return Err(Refused {
                disk: refused.disk,
                why: CosignerBeginError::Start(refused.why),
            });
        }
    };
    match Cosigner::open(alloc, journal.into_disk()) {
        Ok(cosigner) => Ok(cosigner),
        Err(refused) => Err(Refused {
            disk: refused.disk,
            why: CosignerBeginError::Open(refused.why),
        }),
    }
}

/// Begins a new log on an empty disk, and opens it, with a disk for its tiles and a pool whose
/// frames hold no tile. It has the null entry alone.
///
/// Errors, in the order of the tests: `Start` with `Memory`, `Failed`, or `NotEmpty` where the disk
/// holds bytes, which stay; then `Open` with what [`Log::open`] refuses, after which the journal of
/// the new log stands on the disk that is returned.
pub fn begin_log<H: TreeHash, D: Disk, T: Disk>(
    alloc: Global,
    disk: D,
    tiles: T,
    pool: Pool,
    settings: &LogSettings,
) -> Result<Log<H, D, T>, LogNotBegun<D, T>>
    requires { (slot : ℕ) (key : Key) → HoldsKey pool slot key → ⊥ }
    ensures begun { IfOk result (IsNewLog settings.now disk tiles) }
    ensures refused { IfErr result (λ e. LogIsNotBegun D.Disk T.Disk H.hash
        (settings_record settings.now) disk e.disk tiles e.tiles e.why) }
    ensures only_reads { IfErr result (λ e. OnlyReads T.Disk tiles e.tiles) }
{
    let journal = match issuance_log::create(alloc, disk, settings) {
        Ok(journal) => journal,
        Err(refused) => {
            return Err(LogNotBegun {
                disk: refused.disk,
                tiles,
                why: LogBeginError::Start(refused.why),
            });
        }
    };
    match Log::open(alloc, journal.into_disk(), tiles, pool) {
        Ok(log) => Ok(log),
        Err(refused) => Err(LogNotBegun {
            disk: refused.disk,
            tiles: refused.tiles,
            why: LogBeginError::Open(refused.why),
        }),
    }
}
