//! What the file system asks of an open file, in addition to its bytes.

use std::fs::{File, OpenFile, TryLockError};
use std::os::fd::AsRawFd;
use std::os::unix::fs::FileExt;

/// An open file that can be locked. The files of the system are such files.
pub trait Held: OpenFile + FileExt {
    /// Locks the file for this process alone, without waiting: `WouldBlock` where it is locked
    /// already. The lock is held until the file is closed.
    fn try_hold(&self) -> Result<(), TryLockError>;

    /// Locks the file for all that only read it, likewise: `WouldBlock` where a process has it for
    /// itself alone.
    fn try_share(&self) -> Result<(), TryLockError>;

    /// The number of its descriptor.
    fn descriptor(&self) -> i32;
}

impl Held for File {
    fn try_hold(&self) -> Result<(), TryLockError> {
        self.try_lock()
    }

    fn try_share(&self) -> Result<(), TryLockError> {
        self.try_lock_shared()
    }

    fn descriptor(&self) -> i32 {
        self.as_raw_fd()
    }
}
