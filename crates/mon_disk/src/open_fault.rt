//! Why a file could not be opened as a disk.

ghost use Rattle.std.specs.Prelude.{◌≡◌};
ghost use Rattle.mon_disk.specs.OpenFault.{of_lock};

use std::fs::TryLockError;
use std::io;
use thiserror::Error;

/// Why a file could not be opened as a disk.
#[derive(Debug, Drop, Error)]
pub enum OpenFault {
    /// Another process, or another part of this one, has the file open as a disk.
    #[error("the file is in use")]
    InUse,
    /// The system refused, for this reason.
    #[error("{0}")]
    System(io::Error),
}

impl OpenFault {
    /// The number by which a printed line names `InUse`, after those of `KeeperFault`.
    pub const IN_USE_NUMBER: u8 = 7;

    /// The name of `InUse` in a printed line.
    pub const IN_USE_NAME: &'static str = "InUse";
}

impl From<io::Error> for OpenFault {
    ghost use Rattle.mon_disk.specs.declared.open_fault.OpenFault.TheVariants.{System};

    ghost from_gives = { λ error fault. fault ≡ System error };

    fn from(error: io::Error) -> OpenFault {
        OpenFault::System(error)
    }
}

impl From<TryLockError> for OpenFault {
    ghost from_gives = { λ error fault. fault ≡ of_lock error };

    fn from(error: TryLockError) -> OpenFault {
        match error {
            TryLockError::WouldBlock => OpenFault::InUse,
            TryLockError::Error(error) => OpenFault::System(error),
        }
    }
}
