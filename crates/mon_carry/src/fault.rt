//! Why windows were not carried.

ghost use Rattle.std.specs.Prelude.{◌≡◌};
ghost use Rattle.mon_carry.specs.declared.fault.CarryFault.TheVariants.{OutOfMemory};
ghost use Rattle.mon_carry.specs.Fault.{image_refusal, keeper_refusal};

use mon_disk::KeeperFault;
use mon_saved::ImageFault;
use std::alloc::AllocError;
use thiserror::Error;

/// Why windows were not carried. A part's lack of memory is this crate's own.
#[derive(Clone, Copy, Debug, PartialEq, Eq, Error)]
pub enum CarryFault {
    /// Memory was refused.
    #[error("out of memory")]
    OutOfMemory,
    /// The keeper could not open a file, or save.
    #[error("the file was not kept: {0}")]
    Keeper(KeeperFault),
    /// The saved image could not be read.
    #[error("the saved image was not read: {0}")]
    Image(ImageFault),
    /// The old file has the greatest incarnation, 4294967295.
    #[error("the greatest incarnation was found")]
    NoMoreIncarnations,
    /// The new file holds a save.
    #[error("the file holds a save")]
    AlreadySaved,
}

impl From<AllocError> for CarryFault {
    ghost from_gives = { λ _ fault. fault ≡ OutOfMemory };

    fn from(_e: AllocError) -> CarryFault {
        CarryFault::OutOfMemory
    }
}

impl From<KeeperFault> for CarryFault {
    ghost from_gives = { λ part fault. fault ≡ keeper_refusal part };

    fn from(fault: KeeperFault) -> CarryFault {
        match fault {
            KeeperFault::OutOfMemory => CarryFault::OutOfMemory,
            other => CarryFault::Keeper(other),
        }
    }
}

impl From<ImageFault> for CarryFault {
    ghost from_gives = { λ part fault. fault ≡ image_refusal part };

    fn from(fault: ImageFault) -> CarryFault {
        match fault {
            ImageFault::OutOfMemory => CarryFault::OutOfMemory,
            other => CarryFault::Image(other),
        }
    }
}
