//! Why a text lists no machines.

ghost use Rattle.std.specs.Prelude.{◌≡◌};
ghost use Rattle.mon_placing.specs.declared.fault.MachinesFault.TheVariants.{OutOfMemory};

use std::alloc::{AllocError, AllocFailed};
use thiserror::Error;

/// Why a text lists no machines. Lines are counted from 1.
#[derive(Clone, Copy, Debug, Error)]
pub enum MachinesFault {
    /// Memory was refused.
    #[error("out of memory")]
    OutOfMemory,
    /// This line is no name with an address after it.
    #[error("line {0}: NAME ADDRESS is wanted, as east-1 192.0.2.11")]
    Malformed(usize),
    /// The name on this line is that of a line before it.
    #[error("line {0}: a machine above has this name")]
    RepeatedName(usize),
    /// The address on this line is that of a line before it.
    #[error("line {0}: a machine above has this address")]
    RepeatedAddress(usize),
    /// This line is of the machine after the 1,024th.
    #[error("line {0}: more than 1,024 machines")]
    TooMany(usize),
    /// No line is of a machine.
    #[error("no machine is listed")]
    NoMachine,
    /// Fewer machines than a group has stations, which are this many.
    #[error("machines: {0}, fewer than the stations of a group")]
    TooFew(usize),
}

impl From<AllocError> for MachinesFault {
    ghost from_gives = { λ _ e. e ≡ OutOfMemory };

    fn from(_e: AllocError) -> MachinesFault {
        MachinesFault::OutOfMemory
    }
}

impl<T: Drop> From<AllocFailed<T>> for MachinesFault {
    ghost from_gives = { λ _ e. e ≡ OutOfMemory };

    fn from(_e: AllocFailed<T>) -> MachinesFault {
        MachinesFault::OutOfMemory
    }
}
