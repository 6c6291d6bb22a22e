//! Why fields could not be read. It becomes a fault of the claim or the image that has the fields,
//! which has a number.

ghost use Rattle.std.specs.Prelude.{◌≡◌};
ghost use Rattle.mon_fields.specs.declared.fault.LayoutFault.TheVariants.{OutOfMemory};

use std::alloc::{AllocError, AllocFailed};
use thiserror::Error;

/// Why fields could not be read.
#[derive(Clone, Copy, Debug, PartialEq, Eq, Error)]
pub enum LayoutFault {
    /// Memory was refused.
    #[error("out of memory")]
    OutOfMemory,
    /// The octets end within a field.
    #[error("the octets end too early")]
    Truncated,
    /// A record is no sample's: its tag, stamp or value is not in range.
    #[error("a record is no sample's")]
    BadSample,
    /// A sample does not exceed the one before it.
    #[error("the samples do not rise")]
    NotRising,
}

impl From<AllocError> for LayoutFault {
    ghost from_gives = { λ _ e. e ≡ OutOfMemory };

    fn from(_e: AllocError) -> LayoutFault {
        LayoutFault::OutOfMemory
    }
}

impl<T: Drop> From<AllocFailed<T>> for LayoutFault {
    ghost from_gives = { λ _ e. e ≡ OutOfMemory };

    fn from(_e: AllocFailed<T>) -> LayoutFault {
        LayoutFault::OutOfMemory
    }
}
