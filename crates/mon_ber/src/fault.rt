//! Why octets could not be read or written.

ghost use Rattle.std.specs.Prelude.{◌≡◌};
ghost use Rattle.mon_ber.specs.declared.fault.BerFault.TheVariants.{OutOfMemory};
ghost use Rattle.mon_ber.specs.Fault.{number_of, name_of};

use std::alloc::{AllocError, AllocFailed};
use thiserror::Error;

/// Why octets could not be read or written.
#[derive(Clone, Copy, Debug, PartialEq, Eq, Error)]
pub enum BerFault {
    /// Memory was refused.
    #[error("out of memory")]
    OutOfMemory = 1,
    /// The octets end too early.
    #[error("the octets end too early")]
    Truncated = 2,
    /// Another tag was expected.
    #[error("another tag was expected")]
    BadTag = 3,
    /// The length is of no form that is read, or does not fit what it encloses.
    #[error("a length that is not read, or does not fit its contents")]
    BadLength = 4,
    /// A number outside the range of its type.
    #[error("a number outside the range of its type")]
    OutOfRange = 5,
    /// The contents are no object identifier.
    #[error("no object identifier")]
    BadOid = 6,
}

impl BerFault {
    /// The number of the fault, 1 to 6.
    pub fn number(self) -> u8
        ensures { result ≡ number_of self }
    {
        self as u8
    }

    /// The name of the fault, as a report prints it.
    pub fn name(self) -> &'static str
        ensures { result.now ≡ name_of self }
    {
        match self {
            BerFault::OutOfMemory => "OutOfMemory",
            BerFault::Truncated => "Truncated",
            BerFault::BadTag => "BadTag",
            BerFault::BadLength => "BadLength",
            BerFault::OutOfRange => "OutOfRange",
            BerFault::BadOid => "BadOid",
        }
    }
}

impl From<AllocError> for BerFault {
    ghost from_gives = { λ _ e. e ≡ OutOfMemory };

    fn from(_e: AllocError) -> BerFault {
        BerFault::OutOfMemory
    }
}

impl<T: Drop> From<AllocFailed<T>> for BerFault {
    ghost from_gives = { λ _ e. e ≡ OutOfMemory };

    fn from(_e: AllocFailed<T>) -> BerFault {
        BerFault::OutOfMemory
    }
}
