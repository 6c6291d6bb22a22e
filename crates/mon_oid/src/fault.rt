ghost use Rattle.std.specs.Prelude.{◌≡◌};
ghost use Rattle.mon_oid.specs.declared.fault.OidFault.TheVariants.{OutOfMemory};
ghost use Rattle.mon_oid.specs.OidFault.{number_of, name_of};

use std::alloc::{AllocError, AllocFailed};
use thiserror::Error;

/// Why there is no identifier.
#[derive(Clone, Copy, Debug, PartialEq, Eq, Error)]
pub enum OidFault {
    /// Memory was refused.
    #[error("out of memory")]
    OutOfMemory = 1,
    /// Fewer than 2 sub-identifiers.
    #[error("fewer than 2 sub-identifiers")]
    TooShort = 2,
    /// More than 128 sub-identifiers.
    #[error("more than 128 sub-identifiers")]
    TooLong = 3,
    /// The first is above 2, or the second above 39 under 0 or 1.
    #[error("the first two sub-identifiers are out of range")]
    BadFirst = 4,
    /// The text is not decimal numbers up to 4294967295 joined by dots. It is tested first.
    #[error("not decimal numbers joined by dots")]
    BadText = 5,
}

impl OidFault {
    /// The number of the fault, 1 to 5.
    pub fn number(self) -> u8
        ensures { result ≡ number_of self }
    {
        self as u8
    }

    /// The name of the fault, as a report prints it.
    pub fn name(self) -> &'static str
        ensures { result.now ≡ name_of self }
    {
        match self {
            OidFault::OutOfMemory => "OutOfMemory",
            OidFault::TooShort => "TooShort",
            OidFault::TooLong => "TooLong",
            OidFault::BadFirst => "BadFirst",
            OidFault::BadText => "BadText",
        }
    }
}

impl From<AllocError> for OidFault {
    ghost from_gives = { λ _ e. e ≡ OutOfMemory };

    fn from(_e: AllocError) -> OidFault {
        OidFault::OutOfMemory
    }
}

impl<T: Drop> From<AllocFailed<T>> for OidFault {
    ghost from_gives = { λ _ e. e ≡ OutOfMemory };

    fn from(_e: AllocFailed<T>) -> OidFault {
        OidFault::OutOfMemory
    }
}
