ghost use Rattle.std.specs.Prelude.{◌≡◌};
ghost use Rattle.mon_exchange.specs.declared.fault.ExchangeFault.TheVariants.{OutOfMemory};
ghost use Rattle.mon_exchange.specs.Fault.{exchange_fault, number_of, name_of};

use mon_fields::LayoutFault;
use std::alloc::{AllocError, AllocFailed};
use thiserror::Error;

/// Why a claim was not read, or not noted, in the order of the faults' numbers.
#[derive(Clone, Copy, Debug, PartialEq, Eq, Error)]
pub enum ExchangeFault {
    /// Memory was refused.
    #[error("out of memory")]
    OutOfMemory = 1,
    /// The octets are no claim: the mark, the kind, the station, the incarnation or the count of
    /// samples is wrong, or the octets end too early or too late.
    #[error("the octets are no claim")]
    NotAClaim = 2,
    /// The claim has another version than 1.
    #[error("another version of claims")]
    BadVersion = 3,
    /// A record is no sample's.
    #[error("a record is no sample's")]
    BadSample = 4,
    /// A sample does not exceed the one before it.
    #[error("the samples do not rise")]
    NotRising = 5,
    /// The engine id does not have 5 to 32 octets, or the sub-identifiers are no object identifier.
    #[error("no engine id, or no object identifier")]
    BadName = 6,
    /// The claim's station is no peer.
    #[error("the station is no peer")]
    UnknownPeer = 7,
    /// The claim's instance is not watched.
    #[error("the instance is not watched")]
    UnknownInstance = 8,
}

impl ExchangeFault {
    /// The number of the fault, 1 to 8.
    pub fn number(self) -> u8
        ensures { result ≡ number_of self }
    {
        self as u8
    }

    /// The name of the fault, as a report prints it.
    pub fn name(self) -> &'static str
        ensures { result.now ≡ name_of self }
    {
        match self {
            ExchangeFault::OutOfMemory => "OutOfMemory",
            ExchangeFault::NotAClaim => "NotAClaim",
            ExchangeFault::BadVersion => "BadVersion",
            ExchangeFault::BadSample => "BadSample",
            ExchangeFault::NotRising => "NotRising",
            ExchangeFault::BadName => "BadName",
            ExchangeFault::UnknownPeer => "UnknownPeer",
            ExchangeFault::UnknownInstance => "UnknownInstance",
        }
    }
}

impl From<LayoutFault> for ExchangeFault {
    ghost from_gives = { λ f e. e ≡ exchange_fault f };

    fn from(fault: LayoutFault) -> ExchangeFault {
        match fault {
            LayoutFault::OutOfMemory => ExchangeFault::OutOfMemory,
            LayoutFault::Truncated => ExchangeFault::NotAClaim,
            LayoutFault::BadSample => ExchangeFault::BadSample,
            LayoutFault::NotRising => ExchangeFault::NotRising,
        }
    }
}

impl From<AllocError> for ExchangeFault {
    ghost from_gives = { λ _ e. e ≡ OutOfMemory };

    fn from(_e: AllocError) -> ExchangeFault {
        ExchangeFault::OutOfMemory
    }
}

impl<T: Drop> From<AllocFailed<T>> for ExchangeFault {
    ghost from_gives = { λ _ e. e ≡ OutOfMemory };

    fn from(_e: AllocFailed<T>) -> ExchangeFault {
        ExchangeFault::OutOfMemory
    }
}
