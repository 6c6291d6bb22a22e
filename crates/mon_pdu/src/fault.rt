//! Why a message could not be read or written.

ghost use Rattle.std.specs.Prelude.{◌≡◌};
ghost use Rattle.mon_pdu.specs.Fault.{pdu_fault, number_of, name_of};
ghost use Rattle.mon_pdu.specs.declared.fault.PduFault.TheVariants.{OutOfMemory};

use mon_ber::BerFault;
use std::alloc::{AllocError, AllocFailed};
use thiserror::Error;

/// Why a message could not be read or written, in the order of the faults' numbers.
#[derive(Clone, Copy, Debug, Error)]
pub enum PduFault {
    /// Memory ran out. Every other fault follows from the octets or the message only.
    #[error("out of memory")]
    OutOfMemory,
    /// The octets end within an element.
    #[error("the octets end too early")]
    Truncated,
    /// An element has another tag than a message has at this place.
    #[error("another tag was expected")]
    BadTag,
    /// A length is of no form that is read, contents are not used up, or a length needs more than 4
    /// octets.
    #[error("a length is not right")]
    BadLength,
    /// A number is outside the range of its type.
    #[error("a number is out of range")]
    OutOfRange,
    /// The contents of an OBJECT IDENTIFIER spell none.
    #[error("no object identifier")]
    BadOid,
    /// The message's version is this one, and not that of SNMPv2c, which is 1 (RFC 1901 section 3).
    #[error("version {0} is not SNMPv2c")]
    BadVersion(i32),
    /// This octet, in the place of the PDU's tag, is the tag of no PDU (RFC 3416 section 3).
    #[error("{0} is the tag of no PDU")]
    UnknownPdu(u8),
}

impl PduFault {
    /// Returns the number by which a printed line names the fault, 1 to 8.
    pub fn number(self) -> u8
        ensures { result ≡ number_of self }
    {
        match self {
            PduFault::OutOfMemory => 1,
            PduFault::Truncated => 2,
            PduFault::BadTag => 3,
            PduFault::BadLength => 4,
            PduFault::OutOfRange => 5,
            PduFault::BadOid => 6,
            PduFault::BadVersion(_) => 7,
            PduFault::UnknownPdu(_) => 8,
        }
    }

    /// Returns the name of the fault in a printed line: the variant's.
    pub fn name(self) -> &'static str
        ensures { result.now ≡ name_of self }
    {
        match self {
            PduFault::OutOfMemory => "OutOfMemory",
            PduFault::Truncated => "Truncated",
            PduFault::BadTag => "BadTag",
            PduFault::BadLength => "BadLength",
            PduFault::OutOfRange => "OutOfRange",
            PduFault::BadOid => "BadOid",
            PduFault::BadVersion(_) => "BadVersion",
            PduFault::UnknownPdu(_) => "UnknownPdu",
        }
    }
}

impl From<BerFault> for PduFault {
    ghost from_gives = { λ b e. e ≡ pdu_fault b };

    fn from(fault: BerFault) -> PduFault {
        match fault {
            BerFault::OutOfMemory => PduFault::OutOfMemory,
            BerFault::Truncated => PduFault::Truncated,
            BerFault::BadTag => PduFault::BadTag,
            BerFault::BadLength => PduFault::BadLength,
            BerFault::OutOfRange => PduFault::OutOfRange,
            BerFault::BadOid => PduFault::BadOid,
        }
    }
}

impl From<AllocError> for PduFault {
    ghost from_gives = { λ _ e. e ≡ OutOfMemory };

    fn from(_e: AllocError) -> PduFault {
        PduFault::OutOfMemory
    }
}

impl<T: Drop> From<AllocFailed<T>> for PduFault {
    ghost from_gives = { λ _ e. e ≡ OutOfMemory };

    fn from(_e: AllocFailed<T>) -> PduFault {
        PduFault::OutOfMemory
    }
}
