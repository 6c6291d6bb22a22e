//! Why a step was not made.

ghost use Rattle.std.specs.Prelude.{◌≡◌};
ghost use Rattle.mon_world.specs.Fault.{innermost_of, name_of, number_of, station_refusal};
ghost use Rattle.mon_world.specs.declared.fault.WorldFault.TheVariants.{OutOfMemory};

use mon_station::{Innermost, StationFault};
use std::alloc::{AllocError, AllocFailed};
use thiserror::Error;

/// Why a step was not made, or a world not opened. A station's lack of memory is the world's own.
#[derive(Clone, Copy, Debug, Error)]
pub enum WorldFault {
    /// Memory was refused.
    #[error("out of memory")]
    OutOfMemory,
    /// There is no station of that number.
    #[error("there is no such station")]
    NoSuchStation,
    /// No datagram of that number was sent between stations.
    #[error("there is no such datagram")]
    NoSuchDatagram,
    /// The station refused.
    #[error("the station refused: {0}")]
    Refused(StationFault),
    /// A world has 1 to 16 stations.
    #[error("a world has 1 to 16 stations")]
    BadCount,
    /// A save has 6 calls of the disk.
    #[error("a save has 6 calls of the disk")]
    BadStop,
}

impl WorldFault {
    /// The number of the fault, 1 to 6.
    pub fn number(self) -> u8
        ensures { result ≡ number_of self }
    {
        match self {
            WorldFault::OutOfMemory => 1,
            WorldFault::NoSuchStation => 2,
            WorldFault::NoSuchDatagram => 3,
            WorldFault::Refused(_) => 4,
            WorldFault::BadCount => 5,
            WorldFault::BadStop => 6,
        }
    }

    /// The name of the fault, as a printed line gives it.
    pub fn name(self) -> &'static str
        ensures { result.now ≡ name_of self }
    {
        match self {
            WorldFault::OutOfMemory => "OutOfMemory",
            WorldFault::NoSuchStation => "NoSuchStation",
            WorldFault::NoSuchDatagram => "NoSuchDatagram",
            WorldFault::Refused(_) => "Refused",
            WorldFault::BadCount => "BadCount",
            WorldFault::BadStop => "BadStop",
        }
    }

    /// The innermost fault: the station's, where a station refused.
    pub fn innermost(self) -> Innermost
        ensures part { result.part.now ≡ (innermost_of self).part }
        ensures number { result.number ≡ (innermost_of self).number }
        ensures name { result.name.now ≡ (innermost_of self).name }
    {
        match self {
            WorldFault::Refused(fault) => fault.innermost(),
            WorldFault::OutOfMemory
            | WorldFault::NoSuchStation
            | WorldFault::NoSuchDatagram
            | WorldFault::BadCount
            | WorldFault::BadStop => Innermost::new("mon_world", self.number(), self.name()),
        }
    }
}

impl From<StationFault> for WorldFault {
    ghost from_gives = { λ part fault. fault ≡ station_refusal part };

    fn from(fault: StationFault) -> WorldFault {
        match fault {
            StationFault::OutOfMemory => WorldFault::OutOfMemory,
            other => WorldFault::Refused(other),
        }
    }
}

impl From<AllocError> for WorldFault {
    ghost from_gives = { λ _ fault. fault ≡ OutOfMemory };

    fn from(_e: AllocError) -> WorldFault {
        WorldFault::OutOfMemory
    }
}

impl<T: Drop> From<AllocFailed<T>> for WorldFault {
    ghost from_gives = { λ _ fault. fault ≡ OutOfMemory };

    fn from(_e: AllocFailed<T>) -> WorldFault {
        WorldFault::OutOfMemory
    }
}
