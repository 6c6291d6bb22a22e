//! Why a station refused an event, or was not opened.

ghost use Rattle.std.specs.Prelude.{◌≡◌};
ghost use Rattle.mon_station.specs.declared.fault.StationFault.TheVariants.{OutOfMemory};
ghost use Rattle.mon_station.specs.Fault.{number_of, name_of, innermost_of, exchange_refusal, image_refusal, keeper_refusal, poll_refusal, response_refusal};

use mon_disk::KeeperFault;
use mon_exchange::ExchangeFault;
use mon_poller::{PollFault, ResponseFault};
use mon_saved::ImageFault;
use std::alloc::AllocError;
use std::fmt;
use thiserror::Error;

/// Why a station refused an event, or was not opened. A part's lack of memory is the station's own.
#[derive(Clone, Copy, Debug, Error)]
pub enum StationFault {
    /// Memory was refused.
    #[error("out of memory")]
    OutOfMemory,
    /// No poll was started.
    #[error("no poll was started: {0}")]
    Poll(PollFault),
    /// A response was refused.
    #[error("a response was refused: {0}")]
    Response(ResponseFault),
    /// A peer's claim, or a share, was refused.
    #[error("an exchange was refused: {0}")]
    Exchange(ExchangeFault),
    /// The keeper could not open the file, or save.
    #[error("the file was not kept: {0}")]
    Keeper(KeeperFault),
    /// The saved image could not be read.
    #[error("the saved image was not read: {0}")]
    Image(ImageFault),
    /// The greatest incarnation was found, 4294967295.
    #[error("the greatest incarnation was found")]
    NoMoreIncarnations,
}

impl StationFault {
    /// The number of the fault, 1 to 7.
    pub fn number(self) -> u8
        ensures { result ≡ number_of self }
    {
        match self {
            StationFault::OutOfMemory => 1,
            StationFault::Poll(_) => 2,
            StationFault::Response(_) => 3,
            StationFault::Exchange(_) => 4,
            StationFault::Keeper(_) => 5,
            StationFault::Image(_) => 6,
            StationFault::NoMoreIncarnations => 7,
        }
    }

    /// The name of the fault, as a printed line gives it.
    pub fn name(self) -> &'static str
        ensures { result.now ≡ name_of self }
    {
        match self {
            StationFault::OutOfMemory => "OutOfMemory",
            StationFault::Poll(_) => "Poll",
            StationFault::Response(_) => "Response",
            StationFault::Exchange(_) => "Exchange",
            StationFault::Keeper(_) => "Keeper",
            StationFault::Image(_) => "Image",
            StationFault::NoMoreIncarnations => "NoMoreIncarnations",
        }
    }

    /// The innermost fault: the part's, where a part refused.
    pub fn innermost(self) -> Innermost
        ensures part { result.part.now ≡ (innermost_of self).part }
        ensures number { result.number ≡ (innermost_of self).number }
        ensures name { result.name.now ≡ (innermost_of self).name }
    {
        match self {
            StationFault::Poll(part) => Innermost::new("mon_poller", part.number(), part.name()),
            StationFault::Response(part) => Innermost::new(
                "mon_poller",
                part.number(),
                part.name(),
            ),
            StationFault::Exchange(part) => Innermost::new(
                "mon_exchange",
                part.number(),
                part.name(),
            ),
            StationFault::Keeper(part) => Innermost::new("mon_disk", part.number(), part.name()),
            StationFault::Image(part) => Innermost::new("mon_saved", part.number(), part.name()),
            StationFault::OutOfMemory | StationFault::NoMoreIncarnations => {
                Innermost::new("mon_station", self.number(), self.name())
            }
        }
    }
}

/// The innermost of nested faults, as a line prints it: `CRATE NUMBER NAME`.
#[derive(Clone, Copy, Debug)]
pub struct Innermost {
    /// The crate whose fault it is, as `mon_disk`.
    pub part: &'static str,
    /// Its number in that crate, from 1.
    pub number: u8,
    /// The fault's name in that crate, as `DiskFault`.
    pub name: &'static str,
}

/// `CRATE NUMBER NAME`.
impl fmt::Display for Innermost {
    ghost use Rattle.std.specs.Prelude.{Some};
    ghost use Rattle.mon_station.specs.Fault.{told_text};

    ghost output = { λ i. Some (told_text record {
      part = i.part.now;
      number = i.number;
      name =
          i.name.now;
    }) };

    fn fmt<W: fmt::Write>(&self, f: &mut fmt::Formatter<W>) -> fmt::Result {
        let Innermost { part, number, name } = *self;
        write!(f, "{part} {number} {name}")
    }
}

impl Innermost {
    /// The fault of this crate, number and name.
    pub fn new(part: &'static str, number: u8, name: &'static str) -> Self
        ensures part { result.part.now ≡ part.now }
        ensures number { result.number ≡ number }
        ensures name { result.name.now ≡ name.now }
    {
        Innermost { part, number, name }
    }
}

impl From<AllocError> for StationFault {
    ghost from_gives = { λ _ fault. fault ≡ OutOfMemory };

    fn from(_e: AllocError) -> StationFault {
        StationFault::OutOfMemory
    }
}

impl From<PollFault> for StationFault {
    ghost from_gives = { λ part fault. fault ≡ poll_refusal part };

    fn from(fault: PollFault) -> StationFault {
        match fault {
            PollFault::OutOfMemory => StationFault::OutOfMemory,
            other => StationFault::Poll(other),
        }
    }
}

impl From<ResponseFault> for StationFault {
    ghost from_gives = { λ part fault. fault ≡ response_refusal part };

    fn from(fault: ResponseFault) -> StationFault {
        match fault {
            ResponseFault::OutOfMemory => StationFault::OutOfMemory,
            other => StationFault::Response(other),
        }
    }
}

impl From<ExchangeFault> for StationFault {
    ghost from_gives = { λ part fault. fault ≡ exchange_refusal part };

    fn from(fault: ExchangeFault) -> StationFault {
        match fault {
            ExchangeFault::OutOfMemory => StationFault::OutOfMemory,
            other => StationFault::Exchange(other),
        }
    }
}

impl From<KeeperFault> for StationFault {
    ghost from_gives = { λ part fault. fault ≡ keeper_refusal part };

    fn from(fault: KeeperFault) -> StationFault {
        match fault {
            KeeperFault::OutOfMemory => StationFault::OutOfMemory,
            other => StationFault::Keeper(other),
        }
    }
}

impl From<ImageFault> for StationFault {
    ghost from_gives = { λ part fault. fault ≡ image_refusal part };

    fn from(fault: ImageFault) -> StationFault {
        match fault {
            ImageFault::OutOfMemory => StationFault::OutOfMemory,
            other => StationFault::Image(other),
        }
    }
}
