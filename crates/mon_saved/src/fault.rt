//! Why an image was not read.

ghost use Rattle.std.specs.Prelude.{◌≡◌};
ghost use Rattle.mon_saved.specs.declared.fault.ImageFault.TheVariants.{OutOfMemory};
ghost use Rattle.mon_saved.specs.Fault.{image_fault, number_of, name_of};

use mon_fields::LayoutFault;
use std::alloc::{AllocError, AllocFailed};
use thiserror::Error;

/// Why an image was not read.
#[derive(Clone, Copy, Debug, PartialEq, Eq, Error)]
pub enum ImageFault {
    /// Memory was refused.
    #[error("out of memory")]
    OutOfMemory = 1,
    /// The octets end too early.
    #[error("the octets end too early")]
    Truncated = 2,
    /// The image is of another version than 1 or 2.
    #[error("an image of another version than 1 or 2")]
    BadVersion = 3,
    /// The instances are not those of the watch.
    #[error("the file holds other instances than these settings name")]
    OtherWatch = 4,
    /// The octets are no image: the first two octets, the incarnation, a size, a count or a sample
    /// is wrong, or octets are left over.
    #[error("the octets are no image")]
    BadImage = 5,
}

impl ImageFault {
    /// The number of the fault, 1 to 5.
    pub fn number(self) -> u8
        ensures { result ≡ number_of self }
    {
        self as u8
    }

    /// The name of the fault, as a report prints it.
    pub fn name(self) -> &'static str
        ensures { result.now ≡ name_of self }
    {
        match self {
            ImageFault::OutOfMemory => "OutOfMemory",
            ImageFault::Truncated => "Truncated",
            ImageFault::BadVersion => "BadVersion",
            ImageFault::OtherWatch => "OtherWatch",
            ImageFault::BadImage => "BadImage",
        }
    }
}

impl From<LayoutFault> for ImageFault {
    ghost from_gives = { λ f e. e ≡ image_fault f };

    fn from(fault: LayoutFault) -> ImageFault {
        match fault {
            LayoutFault::OutOfMemory => ImageFault::OutOfMemory,
            LayoutFault::Truncated => ImageFault::Truncated,
            LayoutFault::BadSample | LayoutFault::NotRising => ImageFault::BadImage,
        }
    }
}

impl From<AllocError> for ImageFault {
    ghost from_gives = { λ _ e. e ≡ OutOfMemory };

    fn from(_e: AllocError) -> ImageFault {
        ImageFault::OutOfMemory
    }
}

impl<T: Drop> From<AllocFailed<T>> for ImageFault {
    ghost from_gives = { λ _ e. e ≡ OutOfMemory };

    fn from(_e: AllocFailed<T>) -> ImageFault {
        ImageFault::OutOfMemory
    }
}
