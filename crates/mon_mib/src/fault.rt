ghost use Rattle.std.specs.Prelude.{◌≡◌};
ghost use Rattle.mon_mib.specs.DeviceFault.{number_of, name_of};

use thiserror::Error;

/// Why there is no simulated device, or why a device did not make a change. What answers it
/// allocates nothing, so memory never runs out.
#[derive(Clone, Copy, Debug, PartialEq, Eq, Error)]
pub enum DeviceFault {
    /// The indexes do not rise strictly, or are not 1 to 2147483647, or the device lacks the index.
    #[error("the indexes do not rise strictly from 1 to 2147483647, or lack this one")]
    BadIndex = 2,
    /// The device failed to make the change.
    #[error("the device failed to make the change")]
    Failed = 3,
}

impl DeviceFault {
    /// Returns the number by which a printed line names the fault.
    pub fn number(self) -> u8
        ensures { result ≡ number_of self }
    {
        self as u8
    }

    /// Returns the name of the fault in a printed line.
    pub fn name(self) -> &'static str
        ensures { result.now ≡ name_of self }
    {
        match self {
            DeviceFault::BadIndex => "BadIndex",
            DeviceFault::Failed => "Failed",
        }
    }
}
