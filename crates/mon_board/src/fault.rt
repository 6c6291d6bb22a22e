ghost use Rattle.std.specs.Prelude.{◌≡◌};
ghost use Rattle.mon_board.specs.WatchFault.{number_of, name_of};

use thiserror::Error;

/// Why these make no watch, in the order in which they are tested. A watch takes its instances and
/// rules over, so memory never runs out.
#[derive(Clone, Copy, Debug, PartialEq, Eq, Error)]
pub enum WatchFault {
    /// A window holds 1 to 64 samples, and its epoch is 1 to the window.
    #[error("a window is not 1 to 64, or an epoch not 1 to its window")]
    BadWindow = 2,
    /// The instances are not 1 to 256 with engines of 5 to 32 octets, rising by engine and then by
    /// name.
    #[error("the instances are not 1 to 256 that rise by engine and name")]
    BadInstances = 3,
    /// The rules are not at most 256, each on one of the instances, rising by instance, rising and
    /// falling threshold.
    #[error("the rules are not at most 256 on these instances that rise by instance and thresholds")]
    BadRules = 4,
}

impl WatchFault {
    /// The number of the fault, 2 to 4.
    pub fn number(self) -> u8
        ensures { result ≡ number_of self }
    {
        self as u8
    }

    /// The name of the fault, as a report prints it.
    pub fn name(self) -> &'static str
        ensures { result.now ≡ name_of self }
    {
        match self {
            WatchFault::BadWindow => "BadWindow",
            WatchFault::BadInstances => "BadInstances",
            WatchFault::BadRules => "BadRules",
        }
    }
}

/// A number at which the watch has no instance.
#[derive(Clone, Copy, Debug, PartialEq, Eq, Error)]
#[error("the watch has no instance of this number")]
pub struct UnknownInstance;
