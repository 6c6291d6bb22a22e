//! Why there are no settings.

ghost use Rattle.std.specs.Prelude.{◌≡◌};
ghost use Rattle.mon_survey.specs.Fault.{number_of, name_of};
ghost use Rattle.mon_survey.specs.declared.fault.SurveyFault.TheVariants.{OutOfMemory};

use mon_settings::SettingsFault;
use std::alloc::{AllocError, AllocFailed};
use thiserror::Error;

/// The value that was made, or a return with its fault. It is `?` where the fault is of the
/// function's own type, and its proof takes half the time.
macro_rules! given {
    ($made:expr) => {
        match $made {
            Ok(value) => value,
            Err(fault) => return Err(fault),
        }
    };
}

pub(crate) use given;

/// Why an agent's answers give no settings.
#[derive(Clone, Copy, Debug, Error)]
pub enum SurveyFault {
    /// Memory was refused.
    #[error("out of memory")]
    OutOfMemory,
    /// What the agent shows this community is no snmpEngine group (RFC 3411 section 5), whose boots
    /// and time stamp each sample: it is absent, hidden by a view, or its engine id is not 5 to 32
    /// octets, or its boots or time is no number from 0 on.
    #[error("the snmpEngine group is absent, invalid or hidden from this community: permit 1.3.6.1.6.3.10.2.1, whose boots and time stamp samples, and for interfaces 1.3.6.1.2.1.2 and 1.3.6.1.2.1.31")]
    NoEngine,
    /// A name does not come after the one before it.
    #[error("the agent's answers do not rise")]
    NotRising,
    /// A name in a column of interfaces whose index is not one number.
    #[error("an interface's index is not one number")]
    BadIndex,
    /// No interface that is chosen and that the agent shows this community has a counter of these
    /// kinds.
    #[error("no interface that is chosen has a counter of these kinds, or a view hides it from this community: permit 1.3.6.1.2.1.2 and 1.3.6.1.2.1.31")]
    NoCounter,
    /// More than 256 counters, which are this many.
    #[error("{0} counters are more than the 256 of a station: choose fewer by --match, --up or --only; without --append, --split gives several settings")]
    TooMany(usize),
    /// An option's text has a quote, a backslash or an octet outside 20 to 7E.
    #[error("a text has a quote, a backslash or an octet outside 20 to 7E")]
    BadText,
    /// The text is no settings: an option is out of its range.
    #[error("these are no settings: {0}")]
    Refused(SettingsFault),
    /// The text is read as other settings than those that were meant.
    #[error("the settings are read as others than those that were meant")]
    Misread,
    /// A target of the settings is an agent of this engine id.
    #[error("a target of the settings has this agent's engine id")]
    SameEngine,
    /// More than 64 targets in all, which are this many.
    #[error("{0} targets are more than the 64 of a station: choose fewer counters by --match, --up or --only")]
    TooManyTargets(usize),
    /// A file of labels that is not TOML, or has no list of tables `interface`.
    #[error("this is no file of labels: a TOML text with [[interface]] tables")]
    BadLabels,
    /// A file of labels of more than 4,096 interfaces, which are this many.
    #[error("{0} interfaces are more than the 4,096 of a file of labels: choose fewer by --match or --up")]
    TooManyInterfaces(usize),
    /// The agent's engine id was another one at the end of the walk than at its start.
    #[error("the agent's engine id changed during the walk: is another agent behind this address?")]
    EngineChanged,
    /// No target of the settings is an agent of this engine id.
    #[error("no target of the settings has this agent's engine id: is it another agent, or are these the settings of another one?")]
    OtherEngine,
}

impl SurveyFault {
    /// The number of the fault, 1 to 15.
    pub fn number(self) -> u8
        ensures { result ≡ number_of self }
    {
        match self {
            SurveyFault::OutOfMemory => 1,
            SurveyFault::NoEngine => 2,
            SurveyFault::NotRising => 3,
            SurveyFault::BadIndex => 4,
            SurveyFault::NoCounter => 5,
            SurveyFault::TooMany(_) => 6,
            SurveyFault::BadText => 7,
            SurveyFault::Refused(_) => 8,
            SurveyFault::Misread => 9,
            SurveyFault::SameEngine => 10,
            SurveyFault::TooManyTargets(_) => 11,
            SurveyFault::BadLabels => 12,
            SurveyFault::TooManyInterfaces(_) => 13,
            SurveyFault::EngineChanged => 14,
            SurveyFault::OtherEngine => 15,
        }
    }

    /// The name of the fault, as a printed line gives it.
    pub fn name(self) -> &'static str
        ensures { result.now ≡ name_of self }
    {
        match self {
            SurveyFault::OutOfMemory => "OutOfMemory",
            SurveyFault::NoEngine => "NoEngine",
            SurveyFault::NotRising => "NotRising",
            SurveyFault::BadIndex => "BadIndex",
            SurveyFault::NoCounter => "NoCounter",
            SurveyFault::TooMany(_) => "TooMany",
            SurveyFault::BadText => "BadText",
            SurveyFault::Refused(_) => "Refused",
            SurveyFault::Misread => "Misread",
            SurveyFault::SameEngine => "SameEngine",
            SurveyFault::TooManyTargets(_) => "TooManyTargets",
            SurveyFault::BadLabels => "BadLabels",
            SurveyFault::TooManyInterfaces(_) => "TooManyInterfaces",
            SurveyFault::EngineChanged => "EngineChanged",
            SurveyFault::OtherEngine => "OtherEngine",
        }
    }
}

impl From<AllocError> for SurveyFault {
    ghost from_gives = { λ _ e. e ≡ OutOfMemory };

    fn from(_e: AllocError) -> SurveyFault {
        SurveyFault::OutOfMemory
    }
}

impl<T: Drop> From<AllocFailed<T>> for SurveyFault {
    ghost from_gives = { λ _ e. e ≡ OutOfMemory };

    fn from(_e: AllocFailed<T>) -> SurveyFault {
        SurveyFault::OutOfMemory
    }
}
