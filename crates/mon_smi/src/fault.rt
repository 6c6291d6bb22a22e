ghost use Rattle.std.specs.Prelude.{◌≡◌};
ghost use Rattle.mon_smi.specs.declared.fault.NamesFault.TheVariants as names;
ghost use Rattle.mon_smi.specs.Faults.{number_of_names, name_of_names};

use std::alloc::{AllocError, AllocFailed};
use thiserror::Error;

/// Why a name means nothing, or why definitions can't be added.
#[derive(Clone, Copy, Debug, Error)]
pub enum NamesFault {
    /// Memory was refused.
    #[error("out of memory")]
    OutOfMemory,
    /// A value's name is defined twice.
    #[error("a name is defined twice")]
    Duplicate(Clash),
    /// The text is neither a name nor numbers. Its number and name are those of `Unknown`.
    #[error("{0}")]
    Formless(FormFault),
    /// The chain of parents comes to a name that is not defined.
    #[error("a name is not defined")]
    Unknown,
    /// The chain of parents comes to a name that it has passed.
    #[error("a name is defined by itself")]
    Cycle,
    /// More than 128 sub-identifiers.
    #[error("more than 128 sub-identifiers")]
    TooDeep,
    /// Fewer than 2 sub-identifiers, or the first two are out of range.
    #[error("no object identifier")]
    BadIdentifier,
}

/// A definition whose name an earlier one has.
#[derive(Clone, Copy, Debug, PartialEq, Eq)]
pub struct Clash {
    /// The index of the definition in its module, from 0.
    pub added: usize,
    /// The index of the earlier definition, from 0, in the known ones with those of the module
    /// after them. From the number of the known ones on it is in the module too.
    pub earlier: usize,
}

/// Why a text is neither a name nor numbers, by the form that it must have.
#[derive(Clone, Copy, Debug, PartialEq, Eq, Error)]
pub enum FormFault {
    /// It begins with a dot.
    #[error("numbers without a dot in front are wanted, as 1.3.6.1")]
    LeadingDot,
    /// It has a colon, as between the name of a module and one of its names.
    #[error("a name without its module is wanted, as ifInOctets.1")]
    Colon,
    /// Any other text.
    #[error("numbers with dots between them are wanted, as 1.3.6.1, or a name, as ifInOctets.1")]
    Other,
}

impl NamesFault {
    /// The number of the fault: 1, or 4 to 8.
    pub fn number(self) -> u8
        ensures { result ≡ number_of_names self }
    {
        match self {
            NamesFault::OutOfMemory => 1,
            NamesFault::Duplicate(_) => 4,
            NamesFault::Formless(_) | NamesFault::Unknown => 5,
            NamesFault::Cycle => 6,
            NamesFault::TooDeep => 7,
            NamesFault::BadIdentifier => 8,
        }
    }

    /// The name of the fault, as a report prints it.
    pub fn name(self) -> &'static str
        ensures { result.now ≡ name_of_names self }
    {
        match self {
            NamesFault::OutOfMemory => "OutOfMemory",
            NamesFault::Duplicate(_) => "Duplicate",
            NamesFault::Formless(_) | NamesFault::Unknown => "Unknown",
            NamesFault::Cycle => "Cycle",
            NamesFault::TooDeep => "TooDeep",
            NamesFault::BadIdentifier => "BadIdentifier",
        }
    }
}

impl From<AllocError> for NamesFault {
    ghost from_gives = { λ _ e. e ≡ names.OutOfMemory };

    fn from(_e: AllocError) -> NamesFault {
        NamesFault::OutOfMemory
    }
}

impl<T: Drop> From<AllocFailed<T>> for NamesFault {
    ghost from_gives = { λ _ e. e ≡ names.OutOfMemory };

    fn from(_e: AllocFailed<T>) -> NamesFault {
        NamesFault::OutOfMemory
    }
}
