//! Why there are no labels.

ghost use Rattle.std.specs.Prelude.{◌≡◌};
ghost use Rattle.mon_labels.specs.Fault.{name_of, number_of};
ghost use Rattle.mon_labels.specs.declared.fault.LabelsFault.TheVariants.{OutOfMemory};

use crate::key::Key;
use std::alloc::{AllocError, AllocFailed};
use std::error::Error;
use std::fmt;

/// A table of the text.
#[derive(Clone, Copy, Debug)]
pub enum Place {
    /// The top table.
    Top,
    /// The interface of this number in the list. The first one is 1.
    Interface(usize),
}

/// As `interface[2]`; the top table is `the labels`.
impl fmt::Display for Place {
    fn fmt<W: fmt::Write>(&self, f: &mut fmt::Formatter<W>) -> fmt::Result {
        match self {
            Place::Top => f.write_str("the labels"),
            Place::Interface(number) => write!(f, "interface[{number}]"),
        }
    }
}

/// Why there are no labels, and where.
#[derive(Clone, Copy, Debug)]
pub enum LabelsFault {
    /// Memory was refused.
    OutOfMemory,
    /// The text is not TOML. This many octets are in front of what stopped the reader, at most all
    /// of the text. That the number is the right one is tested, and no clause says it.
    NotToml(usize),
    /// The table at this place has a key that is not asked for there.
    UnknownKey(Place),
    /// A key that must be in the table at this place is not.
    Missing(Place, Key),
    /// A value is of a wrong type or out of its range.
    BadValue(Place, Key),
    /// An interface of this number has the engine id and the index of one before it.
    Twice(usize),
    /// There are more than 4,096 interfaces.
    TooMany,
}

/// What is read, or why it is not.
pub(crate) type Read<T> = Result<T, LabelsFault>;

impl LabelsFault {
    /// Returns the number of the fault, 1 to 7.
    pub fn number(self) -> u8
        ensures { result ≡ number_of self }
    {
        match self {
            LabelsFault::OutOfMemory => 1,
            LabelsFault::NotToml(_) => 2,
            LabelsFault::UnknownKey(_) => 3,
            LabelsFault::Missing(_, _) => 4,
            LabelsFault::BadValue(_, _) => 5,
            LabelsFault::Twice(_) => 6,
            LabelsFault::TooMany => 7,
        }
    }

    /// Returns the name of the fault, as a printed line gives it.
    pub fn name(self) -> &'static str
        ensures { result.now ≡ name_of self }
    {
        match self {
            LabelsFault::OutOfMemory => "OutOfMemory",
            LabelsFault::NotToml(_) => "NotToml",
            LabelsFault::UnknownKey(_) => "UnknownKey",
            LabelsFault::Missing(_, _) => "Missing",
            LabelsFault::BadValue(_, _) => "BadValue",
            LabelsFault::Twice(_) => "Twice",
            LabelsFault::TooMany => "TooMany",
        }
    }
}

/// What is wrong, where, and what must be there:
/// `interface[2].index: a number from 1 to 2147483647 is wanted`.
impl fmt::Display for LabelsFault {
    fn fmt<W: fmt::Write>(&self, f: &mut fmt::Formatter<W>) -> fmt::Result {
        match self {
            LabelsFault::OutOfMemory => f.write_str("out of memory"),
            LabelsFault::NotToml(from) => write!(f, "the text is not TOML from octet {from} on"),
            LabelsFault::UnknownKey(place) => write!(f, "{place}: a key is unknown"),
            LabelsFault::Missing(place, key) => {
                write!(f, "{place} lacks a key: ")?;
                key.describe(f)
            }
            LabelsFault::BadValue(place, key) => {
                write!(f, "{place}: ")?;
                key.describe(f)
            }
            LabelsFault::Twice(number) => {
                write!(
                    f,
                    "interface[{number}]: an interface before it has its engine id and its index"
                )
            }
            LabelsFault::TooMany => f.write_str("there are more than 4096 interfaces"),
        }
    }
}

impl Error for LabelsFault {}

impl From<AllocError> for LabelsFault {
    ghost from_gives = { λ _ e. e ≡ OutOfMemory };

    fn from(_e: AllocError) -> LabelsFault {
        LabelsFault::OutOfMemory
    }
}

impl<T: Drop> From<AllocFailed<T>> for LabelsFault {
    ghost from_gives = { λ _ e. e ≡ OutOfMemory };

    fn from(_e: AllocFailed<T>) -> LabelsFault {
        LabelsFault::OutOfMemory
    }
}
