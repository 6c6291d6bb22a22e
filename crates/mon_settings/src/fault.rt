ghost use Rattle.std.specs.Prelude.{◌≡◌};
ghost use Rattle.mon_settings.specs.SettingsFault.{bad_value, fault_within, missing_key, number_of, name_of};
ghost use Rattle.mon_settings.specs.declared.fault.SettingsFault.TheVariants.{OutOfMemory};

use crate::key::Key;
use crate::place::{PathPart, Place};
use std::alloc::{AllocError, AllocFailed};
use std::error::Error;
use std::fmt;

/// Why there are no settings, and the place of the cause.
#[derive(Clone, Copy)]
pub enum SettingsFault {
    /// Memory was refused.
    OutOfMemory,
    /// The text is not TOML. This many octets are in front of what stopped the reader, at most all
    /// of the text. That the number is the right one is tested, and no clause says it.
    NotToml(usize),
    /// A key that must be there is not.
    Missing(Place),
    /// A value is of a wrong type, out of its range, or at odds with the rest of its list.
    BadValue(Place),
    /// The table at this place has a key that is not asked for there.
    UnknownKey(Place),
    /// The name of an object does not resolve.
    UnknownObject(Place),
}

/// The value that was read, or a return with its fault, before which what follows `drop` is
/// dropped. It is `?` where the fault is of the function's own type, and its proof takes half the
/// time.
macro_rules! given {
    ($read:expr $(, drop $owned:ident)*) => {
        match $read {
            Ok(value) => value,
            Err(fault) => {
                $(drop($owned);)*
                return Err(fault);
            }
        }
    };
}

pub(crate) use given;

/// What is read, or why it is not.
pub(crate) type Read<T> = Result<T, SettingsFault>;

impl SettingsFault {
    /// The number of the fault, 1 to 6.
    pub fn number(self) -> u8
        ensures { result ≡ number_of self }
    {
        match self {
            SettingsFault::OutOfMemory => 1,
            SettingsFault::NotToml(_) => 2,
            SettingsFault::Missing(_) => 3,
            SettingsFault::BadValue(_) => 4,
            SettingsFault::UnknownKey(_) => 5,
            SettingsFault::UnknownObject(_) => 6,
        }
    }

    /// The name of the fault, as a printed line gives it.
    pub fn name(self) -> &'static str
        ensures { result.now ≡ name_of self }
    {
        match self {
            SettingsFault::OutOfMemory => "OutOfMemory",
            SettingsFault::NotToml(_) => "NotToml",
            SettingsFault::Missing(_) => "Missing",
            SettingsFault::BadValue(_) => "BadValue",
            SettingsFault::UnknownKey(_) => "UnknownKey",
            SettingsFault::UnknownObject(_) => "UnknownObject",
        }
    }

    /// A key of the table that is read is missing.
    pub(crate) fn missing(key: Key) -> SettingsFault
        ensures { result ≡ missing_key key }
    {
        SettingsFault::Missing(Place::At(PathPart::Value(key)))
    }

    /// The value at a key of the table that is read is bad.
    pub(crate) fn bad(key: Key) -> SettingsFault
        ensures { result ≡ bad_value key }
    {
        SettingsFault::BadValue(Place::At(PathPart::Value(key)))
    }

    /// A fault of a table, as it is called from around the table, from where this step leads to it.
    pub(crate) fn within(self, step: PathPart) -> SettingsFault
        ensures { result ≡ fault_within step self }
    {
        match self {
            SettingsFault::OutOfMemory => SettingsFault::OutOfMemory,
            SettingsFault::NotToml(from) => SettingsFault::NotToml(from),
            SettingsFault::Missing(place) => SettingsFault::Missing(place.within(step)),
            SettingsFault::BadValue(place) => SettingsFault::BadValue(place.within(step)),
            SettingsFault::UnknownKey(place) => SettingsFault::UnknownKey(place.within(step)),
            SettingsFault::UnknownObject(place) => SettingsFault::UnknownObject(place.within(step)),
        }
    }
}

/// What is wrong, where, and what must be there: `access[2].model: 0 or 2 is wanted`.
impl fmt::Display for SettingsFault {
    fn fmt<W: fmt::Write>(&self, f: &mut fmt::Formatter<W>) -> fmt::Result {
        match self {
            SettingsFault::OutOfMemory => f.write_str("out of memory"),
            SettingsFault::NotToml(_) => f.write_str("the text is not TOML"),
            SettingsFault::Missing(place) => {
                let wanted = place.describe();
                write!(f, "{place} is missing: {wanted}")
            }
            SettingsFault::BadValue(place) => {
                let wanted = place.describe();
                write!(f, "{place}: {wanted}")
            }
            SettingsFault::UnknownKey(place) => write!(f, "{place}: a key is unknown"),
            SettingsFault::UnknownObject(place) => {
                let wanted = place.describe();
                write!(f, "{place}: no object has this name; {wanted}")
            }
        }
    }
}

/// As it is displayed.
impl fmt::Debug for SettingsFault {
    fn fmt<W: fmt::Write>(&self, f: &mut fmt::Formatter<W>) -> fmt::Result {
        write!(f, "{self}")
    }
}

impl Error for SettingsFault {}

impl From<AllocError> for SettingsFault {
    ghost from_gives = { λ _ e. e ≡ OutOfMemory };

    fn from(_e: AllocError) -> SettingsFault {
        SettingsFault::OutOfMemory
    }
}

impl<T: Drop> From<AllocFailed<T>> for SettingsFault {
    ghost from_gives = { λ _ e. e ≡ OutOfMemory };

    fn from(_e: AllocFailed<T>) -> SettingsFault {
        SettingsFault::OutOfMemory
    }
}
