//! Places in the settings.

ghost use Rattle.std.specs.Prelude.{◌≡◌};
ghost use Rattle.mon_settings.specs.Place.{place_within};

use crate::key::Key;
use std::fmt;

/// One step into a table.
#[derive(Clone, Copy)]
pub enum PathPart {
    /// The value of a key.
    Value(Key),
    /// An entry of the list at a key. The first one is 1.
    Entry(Key, usize),
}

/// A place in the settings: `limit`, `access[2].model`, `interface[1].in_octets.rate` or
/// `target[1].objects[2].name`. Tables nest no deeper.
#[derive(Clone, Copy)]
pub enum Place {
    /// The table that is read, as a whole: of a text its top table.
    Whole,
    /// In the top table.
    At(PathPart),
    /// In a table of the top table: first the step to that table.
    In(PathPart, PathPart),
    /// In a table of such a table: first the steps to it.
    Inside(PathPart, PathPart, PathPart),
}

impl Place {
    /// Returns a place in a table as it is called from around it. There is none below three steps:
    /// a fourth would be left out.
    pub(crate) fn within(self, step: PathPart) -> Place
        ensures { result ≡ place_within step self }
    {
        match self {
            Place::Whole => Place::At(step),
            Place::At(last) => Place::In(step, last),
            Place::In(table, last) | Place::Inside(table, last, _) => {
                Place::Inside(step, table, last)
            }
        }
    }
}

/// A key, and for an entry its number: `limit`, `access[2]`.
impl fmt::Display for PathPart {
    ghost use Rattle.std.specs.Prelude.{Some};
    ghost use Rattle.mon_settings.specs.Place.{step_text};

    ghost output = { λ s. Some (step_text s) };

    fn fmt<W: fmt::Write>(&self, f: &mut fmt::Formatter<W>) -> fmt::Result {
        match self {
            PathPart::Value(key) => write!(f, "{key}"),
            PathPart::Entry(key, number) => write!(f, "{key}[{number}]"),
        }
    }
}

/// The steps, with dots between them: `access[2].model`. The top table is `the settings`.
impl fmt::Display for Place {
    ghost use Rattle.std.specs.Prelude.{Some};
    ghost use Rattle.mon_settings.specs.Place.{place_text};

    ghost output = { λ p. Some (place_text p) };

    fn fmt<W: fmt::Write>(&self, f: &mut fmt::Formatter<W>) -> fmt::Result {
        match self {
            Place::Whole => f.write_str("the settings"),
            Place::At(last) => write!(f, "{last}"),
            Place::In(table, last) => write!(f, "{table}.{last}"),
            Place::Inside(first, table, last) => write!(f, "{first}.{table}.{last}"),
        }
    }
}
