//! What must be at each place of the settings, in plain words.

use crate::key::Key;
use crate::place::{PathPart, Place};

impl Place {
    /// Says what must be at this place, for a reader: `0 or 2 is wanted`.
    pub fn describe(self) -> &'static str {
        match self {
            Place::At(PathPart::Value(key)) => at_top(key),
            Place::At(PathPart::Entry(Key::Alarm, _)) => {
                "a table is wanted; its object has to be one of a target with this engine, and no rule may be given twice"
            }
            Place::In(PathPart::Entry(table, _), PathPart::Value(key)) => in_table(table, key),
            Place::Inside(_, PathPart::Entry(table, _), PathPart::Value(key)) => in_table(
                table, key,
            ),
            Place::Inside(_, PathPart::Value(_), PathPart::Value(key)) => number(key),
            _ => "a table is wanted",
        }
    }
}

/// What must be at a key of the top table.
fn at_top(key: Key) -> &'static str {
    match key {
        Key::Community => "a list of at most 256 tables is wanted; no community may be given twice",
        Key::Group => "a list of at most 256 tables is wanted",
        Key::Access => {
            "a list of at most 256 tables is wanted; each view that is named has to have a table in `view`"
        }
        Key::View => {
            "a list of at most 256 tables is wanted; no view may be given a subtree twice"
        }
        Key::Interface => "a list of at most 256 tables is wanted; `index` has to rise",
        Key::Modules => "a list of at most 256 texts, of at most 4095 octets each, is wanted",
        Key::Target => {
            "a list of 1 to 64 tables is wanted; at an engine no object may be named twice, and in all at most 256 may be named"
        }
        Key::Peer => {
            "a list of at most 15 tables is wanted; none may have the number of this station or of another peer, nor the address of a target"
        }
        Key::Alarm => "a list of at most 256 tables is wanted",
        _ => value(key),
    }
}

/// What must be at a key of a table in a list.
fn in_table(table: Key, key: Key) -> &'static str {
    match key {
        Key::Name => match table {
            Key::Objects | Key::Alarm =>
                "a dotted identifier, or a known name with numbers after it, is wanted",
            _ => value(key),
        },
        Key::Community => "a text of 1 to 512 octets is wanted",
        Key::Group | Key::View => "a text of 1 to 32 octets is wanted",
        Key::Objects => "a list of 1 to 16 tables is wanted",
        Key::InOctets | Key::InPackets | Key::OutOctets | Key::OutPackets => {
            "a table of `start` and `rate` is wanted"
        }
        _ => value(key),
    }
}

/// What must be at a key that means the same in each table.
fn value(key: Key) -> &'static str {
    match key {
        Key::Listen | Key::Address => "a.b.c.d:port is wanted",
        Key::Engine => "an even number of hex digits, for 5 to 32 octets, is wanted",
        Key::Mask => "an even number of hex digits, for at most 16 octets, is wanted",
        Key::Phys => "an even number of hex digits, for at most 255 octets, is wanted",
        Key::ObjectId | Key::Subtree => "a dotted identifier is wanted",
        Key::Mark => "a dotted identifier, or a known name with numbers after it, is wanted",
        Key::Descr | Key::Contact | Key::Name | Key::Location => {
            "a text of at most 255 octets is wanted"
        }
        Key::Alias => "a text of at most 64 octets is wanted",
        Key::Label => "a text of 1 to 64 octets is wanted",
        Key::File => "a text of at most 4095 octets is wanted",
        Key::Security | Key::Read | Key::Write => "a text of 1 to 32 octets is wanted",
        Key::Included => "true or false is wanted",
        _ => number(key),
    }
}

/// What must be at a key of a number.
fn number(key: Key) -> &'static str {
    match key {
        Key::Limit => "484 to 8192 is wanted",
        Key::Boots | Key::Index => "1 to 2147483647 is wanted",
        Key::Services => "0 to 127 is wanted",
        Key::Model => "0 or 2 is wanted",
        Key::Type | Key::Mtu => "0 to 2147483647 is wanted",
        Key::Speed | Key::Start | Key::Rate => "0 to 9223372036854775807 is wanted",
        Key::Station => "1 to 4294967295 is wanted",
        Key::Window => "1 to 64 is wanted",
        Key::Epoch => "1 to the window is wanted",
        Key::WaitMs => "1 to 60000 is wanted",
        Key::Tries => "1 to 8 is wanted",
        Key::Rising => "a whole number is wanted",
        Key::Falling => "a whole number is wanted; it has to be below `rising`",
        _ => "another value is wanted",
    }
}
