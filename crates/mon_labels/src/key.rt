//! The keys of the text.

ghost use Rattle.std.specs.Prelude.{◌≡◌};
ghost use Rattle.mon_labels.specs.Key.{key_name};

use std::fmt;

/// A key of the text.
#[derive(Clone, Copy, Debug, PartialEq, Eq)]
pub enum Key {
    /// The list of interfaces.
    Interface,
    /// The engine id of an interface's agent, in hex digits.
    Engine,
    /// Its ifIndex (RFC 2863).
    Index,
    /// Its ifName (RFC 2863).
    IfName,
    /// Its ifAlias (RFC 2863).
    IfAlias,
    /// Its speed in bits a second.
    Speed,
}

impl Key {
    /// Returns how the key is written.
    pub fn name(self) -> &'static str
        ensures { result.now ≡ key_name self }
    {
        match self {
            Key::Interface => "interface",
            Key::Engine => "engine",
            Key::Index => "index",
            Key::IfName => "ifName",
            Key::IfAlias => "ifAlias",
            Key::Speed => "speed",
        }
    }

    /// Writes the key and what must be there.
    pub(crate) fn describe<W: fmt::Write>(self, f: &mut fmt::Formatter<W>) -> fmt::Result {
        let name = self.name();
        let wanted = match self {
            Key::Interface => "a list of tables",
            Key::Engine => "a text of 10 to 64 hex digits",
            Key::Index => "a number from 1 to 2147483647",
            Key::IfName | Key::IfAlias => "a text",
            Key::Speed => "a number of bits a second from 1 to 9223372036854775807",
        };
        write!(f, "{name}: {wanted} is wanted")
    }
}
