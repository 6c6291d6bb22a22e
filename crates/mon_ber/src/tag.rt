//! The tags of values (RFC 2578 section 7.1, RFC 3416 section 3).

ghost use Rattle.std.specs.Prelude.{◌≡◌};
ghost use Rattle.mon_ber.specs.Grammar.{octet_of, kind_of, tag_of};

use crate::value::Value;

/// The tag of an INTEGER (X.690 8.3).
pub const INTEGER: u8 = 0x02;

/// The tag of an OCTET STRING (X.690 8.7).
pub const OCTET_STRING: u8 = 0x04;

/// The tag of an OBJECT IDENTIFIER (X.690 8.19).
pub const OBJECT_IDENTIFIER: u8 = 0x06;

/// The tag of a SEQUENCE, whose contents are elements (X.690 8.9).
pub const SEQUENCE: u8 = 0x30;

/// The kinds of values, each with a tag of its own.
#[derive(Clone, Copy, Debug, PartialEq, Eq)]
pub enum Tag {
    /// INTEGER, 0x02.
    Integer,
    /// OCTET STRING, 0x04.
    OctetString,
    /// NULL, 0x05.
    Null,
    /// OBJECT IDENTIFIER, 0x06.
    ObjectIdentifier,
    /// IpAddress, 0x40.
    IpAddress,
    /// Counter32, 0x41.
    Counter32,
    /// Gauge32 and Unsigned32, 0x42.
    Gauge32,
    /// TimeTicks, 0x43.
    TimeTicks,
    /// Opaque, 0x44.
    Opaque,
    /// Counter64, 0x46.
    Counter64,
    /// noSuchObject, 0x80.
    NoSuchObject,
    /// noSuchInstance, 0x81.
    NoSuchInstance,
    /// endOfMibView, 0x82.
    EndOfMibView,
}

impl Tag {
    /// The octet that means the tag.
    pub fn octet(self) -> u8
        ensures { result ≡ octet_of self }
    {
        match self {
            Tag::Integer => 0x02,
            Tag::OctetString => 0x04,
            Tag::Null => 0x05,
            Tag::ObjectIdentifier => 0x06,
            Tag::IpAddress => 0x40,
            Tag::Counter32 => 0x41,
            Tag::Gauge32 => 0x42,
            Tag::TimeTicks => 0x43,
            Tag::Opaque => 0x44,
            Tag::Counter64 => 0x46,
            Tag::NoSuchObject => 0x80,
            Tag::NoSuchInstance => 0x81,
            Tag::EndOfMibView => 0x82,
        }
    }

    /// The tag of a value.
    pub fn of(value: &Value) -> Tag
        ensures { result ≡ tag_of value.now }
    {
        match value {
            Value::Integer(_) => Tag::Integer,
            Value::Octets(_) => Tag::OctetString,
            Value::Null => Tag::Null,
            Value::Name(_) => Tag::ObjectIdentifier,
            Value::IpAddress(_) => Tag::IpAddress,
            Value::Counter32(_) => Tag::Counter32,
            Value::Gauge32(_) => Tag::Gauge32,
            Value::TimeTicks(_) => Tag::TimeTicks,
            Value::Opaque(_) => Tag::Opaque,
            Value::Counter64(_) => Tag::Counter64,
            Value::NoSuchObject => Tag::NoSuchObject,
            Value::NoSuchInstance => Tag::NoSuchInstance,
            Value::EndOfMibView => Tag::EndOfMibView,
        }
    }

    /// Returns the tag that the octet means, if it is one of a value.
    pub fn from_octet(octet: u8) -> Option<Tag>
        ensures { result ≡ kind_of octet }
    {
        match octet {
            0x02 => Some(Tag::Integer),
            0x04 => Some(Tag::OctetString),
            0x05 => Some(Tag::Null),
            0x06 => Some(Tag::ObjectIdentifier),
            0x40 => Some(Tag::IpAddress),
            0x41 => Some(Tag::Counter32),
            0x42 => Some(Tag::Gauge32),
            0x43 => Some(Tag::TimeTicks),
            0x44 => Some(Tag::Opaque),
            0x46 => Some(Tag::Counter64),
            0x80 => Some(Tag::NoSuchObject),
            0x81 => Some(Tag::NoSuchInstance),
            0x82 => Some(Tag::EndOfMibView),
            _ => None,
        }
    }
}
