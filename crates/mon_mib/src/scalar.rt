ghost use Rattle.std.specs.Prelude.{◌≡◌};
ghost use Rattle.mon_mib.specs.Objects.{scalar_row};
ghost use Rattle.mon_mib.specs.Standing.{as_row};

use crate::row::{Row, read_only, read_write};
use mon_ber::Tag;

/// The served objects with one variable, whose instance is 0 (RFC 2578 section 7.7).
#[derive(Clone, Copy, PartialEq, Eq)]
pub enum Scalar {
    /// sysDescr: what the entity is (RFC 3418).
    SysDescr,
    /// sysObjectID: the vendor's identification of the entity (RFC 3418).
    SysObjectId,
    /// sysUpTime: hundredths of a second since the start, modulo 2^32 (RFC 3418).
    SysUpTime,
    /// sysContact: whom to ask about the node, 0 to 255 octets (RFC 3418).
    SysContact,
    /// sysName: the node's name, 0 to 255 octets (RFC 3418).
    SysName,
    /// sysLocation: where the node is, 0 to 255 octets (RFC 3418).
    SysLocation,
    /// sysServices: the layers that it serves, 0 to 127 (RFC 3418).
    SysServices,
    /// ifNumber: how many interfaces there are (RFC 2863).
    IfNumber,
    /// snmpInPkts: messages received (RFC 3418).
    SnmpInPkts,
    /// snmpInBadVersions: messages of an unsupported version (RFC 3418).
    SnmpInBadVersions,
    /// snmpInBadCommunityNames: messages of an unknown community (RFC 3418).
    SnmpInBadCommunityNames,
    /// snmpInASNParseErrs: messages that could not be read (RFC 3418).
    SnmpInAsnParseErrs,
    /// snmpSilentDrops: requests dropped since no reply fits (RFC 3418).
    SnmpSilentDrops,
    /// snmpEngineID: the engine's identification, 5 to 32 octets (RFC 3411 section 5).
    SnmpEngineId,
    /// snmpEngineBoots: how often the engine has started (RFC 3411 section 5).
    SnmpEngineBoots,
    /// snmpEngineTime: seconds since the start (RFC 3411 section 5).
    SnmpEngineTime,
    /// snmpEngineMaxMessageSize: the largest message, in octets (RFC 3411 section 5).
    SnmpEngineMaxMessageSize,
}

impl Scalar {
    /// What the standards give of it.
    pub(crate) fn row(self) -> Row
        ensures { as_row result ≡ scalar_row self }
    {
        match self {
            Scalar::SysDescr => read_only(Tag::OctetString, &[1, 3, 6, 1, 2, 1, 1, 1]),
            Scalar::SysObjectId => read_only(Tag::ObjectIdentifier, &[1, 3, 6, 1, 2, 1, 1, 2]),
            Scalar::SysUpTime => read_only(Tag::TimeTicks, &[1, 3, 6, 1, 2, 1, 1, 3]),
            Scalar::SysContact => read_write(Tag::OctetString, &[1, 3, 6, 1, 2, 1, 1, 4]),
            Scalar::SysName => read_write(Tag::OctetString, &[1, 3, 6, 1, 2, 1, 1, 5]),
            Scalar::SysLocation => read_write(Tag::OctetString, &[1, 3, 6, 1, 2, 1, 1, 6]),
            Scalar::SysServices => read_only(Tag::Integer, &[1, 3, 6, 1, 2, 1, 1, 7]),
            Scalar::IfNumber => read_only(Tag::Integer, &[1, 3, 6, 1, 2, 1, 2, 1]),
            Scalar::SnmpInPkts => read_only(Tag::Counter32, &[1, 3, 6, 1, 2, 1, 11, 1]),
            Scalar::SnmpInBadVersions => read_only(Tag::Counter32, &[1, 3, 6, 1, 2, 1, 11, 3]),
            Scalar::SnmpInBadCommunityNames => read_only(
                Tag::Counter32,
                &[1, 3, 6, 1, 2, 1, 11, 4],
            ),
            Scalar::SnmpInAsnParseErrs => read_only(Tag::Counter32, &[1, 3, 6, 1, 2, 1, 11, 6]),
            Scalar::SnmpSilentDrops => read_only(Tag::Counter32, &[1, 3, 6, 1, 2, 1, 11, 31]),
            Scalar::SnmpEngineId => read_only(Tag::OctetString, &[1, 3, 6, 1, 6, 3, 10, 2, 1, 1]),
            Scalar::SnmpEngineBoots => read_only(Tag::Integer, &[1, 3, 6, 1, 6, 3, 10, 2, 1, 2]),
            Scalar::SnmpEngineTime => read_only(Tag::Integer, &[1, 3, 6, 1, 6, 3, 10, 2, 1, 3]),
            Scalar::SnmpEngineMaxMessageSize => read_only(
                Tag::Integer,
                &[1, 3, 6, 1, 6, 3, 10, 2, 1, 4],
            ),
        }
    }
}
