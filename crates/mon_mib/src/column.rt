ghost use Rattle.std.specs.Prelude.{◌≡◌};
ghost use Rattle.mon_mib.specs.Objects.{column_row};
ghost use Rattle.mon_mib.specs.Standing.{as_row};

use crate::row::{Row, read_only, read_write};
use mon_ber::Tag;

/// The served columns of ifTable and ifXTable (RFC 2863 section 6): a variable for each interface,
/// whose instance is its ifIndex.
#[derive(Clone, Copy, PartialEq, Eq)]
pub enum Column {
    /// ifIndex: the interface's number, from 1 on.
    IfIndex,
    /// ifDescr: what the interface is.
    IfDescr,
    /// ifType: its type, by its number of IANAifType.
    IfType,
    /// ifMtu: the largest packet, in octets.
    IfMtu,
    /// ifSpeed: bits a second, at most 4294967295.
    IfSpeed,
    /// ifPhysAddress: its address below the network layer.
    IfPhysAddress,
    /// ifAdminStatus: the status that is asked for.
    IfAdminStatus,
    /// ifOperStatus: the status that it is in.
    IfOperStatus,
    /// ifLastChange: sysUpTime when it came into that status.
    IfLastChange,
    /// ifInOctets: octets received, modulo 2^32.
    IfInOctets,
    /// ifInUcastPkts: unicast packets received, modulo 2^32.
    IfInUcastPkts,
    /// ifInDiscards: packets received and discarded.
    IfInDiscards,
    /// ifInErrors: packets received with errors.
    IfInErrors,
    /// ifInUnknownProtos: packets received of an unknown protocol.
    IfInUnknownProtos,
    /// ifOutOctets: octets sent, modulo 2^32.
    IfOutOctets,
    /// ifOutUcastPkts: unicast packets sent, modulo 2^32.
    IfOutUcastPkts,
    /// ifOutDiscards: packets discarded before they were sent.
    IfOutDiscards,
    /// ifOutErrors: packets not sent because of errors.
    IfOutErrors,
    /// ifName: the interface's name.
    IfName,
    /// ifHCInOctets: octets received.
    IfHcInOctets,
    /// ifHCInUcastPkts: unicast packets received.
    IfHcInUcastPkts,
    /// ifHCOutOctets: octets sent.
    IfHcOutOctets,
    /// ifHCOutUcastPkts: unicast packets sent.
    IfHcOutUcastPkts,
    /// ifHighSpeed: millions of bits a second, rounded.
    IfHighSpeed,
    /// ifAlias: a name that the manager gives it, 0 to 64 octets.
    IfAlias,
    /// ifCounterDiscontinuityTime: sysUpTime when its counters last jumped.
    IfCounterDiscontinuityTime,
}

impl Column {
    /// What the standards give of it.
    pub(crate) fn row(self) -> Row
        ensures { as_row result ≡ column_row self }
    {
        match self {
            Self::IfIndex => read_only(Tag::Integer, &[1, 3, 6, 1, 2, 1, 2, 2, 1, 1]),
            Self::IfDescr => read_only(Tag::OctetString, &[1, 3, 6, 1, 2, 1, 2, 2, 1, 2]),
            Self::IfType => read_only(Tag::Integer, &[1, 3, 6, 1, 2, 1, 2, 2, 1, 3]),
            Self::IfMtu => read_only(Tag::Integer, &[1, 3, 6, 1, 2, 1, 2, 2, 1, 4]),
            Self::IfSpeed => read_only(Tag::Gauge32, &[1, 3, 6, 1, 2, 1, 2, 2, 1, 5]),
            Self::IfPhysAddress => read_only(Tag::OctetString, &[1, 3, 6, 1, 2, 1, 2, 2, 1, 6]),
            Self::IfAdminStatus => read_write(Tag::Integer, &[1, 3, 6, 1, 2, 1, 2, 2, 1, 7]),
            Self::IfOperStatus => read_only(Tag::Integer, &[1, 3, 6, 1, 2, 1, 2, 2, 1, 8]),
            Self::IfLastChange => read_only(Tag::TimeTicks, &[1, 3, 6, 1, 2, 1, 2, 2, 1, 9]),
            Self::IfInOctets => read_only(Tag::Counter32, &[1, 3, 6, 1, 2, 1, 2, 2, 1, 10]),
            Self::IfInUcastPkts => read_only(Tag::Counter32, &[1, 3, 6, 1, 2, 1, 2, 2, 1, 11]),
            Self::IfInDiscards => read_only(Tag::Counter32, &[1, 3, 6, 1, 2, 1, 2, 2, 1, 13]),
            Self::IfInErrors => read_only(Tag::Counter32, &[1, 3, 6, 1, 2, 1, 2, 2, 1, 14]),
            Self::IfInUnknownProtos => read_only(Tag::Counter32, &[1, 3, 6, 1, 2, 1, 2, 2, 1, 15]),
            Self::IfOutOctets => read_only(Tag::Counter32, &[1, 3, 6, 1, 2, 1, 2, 2, 1, 16]),
            Self::IfOutUcastPkts => read_only(Tag::Counter32, &[1, 3, 6, 1, 2, 1, 2, 2, 1, 17]),
            Self::IfOutDiscards => read_only(Tag::Counter32, &[1, 3, 6, 1, 2, 1, 2, 2, 1, 19]),
            Self::IfOutErrors => read_only(Tag::Counter32, &[1, 3, 6, 1, 2, 1, 2, 2, 1, 20]),
            Self::IfName => read_only(Tag::OctetString, &[1, 3, 6, 1, 2, 1, 31, 1, 1, 1, 1]),
            Self::IfHcInOctets => read_only(Tag::Counter64, &[1, 3, 6, 1, 2, 1, 31, 1, 1, 1, 6]),
            Self::IfHcInUcastPkts => read_only(Tag::Counter64, &[1, 3, 6, 1, 2, 1, 31, 1, 1, 1, 7]),
            Self::IfHcOutOctets => read_only(Tag::Counter64, &[1, 3, 6, 1, 2, 1, 31, 1, 1, 1, 10]),
            Self::IfHcOutUcastPkts => read_only(
                Tag::Counter64,
                &[1, 3, 6, 1, 2, 1, 31, 1, 1, 1, 11],
            ),
            Self::IfHighSpeed => read_only(Tag::Gauge32, &[1, 3, 6, 1, 2, 1, 31, 1, 1, 1, 15]),
            Self::IfAlias => read_write(Tag::OctetString, &[1, 3, 6, 1, 2, 1, 31, 1, 1, 1, 18]),
            Self::IfCounterDiscontinuityTime => read_only(
                Tag::TimeTicks,
                &[1, 3, 6, 1, 2, 1, 31, 1, 1, 1, 19],
            ),
        }
    }
}
