//! What a device says of itself and of its interfaces.

use crate::admin_status::AdminStatus;
use crate::oper_status::OperStatus;

/// The texts of the device that can be set (RFC 3418 section 2).
#[derive(Clone, Copy, Debug, PartialEq, Eq)]
pub enum SysText {
    /// sysContact.
    Contact,
    /// sysName.
    SystemName,
    /// sysLocation.
    Location,
}

/// The texts of an interface (RFC 2863 section 6).
#[derive(Clone, Copy, Debug, PartialEq, Eq)]
pub enum IfText {
    /// ifDescr.
    Descr,
    /// ifPhysAddress.
    Phys,
    /// ifName.
    ShortName,
    /// ifAlias.
    Alias,
}

/// The numbers of an interface at a time (ifTable and ifXTable, RFC 2863 section 6).
#[derive(Clone, Copy, Debug, PartialEq, Eq)]
pub struct Facts {
    /// ifType, a number of IANAifType.
    pub kind: i32,
    /// ifMtu, in octets.
    pub mtu: i32,
    /// Bits a second.
    pub speed: u64,
    /// ifAdminStatus.
    pub admin: AdminStatus,
    /// ifOperStatus.
    pub oper: OperStatus,
    /// ifLastChange, in hundredths of a second.
    pub last_change: u32,
    /// ifHCInOctets.
    pub in_octets: u64,
    /// ifHCInUcastPkts.
    pub in_packets: u64,
    /// ifInDiscards.
    pub in_discards: u32,
    /// ifInErrors.
    pub in_errors: u32,
    /// ifInUnknownProtos.
    pub in_unknown: u32,
    /// ifHCOutOctets.
    pub out_octets: u64,
    /// ifHCOutUcastPkts.
    pub out_packets: u64,
    /// ifOutDiscards.
    pub out_discards: u32,
    /// ifOutErrors.
    pub out_errors: u32,
    /// ifCounterDiscontinuityTime, in hundredths of a second.
    pub discontinuity: u32,
}
