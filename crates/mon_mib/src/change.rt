//! What a Set changes of a device.

use crate::admin_status::AdminStatus;
use crate::facts::SysText;
use mon_ber::Octets;

/// A change of one thing that a device holds (RFC 3416 section 4.2.5).
#[derive(Debug, Drop)]
pub enum Change {
    /// A text of the device is this one.
    SysText(SysText, Octets),
    /// The administrative and operational status of an interface is this one, and was set then.
    Admin {
        /// ifIndex.
        index: u32,
        /// ifAdminStatus.
        status: AdminStatus,
        /// ifLastChange, in hundredths of a second modulo 2^32.
        since: u32,
    },
    /// The ifAlias of the interface of an ifIndex is this one.
    Alias(u32, Octets),
}
