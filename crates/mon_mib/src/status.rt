//! The administrative status of an interface, with the time at which it was set.

ghost use Rattle.std.specs.Prelude.{◌≡◌};
ghost use Rattle.mon_mib.specs.Held.{at_start};

use crate::admin_status::AdminStatus;

/// What a Set of ifAdminStatus changes of an interface (RFC 2863 section 6). Its operational status
/// is the administrative one.
#[derive(Clone, Copy, Debug, PartialEq, Eq)]
pub struct Status {
    /// ifAdminStatus.
    pub(crate) admin: AdminStatus,
    /// ifLastChange: sysUpTime of the last Set that changed the status, or 0, in hundredths of a
    /// second modulo 2^32.
    pub(crate) since: u32,
}

impl Status {
    /// Up since the agent's start.
    pub fn new() -> Self
        ensures { result ≡ at_start }
    {
        Status {
            admin: AdminStatus::Up,
            since: 0,
        }
    }
}
