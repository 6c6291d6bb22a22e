ghost use Rattle.std.specs.Prelude.{◌≡◌, ◌≢◌, IfSome, IfNone};
ghost use Rattle.mon_mib.specs.declared.admin_status.AdminStatus.{AdminStatus as AnyStatus};
ghost use Rattle.mon_mib.specs.Held.{oper_of};
ghost use Rattle.mon_mib.specs.Status.{admin_number};

use crate::oper_status::OperStatus;

/// The status that is asked of an interface (ifAdminStatus, RFC 2863 section 6).
#[derive(Clone, Copy, Debug, PartialEq, Eq)]
pub enum AdminStatus {
    /// Ready to pass packets.
    Up = 1,
    /// Passing none.
    Down = 2,
    /// In a test mode.
    Testing = 3,
}

impl AdminStatus {
    /// The number that means it, 1 to 3.
    pub fn number(self) -> i32
        ensures { result ≡ admin_number self }
    {
        self as i32
    }

    /// Returns the operational status of an interface that follows this status.
    pub fn oper(self) -> OperStatus
        ensures { result ≡ oper_of self }
    {
        match self {
            AdminStatus::Up => OperStatus::Up,
            AdminStatus::Down => OperStatus::Down,
            AdminStatus::Testing => OperStatus::Testing,
        }
    }

    /// Returns the status that a number means.
    pub(crate) fn from_number(number: i32) -> Option<Self>
        ensures some { IfSome result (λ status. number ≡ admin_number status) }
        ensures none { IfNone result ((status : AnyStatus) → number ≢ admin_number status) }
    {
        match number {
            1 => Some(AdminStatus::Up),
            2 => Some(AdminStatus::Down),
            3 => Some(AdminStatus::Testing),
            _ => None,
        }
    }
}
