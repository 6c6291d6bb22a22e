//! The objects that a Set may change, and how their values are read.

ghost use Rattle.std.specs.Prelude.{◌≡◌, ◌≤◌, length, IfOk, IfErr};
ghost use Rattle.mon_ber.specs.declared.value.Value.TheVariants as ber;
ghost use Rattle.mon_mib.specs.Status.{admin_number};
ghost use Rattle.mon_mib.specs.Tried.{IsBadText, IsBadStatus};

use crate::admin_status::AdminStatus;
use crate::facts::SysText;
use crate::set_status::SetStatus;
use mon_ber::Value;

/// An object that a Set may change.
#[derive(Clone, Copy)]
pub(crate) enum Writable {
    /// sysContact, sysName or sysLocation.
    SysText(SysText),
    /// ifAdminStatus.
    AdminStatus,
    /// ifAlias.
    Alias,
}

/// The text of a value of at most this many octets.
pub(crate) fn read_text(value: &Value, longest: usize) -> Result<&[u8], SetStatus>
    ensures text { IfOk result (λ text. (value.now ≡ ber.Octets text.now)
        × (length text.now ≤ longest)) }
    ensures refused { IfErr result (IsBadText value.now longest) }
{
    let Value::Octets(octets) = value else {
        return Err(SetStatus::WrongType);
    };
    let text = octets.as_slice();
    if text.len() > longest {
        return Err(SetStatus::WrongLength);
    }
    Ok(text)
}

/// Returns the administrative status that a value means.
pub(crate) fn read_status(value: &Value) -> Result<AdminStatus, SetStatus>
    ensures status { IfOk result (λ status. value.now ≡ ber.Integer (admin_number status)) }
    ensures refused { IfErr result (IsBadStatus value.now) }
{
    let Value::Integer(number) = value else {
        return Err(SetStatus::WrongType);
    };
    AdminStatus::from_number(*number).ok_or(SetStatus::WrongValue)
}
