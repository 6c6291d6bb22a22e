//! What the table and the page say of an instance alike.

ghost use Rattle.std.specs.Prelude.{◌≡◌, IfOk};
ghost use Rattle.std.specs.List.{list_any};
ghost use Rattle.mon_alarms.specs.Changes.{is_raised};
ghost use Rattle.mon_page.specs.Cells.{alarm_cell, has_raised, state_cell};

use mon_report::{Alarm, Entry};
use std::alloc::{AllocError, Global};

/// Returns what the alarm's cell of an instance says: `stale` if the instance is, else whether an
/// alarm is raised.
///
/// # Errors
/// `AllocError` if there is no memory for the alarms.
pub fn state_cell(alloc: Global, entry: &Entry, is_fresh: bool) -> Result<&'static str, AllocError>
    ensures { IfOk result (λ text. text.now ≡ state_cell is_fresh entry.now.alarms) }
{
    if !is_fresh {
        return Ok("stale");
    }
    alarm_cell(alloc, entry)
}

/// Returns `RAISED` if the alarm of a rule on the instance is raised, else `clear`; a dash if there
/// is no rule.
fn alarm_cell(alloc: Global, entry: &Entry) -> Result<&'static str, AllocError>
    ensures { IfOk result (λ text. text.now ≡ alarm_cell entry.now.alarms) }
{
    let alarms = entry.alarms(alloc)?;
    if alarms.is_empty() {
        return Ok("-");
    }
    if is_any_raised(&alarms) {
        return Ok("RAISED");
    }
    Ok("clear")
}

/// Returns `true` if an alarm of a rule on the instance is raised.
pub(crate) fn has_raised(alloc: Global, entry: &Entry) -> Result<bool, AllocError>
    ensures { IfOk result (λ raised. raised ≡ has_raised entry.now.alarms) }
{
    let alarms = entry.alarms(alloc)?;
    Ok(is_any_raised(&alarms))
}

/// Returns `true` if one of the alarms is raised.
fn is_any_raised(alarms: &[Alarm]) -> bool
    ensures { result ≡ list_any (λ alarm. is_raised alarm.state) alarms.now }
{
    alarms.iter().any(|alarm| alarm.state.is_raised())
}
