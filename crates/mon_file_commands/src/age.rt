//! How old a station's file is.

ghost use Rattle.std.specs.Prelude.{◌≡◌};
ghost use Rattle.mon_host.specs.Log.{GoesOnBy};
ghost use Rattle.mon_file_commands.specs.Age.{IsAgeSaid, IsSinceSaid, age_lines, seconds_between};
ghost use Rattle.mon_file_commands.specs.Line.{AreNoted};

use mon_host::{Host, Level};
use std::time::SystemTime;

/// Says how many seconds ago the file at a path was saved, and returns it: when it was changed
/// last, by the wall clock. Nothing is said, and returned, if that is not known, or is after now.
pub(crate) fn tell_age<H: Host>(host: &mut H, path: &str) -> Option<u64>
    ensures { GoesOnBy (λ log. IsAgeSaid path.now log result) (H.log host.old) (H.log host.new) }
{
    match host.changed(path).ok() {
        Some(changed) => tell_since(host, path, changed),
        None => None,
    }
}

/// Says how many seconds ago this was, when the file at a path was changed, and returns it.
fn tell_since<H: Host>(host: &mut H, path: &str, changed: SystemTime) -> Option<u64>
    ensures { GoesOnBy (λ log. IsSinceSaid path.now changed log result)
        (H.log host.old) (H.log host.new) }
{
    match host.date().ok() {
        Some(now) => {
            let seconds = seconds_between(changed, now);
            tell_seconds(host, path, seconds);
            seconds
        }
        None => None,
    }
}

/// Returns the whole seconds from one time to another; none if that is before the first.
fn seconds_between(earlier: SystemTime, later: SystemTime) -> Option<u64>
    ensures { result ≡ seconds_between earlier later }
{
    match later.duration_since(earlier) {
        Ok(passed) => Some(passed.as_secs()),
        Err(_) => None,
    }
}

/// Says how many seconds ago the file at a path was saved, if that is known.
fn tell_seconds<H: Host>(host: &mut H, path: &str, seconds: Option<u64>)
    ensures { GoesOnBy (AreNoted (age_lines path.now seconds)) (H.log host.old) (H.log host.new) }
{
    match seconds {
        None => {}
        Some(seconds) => host.note(
            Level::Info,
            format_args!("snmpmon: {path} was saved {seconds} s ago\n"),
        ),
    }
}
