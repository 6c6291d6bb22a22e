//! Settings that change while their station runs.

ghost use Rattle.std.specs.Prelude.{◌≡◌, [], ◌∷◌};
ghost use Rattle.mon_file_commands.specs.Line.{AreNoted, stated};
ghost use Rattle.mon_host.specs.declared.level.Level.TheVariants.{Notice};
ghost use Rattle.mon_host.specs.Log.{GoesOnBy};
ghost use Rattle.mon_station_commands.specs.Following.{AreDated, AreNews, IsNewsSaid, IsSettingsLook, changed_line, new_time};

use crate::live::Live;
use mon_cli::StationArgs;
use mon_console::{Failure, Printing, read_labelled_station};
use mon_host::{Host, Level};
use mon_rounds::Receiver;
use mon_settings::StationSettings;
use mon_station::Outbox;
use std::alloc::Global;
use std::time::SystemTime;

/// What a look at the settings came to.
#[derive(Clone, Copy)]
struct Look {
    /// When they were changed last, if that is known.
    at: Option<SystemTime>,
    /// `true` if the station ends since they changed.
    ends: bool,
}

/// Asks when the settings were changed last, and keeps that.
pub(crate) fn date_settings<H: Host, S: Receiver + Drop, O: Outbox + Drop>(
    host: &mut H,
    live: &mut Live<S, O>,
    words: StationArgs<'_, '_>,
)
    ensures dated { GoesOnBy (λ log. AreDated words.entry log live.new.kept.settings_at)
        (H.log host.old) (H.log host.new) }
    ensures kept { live.new.kept ≡ record live.old.kept
        { settings_at = live.new.kept.settings_at } }
    ensures reports { live.new.reports ≡ live.old.reports }
{
    live.kept.settings_at = host.changed(words.settings).ok();
}

/// Looks before a round whether the settings were changed. What is new is said: that the station
/// must be restarted to use them, or what is wrong with them. If the station follows its settings,
/// and they can be used, it ends after this round. Returns `true` in that case.
pub(crate) fn look_at_settings<H: Host, S: Receiver + Drop, O: Outbox + Drop>(
    alloc: Global,
    host: &mut H,
    live: &mut Live<S, O>,
    words: StationArgs<'_, '_>,
    round: u32,
) -> bool
    ensures looked { GoesOnBy (λ log. IsSettingsLook words.entry round live.old.kept.settings_at log
        live.new.kept.settings_at result) (H.log host.old) (H.log host.new) }
    ensures kept { live.new.kept
        ≡ record live.old.kept { settings_at = live.new.kept.settings_at; ends = result } }
    ensures reports { live.new.reports ≡ live.old.reports }
{
    let look = follow(alloc, host, words, round, live.kept.settings_at);
    live.kept.settings_at = look.at;
    live.kept.ends = look.ends;
    look.ends
}

/// Looks whether the settings were changed after this time.
fn follow<H: Host>(
    alloc: Global,
    host: &mut H,
    words: StationArgs<'_, '_>,
    round: u32,
    known: Option<SystemTime>,
) -> Look
    ensures { GoesOnBy (λ log. IsSettingsLook words.entry round known log result.at result.ends)
        (H.log host.old) (H.log host.new) }
{
    let changed = host.changed(words.settings).ok();
    match new_time(known, changed) {
        Some(at) => take_news(alloc, host, words, round, at),
        None => Look {
            at: known,
            ends: false,
        },
    }
}

/// Returns when a file was changed, if that is known and another time than the one that was known.
fn new_time(known: Option<SystemTime>, changed: Option<SystemTime>) -> Option<SystemTime>
    ensures { result ≡ new_time known changed }
{
    match (known, changed) {
        (_, None) => None,
        (None, Some(at)) => Some(at),
        (Some(before), Some(at)) => match at.duration_since(before) {
            Ok(passed) if passed.is_zero() => None,
            _ => Some(at),
        },
    }
}

/// Reads the settings that were changed at this time, and says what became of them.
fn take_news<H: Host>(
    alloc: Global,
    host: &mut H,
    words: StationArgs<'_, '_>,
    round: u32,
    at: SystemTime,
) -> Look
    ensures { GoesOnBy (λ log. AreNews words.entry round at log result.at result.ends)
        (H.log host.old) (H.log host.new) }
{
    let given = read_labelled_station(alloc, host, words.settings, words.labels, words.printed);
    say_news(host, words, round, at, given)
}

/// Says what became of settings that were changed at this time. It is not known when they were if
/// memory ran out, so that they are read again.
fn say_news<H: Host>(
    host: &mut H,
    words: StationArgs<'_, '_>,
    round: u32,
    at: SystemTime,
    given: Result<(StationSettings, Printing), Failure>,
) -> Look
    ensures { GoesOnBy (λ log. IsNewsSaid words.entry round at given log result.at result.ends)
        (H.log host.old) (H.log host.new) }
{
    match given {
        Ok(_) => {
            tell_changed(host, words.settings, round, words.follows);
            Look {
                at: Some(at),
                ends: words.follows,
            }
        }
        Err(failure) => {
            failure.report(host, Level::Warning);
            Look {
                at: if failure.is_of_memory() {
                    None
                } else {
                    Some(at)
                },
                ends: false,
            }
        }
    }
}

/// Says that settings that can be used were changed.
fn tell_changed<H: Host>(host: &mut H, path: &str, round: u32, ends: bool)
    ensures { GoesOnBy (AreNoted (stated Notice (changed_line round path.now ends) ∷ []))
        (H.log host.old) (H.log host.new) }
{
    if ends {
        host.note(
            Level::Notice,
            format_args!(
                "snmpmon: round {round}: {path} changed: the station ends after this round, to be started with it\n"
            ),
        );
    } else {
        host.note(
            Level::Notice,
            format_args!(
                "snmpmon: round {round}: {path} changed: restart the station to use it (systemctl restart)\n"
            ),
        );
    }
}
