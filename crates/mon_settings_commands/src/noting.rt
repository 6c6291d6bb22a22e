//! What is said on standard error of settings that are printed or written.

ghost use Rattle.std.specs.Prelude.{◌≡◌, ◌∷◌, []};
ghost use Rattle.mon_host.specs.AtHost.{Noted};
ghost use Rattle.mon_host.specs.declared.level.Level.TheVariants.{Warning};
ghost use Rattle.mon_host.specs.Log.{GoesOnBy};
ghost use Rattle.mon_settings_commands.specs.Notes.{AreSpeedsNoted, IsPrintNoted, IsRoundNoted, form_of, speed_line, speed_notes};
ghost use Rattle.mon_settings_commands.specs.Source.{source_in};

use crate::settings::Input;
use mon_console::{Failure, print};
use mon_host::{Host, Level};
use mon_survey::{LongestRound, count_without_speed};
use std::alloc::Global;

/// Prints a text, and says how long a round of the settings of this name takes at most.
pub(crate) fn print_noted<H: Host>(
    alloc: Global,
    host: &mut H,
    text: &[u8],
    settings: &str,
    longest: LongestRound,
) -> Result<(), Failure>
    ensures { GoesOnBy (λ log. IsPrintNoted text.now settings.now longest log result)
        (H.log host.old) (H.log host.new) }
{
    print(alloc, host, text)?;
    note_round(host, settings, longest);
    Ok(())
}

/// Says how long a round of the settings of this name takes at most.
fn note_round<H: Host>(host: &mut H, settings: &str, longest: LongestRound)
    ensures { GoesOnBy (IsRoundNoted settings.now longest) (H.log host.old) (H.log host.new) }
{
    let LongestRound {
        most,
        wait_ms,
        tries,
    } = longest;
    host.note(
        Level::Info,
        format_args!(
            "snmpmon: a round of {settings} takes at most {most} ms (wait_ms = {wait_ms}, tries = {tries})\n"
        ),
    );
}

/// Returns the form of a word for a count: the first for 1, else the second.
pub(crate) fn form_of<'a>(count: usize, one: &'a str, many: &'a str) -> &'a str
    ensures { result.now ≡ form_of count one.now many.now }
{
    if count == 1 { one } else { many }
}

/// Says for how many interfaces there is no threshold, if alarms are asked for.
pub(crate) fn note_speeds<H: Host>(host: &mut H, input: &Input<'_, '_>)
    ensures { GoesOnBy (AreSpeedsNoted (source_in input.now)) (H.log host.old) (H.log host.new) }
{
    let count = count_without_speed(&input.survey.answers, &input.choice(None));
    note_count(host, input.asked.percent, count);
}

/// Says for how many interfaces there is no threshold, if there is a percentage.
fn note_count<H: Host>(host: &mut H, percent: u8, count: usize)
    ensures { GoesOnBy (λ log. log ≡ speed_notes percent count) (H.log host.old) (H.log host.new) }
{
    if percent == 0 {
        return;
    }
    if count == 0 {
        return;
    }
    note_speed(host, count);
}

/// Says for how many interfaces there is no threshold.
fn note_speed<H: Host>(host: &mut H, count: usize)
    ensures { GoesOnBy (λ log. log ≡ Noted Warning (speed_line count) ∷ []) (H.log host.old)
        (H.log host.new) }
{
    if count == 1 {
        host.note(
            Level::Warning,
            "snmpmon: no threshold for 1 interface: its speed is not known\n",
        );
    } else {
        host.note(
            Level::Warning,
            format_args!(
                "snmpmon: no threshold for {count} interfaces: their speed is not known\n"
            ),
        );
    }
}
