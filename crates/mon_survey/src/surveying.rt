//! The settings of a station that polls an agent.

ghost use Rattle.std.specs.Prelude.{◌≡◌, ◌≤◌, IfErr, IfOk, length, string_bytes};
ghost use Rattle.mon_settings.specs.StationAccepted.{station_view};
ghost use Rattle.mon_survey.specs.Appended.{shown_by};
ghost use Rattle.mon_survey.specs.Longest.{longest_of};
ghost use Rattle.mon_survey.specs.Meant.{IsFault, IsMeant, IsNotReadBack, IsReadBack, IsSettingsText, IsUnlike};

use crate::answers::Answers;
use crate::choice::Choice;
use crate::comparing::{Wanted, is_meant};
use crate::drafting::draft;
use crate::fault::{SurveyFault, given};
use crate::longest::{Drafted, Reading, drafted_of, reading_of};
use crate::options::Options;
use crate::planning::plan;
use crate::size::require_few_targets;
use crate::writing::Naming;
use mon_settings::{SettingsFault, StationSettings, read_station};
use mon_smi::{InNumbers, NameTexts, Names};
use std::alloc::Global;

/// An agent that answered.
#[derive(Clone, Copy)]
pub struct Surveyed<'a> {
    /// Its engine id.
    pub engine: &'a [u8],
    /// What it answered of its interfaces.
    pub answers: &'a Answers,
}

/// Requires that the settings are what was meant, and returns what they are read as.
fn require_meant(
    alloc: Global,
    wanted: &Wanted<'_>,
    station: &StationSettings,
) -> Result<Reading, SurveyFault>
    requires few { length wanted.now.planned.now ≤ 256 }
    requires percent { wanted.now.options.now.percent ≤ 100 }
    ensures gives { IfOk result (λ reading. IsMeant wanted.now.options.now wanted.now.engine.now
        wanted.now.answers.now wanted.now.planned.now (station_view station.now)
        × (reading.longest ≡ longest_of (station_view station.now))
        × (reading.targets.items ≡ (station_view station.now).core.targets)) }
    ensures fault { IfErr result (IsUnlike (IsMeant wanted.now.options.now wanted.now.engine.now
        wanted.now.answers.now wanted.now.planned.now (station_view station.now))) }
{
    if is_meant(alloc, wanted, station)? {
        Ok(reading_of(alloc, station, station.core.targets())?)
    } else {
        Err(SurveyFault::Misread)
    }
}

/// Returns what a text is read as, if that is what was meant.
fn read_back(
    alloc: Global,
    names: &Names,
    wanted: &Wanted<'_>,
    text: &str,
) -> Result<Reading, SurveyFault>
    requires few { length wanted.now.planned.now ≤ 256 }
    requires percent { wanted.now.options.now.percent ≤ 100 }
    ensures gives { IfOk result (λ reading. IsReadBack names.now wanted.now.options.now
        wanted.now.engine.now wanted.now.answers.now wanted.now.planned.now text.now reading.longest
        reading.targets.items) }
    ensures fault { IfErr result (IsNotReadBack names.now wanted.now.options.now
        wanted.now.engine.now wanted.now.answers.now wanted.now.planned.now text.now) }
{
    match read_station(alloc, text, names) {
        Ok(station) => require_meant(alloc, wanted, &station),
        Err(SettingsFault::OutOfMemory) => Err(SurveyFault::OutOfMemory),
        Err(fault) => Err(SurveyFault::Refused(fault)),
    }
}

/// Returns the text and what it is read as, if that is what was meant.
fn confirm(
    alloc: Global,
    names: &Names,
    wanted: &Wanted<'_>,
    text: String,
) -> Result<Drafted, SurveyFault>
    requires few { length wanted.now.planned.now ≤ 256 }
    requires percent { wanted.now.options.now.percent ≤ 100 }
    ensures gives { IfOk result (λ drafted. (drafted.text ≡ text)
        × IsReadBack names.now wanted.now.options.now wanted.now.engine.now wanted.now.answers.now
        wanted.now.planned.now (string_bytes text) drafted.longest drafted.targets.items) }
    ensures fault { IfErr result (IsNotReadBack names.now wanted.now.options.now
        wanted.now.engine.now wanted.now.answers.now wanted.now.planned.now (string_bytes text)) }
{
    let reading = given!(read_back(alloc, names, wanted, text.as_str()));
    Ok(drafted_of(text, reading))
}

/// Returns the settings with names as they are shown.
fn settings_by<S: NameTexts>(
    names: &Names,
    shown: &Naming<'_, S>,
    engine: &[u8],
    options: &Options<'_>,
    choice: &Choice<'_>,
) -> Result<Drafted, SurveyFault>
    requires { options.now.percent ≤ 100 }
    ensures reads { IfOk result (λ drafted. IsSettingsText names.now (S.shown shown.now.names.now)
        choice.now options.now engine.now shown.now.answers.now (string_bytes drafted.text)
        drafted.longest drafted.targets.items) }
    ensures fault { IfErr result (IsFault names.now (S.shown shown.now.names.now) choice.now
        options.now engine.now shown.now.answers.now) }
{
    let planned = given!(plan(shown.alloc, shown.answers, choice));
    given!(require_few_targets(options.size, &[], &planned));
    let wanted = Wanted {
        options,
        engine,
        answers: shown.answers,
        planned: &planned,
    };
    let text = given!(draft(shown, &wanted.agent_plan()));
    let drafted = given!(confirm(shown.alloc, names, &wanted, text));
    Ok(drafted)
}

/// Returns the settings of a station that polls the chosen counters of an agent, names by those of
/// the options' modules, if there are some. The text was read back, as what was meant: how long a
/// round takes at most and the targets follow from what was read.
///
/// # Errors
/// Those of `plan`; `TooManyTargets` with the number of targets above 64; `BadText` where an
/// option's text has a quote, a backslash or an octet outside 20 to 7E; `Refused` where the text is
/// no settings; `Misread` where it is read as other settings; `OutOfMemory`.
pub fn settings(
    alloc: Global,
    names: &Names,
    agent: &Surveyed<'_>,
    options: &Options<'_>,
    choice: &Choice<'_>,
) -> Result<Drafted, SurveyFault>
    requires { options.now.percent ≤ 100 }
    ensures reads { IfOk result (λ drafted. IsSettingsText names.now
        (shown_by names.now (length options.now.modules.now)) choice.now options.now
        agent.now.engine.now agent.now.answers.now (string_bytes drafted.text) drafted.longest
        drafted.targets.items) }
    ensures fault { IfErr result (IsFault names.now (shown_by names.now
        (length options.now.modules.now)) choice.now options.now agent.now.engine.now
        agent.now.answers.now) }
{
    if options.modules.is_empty() {
        let shown = Naming {
            alloc,
            names: &InNumbers,
            answers: agent.answers,
        };
        return settings_by(names, &shown, agent.engine, options, choice);
    }
    let labels = names.labels(alloc)?;
    let shown = Naming {
        alloc,
        names: &labels,
        answers: agent.answers,
    };
    settings_by(names, &shown, agent.engine, options, choice)
}
