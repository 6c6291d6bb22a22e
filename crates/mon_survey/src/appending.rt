//! Settings with the targets of a further agent at their end.

ghost use Rattle.std.specs.Prelude.{◌≡◌, ◌⊎◌, ◌≤◌, Err, IfErr, IfOk, Ok, OnOk, drop, length, string_bytes};
ghost use Rattle.mon_settings.specs.StationAccepted.{IsStation, Station, station_view};
ghost use Rattle.mon_settings.specs.Text.{Says};
ghost use Rattle.mon_survey.specs.Appended.{IsAppendFault, IsAppended, IsAppendedText, IsMisread, polls, shown_by, with_room};
ghost use Rattle.mon_survey.specs.Longest.{longest_of};
ghost use Rattle.mon_survey.specs.Meant.{IsUnlike};
ghost use Rattle.mon_survey.specs.Plan.{planned_of};
ghost use Rattle.mon_survey.specs.Text.{addition_of};
ghost use Rattle.std.specs.List.{list_any};

use crate::choice::Choice;
use crate::comparing::Wanted;
use crate::counter::Planned;
use crate::drafting::{AgentPlan, addition};
use crate::fault::{SurveyFault, given};
use crate::kept::{after, is_appended};
use crate::longest::{Drafted, Reading, drafted_of, reading_of};
use crate::options::Options;
use crate::planning::plan;
use crate::size::{TargetSize, require_few_targets};
use crate::surveying::Surveyed;
use crate::writing::Naming;
use mon_poller::Target;
use mon_settings::{SettingsFault, StationSettings, read_station};
use mon_smi::{InNumbers, Names};
use std::alloc::Global;

/// The most instances of a station.
const MAX_INSTANCES: usize = 256;

/// Settings that are there.
#[derive(Clone, Copy)]
pub struct Existing<'a> {
    /// Their text.
    pub text: &'a str,
    /// What it was read as.
    pub station: &'a StationSettings,
    /// The names by which it was read, those of its modules among them.
    pub names: &'a Names,
}

/// Returns `true` if one of the targets is an agent of this engine id.
pub(crate) fn polls_any(engine: &[u8], targets: &[Target]) -> bool
    ensures { result ≡ list_any (polls engine.now) targets.now }
{
    targets
        .iter()
        .any(|target| target.engine.as_slice() == engine)
}

/// Requires that the settings have space for the counters, in targets of this size, and poll no
/// agent of this engine id.
fn require_room(
    size: TargetSize,
    station: &StationSettings,
    engine: &[u8],
    planned: &[Planned],
) -> Result<(), SurveyFault>
    requires { length planned.now ≤ 256 }
    ensures room { OnOk result (with_room size (station_view station.now) engine.now planned.now
        ≡ Ok planned.now) }
    ensures fault { IfErr result (λ e. with_room size (station_view station.now) engine.now
        planned.now ≡ Err e) }
{
    if polls_any(engine, station.core.targets()) {
        return Err(SurveyFault::SameEngine);
    }
    let instances = station.core.watch().instances().len() + planned.len();
    if instances > MAX_INSTANCES {
        return Err(SurveyFault::TooMany(instances));
    }
    require_few_targets(size, station.core.targets(), planned)
}

/// Returns the settings with the targets, names by those of their modules, if they list some.
fn draft_addition(
    alloc: Global,
    existing: &Existing<'_>,
    agent: &Surveyed<'_>,
    plan: &AgentPlan<'_>,
) -> Result<String, SurveyFault>
    requires { plan.now.options.now.percent ≤ 100 }
    ensures gives { IfOk result (λ text. addition_of (shown_by existing.now.names.now
        (length existing.now.station.now.modules.items)) existing.now.text.now plan.now.options.now
        plan.now.engine.now agent.now.answers.now plan.now.planned.now ≡ Ok (string_bytes text)) }
    ensures fault { IfErr result (λ e. (e ≡ SurveyFault.OutOfMemory)
        ⊎ (addition_of (shown_by existing.now.names.now (length
        existing.now.station.now.modules.items)) existing.now.text.now plan.now.options.now
        plan.now.engine.now agent.now.answers.now plan.now.planned.now ≡ Err e)) }
{
    if existing.station.modules.is_empty() {
        let names = &InNumbers;
        return addition(
            &Naming {
                alloc,
                names,
                answers: agent.answers,
            },
            plan,
            existing.text,
        );
    }
    let labels = existing.names.labels(alloc)?;
    addition(
        &Naming {
            alloc,
            names: &labels,
            answers: agent.answers,
        },
        plan,
        existing.text,
    )
}

/// Requires that the new settings are the old ones with the agent's targets, and returns what they
/// are read as.
fn require_appended(
    alloc: Global,
    wanted: &Wanted<'_>,
    old: &StationSettings,
    new: &StationSettings,
) -> Result<Reading, SurveyFault>
    requires few { length wanted.now.planned.now ≤ 256 }
    requires percent { wanted.now.options.now.percent ≤ 100 }
    ensures gives { IfOk result (λ reading. IsAppended wanted.now.options.now wanted.now.engine.now
        wanted.now.answers.now wanted.now.planned.now (station_view old.now) (station_view new.now)
        × (reading.longest ≡ longest_of (station_view new.now))
        × (reading.targets.items ≡ drop (length (station_view old.now).core.targets)
        (station_view new.now).core.targets)) }
    ensures fault { IfErr result (IsUnlike (IsAppended wanted.now.options.now wanted.now.engine.now
        wanted.now.answers.now wanted.now.planned.now (station_view old.now)
        (station_view new.now))) }
{
    if is_appended(alloc, wanted, old, new)? {
        let added = after(new.core.targets(), old.core.targets().len());
        Ok(reading_of(alloc, new, added)?)
    } else {
        Err(SurveyFault::Misread)
    }
}

/// Returns what a text is read as, if it is read as the settings with the agent's targets.
fn read_appended(
    alloc: Global,
    existing: &Existing<'_>,
    wanted: &Wanted<'_>,
    text: &str,
) -> Result<Reading, SurveyFault>
    requires few { length wanted.now.planned.now ≤ 256 }
    requires percent { wanted.now.options.now.percent ≤ 100 }
    ensures gives { IfOk result (λ reading. (station : Station)
        × Says (IsStation existing.now.names.now) text.now station
        × IsAppended wanted.now.options.now wanted.now.engine.now wanted.now.answers.now
        wanted.now.planned.now (station_view existing.now.station.now) station
        × (reading.longest ≡ longest_of station) × (reading.targets.items
        ≡ drop (length (station_view existing.now.station.now).core.targets)
        station.core.targets)) }
    ensures fault { IfErr result (IsMisread existing.now.names.now wanted.now.options.now
        wanted.now.engine.now wanted.now.answers.now wanted.now.planned.now
        (station_view existing.now.station.now) text.now) }
{
    match read_station(alloc, text, existing.names) {
        Ok(station) => require_appended(alloc, wanted, existing.station, &station),
        Err(SettingsFault::OutOfMemory) => Err(SurveyFault::OutOfMemory),
        Err(fault) => Err(SurveyFault::Refused(fault)),
    }
}

/// Returns settings with the targets of a further agent at their end, which poll its chosen
/// counters, and the alarms on them. The old text is kept octet by octet, and the whole was read
/// back, as what was meant: how long a round takes at most and the agent's targets follow from what
/// was read. Of the options only the agent's address, community, tries and percentage and the size
/// of targets are used.
///
/// # Errors
/// Those of `plan`; `SameEngine` if a target is an agent of this engine id; `TooMany` with the
/// number of instances in all, above 256; `TooManyTargets` with that of targets in all, above 64;
/// `BadText`; `Refused` where the text is no settings; `Misread` where it is read as others;
/// `OutOfMemory`.
pub fn append(
    alloc: Global,
    existing: &Existing<'_>,
    agent: &Surveyed<'_>,
    options: &Options<'_>,
    choice: &Choice<'_>,
) -> Result<Drafted, SurveyFault>
    requires { options.now.percent ≤ 100 }
    ensures reads { IfOk result (λ drafted. IsAppendedText existing.now.names.now choice.now
        options.now existing.now.text.now (station_view existing.now.station.now)
        agent.now.engine.now agent.now.answers.now (string_bytes drafted.text) drafted.longest
        drafted.targets.items) }
    ensures fault { IfErr result (IsAppendFault existing.now.names.now choice.now options.now
        existing.now.text.now (station_view existing.now.station.now) agent.now.engine.now
        agent.now.answers.now) }
{
    let planned = given!(plan(alloc, agent.answers, choice));
    given!(require_room(options.size, existing.station, agent.engine, &planned));
    let wanted = Wanted {
        options,
        engine: agent.engine,
        answers: agent.answers,
        planned: &planned,
    };
    let text = given!(draft_addition(alloc, existing, agent, &wanted.agent_plan()));
    let reading = given!(read_appended(alloc, existing, &wanted, text.as_str()));
    Ok(drafted_of(text, reading))
}
