//! Settings with an agent's interfaces as they are now.

ghost use Rattle.std.specs.Prelude.{◌≡◌, ◌⊎◌, ◌↔◌, ◌≤◌, Err, IfErr, IfOk, IsTrue, Ok, OnOk, drop, length, string_bytes};
ghost use Rattle.std.specs.List.{list_any};
ghost use Rattle.std.specs.Str.{IsUtf8};
ghost use Rattle.mon_settings.specs.StationAccepted.{IsStation, Station, station_view};
ghost use Rattle.mon_settings.specs.Text.{Says};
ghost use Rattle.mon_survey.specs.Appended.{polls, shown_by};
ghost use Rattle.mon_survey.specs.Longest.{longest_of};
ghost use Rattle.mon_survey.specs.Meant.{IsUnlike};
ghost use Rattle.mon_survey.specs.Moved.{at_in, at_of, rulings, targets_now, watch_now};
ghost use Rattle.mon_survey.specs.Updated.{AreWatched, IsMadeOf, IsUndrafted, IsUnread, IsUpdateFault, IsUpdated, IsUpdatedText, IsWatched, KeepsWatch, kept_text, new_counters, update_of, with_space};

use crate::appending::{Existing, polls_any};
use crate::changes::new_counters;
use crate::choice::Choice;
use crate::comparing::{Wanted, are_targets};
use crate::counter::Planned;
use crate::drafting::{AgentPlan, addition};
use crate::editing::{Edits, Spelling, quoted, spellings};
use crate::fault::{SurveyFault, given};
use crate::kept::{after, are_kept_scalars, are_kept_targets};
use crate::longest::{Drafted, Reading, drafted_of, reading_of};
use crate::moving::{Known, Places};
use crate::options::Options;
use crate::ruling::{Ruling, Watching, are_rulings, rulings};
use crate::size::require_few_targets;
use crate::surveying::Surveyed;
use crate::writing::Naming;
use mon_board::Watched;
use mon_poller::Target;
use mon_settings::{SettingsFault, StationSettings, read_station};
use mon_smi::{InNumbers, NameTexts};
use std::alloc::{AllocError, Global};

/// The most instances of a station.
const MAX_INSTANCES: usize = 256;

/// What settings are updated by: options, an agent, and the new counters.
#[derive(Clone, Copy)]
struct Updating<'a> {
    options: &'a Options<'a>,
    places: Places<'a>,
    planned: &'a [Planned],
}

impl<'a> Updating<'a> {
    /// What is planned of the agent.
    fn agent_plan(&self) -> AgentPlan<'a>
        ensures options { result.options.now ≡ self.now.options.now }
        ensures engine { result.engine.now ≡ self.now.places.engine.now }
        ensures planned { result.planned.now ≡ self.now.planned.now }
    {
        AgentPlan {
            options: self.options,
            engine: self.places.engine,
            planned: self.planned,
        }
    }

    /// Requires that settings poll the agent, and that there are at most 256 instances and 64
    /// targets with those that are left.
    fn require_space(&self, alloc: Global, station: &StationSettings) -> Result<(), SurveyFault>
        ensures room { OnOk result (with_space self.now.options.now.size (at_of self.now.places)
            (station_view station.now) self.now.planned.now ≡ Ok self.now.planned.now) }
        ensures few { OnOk result (length self.now.planned.now ≤ 256) }
        ensures fault { IfErr result (λ e. (e ≡ SurveyFault.OutOfMemory)
            ⊎ (with_space self.now.options.now.size (at_of self.now.places)
            (station_view station.now) self.now.planned.now ≡ Err e)) }
    {
        if !polls_any(self.places.engine, station.core.targets()) {
            return Err(SurveyFault::OtherEngine);
        }
        let targets = self.places.targets_now(alloc, station.core.targets())?;
        let left = self
            .places
            .watch_now(alloc, station.core.watch().instances())?;
        let instances = left.len() + self.planned.len();
        if instances > MAX_INSTANCES {
            return Err(SurveyFault::TooMany(instances));
        }
        require_few_targets(self.options.size, &targets, self.planned)
    }
}

/// Returns `true` if this is watched.
fn is_watched(instances: &[Watched], watched: &Watched) -> bool
    ensures { IsTrue result ↔ IsWatched instances.now watched.now }
{
    instances.iter().any(|one| *one == *watched)
}

/// Returns `true` if all this is watched.
fn are_watched(instances: &[Watched], all: &[Watched]) -> bool
    ensures { IsTrue result ↔ AreWatched instances.now all.now }
{
    let [first, rest @ ..] = all else {
        return true;
    };
    is_watched(instances, first) && are_watched(instances, rest)
}

/// What is left of settings.
struct Left {
    targets: Vec<Target>,
    instances: Vec<Watched>,
    rulings: Vec<Ruling>,
}

// By hand: where one is let go, a proof has one call and not a drop of each field.
impl Drop for Left {
    fn drop(self) {
        let Left {
            targets: _,
            instances: _,
            rulings: _,
        } = self;
    }
}

/// What is left of settings, with the alarms on new counters.
fn left_of(alloc: Global, update: &Updating<'_>, old: &StationSettings) -> Result<Left, AllocError>
    requires { update.now.options.now.percent ≤ 100 }
    ensures targets { IfOk result (λ l. l.targets.items ≡ targets_now (at_of update.now.places)
        (station_view old.now).core.targets) }
    ensures instances { IfOk result (λ l. l.instances.items ≡ watch_now (at_of update.now.places)
        (station_view old.now).core.watch.instances) }
    ensures rulings { IfOk result (λ l. l.rulings.items ≡ rulings (at_of update.now.places)
        update.now.options.now.percent update.now.planned.now
        (station_view old.now).core.watch.instances (station_view old.now).core.watch.rules) }
{
    let was = Watching {
        instances: old.core.watch().instances(),
        rules: old.core.watch().rules(),
    };
    let places = &update.places;
    let targets = places.targets_now(alloc, old.core.targets())?;
    let instances = places.watch_now(alloc, was.instances)?;
    let rulings = rulings(alloc, places, update.options.percent, update.planned, was)?;
    Ok(Left {
        targets,
        instances,
        rulings,
    })
}

/// Returns `true` if the new settings watch what is left, and have these alarms.
fn is_watch_kept(left: &Left, new: &StationSettings) -> bool
    ensures { IsTrue result ↔ KeepsWatch (station_view new.now).core.watch.instances
        (station_view new.now).core.watch.rules left.now.instances.items left.now.rulings.items }
{
    let now = Watching {
        instances: new.core.watch().instances(),
        rules: new.core.watch().rules(),
    };
    are_watched(now.instances, &left.instances) && are_rulings(now, &left.rulings)
}

/// Returns `true` if the new settings are the old ones with what is left, and with these counters:
/// what is outside of targets and alarms is the same, and the targets that are left are at the
/// front.
fn is_made_of(
    alloc: Global,
    update: &Updating<'_>,
    left: &Left,
    old: &StationSettings,
    new: &StationSettings,
) -> Result<bool, AllocError>
    requires few { length update.now.planned.now ≤ 256 }
    ensures { IfOk result (λ is. IsTrue is ↔ IsMadeOf update.now.options.now
        (at_of update.now.places) update.now.planned.now left.now.targets.items
        left.now.instances.items left.now.rulings.items (station_view old.now)
        (station_view new.now)) }
{
    let added = after(new.core.targets(), left.targets.len());
    let wanted = Wanted {
        options: update.options,
        engine: update.places.engine,
        answers: update.places.answers,
        planned: update.planned,
    };
    let targets = are_targets(alloc, &wanted, added)?;
    Ok(
        are_kept_scalars(old, new)
            && are_kept_targets(&left.targets, new.core.targets())
            && targets
            && is_watch_kept(left, new),
    )
}

/// Requires that the new settings are the old ones with the agent's interfaces as they are now, and
/// returns what they are read as.
fn require_updated(
    alloc: Global,
    update: &Updating<'_>,
    old: &StationSettings,
    new: &StationSettings,
) -> Result<Reading, SurveyFault>
    requires few { length update.now.planned.now ≤ 256 }
    requires percent { update.now.options.now.percent ≤ 100 }
    ensures gives { IfOk result (λ reading. IsUpdated update.now.options.now
        (at_of update.now.places) update.now.planned.now (station_view old.now)
        (station_view new.now) × (reading.longest ≡ longest_of (station_view new.now))
        × (reading.targets.items ≡ drop (length (targets_now (at_of update.now.places)
        (station_view old.now).core.targets)) (station_view new.now).core.targets)) }
    ensures fault { IfErr result (IsUnlike (IsUpdated update.now.options.now
        (at_of update.now.places) update.now.planned.now (station_view old.now)
        (station_view new.now))) }
{
    let left = left_of(alloc, update, old)?;
    if is_made_of(alloc, update, &left, old, new)? {
        let added = after(new.core.targets(), left.targets.len());
        Ok(reading_of(alloc, new, added)?)
    } else {
        Err(SurveyFault::Misread)
    }
}

/// Returns what a text is read as, if it is read as the settings with the agent's interfaces as
/// they are now.
fn read_updated(
    alloc: Global,
    existing: &Existing<'_>,
    update: &Updating<'_>,
    text: &str,
) -> Result<Reading, SurveyFault>
    requires few { length update.now.planned.now ≤ 256 }
    requires percent { update.now.options.now.percent ≤ 100 }
    ensures gives { IfOk result (λ reading. (station : Station)
        × Says (IsStation existing.now.names.now) text.now station
        × IsUpdated update.now.options.now (at_of update.now.places) update.now.planned.now
        (station_view existing.now.station.now) station × (reading.longest ≡ longest_of station)
        × (reading.targets.items ≡ drop (length (targets_now (at_of update.now.places)
        (station_view existing.now.station.now).core.targets)) station.core.targets)) }
    ensures fault { IfErr result (IsUnread existing.now.names.now update.now.options.now
        (at_of update.now.places) update.now.planned.now (station_view existing.now.station.now)
        text.now) }
{
    match read_station(alloc, text, existing.names) {
        Ok(station) => require_updated(alloc, update, existing.station, &station),
        Err(SettingsFault::OutOfMemory) => Err(SurveyFault::OutOfMemory),
        Err(fault) => Err(SurveyFault::Refused(fault)),
    }
}

/// The octets of the old text with the agent's blocks as they are now.
fn kept_octets<S: NameTexts>(
    spelling: &Spelling<'_, S>,
    existing: &Existing<'_>,
) -> Result<Vec<u8>, AllocError>
    ensures { IfOk result (λ v. v.items ≡ kept_text (S.shown spelling.now.names.now)
        (at_of spelling.now.places) (station_view existing.now.station.now).core.watch.instances
        existing.now.text.now) }
{
    let alloc = spelling.alloc;
    let instances = existing.station.core.watch().instances();
    let names = spellings(spelling, instances)?;
    let digits = hex::encode(alloc, spelling.places.engine)?;
    let own = quoted(alloc, digits.as_str())?;
    let edits = Edits {
        alloc,
        names: &names,
        own: own.as_slice(),
    };
    edits.edited(existing.text.as_bytes())
}

/// The text with the agent's interfaces as they are now, names as they are shown.
fn update_by<S: NameTexts>(
    alloc: Global,
    names: &S,
    existing: &Existing<'_>,
    update: &Updating<'_>,
) -> Result<String, SurveyFault>
    requires { update.now.options.now.percent ≤ 100 }
    ensures gives { IfOk result (λ text. update_of (S.shown names.now) (at_of update.now.places)
        (station_view existing.now.station.now).core.watch.instances existing.now.text.now
        update.now.options.now update.now.planned.now ≡ Ok (string_bytes text)) }
    ensures fault { IfErr result (IsUndrafted (S.shown names.now) (at_of update.now.places)
        (station_view existing.now.station.now).core.watch.instances existing.now.text.now
        update.now.options.now update.now.planned.now) }
{
    let places = update.places;
    let spelling = Spelling {
        alloc,
        names,
        places,
    };
    let octets = kept_octets(&spelling, existing)?;
    let Ok(kept) = String::from_utf8(octets) else {
        return Err(SurveyFault::Misread);
    };
    let shown = Naming {
        alloc,
        names,
        answers: places.answers,
    };
    addition(&shown, &update.agent_plan(), kept.as_str())
}

/// The text with the agent's interfaces as they are now, names by those of the modules that the
/// settings list, if they list some.
fn draft_update(
    alloc: Global,
    existing: &Existing<'_>,
    update: &Updating<'_>,
) -> Result<String, SurveyFault>
    requires { update.now.options.now.percent ≤ 100 }
    ensures gives { IfOk result (λ text. update_of (shown_by existing.now.names.now
        (length existing.now.station.now.modules.items)) (at_of update.now.places)
        (station_view existing.now.station.now).core.watch.instances existing.now.text.now
        update.now.options.now update.now.planned.now ≡ Ok (string_bytes text)) }
    ensures fault { IfErr result (IsUndrafted (shown_by existing.now.names.now
        (length existing.now.station.now.modules.items)) (at_of update.now.places)
        (station_view existing.now.station.now).core.watch.instances existing.now.text.now
        update.now.options.now update.now.planned.now) }
{
    if existing.station.modules.is_empty() {
        return update_by(alloc, &InNumbers, existing, update);
    }
    let labels = existing.names.labels(alloc)?;
    update_by(alloc, &labels, existing, update)
}

/// Settings with the agent's interfaces as they are now, and these new counters.
fn update_with(
    alloc: Global,
    existing: &Existing<'_>,
    update: &Updating<'_>,
) -> Result<Drafted, SurveyFault>
    requires { update.now.options.now.percent ≤ 100 }
    ensures reads { IfOk result (λ drafted. IsUpdatedText existing.now.names.now
        update.now.options.now (at_of update.now.places) update.now.planned.now
        existing.now.text.now (station_view existing.now.station.now) (string_bytes drafted.text)
        drafted.longest drafted.targets.items) }
    ensures fault { IfErr result (IsUpdateFault existing.now.names.now update.now.options.now
        (at_of update.now.places) update.now.planned.now existing.now.text.now
        (station_view existing.now.station.now)) }
{
    given!(update.require_space(alloc, existing.station));
    let text = given!(draft_update(alloc, existing, update));
    let reading = given!(read_updated(alloc, existing, update, text.as_str()));
    Ok(drafted_of(text, reading))
}

/// An agent that answered, and the names that its interfaces had.
#[derive(Clone, Copy)]
pub struct Renamed<'a> {
    /// The agent.
    pub agent: Surveyed<'a>,
    /// The names that its interfaces had, by their indexes then.
    pub known: &'a [Known],
}

impl<'a> Renamed<'a> {
    /// The agent's interfaces.
    pub(crate) fn places(&self) -> Places<'a>
        ensures { at_of result ≡ at_in self.now }
    {
        Places {
            engine: self.agent.engine,
            known: self.known,
            answers: self.agent.answers,
        }
    }
}

/// Returns settings with an agent's interfaces as they are now. An interface is the same by its
/// ifName, if the name that it had is known, else by its index. Lines of interfaces that are gone
/// are left out, those of others have the index of now, and targets that poll the chosen counters
/// of new interfaces come at the end, with alarms on them, as `append` writes them. All else stays
/// as it was, octet by octet: comments, other blocks, and what the agent's say by hand, thresholds
/// too. The whole was read back, as what was meant.
///
/// # Errors
/// `OtherEngine` if no target is an agent of this engine id; `TooMany` with the number of instances
/// in all, above 256; `TooManyTargets` with that of targets in all, above 64; `BadText`; `Refused`
/// where the text is no settings; `Misread` where it is read as others; `OutOfMemory`.
pub fn update(
    alloc: Global,
    existing: &Existing<'_>,
    renamed: &Renamed<'_>,
    options: &Options<'_>,
    choice: &Choice<'_>,
) -> Result<Drafted, SurveyFault>
    requires { options.now.percent ≤ 100 }
    ensures reads { IfOk result (λ drafted. IsUpdatedText existing.now.names.now options.now
        (at_in renamed.now) (new_counters choice.now (at_in renamed.now)
        (station_view existing.now.station.now).core.watch.instances) existing.now.text.now
        (station_view existing.now.station.now) (string_bytes drafted.text) drafted.longest
        drafted.targets.items) }
    ensures fault { IfErr result (IsUpdateFault existing.now.names.now options.now
        (at_in renamed.now) (new_counters choice.now (at_in renamed.now)
        (station_view existing.now.station.now).core.watch.instances) existing.now.text.now
        (station_view existing.now.station.now)) }
{
    let places = renamed.places();
    let instances = existing.station.core.watch().instances();
    let planned = new_counters(alloc, &places, choice, instances)?;
    let update = Updating {
        options,
        places,
        planned: &planned,
    };
    update_with(alloc, existing, &update)
}
