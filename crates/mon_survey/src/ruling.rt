//! Alarms of settings with an agent's interfaces as they are now.

ghost use Rattle.std.specs.Prelude.{◌≡◌, ◌↔◌, ◌≤◌, ◌++◌, Some, slice_get, IfOk, IsTrue, OnOk, option_and_then, option_copied};
ghost use Rattle.std.specs.List.{flat_map};
ghost use Rattle.std.specs.Option.{option_to_list};
ghost use Rattle.mon_survey.specs.Column.{cell_name};
ghost use Rattle.mon_survey.specs.Counter.{column_of};
ghost use Rattle.mon_survey.specs.Moved.{at_of, instance_now, ruling_at, ruling_now, ruling_of, ruling_on, rulings};
ghost use Rattle.mon_survey.specs.Updated.{AreRulings, HasRuling, HasRulings, IsRuling};

use crate::counter::Planned;
use crate::kept::instance_at;
use crate::moving::{Places, add};
use crate::planning::thresholds_of;
use mon_alarms::Rule;
use mon_ber::Octets;
use mon_board::{Instance, Watched};
use std::alloc::{AllocError, Global};

/// An alarm: its instance, and its thresholds in thousandths.
pub struct Ruling {
    /// The instance.
    pub instance: Instance,
    /// Raised from here on.
    pub rising: i128,
    /// Cleared down from here.
    pub falling: i128,
}

// By hand: where one is let go, a proof has one call and not a drop of each field.
impl Drop for Ruling {
    fn drop(self) {
        let Ruling {
            instance: _,
            rising: _,
            falling: _,
        } = self;
    }
}

/// What the instance of a number is now; `None` if it is gone.
fn watched_at(
    alloc: Global,
    places: &Places<'_>,
    was: &[Watched],
    number: u16,
) -> Result<Option<Instance>, AllocError>
    ensures { IfOk result (λ i. i ≡ option_and_then (λ w. instance_now (at_of places.now)
        w.instance) (slice_get was.now number)) }
{
    match was.get(usize::from(number)) {
        Some(watched) => places.instance_now(alloc, &watched.instance),
        None => Ok(None),
    }
}

/// A rule on what was watched; `None` if its interface is gone.
fn ruling_now(
    alloc: Global,
    places: &Places<'_>,
    was: &[Watched],
    rule: Rule,
) -> Result<Option<Ruling>, AllocError>
    ensures { IfOk result (λ g. g ≡ ruling_now (at_of places.now) was.now rule) }
{
    match watched_at(alloc, places, was, rule.instance())? {
        Some(instance) => Ok(Some(Ruling {
            instance,
            rising: i128::from(rule.rising()),
            falling: i128::from(rule.falling()),
        })),
        None => Ok(None),
    }
}

/// The alarm on a new counter, if there are thresholds.
fn ruling_of(
    alloc: Global,
    places: &Places<'_>,
    percent: u8,
    one: Planned,
) -> Result<Option<Ruling>, AllocError>
    requires { percent ≤ 100 }
    ensures { IfOk result (λ g. g ≡ ruling_of (at_of places.now) percent one) }
{
    let Some(at) = thresholds_of(places.answers, percent, one.counter, one.index) else {
        return Ok(None);
    };
    let engine = Octets::from_slice(alloc, places.engine)?;
    let Ok(name) = one.column().cell(alloc, one.index) else {
        return Err(AllocError);
    };
    Ok(Some(Ruling {
        instance: Instance { engine, name },
        rising: i128::from(at.rising),
        falling: i128::from(at.falling),
    }))
}

/// Adds the alarms that are left.
fn add_left(
    alloc: Global,
    all: &mut Vec<Ruling>,
    places: &Places<'_>,
    was: &[Watched],
    rules: &[Rule],
) -> Result<(), AllocError>
    ensures { OnOk result (all.new.items ≡ all.old.items ++ flat_map
        (λ r. option_to_list (ruling_now (at_of places.now) was.now r)) rules.now) }
{
    for rule in rules {
        add(all, ruling_now(alloc, places, was, *rule)?)?;
    }
    Ok(())
}

/// Adds the alarms on new counters.
fn add_new(
    alloc: Global,
    all: &mut Vec<Ruling>,
    places: &Places<'_>,
    percent: u8,
    planned: &[Planned],
) -> Result<(), AllocError>
    requires { percent ≤ 100 }
    ensures { OnOk result (all.new.items ≡ all.old.items ++ flat_map
        (λ p. option_to_list (ruling_of (at_of places.now) percent p)) planned.now) }
{
    for one in planned {
        add(all, ruling_of(alloc, places, percent, *one)?)?;
    }
    Ok(())
}

/// What is watched, and the alarms on it.
#[derive(Clone, Copy)]
pub(crate) struct Watching<'a> {
    pub(crate) instances: &'a [Watched],
    pub(crate) rules: &'a [Rule],
}

/// The alarms that are left, and those on new counters.
pub(crate) fn rulings(
    alloc: Global,
    places: &Places<'_>,
    percent: u8,
    planned: &[Planned],
    was: Watching<'_>,
) -> Result<Vec<Ruling>, AllocError>
    requires { percent ≤ 100 }
    ensures { IfOk result (λ v. v.items ≡ rulings (at_of places.now) percent planned.now
        was.entry.instances.now was.entry.rules.now) }
{
    let mut all = Vec::new(alloc);
    add_left(alloc, &mut all, places, was.instances, was.rules)?;
    add_new(alloc, &mut all, places, percent, planned)?;
    Ok(all)
}

/// Returns `true` if this is the instance that was found.
fn is_instance(found: Option<&Instance>, instance: &Instance) -> bool
    ensures { IsTrue result ↔ (option_copied found.entry ≡ Some instance.now) }
{
    match found {
        Some(one) => *one == *instance,
        None => false,
    }
}

/// Returns `true` if the rule is on the alarm's instance, with its thresholds.
fn is_ruling(instances: &[Watched], ruling: &Ruling, rule: Rule) -> bool
    ensures { IsTrue result ↔ IsRuling instances.now ruling.now rule }
{
    is_instance(instance_at(instances, rule.instance()), &ruling.instance)
        && i128::from(rule.rising()) == ruling.rising
        && i128::from(rule.falling()) == ruling.falling
}

/// Returns `true` if one of the rules is the alarm.
fn has_ruling(instances: &[Watched], rules: &[Rule], ruling: &Ruling) -> bool
    ensures { IsTrue result ↔ HasRuling instances.now rules.now ruling.now }
{
    rules.iter().any(|rule| is_ruling(instances, ruling, *rule))
}

/// Returns `true` if each alarm is one of the rules.
fn has_rulings(instances: &[Watched], rules: &[Rule], rulings: &[Ruling]) -> bool
    ensures { IsTrue result ↔ HasRulings instances.now rules.now rulings.now }
{
    let [first, rest @ ..] = rulings else {
        return true;
    };
    has_ruling(instances, rules, first) && has_rulings(instances, rules, rest)
}

/// Returns `true` if the rules are these alarms, each once.
pub(crate) fn are_rulings(now: Watching<'_>, rulings: &[Ruling]) -> bool
    ensures { IsTrue result ↔ AreRulings now.entry.instances.now rulings.now now.entry.rules.now }
{
    has_rulings(now.instances, now.rules, rulings) && now.rules.len() == rulings.len()
}
