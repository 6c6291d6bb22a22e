//! Which counters of an agent a station polls.

ghost use Rattle.std.specs.Prelude.{◌≡◌, ◌⊎◌, ◌≤◌, ◌<◌, ◌*◌, ◌++◌, Err, Ok, IfErr, IfOk, IfSome, OnOk, drop, take};
ghost use Rattle.std.specs.List.{flat_map};
ghost use Rattle.std.specs.Option.{option_to_list};
ghost use Rattle.mon_survey.specs.Plan.{count_without_speed, counters_from, counters_of, interface_counters, lacks_speed, limited, planned_by, planned_of, polls_octets, thresholds_at, thresholds_of, width_of};
ghost use Rattle.mon_survey.specs.Answers.{speed_in};

use crate::answers::{Answers, Cell};
use crate::choice::Choice;
use crate::column::Column;
use crate::counter::{Counter, Kind, Planned, column_of};
use crate::fault::{SurveyFault, given};
use crate::moving::add;
use std::alloc::{AllocError, AllocFailed, Global};

/// The most instances of a station.
const MAX_INSTANCES: usize = 256;

/// The counter of an interface, by 64 bits or by 32, if its kind is polled and the agent has it.
fn planned(answers: &Answers, choice: &Choice<'_>, index: u32, counter: Counter) -> Option<Planned>
    ensures { result ≡ planned_by choice.now answers.now index counter }
{
    if !choice.kinds.has(counter.kind()) {
        return None;
    }
    if answers.is_counter64(column_of(counter, true), index) {
        return Some(Planned {
            counter,
            wide: true,
            index,
        });
    }
    if answers.is_counter32(column_of(counter, false), index) {
        return Some(Planned {
            counter,
            wide: false,
            index,
        });
    }
    None
}

/// Adds those of some counters of an interface whose kinds are polled and that the agent has.
fn add_counters(
    counters: &mut Vec<Planned>,
    answers: &Answers,
    choice: &Choice<'_>,
    index: u32,
    some: &[Counter],
) -> Result<(), AllocFailed<Planned>>
    ensures { OnOk result (counters.new.items ≡ counters.old.items
        ++ flat_map (λ counter. option_to_list (planned_by choice.now answers.now index counter))
        some.now) }
{
    for counter in some {
        add(counters, planned(answers, choice, index, *counter))?;
    }
    Ok(())
}

/// Adds the counters of the interface whose ifDescr a cell holds, if it is chosen.
fn add_cell(
    counters: &mut Vec<Planned>,
    answers: &Answers,
    choice: &Choice<'_>,
    cell: &Cell,
) -> Result<(), AllocFailed<Planned>>
    ensures { OnOk result (counters.new.items ≡ counters.old.items
        ++ counters_from choice.now answers.now cell.now) }
{
    if cell.column != Column::If(2) {
        return Ok(());
    }
    if !choice.takes(answers, cell.index) {
        return Ok(());
    }
    add_counters(counters, answers, choice, cell.index, &Counter::every())
}

/// The counters of all interfaces.
pub(crate) fn counters_of(
    alloc: Global,
    answers: &Answers,
    choice: &Choice<'_>,
) -> Result<Vec<Planned>, SurveyFault>
    ensures gives { IfOk result (λ v. v.items ≡ counters_of choice.now answers.now) }
    ensures memory { IfErr result (λ e. e ≡ SurveyFault.OutOfMemory) }
{
    let mut counters = Vec::new(alloc);
    for cell in answers.cells() {
        add_cell(&mut counters, answers, choice, cell)?;
    }
    Ok(counters)
}

/// The first 256 counters, or all if there are fewer.
fn front(counters: &[Planned]) -> &[Planned]
    ensures { result.now ≡ take 256 counters.now }
{
    if counters.len() > MAX_INSTANCES {
        &counters[..MAX_INSTANCES]
    } else {
        counters
    }
}

/// At most 256 counters from a place on.
fn part_of(counters: &[Planned], from: usize) -> &[Planned]
    ensures { result.now ≡ take 256 (drop from counters.now) }
{
    if from >= counters.len() {
        return &[];
    }
    front(&counters[from..])
}

/// Requires at least one counter, and at most the 256 of a station.
fn require_few(counters: &[Planned]) -> Result<(), SurveyFault>
    ensures gives { OnOk result (limited counters.now ≡ Ok counters.now) }
    ensures fault { IfErr result (λ e. limited counters.now ≡ Err e) }
{
    if counters.is_empty() {
        return Err(SurveyFault::NoCounter);
    }
    if counters.len() > MAX_INSTANCES {
        return Err(SurveyFault::TooMany(counters.len()));
    }
    Ok(())
}

/// Returns the counters that a station polls: of each interface with an ifDescr that is chosen, in
/// the order of their indexes, those of the kinds that are polled and that the agent has, each by
/// 64 bits where the agent has that, else by 32; and of these the group that is chosen.
///
/// # Errors
/// `NoCounter` if there is no counter; `TooMany` with their number above 256; `OutOfMemory`.
pub fn plan(
    alloc: Global,
    answers: &Answers,
    choice: &Choice<'_>,
) -> Result<Vec<Planned>, SurveyFault>
    ensures gives { IfOk result (λ v. planned_of choice.now answers.now ≡ Ok v.items) }
    ensures fault { IfErr result (λ e. (e ≡ SurveyFault.OutOfMemory)
        ⊎ (planned_of choice.now answers.now ≡ Err e)) }
{
    let all = given!(counters_of(alloc, answers, choice));
    let counters = match choice.group {
        Some(number) => {
            let from = MAX_INSTANCES * number as usize;
            Vec::from_slice(alloc, part_of(&all, from))?
        }
        None => all,
    };
    given!(require_few(&counters));
    Ok(counters)
}

/// The thresholds of an alarm on a counter of octets, in thousandths of an octet a second.
#[derive(Clone, Copy, Debug, PartialEq, Eq)]
pub struct Thresholds {
    /// Raised from here on: this part of the interface's speed.
    pub rising: u64,
    /// Cleared down from here: nine tenths of it.
    pub falling: u64,
}

/// The thresholds at this percentage of an interface's speed; none where the speed is unknown, one
/// of the two is 0, or they are so small that the falling threshold would not be below the rising
/// one.
pub(crate) fn thresholds_at(answers: &Answers, percent: u8, index: u32) -> Option<Thresholds>
    requires { percent ≤ 100 }
    ensures value { result ≡ thresholds_at (speed_in answers.now index * percent) }
    ensures apart { IfSome result (λ at. at.falling < at.rising) }
{
    let part = answers.speed(index) * u64::from(percent);
    if part < 4 {
        return None;
    }
    Some(Thresholds {
        rising: part * 5 / 4,
        falling: part * 9 / 8,
    })
}

/// Returns the thresholds at this percentage of the interface's speed; none for a counter that is
/// not of octets, and none where the speed is unknown or the percentage is 0.
pub fn thresholds_of(
    answers: &Answers,
    percent: u8,
    counter: Counter,
    index: u32,
) -> Option<Thresholds>
    requires { percent ≤ 100 }
    ensures { result ≡ thresholds_of answers.now percent counter index }
{
    match counter.kind() {
        Kind::Octets => thresholds_at(answers, percent, index),
        Kind::Packets | Kind::Errors | Kind::Discards => None,
    }
}

/// Returns `true` if the cell is the ifDescr of an interface that is chosen, whose octets are
/// polled, in or out, and whose speed is unknown.
fn lacks_speed(answers: &Answers, choice: &Choice<'_>, cell: &Cell) -> bool
    ensures { result ≡ lacks_speed choice.now answers.now cell.now }
{
    cell.column == Column::If(2)
        && choice.takes(answers, cell.index)
        && (planned(answers, choice, cell.index, Counter::InOctets).is_some()
            || planned(answers, choice, cell.index, Counter::OutOctets).is_some())
        && answers.speed(cell.index) == 0
}

/// Returns how many interfaces get no alarm on their octets because their speed is unknown: those
/// that are chosen, whose octets are polled, and whose `Answers::speed` is 0.
pub fn count_without_speed(answers: &Answers, choice: &Choice<'_>) -> usize
    ensures { result ≡ count_without_speed choice.now answers.now }
{
    answers
        .cells()
        .iter()
        .filter(|cell| lacks_speed(answers, choice, cell))
        .count()
}
