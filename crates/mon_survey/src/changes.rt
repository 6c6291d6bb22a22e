//! What changes if settings poll an agent's interfaces as they are now.

ghost use Rattle.std.specs.Prelude.{◌≡◌, ◌++◌, [], None, IfOk, OnOk, Some, map, nat_eq, string_bytes};
ghost use Rattle.std.specs.List.{flat_map, list_any};
ghost use Rattle.std.specs.Option.{option_to_list};
ghost use Rattle.mon_survey.specs.Changes.{called, change_line, change_lines, change_of, change_to, changes_between};
ghost use Rattle.mon_survey.specs.Labels.{indexes_after};
ghost use Rattle.mon_survey.specs.Moved.{at_in, at_of, index_now};
ghost use Rattle.mon_survey.specs.Plan.{counters_of};
ghost use Rattle.mon_survey.specs.Updated.{indexes_left, new_counters, polled, polled_after, unless_there, with_index, with_watched};

use crate::choice::Choice;
use crate::column::Spot;
use crate::comparing::is_own;
use crate::counter::Planned;
use crate::moving::{Places, add, name_before};
use crate::planning::counters_of;
use crate::tables::indexes_of;
use crate::updating::Renamed;
use crate::writing::put_cleaned;
use mon_board::Watched;
use std::alloc::{AllocError, AllocFailed, Global};

/// What became of an interface that settings poll, or a new one.
#[derive(Clone, Copy, Debug, PartialEq, Eq)]
pub enum Change {
    /// The interface that had this index is gone.
    Gone(u32),
    /// The interface that had the first index has the second one now.
    Moved(u32, u32),
    /// The interface of this index is polled from now on.
    Added(u32),
}

/// Returns `true` if the index is one of these.
fn has_index(indexes: &[u32], index: u32) -> bool
    ensures { result ≡ list_any (nat_eq index) indexes.now }
{
    indexes.iter().any(|one| index == *one)
}

/// Adds the index of an interface of the agent that is watched, unless it is there.
fn put_watched(
    indexes: &mut Vec<u32>,
    engine: &[u8],
    watched: &Watched,
) -> Result<(), AllocFailed<u32>>
    ensures { OnOk result (indexes.new.items ≡ with_watched engine.now indexes.old.items
        watched.now) }
{
    if !is_own(engine, watched) {
        return Ok(());
    }
    let Spot::Cell(_, index) = Spot::of(&watched.instance.name) else {
        return Ok(());
    };
    if has_index(indexes, index) {
        return Ok(());
    }
    indexes.push(index)
}

/// The indexes of the agent's interfaces that are watched, each once.
fn polled(alloc: Global, engine: &[u8], instances: &[Watched]) -> Result<Vec<u32>, AllocError>
    ensures { IfOk result (λ v. v.items ≡ polled engine.now instances.now) }
{
    let mut indexes = Vec::new(alloc);
    let mut rest = instances;
    'walk: loop {
        let Some((watched, after)) = rest.split_first() else {
            return Ok(indexes);
        };
        put_watched(&mut indexes, engine, watched)?;
        rest = after;
    }
}

/// The indexes that the agent's interfaces have now which are watched.
pub(crate) fn indexes_left(
    alloc: Global,
    places: &Places<'_>,
    instances: &[Watched],
) -> Result<Vec<u32>, AllocError>
    ensures { IfOk result (λ v. v.items ≡ indexes_left (at_of places.now) instances.now) }
{
    let indexes = polled(alloc, places.engine, instances)?;
    let mut left = Vec::new(alloc);
    for index in &indexes {
        add(&mut left, places.index_now(*index))?;
    }
    Ok(left)
}

/// Adds a counter, unless its interface is one of these.
fn add_unless_there(
    counters: &mut Vec<Planned>,
    indexes: &[u32],
    one: Planned,
) -> Result<(), AllocFailed<Planned>>
    ensures { OnOk result (counters.new.items
        ≡ counters.old.items ++ unless_there indexes.now one) }
{
    if has_index(indexes, one.index) {
        return Ok(());
    }
    counters.push(one)
}

/// The counters of interfaces that are chosen and not watched.
pub(crate) fn new_counters(
    alloc: Global,
    places: &Places<'_>,
    choice: &Choice<'_>,
    instances: &[Watched],
) -> Result<Vec<Planned>, AllocError>
    ensures { IfOk result (λ v. v.items ≡ new_counters choice.now (at_of places.now)
        instances.now) }
{
    let left = indexes_left(alloc, places, instances)?;
    let Ok(all) = counters_of(alloc, places.answers, choice) else {
        return Err(AllocError);
    };
    let mut counters = Vec::new(alloc);
    for one in &all {
        add_unless_there(&mut counters, &left, *one)?;
    }
    Ok(counters)
}

/// Adds what became of the interface of an index, if it is gone or moved.
fn add_change(
    changes: &mut Vec<Change>,
    places: &Places<'_>,
    index: u32,
) -> Result<(), AllocFailed<Change>>
    ensures { OnOk result (changes.new.items ≡ changes.old.items
        ++ change_of (at_of places.now) index) }
{
    match places.index_now(index) {
        Some(now) if index == now => Ok(()),
        Some(now) => changes.push(Change::Moved(index, now)),
        None => changes.push(Change::Gone(index)),
    }
}

/// Adds what became of the interfaces of some indexes.
fn add_changes(
    changes: &mut Vec<Change>,
    places: &Places<'_>,
    indexes: &[u32],
) -> Result<(), AllocFailed<Change>>
    ensures { OnOk result (changes.new.items ≡ changes.old.items
        ++ flat_map (change_of (at_of places.now)) indexes.now) }
{
    for index in indexes {
        add_change(changes, places, *index)?;
    }
    Ok(())
}

/// Adds each new interface.
fn add_new(changes: &mut Vec<Change>, indexes: &[u32]) -> Result<(), AllocFailed<Change>>
    ensures { OnOk result (changes.new.items ≡ changes.old.items
        ++ map (λ i. Change.Added i) indexes.now) }
{
    for index in indexes {
        changes.push(Change::Added(*index))?;
    }
    Ok(())
}

/// Returns what changes if settings that watch this poll the agent's interfaces as they are now:
/// what became of those that they poll, which are gone or have another index, and then each new
/// one, of which a counter is chosen. An `Err` means out of memory.
pub fn changes_between(
    alloc: Global,
    renamed: &Renamed<'_>,
    choice: &Choice<'_>,
    instances: &[Watched],
) -> Result<Vec<Change>, AllocError>
    ensures { IfOk result (λ v. v.items ≡ changes_between choice.now (at_in renamed.now)
        instances.now) }
{
    let places = renamed.places();
    let before = polled(alloc, places.engine, instances)?;
    let counters = new_counters(alloc, &places, choice, instances)?;
    let added = indexes_of(alloc, &counters)?;
    let mut changes = Vec::new(alloc);
    add_changes(&mut changes, &places, &before)?;
    add_new(&mut changes, &added)?;
    Ok(changes)
}

/// The name of an interface, at most 64 octets of it as a comment shows them, or its index if it
/// has no name.
fn called(alloc: Global, name: &[u8], index: u32) -> Result<String, AllocError>
    ensures { IfOk result (λ t. string_bytes t ≡ called name.now index) }
{
    if name.is_empty() {
        return format!(in alloc; "index {index}");
    }
    let mut text = String::new(alloc);
    put_cleaned(&mut text, name)?;
    Ok(text)
}

/// The line of a change.
fn change_line(alloc: Global, places: &Places<'_>, change: Change) -> Result<String, AllocError>
    ensures { IfOk result (λ t. string_bytes t ≡ change_line (at_of places.now) change) }
{
    match change {
        Change::Added(index) => {
            let name = called(alloc, places.answers.name(index), index)?;
            format!(in alloc; "+ {name}\n")
        }
        Change::Gone(index) => {
            let name = name_before(places.known, index).unwrap_or(&[]);
            let name = called(alloc, name, index)?;
            format!(in alloc; "- {name}\n")
        }
        Change::Moved(index, now) => {
            let name = called(alloc, places.answers.name(now), index)?;
            format!(in alloc; "{name}: index {index} is {now} now\n")
        }
    }
}

/// Returns the lines that say what changes if settings that watch this poll the agent's interfaces
/// as they are now, each with its line feed: `+ NAME` for a new interface, `- NAME` for one that is
/// gone, and `NAME: index I is J now`. Of a name at most 64 octets are shown, each outside of 20 to
/// 7E as `?`; an interface without a name is `index I`. An `Err` means out of memory.
pub fn change_lines(
    alloc: Global,
    renamed: &Renamed<'_>,
    choice: &Choice<'_>,
    instances: &[Watched],
) -> Result<Vec<String>, AllocError>
    ensures { IfOk result (λ v. map string_bytes v.items ≡ change_lines choice.now
        (at_in renamed.now) instances.now) }
{
    let changes = changes_between(alloc, renamed, choice, instances)?;
    let places = renamed.places();
    let mut lines = Vec::new(alloc);
    for change in &changes {
        lines.push(change_line(alloc, &places, *change)?)?;
    }
    Ok(lines)
}
