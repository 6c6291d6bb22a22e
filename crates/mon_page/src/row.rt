//! An instance with what is given for it.

ghost use Rattle.std.specs.Prelude.{◌≡◌, ◌<◌, IfOk, bytes_eq, get_or, length, option_map, slice_get};
ghost use Rattle.mon_display.specs.Interface.{column_of, interface_of};
ghost use Rattle.mon_report.specs.Report.{Entry as AnEntry};
ghost use Rattle.mon_page.specs.Labelled.{labelled};
ghost use Rattle.mon_page.specs.Cells.{has_raised};
ghost use Rattle.mon_page.specs.Rows.{row_of, row_state, rows_from, rows_of};
ghost use Rattle.mon_page.specs.Seats.{is_at};

use crate::cells::{has_raised, state_cell};
use crate::extras::{Extras, InstanceLabels};
use crate::freshness::{ages_of, is_fresh, limit_of};
use mon_display::{Column, column_of, interface_of};
use mon_report::Entry;
use std::alloc::{AllocError, Global};
use std::marker::Model;

/// An instance with its labels and its age, as far as these are given.
#[derive(Drop)]
pub(crate) struct Row<'a, 'e> {
    entry: &'a Entry<'e>,
    labels: Option<&'a InstanceLabels>,
    age: Option<u32>,
    is_fresh: bool,
    state: &'static str,
    is_raised: bool,
    index: Option<u32>,
    column: Column,
}

impl<'a, 'e> Model for Row<'a, 'e> {
    ghost use Rattle.std.specs.Prelude.{◌≡◌, option_map};
    ghost use Rattle.mon_display.specs.Interface.{column_of, interface_of};
    ghost use Rattle.mon_page.specs.Cells.{has_raised, state_cell};
    ghost use Rattle.mon_page.specs.Rows.{Row, labels_of};

    ghost Value = { Row };

    ghost view = { λ r. record {
      entry = r.entry.now;
      labels = labels_of (option_map (λ l. l.now) r.labels);
      age = r.age;
      fresh = r.is_fresh;
    } };

    ghost invariant = { λ r. (r.state.now ≡ state_cell r.is_fresh r.entry.now.alarms)
        × (r.is_raised ≡ has_raised r.entry.now.alarms) × (r.index ≡ interface_of r.entry.now.name)
        × (r.column ≡ column_of r.entry.now.name) };
}

impl<'a, 'e> Row<'a, 'e> {
    /// An instance with its labels, of this age in rounds, where those of this limit and above are
    /// stale.
    fn new(
        alloc: Global,
        entry: &'a Entry<'e>,
        labels: Option<&'a InstanceLabels>,
        limit: u32,
        age: Option<u32>,
    ) -> Result<Self, AllocError>
        ensures { IfOk result (λ row. row ≡ row_of limit age
            (entry.now, option_map (λ l. l.now) labels.entry)) }
    {
        let name = entry.name().parts();
        let is_fresh = is_fresh(limit, age);
        let state = state_cell(alloc, entry, is_fresh)?;
        let is_raised = has_raised(alloc, entry)?;
        Ok(Row {
            entry,
            labels,
            age,
            is_fresh,
            state,
            is_raised,
            index: interface_of(name),
            column: column_of(name),
        })
    }

    /// Returns it again, for another list.
    pub(crate) fn copied(&self) -> Row<'a, 'e>
        ensures { result ≡ self.now }
    {
        Row {
            entry: self.entry,
            labels: self.labels,
            age: self.age,
            is_fresh: self.is_fresh,
            state: self.state,
            is_raised: self.is_raised,
            index: self.index,
            column: self.column,
        }
    }

    /// Returns what the report says of it.
    pub(crate) fn entry(&self) -> &'a Entry<'e>
        ensures { result.now ≡ self.now.entry }
    {
        self.entry
    }

    /// Returns in how many rounds it had no new sample, if that is known.
    pub(crate) fn age(&self) -> Option<u32>
        ensures { result ≡ self.now.age }
    {
        self.age
    }

    /// Returns `true` if it is not stale.
    pub(crate) fn is_fresh(&self) -> bool
        ensures { result ≡ self.now.fresh }
    {
        self.is_fresh
    }

    /// Returns what its alarm's cell says.
    pub(crate) fn state(&self) -> &'static str
        ensures { result.now ≡ row_state self.now }
    {
        self.state
    }

    /// Returns `true` if an alarm of it is raised.
    pub(crate) fn is_raised(&self) -> bool
        ensures { result ≡ has_raised self.now.entry.alarms }
    {
        self.is_raised
    }

    /// Returns `true` if its engine id has these octets.
    pub(crate) fn is_of(&self, engine: &[u8]) -> bool
        ensures { result ≡ bytes_eq self.now.entry.engine engine.now }
    {
        self.entry.engine() == engine
    }

    /// Returns `true` if it is of the interface of this ifIndex.
    pub(crate) fn is_at(&self, index: u32) -> bool
        ensures { result ≡ is_at index self.now }
    {
        match self.index {
            None => false,
            Some(own) => own == index,
        }
    }

    /// Returns the ifIndex of its interface, if its name is of one.
    pub(crate) fn index(&self) -> Option<u32>
        ensures { result ≡ interface_of self.now.entry.name }
    {
        self.index
    }

    /// Returns which column of interfaces it is of.
    pub(crate) fn column(&self) -> Column
        ensures { result ≡ column_of self.now.entry.name }
    {
        self.column
    }

    /// Returns where the agent of its target is reached, if that is known.
    pub(crate) fn target(&self) -> Option<&'a str>
        ensures { option_map (λ t. t.now) result ≡ self.now.labels.target }
    {
        match self.labels {
            None => None,
            Some(labels) => labels.target.as_deref(),
        }
    }

    /// Returns the label of its target, if it has one.
    pub(crate) fn device(&self) -> Option<&'a str>
        ensures { option_map (λ t. t.now) result ≡ self.now.labels.device }
    {
        match self.labels {
            None => None,
            Some(labels) => labels.device.as_deref(),
        }
    }

    /// Returns the ifName of its interface, if it is known.
    pub(crate) fn if_name(&self) -> Option<&'a str>
        ensures { option_map (λ t. t.now) result ≡ self.now.labels.if_name }
    {
        match self.labels {
            None => None,
            Some(labels) => labels.if_name.as_deref(),
        }
    }

    /// Returns the ifAlias of its interface, if it is known.
    pub(crate) fn if_alias(&self) -> Option<&'a str>
        ensures { option_map (λ t. t.now) result ≡ self.now.labels.if_alias }
    {
        match self.labels {
            None => None,
            Some(labels) => labels.if_alias.as_deref(),
        }
    }

    /// Returns the speed of its interface in bits a second, if it is known.
    pub(crate) fn speed(&self) -> Option<u64>
        ensures { result ≡ self.now.labels.speed }
    {
        match self.labels {
            None => None,
            Some(labels) => labels.speed,
        }
    }
}

/// Instances with their labels and their ages, as far as these are given.
#[derive(Clone, Copy)]
struct Listing<'a, 'e> {
    entries: &'a [Entry<'e>],
    /// Of the first instances.
    labels: &'a [InstanceLabels],
    /// Of the first instances.
    ages: &'a [u32],
    /// From which age on an instance is stale.
    limit: u32,
}

/// Returns the instances of a report, each with its labels and its age.
///
/// # Errors
/// `AllocError` if there is no memory for them.
pub(crate) fn rows_of<'a, 'e>(
    alloc: Global,
    entries: &'a [Entry<'e>],
    extras: Extras<'a>,
) -> Result<Vec<Row<'a, 'e>>, AllocError>
    ensures { IfOk result (λ rows. rows.items ≡ rows_of (option_map (λ f. f.now)
        extras.entry.station) (labelled extras.entry.labels.now entries.now)) }
{
    let ages = ages_of(extras.station);
    let limit = limit_of(extras.station);
    rows_in(
        alloc,
        Listing {
            entries,
            labels: extras.labels,
            ages,
            limit,
        },
    )
}

/// Returns the instances, each with its labels and its age.
fn rows_in<'a, 'e>(alloc: Global, listing: Listing<'a, 'e>) -> Result<Vec<Row<'a, 'e>>, AllocError>
    ensures { IfOk result (λ rows. rows.items ≡ rows_from listing.entry.limit listing.entry.ages.now
        0 (labelled listing.entry.labels.now listing.entry.entries.now)) }
{
    let mut rows = Vec::with_capacity(alloc, listing.entries.len())?;
    for place in 0..listing.entries.len() {
        rows.push(row_at(alloc, listing, place)?)?;
    }
    Ok(rows)
}

/// Returns the instance at a place, with the labels and the age at it.
fn row_at<'a, 'e>(
    alloc: Global,
    listing: Listing<'a, 'e>,
    place: usize,
) -> Result<Row<'a, 'e>, AllocError>
    requires { place < length listing.entries.now }
    ensures { (other : AnEntry) → IfOk result (λ row. row ≡ row_of listing.entry.limit
        (slice_get listing.entry.ages.now place)
        (get_or listing.entry.entries.now place other, slice_get listing.entry.labels.now place)) }
{
    Row::new(
        alloc,
        &listing.entries[place],
        listing.labels.get(place),
        listing.limit,
        listing.ages.get(place).copied(),
    )
}
