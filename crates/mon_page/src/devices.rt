//! The devices of a report: neighbouring instances of one engine id.

ghost use Rattle.std.specs.Prelude.{◌≡◌, ◌≤◌, IfOk, IfSome, Some, ◌||◌, bytes_eq, find, length, not, option_map, position};
ghost use Rattle.mon_page.specs.Words.{is_labelled};
ghost use Rattle.std.specs.List.{list_any};
ghost use Rattle.mon_page.specs.Cells.{has_raised, newest_of};
ghost use Rattle.mon_page.specs.Devices.{begins, device_at, devices, engine_of, is_up, is_wrong, naming_row, newest_stamp, or_first, row_before, stamp_of, targets_of};

use crate::figures::{Figures, TargetFigures};
use crate::row::Row;
use crate::words::is_labelled;
use mon_sample::Sample;
use std::alloc::{AllocError, Global};
use std::marker::Model;

/// A device: its instances.
#[derive(Drop)]
pub(crate) struct Device<'r, 'a, 'e> {
    rows: &'r [Row<'a, 'e>],
}

impl<'r, 'a, 'e> Model for Device<'r, 'a, 'e> {
    ghost use Rattle.std.specs.Prelude.{List};
    ghost use Rattle.mon_page.specs.Rows.{Row};

    ghost Value = { List Row };

    ghost view = { λ d. d.rows.now };
}

impl<'r, 'a, 'e> Device<'r, 'a, 'e> {
    /// Returns its instances.
    pub(crate) fn rows(&self) -> &'r [Row<'a, 'e>]
        ensures { result.now ≡ self.now }
    {
        self.rows
    }

    /// Returns `true` if each target of its engine id is up.
    pub(crate) fn is_up(&self, targets: &[TargetFigures]) -> bool
        ensures { result ≡ is_up targets.now self.now }
    {
        let engine = engine_of(self.rows);
        targets
            .iter()
            .all(|target| target.up || target.engine.as_slice() != engine)
    }

    /// Returns `true` if it is down, or an instance is stale or has a raised alarm.
    pub(crate) fn is_wrong(&self, targets: &[TargetFigures]) -> bool
        ensures { result ≡ is_wrong targets.now self.now }
    {
        !self.is_up(targets) || (has_stale(self.rows) || has_alarm(self.rows))
    }
}

/// Returns `true` if an instance is stale.
fn has_stale(rows: &[Row]) -> bool
    ensures { result ≡ list_any (λ r. not r.fresh) rows.now }
{
    rows.iter().any(|row| !row.is_fresh())
}

/// Returns `true` if an alarm of an instance is raised.
fn has_alarm(rows: &[Row]) -> bool
    ensures { result ≡ list_any (λ r. has_raised r.entry.alarms) rows.now }
{
    rows.iter().any(|row| row.is_raised())
}

/// Returns the engine id of a device.
pub(crate) fn engine_of<'a>(rows: &[Row<'a, '_>]) -> &'a [u8]
    ensures { result.now ≡ engine_of rows.now }
{
    match rows.first() {
        None => &[],
        Some(row) => row.entry().engine(),
    }
}

/// Returns the targets of a station.
pub(crate) fn targets_of<'a>(station: Option<&'a Figures>) -> &'a [TargetFigures]
    ensures { result.now ≡ targets_of (option_map (λ f. f.now) station.entry) }
{
    match station {
        None => &[],
        Some(figures) => figures.targets.as_slice(),
    }
}

/// Returns the instance before a place.
fn row_before<'r, 'a, 'e>(rows: &'r [Row<'a, 'e>], place: usize) -> Option<&'r Row<'a, 'e>>
    ensures { option_map (λ r. r.now) result ≡ row_before place rows.now }
{
    if place == 0 {
        return None;
    }
    rows.get(place - 1)
}

/// Returns `true` if an instance begins a device.
fn begins(before: Option<&Row>, row: &Row) -> bool
    ensures { result ≡ begins (option_map (λ r. r.now) before.entry) row.now }
{
    match before {
        None => true,
        Some(before) => !before.is_of(row.entry().engine()),
    }
}

/// Returns the place of the first instance of another engine id.
fn first_other(engine: &[u8], rows: &[Row]) -> Option<usize>
    ensures place { result ≡ position (λ r. not (bytes_eq r.entry.engine engine.now)) rows.now }
    ensures below { IfSome result (λ n. n ≤ length rows.now) }
{
    rows.iter().position(|row| !row.is_of(engine))
}

/// Returns the instances up to the first of another engine id.
fn device_at<'r, 'a, 'e>(engine: &[u8], rows: &'r [Row<'a, 'e>]) -> &'r [Row<'a, 'e>]
    ensures { result.now ≡ device_at engine.now rows.now }
{
    match first_other(engine, rows) {
        None => rows,
        Some(end) => &rows[..end],
    }
}

/// Returns the devices, each with its instances.
///
/// # Errors
/// `AllocError` if there is no memory for them.
pub(crate) fn devices_of<'r, 'a, 'e>(
    alloc: Global,
    rows: &'r [Row<'a, 'e>],
) -> Result<Vec<Device<'r, 'a, 'e>>, AllocError>
    ensures { IfOk result (λ found. found.items ≡ devices rows.now) }
{
    let mut found = Vec::new(alloc);
    for place in 0..rows.len() {
        let row = &rows[place];
        if begins(row_before(rows, place), row) {
            found.push(Device {
                rows: device_at(row.entry().engine(), &rows[place..]),
            })?;
        }
    }
    Ok(found)
}

/// Returns the instance that names a device: the first whose labels do, else the first.
pub(crate) fn naming_row<'r, 'a, 'e>(device: &'r [Row<'a, 'e>]) -> Option<&'r Row<'a, 'e>>
    ensures { option_map (λ r. r.now) result ≡ naming_row device.now }
{
    or_first(first_labelled(device), device)
}

/// Returns the first instance whose labels name its device.
fn first_labelled<'r, 'a, 'e>(device: &'r [Row<'a, 'e>]) -> Option<&'r Row<'a, 'e>>
    ensures { option_map (λ r. r.now) result ≡ find is_labelled device.now }
{
    device.iter().find(|row| is_labelled(row))
}

/// Returns an instance that was found, else the first.
fn or_first<'r, 'a, 'e>(
    found: Option<&'r Row<'a, 'e>>,
    device: &'r [Row<'a, 'e>],
) -> Option<&'r Row<'a, 'e>>
    ensures { option_map (λ r. r.now) result ≡ or_first (option_map (λ r. r.now) found.entry)
        device.now }
{
    match found {
        Some(row) => Some(row),
        None => device.first(),
    }
}

/// Returns the stamp of the newest sample as one number, 0 if there is none.
fn stamp_of(samples: &[Sample]) -> u64
    ensures { result ≡ stamp_of (newest_of samples.now) }
{
    let Some(newest) = samples.last() else {
        return 0;
    };
    u64::from(newest.boots()) * (1 << 32) + u64::from(newest.time())
}

/// Returns the greatest stamp of instances, 0 if they have no sample.
pub(crate) fn newest_stamp(device: &[Row]) -> u64
    ensures { result ≡ newest_stamp 0 device.now }
{
    let mut newest = 0;
    for row in device {
        newest = newest.max(stamp_of(row.entry().samples()));
    }
    newest
}
