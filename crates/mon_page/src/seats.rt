//! Where the instances of a device are shown: in the row of an interface, or among the others.

ghost use Rattle.std.specs.List.{list_any};
ghost use Rattle.std.specs.Prelude.{◌≡◌, ◌++◌, IfOk, OnOk, Some, ◌&&◌, filter};
ghost use Rattle.mon_page.specs.Seats.{comes_in, goes_out, has_place, interface_at, interfaces_from, is_at, is_free, others, placed};

use crate::row::Row;
use mon_display::Column;
use std::alloc::{AllocError, Global};
use std::marker::Model;

/// Returns `true` if what the instance counts came in at an interface.
pub(crate) fn comes_in(row: &Row) -> bool
    ensures { result ≡ comes_in row.now }
{
    matches!(row.column(), Column::InOctets)
}

/// Returns `true` if what the instance counts went out at an interface.
pub(crate) fn goes_out(row: &Row) -> bool
    ensures { result ≡ goes_out row.now }
{
    matches!(row.column(), Column::OutOctets)
}

/// Returns `true` if one of instances came in at the interface of this ifIndex.
fn has_in(rows: &[Row], index: u32) -> bool
    ensures { result ≡ list_any (λ r. is_at index r && comes_in r) rows.now }
{
    rows.iter().any(|row| row.is_at(index) && comes_in(row))
}

/// Returns `true` if one of instances went out at the interface of this ifIndex.
fn has_out(rows: &[Row], index: u32) -> bool
    ensures { result ≡ list_any (λ r. is_at index r && goes_out r) rows.now }
{
    rows.iter().any(|row| row.is_at(index) && goes_out(row))
}

/// Returns `true` if one of instances is of the interface of this ifIndex.
fn has_index(rows: &[Row], index: u32) -> bool
    ensures { result ≡ list_any (is_at index) rows.now }
{
    rows.iter().any(|row| row.is_at(index))
}

/// Returns `true` if an instance of this column and ifIndex has a place in the interface's row.
fn is_free(before: &[Row], index: u32, column: Column) -> bool
    ensures { result ≡ is_free before.now index column }
{
    match column {
        Column::InOctets => !has_in(before, index),
        Column::OutOctets => !has_out(before, index),
        Column::InErrors => true,
        Column::OutErrors => true,
        Column::InDiscards => true,
        Column::OutDiscards => true,
        Column::Other => false,
    }
}

/// Returns `true` if an instance of a device has a place in an interface's row, by the instances
/// before it.
fn has_place(before: &[Row], row: &Row) -> bool
    ensures { result ≡ has_place before.now row.now }
{
    match row.index() {
        None => false,
        Some(index) => is_free(before, index, row.column()),
    }
}

/// Returns the instances of a device that are in rows of interfaces.
pub(crate) fn placed<'a, 'e>(
    alloc: Global,
    device: &[Row<'a, 'e>],
) -> Result<Vec<Row<'a, 'e>>, AllocError>
    ensures { IfOk result (λ rows. rows.items ≡ placed device.now) }
{
    let mut rows = Vec::new(alloc);
    for place in 0..device.len() {
        let row = &device[place];
        if has_place(&device[..place], row) {
            rows.push(row.copied())?;
        }
    }
    Ok(rows)
}

/// Returns the other instances of a device.
pub(crate) fn others<'a, 'e>(
    alloc: Global,
    device: &[Row<'a, 'e>],
) -> Result<Vec<Row<'a, 'e>>, AllocError>
    ensures { IfOk result (λ rows. rows.items ≡ others device.now) }
{
    let mut rows = Vec::new(alloc);
    for place in 0..device.len() {
        let row = &device[place];
        if !has_place(&device[..place], row) {
            rows.push(row.copied())?;
        }
    }
    Ok(rows)
}

/// An interface: the instances that are in its row.
#[derive(Drop)]
pub(crate) struct Interface<'a, 'e> {
    rows: Vec<Row<'a, 'e>>,
}

impl<'a, 'e> Model for Interface<'a, 'e> {
    ghost use Rattle.std.specs.Prelude.{List};
    ghost use Rattle.mon_page.specs.Rows.{Row};

    ghost Value = { List Row };

    ghost view = { λ i. i.rows.items };
}

impl<'a, 'e> Interface<'a, 'e> {
    /// Returns its instances.
    pub(crate) fn rows(&self) -> &[Row<'a, 'e>]
        ensures { result.now ≡ self.now }
    {
        self.rows.as_slice()
    }
}

/// Returns the interfaces of instances that are in rows, each once.
pub(crate) fn interfaces<'a, 'e>(
    alloc: Global,
    rows: &[Row<'a, 'e>],
) -> Result<Vec<Interface<'a, 'e>>, AllocError>
    ensures { IfOk result (λ found. found.items ≡ interfaces_from rows.now 0 rows.now) }
{
    let mut found = Vec::new(alloc);
    for place in 0..rows.len() {
        let row = &rows[place];
        push_interface(alloc, &mut found, rows, &rows[..place], row.index())?;
    }
    Ok(found)
}

/// Adds the interface of an instance, unless it has none or one before it has the same.
fn push_interface<'a, 'e>(
    alloc: Global,
    found: &mut Vec<Interface<'a, 'e>>,
    rows: &[Row<'a, 'e>],
    before: &[Row<'a, 'e>],
    index: Option<u32>,
) -> Result<(), AllocError>
    ensures { OnOk result (found.new.items ≡ found.old.items
        ++ interface_at rows.now before.now index) }
{
    match index {
        None => Ok(()),
        Some(index) => push_new(alloc, found, rows, before, index),
    }
}

/// Adds the interface of this ifIndex, unless an instance before has it.
fn push_new<'a, 'e>(
    alloc: Global,
    found: &mut Vec<Interface<'a, 'e>>,
    rows: &[Row<'a, 'e>],
    before: &[Row<'a, 'e>],
    index: u32,
) -> Result<(), AllocError>
    ensures { OnOk result (found.new.items ≡ found.old.items
        ++ interface_at rows.now before.now (Some index)) }
{
    if has_index(before, index) {
        return Ok(());
    }
    found.push(interface_of_index(alloc, rows, index)?)?;
    Ok(())
}

/// Returns the instances of this ifIndex.
fn interface_of_index<'a, 'e>(
    alloc: Global,
    rows: &[Row<'a, 'e>],
    index: u32,
) -> Result<Interface<'a, 'e>, AllocError>
    ensures { IfOk result (λ found. found ≡ filter (is_at index) rows.now) }
{
    let mut found = Vec::new(alloc);
    for row in rows {
        if row.is_at(index) {
            found.push(row.copied())?;
        }
    }
    Ok(Interface { rows: found })
}
