//! Which rows a table has.

ghost use Rattle.std.specs.Prelude.{◌≡◌, IfOk};
ghost use Rattle.mon_table.specs.Rows.{in_from, is_at, is_beside, is_in, is_out, out_from, row_at, rows_from};

use mon_display::{Column, column_of, interface_of};
use mon_report::Entry;
use std::alloc::{AllocError, Global};

/// A row: the place of its instance, and of octets in that of the octets out of the same interface.
#[derive(Clone, Copy, Debug)]
pub struct Row {
    /// The place of its instance.
    pub place: usize,
    /// The place of its second instance, if it has one.
    pub out: Option<usize>,
}

/// Returns the rows of instances, in their order.
pub(crate) fn rows_of(alloc: Global, entries: &[Entry]) -> Result<Vec<Row>, AllocError>
    ensures { IfOk result (λ rows. rows.items ≡ rows_from entries.now 0 entries.now) }
{
    let mut rows = Vec::new(alloc);
    for (place, entry) in entries.iter().enumerate() {
        if let Some(row) = row_at(entries, place, entry) {
            rows.push(row)?;
        }
    }
    Ok(rows)
}

/// Returns the row that begins with the instance at a place, if one does: none begins with octets
/// out of an interface that has octets in.
fn row_at(entries: &[Entry], place: usize, entry: &Entry) -> Option<Row>
    ensures { result ≡ row_at entries.now place entry.now }
{
    let (into, out) = (find_in(entries, entry), find_out(entries, entry));
    if is_at(place, into) {
        return Some(Row { place, out });
    }
    if is_at(place, out) && into.is_some() {
        return None;
    }
    Some(Row { place, out: None })
}

/// Returns `true` if a place is this one.
fn is_at(place: usize, other: Option<usize>) -> bool
    ensures { result ≡ is_at place other }
{
    match other {
        None => false,
        Some(other) => other == place,
    }
}

/// Returns the place of the first octets in of an instance's interface.
fn find_in(entries: &[Entry], entry: &Entry) -> Option<usize>
    ensures { result ≡ in_from entry.now 0 entries.now }
{
    for (place, other) in entries.iter().enumerate() {
        if is_beside(entry, other) && is_in(column_of(other.name().parts())) {
            return Some(place);
        }
    }
    None
}

/// Returns the place of the first octets out of an instance's interface.
fn find_out(entries: &[Entry], entry: &Entry) -> Option<usize>
    ensures { result ≡ out_from entry.now 0 entries.now }
{
    for (place, other) in entries.iter().enumerate() {
        if is_beside(entry, other) && is_out(column_of(other.name().parts())) {
            return Some(place);
        }
    }
    None
}

/// Returns `true` if another instance is of the same interface of the same device.
fn is_beside(entry: &Entry, other: &Entry) -> bool
    ensures { result ≡ is_beside entry.now other.now }
{
    if other.engine() != entry.engine() {
        return false;
    }
    let index = interface_of(entry.name().parts());
    match (index, interface_of(other.name().parts())) {
        (Some(index), Some(other)) => index == other,
        _ => false,
    }
}

/// Returns `true` if a column is that of octets in.
pub(crate) fn is_in(column: Column) -> bool
    ensures { result ≡ is_in column }
{
    matches!(column, Column::InOctets)
}

/// Returns `true` if a column is that of octets out.
pub(crate) fn is_out(column: Column) -> bool
    ensures { result ≡ is_out column }
{
    matches!(column, Column::OutOctets)
}
