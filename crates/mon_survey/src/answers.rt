//! What an agent answered of its interfaces.

ghost use Rattle.std.specs.Prelude.{◌≡◌, ◌⊎◌, ◌≤◌, ◌<◌, ◌↔◌, [], Err, Ok, IfErr, IfOk, IfSome, IfNone, IsTrue, OnErr, option_copied, Contains};
ghost use Rattle.mon_survey.specs.Answers.{IsPlaceOf, IsRising, cell_at, count_of, is_after, is_counter32, is_counter64, is_marked, is_up, keys_of, name_in, number_in, octets_of, speed_in, speed_of, taken, type_in, value_at, with_cell};
ghost use Rattle.mon_survey.specs.Column.{key_of};

use crate::column::{Column, Spot};
use crate::fault::SurveyFault;
use mon_ber::Value;
use mon_oid::Oid;
use std::alloc::Global;
use std::marker::Model;

/// A cell of a table of interfaces.
pub struct Cell {
    /// The number of its place, which rises as names do.
    pub key: u128,
    /// Its column.
    pub column: Column,
    /// Its index.
    pub index: u32,
    /// Its value.
    pub value: Value,
}

// By hand: where one is let go, a proof has one call and not a drop of each field.
impl Drop for Cell {
    fn drop(self) {
        let Cell {
            key: _,
            column: _,
            index: _,
            value: _,
        } = self;
    }
}

/// What an agent answered of its interfaces. Contracts see the list of its cells.
#[derive(Drop)]
pub struct Answers {
    cells: Vec<Cell>,
}

impl Model for Answers {
    ghost use Rattle.std.specs.Prelude.{List};
    ghost use Rattle.mon_survey.specs.declared.answers.Cell.{Cell};
    ghost use Rattle.mon_survey.specs.Answers.{IsRising};

    ghost Value = { List Cell };

    ghost view = { λ a. a.cells.items };

    ghost invariant = { λ a. IsRising a.cells.items };
}

impl Answers {
    /// No answers yet.
    pub fn new(alloc: Global) -> Self
        ensures { result ≡ [] }
    {
        Answers {
            cells: Vec::new(alloc),
        }
    }

    /// Takes the value of a name. What lies outside of the tables of interfaces changes nothing.
    ///
    /// # Errors
    /// `BadIndex` for a name in a table whose index is not one number; `NotRising` for a cell that
    /// does not come after the last one; `OutOfMemory`.
    pub fn take(&mut self, name: &Oid, value: Value) -> Result<(), SurveyFault>
        ensures gives { IfOk result (λ _. taken self.old name.now value ≡ Ok self.new) }
        ensures fault { IfErr result (λ e. (e ≡ SurveyFault.OutOfMemory)
            ⊎ (taken self.old name.now value ≡ Err e)) }
        ensures same { OnErr result (self.new ≡ self.old) }
    {
        match Spot::of(name) {
            Spot::Cell(column, index) => self.put(column, index, value),
            Spot::Ragged => Err(SurveyFault::BadIndex),
            Spot::Elsewhere => Ok(()),
        }
    }

    /// Puts a cell after the others.
    fn put(&mut self, column: Column, index: u32, value: Value) -> Result<(), SurveyFault>
        ensures gives { IfOk result (λ _. with_cell self.old column index value ≡ Ok self.new) }
        ensures fault { IfErr result (λ e. (e ≡ SurveyFault.OutOfMemory)
            ⊎ (with_cell self.old column index value ≡ Err e)) }
        ensures same { OnErr result (self.new ≡ self.old) }
    {
        let key = column.key(index);
        if !is_after(&self.cells, key) {
            return Err(SurveyFault::NotRising);
        }
        self.cells.push(Cell {
            key,
            column,
            index,
            value,
        })?;
        Ok(())
    }

    /// The cells, in the order of their names.
    pub fn cells(&self) -> &[Cell]
        ensures { result.now ≡ self.now }
    {
        self.cells.as_slice()
    }

    /// The value of a cell.
    pub fn value(&self, column: Column, index: u32) -> Option<&Value>
        ensures { option_copied result ≡ value_at self.now column index }
    {
        let Some(cell) = find(&self.cells, column.key(index)) else {
            return None;
        };
        Some(&cell.value)
    }

    /// Returns `true` if the cell holds a counter of 64 bits.
    pub(crate) fn is_counter64(&self, column: Column, index: u32) -> bool
        ensures { result ≡ is_counter64 (value_at self.now column index) }
    {
        matches!(self.value(column, index), Some(Value::Counter64(_)))
    }

    /// Returns `true` if the cell holds a counter of 32 bits.
    pub(crate) fn is_counter32(&self, column: Column, index: u32) -> bool
        ensures { result ≡ is_counter32 (value_at self.now column index) }
    {
        matches!(self.value(column, index), Some(Value::Counter32(_)))
    }

    /// Returns `true` if the interface has an ifCounterDiscontinuityTime.
    pub fn is_marked(&self, index: u32) -> bool
        ensures { result ≡ is_marked self.now index }
    {
        matches!(
            self.value(Column::IfX(19), index),
            Some(Value::TimeTicks(_))
        )
    }

    /// Returns `true` if the interface's ifOperStatus is up(1).
    pub(crate) fn is_up(&self, index: u32) -> bool
        ensures { result ≡ is_up self.now index }
    {
        matches!(self.value(Column::If(8), index), Some(Value::Integer(1)))
    }

    /// Returns the interface's ifHighSpeed, in units of 1,000,000 bits a second; 0 if it is absent.
    pub fn high_speed(&self, index: u32) -> u32
        ensures { result ≡ number_in (value_at self.now (Column.IfX 15) index) }
    {
        self.gauge(Column::IfX(15), index)
    }

    /// Returns the interface's speed in bits a second: by ifHighSpeed, or by ifSpeed if ifHighSpeed
    /// is 0 or absent. 0 if neither says it: an ifSpeed of 4,294,967,295 says nothing.
    pub fn speed(&self, index: u32) -> u64
        ensures speed { result ≡ speed_in self.now index }
        ensures range { result ≤ 4_294_967_295_000_000 }
    {
        let millions = self.high_speed(index);
        let plain = self.gauge(Column::If(5), index);
        if millions > 0 {
            u64::from(millions) * 1_000_000
        } else if plain < u32::MAX {
            u64::from(plain)
        } else {
            0
        }
    }

    /// Returns the number of a cell that holds a gauge; 0 if it holds none.
    fn gauge(&self, column: Column, index: u32) -> u32
        ensures { result ≡ number_in (value_at self.now column index) }
    {
        match self.value(column, index) {
            Some(Value::Gauge32(number)) => *number,
            _ => 0,
        }
    }

    /// The interface's ifType (RFC 2863 section 6); 0 if it is absent.
    pub fn kind(&self, index: u32) -> u32
        ensures { result ≡ type_in self.now index }
    {
        match self.value(Column::If(3), index) {
            Some(Value::Integer(number)) if *number >= 0 => number.unsigned_abs(),
            _ => 0,
        }
    }

    /// Returns how many interfaces ifTable has.
    pub fn count(&self) -> usize
        ensures { result ≡ count_of self.now }
    {
        self.cells
            .iter()
            .filter(|cell| cell.column == Column::If(2))
            .count()
    }

    /// The interface's ifName, or its ifDescr where it has none.
    pub fn name(&self, index: u32) -> &[u8]
        ensures { result.now ≡ name_in self.now index }
    {
        match self.value(Column::IfX(1), index) {
            Some(Value::Octets(name)) => name.as_slice(),
            _ => self.octets(Column::If(2), index),
        }
    }

    /// The interface's ifAlias; no octets if it is absent.
    pub fn alias(&self, index: u32) -> &[u8]
        ensures { result.now ≡ octets_of (value_at self.now (Column.IfX 18) index) }
    {
        self.octets(Column::IfX(18), index)
    }

    /// The octets of a cell; none where it holds none.
    pub(crate) fn octets(&self, column: Column, index: u32) -> &[u8]
        ensures { result.now ≡ octets_of (value_at self.now column index) }
    {
        match self.value(column, index) {
            Some(Value::Octets(octets)) => octets.as_slice(),
            _ => &[],
        }
    }
}

/// Returns `true` if a cell of this key may follow the others.
fn is_after(cells: &[Cell], key: u128) -> bool
    ensures { result ≡ is_after cells.now key }
{
    match cells.last() {
        Some(last) => last.key < key,
        None => true,
    }
}

/// The cell of this key.
fn find(cells: &[Cell], key: u128) -> Option<&Cell>
    requires { IsRising cells.now }
    ensures { option_copied result ≡ cell_at cells.now key }
{
    match cells.binary_search_by_key(&key, |cell| cell.key) {
        Ok(place) => Some(&cells[place]),
        Err(_) => None,
    }
}
