//! Lists of tables.

ghost use Rattle.std.specs.Prelude.{◌≡◌, option_map};
ghost use Rattle.toml.specs.View.{view, table_view, items_view};
ghost use Rattle.mon_settings.specs.Leaf.{list_between};
ghost use Rattle.mon_settings.specs.Keys.{Reads};
ghost use Rattle.mon_settings.specs.Lists.{list_at, row, rows, rows_between, rows_up_to};

use crate::fault::{Read, SettingsFault};
use crate::key::Key;
use crate::keys::find;
use crate::leaf::Reader;
use crate::place::{PathPart, Place};
use std::alloc::Global;
use toml::Value;

/// What a table of a list is read as, by what is around the list.
pub(crate) trait Row<C>: Drop {
    ghost use Rattle.std.specs.Prelude.{Result};
    ghost use Rattle.toml.specs.Data.{Members};
    ghost use Rattle.toml.specs.View.{table_view};
    ghost use Rattle.mon_settings.specs.declared.fault.SettingsFault.{SettingsFault as AnyFault};
    ghost use Rattle.mon_settings.specs.Keys.{Reads};

    // What a table gives.
    ghost row_of: { C → Members → Result Self AnyFault };

    /// Reads one table.
    fn read(around: &C, reader: &Reader<'_>) -> Read<Self>
        ensures { Reads (λ r. r) (row_of around.now (table_view reader.now.table.now)) result };
}

#[tactic(auto, unfolding(crate::specs::Lists::row))]
fn read_row<C, R: Row<C>>(alloc: Global, around: &C, step: PathPart, value: &Value) -> Read<R>
    ensures { Reads (λ r. r) (row step (R.row_of around.now) (view value.now)) result }
{
    match value.as_table() {
        Some(table) => match R::read(around, &Reader { alloc, table }) {
            Ok(row) => Ok(row),
            Err(fault) => Err(fault.within(step)),
        },
        None => Err(SettingsFault::BadValue(Place::At(step))),
    }
}

/// The tables of these values, which are the list at a key.
fn read_rows<C, R: Row<C>>(alloc: Global, around: &C, key: Key, values: &[Value]) -> Read<Vec<R>>
    ensures { Reads (λ rs. rs.items) (rows key (R.row_of around.now) 1 (items_view values.now))
        result }
{
    let mut read = Vec::new(alloc);
    for (index, value) in values.iter().enumerate() {
        let entry = read_row(alloc, around, PathPart::Entry(key, index + 1), value)?;
        read.push(entry)?;
    }
    Ok(read)
}

/// The values of a list of least to most.
#[tactic(auto, using(crate::proofs::Rows::between_values))]
pub(crate) fn list_between(value: &Value, least: usize, most: usize) -> Option<&[Value]>
    ensures { option_map (λ vs. items_view vs.now) result
        ≡ list_between least most (view value.now) }
{
    let values = value.as_array()?;
    if least <= values.len() && values.len() <= most {
        Some(values.as_slice())
    } else {
        None
    }
}

impl Reader<'_> {
    /// The tables of the list at a key, least to most of them.
    #[tactic(auto, unfolding(crate::specs::Lists::rows_between))]
    pub(crate) fn rows<C, R: Row<C>>(
        &self,
        around: &C,
        key: Key,
        least: usize,
        most: usize,
    ) -> Read<Vec<R>>
        ensures { Reads (λ rs. rs.items) (rows_between key least most (R.row_of around.now)
            (table_view self.now.table.now)) result }
    {
        let Some(value) = find(self.table, key) else {
            return Err(SettingsFault::missing(key));
        };
        match list_between(value, least, most) {
            Some(values) => read_rows(self.alloc, around, key, values),
            None => Err(SettingsFault::bad(key)),
        }
    }

    /// Reads the tables of the list at a key, at most this many, and none if the key is left out.
    #[tactic(auto, unfolding(crate::specs::Lists::rows, crate::specs::Lists::rows_between, crate::specs::Lists::rows_up_to))]
    pub(crate) fn rows_or_none<C, R: Row<C>>(
        &self,
        around: &C,
        key: Key,
        most: usize,
    ) -> Read<Vec<R>>
        ensures { Reads (λ rs. rs.items) (rows_up_to key most (R.row_of around.now)
            (table_view self.now.table.now)) result }
    {
        match find(self.table, key) {
            Some(_) => self.rows(around, key, 0, most),
            None => Ok(Vec::new(self.alloc)),
        }
    }

    /// The tables of the list at a key, at most 256 of them.
    #[tactic(auto, unfolding(crate::specs::Lists::list_at, crate::specs::Lists::rows_between))]
    pub(crate) fn list<R: Row<()>>(&self, key: Key) -> Read<Vec<R>>
        ensures { Reads (λ rs. rs.items) (list_at key (R.row_of tt) (table_view self.now.table.now))
            result }
    {
        self.rows(&(), key, 0, 256)
    }
}
