//! Columns of the tables of interfaces, and where a name lies in them.

ghost use Rattle.std.specs.Prelude.{◌≡◌, IfOk};
ghost use Rattle.mon_survey.specs.Column.{cell_name, column_name, columns, key_of, spot_of, spot_after};

use mon_oid::{Oid, OidFault};
use std::alloc::Global;

/// ifEntry (RFC 2863 section 6).
const IF_ENTRY: [u32; 9] = [1, 3, 6, 1, 2, 1, 2, 2, 1];

/// ifXEntry (RFC 2863 section 6).
const IF_X_ENTRY: [u32; 10] = [1, 3, 6, 1, 2, 1, 31, 1, 1, 1];

/// How many indexes there are, 2^32.
const INDEXES: u128 = 4294967296;

/// A column of a table of interfaces, by its number (RFC 2863 section 6).
#[derive(Clone, Copy, PartialEq, Eq)]
pub enum Column {
    /// A column of ifTable.
    If(u32),
    /// A column of ifXTable.
    IfX(u32),
}

impl Column {
    /// Returns the name under which the column's cells lie. An `Err` means out of memory.
    pub fn name(self, alloc: Global) -> Result<Oid, OidFault>
        ensures { IfOk result (λ q. q ≡ column_name self) }
    {
        match self {
            Column::If(number) => Oid::from_parts(alloc, &[1, 3, 6, 1, 2, 1, 2, 2, 1, number]),
            Column::IfX(number) => Oid::from_parts(alloc, &[1, 3, 6, 1, 2, 1, 31, 1, 1, 1, number]),
        }
    }

    /// Returns the name of its cell at this index. An `Err` means out of memory.
    pub(crate) fn cell(self, alloc: Global, index: u32) -> Result<Oid, OidFault>
        ensures { IfOk result (λ q. q ≡ cell_name self index) }
    {
        match self {
            Column::If(number) => {
                Oid::from_parts(alloc, &[1, 3, 6, 1, 2, 1, 2, 2, 1, number, index])
            }
            Column::IfX(number) => {
                Oid::from_parts(alloc, &[1, 3, 6, 1, 2, 1, 31, 1, 1, 1, number, index])
            }
        }
    }

    /// A number that rises as the names of cells do: those of ifTable, then those of ifXTable.
    pub(crate) fn key(self, index: u32) -> u128
        ensures { result ≡ key_of self index }
    {
        let code = match self {
            Column::If(number) => u128::from(number),
            Column::IfX(number) => INDEXES + u128::from(number),
        };
        code * INDEXES + u128::from(index)
    }
}

/// Returns the columns that a plan looks at, in the order of their names.
pub fn columns() -> [Column; 28]
    ensures { result ≡ columns }
{
    [
        Column::If(2),
        Column::If(3),
        Column::If(5),
        Column::If(8),
        Column::If(10),
        Column::If(11),
        Column::If(13),
        Column::If(14),
        Column::If(16),
        Column::If(17),
        Column::If(19),
        Column::If(20),
        Column::IfX(1),
        Column::IfX(2),
        Column::IfX(3),
        Column::IfX(4),
        Column::IfX(5),
        Column::IfX(6),
        Column::IfX(7),
        Column::IfX(8),
        Column::IfX(9),
        Column::IfX(10),
        Column::IfX(11),
        Column::IfX(12),
        Column::IfX(13),
        Column::IfX(15),
        Column::IfX(18),
        Column::IfX(19),
    ]
}

/// Where a name lies.
#[derive(Clone, Copy)]
pub enum Spot {
    /// In this column, at this index.
    Cell(Column, u32),
    /// Under an entry, but not at a column and one number.
    Ragged,
    /// Under neither entry.
    Elsewhere,
}

/// Where the numbers after an entry's name lead.
fn after(rest: &[u32], extended: bool) -> Spot
    ensures { result ≡ spot_after extended rest.now }
{
    let [column, index] = rest else {
        return Spot::Ragged;
    };
    if extended {
        Spot::Cell(Column::IfX(*column), *index)
    } else {
        Spot::Cell(Column::If(*column), *index)
    }
}

impl Spot {
    /// Returns where a name lies.
    #[tactic(auto, unfolding(crate::specs::Column::spot_of))]
    pub fn of(name: &Oid) -> Spot
        ensures { result ≡ spot_of name.now }
    {
        let parts = name.parts();
        if parts.starts_with(&IF_ENTRY) {
            return after(&parts[IF_ENTRY.len()..], false);
        }
        if parts.starts_with(&IF_X_ENTRY) {
            return after(&parts[IF_X_ENTRY.len()..], true);
        }
        Spot::Elsewhere
    }
}
