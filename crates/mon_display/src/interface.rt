//! Which column of which interface a name is.

ghost use Rattle.std.specs.Prelude.{◌≡◌, ◌≤◌, length, option_copied, slice_get};
ghost use Rattle.mon_display.specs.Interface.{column_of, if_column, if_x_column, interface_of, is_column_of};

/// What columns of ifTable begin with (RFC 2863 section 6).
const IF_ENTRY: [u32; 9] = [1, 3, 6, 1, 2, 1, 2, 2, 1];

/// What columns of ifXTable begin with (RFC 2863 section 6).
const IF_X_ENTRY: [u32; 10] = [1, 3, 6, 1, 2, 1, 31, 1, 1, 1];

/// A column of an interface (RFC 2863 section 6).
#[derive(Clone, Copy, Debug, PartialEq, Eq)]
pub enum Column {
    /// ifInOctets or ifHCInOctets.
    InOctets,
    /// ifOutOctets or ifHCOutOctets.
    OutOctets,
    /// ifInErrors.
    InErrors,
    /// ifOutErrors.
    OutErrors,
    /// ifInDiscards.
    InDiscards,
    /// ifOutDiscards.
    OutDiscards,
    /// Another column, or no column of an interface.
    Other,
}

/// Returns the index of the interface that a name is about. Returns `None` if the name is no column
/// of ifTable or ifXTable with an index of one number (RFC 2863 section 6).
pub fn interface_of(name: &[u32]) -> Option<u32>
    ensures { result ≡ interface_of name.now }
{
    if is_column_of(&IF_ENTRY, name) || is_column_of(&IF_X_ENTRY, name) {
        return name.last().copied();
    }
    None
}

/// Returns the column that a name is about.
pub fn column_of(name: &[u32]) -> Column
    ensures { result ≡ column_of name.now }
{
    if is_column_of(&IF_ENTRY, name) {
        return if_column(name.get(9).copied());
    }
    if is_column_of(&IF_X_ENTRY, name) {
        return if_x_column(name.get(10).copied());
    }
    Column::Other
}

/// Returns `true` if a name is that of a column of this table with an index of one number.
fn is_column_of(entry: &[u32], name: &[u32]) -> bool
    requires { length entry.now ≤ 10 }
    ensures { result ≡ is_column_of entry.now name.now }
{
    name.starts_with(entry) && name.len() == entry.len() + 2
}

/// Returns a column of ifTable by its number.
fn if_column(number: Option<u32>) -> Column
    ensures { result ≡ if_column number }
{
    match number {
        Some(10) => Column::InOctets,
        Some(13) => Column::InDiscards,
        Some(14) => Column::InErrors,
        Some(16) => Column::OutOctets,
        Some(19) => Column::OutDiscards,
        Some(20) => Column::OutErrors,
        _ => Column::Other,
    }
}

/// Returns a column of ifXTable by its number.
fn if_x_column(number: Option<u32>) -> Column
    ensures { result ≡ if_x_column number }
{
    match number {
        Some(6) => Column::InOctets,
        Some(10) => Column::OutOctets,
        _ => Column::Other,
    }
}
