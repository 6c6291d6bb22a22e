//! Where and when changes are seen.

ghost use Rattle.std.specs.Prelude.{◌≡◌, IfOk, decimal, string_bytes};

use httpdate::HttpDate;
use mon_board::Board;
use mon_page::InstanceLabels;
use std::alloc::{AllocError, Global};

/// What all changes have in common that a station sees at one time.
#[derive(Clone, Copy)]
pub struct Scene<'a> {
    /// The board whose alarms changed.
    pub board: &'a Board,
    /// The labels of its instances, in their order. An instance beyond the last of them has none.
    pub labels: &'a [InstanceLabels],
    /// The number of the station.
    pub station: u32,
    /// When the changes were seen.
    pub date: HttpDate,
}

/// Returns the number of a station in decimal.
pub(crate) fn station_text(alloc: Global, station: u32) -> Result<String, AllocError>
    ensures { IfOk result (λ t. string_bytes t ≡ decimal station) }
{
    let mut text = String::new(alloc);
    write!(text, "{station}")?;
    Ok(text)
}
