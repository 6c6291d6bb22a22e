//! Which instances of a running station are stale.

ghost use Rattle.std.specs.Prelude.{◌≡◌, option_map};
ghost use Rattle.mon_page.specs.Cells.{fresh_rate};
ghost use Rattle.mon_page.specs.Freshness.{ages_of, is_fresh, limit_of};

use crate::figures::Figures;
use mon_report::Entry;

/// Returns `true` if an instance of this age, in rounds, is not stale: its age is below the limit,
/// or it has none.
pub fn is_fresh(limit: u32, age: Option<u32>) -> bool
    ensures { result ≡ is_fresh limit age }
{
    match age {
        None => true,
        Some(age) => age < limit,
    }
}

/// Returns the rate of an instance a second, in thousandths. Returns `None` if it has none or the
/// instance is stale.
pub fn fresh_rate(entry: &Entry, is_fresh: bool) -> Option<u128>
    ensures { result ≡ fresh_rate is_fresh entry.now.items }
{
    if !is_fresh {
        return None;
    }
    entry.totals().thousandths()
}

/// Returns the ages that a station has of its instances.
pub(crate) fn ages_of<'a>(station: Option<&'a Figures>) -> &'a [u32]
    ensures { result.now ≡ ages_of (option_map (λ f. f.now) station.entry) }
{
    match station {
        None => &[],
        Some(figures) => figures.ages.as_slice(),
    }
}

/// Returns from which age on an instance of a station is stale; 0 without a station, which has no
/// ages.
pub(crate) fn limit_of(station: Option<&Figures>) -> u32
    ensures { result ≡ limit_of (option_map (λ f. f.now) station.entry) }
{
    match station {
        None => 0,
        Some(figures) => figures.stale_after,
    }
}
