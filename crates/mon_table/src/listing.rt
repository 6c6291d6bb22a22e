//! The instances of a table.

ghost use Rattle.std.specs.Prelude.{◌≡◌, option_map, slice_get};
ghost use Rattle.mon_table.specs.Cells.{fresh_at};

use mon_page::{InstanceLabels, is_fresh};
use mon_report::Entry;
use std::marker::Model;

/// The instances of a table, their labels and ages, and from which age on one is stale.
#[derive(Drop)]
pub(crate) struct Listing<'a, 'e> {
    entries: &'a [Entry<'e>],
    labels: &'a [InstanceLabels],
    ages: &'a [u32],
    limit: u32,
}

impl<'a, 'e> Model for Listing<'a, 'e> {
    ghost use Rattle.mon_table.specs.Cells.{Listed};

    ghost Value = { Listed };

    ghost view = { λ l. record {
      entries = l.entries.now;
      labels = l.labels.now;
      ages = l.ages.now;
      limit = l.limit;
    } };
}

impl<'a, 'e> Listing<'a, 'e> {
    ghost use Rattle.mon_table.specs.Cells.{Listed};

    /// Returns the instances with these labels and ages, of which those of this age and above are
    /// stale.
    pub(crate) fn new(
        entries: &'a [Entry<'e>],
        labels: &'a [InstanceLabels],
        ages: &'a [u32],
        limit: u32,
    ) -> Self
        ensures { let l : Listed = record {
          entries = entries.now;
          labels = labels.now;
          ages =
              ages.now;
          limit = limit;
        } in result ≡ l }
    {
        Listing {
            entries,
            labels,
            ages,
            limit,
        }
    }

    /// Returns the instances.
    pub(crate) fn entries(&self) -> &'a [Entry<'e>]
        ensures { result.now ≡ self.now.entries }
    {
        self.entries
    }

    /// Returns the instance at a place, if there is one.
    pub(crate) fn entry(&self, place: usize) -> Option<&'a Entry<'e>>
        ensures { option_map (λ e. e.now) result ≡ slice_get self.now.entries place }
    {
        self.entries.get(place)
    }

    /// Returns the labels of the instance at a place, if there are any.
    pub(crate) fn labels(&self, place: usize) -> Option<&'a InstanceLabels>
        ensures { option_map (λ l. l.now) result ≡ slice_get self.now.labels place }
    {
        self.labels.get(place)
    }

    /// Returns the age of the instance at a place, if it is known.
    pub(crate) fn age(&self, place: usize) -> Option<u32>
        ensures { result ≡ slice_get self.now.ages place }
    {
        self.ages.get(place).copied()
    }

    /// Returns `true` if the instance at a place is not stale.
    pub(crate) fn is_fresh(&self, place: usize) -> bool
        ensures { result ≡ fresh_at self.now place }
    {
        is_fresh(self.limit, self.age(place))
    }
}
