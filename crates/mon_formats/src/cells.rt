//! What more than one format says of instances.

ghost use Rattle.std.specs.Prelude.{◌≡◌};
ghost use Rattle.mon_report.specs.Report.{samples_in};

use mon_report::Entry;

/// How many samples the instances have, all together.
pub(crate) fn count_samples(entries: &[Entry]) -> u128
    ensures { result ≡ samples_in entries.now }
{
    let mut count = 0;
    for entry in entries {
        count += entry.samples().len() as u128;
    }
    count
}
