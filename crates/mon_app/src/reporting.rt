//! The report of what a replay keeps.

ghost use Rattle.std.specs.Prelude.{◌≡◌, ◌≤◌, IfOk};
ghost use Rattle.mon_app.specs.Reported.{IsKept, kept_of, reported_row};

use crate::laws;
use crate::replaying::take_lines;
use crate::table::{Row, Table};
use mon_rates::Totals;
use mon_report::Entry;
use std::alloc::{AllocError, Global};
use std::marker::Model;

/// What a report says of a row.
fn entry_of(row: &Row) -> Entry<'_>
    ensures { result ≡ reported_row row.now }
{
    prove!(row.window.size() <= 64);
    let samples = row.window.items();
    let instance = &row.instance;
    let totals = Totals::of(samples);
    let engine = instance.engine.as_slice();
    Entry::new(engine, &instance.name, samples, totals)
}

/// What a replay keeps: its windows, and the lines that name what it refuses.
#[derive(Drop)]
pub struct Recorded {
    table: Table,
    refused: String,
}

impl Model for Recorded {
    ghost use Rattle.std.specs.Prelude.{map, string_bytes};
    ghost use Rattle.mon_app.specs.Reported.{Kept, reported_row};

    ghost Value = { Kept };

    ghost view = { λ r. record {
      refused = string_bytes r.refused;
      entries = map reported_row
          r.table.rows.items;
    } };
}

impl Recorded {
    /// What windows of `n` samples keep of the responses that the input records, one a line, in hex
    /// digits.
    pub fn read(alloc: Global, n: usize, input: &[u8]) -> Result<Self, AllocError>
        requires positive { 1 ≤ n }
        requires small { n ≤ 64 }
        ensures kept { IfOk result (λ kept. kept ≡ kept_of n input.now) }

        // By the grammar of messages, as a replay's.
        ensures meaning { IfOk result (λ kept. IsKept n input.now kept) }
    {
        laws::one_text();
        let mut table = Table::new(alloc, n);
        let mut refused = String::new(alloc);
        take_lines(alloc, &mut table, input, &mut refused)?;
        Ok(Recorded { table, refused })
    }

    /// The lines that name what is refused, by number and cause.
    pub fn refused(&self) -> &str
        ensures { result.now ≡ self.now.refused }
    {
        self.refused.as_str()
    }

    /// What a report says of each instance, by engine id and name. There are no alarm rules.
    pub fn entries(&self, alloc: Global) -> Result<Vec<Entry<'_>>, AllocError>
        ensures { IfOk result (λ entries. entries.items ≡ self.now.entries) }
    {
        let mut entries = Vec::new(alloc);
        for row in self.table.rows() {
            entries.push(entry_of(row))?;
        }
        Ok(entries)
    }
}
