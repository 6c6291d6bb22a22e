//! A report as a table.

ghost use Rattle.std.specs.Prelude.{◌≡◌, ◌++◌, IfOk, OnOk, option_map, string_bytes};
ghost use Rattle.mon_table.specs.Table.{count_line, table_report, table_text};
ghost use Rattle.mon_report.specs.Report.{samples_in};

use crate::down::put_down;
use crate::listing::Listing;
use crate::order::rows_in;
use crate::printing::{Lines, Shape, put_lines, put_title, widths_of};
use mon_page::{Extras, Sort};
use mon_report::Entry;
use mon_smi::NameTexts;
use std::alloc::{AllocError, Global};

/// In which order a table is, and whether it has a column of ages.
#[derive(Clone, Copy)]
struct Manner {
    sort: Sort,
    is_aged: bool,
}

/// Returns the report of instances as a table, with their names as `names` has them: of a running
/// station with a column of ages, and a line for each target that is down. The buffer's octets are
/// dropped, and its capacity is used again.
///
/// # Errors
/// `AllocError` if there is no memory for it.
pub fn table_report<S: NameTexts>(
    alloc: Global,
    buffer: Vec<u8>,
    names: &S,
    entries: &[Entry],
    extras: Extras<'_>,
) -> Result<Vec<u8>, AllocError>
    ensures { IfOk result (λ text. text.items ≡ table_report (S.shown names.now)
        extras.entry.presentation.now.sort
        entries.now extras.entry.labels.now (option_map (λ f. f.now) extras.entry.station)) }
{
    let mut octets = buffer;
    octets.clear();
    let mut text = match String::from_utf8(octets) {
        Ok(text) => text,
        Err(_) => unreachable!(),
    };
    put_report(alloc, &mut text, names, entries, extras)?;
    Ok(text.into_bytes())
}

/// Adds the report.
fn put_report<S: NameTexts>(
    alloc: Global,
    text: &mut String,
    names: &S,
    entries: &[Entry],
    extras: Extras<'_>,
) -> Result<(), AllocError>
    ensures { OnOk result (string_bytes text.new ≡ string_bytes text.old
        ++ table_report (S.shown names.now) extras.entry.presentation.now.sort entries.now extras.entry.labels.now (option_map (λ f. f.now) extras.entry.station)) }
{
    let sort = extras.presentation.sort;
    match extras.station {
        None => {
            let listing = Listing::new(entries, extras.labels, &[], 0);
            let manner = Manner {
                sort,
                is_aged: false,
            };
            put_table(alloc, text, names, &listing, manner)
        }
        Some(figures) => {
            let (ages, limit) = (figures.ages.as_slice(), figures.stale_after);
            let listing = Listing::new(entries, extras.labels, ages, limit);
            let manner = Manner {
                sort,
                is_aged: true,
            };
            put_table(alloc, text, names, &listing, manner)?;
            put_down(text, figures.targets.as_slice())
        }
    }
}

/// Adds the table in this order, with a column of ages or without.
#[tactic(auto, unfolding(crate::specs::Table::table_text))]
fn put_table<S: NameTexts>(
    alloc: Global,
    text: &mut String,
    names: &S,
    listing: &Listing,
    manner: Manner,
) -> Result<(), AllocError>
    ensures { OnOk result (string_bytes text.new ≡ string_bytes text.old
        ++ table_text (S.shown names.now) manner.sort manner.is_aged listing.now) }
{
    let rows = rows_in(alloc, listing, manner.sort)?;
    let rows = rows.as_slice();
    let widths = widths_of(alloc, names, listing, rows)?;
    let shape = Shape {
        widths,
        is_aged: manner.is_aged,
    };
    put_title(alloc, text, shape)?;
    put_lines(alloc, text, names, listing, Lines { rows, shape })?;
    let entries = listing.entries();
    put_count(text, entries.len(), count_samples(entries))
}

/// Adds the last line: how many instances and samples there are.
#[tactic(auto, unfolding(crate::specs::Table::count_line))]
fn put_count(text: &mut String, instances: usize, samples: u128) -> Result<(), AllocError>
    ensures { OnOk result (string_bytes text.new ≡ string_bytes text.old
        ++ count_line instances samples) }
{
    writeln!(text, "{instances} instances, {samples} samples")
}

/// Returns how many samples the instances have, all together.
fn count_samples(entries: &[Entry]) -> u128
    ensures { result ≡ samples_in entries.now }
{
    let mut count = 0;
    for entry in entries {
        count += entry.samples().len() as u128;
    }
    count
}
