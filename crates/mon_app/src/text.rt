//! The text that a replay prints.

ghost use Rattle.std.specs.Prelude.{◌≡◌, ◌++◌, ◌≤◌, decimal, length, IfOk, OnOk, string_bytes};
ghost use Rattle.std.specs.List.{flat_map};
ghost use Rattle.mon_app.specs.Text.{value_text, sample_line, row_text, refused_line, end_line, samples_in};

use crate::refusal::Refusal;
use crate::table::Row;
use mon_sample::{Kind, Sample};
use std::alloc::{AllocError, Global};

fn put_value(text: &mut String, kind: Kind, value: u64) -> Result<(), AllocError>
    ensures { OnOk result (string_bytes text.new ≡ string_bytes text.old ++ value_text kind value) }
{
    match kind {
        Kind::Integer => {
            let value = value.cast_signed();
            write!(text, "{value}")
        }
        _ => write!(text, "{value}"),
    }
}

#[tactic(auto, unfolding(crate::specs::Text::sample_line))]
fn put_sample(text: &mut String, sample: &Sample) -> Result<(), AllocError>
    ensures { OnOk result (string_bytes text.new
        ≡ string_bytes text.old ++ sample_line sample.now) }
{
    let (boots, time, discontinuity) = (sample.boots(), sample.time(), sample.discontinuity());
    write!(text, "  {boots} {time} {discontinuity} ")?;
    let kind = sample.kind().name();
    write!(text, "{kind} ")?;
    put_value(text, sample.kind(), sample.value())?;
    text.push_str("\n")
}

fn put_samples(text: &mut String, samples: &[Sample]) -> Result<(), AllocError>
    ensures { OnOk result (string_bytes text.new ≡ string_bytes text.old
        ++ flat_map sample_line samples.now) }
{
    for sample in samples {
        put_sample(text, sample)?;
    }
    Ok(())
}

/// A row's instance, by engine id and name, and its samples.
#[tactic(auto, unfolding(crate::specs::Text::row_text, crate::specs::Text::instance_line))]
fn put_row(alloc: Global, text: &mut String, row: &Row) -> Result<(), AllocError>
    ensures { OnOk result (string_bytes text.new ≡ string_bytes text.old ++ row_text row.now) }
{
    let engine = hex::encode(alloc, row.instance.engine.as_slice())?;
    let name = row.instance.name.text(alloc)?;
    writeln!(text, "{engine} {name}")?;
    put_samples(text, row.window.items())
}

/// The rows, one after the other.
pub(crate) fn put_rows(alloc: Global, text: &mut String, rows: &[Row]) -> Result<(), AllocError>
    ensures { OnOk result (string_bytes text.new ≡ string_bytes text.old
        ++ flat_map row_text rows.now) }
{
    for row in rows {
        put_row(alloc, text, row)?;
    }
    Ok(())
}

/// A refused line's number, counted from 1, and why it is refused.
#[tactic(auto, unfolding(crate::specs::Text::refused_line))]
pub(crate) fn put_refused_line(
    text: &mut String,
    line: usize,
    refusal: Refusal,
) -> Result<(), AllocError>
    ensures { OnOk result (string_bytes text.new ≡ string_bytes text.old
        ++ refused_line line refusal) }
{
    let (number, name) = (refusal.number(), refusal.name());
    writeln!(text, "line {line}: refused {number} {name}")
}

/// How many samples the rows hold.
pub(crate) fn samples_in(rows: &[Row]) -> usize
    requires { length rows.now ≤ 256 }
    ensures { result ≡ samples_in rows.now }
{
    let mut count = 0;
    for row in rows {
        prove!(row.window.size() <= 64);
        count += row.window.items().len();
    }
    count
}

/// The counts of instances, samples and refused lines.
#[tactic(auto, unfolding(crate::specs::Text::end_line))]
pub(crate) fn put_end(text: &mut String, rows: &[Row], refused: usize) -> Result<(), AllocError>
    requires { length rows.now ≤ 256 }
    ensures { OnOk result (string_bytes text.new ≡ string_bytes text.old
        ++ end_line (length rows.now) (samples_in rows.now) refused) }
{
    let (instances, samples) = (rows.len(), samples_in(rows));
    writeln!(
        text,
        "end {instances} instances {samples} samples {refused} refused"
    )
}
