//! A report as lines of text.

ghost use Rattle.std.specs.Prelude.{◌≡◌, ◌++◌, IfOk, OnOk, length, string_bytes};
ghost use Rattle.std.specs.List.{flat_map};
ghost use Rattle.mon_report.specs.Report.{end_line, samples_in};
ghost use Rattle.mon_formats.specs.Named.{named_line, named_report};

use crate::cells::count_samples;
use mon_report::{Entry, write_rest};
use mon_smi::NameTexts;
use std::alloc::{AllocError, Global};

/// The report as lines of text.
#[tactic(auto, unfolding(crate::specs::Named::named_report))]
pub(crate) fn named_report<S: NameTexts>(
    alloc: Global,
    buffer: Vec<u8>,
    names: &S,
    entries: &[Entry],
) -> Result<Vec<u8>, AllocError>
    ensures { IfOk result (λ text. text.items ≡ named_report (S.shown names.now) entries.now) }
{
    let mut text = buffer;
    text.clear();
    put_lines(alloc, &mut text, names, entries)?;
    put_end(alloc, &mut text, entries)?;
    Ok(text)
}

/// Adds the lines of instances.
fn put_lines<S: NameTexts>(
    alloc: Global,
    text: &mut Vec<u8>,
    names: &S,
    entries: &[Entry],
) -> Result<(), AllocError>
    ensures { OnOk result (text.new.items ≡ text.old.items ++ flat_map
        (named_line (S.shown names.now)) entries.now) }
{
    for entry in entries {
        put_line(alloc, text, names, entry)?;
    }
    Ok(())
}

/// Adds the line of an instance.
#[tactic(auto, unfolding(crate::specs::Named::named_line))]
fn put_line<S: NameTexts>(
    alloc: Global,
    text: &mut Vec<u8>,
    names: &S,
    entry: &Entry,
) -> Result<(), AllocError>
    ensures { OnOk result (text.new.items ≡ text.old.items ++ named_line (S.shown names.now)
        entry.now) }
{
    let engine = hex::encode(alloc, entry.engine())?;
    text.extend_from_slice(engine.as_bytes())?;
    text.extend_from_slice(b" ")?;
    let name = names.text(alloc, entry.name())?;
    text.extend_from_slice(name.as_bytes())?;
    if !write_rest(text, true, entry) {
        return Err(AllocError);
    }
    Ok(())
}

/// Adds the last line.
fn put_end(alloc: Global, text: &mut Vec<u8>, entries: &[Entry]) -> Result<(), AllocError>
    ensures { OnOk result (text.new.items ≡ text.old.items ++ end_line (length entries.now)
        (samples_in entries.now)) }
{
    let end = end_line(alloc, entries.len(), count_samples(entries))?;
    text.extend_from_slice(end.as_bytes())
}

/// The last line: how many instances and samples there are.
#[tactic(auto, unfolding(mon_report::specs::Report::end_line))]
fn end_line(alloc: Global, instances: usize, samples: u128) -> Result<String, AllocError>
    ensures { IfOk result (λ text. string_bytes text ≡ end_line instances samples) }
{
    let mut text = String::new(alloc);
    writeln!(text, "end {instances} instances {samples} samples")?;
    Ok(text)
}
