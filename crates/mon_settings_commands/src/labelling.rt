//! The file of interfaces' texts.

ghost use Rattle.std.specs.Prelude.{option_copied};
ghost use Rattle.mon_host.specs.Log.{GoesOnBy};
ghost use Rattle.mon_settings_commands.specs.Appended.{AreOldLabels};
ghost use Rattle.mon_settings_commands.specs.Settings.{AreLabels, AreLabelsAt, IsLabelsText};
ghost use Rattle.mon_settings_commands.specs.Source.{source_in};

use crate::failing::labels_failure;
use crate::settings::Input;
use mon_console::{Failure, read_text, replace_file};
use mon_host::Host;
use mon_survey::labels;
use std::alloc::Global;

/// The text of the file of labels that is there, or none if none is written.
pub(crate) fn old_labels<H: Host>(
    alloc: Global,
    host: &mut H,
    path: Option<&str>,
) -> Result<String, Failure>
    ensures { GoesOnBy (λ log. AreOldLabels (option_copied path.entry) log result)
        (H.log host.old) (H.log host.new) }
{
    match path {
        Some(path) => read_text(alloc, host, path),
        None => Ok(String::new(alloc)),
    }
}

/// Writes the texts of the agent's interfaces after the old ones, if the arguments name a file.
pub(crate) fn write_labels<H: Host>(
    alloc: Global,
    host: &mut H,
    input: &Input<'_, '_>,
    old: &str,
) -> Result<(), Failure>
    ensures { GoesOnBy (λ log. AreLabels (source_in input.now) old.now log result)
        (H.log host.old) (H.log host.new) }
{
    match input.words.labels {
        Some(path) => write_labels_file(alloc, host, input, path, old),
        None => Ok(()),
    }
}

/// Writes the texts of the agent's interfaces after the old ones into a file.
fn write_labels_file<H: Host>(
    alloc: Global,
    host: &mut H,
    input: &Input<'_, '_>,
    path: &str,
    old: &str,
) -> Result<(), Failure>
    ensures { GoesOnBy (λ log. AreLabelsAt (source_in input.now) path.now old.now log result)
        (H.log host.old) (H.log host.new) }
{
    let text = labels_text(alloc, input, path, old)?;
    replace_file(alloc, host, path, text.as_bytes())
}

/// Returns the texts of the agent's interfaces after the old ones, for a file at this path.
fn labels_text(
    alloc: Global,
    input: &Input<'_, '_>,
    path: &str,
    old: &str,
) -> Result<String, Failure>
    ensures { IsLabelsText (source_in input.now) path.now old.now result }
{
    match labels(alloc, old, &input.agent(), &input.choice(None)) {
        Ok(text) => Ok(text),
        Err(fault) => Err(labels_failure(alloc, path, fault)),
    }
}
