//! Settings that are there, brought up to date with the agent's interfaces as they are now.

ghost use Rattle.std.specs.Prelude.{◌≡◌, IfErr, IfOk, map, option_copied, string_bytes, unwrap_or};
ghost use Rattle.mon_client.specs.Network.{agents_by};
ghost use Rattle.mon_host.specs.Log.{GoesOnBy};
ghost use Rattle.mon_survey.specs.Moved.{at_in};
ghost use Rattle.mon_settings_commands.specs.Command.{AreUpdatedSettings, IsUpdatedBy};
ghost use Rattle.mon_settings_commands.specs.Source.{source_in};
ghost use Rattle.mon_settings_commands.specs.Updated.{AreKnown, AreLines, AreLinesNoted, AreRelabelled, AreRelabelledAt, IsApart, IsChanged, IsPutUpdated, IsRelabelledText, at_source, labels_path};

use crate::asking::ask_agent;
use crate::existing::{Existing, existing_in};
use crate::failing::{apart_failure, labels_failure};
use crate::labelling::old_labels;
use crate::noting::note_speeds;
use crate::settings::{Addition, AgentOptions, Input, News, print_drafted};
use crate::trying::{Wish, fit};
use mon_cli::SettingsArgs;
use mon_client::Opens;
use mon_console::{Failure, replace_file};
use mon_host::{Host, Level};
use mon_survey::{Drafted, Known, Renamed, TargetSize, change_lines, known_names, relabel};
use std::alloc::Global;

/// Requires that neither settings that are added to nor several files nor modules are asked for
/// together with settings that are brought up to date.
fn require_apart(alloc: Global, words: &SettingsArgs<'_, '_>) -> Result<(), Failure>
    ensures { IsApart words.now result }
{
    if words.append.is_some() || words.split.is_some() || !words.modules.is_empty() {
        return Err(apart_failure(alloc));
    }
    Ok(())
}

/// Settings that are there, and the text of their labels.
#[derive(Clone, Copy)]
pub(crate) struct Old<'e> {
    existing: &'e Existing,
    labels: &'e str,
}

/// Prints settings that are there with the agent's interfaces as they are now, and says what
/// changed.
pub(crate) fn print_updated<N: Opens, H: Host>(
    alloc: Global,
    host: &mut H,
    net: &N,
    addition: Addition<'_, '_>,
    asked: AgentOptions<'_>,
) -> Result<(), Failure>
    ensures { GoesOnBy (λ log. AreUpdatedSettings (agents_by (N.has_opened net.now)
        (N.has_failed net.now) N.Wire.log)
        addition.entry.words.now asked.entry addition.entry.path.now log result)
        (H.log host.old) (H.log host.new) }
{
    let Addition { words, path } = addition;
    require_apart(alloc, words)?;
    let existing = existing_in(alloc, host, path)?;
    let labels = old_labels(alloc, host, words.labels)?;
    let survey = ask_agent(alloc, host, net, asked)?;
    let input = Input {
        words,
        asked,
        names: &existing.names,
        survey: &survey,
    };
    let old = Old {
        existing: &existing,
        labels: labels.as_str(),
    };
    write_updated(alloc, host, net, &input, old)
}

/// Prints settings that are there with the agent's interfaces as they are now, once the names that
/// these had are known.
fn write_updated<N: Opens, H: Host>(
    alloc: Global,
    host: &mut H,
    net: &N,
    input: &Input<'_, '_>,
    old: Old<'_>,
) -> Result<(), Failure>
    ensures { GoesOnBy (λ log. IsUpdatedBy (agents_by (N.has_opened net.now) (N.has_failed net.now)
        N.Wire.log)
        (source_in input.now) old.entry.existing.now old.entry.labels.now log result)
        (H.log host.old) (H.log host.new) }
{
    let known = known_of(alloc, input, old.labels)?;
    let lines = lines_of(alloc, input, old.existing, &known)?;
    let wish = Wish::Updated(News {
        existing: old.existing,
        known: &known,
    });
    let drafted = fit(alloc, net, input, wish, TargetSize::Sixteen)?;
    let update = Update {
        old,
        known: &known,
        lines: &lines,
    };
    print_changed(alloc, host, input, update, &drafted)
}

/// What settings are brought up to date by: what was there, the names that interfaces had, and the
/// lines of what changes.
#[derive(Clone, Copy)]
struct Update<'e> {
    old: Old<'e>,
    known: &'e [Known],
    lines: &'e Vec<String>,
}

/// The names that the old labels say of the agent's interfaces.
fn known_of(alloc: Global, input: &Input<'_, '_>, old: &str) -> Result<Vec<Known>, Failure>
    ensures { AreKnown (source_in input.now) old.now result }
{
    match known_names(alloc, old, input.survey.engine.as_slice()) {
        Ok(known) => Ok(known),
        Err(fault) => Err(labels_failure(alloc, labels_path(input), fault)),
    }
}

/// The path of the file of labels, or nothing if the arguments name none.
fn labels_path<'a>(input: &Input<'_, 'a>) -> &'a str
    ensures { result.now ≡ labels_path (source_in input.now) }
{
    input.words.labels.unwrap_or("")
}

impl<'m> Input<'m, '_> {
    /// The agent that answered, and the names that its interfaces had.
    pub(crate) fn renamed(&self, known: &'m [Known]) -> Renamed<'m>
        ensures { at_in result ≡ at_source (source_in self.now) known.now }
    {
        Renamed {
            agent: self.agent(),
            known,
        }
    }
}

/// The lines of what changes.
fn lines_of(
    alloc: Global,
    input: &Input<'_, '_>,
    existing: &Existing,
    known: &[Known],
) -> Result<Vec<String>, Failure>
    ensures { AreLines (source_in input.now) existing.now known.now result }
{
    let instances = existing.station.core.watch().instances();
    let lines = change_lines(alloc, &input.renamed(known), &input.choice(None), instances)?;
    Ok(lines)
}

/// Prints settings with the agent's interfaces as they are now, and says what changed and for how
/// many interfaces there is no threshold.
fn print_changed<H: Host>(
    alloc: Global,
    host: &mut H,
    input: &Input<'_, '_>,
    update: Update<'_>,
    drafted: &Drafted,
) -> Result<(), Failure>
    ensures { GoesOnBy (λ log. IsChanged (source_in input.now) update.entry.old.existing.now
        update.entry.known.now update.entry.old.labels.now update.entry.lines.now drafted.now log
        result)
        (H.log host.old) (H.log host.new) }
{
    put_updated(alloc, host, input, update, drafted)?;
    note_speeds(host, input);
    Ok(())
}

/// Replaces labels, prints settings, and says what changed.
fn put_updated<H: Host>(
    alloc: Global,
    host: &mut H,
    input: &Input<'_, '_>,
    update: Update<'_>,
    drafted: &Drafted,
) -> Result<(), Failure>
    ensures { GoesOnBy (λ log. IsPutUpdated (source_in input.now) update.entry.old.existing.now
        update.entry.known.now update.entry.old.labels.now update.entry.lines.now drafted.now log
        result)
        (H.log host.old) (H.log host.new) }
{
    write_relabelled(alloc, host, input, update.old, update.known)?;
    print_drafted(alloc, host, drafted)?;
    note_lines(host, update.lines.as_slice());
    Ok(())
}

/// Says each line.
fn note_lines<H: Host>(host: &mut H, lines: &[String])
    ensures { GoesOnBy (AreLinesNoted (map string_bytes lines.now)) (H.log host.old)
        (H.log host.new) }
{
    let [first, rest @ ..] = lines else {
        return;
    };
    host.note(Level::Info, first.as_str());
    note_lines(host, rest)
}

/// Writes labels with the agent's interfaces as they are now, if the arguments name a file.
fn write_relabelled<H: Host>(
    alloc: Global,
    host: &mut H,
    input: &Input<'_, '_>,
    old: Old<'_>,
    known: &[Known],
) -> Result<(), Failure>
    ensures { GoesOnBy (λ log. AreRelabelled (source_in input.now) old.entry.existing.now known.now
        old.entry.labels.now log result)
        (H.log host.old) (H.log host.new) }
{
    match input.words.labels {
        Some(path) => {
            let file = LabelsFile { old, known, path };
            write_relabelled_file(alloc, host, input, file)
        }
        None => Ok(()),
    }
}

/// A file of labels at a path, what was there, and the names that it says.
#[derive(Clone, Copy)]
struct LabelsFile<'e> {
    old: Old<'e>,
    known: &'e [Known],
    path: &'e str,
}

/// Writes labels with the agent's interfaces as they are now into a file.
fn write_relabelled_file<H: Host>(
    alloc: Global,
    host: &mut H,
    input: &Input<'_, '_>,
    file: LabelsFile<'_>,
) -> Result<(), Failure>
    ensures { GoesOnBy (λ log. AreRelabelledAt (source_in input.now) file.entry.old.existing.now
        file.entry.known.now file.entry.path.now file.entry.old.labels.now log result)
        (H.log host.old) (H.log host.new) }
{
    let text = relabelled_text(alloc, input, file)?;
    replace_file(alloc, host, file.path, text.as_bytes())
}

/// Returns labels with the agent's interfaces as they are now, for a file at this path.
fn relabelled_text(
    alloc: Global,
    input: &Input<'_, '_>,
    file: LabelsFile<'_>,
) -> Result<String, Failure>
    ensures { IsRelabelledText (source_in input.now) file.entry.old.existing.now
        file.entry.known.now file.entry.path.now file.entry.old.labels.now result }
{
    let instances = file.old.existing.station.core.watch().instances();
    match relabel(
        alloc,
        file.old.labels,
        &input.renamed(file.known),
        &input.choice(None),
        instances,
    ) {
        Ok(text) => Ok(text),
        Err(fault) => Err(labels_failure(alloc, file.path, fault)),
    }
}
