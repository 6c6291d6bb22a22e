//! Labels of the instances of a station, for reports and lines, and its own.

ghost use Rattle.std.specs.Prelude.{◌≡◌, IfOk, Some, map, option_map, string_bytes};
ghost use Rattle.mon_console.specs.Labelled.{AreLabelled, AreLabels, AreLabelsOf, AreSaid, IsLabelled, number_if};
ghost use Rattle.mon_host.specs.Log.{GoesOnBy};
ghost use Rattle.mon_labels.specs.Given.{given};
ghost use Rattle.mon_udp.specs.Addr.{addr_text};

use crate::failure::Failure;
use crate::files::read_text;
use crate::printing::Printing;
use crate::settings::read_station_file;
use mon_cli::Printed;
use mon_faults::{Fault, explain};
use mon_formats::InstanceLabels;
use mon_host::Host;
use mon_labels::{Labels, LabelsFault, Reached, read_labels};
use mon_poller::Target;
use mon_settings::{SettingsFault, SettingsKind, StationSettings};
use mon_station::Innermost;
use std::alloc::{AllocError, Global};

/// Returns what the file of a station's settings says, and how its reports are printed: with the
/// station's label, with the addresses and the labels of the targets as labels, and with those of
/// interfaces that are in the file of labels, if one is given. If the arguments ask for it, series
/// have the station's number as a label.
pub fn read_labelled_station<H: Host>(
    alloc: Global,
    host: &mut H,
    path: &str,
    labels: Option<&str>,
    printed: Printed<'_, '_>,
) -> Result<(StationSettings, Printing), Failure>
    ensures { GoesOnBy (λ log. IsLabelled path.now (option_map (λ l. l.now) labels.entry)
        printed.entry log result) (H.log host.old) (H.log host.new) }
{
    let (settings, printing) = read_station_file(alloc, host, path, printed)?;
    let labels = labels_in(alloc, host, labels)?;
    let number = number_if(printed.station_label, settings.core.station());
    labelled(alloc, settings, printing.with_station(number), &labels)
}

/// Returns a station's number, if series are to have it as a label.
fn number_if(is_label: bool, number: u32) -> Option<u32>
    ensures { result ≡ number_if is_label number }
{
    if is_label { Some(number) } else { None }
}

/// Adds labels to how reports are printed: that of the station, the addresses and the labels of the
/// targets, and those of interfaces.
fn labelled(
    alloc: Global,
    settings: StationSettings,
    printing: Printing,
    labels: &Labels,
) -> Result<(StationSettings, Printing), Failure>
    ensures { AreLabelled settings printing labels.now result }
{
    match all_labels(alloc, labels, &settings) {
        Ok((labels, label)) => Ok((settings, printing.with_labels(labels, label))),
        Err(error) => Err(Failure::from(error)),
    }
}

/// Returns the labels of the instances of a station by those of interfaces, and its own label.
fn all_labels(
    alloc: Global,
    labels: &Labels,
    settings: &StationSettings,
) -> Result<(Vec<InstanceLabels>, Option<String>), AllocError>
    ensures all { IfOk result (λ all. AreLabelsOf settings.now labels.now (map given all.0.items)) }
    ensures own { IfOk result (λ all.
        option_map string_bytes all.1 ≡ option_map string_bytes settings.now.label) }
{
    let core = &settings.core;
    let addresses = addresses_of(alloc, core.targets())?;
    let reached = Reached {
        targets: core.targets(),
        addresses: addresses.as_slice(),
        devices: settings.target_labels.as_slice(),
    };
    let all = labels.of_instances(alloc, core.watch().instances(), reached)?;
    let label = match &settings.label {
        None => None,
        Some(label) => Some(String::from_str(alloc, label.as_str())?),
    };
    Ok((all, label))
}

/// Returns where the agent of each target is reached.
fn addresses_of(alloc: Global, targets: &[Target]) -> Result<Vec<String>, AllocError>
    ensures { IfOk result (λ all.
        map string_bytes all.items ≡ map (λ t. addr_text t.address) targets.now) }
{
    let mut addresses = Vec::with_capacity(alloc, targets.len())?;
    for target in targets {
        addresses.push(format!(in alloc; "{}", target.address)?)?;
    }
    Ok(addresses)
}

/// Reads the labels in a file, if one is given.
///
/// # Errors
/// The file could not be read, its octets are no text, or the text says no labels.
pub fn labels_in<H: Host>(
    alloc: Global,
    host: &mut H,
    path: Option<&str>,
) -> Result<Labels, Failure>
    ensures { GoesOnBy (λ log. AreLabels (option_map (λ p. p.now) path.entry) log result)
        (H.log host.old) (H.log host.new) }
{
    match path {
        None => Ok(Labels::none(alloc)),
        Some(path) => read_labels_file(alloc, host, path),
    }
}

/// Reads the labels in a file.
fn read_labels_file<H: Host>(alloc: Global, host: &mut H, path: &str) -> Result<Labels, Failure>
    ensures { GoesOnBy (λ log. AreLabels (Some path.now) log result)
        (H.log host.old) (H.log host.new) }
{
    let text = read_text(alloc, host, path)?;
    labels_in_text(alloc, path, text.as_str())
}

/// Returns the labels that a text says, which is that of this file.
fn labels_in_text(alloc: Global, path: &str, text: &str) -> Result<Labels, Failure>
    ensures { AreSaid text.now result }
{
    match read_labels(alloc, text) {
        Ok(labels) => Ok(labels),
        Err(fault) => {
            let innermost = Innermost::new("mon_labels", fault.number(), fault.name());
            let line = line(alloc, path, text, fault);
            Err(Failure::said(Fault::Other(innermost), line))
        }
    }
}

/// Returns the file, and what is wrong in it and where.
fn line(alloc: Global, path: &str, text: &str, fault: LabelsFault) -> Result<String, AllocError> {
    match fault {
        LabelsFault::NotToml(from) => {
            let why = explain(
                alloc,
                SettingsFault::NotToml(from),
                SettingsKind::Station,
                text,
            )?;
            format!(in alloc; "{path}: {why}")
        }
        _ => format!(in alloc; "{path}: {fault}"),
    }
}
