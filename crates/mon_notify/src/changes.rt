//! Changes that are notified, and their labels.

ghost use Rattle.std.specs.Prelude.{◌≡◌, ◌∷◌, ◌++◌, [], IfOk, OnOk, map, option_map};
ghost use Rattle.mon_notify.specs.Labels.{alarm_labels, device_labels, if_known, pair_of};

use crate::label::Label;
use std::alloc::{AllocError, Global};

/// An alarm that was raised or cleared.
#[derive(Clone, Copy, Debug)]
pub struct AlarmLabels<'a> {
    /// The engine id in hex digits.
    pub engine: &'a str,
    /// The name of the instance.
    pub name: &'a str,
    /// The name of the device, if it is known.
    pub device: Option<&'a str>,
    /// The address of the target, if it is known.
    pub target: Option<&'a str>,
    /// The name of the interface, if it is known.
    pub if_name: Option<&'a str>,
    /// The alias of the interface, if it is known.
    pub if_alias: Option<&'a str>,
    /// The threshold at which the alarm is raised.
    pub rising: &'a str,
    /// The threshold at which it is cleared.
    pub falling: &'a str,
    /// The number of the station.
    pub station: &'a str,
}

/// A device that is down or up again.
#[derive(Clone, Copy, Debug)]
pub struct DeviceLabels<'a> {
    /// The address of the target.
    pub target: &'a str,
    /// The name of the device, if it is known.
    pub device: Option<&'a str>,
    /// The number of the station.
    pub station: &'a str,
}

/// Adds a label.
fn add<'a>(labels: &mut Vec<Label<'a>>, name: &'a str, value: &'a str) -> Result<(), AllocError>
    ensures { OnOk result (map pair_of labels.new.items ≡ map pair_of labels.old.items
        ++ (name.now, value.now) ∷ []) }
{
    Ok(labels.push(Label { name, value })?)
}

/// Adds a label, if its value is known.
fn add_if_known<'a>(
    labels: &mut Vec<Label<'a>>,
    name: &'a str,
    value: Option<&'a str>,
) -> Result<(), AllocError>
    ensures { OnOk result (map pair_of labels.new.items ≡ map pair_of labels.old.items
        ++ if_known name.now (option_map (λ t. t.now) value.entry)) }
{
    match value {
        Some(value) => add(labels, name, value),
        None => Ok(()),
    }
}

/// Returns the labels of a change of an alarm, sorted by their names.
///
/// # Errors
/// `AllocError` if there is no memory for them.
pub fn alarm_labels<'a>(
    alloc: Global,
    change: &AlarmLabels<'a>,
) -> Result<Vec<Label<'a>>, AllocError>
    ensures { IfOk result (λ labels. map pair_of labels.items ≡ alarm_labels change.now) }
{
    let mut labels = Vec::new(alloc);
    add(&mut labels, "alertname", "SnmpmonAlarmRaised")?;
    add_if_known(&mut labels, "device", change.device)?;
    add(&mut labels, "engine", change.engine)?;
    add(&mut labels, "falling", change.falling)?;
    add_if_known(&mut labels, "ifAlias", change.if_alias)?;
    add_if_known(&mut labels, "ifName", change.if_name)?;
    add(&mut labels, "name", change.name)?;
    add(&mut labels, "rising", change.rising)?;
    add(&mut labels, "station", change.station)?;
    add_if_known(&mut labels, "target", change.target)?;
    Ok(labels)
}

/// Returns the labels of a change of a device, sorted by their names.
///
/// # Errors
/// `AllocError` if there is no memory for them.
pub fn device_labels<'a>(
    alloc: Global,
    change: &DeviceLabels<'a>,
) -> Result<Vec<Label<'a>>, AllocError>
    ensures { IfOk result (λ labels. map pair_of labels.items ≡ device_labels change.now) }
{
    let mut labels = Vec::new(alloc);
    add(&mut labels, "alertname", "SnmpmonDeviceDown")?;
    add_if_known(&mut labels, "device", change.device)?;
    add(&mut labels, "station", change.station)?;
    add(&mut labels, "target", change.target)?;
    Ok(labels)
}
