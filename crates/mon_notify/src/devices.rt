//! The text of a change of a device.

ghost use Rattle.std.specs.Prelude.{◌≡◌, IfOk, decimal, option_map};
ghost use Rattle.mon_notify.specs.Labels.{device_pairs};
ghost use Rattle.mon_notify.specs.Texts.{device_at, device_text};
ghost use Rattle.mon_notify.specs.Webhook.{text_of};

use crate::changes::{DeviceLabels, device_labels};
use crate::known::{device_of, has_address};
use crate::scene::{Scene, station_text};
use crate::webhook::{Notice, message};
use mon_page::InstanceLabels;
use mon_udp::Addr;
use std::alloc::{AllocError, Global};

/// Returns the text of the notice that the device at a target does not answer, or answers again:
/// the object of `message`, as JSON. The labels are the target's address, the station's number,
/// and the device of the first instance with this target, if it has one. The summary is a line for
/// people. It starts at the scene's date, and ends at it if the device is not down.
///
/// # Errors
/// `AllocError` if there is no memory for it.
pub fn device_message(
    alloc: Global,
    scene: Scene<'_>,
    target: Addr,
    is_down: bool,
    summary: &str,
) -> Result<Vec<u8>, AllocError>
    ensures { IfOk result (λ t. t.items ≡ device_text scene.entry.labels.now scene.entry.station
        summary.now scene.entry.date target is_down) }
{
    let mut address = String::new(alloc);
    write!(address, "{target}")?;
    let station = station_text(alloc, scene.station)?;
    let change = DeviceLabels {
        target: address.as_str(),
        device: device_at(scene.labels, address.as_str()),
        station: station.as_str(),
    };
    let labels = device_labels(alloc, &change)?;
    message(
        alloc,
        &Notice {
            labels: labels.as_slice(),
            summary,
            starts_at: scene.date,
            ends_at: if is_down { None } else { Some(scene.date) },
        },
    )
}

/// Returns the device at an address: that of the first instance whose target it is.
fn device_at<'a>(labels: &'a [InstanceLabels], address: &str) -> Option<&'a str>
    ensures { option_map (λ t. t.now) result ≡ device_at address.now labels.now }
{
    for known in labels {
        if has_address(known, address) {
            return device_of(Some(known));
        }
    }
    None
}
