//! What the labels of an instance say, if there are any.

ghost use Rattle.std.specs.Prelude.{◌≡◌, option_map};
ghost use Rattle.mon_notify.specs.Texts.{device_of, has_address};

use mon_page::InstanceLabels;

/// Returns the label of the device, if it is known.
pub(crate) fn device_of(labels: Option<&InstanceLabels>) -> Option<&str>
    ensures { option_map (λ t. t.now) result ≡ device_of (option_map (λ l. l.now) labels.entry) }
{
    match labels {
        None => None,
        Some(labels) => labels.device.as_deref(),
    }
}

/// Returns `true` if the address of the target is this one.
pub(crate) fn has_address(labels: &InstanceLabels, address: &str) -> bool
    ensures { result ≡ has_address address.now labels.now }
{
    match &labels.target {
        None => false,
        Some(target) => target.as_str() == address,
    }
}
