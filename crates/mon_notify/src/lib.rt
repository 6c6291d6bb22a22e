//! Notifications of changes by webhook, without a socket: the JSON object of a change, in the form
//! of Alertmanager's webhook, and the texts that wait to be delivered.
#![tactic(auto)]

mod alarms;
mod changes;
mod devices;
mod fingerprint;
mod known;
mod label;
pub mod laws;
mod outbox;
mod scene;
mod time;
mod webhook;

pub use alarms::alarm_message;
pub use changes::{AlarmLabels, DeviceLabels, alarm_labels, device_labels};
pub use devices::device_message;
pub use label::Label;
pub use outbox::Outbox;
pub use scene::Scene;
pub use webhook::{Notice, message};
