//! What the program's commands share: why one failed and where, what they read, print and replace,
//! names by the modules that are given, and how reports are printed.
//! Contract: what was done to the surroundings, in which order, and that a failure has the fault
//! and the text of the call that failed.
#![tactic(auto)]

mod agents;
mod failure;
mod files;
mod labels;
pub mod laws;
mod naming;
mod printing;
mod seen;
mod settings;
mod shared;

pub use agents::{AgentAt, agent_at, answer_failure, community};
pub use failure::Failure;
pub use files::{
    print, publish_file, read_input, read_input_text, read_part, read_text, replace_file,
    write_file,
};
pub use labels::{labels_in, read_labelled_station};
pub use mon_faults::Fault;
pub use naming::{
    KnownNames, asked_for, known_names, known_names_in, name_failure, names_of, no_module,
};
pub use printing::Printing;
pub use seen::{DeviceSeen, Seen};
pub use settings::{module_files_in, read_station_file, settings_failure, station_settings_in};
pub use shared::SharedPrinting;
