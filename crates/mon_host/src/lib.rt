//! What the program runs on: its arguments, standard input, output and error, files, and the time.
//! It follows no standard.
//! Contract: each call is one event of a log, with what it was asked and what it gave. In memory
//! the log is that of all calls; of the system's surroundings nothing is known.
#![tactic(auto)]

mod host;
pub mod laws;
mod level;
mod reason;
mod recorder;
mod system;

pub use host::{Host, Part};
pub use level::Level;
pub use reason::Reason;
pub use recorder::{Given, Page, RecordedCall, Recorder};
pub use system::{System, Terminals};
