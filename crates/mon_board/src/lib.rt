//! Boards: of each watched instance, a window of its samples with their totals, and marks on them
//! for up to 15 peers. An instance is a managed object at an agent, which its engine id names (RFC
//! 3411 section 5, snmpEngineID). Contract: a sample that is taken changes only its own instance's
//! window, and `join` leaves what the samples of both boards leave; `laws` say this of lists of
//! samples.
#![tactic(auto)]

mod board;
mod each;
mod fault;
mod instance;
mod instance_samples;
pub mod laws;
mod marks;
mod watch;

pub use board::Board;
pub use fault::{UnknownInstance, WatchFault};
pub use instance::{Instance, Watched};
pub use instance_samples::InstanceSamples;
pub use watch::Watch;
