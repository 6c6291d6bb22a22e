//! The commands but `settings`, `station` and `report`: clients that ask an agent, an agent,
//! stations in memory, recorded responses, and the names of a module.
//! Contract: what each reads and prints over a host, in which order, and why it fails.
#![tactic(auto)]

mod agent;
mod client;
mod listing;
mod query;
mod recorded;
mod rehearsal;
mod walking;

pub use agent::{print_answers, serve_agent};
pub use client::{bulk, get, next, set};
pub use listing::print_names;
pub use recorded::print_recorded;
pub use rehearsal::{print_rehearsal, run_self_test};
pub use walking::walk;
