//! Rows of single calls over a wire, a reader or a device in memory, and of polls of three targets;
//! and the job that times polls. They are rows of tests, which mon_rows answers.
#![tactic(auto)]

mod agent;
mod client;
mod counting;
mod event;
mod memory;
mod mib;
mod names;
mod polls;
mod reading;
mod rows;
mod small_agent;
mod walked;

pub use polls::script::answer as answer_poll;
pub use polls::targets::poller;
pub use polls::timing::time_polls;
pub use rows::answer;
