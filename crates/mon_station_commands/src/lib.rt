//! The command of stations: running one, and what limits it.
#![tactic(auto)]

mod copying;
mod figures;
mod following;
mod keeping;
mod limits;
mod live;
mod notifying;
mod opening;
mod pace;
mod printing;
mod showing;
mod snapshot;
mod station;
mod telling;
mod troubles;

pub use station::run_station;
