//! What a station is set up with: its number, what it watches, the agents that it polls and its
//! peers, without a text that it was read from. To the layer above: what these parts must agree on
//! holds for every `Core`.
#![tactic(auto)]

mod station_core;

pub use station_core::{Core, CoreParts};
