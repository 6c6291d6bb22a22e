//! Worlds: several stations with equal watches and targets, the datagrams between them, and every
//! list of steps that may happen to them: polls, agents that speak, deliveries in any order, saves,
//! restarts, stops within a save, forged claims. It follows no standard. Contract: a step of a
//! world is what a station does about one event, and a world shows the moves that led to it; `laws`
//! say of all moves that what stations owe each other is true.
#![tactic(auto)]

mod fault;
pub mod laws;
mod opening;
mod sending;
mod speaker;
mod step;
mod stop;
mod world;

pub use fault::WorldFault;
pub use sending::{Datagram, Sent};
pub use step::Step;
pub use world::World;
