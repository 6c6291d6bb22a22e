//! An SNMPv2c agent: what it answers to a datagram, and what it counts. It follows RFC 3416 section
//! 4.2, RFC 3413 section 3.2 and RFC 3418 section 2. To the layer above: for any octets, the reply
//! is the one that the written rules give over the map of variables and the policy, or silence with
//! its cause, and a fault changes nothing.
#![tactic(auto)]

mod agent;
mod assigning;
mod buffers;
mod bulk;
mod bulk_in_place;
mod fault;
mod in_place;
pub mod laws;
mod reading;
mod ready;
mod reply;
mod response_builder;
mod sending;

pub use agent::Agent;
pub use buffers::ReplyBuffers;
pub use fault::AgentFault;
pub use reply::{Reply, Silence};
