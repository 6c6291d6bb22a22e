//! Stamped samples of a managed object: what an agent gave for it, of which type, and at which
//! boots and time. The types are those of RFC 2578 section 7.1, the stamp that of RFC 3411 section
//! 5. Contract: a sample is the one number that its record of 21 octets spells; the newer of two is
//! the greater.
#![tactic(auto)]

mod fault;
mod kind;
pub mod laws;
mod sample;

pub use fault::SampleFault;
pub use kind::Kind;
pub use sample::Sample;
