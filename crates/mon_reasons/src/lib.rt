//! Why an instance gets no new sample though its target answers, and which engine answers, by the
//! newest datagrams of targets. It receives nothing itself.
//! Contract: what is said is a function of the datagrams that were kept.
#![tactic(auto)]

pub mod laws;
mod newest_datagrams;
mod reason;

pub use newest_datagrams::NewestDatagrams;
pub use reason::Reason;
