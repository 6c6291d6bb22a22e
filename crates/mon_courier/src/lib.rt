//! Delivers the texts of an outbox by HTTP POST, one request at a time, over a connection that
//! never waits.
#![tactic(auto)]

mod courier;
mod exchange;
pub mod laws;
mod news;
mod plan;
mod stream;
mod verdict;

pub use courier::{Courier, CourierBy};
pub use news::{Cause, News};
pub use stream::Stream;
