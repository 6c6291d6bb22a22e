//! Polls of three targets. tests/poller compares the rows, and random ones, with an independent
//! poller.
//!
//!     poller new               a new poller; no answer is printed
//!     poller start TARGET      starts a poll
//!     poller timeout ID        says that a poll was not answered in time
//!     poller oldest            the oldest poll that is open
//!     poller from ADDRESS HEX  a datagram from this address

pub mod script;
pub mod targets;
pub mod timing;
