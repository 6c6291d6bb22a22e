//! A station's receiver that serves HTTP while it waits for datagrams, in one thread: `WebReceiver`
//! over a `PolledSocket` and a `Server`. `Shows` hands a receiver the texts that it shows.
//! Contract: what is shown is what was given; a wait is as long as it was asked to be, whatever
//! comes over HTTP. What comes to a socket is not known.
#![tactic(auto)]

mod receiver;
mod serves;
mod shows;
mod socket;

pub use receiver::WebReceiver;
pub use serves::{Dates, Serves};
pub use shows::Shows;
pub use socket::{Looks, PolledSocket};
