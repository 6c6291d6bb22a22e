//! The command `healthz`: asks a station over HTTP whether rounds end in time.
#![tactic(auto)]

mod asking;
mod health;
mod stream;
mod trouble;

pub use health::ask_health;
pub use stream::{Connects, Stream, Tcp};
