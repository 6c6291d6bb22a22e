//! The command `carry`: the windows of a station's file are carried over to settings that watch
//! something else.
#![tactic(auto)]

mod alike;
mod carry;
mod disks;
mod engines;
mod line;
mod load;
mod paths;
mod previous;
mod saving;
mod side;

pub use carry::carry_windows;
pub use disks::OpensDisks;
pub use saving::{Disks, Saves};
