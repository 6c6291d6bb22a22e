//! Carries the windows of a saved file to the first save of another file, whose watch may be
//! another. To the layer above: each instance of the new watch has what that keeps of its old
//! window, and a stop at any time leaves nothing in the new file or all of it.
#![tactic(auto)]

mod carrying;
mod counts;
mod fault;
mod first;
pub mod laws;
mod old;

pub use carrying::carry_board;
pub use counts::{Carried, count_carried};
pub use fault::CarryFault;
pub use first::save_first;
pub use old::{Saved, next_incarnation, read_old};
