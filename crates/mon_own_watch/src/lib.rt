//! The watch that an image names itself: its instances with the sizes of their windows. With it a
//! file can be read whose settings are lost.
//! Contract: octets name a watch exactly if they spell an image of its instances and sizes; with it
//! all samples of the image are kept.
#![tactic(auto)]

mod board;
pub mod laws;
mod reading;

pub use board::own_board;
pub use reading::own_watch;
