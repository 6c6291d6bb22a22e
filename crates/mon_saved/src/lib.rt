//! Saved images: the windows of a board and the incarnation of its station, as octets. An image is
//! written in version 2, and read in versions 1 and 2. Contract: an image that is written spells
//! the board and the incarnation; octets are read exactly where they spell an image of the watch's
//! instances, and what is read is what the watch keeps of the image's samples.
#![tactic(auto)]

mod fault;
mod filling;
mod image;
mod kept;
pub mod laws;
mod reading;
mod writing;

pub use fault::ImageFault;
pub use filling::read_image;
pub use image::{Entries, Entry, Image};
pub use kept::KeptImage;
pub use reading::{
    Sizes, incarnation_at, magic_at, octet_within, read, saved_at, sizes_at, window_at,
};
pub use writing::{image_size, write_image, write_within};
