//! Fields of a fixed layout, which claims and saved images share: octets, numbers of four octets,
//! instances, and rising samples. All numbers are big-endian.
//! Contract: a field is read exactly if the octets begin with its layout, and written in that
//! layout within capacity that was taken before.
#![tactic(auto)]

mod fault;
pub mod laws;
mod list;
mod reading;
mod writing;

pub use fault::LayoutFault;
pub use list::SampleList;
pub use reading::Reader;
pub use writing::{
    instance_size, put_instance, put_octet, put_octets, put_samples, put_u32, samples_size,
};
