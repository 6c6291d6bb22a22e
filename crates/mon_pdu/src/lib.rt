//! SNMPv2c messages in BER: RFC 1901 section 3, RFC 3416 section 3 and RFC 3417 section 8. A
//! message is read exactly where the octets begin with one of its spellings, and is written in its
//! shortest one. The layer above rests on the grammar, on reading as a function on lists
//! (`message_at`), and on `laws`, which tie them.
#![tactic(auto)]

mod fault;
mod frame;
mod framing;
pub mod laws;
mod message;
mod reading;
mod writing;

pub use fault::PduFault;
pub use frame::{BulkFrame, Frame, named_value, read_bulk_frame, read_frame};
pub use framing::{frame_fits, write_frame};
pub use message::{Binding, Bindings, Body, Bulk, Message, Pdu, PduKind};
pub use reading::read_message;
pub use writing::{
    binding_size, list_len, message_size, size_bound, size_with, write_bindings, write_measured,
    write_message, write_with, write_within,
};
