//! The management information of an agent: 43 served objects, and the map of their variables over a
//! device. It follows RFC 3416 section 4.2, RFC 3418, RFC 2863 and RFC 3411 section 5. To the layer
//! above: Get and the successor of a name are exact by the map, and a Set assigns all or nothing or
//! says what remains assigned, for every device that meets its trait.
#![tactic(auto)]

mod admin_status;
mod binding_fault;
mod change;
mod column;
mod commit;
mod counters;
mod device;
mod facts;
mod fault;
mod fuse_device;
mod gaps;
mod got;
mod guess;
mod interface;
pub mod laws;
mod max_access;
mod mib;
mod moment;
mod object;
mod oper_status;
mod planned_change;
mod row;
mod scalar;
mod search;
mod set_fault;
mod set_plan;
mod set_status;
mod setting;
mod settings;
mod shown;
mod sim_device;
mod start;
mod status;
mod sys_texts;
mod writable;

pub use admin_status::AdminStatus;
pub use change::Change;
pub use column::Column;
pub use commit::Commit;
pub use counters::{Counter, Counters};
pub use device::Device;
pub use facts::{Facts, IfText, SysText};
pub use fault::DeviceFault;
pub use fuse_device::FuseDevice;
pub use got::Got;
pub use interface::{Growth, Interface};
pub use max_access::MaxAccess;
pub use mib::Mib;
pub use moment::Moment;
pub use object::{Object, all_objects};
pub use oper_status::OperStatus;
pub use planned_change::PlannedChange;
pub use scalar::Scalar;
pub use search::Search;
pub use set_fault::SetFault;
pub use set_plan::SetPlan;
pub use set_status::SetStatus;
pub use settings::Settings;
pub use shown::Shown;
pub use sim_device::SimDevice;
pub use status::Status;
pub use sys_texts::SysTexts;
