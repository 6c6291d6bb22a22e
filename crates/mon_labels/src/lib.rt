//! Labels of interfaces for Prometheus and the page, read from a TOML 1.1 text, and which instance
//! has which of them. Contract: what is read is exactly what the text's tree says, else the first
//! fault of the tree is answered; an instance has the labels of the interface whose engine id is
//! its own and whose index is the last part of its name.
#![tactic(auto)]

mod fault;
mod interface;
mod key;
mod labels;
mod reading;
mod table;

pub use fault::{LabelsFault, Place};
pub use interface::InterfaceLabels;
pub use key::Key;
pub use labels::{Labels, Reached};
pub use reading::read_labels;
