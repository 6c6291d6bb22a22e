//! Settings, read from TOML 1.1 texts: what an agent serves, at which address, and to whom; and
//! what a station watches, whom it polls, and its peers. To the layer above: settings are read
//! exactly where the text is TOML and its tree is an agent's or a station's, unless memory runs
//! out; and what a station needs of its settings is a `Core`.
#![tactic(auto)]

mod agent;
mod fault;
mod grammar;
mod key;
mod keys;
mod label;
pub mod laws;
mod leaf;
mod list;
mod modules;
mod peers;
mod place;
mod placing;
mod rounds;
mod sizes;
mod station;
mod station_tables;
mod tables;
mod text;
mod wanted;

pub use agent::{AgentSettings, read_agent};
pub use fault::SettingsFault;
pub use grammar::{SettingsKind, table_keys, top_keys};
pub use key::Key;
pub use keys::{find, first_unknown, is_one_of};
pub use modules::module_files;
pub use mon_config::Core;
pub use mon_udp::Addr;
pub use peers::are_peers;
pub use place::{PathPart, Place};
pub use rounds::{RoundTime, greatest_tries, round_time};
pub use station::{StationSettings, read_station};
