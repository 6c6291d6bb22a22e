//! The command `settings`: walks an agent's interfaces and prints the settings of a station that
//! polls them.
#![tactic(auto)]

mod asking;
mod existing;
mod failing;
mod labelling;
mod machines;
mod network;
mod noting;
mod parts;
mod seating;
mod settings;
mod trying;
mod updating;
mod words;

pub use settings::print_settings;
