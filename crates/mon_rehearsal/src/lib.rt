//! Rehearsals: a script of steps is run over a world of stations in memory, and printed; and the
//! self-test, which tries a station on an agent in memory. They follow no standard. Contract: a
//! script is read exactly where each of its lines says a step, before the first step is made; what
//! is printed is the answer of each step that the world made, in order, and the stations as these
//! steps left them.
#![tactic(auto)]

mod fault;
mod field;
mod printed;
mod rehearsing;
mod script;
mod trial;

pub use fault::{RehearsalFault, ScriptFault};
pub use rehearsing::rehearse;
pub use script::{ScriptStep, read_script};
pub use trial::{Trial, TrialFault, run_trial};
