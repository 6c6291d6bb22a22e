//! The command line of `snmpmon`: its commands, their options and their help.
#![tactic(auto)]

mod choice;
mod lines;
mod matches;
mod meaning;
mod parser;
mod survey_lines;
mod texts;

pub use choice::Choice;
pub use matches::read_command;
pub use meaning::{
    AgentArgs, AnswerArgs, BulkArgs, CarryArgs, HealthzArgs, Invocation, MibArgs, Named, Printed,
    RehearseArgs, ReplayArgs, ReportArgs, Request, Scene, SetArgs, SettingsArgs, StationArgs,
    Timing, WalkArgs,
};
pub use parser::{VERSION, read};
