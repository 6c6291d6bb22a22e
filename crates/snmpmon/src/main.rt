//! The program `snmpmon`: reads the command line and runs one command.
//!
//! Statuses: 0; 1 with a line on standard error that names the fault, and mostly a second one that
//! says what was wrong and where; 2 for a command line that it cannot read.
//! Contract: what is printed, read and said, in which order, and the status (specs/Start.antt).
#![tactic(auto)]

mod commands;

use commands::Means;
use mon_app::SystemNetwork;
use mon_carry_commands::Disks;
use mon_health_commands::Tcp;
use mon_host::{System, Terminals};
use std::io::IsTerminal;
use std::process::ExitCode;

fn main(rt: HostRuntime) -> ExitCode {
    let terminals = Terminals {
        input: rt.stdin().is_terminal(),
        output: rt.stdout().is_terminal(),
    };
    let mut host = System::new(&rt, terminals);
    let means = Means {
        net: SystemNetwork::new(&rt),
        disks: Disks::new(&rt),
        streams: Tcp::new(&rt),
    };
    ExitCode::from(commands::start(&rt, &means, &mut host))
}
