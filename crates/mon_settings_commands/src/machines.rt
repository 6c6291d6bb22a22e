//! The machines that the stations of a network are placed on.

ghost use Rattle.std.specs.Prelude.{◌≤◌, IfOk, length};
ghost use Rattle.mon_host.specs.Log.{GoesOnBy};
ghost use Rattle.mon_settings_commands.specs.Network.{AreMachines, AreMachinesIn};

use crate::failing::machines_failure;
use mon_console::{Failure, read_text};
use mon_host::Host;
use mon_placing::{Machine, laws, machines_in};
use std::alloc::Global;

/// Reads the machines that a file lists, at least as many as a group has stations.
pub(crate) fn machines_at<H: Host>(
    alloc: Global,
    host: &mut H,
    path: &str,
    stations: u32,
) -> Result<Vec<Machine>, Failure>
    ensures listed { GoesOnBy (λ log. AreMachines path.now stations log result)
        (H.log host.old) (H.log host.new) }
    ensures some { IfOk result (λ machines. 1 ≤ length machines.items) }
    ensures few { IfOk result (λ machines. length machines.items ≤ 1024) }
{
    let text = read_text(alloc, host, path)?;
    machines_of(alloc, path, stations, text.as_str())
}

/// Returns the machines that the text of a file lists.
fn machines_of(
    alloc: Global,
    path: &str,
    stations: u32,
    text: &str,
) -> Result<Vec<Machine>, Failure>
    ensures listed { AreMachinesIn path.now stations text.now result }
    ensures some { IfOk result (λ machines. 1 ≤ length machines.items) }
    ensures few { IfOk result (λ machines. length machines.items ≤ 1024) }
{
    laws::counts();
    match machines_in(alloc, text, stations) {
        Ok(machines) => Ok(machines),
        Err(fault) => Err(machines_failure(alloc, path, fault)),
    }
}
