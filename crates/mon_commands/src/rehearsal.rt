//! The commands of stations in memory.

ghost use Rattle.std.specs.Prelude.{◌≡◌, ◌≤◌, false};
ghost use Rattle.mon_host.specs.Log.{GoesOnBy};
ghost use Rattle.mon_commands.specs.Rehearsing.{IsPlain, IsRehearsed, IsRehearsing, IsSelfTest, IsTried};
ghost use Rattle.mon_faults.specs.Fault.{innermost_of};
ghost use Rattle.mon_rehearsal.specs.Fault as rehearsal;
ghost use Rattle.mon_rehearsal.specs.Trial as trial;

use mon_cli::{Named, Printed, RehearseArgs};
use mon_console::{Failure, Fault, print, read_input, read_station_file};
use mon_formats::Format;
use mon_host::Host;
use mon_rehearsal::{RehearsalFault, Trial, TrialFault, rehearse, run_trial};
use mon_settings::StationSettings;
use mon_world::WorldFault;
use std::alloc::Global;

/// How a report is printed if the arguments do not say.
fn plain() -> Printed<'static, 'static>
    ensures { IsPlain result }
{
    let named = Named {
        modules: &[],
        shown: false,
    };
    Printed {
        format: Format::Text,
        chosen: false,
        sort: None,
        station_label: false,
        named,
    }
}

/// Prints what the steps on standard input make of stations in memory.
pub fn print_rehearsal<H: Host>(
    alloc: Global,
    host: &mut H,
    words: RehearseArgs<'_>,
) -> Result<(), Failure>
    requires { (1 ≤ words.stations) × (words.stations ≤ 16) }
    ensures { GoesOnBy (λ log. IsRehearsing words.entry log result)
        (H.log host.old) (H.log host.new) }
{
    let (settings, _) = read_station_file(alloc, host, words.settings, plain())?;
    let script = read_input(alloc, host)?;
    let text = rehearsed(alloc, &settings, words.stations, &script)?;
    print(alloc, host, &text)
}

/// What the steps of a script make of this many stations in memory.
fn rehearsed(
    alloc: Global,
    settings: &StationSettings,
    stations: u32,
    script: &[u8],
) -> Result<Vec<u8>, Failure>
    requires { (1 ≤ stations) × (stations ≤ 16) }
    ensures { IsRehearsed settings.now stations script.now result }
{
    match rehearse(alloc, &settings.core, stations, script) {
        Ok(text) => Ok(text),
        Err(fault) => Err(rehearsal_failure(alloc, fault)),
    }
}

/// Prints what a station in memory measured of an agent in memory.
pub fn run_self_test<H: Host>(alloc: Global, host: &mut H) -> Result<(), Failure>
    ensures { GoesOnBy (λ log. IsSelfTest log result) (H.log host.old) (H.log host.new) }
{
    let trial = tried(alloc)?;
    print(alloc, host, trial.text.as_slice())
}

/// The trial of a station in memory.
fn tried(alloc: Global) -> Result<Trial, Failure>
    ensures { IsTried result }
{
    match run_trial(alloc) {
        Ok(trial) => Ok(trial),
        Err(fault) => Err(trial_failure(alloc, fault)),
    }
}

/// Why there was no rehearsal.
fn rehearsal_failure(alloc: Global, fault: RehearsalFault) -> Failure
    ensures part { (innermost_of result.fault).part ≡ (rehearsal.innermost_of fault).part }
    ensures number { (innermost_of result.fault).number ≡ (rehearsal.innermost_of fault).number }
    ensures name { (innermost_of result.fault).name ≡ (rehearsal.innermost_of fault).name }
    ensures whole { result.is_cut ≡ false }
{
    Failure::said(rehearsal_fault(fault), format!(in alloc; "{fault}"))
}

/// Why the trial did not end well.
fn trial_failure(alloc: Global, fault: TrialFault) -> Failure
    ensures part { (innermost_of result.fault).part ≡ (trial.innermost_of fault).part }
    ensures number { (innermost_of result.fault).number ≡ (trial.innermost_of fault).number }
    ensures name { (innermost_of result.fault).name ≡ (trial.innermost_of fault).name }
    ensures whole { result.is_cut ≡ false }
{
    Failure::said(trial_fault(fault), format!(in alloc; "{fault}"))
}

/// Returns a rehearsal's fault as a command's: a station's is its own.
fn rehearsal_fault(fault: RehearsalFault) -> Fault
    ensures part { (innermost_of result).part ≡ (rehearsal.innermost_of fault).part }
    ensures number { (innermost_of result).number ≡ (rehearsal.innermost_of fault).number }
    ensures name { (innermost_of result).name ≡ (rehearsal.innermost_of fault).name }
{
    match fault {
        RehearsalFault::World(WorldFault::Refused(fault)) => Fault::Station(fault),
        other => Fault::Other(other.innermost()),
    }
}

/// Returns a trial's fault as a command's: a station's is its own.
fn trial_fault(fault: TrialFault) -> Fault
    ensures part { (innermost_of result).part ≡ (trial.innermost_of fault).part }
    ensures number { (innermost_of result).number ≡ (trial.innermost_of fault).number }
    ensures name { (innermost_of result).name ≡ (trial.innermost_of fault).name }
{
    match fault {
        TrialFault::Refused(fault) => Fault::Station(fault),
        other => Fault::Other(other.innermost()),
    }
}
