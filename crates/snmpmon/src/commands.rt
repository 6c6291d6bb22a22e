//! Which command the arguments name, and the exit status.

ghost use Rattle.std.specs.Prelude.{◌≡◌, false, map, string_bytes};
ghost use Rattle.clap.specs.Values.{kind_of};
ghost use Rattle.mon_client.specs.Network.{agents_by};
ghost use Rattle.mon_serving.specs.Network.{ports_by};
ghost use Rattle.mon_cli.specs.Invocation.{IsWithin};
ghost use Rattle.mon_health_commands.specs.Health.{stations_by};
ghost use Rattle.mon_host.specs.Log.{GoesOnBy};
ghost use Rattle.mon_host.specs.Reason.{why};
ghost use Rattle.snmpmon.specs.Start.{Does, Hints, IsBefore, IsEnd, IsRefused, IsRun, IsRunFor, IsShown, IsStart, IsStartOf, IsStartWith, IsUnlisted, IsUsage, is_station, reads_input, status_of};

use clap::error::ErrorKind;
use mon_carry_commands::{Saves, carry_windows};
use mon_cli::{Invocation, VERSION, read, read_command};
use mon_client::Opens;
use mon_commands::{
    bulk, get, next, print_answers, print_names, print_recorded, print_rehearsal, run_self_test,
    serve_agent, set, walk,
};
use mon_console::{Failure, Fault, print};
use mon_file_commands::print_saved_report;
use mon_health_commands::{Connects, ask_health};
use mon_host::{Host, Level, Reason};
use mon_serving::Listens;
use mon_settings_commands::print_settings;
use mon_station_commands::run_station;
use std::alloc::{AllocError, Global};
use std::fs::File;
use std::io;
use std::net::Net;
use std::rt::{Clock, Files};

/// The line for arguments that are no text.
const NO_TEXT: &str = "snmpmon: the command line is not UTF-8; see snmpmon --help\n";

/// The line for a command that reads lines from a terminal.
const AT_TERMINAL: &str =
    "snmpmon: reads lines from this terminal until Ctrl-D; see snmpmon --help\n";

/// The line for a station without rounds.
const NO_ROUNDS: &str =
    "snmpmon: station wants --rounds ROUNDS or --check; see snmpmon station --help\n";

/// The line for a phase without an interval.
const NO_INTERVAL: &str =
    "snmpmon: station wants --interval SECONDS with --phase; see snmpmon station --help\n";

/// The line for a report of saved windows that is given no settings and no file, or both.
const NO_SOURCE: &str =
    "snmpmon: report wants either SETTINGS or --file FILE; see snmpmon report --help\n";

/// The line for series that must have a station's number, which a file without settings has not.
const NO_NUMBER: &str =
    "snmpmon: report wants SETTINGS with --station-label; see snmpmon report --help\n";

/// The line for machines that settings are placed on, and no folder for them.
const NO_SPLIT: &str =
    "snmpmon: settings wants --split FOLDER with --machines; see snmpmon settings --help\n";

/// The line for groups of stations, and no machines that they would be on.
const NO_MACHINES: &str =
    "snmpmon: --stations and --first-group want --machines; see snmpmon settings --help\n";

/// The line for sorted rows of a report that is no table.
const NO_COLUMNS: &str = "snmpmon: --sort wants --columns; see snmpmon report --help\n";

/// What commands reach besides their host.
#[derive(Drop)]
pub struct Means<N, K, C> {
    /// Agents, and ports at which one is served.
    pub net: N,
    /// Disks that hold a station's windows.
    pub disks: K,
    /// Stations that serve HTTP.
    pub streams: C,
}

/// Runs the command that the arguments name, and returns the exit status.
pub fn start<
    R: Clock + Files<File = File> + Net + AllocGlobal,
    N: Opens + Listens,
    K: Saves,
    C: Connects,
    H: Host,
>(rt: &R, means: &Means<N, K, C>, host: &mut H) -> u8
    ensures { GoesOnBy (λ log. IsStart (agents_by (N.Opens.has_opened means.now.net)
        (N.Opens.has_failed means.now.net) N.Wire.log) (ports_by (N.Listens.has_opened means.now.net)
        (N.Listens.has_failed means.now.net) N.Port.log N.Port.failures)
        (K.asked_save means.now.disks)
        (stations_by (C.has_connected means.now.streams) (C.has_failed means.now.streams)
        C.Stream.log) log result) (H.log host.old) (H.log host.new) }
{
    match host.arguments() {
        Ok(words) => start_with(rt, means, host, words.as_slice()),
        Err(reason) => end_unlisted(host, reason),
    }
}

/// Says that there are no arguments, and returns the exit status.
fn end_unlisted<H: Host>(host: &mut H, reason: Reason) -> u8
    ensures { GoesOnBy (λ log. IsUnlisted (why reason).kind log result)
        (H.log host.old) (H.log host.new) }
{
    match reason.kind {
        io::ErrorKind::OutOfMemory => end(host, Err(Failure::from(AllocError)), false),
        _ => refuse(host, NO_TEXT),
    }
}

/// Says a line, and returns the exit status of a command line that is refused.
fn refuse<H: Host>(host: &mut H, line: &str) -> u8
    ensures { GoesOnBy (λ log. IsRefused line.now log result) (H.log host.old) (H.log host.new) }
{
    host.note(Level::Error, line);
    2
}

/// Runs the command that these arguments name, and returns the exit status.
fn start_with<
    R: Clock + Files<File = File> + Net + AllocGlobal,
    N: Opens + Listens,
    K: Saves,
    C: Connects,
    H: Host,
>(rt: &R, means: &Means<N, K, C>, host: &mut H, words: &[String]) -> u8
    ensures { GoesOnBy (λ log. IsStartWith (agents_by (N.Opens.has_opened means.now.net)
        (N.Opens.has_failed means.now.net) N.Wire.log) (ports_by (N.Listens.has_opened means.now.net)
        (N.Listens.has_failed means.now.net) N.Port.log N.Port.failures)
        (K.asked_save means.now.disks)
        (stations_by (C.has_connected means.now.streams) (C.has_failed means.now.streams)
        C.Stream.log) (map string_bytes words.now) log result)
        (H.log host.old) (H.log host.new) }
{
    match read(rt.alloc(), words) {
        Ok(matches) => start_command(rt, means, host, read_command(&matches)),
        Err(error) => end_usage(rt.alloc(), host, &error),
    }
}

/// Says why the arguments were refused, or prints the help that they asked for, and returns the
/// exit status.
fn end_usage<H: Host>(alloc: Global, host: &mut H, error: &clap::Error) -> u8
    ensures { GoesOnBy (λ log. IsUsage (kind_of error.now) log result)
        (H.log host.old) (H.log host.new) }
{
    match error.kind() {
        ErrorKind::OutOfMemory => end(host, Err(Failure::from(AllocError)), false),
        ErrorKind::DisplayHelp => show_to_end(alloc, host, error),
        ErrorKind::DisplayVersion => show_to_end(alloc, host, error),
        _ => {
            host.note(Level::Error, error);
            2
        }
    }
}

/// Prints the help that arguments asked for, and returns the exit status.
fn show_to_end<H: Host>(alloc: Global, host: &mut H, error: &clap::Error) -> u8
    ensures { GoesOnBy (λ log. IsRun false IsShown log result) (H.log host.old) (H.log host.new) }
{
    let shown = show(alloc, host, error);
    end(host, shown, false)
}

/// Prints the help that arguments asked for.
fn show<H: Host>(alloc: Global, host: &mut H, error: &clap::Error) -> Result<(), Failure>
    ensures { GoesOnBy (λ log. IsShown log result) (H.log host.old) (H.log host.new) }
{
    let text: Result<String, AllocError> = format!(in alloc; "{error}");
    print(alloc, host, text?.as_bytes())
}

/// Runs a command if it lacks nothing, and returns the exit status.
fn start_command<
    R: Clock + Files<File = File> + Net + AllocGlobal,
    N: Opens + Listens,
    K: Saves,
    C: Connects,
    H: Host,
>(rt: &R, means: &Means<N, K, C>, host: &mut H, asked: Invocation<'_, '_>) -> u8
    requires { IsWithin asked }
    ensures { GoesOnBy (λ log. IsStartOf (agents_by (N.Opens.has_opened means.now.net)
        (N.Opens.has_failed means.now.net) N.Wire.log) (ports_by (N.Listens.has_opened means.now.net)
        (N.Listens.has_failed means.now.net) N.Port.log N.Port.failures)
        (K.asked_save means.now.disks)
        (stations_by (C.has_connected means.now.streams) (C.has_failed means.now.streams)
        C.Stream.log) asked.entry log result)
        (H.log host.old) (H.log host.new) }
{
    if asked.lacks_rounds() {
        return refuse(host, NO_ROUNDS);
    }
    if asked.lacks_interval() {
        return refuse(host, NO_INTERVAL);
    }
    if asked.lacks_source() {
        return refuse(host, NO_SOURCE);
    }
    if asked.lacks_number() {
        return refuse(host, NO_NUMBER);
    }
    if asked.lacks_split() {
        return refuse(host, NO_SPLIT);
    }
    if asked.lacks_machines() {
        return refuse(host, NO_MACHINES);
    }
    if asked.lacks_columns() {
        return refuse(host, NO_COLUMNS);
    }
    run_to_end(rt, means, host, asked)
}

/// Runs a command, and returns the exit status.
fn run_to_end<
    R: Clock + Files<File = File> + Net + AllocGlobal,
    N: Opens + Listens,
    K: Saves,
    C: Connects,
    H: Host,
>(rt: &R, means: &Means<N, K, C>, host: &mut H, asked: Invocation<'_, '_>) -> u8
    requires { IsWithin asked }
    ensures { GoesOnBy (λ log. IsRunFor (agents_by (N.Opens.has_opened means.now.net)
        (N.Opens.has_failed means.now.net) N.Wire.log) (ports_by (N.Listens.has_opened means.now.net)
        (N.Listens.has_failed means.now.net) N.Port.log N.Port.failures)
        (K.asked_save means.now.disks)
        (stations_by (C.has_connected means.now.streams) (C.has_failed means.now.streams)
        C.Stream.log) asked.entry log result)
        (H.log host.old) (H.log host.new) }
{
    prepare(host, reads_input(&asked));
    let station = is_station(&asked);
    let done = run(rt, means, host, asked);
    end(host, done, station)
}

/// Says how lines that are read from a terminal end, before a command that reads some.
fn prepare<H: Host>(host: &mut H, reads: bool)
    ensures { GoesOnBy (IsBefore reads) (H.log host.old) (H.log host.new) }
{
    if reads {
        hint(host);
    }
}

/// Returns `true` for a command that reads lines from standard input.
fn reads_input(asked: &Invocation<'_, '_>) -> bool
    ensures { result ≡ reads_input asked.now }
{
    matches!(
        asked,
        Invocation::Replay(_) | Invocation::Answer(_) | Invocation::Rehearse(_)
    )
}

/// Returns `true` for a station that is run or checked.
fn is_station(asked: &Invocation<'_, '_>) -> bool
    ensures { result ≡ is_station asked.now }
{
    matches!(asked, Invocation::Station(_))
}

/// Says at a terminal how lines that are read from it end.
fn hint<H: Host>(host: &mut H)
    ensures { GoesOnBy Hints (H.log host.old) (H.log host.new) }
{
    if host.is_at_terminal() {
        host.note(Level::Info, AT_TERMINAL);
    }
}

/// Ends a command: says why it failed, and returns the exit status. If the reader of what was
/// printed went away, only the status says so.
fn end<H: Host>(host: &mut H, done: Result<(), Failure>, station: bool) -> u8
    ensures { GoesOnBy (λ log. IsEnd station done log result) (H.log host.old) (H.log host.new) }
{
    match done {
        Ok(()) => 0,
        Err(failure) => {
            if !failure.is_cut() {
                failure.report(host, Level::Error);
            }
            status_of(station, failure.fault)
        }
    }
}

/// Returns the exit status of a fault: 1, and of a station 4 if it ends since its settings changed,
/// so that it is started with them, and 3 if the fault lasts, so that nobody starts it again before
/// somebody has mended it.
fn status_of(station: bool, fault: Fault) -> u8
    ensures { result ≡ status_of station fault }
{
    match fault {
        Fault::SettingsChanged if station => 4,
        _ if station && fault.lasts() => 3,
        _ => 1,
    }
}

/// Does what the arguments ask for.
fn run<
    R: Clock + Files<File = File> + Net + AllocGlobal,
    N: Opens + Listens,
    K: Saves,
    C: Connects,
    H: Host,
>(rt: &R, means: &Means<N, K, C>, host: &mut H, asked: Invocation<'_, '_>) -> Result<(), Failure>
    requires { IsWithin asked }
    ensures { GoesOnBy (λ log. Does (agents_by (N.Opens.has_opened means.now.net)
        (N.Opens.has_failed means.now.net) N.Wire.log) (ports_by (N.Listens.has_opened means.now.net)
        (N.Listens.has_failed means.now.net) N.Port.log N.Port.failures)
        (K.asked_save means.now.disks)
        (stations_by (C.has_connected means.now.streams) (C.has_failed means.now.streams)
        C.Stream.log) asked.entry log result) (H.log host.old) (H.log host.new) }
{
    let (alloc, net, disks) = (rt.alloc(), &means.net, &means.disks);
    match asked {
        Invocation::Version => print(alloc, host, VERSION.as_bytes()),
        Invocation::Replay(words) => print_recorded(alloc, host, words),
        Invocation::Get(request) => get(alloc, host, net, request),
        Invocation::Next(request) => next(alloc, host, net, request),
        Invocation::Bulk(words) => bulk(alloc, host, net, words),
        Invocation::Walk(words) => walk(alloc, host, net, words),
        Invocation::Set(words) => set(alloc, host, net, words),
        Invocation::Settings(words) => print_settings(alloc, host, net, words),
        Invocation::Agent(words) => serve_agent(alloc, host, net, words),
        Invocation::Answer(words) => print_answers(alloc, host, words),
        Invocation::Mib(words) => print_names(alloc, host, words),
        Invocation::Station(words) => run_station(rt, host, words),
        Invocation::Report(words) => print_saved_report(alloc, host, words),
        Invocation::Carry(words) => carry_windows(alloc, disks, host, words),
        Invocation::Healthz(words) => ask_health(alloc, host, &means.streams, words.address),
        Invocation::SelfTest => run_self_test(alloc, host),
        Invocation::Rehearse(words) => print_rehearsal(alloc, host, words),
    }
}
