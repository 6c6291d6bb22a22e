//! The command `station`.

ghost use Rattle.std.specs.Prelude.{◌≡◌, IfErr, IfOk, IsOk, None, Ok, false, OnOk, Some, map, option_copied, option_map, string_bytes};
ghost use Rattle.mon_disk.specs.declared.fault.KeeperFault.{KeeperFault};
ghost use Rattle.mon_faults.specs.declared.fault.Fault.TheVariants.{Keeper};
ghost use Rattle.mon_host.specs.declared.level.Level.TheVariants.{Info};
ghost use Rattle.mon_host.specs.AtHost.{IsNoted};
ghost use Rattle.mon_host.specs.Log.{GoesOnBy};
ghost use Rattle.mon_station_commands.specs.Checking.{HasFile, IsCheck};
ghost use Rattle.mon_station_commands.specs.Ending.{IsEnded};
ghost use Rattle.mon_station_commands.specs.Limits.{longest_gap};
ghost use Rattle.mon_station_commands.specs.Places.{IsHttpAddress, IsNoSocket, IsPlaceAt, IsShownOpened, IsUnseenOpened};
ghost use Rattle.mon_station_commands.specs.Rounds.{AreRun, IsBetween, IsLastRun, IsRoundRun, IsRun};
ghost use Rattle.mon_station_commands.specs.Station.{AreLevels, ArePaths, AreReports, IsRunning, IsSeen, IsSeenIf, IsStation, IsStationIf, IsUnseen};
ghost use Rattle.mon_file_commands.specs.Steps.{OrMemory};
ghost use Rattle.mon_station_commands.specs.Steps.{SomeOr, only};
ghost use Rattle.mon_station_commands.specs.Telling.{http_line};

use crate::following::{date_settings, look_at_settings};
use crate::keeping::keep_file;
use crate::limits::{longest_gap, print_limits};
use crate::live::{Live, Paths, Place, Reports, Setup, open_transport, run_span, start_station};
use crate::notifying::courier_of;
use crate::opening::{open_file, or_no_socket, or_socket_failure, unsaved};
use crate::pace::{now, start_pace, wait_for_next};
use crate::printing::{print_between, print_last, write_out};
use crate::showing::show;
use crate::snapshot::Snapshot;
use mon_cli::{StationArgs, Timing};
use mon_console::{Failure, Fault, Printing, SharedPrinting, read_labelled_station};
use mon_host::{Host, Level};
use mon_rounds::{Receiver, SocketReceiver, Span, is_due};
use mon_settings::StationSettings;
use mon_station::Outbox;
use mon_udp::{Addr, Socket};
use mon_web::{Acceptor, Pages, Server};
use mon_web_receiver::{PolledSocket, Shows, WebReceiver};
use std::alloc::{AllocError, Global};
use std::fs::File;
use std::io;
use std::net::{Net, SocketAddr};
use std::rt::{Clock, Files};

/// Runs the station of the settings through its rounds, and prints its report; or only prints what
/// limits it.
pub fn run_station<R: Clock + Files<File = File> + Net + AllocGlobal, H: Host>(
    rt: &R,
    host: &mut H,
    words: StationArgs<'_, '_>,
) -> Result<(), Failure>
    ensures { GoesOnBy (λ log. IsStation words.entry log result) (H.log host.old) (H.log host.new) }
{
    show_levels_if(host, words.log_levels);
    run_or_check(rt, host, words)
}

/// Has each line's level shown, if the arguments say so.
fn show_levels_if<H: Host>(host: &mut H, shown: bool)
    ensures { GoesOnBy (λ log. AreLevels shown log (Ok tt)) (H.log host.old) (H.log host.new) }
{
    if shown {
        host.show_levels();
    }
}

/// Runs the station of the settings, or only prints what limits it.
fn run_or_check<R: Clock + Files<File = File> + Net + AllocGlobal, H: Host>(
    rt: &R,
    host: &mut H,
    words: StationArgs<'_, '_>,
) -> Result<(), Failure>
    ensures { GoesOnBy (λ log. IsStationIf words.entry.checks words.entry log result)
        (H.log host.old) (H.log host.new) }
{
    if words.checks {
        return check_station(rt.alloc(), host, words);
    }
    run_words(rt, host, words)
}

/// Runs the station of the settings.
fn run_words<R: Clock + Files<File = File> + Net + AllocGlobal, H: Host>(
    rt: &R,
    host: &mut H,
    words: StationArgs<'_, '_>,
) -> Result<(), Failure>
    ensures { GoesOnBy (λ log. IsRunning words.entry log result) (H.log host.old) (H.log host.new) }
{
    let alloc = rt.alloc();
    let http_at = http_address_of(alloc, words.http)?;
    let courier = courier_of(alloc, words.notify)?;
    let (settings, printing) = read_labelled_station(
        alloc,
        host,
        words.settings,
        words.labels,
        words.printed,
    )?;
    let reports = reports_of(alloc, words, &settings, printing)?;
    let setup = Setup {
        settings,
        reports,
        courier,
    };
    run_by(rt, host, setup, words, http_at)
}

/// Runs a station that serves HTTP if there is an address for it.
fn run_by<R: Clock + Files<File = File> + Net + AllocGlobal, H: Host>(
    rt: &R,
    host: &mut H,
    setup: Setup,
    words: StationArgs<'_, '_>,
    http_at: Option<Addr>,
) -> Result<(), Failure>
    ensures { GoesOnBy (λ log. IsSeenIf http_at words.entry setup.reports setup.settings log
        result)
        (H.log host.old) (H.log host.new) }
{
    match http_at {
        None => run_unseen(rt, host, setup, words),
        Some(at) => {
            let front = Front {
                at,
                hosts: words.http_hosts,
            };
            run_shown(rt, host, setup, words, front)
        }
    }
}

/// Returns how the reports of a station of these settings are printed, and what else the arguments
/// say of them.
fn reports_of(
    alloc: Global,
    words: StationArgs<'_, '_>,
    settings: &StationSettings,
    printing: Printing,
) -> Result<Reports, Failure>
    ensures { OrMemory (AreReports words.entry settings.now printing) result }
{
    let instances = settings.core.watch().instances();
    // A station that serves HTTP is asked for series again and again.
    let series = if words.http.is_some() { instances } else { &[] };
    let printing = SharedPrinting::new(alloc, printing, series)?;
    let lines = if printing.is_plain() {
        instances.len()
    } else {
        0
    };
    Ok(Reports {
        station: settings.core.station(),
        printing,
        paths: paths_of(alloc, words.out, &settings.file)?,
        stale_after: words.stale_after,
        alarm_after: words.alarm_after,
        interval: words.timing.interval,
        lines: Vec::with_capacity(alloc, lines * LINE_SIZE)?,
    })
}

/// How many octets are reserved for an instance in a report of lines of text. Few lines are a
/// quarter as long.
const LINE_SIZE: usize = 1024;

/// Where a station serves HTTP, and by which names of hosts.
#[derive(Clone, Copy)]
struct Front<'m, 'a> {
    at: Addr,
    hosts: &'m [&'a str],
}

/// Prints what limits the station of the settings.
fn check_station<H: Host>(
    alloc: Global,
    host: &mut H,
    words: StationArgs<'_, '_>,
) -> Result<(), Failure>
    ensures { GoesOnBy (λ log. IsCheck words.entry.settings.now
        (option_map (λ l. l.now) words.entry.labels) words.entry.printed
        words.entry.timing.interval log result) (H.log host.old) (H.log host.new) }
{
    let (settings, _) = read_labelled_station(
        alloc,
        host,
        words.settings,
        words.labels,
        words.printed,
    )?;
    require_file(alloc, &settings.file)?;
    print_limits(alloc, host, &settings, words.timing.interval)
}

/// Returns the failure of settings that name no file, if they don't.
fn require_file(alloc: Global, file: &str) -> Result<(), Failure>
    ensures { HasFile file.now result }
{
    if !file.is_empty() {
        return Ok(());
    }
    Err(Failure::text(alloc, "file = \"\"", "a path"))
}

/// Runs a station that serves no HTTP.
fn run_unseen<R: Clock + Files<File = File> + Net + AllocGlobal, H: Host>(
    rt: &R,
    host: &mut H,
    setup: Setup,
    words: StationArgs<'_, '_>,
) -> Result<(), Failure>
    ensures { GoesOnBy (λ log. IsUnseen words.entry setup.reports setup.settings log result)
        (H.log host.old) (H.log host.new) }
{
    let alloc = rt.alloc();
    let (socket, place) = open_unseen(rt, host, &setup.settings)?;
    let receiver = SocketReceiver::new(rt, alloc, &socket);
    let transport = open_transport(alloc, &setup.settings, &socket, receiver)?;
    let mut live = start_station(alloc, host, setup, place, transport)?;
    run_rounds(rt, host, &mut live, words)
}

/// Opens the socket and the file of the settings.
fn open_unseen<R: Files<File = File> + Net + AllocGlobal, H: Host>(
    rt: &R,
    host: &mut H,
    settings: &StationSettings,
) -> Result<(Socket, Place), Failure>
    ensures { GoesOnBy (λ log. IsUnseenOpened settings.now log (only (λ r. r.1.at) result))
        (H.log host.old) (H.log host.new) }
{
    let given = Socket::open(rt, settings.listen);
    let socket = or_no_socket(rt.alloc(), host, settings, given)?;
    let place = open_place(rt, host, settings, socket.address())?;
    Ok((socket, place))
}

/// Runs a station that serves HTTP.
fn run_shown<R: Clock + Files<File = File> + Net + AllocGlobal, H: Host>(
    rt: &R,
    host: &mut H,
    setup: Setup,
    words: StationArgs<'_, '_>,
    front: Front<'_, '_>,
) -> Result<(), Failure>
    ensures { GoesOnBy (λ log. IsSeen front.entry.at words.entry setup.reports setup.settings log
        result)
        (H.log host.old) (H.log host.new) }
{
    let Shown {
        socket,
        place,
        web,
        at,
    } = open_shown(rt, host, &setup.settings, front, words.timing)?;
    let alloc = rt.alloc();
    let receiver = WebReceiver::new(rt, rt, &socket, web, place.origin);
    let transport = open_transport(alloc, &setup.settings, &socket, receiver)?;
    let mut live = start_station(alloc, host, setup, place, transport)?;
    tell_http(host, at);
    show(alloc, &mut live);
    run_rounds(rt, host, &mut live, words)
}

/// Prints where a station serves HTTP.
fn tell_http<H: Host>(host: &mut H, at: SocketAddr)
    ensures { GoesOnBy (IsNoted Info (Some (http_line at))) (H.log host.old) (H.log host.new) }
{
    host.note(Level::Info, format_args!("snmpmon: HTTP at {at}\n"));
}

/// What a station that serves HTTP has opened.
#[derive(Drop)]
struct Shown {
    socket: PolledSocket,
    place: Place,
    web: Server<Snapshot>,
    /// Where it serves HTTP.
    at: SocketAddr,
}

/// Opens the socket of the settings, the listener for HTTP and the file of the settings.
fn open_shown<R: Files<File = File> + Net + AllocGlobal, H: Host>(
    rt: &R,
    host: &mut H,
    settings: &StationSettings,
    front: Front<'_, '_>,
    timing: Timing,
) -> Result<Shown, Failure>
    ensures { GoesOnBy (λ log. IsShownOpened settings.now front.entry.at log
        (only (λ shown. (shown.place.at, shown.at)) result)) (H.log host.old) (H.log host.new) }
{
    let given = PolledSocket::open(rt, settings.listen);
    let socket = or_no_socket(rt.alloc(), host, settings, given)?;
    let (web, at) = open_web(rt, front, settings, timing)?;
    let place = open_place(rt, host, settings, socket.address())?;
    Ok(Shown {
        socket,
        place,
        web,
        at,
    })
}

/// Opens the file of the settings, for a station whose socket is there.
fn open_place<R: Files<File = File> + AllocGlobal, H: Host>(
    rt: &R,
    host: &mut H,
    settings: &StationSettings,
    address: io::Result<SocketAddr>,
) -> Result<Place, Failure>
    ensures { GoesOnBy (λ log. IsPlaceAt address settings.now log (only (λ place. place.at) result))
        (H.log host.old) (H.log host.new) }
{
    let disk = open_file(rt, host, settings)?;
    let at = or_socket_failure(rt.alloc(), settings.listen, address)?;
    let origin = now(rt.alloc(), host)?;
    Ok(Place { disk, at, origin })
}

/// Listens for HTTP, and returns at which address too.
fn open_web<R: Net + AllocGlobal>(
    rt: &R,
    front: Front<'_, '_>,
    settings: &StationSettings,
    timing: Timing,
) -> Result<(Server<Snapshot>, SocketAddr), Failure>
    ensures failed { SomeOr (IsNoSocket front.entry.at) result }
    ensures names { IfOk result (λ web. map string_bytes web.0.table.pages.names.items
        ≡ map (λ t. t.now) front.entry.hosts.now) }
    ensures limit { IfOk result (λ web. web.0.table.pages.limit
        ≡ longest_gap settings.now timing.interval) }
{
    let (alloc, at) = (rt.alloc(), front.at);
    let acceptor = or_socket_failure(alloc, at, Acceptor::open(rt, at.socket()))?;
    let place = or_socket_failure(alloc, at, acceptor.address())?;
    let pages = Pages::new(
        longest_gap(settings, timing.interval),
        copies_of(alloc, front.hosts)?,
    );
    let web = or_socket_failure(alloc, at, Server::new(alloc, acceptor, pages))?;
    Ok((web, place))
}

/// Returns copies of texts, in their order.
fn copies_of(alloc: Global, texts: &[&str]) -> Result<Vec<String>, AllocError>
    ensures { IfOk result (λ copies. map string_bytes copies.items ≡ map (λ t. t.now) texts.now) }
{
    let mut copies = Vec::with_capacity(alloc, texts.len())?;
    for text in texts {
        copies.push(String::from_str(alloc, text)?)?;
    }
    Ok(copies)
}

/// Returns the address that `--http` gives, if it is given.
fn http_address_of(alloc: Global, text: Option<&str>) -> Result<Option<Addr>, Failure>
    ensures { IsHttpAddress (option_copied text.entry) result }
{
    let Some(text) = text else {
        return Ok(None);
    };
    match Addr::parse(text) {
        Some(address) => Ok(Some(address)),
        None => Err(Failure::text(alloc, text, "an address, a.b.c.d:port,")),
    }
}

/// Runs a station through its rounds, and prints its report. If a report between two rounds could
/// not be printed, the last round's could not be written or its save failed, that is the failure.
fn run_rounds<
    R: Files<File = File> + Net + AllocGlobal,
    H: Host,
    S: Shows<Snapshot> + Drop,
    O: Outbox + Drop,
>(rt: &R, host: &mut H, live: &mut Live<S, O>, words: StationArgs<'_, '_>) -> Result<(), Failure>
    ensures { GoesOnBy (λ log. IsRun words.entry live.old.reports.printing live.old.reports.paths
        live.old.kept log result) (H.log host.old) (H.log host.new) }
{
    let alloc = rt.alloc();
    run_all(rt, host, live, words)?;
    print_last(alloc, host, live)?;
    ended(alloc, live)
}

/// Runs a station's rounds, and what is between them. If the station follows its settings, and
/// these changed, the next round is the last one.
fn run_all<
    R: Files<File = File> + Net + AllocGlobal,
    H: Host,
    S: Shows<Snapshot> + Drop,
    O: Outbox + Drop,
>(rt: &R, host: &mut H, live: &mut Live<S, O>, words: StationArgs<'_, '_>) -> Result<(), Failure>
    ensures run { GoesOnBy (λ log. AreRun words.entry live.old.reports.printing
        live.old.reports.paths
        live.old.kept log live.new.kept result) (H.log host.old) (H.log host.new) }
    ensures printing { live.new.reports.printing ≡ live.old.reports.printing }
    ensures paths { live.new.reports.paths ≡ live.old.reports.paths }
{
    let alloc = rt.alloc();
    let timing = words.timing;
    date_settings(host, live, words);
    let mut pace = start_pace(rt, host, live, timing)?;
    for number in 1..timing.rounds {
        if look_at_settings(alloc, host, live, words, number) {
            return run_round(rt, host, live, number, true);
        }
        run_round(rt, host, live, number, is_due(number, timing.save_every))?;
        print_due(alloc, host, live, number, timing.report_every);
        pace = wait_for_next(rt, host, live, number, pace)?;
    }
    run_last(rt, host, live, timing.rounds)
}

/// Runs the last of these rounds, if there are any; at its end all is saved.
fn run_last<
    R: Files<File = File> + AllocGlobal,
    H: Host,
    S: Shows<Snapshot> + Drop,
    O: Outbox + Drop,
>(rt: &R, host: &mut H, live: &mut Live<S, O>, rounds: u32) -> Result<(), Failure>
    ensures run { GoesOnBy (λ log. IsLastRun rounds live.old.reports.printing
        live.old.reports.paths live.old.kept live.new.kept log result)
        (H.log host.old) (H.log host.new) }
    ensures printing { live.new.reports.printing ≡ live.old.reports.printing }
    ensures paths { live.new.reports.paths ≡ live.old.reports.paths }
{
    if rounds == 0 {
        return Ok(());
    }
    run_round(rt, host, live, rounds, true)
}

/// Runs a round, once it is seen that the station's file is at its path, and writes its report to
/// the file for reports. At its end all is saved if `saves` says so.
fn run_round<
    R: Files<File = File> + AllocGlobal,
    H: Host,
    S: Shows<Snapshot> + Drop,
    O: Outbox + Drop,
>(rt: &R, host: &mut H, live: &mut Live<S, O>, number: u32, saves: bool) -> Result<(), Failure>
    ensures run { GoesOnBy (λ log. IsRoundRun number saves live.old.reports.printing
        live.old.reports.paths live.old.kept live.new.kept log result)
        (H.log host.old) (H.log host.new) }
    ensures printing { live.new.reports.printing ≡ live.old.reports.printing }
    ensures paths { live.new.reports.paths ≡ live.old.reports.paths }
{
    keep_file(rt, host, live, number);
    live.transport.rounds.set_saves(saves);
    run_span(rt.alloc(), host, live, number, Span::Round)?;
    write_out(rt.alloc(), host, live, number);
    Ok(())
}

/// Prints the report if it is due after this round.
fn print_due<H: Host, S: Shows<Snapshot> + Drop, O: Outbox + Drop>(
    alloc: Global,
    host: &mut H,
    live: &mut Live<S, O>,
    number: u32,
    every: u32,
)
    ensures run { GoesOnBy (λ log. IsBetween number every live.old.reports.printing live.old.kept
        log
        live.new.kept) (H.log host.old) (H.log host.new) }
    ensures printing { live.new.reports.printing ≡ live.old.reports.printing }
    ensures paths { live.new.reports.paths ≡ live.old.reports.paths }
{
    if is_due(number, every) {
        print_between(alloc, host, live);
    }
}

/// Returns why a station did not do all that it had to: a report or its last save.
fn ended<S: Receiver + Drop, O: Outbox + Drop>(
    alloc: Global,
    live: &mut Live<S, O>,
) -> Result<(), Failure>
    ensures saved { OnOk result (live.old.kept.unsaved ≡ None) }
    ensures printed { OnOk result (live.old.kept.unprinted ≡ None) }
    ensures written { OnOk result (live.old.kept.unwritten ≡ None) }
    ensures fault { (fault : KeeperFault) → live.old.kept.unsaved ≡ Some fault
        → IfErr result (λ failure. failure.fault ≡ Keeper fault) }
    ensures reports { IsEnded live.old.kept.unsaved live.old.kept.unprinted live.old.kept.unwritten
        live.old.kept.ends result }
    ensures done { live.old.kept.unsaved ≡ None → live.old.kept.unprinted ≡ None
        → live.old.kept.unwritten ≡ None → live.old.kept.ends ≡ false → IsOk result }
{
    if let Some(fault) = live.kept.unsaved {
        return Err(unsaved(alloc, &live.reports.paths.file, fault, live.station.disk()));
    }
    if let Some(failure) = live.kept.unprinted.take() {
        return Err(failure);
    }
    match live.kept.unwritten.take() {
        Some(failure) => Err(failure),
        None => ended_by(live.kept.ends),
    }
}

/// Returns the failure of a station that ends since its settings changed, if it does.
fn ended_by(ends: bool) -> Result<(), Failure>
    ensures { IsEnded None None None ends result }
{
    if ends {
        return Err(Failure::plain(Fault::SettingsChanged));
    }
    Ok(())
}

/// Returns the paths of the file for each round's report, if there is one, and of the station's
/// own.
fn paths_of(alloc: Global, out: Option<&str>, file: &str) -> Result<Paths, Failure>
    ensures { OrMemory (ArePaths (option_copied out.entry) file.now) result }
{
    Ok(Paths {
        out: match out {
            Some(path) => Some(String::from_str(alloc, path)?),
            None => None,
        },
        file: String::from_str(alloc, file)?,
    })
}
