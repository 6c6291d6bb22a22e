//! A running station: what it works with, and a round of it.

ghost use Rattle.std.specs.Prelude.{◌≡◌, ◌≤◌, ◌/◌, ℕ, IfErr, IfOk, IfSome, None, OnOk, Some, is_some, length, map, string_bytes};
ghost use Rattle.mon_alarms.specs.Announcing.{announcer_of};
ghost use Rattle.mon_disk.specs.Fault.{number_of};
ghost use Rattle.mon_host.specs.Log.{GoesOnBy};
ghost use Rattle.mon_report.specs.Alarms.{states_of};
ghost use Rattle.mon_rounds.specs.Changes.{changes_between, others_of, told_by, troubles_after};
ghost use Rattle.mon_rounds.specs.Kept.{kept_in};
ghost use Rattle.mon_rounds.specs.Orderly.{begun};
ghost use Rattle.mon_rounds.specs.Whole.{HasRun, IsWhole, view_of};
ghost use Rattle.mon_alarms.specs.Announcing.{announced_of};
ghost use Rattle.mon_rounds.specs.Totals.{changes_since};
ghost use Rattle.mon_station_commands.specs.Notifying.{AreAlarmsPut, AreTroublesPut, IfCarried, IsFilled};
ghost use Rattle.mon_station_commands.specs.Opening.{IsNoStation, last_of, unsaved_in};
ghost use Rattle.mon_station_commands.specs.Places.{IsNoSocket};
ghost use Rattle.mon_station_commands.specs.Rounds.{nothing_kept};
ghost use Rattle.mon_station_commands.specs.Spans.{AreAlarms, AreChanges, AreTroubles, AreTroublesOf, IsAccountOf, IsOfRun, IsOfSpan, IsReportOr, IsSavedAfter, IsSpanRun, IsTimedAt, IsTimedRun, is_round};
ghost use Rattle.mon_station_commands.specs.Steps.{SomeOr, only};
ghost use Rattle.mon_file_commands.specs.Line.{AreNoted};
ghost use Rattle.mon_station_commands.specs.Telling.{IsOpening, announced_notes, new_lines, start_lines};
ghost use Rattle.mon_station.specs.Seen.{seen};
ghost use Rattle.mon_station.specs.State.{state_of};

use crate::notifying::{Look, notify_alarms, notify_devices, seen_at};
use crate::opening::{or_socket_failure, unopened};
use crate::pace::{passed, wall_time};
use crate::printing::said;
use crate::showing::show_span;
use crate::snapshot::Snapshot;
use crate::telling::{Alarms, tell_alarms, tell_notices, tell_raised, tell_restarts};
use crate::troubles::{Facts, tell_troubles as say_troubles};
use mon_config::Core;
use mon_console::{Failure, SharedPrinting};
use mon_courier::Courier;
use mon_disk::{FileDisk, KeeperFault};
use mon_host::{Host, Level};
use mon_poller::Target;
use mon_rounds::{
    Addresses, Freshness, Notice, Receiver, RoundEvent, RoundReport, Rounds, Sends, SocketOutbox,
    Span, Spell, Totals, Troubles, other_engines, polled_targets,
};
use mon_settings::{StationSettings, greatest_tries};
use mon_station::{Outbox, Run, Station, StationFault};
use mon_web_receiver::Shows;
use std::alloc::{AllocError, Global};
use std::io;
use std::net::SocketAddr;
use std::time::{Instant, SystemTime};

/// What a running station works with.
pub(crate) struct Live<S: Receiver + Drop, O: Outbox + Drop> {
    pub(crate) station: Station<FileDisk>,
    pub(crate) transport: Transport<S, O>,
    /// What the last round, or the time after it, did.
    pub(crate) run: Run,
    pub(crate) course: Totals,
    pub(crate) freshness: Freshness,
    /// What was said to be wrong with targets, peers and instances.
    pub(crate) troubles: Troubles,
    /// What delivers notifications, if there is a receiver for them.
    pub(crate) courier: Option<Courier>,
    pub(crate) reports: Reports,
    /// When it was started.
    pub(crate) origin: Instant,
    /// When the last round, or the time after it, ended, in milliseconds since then.
    pub(crate) ended: u64,
    /// When that ended by the wall clock, in seconds since 1970-01-01 00:00:00 UTC.
    pub(crate) date: u64,
    pub(crate) kept: Kept,
}

// By hand: where one is let go, a proof has one call and not a drop of each field.
impl<S: Receiver + Drop, O: Outbox + Drop> Drop for Live<S, O> {
    fn drop(self) {
        let Live {
            station: _,
            transport: _,
            run: _,
            course: _,
            freshness: _,
            troubles: _,
            courier: _,
            reports: _,
            origin: _,
            ended: _,
            date: _,
            kept: _,
        } = self;
    }
}

/// What a station keeps of its last round, and of what failed in it or before it.
pub(crate) struct Kept {
    /// When the last round ended, in seconds since 1970 by the wall clock, if one did.
    pub(crate) round_at: Option<u64>,
    /// Why the last round's save failed, if it saved and that failed. The last of all rounds saves.
    pub(crate) unsaved: Option<KeeperFault>,
    /// Why a report that could not be printed between two rounds could not.
    pub(crate) unprinted: Option<Failure>,
    /// Why the last round's report could not be written to the file for it, if it could not.
    pub(crate) unwritten: Option<Failure>,
    /// `true` if the station's file was not at its path before the last round, and could not be
    /// made there.
    pub(crate) strayed: bool,
    /// When its settings were changed last, if that is known.
    pub(crate) settings_at: Option<SystemTime>,
    /// `true` if it ends since its settings changed.
    pub(crate) ends: bool,
}

impl Kept {
    /// Nothing is kept yet.
    fn nothing() -> Self
        ensures { result ≡ nothing_kept }
    {
        Kept {
            round_at: None,
            unsaved: None,
            unprinted: None,
            unwritten: None,
            strayed: false,
            settings_at: None,
            ends: false,
        }
    }
}

// By hand: where one is let go, a proof has one call and not a drop of each field.
impl Drop for Kept {
    fn drop(self) {
        let Kept {
            round_at: _,
            unsaved: _,
            unprinted: _,
            unwritten: _,
            strayed: _,
            settings_at: _,
            ends: _,
        } = self;
    }
}

/// What a station receives and sends by, and where its targets and peers are reached.
pub(crate) struct Transport<S: Receiver + Drop, O: Outbox + Drop> {
    pub(crate) rounds: Rounds<S>,
    pub(crate) outbox: O,
    pub(crate) addresses: Addresses,
    /// The station's own number.
    pub(crate) number: u32,
    pub(crate) peers: Vec<u32>,
    /// The engine ids of its targets, in their order.
    pub(crate) engines: Vec<Vec<u8>>,
    /// Of each instance the number of the target that is polled for it, from 0.
    pub(crate) polled: Vec<Option<u16>>,
}

// By hand: where one is let go, a proof has one call and not a drop of each field.
impl<S: Receiver + Drop, O: Outbox + Drop> Drop for Transport<S, O> {
    fn drop(self) {
        let Transport {
            rounds: _,
            outbox: _,
            addresses: _,
            number: _,
            peers: _,
            engines: _,
            polled: _,
        } = self;
    }
}

/// Which files a station writes.
#[derive(Drop)]
pub(crate) struct Paths {
    /// The file that each round's report is written to, if there is one.
    pub(crate) out: Option<String>,
    /// The station's own file.
    pub(crate) file: String,
}

/// How a station's reports are printed, which files it writes, from how many rounds without a new
/// sample on an instance is stale, in how many looks a change of an alarm has held before it is
/// announced, and how many seconds lie between two rounds.
pub(crate) struct Reports {
    /// The station's number.
    pub(crate) station: u32,
    pub(crate) printing: SharedPrinting,
    pub(crate) paths: Paths,
    pub(crate) stale_after: u32,
    pub(crate) alarm_after: u32,
    pub(crate) interval: u32,
    /// The buffer for reports as lines of text with names in numbers. It has its capacity from the
    /// station's start on, so that such a report needs no memory later; it grows if it must.
    pub(crate) lines: Vec<u8>,
}

// By hand: where one is let go, a proof has one call and not a drop of each field.
impl Drop for Reports {
    fn drop(self) {
        let Reports {
            station: _,
            printing: _,
            paths: _,
            stale_after: _,
            alarm_after: _,
            interval: _,
            lines: _,
        } = self;
    }
}

/// What a station is set up with: its settings, how it reports, and what delivers notifications, if
/// there is a receiver for them.
#[derive(Drop)]
pub(crate) struct Setup {
    pub(crate) settings: StationSettings,
    pub(crate) reports: Reports,
    pub(crate) courier: Option<Courier>,
}

/// Where a station keeps its windows and is reached, and since when.
#[derive(Drop)]
pub(crate) struct Place {
    pub(crate) disk: FileDisk,
    pub(crate) at: SocketAddr,
    pub(crate) origin: Instant,
}

/// Makes what the station of the settings receives and sends by, of this receiver over this socket.
pub(crate) fn open_transport<'a, W: Sends, S: Receiver + Drop>(
    alloc: Global,
    settings: &StationSettings,
    socket: &'a W,
    receiver: io::Result<S>,
) -> Result<Transport<S, SocketOutbox<'a, W>>, Failure>
    ensures failed { SomeOr (IsNoSocket settings.now.listen) result }
    ensures number { IfOk result (λ transport. transport.number ≡ settings.now.core.station) }
    ensures peers { IfOk result (λ transport. transport.peers.items ≡ settings.now.core.peers) }
    ensures engines { IfOk result (λ transport. length transport.engines.items
        ≡ length settings.now.core.targets) }
{
    let receiver = or_socket_failure(alloc, settings.listen, receiver)?;
    let outbox = SocketOutbox::new(socket, addresses_of(alloc, settings)?);
    Ok(make_transport(alloc, settings, receiver, outbox)?)
}

/// Returns the addresses of the settings' targets and peers.
fn addresses_of(alloc: Global, settings: &StationSettings) -> Result<Addresses, AllocError> {
    Addresses::of(alloc, &settings.core, settings.peer_addresses.as_slice())
}

/// Makes what the station of the settings receives and sends by.
pub(crate) fn make_transport<S: Receiver + Drop, O: Outbox + Drop>(
    alloc: Global,
    settings: &StationSettings,
    receiver: S,
    outbox: O,
) -> Result<Transport<S, O>, AllocError>
    ensures number { IfOk result (λ transport. transport.number ≡ settings.now.core.station) }
    ensures peers { IfOk result (λ transport. transport.peers.items ≡ settings.now.core.peers) }
    ensures engines { IfOk result (λ transport. length transport.engines.items
        ≡ length settings.now.core.targets) }
{
    let addresses = addresses_of(alloc, settings)?;
    let rounds = Rounds::new(
        alloc,
        addresses_of(alloc, settings)?,
        settings.wait_ms,
        greatest_tries(settings.core.targets()),
        receiver,
    )?;
    let peers = Vec::from_slice(alloc, settings.core.peers())?;
    let engines = engines_of(alloc, settings.core.targets())?;
    let polled = polled_targets(alloc, &settings.core)?;
    Ok(Transport {
        rounds,
        outbox,
        addresses,
        number: settings.core.station(),
        peers,
        engines,
        polled,
    })
}

/// Returns the engine ids of targets.
fn engines_of(alloc: Global, targets: &[Target]) -> Result<Vec<Vec<u8>>, AllocError>
    ensures { IfOk result (λ engines. length engines.items ≡ length targets.now) }
{
    let mut engines = Vec::with_capacity(alloc, targets.len())?;
    for target in targets {
        engines.push(Vec::from_slice(alloc, target.engine.as_slice())?)?;
    }
    Ok(engines)
}

/// Opens the station, and prints where it is and each alarm that its saved windows raise.
pub(crate) fn start_station<H: Host, S: Receiver + Drop, O: Outbox + Drop>(
    alloc: Global,
    host: &mut H,
    setup: Setup,
    place: Place,
    transport: Transport<S, O>,
) -> Result<Live<S, O>, Failure>
    ensures opening { GoesOnBy (λ log. IsOpening transport.number place.at
        (string_bytes setup.settings.file) (length transport.engines.items)
        (length transport.peers.items) setup.reports.printing log
        (only (λ live. state_of live.station.life) result)) (H.log host.old) (H.log host.new) }
    ensures reports { IfOk result (λ live. live.reports ≡ setup.reports) }
    ensures kept { IfOk result (λ live. live.kept ≡ nothing_kept) }
    ensures courier { IfOk result (λ live. live.courier ≡ setup.courier) }
    ensures announcer { IfOk result (λ live. live.course.announcer
        ≡ announcer_of setup.reports.alarm_after (states_of (state_of live.station.life).board)) }
{
    let Setup {
        settings,
        reports,
        courier,
    } = setup;
    let StationSettings { core, file, .. } = settings;
    let Place { disk, at, origin } = place;
    let station = open_station(alloc, core, disk, &file)?;
    let opened = watched(alloc, station, &transport, reports.alarm_after)?;
    tell_start(host, opened.station.incarnation(), &transport, at, &file);
    let live = Live {
        station: opened.station,
        transport,
        run: Run::new(alloc),
        course: opened.course,
        freshness: opened.freshness,
        troubles: Troubles::new(alloc),
        courier,
        reports,
        origin,
        ended: 0,
        date: 0,
        kept: Kept::nothing(),
    };
    tell_raised(alloc, host, &live)?;
    Ok(live)
}

/// Prints where a station is and what it polls, and what its peers need if its file is new.
fn tell_start<H: Host, S: Receiver + Drop, O: Outbox + Drop>(
    host: &mut H,
    incarnation: u32,
    transport: &Transport<S, O>,
    at: SocketAddr,
    file: &str,
)
    ensures { GoesOnBy (AreNoted (start_lines transport.now.number at incarnation file.now
        (length transport.now.engines.items) (length transport.now.peers.items)))
        (H.log host.old) (H.log host.new) }
{
    let number = transport.number;
    let (targets, peers) = (transport.engines.len(), transport.peers.len());
    host.note(
        Level::Info,
        format_args!(
            "snmpmon: station {number} at {at}, incarnation {incarnation}, file {file}, targets: {targets}, peers: {peers}\n"
        ),
    );
    if peers > 0 {
        tell_new(host, number, incarnation);
    }
}

/// Prints what the peers of a station need if its file is new, which its first incarnation says.
fn tell_new<H: Host>(host: &mut H, number: u32, incarnation: u32)
    ensures { GoesOnBy (AreNoted (new_lines number incarnation)) (H.log host.old) (H.log host.new) }
{
    if incarnation == 1 {
        host.note(
            Level::Warning,
            format_args!(
                "snmpmon: station {number} has a new file: a peer that knows it from before must be started again, or it offers nothing old\n"
            ),
        );
    }
}

/// Opens the station of these settings over the file's disk.
fn open_station(
    alloc: Global,
    core: Core,
    disk: FileDisk,
    file: &str,
) -> Result<Station<FileDisk>, Failure>
    ensures { IfErr result IsNoStation }
{
    match Station::open(alloc, core, disk) {
        Ok(station) => Ok(station),
        Err((fault, disk)) => Err(unopened(alloc, file, fault, &disk)),
    }
}

/// A station that was opened, and what is known of it then.
#[derive(Drop)]
struct Opened {
    station: Station<FileDisk>,
    course: Totals,
    freshness: Freshness,
}

/// Returns a station with what is known of it before its first round. A change of its alarms is
/// announced once it has held in `after` looks.
fn watched<S: Receiver + Drop, O: Outbox + Drop>(
    alloc: Global,
    station: Station<FileDisk>,
    transport: &Transport<S, O>,
    after: u32,
) -> Result<Opened, AllocError>
    ensures station { IfOk result (λ opened. opened.station ≡ station) }
    ensures announcer { IfOk result (λ opened. opened.course.announcer
        ≡ announcer_of after (states_of (state_of station.life).board)) }
{
    let (addresses, polled) = (&transport.addresses, transport.polled.as_slice());
    let course = Totals::new(alloc, station.board(), after)?;
    let freshness = Freshness::new(alloc, addresses, polled, station.board())?;
    Ok(Opened {
        station,
        course,
        freshness,
    })
}

/// Runs a round or the time after it, and prints its notices. If memory runs out that is reported,
/// and the station goes on.
pub(crate) fn run_span<H: Host, S: Shows<Snapshot> + Drop, O: Outbox + Drop>(
    alloc: Global,
    host: &mut H,
    live: &mut Live<S, O>,
    number: u32,
    span: Span,
) -> Result<(), Failure>
    ensures run { GoesOnBy (λ log. IsSpanRun (IsOfSpan span live.old.transport.rounds.round.saves
        live.new.transport.rounds.round.targets live.new.transport.rounds.round.events live.new.run)
        (announced_notes live.old.reports.printing number
        (state_of live.new.station.life).board (map (λ w. w.items) live.old.course.windows.items)
        live.old.course.announcer)
        number (is_round span) live.old.kept live.new.kept log result) (H.log host.old) (H.log host.new) }
    // Of notifications nothing is done except that texts are put for the receiver.
    ensures texts { IfCarried IsFilled live.old.courier live.new.courier }
    ensures printing { live.new.reports.printing ≡ live.old.reports.printing }
    ensures paths { live.new.reports.paths ≡ live.old.reports.paths }
{
    let ran = run_timed(alloc, host, live, span)?;
    let told = report_run(alloc, host, live, number, ran);
    let _ = said(host, told);
    show_span(alloc, live, number, span);
    Ok(())
}

/// Runs a round or the time after it, and returns which it was and how long it took.
fn run_timed<H: Host, S: Receiver + Drop, O: Outbox + Drop>(
    alloc: Global,
    host: &mut H,
    live: &mut Live<S, O>,
    span: Span,
) -> Result<Result<Spell, StationFault>, Failure>
    ensures timed { GoesOnBy (λ log. IsTimedRun (is_round span) live.old.kept.round_at
        live.new.kept.round_at
        log result) (H.log host.old) (H.log host.new) }
    // The station was given the events of a whole round, or what came between two, and answered
    // them so.
    ensures ran { IfOk result (λ ran. OnOk ran (HasRun
        (IsWhole span live.old.transport.rounds.round live.new.transport.rounds.round)
        (seen live.old.station (view_of (begun span live.old.transport.rounds.round)
        (S.log live.old.transport.rounds.receiver) (kept_in live.old.transport.rounds.latest))
        (O.log live.old.transport.outbox))
        (seen live.new.station (view_of live.new.transport.rounds.round
        (S.log live.new.transport.rounds.receiver) (kept_in live.new.transport.rounds.latest))
        (O.log live.new.transport.outbox)) live.new.run)) }
    // When it ended is what the clocks gave.
    ensures at { IfOk result (λ ran. GoesOnBy (IsTimedAt live.old.origin live.new.ended
        live.new.date) (H.log host.old) (H.log host.new)) }
    ensures span { IfOk result (λ ran. IfOk ran (λ spell. spell.span ≡ span)) }
    ensures fault { IfOk result (λ ran. IfErr ran (λ fault. fault ≡ StationFault.OutOfMemory)) }
    ensures courier { live.new.courier ≡ live.old.courier }
    ensures printing { live.new.reports.printing ≡ live.old.reports.printing }
    ensures paths { live.new.reports.paths ≡ live.old.reports.paths }
    ensures kept { live.new.kept ≡ record live.old.kept { round_at = live.new.kept.round_at } }
    ensures course { live.new.course ≡ live.old.course }
{
    let began = passed(alloc, host, live.origin)?;
    let ran = live.transport.rounds.run(
        alloc,
        &mut live.station,
        &mut live.transport.outbox,
        span,
        &mut live.run,
    );
    live.ended = passed(alloc, host, live.origin)?;
    let date = wall_time(alloc, host)?;
    live.date = date / 1000;
    live.kept.round_at = round_after(span, date, live.kept.round_at);
    let spell = Spell {
        span,
        ended: live.ended,
        took: live.ended.saturating_sub(began),
        interval: u64::from(live.reports.interval) * 1000,
    };
    match ran {
        Ok(()) => Ok(Ok(spell)),
        Err(fault) => Ok(Err(fault)),
    }
}

/// Returns when the last round ended, in seconds since 1970, after what ended at this time in
/// milliseconds since 1970.
fn round_after(span: Span, date: u64, before: Option<u64>) -> Option<u64>
    ensures whole { span ≡ Span.Round → result ≡ Some (date / 1000) }
    ensures between { (ms : ℕ) → span ≡ Span.Between ms → result ≡ before }
{
    match span {
        Span::Round => Some(date / 1000),
        Span::Between(_) => before,
    }
}

/// Adds what was run to what is known of the station, and prints its notices; or returns why
/// nothing was run.
fn report_run<H: Host, S: Receiver + Drop, O: Outbox + Drop>(
    alloc: Global,
    host: &mut H,
    live: &mut Live<S, O>,
    number: u32,
    ran: Result<Spell, StationFault>,
) -> Result<(), Failure>
    ensures account { GoesOnBy (λ log. IsAccountOf ran (IsOfRun
        live.old.transport.rounds.round.targets
        live.old.transport.rounds.round.events live.old.run) (announced_notes live.old.reports.printing number
        (state_of live.old.station.life).board (map (λ w. w.items) live.old.course.windows.items)
        live.old.course.announcer)
        number live.old.kept.unsaved live.new.kept.unsaved log result) (H.log host.old) (H.log host.new) }
    ensures texts { IfCarried IsFilled live.old.courier live.new.courier }
    ensures printing { live.new.reports.printing ≡ live.old.reports.printing }
    ensures paths { live.new.reports.paths ≡ live.old.reports.paths }
    ensures kept { live.new.kept ≡ record live.old.kept { unsaved = live.new.kept.unsaved } }
    ensures round { live.new.transport.rounds.round ≡ live.old.transport.rounds.round }
    ensures ran { live.new.run ≡ live.old.run }
    ensures station { live.new.station ≡ live.old.station }
{
    match ran {
        Ok(spell) => report_round(alloc, host, live, number, spell),
        Err(fault) => Err(Failure::from(fault)),
    }
}

/// Adds what a round did to what is known of the station, and prints its notices.
fn report_round<H: Host, S: Receiver + Drop, O: Outbox + Drop>(
    alloc: Global,
    host: &mut H,
    live: &mut Live<S, O>,
    number: u32,
    spell: Spell,
) -> Result<(), Failure>
    ensures account { GoesOnBy (λ log. IsReportOr (IsOfRun live.old.transport.rounds.round.targets
        live.old.transport.rounds.round.events live.old.run) (announced_notes live.old.reports.printing number
        (state_of live.old.station.life).board (map (λ w. w.items) live.old.course.windows.items)
        live.old.course.announcer)
        number (is_round spell.span) live.old.kept.unsaved live.new.kept.unsaved log result)
        (H.log host.old) (H.log host.new) }
    ensures texts { IfCarried IsFilled live.old.courier live.new.courier }
    ensures printing { live.new.reports.printing ≡ live.old.reports.printing }
    ensures paths { live.new.reports.paths ≡ live.old.reports.paths }
    ensures kept { live.new.kept ≡ record live.old.kept { unsaved = live.new.kept.unsaved } }
    ensures round { live.new.transport.rounds.round ≡ live.old.transport.rounds.round }
    ensures ran { live.new.run ≡ live.old.run }
    ensures station { live.new.station ≡ live.old.station }
{
    let report = RoundReport::of(alloc, live.transport.rounds.round(), &live.run)?;
    live.course.add(&report);
    live.freshness.add(spell, &report, live.station.board());
    tell_notices(host, live, number, &report);
    tell_restarts(host, number, live.freshness.targets());
    live.kept.unsaved = unsaved_after(live.kept.unsaved, spell.span, &report);
    tell_changes(alloc, host, live, number, spell.span)
}

/// Returns why the save of the last round failed, if it saved and that failed, after this report.
fn unsaved_after(
    before: Option<KeeperFault>,
    span: Span,
    report: &RoundReport,
) -> Option<KeeperFault>
    ensures { IsSavedAfter (is_round span) report.now before result }
{
    match span {
        Span::Round => save_fault(report),
        Span::Between(_) => before,
    }
}

/// Prints what changed in a round or after it: troubles, and what is announced of alarms.
fn tell_changes<H: Host, S: Receiver + Drop, O: Outbox + Drop>(
    alloc: Global,
    host: &mut H,
    live: &mut Live<S, O>,
    number: u32,
    span: Span,
) -> Result<(), Failure>
    ensures said { GoesOnBy (λ log. AreChanges (announced_notes live.old.reports.printing number
        (state_of live.old.station.life).board (map (λ w. w.items) live.old.course.windows.items)
        live.old.course.announcer) number
        (is_round span) log result) (H.log host.old) (H.log host.new) }
    ensures texts { IfCarried IsFilled live.old.courier live.new.courier }
    ensures printing { live.new.reports.printing ≡ live.old.reports.printing }
    ensures paths { live.new.reports.paths ≡ live.old.reports.paths }
    ensures kept { live.new.kept ≡ live.old.kept }
    ensures round { live.new.transport.rounds.round ≡ live.old.transport.rounds.round }
    ensures ran { live.new.run ≡ live.old.run }
    ensures station { live.new.station ≡ live.old.station }
{
    tell_troubles(alloc, host, live, number, span)?;
    tell_alarm_changes(alloc, host, live, number, is_round(span))
}

/// Returns `true` if a span is a round, and not the time between two.
fn is_round(span: Span) -> bool
    ensures { result ≡ is_round span }
{
    match span {
        Span::Round => true,
        Span::Between(_) => false,
    }
}

/// Prints what is announced of the alarms, at a look or between two.
fn tell_alarm_changes<H: Host, S: Receiver + Drop, O: Outbox + Drop>(
    alloc: Global,
    host: &mut H,
    live: &mut Live<S, O>,
    number: u32,
    looks: bool,
) -> Result<(), Failure>
    ensures said { GoesOnBy (λ log. AreAlarms (announced_notes live.old.reports.printing number
        (state_of live.old.station.life).board (map (λ w. w.items) live.old.course.windows.items)
        live.old.course.announcer looks) log result)
        (H.log host.old) (H.log host.new) }
    // Of each a notice is put for the receiver, if there is one.
    ensures notified { OnOk result (AreAlarmsPut live.old.reports.printing live.old.reports.station
        live.old.date (state_of live.old.station.life).board
        (announced_of looks (changes_since (state_of live.old.station.life).board
        (map (λ w. w.items) live.old.course.windows.items)) live.old.course.announcer)
        live.old.courier live.new.courier) }
    ensures texts { IfCarried IsFilled live.old.courier live.new.courier }
    ensures printing { live.new.reports.printing ≡ live.old.reports.printing }
    ensures paths { live.new.reports.paths ≡ live.old.reports.paths }
    ensures kept { live.new.kept ≡ live.old.kept }
    ensures round { live.new.transport.rounds.round ≡ live.old.transport.rounds.round }
    ensures ran { live.new.run ≡ live.old.run }
    ensures station { live.new.station ≡ live.old.station }
{
    let board = live.station.board();
    let changes = live.course.take_changes(alloc, board, looks)?;
    let look = Look {
        board,
        printing: &live.reports.printing,
        seen: seen_at(live.reports.station, live.date),
    };
    // First, so that each is put also if there is no memory for a line.
    let put = notify_alarms(alloc, &mut live.courier, look, changes.as_slice());
    let alarms = Alarms {
        board,
        printing: &live.reports.printing,
        round: Some(number),
    };
    tell_alarms(alloc, host, alarms, changes.as_slice())?;
    Ok(put?)
}

/// Prints the troubles that begin or end, after a round.
fn tell_troubles<H: Host, S: Receiver + Drop, O: Outbox + Drop>(
    alloc: Global,
    host: &mut H,
    live: &mut Live<S, O>,
    number: u32,
    span: Span,
) -> Result<(), Failure>
    ensures said { GoesOnBy (λ log. AreTroubles (is_round span) number log result) (H.log host.old)
        (H.log host.new) }
    ensures texts { IfCarried IsFilled live.old.courier live.new.courier }
    ensures printing { live.new.reports.printing ≡ live.old.reports.printing }
    ensures paths { live.new.reports.paths ≡ live.old.reports.paths }
    ensures kept { live.new.kept ≡ live.old.kept }
    ensures round { live.new.transport.rounds.round ≡ live.old.transport.rounds.round }
    ensures ran { live.new.run ≡ live.old.run }
    ensures station { live.new.station ≡ live.old.station }
    ensures course { live.new.course ≡ live.old.course }
{
    match span {
        Span::Round => report_troubles(alloc, host, live, number),
        Span::Between(_) => Ok(()),
    }
}

/// Prints what went wrong with targets, peers and instances in a round, and what is right again.
fn report_troubles<H: Host, S: Receiver + Drop, O: Outbox + Drop>(
    alloc: Global,
    host: &mut H,
    live: &mut Live<S, O>,
    number: u32,
) -> Result<(), Failure>
    ensures said { GoesOnBy (λ log. AreTroublesOf live.old.freshness number
        (changes_between (told_by live.old.troubles)
        (troubles_after live.old.reports.stale_after (told_by live.old.troubles)
        (others_of live.old.transport.rounds.latest.datagrams.items live.old.freshness.targets.items
        live.old.transport.engines.items (length live.old.freshness.targets.items)) live.old.freshness))
        log result) (H.log host.old) (H.log host.new) }
    // A notice of each device that is down or up again is put for the receiver, if there is one.
    ensures notified { OnOk result (AreTroublesPut live.old.reports.printing
        live.old.reports.station live.old.date live.old.freshness.targets.items
        (changes_between (told_by live.old.troubles)
        (troubles_after live.old.reports.stale_after (told_by live.old.troubles)
        (others_of live.old.transport.rounds.latest.datagrams.items live.old.freshness.targets.items
        live.old.transport.engines.items (length live.old.freshness.targets.items))
        live.old.freshness)) live.old.courier live.new.courier) }
    ensures texts { IfCarried IsFilled live.old.courier live.new.courier }
    ensures printing { live.new.reports.printing ≡ live.old.reports.printing }
    ensures paths { live.new.reports.paths ≡ live.old.reports.paths }
    ensures kept { live.new.kept ≡ live.old.kept }
    ensures round { live.new.transport.rounds.round ≡ live.old.transport.rounds.round }
    ensures ran { live.new.run ≡ live.old.run }
    ensures station { live.new.station ≡ live.old.station }
    ensures course { live.new.course ≡ live.old.course }
{
    let limit = live.reports.stale_after;
    let latest = live.transport.rounds.latest();
    let engines = live.transport.engines.as_slice();
    let others = other_engines(alloc, latest, live.freshness.targets(), engines)?;
    let changes = live
        .troubles
        .take_changes(alloc, &live.freshness, others, limit)?;
    let board = live.station.board();
    let printing = &live.reports.printing;
    let facts = Facts {
        freshness: &live.freshness,
        engines,
        latest,
        board,
        printing,
    };
    let look = Look {
        board,
        printing,
        seen: seen_at(live.reports.station, live.date),
    };
    let targets = facts.freshness.targets();
    // First, so that each is put also if there is no memory for a line.
    let put = notify_devices(alloc, &mut live.courier, targets, look, changes.as_slice());
    say_troubles(alloc, host, facts, number, changes.as_slice())?;
    Ok(put?)
}

/// Returns why the save of a report's round failed, if it did.
fn save_fault(report: &RoundReport) -> Option<KeeperFault>
    ensures some { is_some result ≡ is_some (unsaved_in (last_of report.now.notices.items)) }
    ensures which { IfSome result (λ fault. IfSome (unsaved_in (last_of report.now.notices.items))
        (λ number. 1 ≤ number → number ≤ 6 → number_of fault ≡ number)) }
{
    match report.notices.as_slice().last() {
        Some(Notice::NotSaved(number)) => Some(keeper_fault(*number)),
        Some(Notice::NoMemory(RoundEvent::Save)) => Some(KeeperFault::OutOfMemory),
        _ => None,
    }
}

/// Returns the keeper's fault of this number.
fn keeper_fault(number: u8) -> KeeperFault
    ensures { 1 ≤ number → number ≤ 6 → number_of result ≡ number }
{
    match number {
        1 => KeeperFault::OutOfMemory,
        2 => KeeperFault::DiskFault,
        3 => KeeperFault::NoMoreGenerations,
        4 => KeeperFault::TooLarge,
        5 => KeeperFault::Damaged,
        6 => KeeperFault::Reopen,
        _ => KeeperFault::DiskFault,
    }
}
