//! When a station's rounds begin.

ghost use Rattle.std.specs.Prelude.{◌≡◌, ◌*◌, ◌%◌, ◌≤◌, ◌-◌, ℕ, [], IfOk, None, Some, length};
ghost use Rattle.mon_host.specs.declared.level.Level.TheVariants.{Info};
ghost use Rattle.mon_host.specs.AtHost.{IsNoted};
ghost use Rattle.mon_host.specs.Log.{GoesOnBy};
ghost use Rattle.mon_rounds.specs.Grid.{share_of};
ghost use Rattle.mon_station_commands.specs.Notifying.{HasTurn, IsServed};
ghost use Rattle.mon_station_commands.specs.Pace.{IsDate, IsPassed, IsTime, IsWait};
ghost use Rattle.mon_file_commands.specs.Line.{AreNoted};
ghost use Rattle.mon_station_commands.specs.Telling.{first_line, outrun_lines};

use crate::live::{Live, Transport, run_span};
use crate::notifying::{deliver, until_turn};
use crate::snapshot::Snapshot;
use mon_cli::Timing;
use mon_console::Failure;
use mon_host::{Host, Level};
use mon_rounds::{Receiver, Span, left_of, milliseconds, next_start, phase_of};
use mon_station::Outbox;
use mon_web_receiver::Shows;
use std::alloc::Global;
use std::net::Net;
use std::time::{Duration, Instant, UNIX_EPOCH};

/// When rounds begin, in milliseconds since the station was started: at the first start and whole
/// intervals after it.
#[derive(Clone, Copy)]
pub(crate) struct Pace {
    first: u64,
    interval: u64,
    /// When the last round was due.
    due: u64,
}

/// How often a station goes on receiving between two rounds, at most.
const MAX_RESTS: u32 = u32::MAX;

/// Returns when the rounds begin, the first one now. With a phase it waits for that by the wall
/// clock; so does a station with peers for its share of the interval, so that they poll one after
/// another. Until then it answers its peers.
pub(crate) fn start_pace<
    R: Net + AllocGlobal,
    H: Host,
    S: Shows<Snapshot> + Drop,
    O: Outbox + Drop,
>(rt: &R, host: &mut H, live: &mut Live<S, O>, timing: Timing) -> Result<Pace, Failure>
    ensures quiet { GoesOnBy (λ log. IsWait log result) (H.log host.old) (H.log host.new) }
    ensures printing { live.new.reports.printing ≡ live.old.reports.printing }
    ensures paths { live.new.reports.paths ≡ live.old.reports.paths }
    ensures kept { live.new.kept ≡ live.old.kept }
{
    let alloc = rt.alloc();
    let interval = u64::from(timing.interval) * 1000;
    let left = match phase(&live.transport, timing) {
        Some(phase) if interval > 0 => {
            let time = wall_time(alloc, host)?;
            next_start(time, interval, phase).saturating_sub(time)
        }
        _ => 0,
    };
    let first = passed(alloc, host, live.origin)?.saturating_add(left);
    let pace = Pace {
        first,
        interval,
        due: first,
    };
    if left > 0 {
        tell_first(host, left);
        pause(rt, host, live, 1, pace)?;
    }
    Ok(pace)
}

/// Reports in how many milliseconds the first round begins.
fn tell_first<H: Host>(host: &mut H, left: u64)
    ensures { GoesOnBy (IsNoted Info (Some (first_line left))) (H.log host.old) (H.log host.new) }
{
    let (seconds, tenths) = (left / 1000, left % 1000 / 100);
    host.note(
        Level::Info,
        format_args!("snmpmon: the first round begins in {seconds}.{tenths} s\n"),
    );
}

/// Returns how many milliseconds after whole intervals of the wall clock rounds begin, if they keep
/// to it: as the arguments say, or else by the station's number among its peers. (It has 15 at
/// most.)
fn phase<S: Receiver + Drop, O: Outbox + Drop>(
    transport: &Transport<S, O>,
    timing: Timing,
) -> Option<u64>
    ensures at_once { timing.interval ≡ 0 → result ≡ None }
    ensures given { (phase : ℕ) → 1 ≤ timing.interval → timing.phase ≡ Some phase
        → result ≡ Some (phase % timing.interval * 1000) }
    ensures single { timing.phase ≡ None → transport.now.peers.items ≡ [] → result ≡ None }
    ensures shared { 1 ≤ timing.interval → timing.phase ≡ None
        → 1 ≤ length transport.now.peers.items → length transport.now.peers.items ≤ 15
        → result ≡ Some (share_of transport.now.number transport.now.peers.items
        (timing.interval * 1000)) }
{
    let peers = transport.peers.as_slice();
    if timing.interval == 0 {
        return None;
    }
    match timing.phase {
        Some(phase) => Some(u64::from(phase % timing.interval) * 1000),
        None if peers.is_empty() || peers.len() > 15 => None,
        None => Some(phase_of(transport.number, peers, u64::from(timing.interval) * 1000)),
    }
}

/// Hands the station what comes until the round after this one begins, and delivers notifications
/// meanwhile. Returns when that round was due.
pub(crate) fn wait_for_next<
    R: Net + AllocGlobal,
    H: Host,
    S: Shows<Snapshot> + Drop,
    O: Outbox + Drop,
>(rt: &R, host: &mut H, live: &mut Live<S, O>, number: u32, pace: Pace) -> Result<Pace, Failure>
    ensures quiet { GoesOnBy (λ log. IsWait log result) (H.log host.old) (H.log host.new) }
    // What delivers notifications has a turn whenever time has gone by, and at once where no time
    // lies between two rounds.
    ensures served { IfOk result (λ pace. IsServed live.old.ended live.new.ended live.old.courier
        live.new.courier) }
    ensures ready { pace.interval ≡ 0 → GoesOnBy (HasTurn live.old.ended live.old.courier
        live.new.courier) (H.log host.old) (H.log host.new) }
    ensures printing { live.new.reports.printing ≡ live.old.reports.printing }
    ensures paths { live.new.reports.paths ≡ live.old.reports.paths }
    ensures kept { live.new.kept ≡ live.old.kept }
{
    if pace.interval == 0 {
        deliver(rt, host, live);
        return Ok(pace);
    }
    let passed = passed(rt.alloc(), host, live.origin)?;
    tell_outrun(host, number, pace, passed);
    let due = next_start(passed.max(pace.due), pace.interval, pace.first);
    let pace = Pace { due, ..pace };
    pause(rt, host, live, number, pace)?;
    Ok(pace)
}

/// Reports a round that took longer than the interval.
fn tell_outrun<H: Host>(host: &mut H, number: u32, pace: Pace, passed: u64)
    ensures { GoesOnBy (AreNoted (outrun_lines number (passed - pace.due) pace.interval))
        (H.log host.old) (H.log host.new) }
{
    let took = passed.saturating_sub(pace.due);
    if took > pace.interval {
        let (seconds, tenths) = (took / 1000, took % 1000 / 100);
        let interval = pace.interval / 1000;
        host.note(
            Level::Warning,
            format_args!("snmpmon: round {number} took {seconds}.{tenths} s of {interval} s\n"),
        );
    }
}

/// Hands the station what comes until the next round is due, and delivers notifications meanwhile.
fn pause<R: Net + AllocGlobal, H: Host, S: Shows<Snapshot> + Drop, O: Outbox + Drop>(
    rt: &R,
    host: &mut H,
    live: &mut Live<S, O>,
    number: u32,
    pace: Pace,
) -> Result<(), Failure>
    ensures quiet { GoesOnBy (λ log. IsWait log result) (H.log host.old) (H.log host.new) }
    ensures served { IfOk result (λ done. IsServed live.old.ended live.new.ended live.old.courier
        live.new.courier) }
    ensures printing { live.new.reports.printing ≡ live.old.reports.printing }
    ensures paths { live.new.reports.paths ≡ live.old.reports.paths }
    ensures kept { live.new.kept ≡ live.old.kept }
{
    let alloc = rt.alloc();
    let due = Duration::from_millis(pace.due);
    for _ in 0..MAX_RESTS {
        let left = left_of(due, now(alloc, host)?.duration_since(live.origin));
        if left == 0 {
            return Ok(());
        }
        let rest = left.min(until_turn(live));
        run_span(alloc, host, live, number, Span::Between(rest))?;
        deliver(rt, host, live);
    }
    Ok(())
}

/// Returns the milliseconds since the station was started.
pub(crate) fn passed<H: Host>(alloc: Global, host: &mut H, origin: Instant) -> Result<u64, Failure>
    ensures { GoesOnBy (λ log. IsPassed origin log result) (H.log host.old) (H.log host.new) }
{
    Ok(milliseconds(now(alloc, host)?.duration_since(origin)))
}

/// Returns the time.
pub(crate) fn now<H: Host>(alloc: Global, host: &mut H) -> Result<Instant, Failure>
    ensures { GoesOnBy (λ log. IsTime log result) (H.log host.old) (H.log host.new) }
{
    match host.time() {
        Ok(now) => Ok(now),
        Err(reason) => Err(Failure::stream(alloc, "the clock", reason)),
    }
}

/// Returns the milliseconds since 1970 by the wall clock.
pub(crate) fn wall_time<H: Host>(alloc: Global, host: &mut H) -> Result<u64, Failure>
    ensures { GoesOnBy (λ log. IsDate log result) (H.log host.old) (H.log host.new) }
{
    match host.date() {
        Ok(now) => Ok(milliseconds(now.duration_since(UNIX_EPOCH).unwrap_or(Duration::ZERO))),
        Err(reason) => Err(Failure::stream(alloc, "the clock", reason)),
    }
}
