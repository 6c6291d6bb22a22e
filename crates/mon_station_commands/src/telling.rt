//! What a running station says on standard error.

ghost use Rattle.std.specs.Prelude.{◌≡◌, ◌+◌, ◌++◌, ◌∷◌, [], None, Some, map, slice_get};
ghost use Rattle.std.specs.List.{flat_map};
ghost use Rattle.mon_host.specs.AtHost.{IsNoted};
ghost use Rattle.mon_host.specs.Log.{GoesOnBy};
ghost use Rattle.mon_station.specs.State.{state_of};
ghost use Rattle.mon_file_commands.specs.Line.{AreNoted, stated};
ghost use Rattle.mon_station_commands.specs.Telling.{AreSaid, alarm_level, alarm_note, last_stray, line_in, notice_lines, plural, raised_notes, response_lines, restart_level, restart_line, restart_lines, round_lines, stray_lines, strays_in, unreceived_lines, unsaved_line, unsent_lines};

use crate::live::Live;
use mon_alarms::{AlarmChange, AlarmEvent};
use mon_board::Board;
use mon_console::SharedPrinting;
use mon_disk::KeeperFault;
use mon_host::{Host, Level};
use mon_poller::ResponseFault;
use mon_report::raised_alarms;
use mon_rounds::{Addresses, Notice, Receiver, Restart, RoundReport, TargetAge};
use mon_station::{Outbox, StationFault};
use mon_udp::Addr;
use std::alloc::{AllocError, Global};

/// Prints the notices of a round, a line each, and what else went wrong in it.
pub(crate) fn tell_notices<H: Host, S: Receiver + Drop, O: Outbox + Drop>(
    host: &mut H,
    live: &Live<S, O>,
    round: u32,
    report: &RoundReport,
)
    ensures { GoesOnBy (AreNoted (round_lines round report.now))
        (H.log host.old) (H.log host.new) }
{
    let notices = report.notices.as_slice();
    tell_each(host, live, round, notices);
    let (count, last) = strays_in(notices);
    tell_strays(host, round, count, last);
    tell_unreceived(host, round, report.source_faults);
    tell_unsent(host, round, report.send_faults);
}

/// Prints the line of each notice that has one.
fn tell_each<H: Host, S: Receiver + Drop, O: Outbox + Drop>(
    host: &mut H,
    live: &Live<S, O>,
    round: u32,
    notices: &[Notice],
)
    ensures { GoesOnBy (AreNoted (flat_map (notice_lines round) notices.now))
        (H.log host.old) (H.log host.new) }
{
    for notice in notices {
        tell_notice(host, live, round, *notice);
    }
}

/// Prints the line of a notice, if it has one. What stays wrong is said once, as a change, and the
/// responses from addresses of no target are one line.
fn tell_notice<H: Host, S: Receiver + Drop, O: Outbox + Drop>(
    host: &mut H,
    live: &Live<S, O>,
    round: u32,
    notice: Notice,
)
    ensures { GoesOnBy (AreNoted (notice_lines round notice))
        (H.log host.old) (H.log host.new) }
{
    match notice {
        Notice::GaveUp(_) => {}
        Notice::Astray(_) => {}
        Notice::NotPolled(target, fault) => {
            let at = shown_target(&live.transport.addresses, target);
            let number = u32::from(target) + 1;
            host.note(
                Level::Warning,
                format_args!(
                    "snmpmon: round {round}: target {number} at {at} was not polled: {fault}\n"
                ),
            );
        }
        Notice::BadResponse(from, fault) => tell_response(host, round, from, fault),
        Notice::BadClaim(from, fault) => host.note(
            Level::Warning,
            format_args!("snmpmon: round {round}: from peer {from}: {fault}\n"),
        ),
        Notice::NotShared(peer, fault) => host.note(
            Level::Warning,
            format_args!("snmpmon: round {round}: station {peer} was offered nothing: {fault}\n"),
        ),
        Notice::NoMemory(_) => host.note(
            Level::Warning,
            format_args!("snmpmon: round {round}: out of memory\n"),
        ),
        Notice::NotSaved(number) => tell_unsaved(host, live, round, number),
    }
}

/// Prints that a response was refused, except if another engine than the target's answered, or if
/// it came too late: these are said as changes.
fn tell_response<H: Host>(host: &mut H, round: u32, from: Addr, fault: StationFault)
    ensures { GoesOnBy (AreNoted (response_lines fault))
        (H.log host.old) (H.log host.new) }
{
    match fault {
        StationFault::Response(ResponseFault::OtherEngine | ResponseFault::Stray) => {}
        _ => host.note(
            Level::Warning,
            format_args!("snmpmon: round {round}: from target {from}: {fault}\n"),
        ),
    }
}

/// Prints that the windows were not saved, with the system's reason if the disk failed.
fn tell_unsaved<H: Host, S: Receiver + Drop, O: Outbox + Drop>(
    host: &mut H,
    live: &Live<S, O>,
    round: u32,
    number: u8,
)
    ensures { GoesOnBy (AreNoted (unsaved_line round number ∷ []))
        (H.log host.old) (H.log host.new) }
{
    if number != KeeperFault::DiskFault.number() {
        host.note(
            Level::Error,
            format_args!("snmpmon: round {round}: not saved, mon_disk {number}\n"),
        );
        return;
    }
    match live.station.disk().last_error() {
        Some(error) => host.note(
            Level::Error,
            format_args!("snmpmon: round {round}: not saved, mon_disk {number}: {error}\n"),
        ),
        None => host.note(
            Level::Error,
            format_args!("snmpmon: round {round}: not saved, mon_disk {number}\n"),
        ),
    }
}

/// Returns how many responses to open polls came from addresses that are no target's, and the last
/// of these.
fn strays_in(notices: &[Notice]) -> (u32, Option<Addr>)
    ensures count { result.0 ≡ strays_in notices.now }
    ensures last { result.1 ≡ last_stray notices.now }
{
    let mut count: u32 = 0;
    let mut last = None;
    for notice in notices {
        if let Notice::Astray(from) = *notice {
            count = count.saturating_add(1);
            last = Some(from);
        }
    }
    (count, last)
}

/// Prints how many responses came from addresses of no target, and the last of these, if any did.
fn tell_strays<H: Host>(host: &mut H, round: u32, count: u32, last: Option<Addr>)
    ensures { GoesOnBy (AreNoted (stray_lines round count last))
        (H.log host.old) (H.log host.new) }
{
    if let Some(from) = last {
        let end = plural(u64::from(count));
        host.note(
            Level::Warning,
            format_args!(
                "snmpmon: round {round}: {count} response{end} came from addresses of no target, the last from {from}\n"
            ),
        );
    }
}

/// Prints how often nothing could be received, if that was so.
fn tell_unreceived<H: Host>(host: &mut H, round: u32, count: u64)
    ensures { GoesOnBy (AreNoted (unreceived_lines round count))
        (H.log host.old) (H.log host.new) }
{
    if count != 0 {
        let end = plural(count);
        host.note(
            Level::Warning,
            format_args!("snmpmon: round {round}: nothing could be received, {count} time{end}\n"),
        );
    }
}

/// Prints how many datagrams could not be sent, if there were any.
fn tell_unsent<H: Host>(host: &mut H, round: u32, count: u64)
    ensures { GoesOnBy (AreNoted (unsent_lines round count))
        (H.log host.old) (H.log host.new) }
{
    if count != 0 {
        let end = plural(count);
        host.note(
            Level::Warning,
            format_args!("snmpmon: round {round}: {count} datagram{end} could not be sent\n"),
        );
    }
}

/// Prints of each target whose agent restarted that it did, a line each.
pub(crate) fn tell_restarts<H: Host>(host: &mut H, round: u32, targets: &[TargetAge])
    ensures { GoesOnBy (AreNoted (flat_map (restart_lines round) targets.now))
        (H.log host.old) (H.log host.new) }
{
    for target in targets {
        tell_restart(host, round, target);
    }
}

/// Prints that a target's agent restarted, if it did.
fn tell_restart<H: Host>(host: &mut H, round: u32, target: &TargetAge)
    ensures { GoesOnBy (AreNoted (restart_lines round target.now))
        (H.log host.old) (H.log host.new) }
{
    match target.clock.restart {
        None => {}
        Some(restart) => tell_boots(host, round, target, restart),
    }
}

/// Prints that a target's agent restarted with this number of boots, and until when its samples are
/// too old if it did not raise them.
fn tell_boots<H: Host>(host: &mut H, round: u32, target: &TargetAge, restart: Restart)
    ensures { GoesOnBy (AreNoted (stated (restart_level restart.until) (restart_line round
        (target.now.number + 1) target.now.address restart.boots restart.until) ∷ []))
        (H.log host.old) (H.log host.new) }
{
    let (number, at) = (u32::from(target.number) + 1, target.address);
    let boots = restart.boots;
    match restart.until {
        None => host.note(
            Level::Info,
            format_args!(
                "snmpmon: round {round}: target {number} at {at} restarted: boots {boots}\n"
            ),
        ),
        Some(time) => host.note(
            Level::Warning,
            format_args!(
                "snmpmon: round {round}: target {number} at {at} restarted without raising its boots: its samples are too old until its time is past {time}\n"
            ),
        ),
    }
}

/// The address of a target.
fn shown_target(addresses: &Addresses, target: u16) -> Addr
    ensures { (at : Addr) → slice_get addresses.now.targets.items target ≡ Some at → result ≡ at }
{
    addresses.target(target).unwrap_or(Addr {
        octets: [0; 4],
        port: 0,
    })
}

/// Prints each alarm that is raised.
pub(crate) fn tell_raised<H: Host, S: Receiver + Drop, O: Outbox + Drop>(
    alloc: Global,
    host: &mut H,
    live: &Live<S, O>,
) -> Result<(), AllocError>
    ensures { GoesOnBy (λ log. AreSaid
        (raised_notes live.now.reports.printing (state_of live.now.station.life).board)
        log result) (H.log host.old) (H.log host.new) }
{
    let board = live.station.board();
    let raised = raised_alarms(alloc, board)?;
    let alarms = Alarms {
        board,
        printing: &live.reports.printing,
        round: None,
    };
    tell_alarms(alloc, host, alarms, raised.as_slice())
}

/// The board of alarms, how their lines are printed, and in which round they changed, if in one.
#[derive(Clone, Copy)]
pub(crate) struct Alarms<'a> {
    pub(crate) board: &'a Board,
    pub(crate) printing: &'a SharedPrinting,
    pub(crate) round: Option<u32>,
}

/// Prints alarms of a board that changed, a line each.
pub(crate) fn tell_alarms<H: Host>(
    alloc: Global,
    host: &mut H,
    alarms: Alarms<'_>,
    changes: &[AlarmChange],
) -> Result<(), AllocError>
    ensures { GoesOnBy (λ log. AreSaid
        (map (alarm_note alarms.entry.round alarms.entry.printing.now alarms.entry.board.now) changes.now)
        log result) (H.log host.old) (H.log host.new) }
{
    for change in changes {
        let line = alarms.printing.alarm_line(alloc, alarms.board, change)?;
        tell_line(host, alarm_level(change.event), alarms.round, &line);
    }
    Ok(())
}

/// Returns how grave what became of an alarm is.
fn alarm_level(event: AlarmEvent) -> Level
    ensures { result ≡ alarm_level event }
{
    match event {
        AlarmEvent::Raised { .. } => Level::Warning,
        AlarmEvent::Cleared { .. } | AlarmEvent::Lapsed => Level::Notice,
    }
}

/// Prints a line of the program, in a round if it is of one.
fn tell_line<H: Host>(host: &mut H, level: Level, round: Option<u32>, line: &str)
    ensures { GoesOnBy (IsNoted level (Some (line_in round line.now)))
        (H.log host.old) (H.log host.new) }
{
    match round {
        None => host.note(level, format_args!("snmpmon: {line}\n")),
        Some(round) => host.note(level, format_args!("snmpmon: round {round}: {line}\n")),
    }
}

/// Returns the end of a word after a number: none after 1.
pub(crate) fn plural<'a>(number: u64) -> &'a str
    ensures { result.now ≡ plural number }
{
    if number == 1 { "" } else { "s" }
}
