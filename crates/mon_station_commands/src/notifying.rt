//! Notifications of a running station: what is put for the receiver, and its delivery.

ghost use Rattle.std.specs.Prelude.{◌≡◌, Ok, OnErr, OnOk, option_copied, option_map};
ghost use Rattle.mon_host.specs.Log.{GoesOnBy};
ghost use Rattle.mon_file_commands.specs.Line.{AreNoted};
ghost use Rattle.mon_station_commands.specs.Notifying.{Chain, HasTurn, IfCarried, IsAlarmPut, IsCourier, IsDevicePut, IsPut, IsSeenAt, IsTurnSaid, OrLost, dropped_of, lost, news_level, news_lines, until_turn, wanted_of};
ghost use Rattle.mon_station_commands.specs.Quiet.{AreQuiet};

use crate::live::Live;
use crate::troubles::silent_text;
use httpdate::HttpDate;
use mon_alarms::AlarmChange;
use mon_board::Board;
use mon_console::{DeviceSeen, Failure, Seen, SharedPrinting};
use mon_courier::{Courier, News};
use mon_host::{Host, Level};
use mon_http_client::{TargetFault, parse_target};
use mon_rounds::{Change, Receiver, TargetAge, Trouble};
use mon_station::Outbox;
use std::alloc::{AllocError, Global};
use std::net::Net;

/// The last second of the year 9999, in seconds since 1970-01-01 00:00:00 UTC.
const LAST_SECOND: u64 = 253_402_300_799;

/// After how many milliseconds of receiving between two rounds what came is reported and shown, at
/// most.
const TELL_AFTER: u64 = 1000;

/// Returns what delivers notifications to the URL that `--notify` gives, if it is given.
pub(crate) fn courier_of(alloc: Global, url: Option<&str>) -> Result<Option<Courier>, Failure>
    ensures { IsCourier (option_copied url.entry) result }
{
    let Some(url) = url else {
        return Ok(None);
    };
    match parse_target(url) {
        Ok(target) => Ok(Some(Courier::new(alloc, &target)?)),
        Err(fault) => Err(Failure::text(alloc, url, wanted_of(fault))),
    }
}

/// Returns what is expected in place of a URL that has this fault.
fn wanted_of<'a>(fault: TargetFault) -> &'a str
    ensures { result.now ≡ wanted_of fault }
{
    match fault {
        TargetFault::Https => "http://, and a proxy for HTTPS,",
        _ => "http://a.b.c.d:port/path",
    }
}

/// What the notices of a look at a station are built from.
#[derive(Clone, Copy)]
pub(crate) struct Look<'a> {
    pub(crate) board: &'a Board,
    pub(crate) printing: &'a SharedPrinting,
    pub(crate) seen: Seen,
}

/// Returns that this station sees something at this time, in seconds since 1970-01-01 00:00:00 UTC;
/// a time after the year 9999 counts as its end.
pub(crate) fn seen_at(station: u32, seconds: u64) -> Seen
    ensures { IsSeenAt station seconds result }
{
    Seen {
        station,
        date: HttpDate::from_unix_secs(seconds.min(LAST_SECOND)).unwrap(),
    }
}

/// Puts a notice of each of these changes of alarms, in order, if there is a receiver. One for
/// which there is no memory is counted as dropped.
pub(crate) fn notify_alarms(
    alloc: Global,
    courier: &mut Option<Courier>,
    look: Look<'_>,
    changes: &[AlarmChange],
) -> Result<(), AllocError>
    ensures all { OnOk result (IfCarried (Chain (IsAlarmPut look.entry.printing.now
        look.entry.board.now look.entry.seen) changes.now) courier.old courier.new) }
    ensures each { IfCarried (Chain (OrLost (IsAlarmPut look.entry.printing.now
        look.entry.board.now look.entry.seen)) changes.now) courier.old courier.new }
{
    match courier {
        Some(courier) => put_alarms(alloc, courier, look, changes),
        None => Ok(()),
    }
}

/// Puts a notice of each of these changes of alarms, in order.
fn put_alarms(
    alloc: Global,
    courier: &mut Courier,
    look: Look<'_>,
    changes: &[AlarmChange],
) -> Result<(), AllocError>
    ensures all { OnOk result (Chain (IsAlarmPut look.entry.printing.now look.entry.board.now
        look.entry.seen) changes.now courier.old courier.new) }
    ensures each { Chain (OrLost (IsAlarmPut look.entry.printing.now look.entry.board.now
        look.entry.seen)) changes.now courier.old courier.new }
{
    let mut done = Ok(());
    for place in 0..changes.len() {
        let put = put_alarm(alloc, courier, look, &changes[place]);
        done = or_lost(courier, put, done);
    }
    done
}

/// Counts a text as dropped if there was no memory for it. Returns whether there was, for it and
/// for those before it.
fn or_lost(
    courier: &mut Courier,
    put: Result<(), AllocError>,
    before: Result<(), AllocError>,
) -> Result<(), AllocError>
    ensures all { OnOk result ((put ≡ Ok tt) × (before ≡ Ok tt)) }
    ensures put { OnOk put (courier.new ≡ courier.old) }
    ensures lost { OnErr put (courier.new ≡ lost courier.old) }
{
    match put {
        Ok(()) => before,
        Err(error) => {
            courier.lose();
            Err(error)
        }
    }
}

/// Puts a notice of a change of an alarm.
fn put_alarm(
    alloc: Global,
    courier: &mut Courier,
    look: Look<'_>,
    change: &AlarmChange,
) -> Result<(), AllocError>
    ensures put { OnOk result (IsAlarmPut look.entry.printing.now look.entry.board.now
        look.entry.seen change.now courier.old courier.new) }
    ensures same { OnErr result (courier.new ≡ courier.old) }
{
    let text = look
        .printing
        .alarm_message(alloc, look.board, look.seen, change)?;
    courier.put(text.as_slice());
    Ok(())
}

/// Puts a notice of each of these changes in which a target gives no answer or answers again, in
/// order, if there is a receiver. One for which there is no memory is counted as dropped.
pub(crate) fn notify_devices(
    alloc: Global,
    courier: &mut Option<Courier>,
    targets: &[TargetAge],
    look: Look<'_>,
    changes: &[Change],
) -> Result<(), AllocError>
    ensures all { OnOk result (IfCarried (Chain (IsPut look.entry.printing.now look.entry.seen
        targets.now) changes.now) courier.old courier.new) }
    ensures each { IfCarried (Chain (OrLost (IsPut look.entry.printing.now look.entry.seen
        targets.now)) changes.now) courier.old courier.new }
{
    match courier {
        Some(courier) => put_devices(alloc, courier, targets, look, changes),
        None => Ok(()),
    }
}

/// Puts a notice of each of these changes in which a target gives no answer or answers again.
fn put_devices(
    alloc: Global,
    courier: &mut Courier,
    targets: &[TargetAge],
    look: Look<'_>,
    changes: &[Change],
) -> Result<(), AllocError>
    ensures all { OnOk result (Chain (IsPut look.entry.printing.now look.entry.seen targets.now)
        changes.now courier.old courier.new) }
    ensures each { Chain (OrLost (IsPut look.entry.printing.now look.entry.seen targets.now))
        changes.now courier.old courier.new }
{
    let mut done = Ok(());
    for place in 0..changes.len() {
        let put = put_device(alloc, courier, targets, look, changes[place]);
        done = or_lost(courier, put, done);
    }
    done
}

/// Puts a notice of a change if in it a target gives no answer or answers again.
fn put_device(
    alloc: Global,
    courier: &mut Courier,
    targets: &[TargetAge],
    look: Look<'_>,
    change: Change,
) -> Result<(), AllocError>
    ensures put { OnOk result (IsPut look.entry.printing.now look.entry.seen targets.now change
        courier.old courier.new) }
    ensures same { OnErr result (courier.new ≡ courier.old) }
{
    if change.trouble == Trouble::SilentTarget {
        return put_silence(
            alloc,
            courier,
            targets.get(change.number),
            look,
            change.begins,
        );
    }
    Ok(())
}

/// Puts a notice that the device at a target gives no answer, or answers again, if there is such a
/// target.
fn put_silence(
    alloc: Global,
    courier: &mut Courier,
    target: Option<&TargetAge>,
    look: Look<'_>,
    is_down: bool,
) -> Result<(), AllocError>
    ensures put { OnOk result (IsDevicePut look.entry.printing.now look.entry.seen is_down
        (option_map (λ t. t.now) target.entry) courier.old courier.new) }
    ensures same { OnErr result (courier.new ≡ courier.old) }
{
    let Some(target) = target else {
        return Ok(());
    };
    let line = silent_text(alloc, target, is_down)?;
    let device = DeviceSeen {
        target: target.address,
        is_down,
    };
    let text = look
        .printing
        .device_message(alloc, look.board, look.seen, device, line.as_str())?;
    courier.put(text.as_slice());
    Ok(())
}

/// Has the courier take a turn, if there is one, and says what is new of its deliveries.
pub(crate) fn deliver<R: Net, H: Host, S: Receiver + Drop, O: Outbox + Drop>(
    rt: &R,
    host: &mut H,
    live: &mut Live<S, O>,
)
    ensures quiet { GoesOnBy AreQuiet (H.log host.old) (H.log host.new) }
    ensures turn { GoesOnBy (HasTurn live.old.ended live.old.courier live.new.courier)
        (H.log host.old) (H.log host.new) }
    ensures ended { live.new.ended ≡ live.old.ended }
    ensures printing { live.new.reports.printing ≡ live.old.reports.printing }
    ensures paths { live.new.reports.paths ≡ live.old.reports.paths }
    ensures kept { live.new.kept ≡ live.old.kept }
{
    let now = live.ended;
    take_turn(rt, host, &mut live.courier, now);
}

/// Has the courier take a turn, if there is one, and says what is new of its deliveries.
fn take_turn<R: Net, H: Host>(rt: &R, host: &mut H, courier: &mut Option<Courier>, now: u64)
    ensures { GoesOnBy (HasTurn now courier.old courier.new) (H.log host.old) (H.log host.new) }
{
    match courier {
        Some(courier) => take_one(rt, host, courier, now),
        None => {}
    }
}

/// Has this courier take a turn, and says what is new of its deliveries.
fn take_one<R: Net, H: Host>(rt: &R, host: &mut H, courier: &mut Courier, now: u64)
    ensures { GoesOnBy (IsTurnSaid now courier.old courier.new) (H.log host.old) (H.log host.new) }
{
    let said = courier.turn(rt, now);
    tell_news(host, said);
}

/// Says what is new of the deliveries, if anything is.
fn tell_news<H: Host>(host: &mut H, said: Option<News>)
    ensures { GoesOnBy (AreNoted (news_lines said)) (H.log host.old) (H.log host.new) }
{
    if let Some(news) = said {
        host.note(
            news_level(news),
            format_args!("snmpmon: notifications: {news}\n"),
        );
    }
}

/// Returns how grave it is.
fn news_level(news: News) -> Level
    ensures { result ≡ news_level news }
{
    match news {
        News::Again => Level::Notice,
        News::Fails(_) | News::Refused(_) => Level::Warning,
    }
}

/// Returns in how many milliseconds the courier needs its next turn, at least 1 and at most 1,000.
pub(crate) fn until_turn<S: Receiver + Drop, O: Outbox + Drop>(live: &Live<S, O>) -> u32
    ensures { result ≡ until_turn live.now.ended live.now.courier }
{
    let rest = match &live.courier {
        Some(courier) => courier.rest(live.ended).unwrap_or(TELL_AFTER),
        None => TELL_AFTER,
    };
    rest.min(TELL_AFTER).max(1) as u32
}

/// Returns how many notifications were not delivered and will not be, if there is a receiver.
pub(crate) fn dropped_in(courier: &Option<Courier>) -> Option<u64>
    ensures { result ≡ option_map dropped_of courier.now }
{
    match courier {
        Some(courier) => Some(courier.dropped()),
        None => None,
    }
}
