//! What limits a station of some settings.

ghost use Rattle.std.specs.Prelude.{◌≡◌, ◌≤◌, ◌<◌, ◌++◌, IfOk, OnOk, length, string_bytes};
ghost use Rattle.mon_board.specs.Instance.{AreSized};
ghost use Rattle.mon_host.specs.Log.{GoesOnBy};
ghost use Rattle.mon_station_commands.specs.Checking.{AreLimits};
ghost use Rattle.mon_station_commands.specs.Limits.{interval_line, kept_lines, limits_text, longest_gap, round_line, sample_lines, samples_of, target_line, target_lines, turn_line, turn_lines, turn_of};

use mon_board::Watched;
use mon_console::{Failure, print};
use mon_disk::SLOT_SIZE;
use mon_host::Host;
use mon_poller::Target;
use mon_settings::{RoundTime, StationSettings, round_time};
use std::alloc::{AllocError, Global};

/// From how many milliseconds between two samples on no warning of cached counters is printed.
const APART: u64 = 5_000;

/// Prints how long a round of a station of these settings may take, with this interval in seconds
/// (0 for none), and what else limits it. Nothing is opened.
pub(crate) fn print_limits<H: Host>(
    alloc: Global,
    host: &mut H,
    settings: &StationSettings,
    interval: u32,
) -> Result<(), Failure>
    ensures { GoesOnBy (λ log. AreLimits settings.now interval log result)
        (H.log host.old) (H.log host.new) }
{
    let text = limits(alloc, settings, interval)?;
    print(alloc, host, text.as_bytes())
}

/// Returns the lines that `print_limits` prints.
fn limits(alloc: Global, settings: &StationSettings, interval: u32) -> Result<String, AllocError>
    ensures { IfOk result (λ text. string_bytes text ≡ limits_text settings.now interval) }
{
    let time = round_time(settings);
    let instances = settings.core.watch().instances();
    let samples = samples_of(instances);
    let mut text = String::new(alloc);
    put_round(&mut text, time, settings.wait_ms)?;
    put_interval(&mut text, time.most, interval)?;
    put_turns(
        &mut text,
        time.silent,
        interval,
        settings.core.peers().len(),
    )?;
    put_samples(&mut text, interval, settings.core.peers().len())?;
    put_targets(&mut text, settings.core.targets())?;
    put_kept(&mut text, instances.len(), samples, &settings.file)?;
    Ok(text)
}

/// Returns within how many milliseconds of one another the rounds of a station of these settings
/// end, with this interval in seconds (0 for none), if it is healthy: twice the longest round, and
/// an interval.
pub(crate) fn longest_gap(settings: &StationSettings, interval: u32) -> u64
    ensures { result ≡ longest_gap settings.now interval }
{
    2 * round_time(settings).most + u64::from(interval) * 1000
}

/// Adds how long a round may take.
fn put_round(text: &mut String, time: RoundTime, wait_ms: u32) -> Result<(), AllocError>
    ensures { OnOk result (string_bytes text.new
        ≡ string_bytes text.old ++ round_line time.least time.silent time.most wait_ms) }
{
    let RoundTime {
        least,
        silent,
        most,
    } = time;
    write!(
        text,
        "round: {least} ms if all targets answer, {silent} ms if none does, {most} ms at most (wait_ms = {wait_ms}); at most 4096 datagrams\n"
    )
}

/// Adds what to change if the longest round is longer than the interval.
fn put_interval(text: &mut String, most: u64, interval: u32) -> Result<(), AllocError>
    ensures { OnOk result (string_bytes text.new
        ≡ string_bytes text.old ++ interval_line most interval) }
{
    if interval == 0 {
        return Ok(());
    }
    if most <= u64::from(interval) * 1000 {
        return Ok(());
    }
    write!(
        text,
        "interval: {interval} s are less than the longest round; fewer tries, a smaller wait_ms or a longer --interval keep rounds on time\n"
    )
}

/// Adds how long a station's turn is if several poll one after another, and what to change if a
/// round in which no target answers outlasts it.
fn put_turns(text: &mut String, silent: u64, interval: u32, peers: usize) -> Result<(), AllocError>
    requires { peers ≤ 15 }
    ensures { OnOk result (string_bytes text.new
        ≡ string_bytes text.old ++ turn_lines silent interval peers) }
{
    if interval == 0 {
        return Ok(());
    }
    if peers == 0 {
        return Ok(());
    }
    let turn = turn_of(interval, peers + 1);
    put_turn(text, peers + 1, turn)?;
    if silent <= turn {
        return Ok(());
    }
    write!(
        text,
        "turns: a round of {silent} ms outlasts its turn; a longer --interval, fewer tries or a smaller wait_ms keep stations apart\n"
    )
}

/// Adds how many stations poll one after another, and how long each one's turn is.
fn put_turn(text: &mut String, stations: usize, turn: u64) -> Result<(), AllocError>
    ensures { OnOk result (string_bytes text.new
        ≡ string_bytes text.old ++ turn_line stations turn) }
{
    write!(
        text,
        "turns: {stations} stations poll one after another, each in {turn} ms of the interval\n"
    )
}

/// Adds what to do about agents that renew their counters less often than samples are taken, if
/// these come closer together than such agents want.
fn put_samples(text: &mut String, interval: u32, peers: usize) -> Result<(), AllocError>
    requires { peers ≤ 15 }
    ensures { OnOk result (string_bytes text.new
        ≡ string_bytes text.old ++ sample_lines interval peers) }
{
    if interval == 0 {
        return Ok(());
    }
    let apart = turn_of(interval, peers + 1);
    if apart >= APART {
        return Ok(());
    }
    write!(
        text,
        "samples: one every {apart} ms; an agent that renews its counters less often (net-snmp's every 3 s) makes rates of 0 and too high ones: a longer --interval mends that, and --alarm-after 4 keeps most such alarms from being announced\n"
    )
}

/// Returns how many milliseconds of the interval, in seconds, each of these stations has to itself.
fn turn_of(interval: u32, stations: usize) -> u64
    requires { 0 < stations }
    ensures { result ≡ turn_of interval stations }
{
    u64::from(interval) * 1000 / stations as u64
}

/// Adds a line for each target: how many objects its poll asks for, and how often it is sent.
fn put_targets(text: &mut String, targets: &[Target]) -> Result<(), AllocError>
    ensures { OnOk result (string_bytes text.new
        ≡ string_bytes text.old ++ target_lines 1 targets.now) }
{
    for (place, target) in targets.iter().enumerate() {
        put_target(text, place + 1, target)?;
    }
    Ok(())
}

/// Adds the line of the target of this number.
fn put_target(text: &mut String, number: usize, target: &Target) -> Result<(), AllocError>
    ensures { OnOk result (string_bytes text.new
        ≡ string_bytes text.old ++ target_line number target.now) }
{
    let at = target.address;
    let (objects, tries) = (target.objects.as_slice().len(), target.tries);
    write!(
        text,
        "target {number} at {at}: objects {objects}, tries {tries}\n"
    )
}

/// Adds how much is kept in memory and in the file.
fn put_kept(
    text: &mut String,
    instances: usize,
    samples: usize,
    file: &str,
) -> Result<(), AllocError>
    ensures { OnOk result (string_bytes text.new
        ≡ string_bytes text.old ++ kept_lines instances samples file.now) }
{
    let size = 2 * SLOT_SIZE;
    write!(
        text,
        "windows: instances {instances}, samples at most {samples}\nfile: {file}, {size} octets\n"
    )
}

/// Returns how many samples these instances have at most.
fn samples_of(instances: &[Watched]) -> usize
    requires few { length instances.now ≤ 256 }
    requires sized { AreSized instances.now }
    ensures { result ≡ samples_of instances.now }
{
    let mut samples = 0;
    for it in instances {
        samples += it.window;
    }
    samples
}
