//! What a rehearsal prints.

ghost use Rattle.std.specs.Prelude.{◌≡◌, ◌≤◌, ◌++◌, ◌==◌, if◌then◌else◌, List, OnOk, length, string_bytes};
ghost use Rattle.std.specs.List.{flat_map};
ghost use Rattle.mon_station.specs.Lived.{last_state};
ghost use Rattle.mon_world.specs.Fault.{innermost_of};
ghost use Rattle.mon_world.specs.Moves.{Move, lives_of};
ghost use Rattle.mon_world.specs.Places.{others_to};
ghost use Rattle.mon_world.specs.Shows.{Shows, state_in};
ghost use Rattle.mon_rehearsal.specs.Printed.{answer_text, numbers_from, owed_line, refused_text, sent_text, station_text, stations_text, step_line, text_at};

use mon_disk::MemoryDisk;
use mon_report::write_report;
use mon_station::Station;
use mon_world::{Sent, World, WorldFault};
use std::alloc::{AllocError, Global};

/// The line of a step of this number, counted from 1: what it sent, or why it was refused.
#[tactic(auto, unfolding(crate::specs::Printed::step_line))]
pub(crate) fn put_step(
    alloc: Global,
    text: &mut Vec<u8>,
    number: u64,
    answer: Result<Sent, WorldFault>,
) -> Result<(), AllocError>
    ensures { OnOk result (text.new.items ≡ text.old.items ++ step_line number answer) }
{
    let mut line = String::new(alloc);
    write!(line, "step {number}: ")?;
    put_answer(&mut line, answer)?;
    line.push_str("\n")?;
    text.extend_from_slice(line.as_bytes())
}

fn put_answer(line: &mut String, answer: Result<Sent, WorldFault>) -> Result<(), AllocError>
    ensures { OnOk result (string_bytes line.new ≡ string_bytes line.old ++ answer_text answer) }
{
    match answer {
        Ok(sent) => put_sent(line, sent),
        Err(fault) => put_refused(line, fault),
    }
}

/// The numbers of the datagrams that were sent, where there are any.
fn put_sent(line: &mut String, sent: Sent) -> Result<(), AllocError>
    ensures { OnOk result (string_bytes line.new ≡ string_bytes line.old ++ sent_text sent) }
{
    if sent.count == 0 {
        return line.push_str("ok");
    }
    line.push_str("ok sent")?;
    put_numbers(line, sent)
}

fn put_numbers(line: &mut String, sent: Sent) -> Result<(), AllocError>
    ensures { OnOk result (string_bytes line.new ≡ string_bytes line.old
        ++ numbers_from sent.first sent.count) }
{
    for i in 0..sent.count {
        let number = sent.first + i;
        write!(line, " {number}")?;
    }
    Ok(())
}

/// Why a step was refused: the crate, the number and the name of the innermost fault.
fn put_refused(line: &mut String, fault: WorldFault) -> Result<(), AllocError>
    ensures { OnOk result (string_bytes line.new ≡ string_bytes line.old
        ++ refused_text (innermost_of fault)) }
{
    let innermost = fault.innermost();
    write!(line, "refused {innermost}")
}

/// Writes the stations of a world of this many: of each its incarnation, how many samples it owes
/// each other one, and its report.
pub(crate) fn put_stations(
    alloc: Global,
    text: &mut Vec<u8>,
    world: &World,
    count: u32,
) -> Result<(), AllocError>
    requires few { count ≤ 16 }
    requires all { length world.now.stations.items ≡ count }
    ensures { OnOk result ((moves : List Move) → Shows world.now.core world.now.stations.items
        world.now.sent.items moves → text.new.items ≡ text.old.items
        ++ stations_text count moves count) }
{
    for place in 0..count {
        put_station(alloc, text, world, count, place + 1)?;
    }
    Ok(())
}

/// The station of this number.
fn put_station(
    alloc: Global,
    text: &mut Vec<u8>,
    world: &World,
    count: u32,
    number: u32,
) -> Result<(), AllocError>
    requires few { count ≤ 16 }
    requires first { 1 ≤ number }
    requires last { number ≤ length world.now.stations.items }
    ensures { OnOk result ((moves : List Move) → Shows world.now.core world.now.stations.items
        world.now.sent.items moves → text.new.items ≡ text.old.items
        ++ text_at count number (last_state (lives_of number moves))) }
{
    let Some(station) = world.station(number) else {
        unreachable!()
    };
    put_state(alloc, text, station, count, number)
}

#[tactic(auto, unfolding(crate::specs::Printed::station_text))]
fn put_state(
    alloc: Global,
    text: &mut Vec<u8>,
    station: &Station<MemoryDisk>,
    count: u32,
    number: u32,
) -> Result<(), AllocError>
    requires few { count ≤ 16 }
    ensures { OnOk result (text.new.items ≡ text.old.items ++ station_text count number
        (state_in station.now)) }
{
    let mut lines = String::new(alloc);
    let incarnation = station.incarnation();
    writeln!(lines, "station {number} incarnation {incarnation}")?;
    put_debts(&mut lines, station, count, number)?;
    text.extend_from_slice(lines.as_bytes())?;
    match write_report(station.board(), text) {
        Ok(()) => Ok(()),
        Err(_) => Err(AllocError),
    }
}

/// Writes what the station of this number owes each other one of this many.
fn put_debts(
    lines: &mut String,
    station: &Station<MemoryDisk>,
    count: u32,
    number: u32,
) -> Result<(), AllocError>
    requires few { count ≤ 16 }
    ensures { OnOk result (string_bytes lines.new ≡ string_bytes lines.old
        ++ flat_map (owed_line (state_in station.now)) (others_to number count)) }
{
    for place in 0..count {
        put_debt(lines, station, number, place + 1)?;
    }
    Ok(())
}

/// What it owes a peer. To itself a station owes nothing.
fn put_debt(
    lines: &mut String,
    station: &Station<MemoryDisk>,
    number: u32,
    peer: u32,
) -> Result<(), AllocError>
    ensures { OnOk result (string_bytes lines.new ≡ (if peer == number then string_bytes lines.old
        else string_bytes lines.old ++ owed_line (state_in station.now) peer)) }
{
    if peer == number {
        return Ok(());
    }
    put_owed(lines, station, peer)
}

#[tactic(auto, unfolding(crate::specs::Printed::owed_line))]
fn put_owed(lines: &mut String, station: &Station<MemoryDisk>, peer: u32) -> Result<(), AllocError>
    ensures { OnOk result (string_bytes lines.new ≡ string_bytes lines.old
        ++ owed_line (state_in station.now) peer) }
{
    let owed = station.owed(peer);
    writeln!(lines, "owes {peer} {owed}")
}
