//! The report of a station's file, which is only read.

ghost use Rattle.std.specs.Prelude.{◌≤◌, option_map};
ghost use Rattle.mon_console.specs.Failure.{IsOf};
ghost use Rattle.mon_faults.specs.Fault.{station_fault};
ghost use Rattle.mon_file_commands.specs.Saved.{AreLooks, IsBoardIn, IsLook, IsSameHead, IsSavedIn, IsSavedReport, IsSettingsReport, IsSteadyRead};
ghost use Rattle.mon_host.specs.Log.{GoesOnBy};

use crate::age::tell_age;
use mon_board::Board;
use mon_cli::Printed;
use mon_console::{Failure, Fault, Printing, print, read_labelled_station, read_part};
use mon_disk::SLOT_SIZE;
use mon_host::{Host, Part};
use mon_settings::StationSettings;
use mon_station::{StationFault, board_in};
use std::alloc::Global;

/// How many octets the head of a slot has: its gate, its generation and the length of its body.
const HEAD: u64 = 17;

/// How often a file is read again, at most, that is saved to meanwhile.
pub const MORE_READS: u32 = 15;

/// Prints the report of the windows in the file of the settings at a path, and says on standard
/// error how long ago it was saved. The station is not started, and the file is only read.
pub(crate) fn print_settings_report<H: Host>(
    alloc: Global,
    host: &mut H,
    path: &str,
    labels: Option<&str>,
    printed: Printed<'_, '_>,
) -> Result<(), Failure>
    ensures { GoesOnBy (λ log. IsSettingsReport path.now (option_map (λ l. l.now) labels.entry)
        printed.entry log result) (H.log host.old) (H.log host.new) }
{
    let (settings, printing) = read_labelled_station(alloc, host, path, labels, printed)?;
    print_saved(alloc, host, &settings, printing)
}

/// Prints the report of the windows in the file of these settings, with how old it is, which is
/// said too.
fn print_saved<H: Host>(
    alloc: Global,
    host: &mut H,
    settings: &StationSettings,
    printing: Printing,
) -> Result<(), Failure>
    ensures { GoesOnBy (λ log. IsSavedReport settings.now printing log result)
        (H.log host.old) (H.log host.new) }
{
    let board = saved_in(alloc, host, settings)?;
    let age = tell_age(host, &settings.file);
    let printing = printing.with_file_age(age);
    let text = printing.report(alloc, &board, None)?;
    print(alloc, host, text.as_slice())
}

/// Reads the windows in the file of the settings, which is only read.
pub fn saved_in<H: Host>(
    alloc: Global,
    host: &mut H,
    settings: &StationSettings,
) -> Result<Board, Failure>
    ensures { GoesOnBy (λ log. IsSavedIn settings.now log result) (H.log host.old)
        (H.log host.new) }
{
    let octets = read_saved(alloc, host, &settings.file, MORE_READS)?;
    board_of(alloc, settings, octets.as_slice())
}

/// Returns the windows in the octets of the file of the settings.
fn board_of(alloc: Global, settings: &StationSettings, octets: &[u8]) -> Result<Board, Failure>
    ensures { IsBoardIn settings.now octets.now result }
{
    match board_in(alloc, settings.core.watch(), octets) {
        Ok(board) => Ok(board),
        Err(fault) => Err(file_failure(alloc, &settings.file, fault)),
    }
}

/// Reads a station's file, which may be saved to meanwhile. If a head of it changed until the end
/// of the read, it is read again, at most this many times more.
pub fn read_saved<H: Host>(
    alloc: Global,
    host: &mut H,
    path: &str,
    more: u32,
) -> Result<Vec<u8>, Failure>
    ensures { GoesOnBy (λ log. IsSteadyRead path.now more log result) (H.log host.old)
        (H.log host.new) }
{
    // A file that is longer than a station's is damaged, whatever follows.
    let whole = Part {
        at: 0,
        length: 2 * SLOT_SIZE + 1,
    };
    let octets = read_part(alloc, host, path, whole)?;
    if more == 0 {
        return Ok(octets);
    }
    if has_heads_of(host, path, octets.as_slice()) {
        return Ok(octets);
    }
    drop(octets);
    read_saved(alloc, host, path, more - 1)
}

/// Returns `true` if the heads of both slots in the file are still those of these octets, or cannot
/// be read: then nothing shows that the file changed.
fn has_heads_of<H: Host>(host: &mut H, path: &str, octets: &[u8]) -> bool
    ensures { GoesOnBy (λ log. AreLooks path.now octets.now log result) (H.log host.old)
        (H.log host.new) }
{
    if has_head_of(host, path, octets, 0) {
        return has_head_of(host, path, octets, SLOT_SIZE);
    }
    false
}

/// Returns `true` if the head of the slot at this place is that of these octets, or cannot be read.
fn has_head_of<H: Host>(host: &mut H, path: &str, octets: &[u8], at: u64) -> bool
    requires { at ≤ 1048576 }
    ensures { GoesOnBy (λ log. IsLook path.now octets.now at log result) (H.log host.old)
        (H.log host.new) }
{
    match host.read_part(path, Part { at, length: HEAD }) {
        Ok(head) => is_head_at(octets, at, head.as_slice()),
        Err(_) => true,
    }
}

/// Returns `true` if this is the head of the slot at this place of these octets, or is cut short.
fn is_head_at(octets: &[u8], at: u64, head: &[u8]) -> bool
    requires { at ≤ 1048576 }
    ensures { IsSameHead octets.now at head.now result }
{
    if (head.len() as u64) < HEAD {
        return true;
    }
    let (start, end) = (at as usize, (at + HEAD) as usize);
    if octets.len() < end {
        return false;
    }
    &octets[start..end] == head
}

/// Why a station's file gave no report.
pub(crate) fn file_failure(alloc: Global, path: &str, fault: StationFault) -> Failure
    ensures { IsOf (station_fault fault) result }
{
    Failure::at(alloc, path, Fault::from(fault))
}
