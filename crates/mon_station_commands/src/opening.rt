//! The file and the socket of a station.

ghost use Rattle.std.specs.Prelude.{◌≡◌, ◌↔◌, ◌<◌, ◌≤◌, ◌++◌, IsTrue, codes, false};
ghost use Rattle.mon_console.specs.Failure.{HasLine, IsOf};
ghost use Rattle.mon_faults.specs.Fault.{innermost_of, station_fault};
ghost use Rattle.mon_host.specs.Log.{GoesOnBy};
ghost use Rattle.mon_station_commands.specs.Opening.{IsOpenedOr};
ghost use Rattle.mon_station_commands.specs.Places.{AreSavedIf, IsFile, IsHad, IsLookedAt, IsSocketOr, MayBeThere};
ghost use Rattle.mon_file_commands.specs.Line.{AreNoted};
ghost use Rattle.mon_station_commands.specs.Telling.{short_lines, short_lines_of};

use mon_console::{Failure, Fault};
use mon_disk::{Disk, DiskError, FileDisk, KeeperFault, OpenFault, SLOT_SIZE};
use mon_file_commands::saved_in;
use mon_host::{Host, Level, Reason};
use mon_settings::StationSettings;
use mon_station::{Innermost, StationFault};
use mon_udp::Addr;
use std::alloc::Global;
use std::fs::File;
use std::io;
use std::rt::Files;

/// Returns the socket of the settings, which is taken before the file, so that of two processes
/// over one file the second neither makes the file nor writes it; yet the faults of an existing
/// file are reported before the socket's.
pub(crate) fn or_no_socket<T: Drop, H: Host>(
    alloc: Global,
    host: &mut H,
    settings: &StationSettings,
    given: io::Result<T>,
) -> Result<T, Failure>
    ensures { GoesOnBy (λ log. IsSocketOr settings.now given log result) (H.log host.old)
        (H.log host.new) }
{
    match given {
        Ok(socket) => Ok(socket),
        Err(error) => {
            look_at_file(alloc, host, settings)?;
            Err(Failure::socket(alloc, settings.listen, error))
        }
    }
}

/// Reads the windows in the file of the settings, if it may be there.
fn look_at_file<H: Host>(
    alloc: Global,
    host: &mut H,
    settings: &StationSettings,
) -> Result<(), Failure>
    ensures { GoesOnBy (λ log. IsLookedAt settings.now log result) (H.log host.old)
        (H.log host.new) }
{
    let there = may_be_there(host, &settings.file);
    read_if(alloc, host, settings, there)
}

/// Returns `true` if a file is at this path, or if that is not known.
fn may_be_there<H: Host>(host: &mut H, path: &str) -> bool
    ensures { GoesOnBy (λ log. MayBeThere path.now log result) (H.log host.old) (H.log host.new) }
{
    match host.is_there(path) {
        Ok(there) => there,
        Err(_) => true,
    }
}

/// Reads the windows in the file of the settings, if it is there.
fn read_if<H: Host>(
    alloc: Global,
    host: &mut H,
    settings: &StationSettings,
    there: bool,
) -> Result<(), Failure>
    ensures { GoesOnBy (λ log. AreSavedIf there settings.now log result) (H.log host.old)
        (H.log host.new) }
{
    if !there {
        return Ok(());
    }
    match saved_in(alloc, host, settings) {
        Ok(_) => Ok(()),
        Err(failure) => Err(failure),
    }
}

/// Opens the file of the settings, which no other process can then open as a station's.
pub(crate) fn open_file<R: Files<File = File> + AllocGlobal, H: Host>(
    rt: &R,
    host: &mut H,
    settings: &StationSettings,
) -> Result<FileDisk, Failure>
    ensures { GoesOnBy (λ log. IsFile settings.now log result) (H.log host.old) (H.log host.new) }
{
    let mut disk = or_file_failure(
        rt.alloc(),
        &settings.file,
        FileDisk::open_or_create(rt, &settings.file),
    )?;
    warn_of_short(host, &settings.file, disk.size());
    Ok(disk)
}

/// Says of a file that is shorter than a station's, and not empty, that it will be laid out.
fn warn_of_short<H: Host>(host: &mut H, path: &str, size: Result<u64, DiskError>)
    ensures { GoesOnBy (AreNoted (short_lines_of path.now size)) (H.log host.old) (H.log host.new) }
{
    match size {
        Ok(size) => warn_of_size(host, path, size),
        Err(_) => {}
    }
}

/// Says of a file of this size, if it is short, that it will be laid out.
fn warn_of_size<H: Host>(host: &mut H, path: &str, size: u64)
    ensures { GoesOnBy (AreNoted (short_lines path.now size)) (H.log host.old) (H.log host.new) }
{
    if is_short(size) {
        host.note(
            Level::Warning,
            format_args!(
                "snmpmon: {path} has {size} octets, so it is no station's file yet: it is laid out as one\n"
            ),
        );
    }
}

/// Returns `true` if a file of this size is laid out as a station's though it isn't empty.
fn is_short(size: u64) -> bool
    ensures { IsTrue result ↔ ((1 ≤ size) × (size < 2097152)) }
{
    size > 0 && size < 2 * SLOT_SIZE
}

/// Returns what the opening of the station's file gave.
pub(crate) fn or_file_failure<T: Drop>(
    alloc: Global,
    path: &str,
    given: Result<T, OpenFault>,
) -> Result<T, Failure>
    ensures { IsOpenedOr path.now given result }
{
    match given {
        Ok(value) => Ok(value),
        Err(OpenFault::InUse) => Err(in_use(alloc, path)),
        Err(OpenFault::System(error)) => {
            Err(Failure::stream(alloc, path, Reason::of(alloc, error)))
        }
    }
}

/// Returns the failure of a station's file that another process has open.
fn in_use(alloc: Global, path: &str) -> Failure
    ensures part { (innermost_of result.fault).part ≡ codes "mon_disk" }
    ensures number { (innermost_of result.fault).number ≡ 7 }
    ensures name { (innermost_of result.fault).name ≡ codes "InUse" }
    ensures more { HasLine (path.now ++ codes ": another process has the file open as a station's")
        result.more }
    ensures whole { result.is_cut ≡ false }
{
    let innermost = Innermost::new("mon_disk", OpenFault::IN_USE_NUMBER, OpenFault::IN_USE_NAME);
    Failure::said(
        Fault::Other(innermost),
        format!(in alloc; "{path}: another process has the file open as a station's"),
    )
}

/// What a call of the station's socket gave.
pub(crate) fn or_socket_failure<T: Drop>(
    alloc: Global,
    listen: Addr,
    given: io::Result<T>,
) -> Result<T, Failure>
    ensures { IsHad listen given result }
{
    match given {
        Ok(value) => Ok(value),
        Err(error) => Err(Failure::socket(alloc, listen, error)),
    }
}

/// Why a station's file, of this disk, gave no station.
pub(crate) fn unopened(alloc: Global, path: &str, fault: StationFault, disk: &FileDisk) -> Failure
    ensures { IsOf (station_fault fault) result }
{
    match fault {
        StationFault::Keeper(KeeperFault::DiskFault) => {
            disk_failure(alloc, path, Fault::from(fault), disk)
        }
        _ => Failure::at(alloc, path, Fault::from(fault)),
    }
}

/// Why a station's windows were not saved in its file, of this disk.
pub(crate) fn unsaved(alloc: Global, path: &str, fault: KeeperFault, disk: &FileDisk) -> Failure
    ensures { IsOf (Fault.Keeper fault) result }
{
    match fault {
        KeeperFault::DiskFault => disk_failure(alloc, path, Fault::Keeper(fault), disk),
        _ => Failure::at(alloc, path, Fault::Keeper(fault)),
    }
}

/// A disk that failed, with the system's reason.
fn disk_failure(alloc: Global, path: &str, fault: Fault, disk: &FileDisk) -> Failure
    ensures { IsOf fault result }
{
    match disk.last_error() {
        Some(error) => Failure::said(fault, format!(in alloc; "{path}: {fault}: {error}")),
        None => Failure::at(alloc, path, fault),
    }
}
