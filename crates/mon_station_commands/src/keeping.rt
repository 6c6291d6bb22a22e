//! A station's file that was removed or replaced while it runs.

ghost use Rattle.std.specs.Prelude.{◌≡◌, false, IfErr, OnErr, OnOk, codes, string_bytes};
ghost use Rattle.mon_disk.specs.Kept.{is_spoiled};
ghost use Rattle.mon_host.specs.Log.{GoesOnBy};
ghost use Rattle.mon_station_commands.specs.Keeping.{IsFileKept, IsKeptBy, IsMoveSaid, IsNoFile, IsTaken, found_by, strayed_lines};
ghost use Rattle.mon_file_commands.specs.Line.{AreNoted};

use crate::live::Live;
use crate::opening::{or_file_failure, unopened};
use mon_console::Failure;
use mon_disk::FileDisk;
use mon_host::{Host, Level, Reason};
use mon_rounds::Receiver;
use mon_station::Outbox;
use std::fs::File;
use std::io;
use std::rt::Files;

/// What is at the path of a station's file, by its device and its inode.
#[derive(Clone, Copy)]
enum Found {
    /// The station's file, or the system does not say which file it is.
    Own,
    Nothing,
    Other,
}

/// Looks before a round whether the station's file is still at its path. If it is gone, or another
/// file is there, that is said once, and the windows are saved to the file at the path from now on,
/// which is made if it must be. Until that works it is tried before each round.
pub(crate) fn keep_file<
    R: Files<File = File> + AllocGlobal,
    H: Host,
    S: Receiver + Drop,
    O: Outbox + Drop,
>(rt: &R, host: &mut H, live: &mut Live<S, O>, round: u32)
    ensures looked { GoesOnBy (λ log. IsFileKept round (string_bytes live.old.reports.paths.file)
        live.old.kept.strayed log live.new.kept.strayed) (H.log host.old) (H.log host.new) }
    ensures reports { live.new.reports ≡ live.old.reports }
    ensures kept { live.new.kept ≡ record live.old.kept { strayed = live.new.kept.strayed } }
{
    let at = host.node(&live.reports.paths.file);
    let found = found_by(at, live.station.disk().node());
    live.kept.strayed = keep_by(rt, host, live, round, found);
}

/// Returns what is at a path by what the system says of it and of the station's file.
fn found_by(at: Result<Option<(u64, u64)>, Reason>, own: io::Result<(u64, u64)>) -> Found
    ensures { result ≡ found_by at own }
{
    match (at, own) {
        (Ok(None), _) => Found::Nothing,
        (Ok(Some(at)), Ok(own)) if at.0 != own.0 || at.1 != own.1 => Found::Other,
        _ => Found::Own,
    }
}

/// Has the windows saved to the file at the path, if that is not the station's. Returns `true` if
/// that did not work.
fn keep_by<R: Files<File = File> + AllocGlobal, H: Host, S: Receiver + Drop, O: Outbox + Drop>(
    rt: &R,
    host: &mut H,
    live: &mut Live<S, O>,
    round: u32,
    found: Found,
) -> bool
    ensures kept_by { GoesOnBy (λ log. IsKeptBy found round (string_bytes
        live.old.reports.paths.file)
        live.old.kept.strayed log result) (H.log host.old) (H.log host.new) }
    ensures reports { live.new.reports ≡ live.old.reports }
    ensures kept { live.new.kept ≡ live.old.kept }
{
    match found {
        Found::Own => false,
        Found::Nothing => take_file(rt, host, live, round, "is gone"),
        Found::Other => take_file(rt, host, live, round, "is another file now"),
    }
}

/// Says what became of the station's file, unless that is known, and has the windows saved to the
/// one at its path. Returns `true` if that did not work.
fn take_file<R: Files<File = File> + AllocGlobal, H: Host, S: Receiver + Drop, O: Outbox + Drop>(
    rt: &R,
    host: &mut H,
    live: &mut Live<S, O>,
    round: u32,
    what: &str,
) -> bool
    ensures taken { GoesOnBy (λ log. IsTaken round (string_bytes live.old.reports.paths.file)
        what.now
        live.old.kept.strayed log result) (H.log host.old) (H.log host.new) }
    ensures reports { live.new.reports ≡ live.old.reports }
    ensures kept { live.new.kept ≡ live.old.kept }
{
    let known = live.kept.strayed;
    tell_strayed(host, round, &live.reports.paths.file, what, known);
    let moved = move_file(rt, live);
    tell_moved(host, round, &live.reports.paths.file, known, moved)
}

/// Says what became of the station's file, unless that is known.
fn tell_strayed<H: Host>(host: &mut H, round: u32, path: &str, what: &str, known: bool)
    ensures { GoesOnBy (AreNoted (strayed_lines round path.now what.now known))
        (H.log host.old) (H.log host.new) }
{
    if !known {
        host.note(
            Level::Warning,
            format_args!("snmpmon: round {round}: {path} {what}\n"),
        );
    }
}

/// Has the windows saved to the file at the path from now on, which is made if it must be.
fn move_file<R: Files<File = File> + AllocGlobal, S: Receiver + Drop, O: Outbox + Drop>(
    rt: &R,
    live: &mut Live<S, O>,
) -> Result<(), Failure>
    ensures refused { IfErr result (IsNoFile (string_bytes live.old.reports.paths.file)) }
    // The station is on a file that was opened, so its next save needs no reopening; or it stays.
    ensures moved { OnOk result (is_spoiled live.new.station.keeper ≡ false) }
    ensures unmoved { OnErr result (live.new.station ≡ live.old.station) }
    ensures reports { live.new.reports ≡ live.old.reports }
    ensures kept { live.new.kept ≡ live.old.kept }
{
    let path = &live.reports.paths.file;
    let disk = or_file_failure(rt.alloc(), path, FileDisk::open_or_create(rt, path))?;
    match live.station.move_to(rt.alloc(), disk) {
        Ok(()) => Ok(()),
        Err((fault, disk)) => Err(unopened(rt.alloc(), path, fault, &disk)),
    }
}

/// Says that the windows are saved again; or why not, unless that is known. Returns `true` if they
/// are not.
fn tell_moved<H: Host>(
    host: &mut H,
    round: u32,
    path: &str,
    known: bool,
    moved: Result<(), Failure>,
) -> bool
    ensures { GoesOnBy (λ log. IsMoveSaid round path.now known moved log result)
        (H.log host.old) (H.log host.new) }
{
    match moved {
        Ok(()) => {
            host.note(
                Level::Notice,
                format_args!("snmpmon: round {round}: the windows are saved to {path} again\n"),
            );
            false
        }
        Err(failure) => {
            if !known {
                failure.report(host, Level::Error);
            }
            true
        }
    }
}
