//! A save that is stopped after some calls of the disk.

ghost use Rattle.std.specs.Prelude.{◌≡◌, ◌≤◌, nat_lt, IfErr, IfOk, Some, drop, length};
ghost use Rattle.mon_disk.specs.Disk.{Only};
ghost use Rattle.mon_disk.specs.Kept.{device_of};
ghost use Rattle.mon_disk.specs.Memory.{memory_octets, memory_leaves};
ghost use Rattle.mon_station.specs.declared.event.Event.TheVariants.{Save};
ghost use Rattle.mon_station.specs.State.{IsHandled};
ghost use Rattle.mon_world.specs.Cause.{IsFaultOfBeginning};
ghost use Rattle.mon_world.specs.Fault.{copy_fault};
ghost use Rattle.mon_world.specs.Outcome.{calls_of_save};
ghost use Rattle.mon_world.specs.Shows.{FindsStopped, state_in};

use mon_disk::{HEAD_ROOM, Keeper, KeeperFault, MemoryDisk, NotOpened};
use mon_saved::{image_size, write_image};
use mon_station::{Station, StationFault};
use std::alloc::{AllocError, Global};

/// Returns what a crash after these calls of a save leaves of a copy of a station's disk, with all
/// that was written since the last sync or without it. The station runs on as it was.
///
/// # Errors
/// `OutOfMemory`; and the keeper's fault where it refused the save before the first call.
pub(crate) fn stop_at(
    alloc: Global,
    station: &Station<MemoryDisk>,
    calls: u8,
    keep: bool,
) -> Result<MemoryDisk, StationFault>
    requires { calls ≤ 6 }
    // An opening finds the save that was stopped, or, where that was too early, what an opening of
    // the station's disk finds.
    ensures found { IfOk result (λ left. FindsStopped (nat_lt calls (calls_of_save keep))
        (state_in station.now) (memory_octets (device_of station.now.keeper)) (memory_octets left)) }
    ensures crash { IfOk result (λ left. Only (memory_octets left) (memory_leaves left)) }
    ensures fault { IfErr result (IsFaultOfBeginning
        (memory_octets (device_of station.now.keeper))) }
{
    let board = station.board();
    // Proof: an image fits.
    let _ = image_size(board);
    let image = write_image(alloc, board, station.incarnation())?;
    let mut octets = behind_room(alloc, image.as_slice())?;
    let copy = station.disk().try_clone()?;
    let mut keeper = match Keeper::open(alloc, copy) {
        Ok((keeper, _)) => keeper,
        Err(NotOpened { fault, disk: _ }) => return Err(fault_of_copy(fault)),
    };
    if let Err(fault) = keeper.save_calls(octets.as_mut_slice(), calls) {
        return Err(fault_of_copy(fault));
    }
    let left = keeper.into_disk().crash(keep)?;
    Ok(left)
}

/// Returns the image behind space for its head.
fn behind_room(alloc: Global, image: &[u8]) -> Result<Vec<u8>, AllocError>
    ensures room { IfOk result (λ octets. 16 ≤ length octets.items) }
    ensures image { IfOk result (λ octets. drop 16 octets.items ≡ image.now) }
{
    let mut octets = Vec::new(alloc);
    octets.extend_from_slice(&[0; HEAD_ROOM])?;
    octets.extend_from_slice(image)?;
    Ok(octets)
}

/// The fault of a keeper over a copy in memory, whose disk fails only where memory is refused.
fn fault_of_copy(fault: KeeperFault) -> StationFault
    ensures { result ≡ copy_fault fault }
{
    match fault {
        KeeperFault::DiskFault => StationFault::OutOfMemory,
        other => StationFault::from(other),
    }
}

/// A save that met the disk's fault changes nothing of a station. It does nothing.
pub(crate) fn promise_unsaved(station: &Station<MemoryDisk>)
    ensures { IsHandled Save (Some (StationFault.Keeper KeeperFault.DiskFault))
        (state_in station.now) (state_in station.now) }
{
    mon_board::laws::taken_in_turn();
    // Proof: the invariant of the watch.
    let _ = station.board().watch();
}
