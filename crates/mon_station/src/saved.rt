//! The windows that a disk holds.

ghost use Rattle.std.specs.Prelude.{◌≡◌, Some, option_map, IfErr, IfOk};
ghost use Rattle.mon_disk.specs.Keeper.{IsOpening, found_body};
ghost use Rattle.mon_station.specs.Found.{IsBoardOf, IsFaultOfFound, IsFaultOfImage, IsFaultOfOctets, IsFindingFault, in_memory};
ghost use Rattle.mon_station.specs.Saved.{IsCausedBy};

use crate::fault::StationFault;
use mon_board::{Board, Watch};
use mon_disk::{Disk, Keeper, KeeperFault, MemoryDisk};
use mon_saved::read_image;
use std::alloc::Global;

/// The windows that an opening finds on a disk, empty ones where nothing was saved, and the disk. A
/// file that is shorter than the layout is laid out; nothing is saved, and no incarnation is
/// raised.
///
/// # Errors
/// With the disk: `OutOfMemory`, a fault of the keeper, `Image` where the body that was found is no
/// image of the watch's instances.
pub fn saved_board<D: Disk + Drop>(
    alloc: Global,
    watch: &Watch,
    disk: D,
) -> Result<(Board, D), (StationFault, D)>
    // The windows are those of the body that is found in what a read gives.
    ensures found { D.is_honest disk → IfOk result (λ r. IsBoardOf watch.now
        (found_body (D.seen disk)) r.0) }
    // Nothing is done to the disk except what each opening of it does: a crash at any time leaves
    // what an opening takes for one of the files before.
    ensures opening { D.is_honest disk → IfOk result (λ r. IsOpening D.seen D.may_leave D.moment
        D.left_since disk r.1) }
    ensures opening_err { D.is_honest disk → IfErr result (λ e. IsOpening D.seen D.may_leave
        D.moment D.left_since disk e.1) }
    // Each fault is one of an opening and has its cause.
    ensures fault { IfErr result (λ e. IsFindingFault e.0) }
    ensures fault_of { D.is_honest disk → IfErr result (λ e. IsFaultOfFound watch.now (D.seen disk)
        e.0) }
    ensures honest { IfOk result (λ r. D.is_honest disk → D.is_honest r.1) }
    ensures cause { IfErr result (λ e. IsCausedBy (D.faults disk) (D.faults e.1) e.0) }
{
    match Keeper::open(alloc, disk) {
        Ok((keeper, body)) => match board_of(alloc, watch, body) {
            Ok(board) => Ok((board, keeper.into_disk())),
            Err(fault) => Err((fault, keeper.into_disk())),
        },
        Err(error) => Err((StationFault::from(error.fault), error.disk)),
    }
}

/// The windows that an opening finds in a file of these octets, empty ones where nothing was saved.
/// The file is not written: it is opened as a disk in memory.
///
/// # Errors
/// `OutOfMemory`; `Keeper` with `Damaged` where the file is damaged; `Image` where the body that
/// was found is no image of the watch's instances.
pub fn board_in(alloc: Global, watch: &Watch, octets: &[u8]) -> Result<Board, StationFault>
    ensures found { IfOk result (λ board. IsBoardOf watch.now (found_body octets.now) board) }
    ensures fault { IfErr result (IsFaultOfOctets watch.now octets.now) }
{
    let disk = MemoryDisk::new(alloc, octets)?;
    match saved_board(alloc, watch, disk) {
        Ok((board, _)) => Ok(board),
        Err((fault, _)) => Err(in_memory(fault)),
    }
}

/// Returns a fault over a disk in memory, which only fails if memory runs out.
fn in_memory(fault: StationFault) -> StationFault
    ensures { result ≡ in_memory fault }
{
    match fault {
        StationFault::Keeper(KeeperFault::DiskFault) => StationFault::OutOfMemory,
        other => other,
    }
}

/// Returns the windows in a body, empty ones if there is no body.
fn board_of(alloc: Global, watch: &Watch, body: Option<Vec<u8>>) -> Result<Board, StationFault>
    ensures found { IfOk result (λ board. IsBoardOf watch.now (option_map (λ v. v.items) body)
        board) }
    ensures fault { IfErr result (IsFaultOfImage watch.now (option_map (λ v. v.items) body)) }
{
    match body {
        Some(octets) => image_board(alloc, watch, octets.as_slice()),
        None => Ok(Board::new(alloc, watch.try_clone(alloc)?)?),
    }
}

/// The windows of an image.
fn image_board(alloc: Global, watch: &Watch, octets: &[u8]) -> Result<Board, StationFault>
    ensures found { IfOk result (λ board. IsBoardOf watch.now (Some octets.now) board) }
    ensures fault { IfErr result (IsFaultOfImage watch.now (Some octets.now)) }
{
    match read_image(alloc, watch, octets) {
        Ok((board, _)) => Ok(board),
        Err(fault) => Err(StationFault::from(fault)),
    }
}
