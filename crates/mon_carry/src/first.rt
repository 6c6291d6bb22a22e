//! The first save of the new file.

ghost use Rattle.std.specs.Prelude.{◌≡◌, ◌≤◌, ◌^◌, ◌-◌, ◌↔◌, false, IfErr, IfOk, None, OnErr, OnOk};
ghost use Rattle.mon_disk.specs.Disk.{Leaves, LeavesSince};
ghost use Rattle.mon_disk.specs.Keeper.{FindsBody, IsOpening, found_body};
ghost use Rattle.mon_disk.specs.Kept.{device_of, is_spoiled, last_generation};
ghost use Rattle.mon_carry.specs.Fault.{IsCausedBy, IsFaultOfNew, IsRefused, IsSaveFault};
ghost use Rattle.mon_carry.specs.Files.{FindsFirst, FindsImage, FindsNothingOr};

use crate::fault::CarryFault;
use mon_board::Board;
use mon_disk::{Disk, Keeper};
use mon_saved::KeptImage;
use std::alloc::Global;

/// Saves the windows and the incarnation, which is not 0, in a file that holds no save, and returns
/// its disk. The calls of the disk are those of a station's opening and save, so a stop at any time
/// leaves a file in which nothing is found, or all of it.
///
/// # Errors
/// With the disk: `AlreadySaved` if a save is found in the file, which is then as it was;
/// `OutOfMemory`; `Keeper` with `Damaged` if the file is damaged, or with `DiskFault` if the disk
/// failed: then the windows may be saved or not.
pub fn save_first<D: Disk + Drop>(
    alloc: Global,
    board: &Board,
    incarnation: u32,
    disk: D,
) -> Result<D, (CarryFault, D)>
    requires positive { 1 ≤ incarnation }
    // Nothing was saved before, and from then on a crash leaves a file in which the image is found.
    ensures fresh { D.is_honest disk → IfOk result (λ _. FindsBody None (D.seen disk)) }
    ensures kept { D.is_honest disk
        → IfOk result (λ d. Leaves (D.may_leave d) (FindsImage board.now incarnation)) }
    // A crash at any time, even if a call fails, leaves what an opening takes for one of the files
    // before, or a file in which the image is found.
    ensures any_moment { D.is_honest disk
        → IfOk result (λ d. LeavesSince D.moment D.left_since disk d
        (FindsFirst (D.may_leave disk) board.now incarnation)) }
    ensures any_moment_err { D.is_honest disk
        → IfErr result (λ e. LeavesSince D.moment D.left_since disk e.1
        (FindsFirst (D.may_leave disk) board.now incarnation)) }
    // If a crash left only files without a save before, it leaves nothing or the image.
    ensures whole { D.is_honest disk → Leaves (D.may_leave disk) (FindsBody None)
        → IfOk result (λ d. LeavesSince D.moment D.left_since disk d
        (FindsNothingOr board.now incarnation)) }
    ensures whole_err { D.is_honest disk → Leaves (D.may_leave disk) (FindsBody None)
        → IfErr result (λ e. LeavesSince D.moment D.left_since disk e.1
        (FindsNothingOr board.now incarnation)) }
    // A file that holds a save, or is damaged, is only opened: it stays what it was for an opening.
    ensures refused { D.is_honest disk → IfErr result (λ e. IsRefused e.0
        → IsOpening D.seen D.may_leave D.moment D.left_since disk e.1) }
    ensures found_still { D.is_honest disk → IfErr result (λ e. e.0 ≡ CarryFault.AlreadySaved
        → Leaves (D.may_leave e.1) (FindsBody (found_body (D.seen disk)))) }
    // Each fault has its cause.
    ensures fault { D.is_honest disk → IfErr result (λ e. IsFaultOfNew (D.seen disk) e.0) }
    ensures honest { IfOk result (λ d. D.is_honest disk → D.is_honest d) }
    ensures honest_err { IfErr result (λ e. D.is_honest disk → D.is_honest e.1) }
    ensures cause { IfErr result (λ e. IsCausedBy (D.faults disk) (D.faults e.1) e.0) }
{
    match Keeper::open(alloc, disk) {
        Ok((keeper, None)) => put_first(alloc, board, incarnation, keeper),
        Ok((keeper, Some(_))) => Err((CarryFault::AlreadySaved, keeper.into_disk())),
        Err(error) => Err((CarryFault::from(error.fault), error.disk)),
    }
}

/// Saves the image by a keeper that was opened just now.
fn put_first<D: Disk + Drop>(
    alloc: Global,
    board: &Board,
    incarnation: u32,
    keeper: Keeper<D>,
) -> Result<D, (CarryFault, D)>
    requires positive { 1 ≤ incarnation }
    requires fresh { is_spoiled keeper ≡ false }
    ensures kept { D.is_honest (device_of keeper)
        → IfOk result (λ d. Leaves (D.may_leave d) (FindsImage board.now incarnation)) }
    ensures any_moment { D.is_honest (device_of keeper)
        → IfOk result (λ d. LeavesSince D.moment D.left_since (device_of keeper) d
        (FindsFirst (D.may_leave (device_of keeper)) board.now incarnation)) }
    ensures any_moment_err { D.is_honest (device_of keeper)
        → IfErr result (λ e. LeavesSince D.moment D.left_since (device_of keeper) e.1
        (FindsFirst (D.may_leave (device_of keeper)) board.now incarnation)) }
    ensures fault { IfErr result (λ e. IsSaveFault (last_generation keeper) e.0) }
    ensures honest { IfOk result (λ d. D.is_honest (device_of keeper) → D.is_honest d) }
    ensures honest_err { IfErr result (λ e. D.is_honest (device_of keeper) → D.is_honest e.1) }
    ensures cause { IfErr result (λ e. IsCausedBy (D.faults (device_of keeper))
        (D.faults e.1) e.0) }
    ensures count { IfOk result (λ d. D.faults (device_of keeper) ≤ D.faults d) }
{
    let mut keeper = keeper;
    match put(alloc, board, incarnation, &mut keeper) {
        Ok(()) => Ok(keeper.into_disk()),
        Err(fault) => Err((fault, keeper.into_disk())),
    }
}

/// Saves the image by a keeper.
fn put<D: Disk>(
    alloc: Global,
    board: &Board,
    incarnation: u32,
    keeper: &mut Keeper<D>,
) -> Result<(), CarryFault>
    requires positive { 1 ≤ incarnation }
    requires fresh { is_spoiled keeper.old ≡ false }
    ensures kept { D.is_honest (device_of keeper.old)
        → OnOk result (Leaves (D.may_leave (device_of keeper.new))
        (FindsImage board.now incarnation)) }
    ensures any_moment { D.is_honest (device_of keeper.old)
        → LeavesSince D.moment D.left_since (device_of keeper.old) (device_of keeper.new)
        (FindsFirst (D.may_leave (device_of keeper.old)) board.now incarnation) }
    ensures fault { IfErr result (IsSaveFault (last_generation keeper.old)) }
    ensures honest { D.is_honest (device_of keeper.old) → D.is_honest (device_of keeper.new) }
    ensures cause { IfErr result (IsCausedBy (D.faults (device_of keeper.old))
        (D.faults (device_of keeper.new))) }
    ensures count { D.faults (device_of keeper.old) ≤ D.faults (device_of keeper.new) }
{
    let mut image = KeptImage::new(alloc);
    image.write(board, incarnation)?;
    match keeper.save_in_place(image.octets.as_mut_slice()) {
        Ok(()) => Ok(()),
        Err(fault) => Err(CarryFault::from(fault)),
    }
}
