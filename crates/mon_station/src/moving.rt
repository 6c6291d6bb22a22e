//! Moving a station to another disk.

ghost use Rattle.std.specs.Prelude.{◌≡◌, ◌≤◌, OnErr, OnOk, false, IfErr};
ghost use Rattle.mon_disk.specs.Disk.{IsUnchanged, Leaves};
ghost use Rattle.mon_disk.specs.File.{found};
ghost use Rattle.mon_disk.specs.Keeper.{FindsBody, IsOpening, found_generation, is_undamaged};
ghost use Rattle.mon_disk.specs.declared.file.TheConstants.{SLOT_SIZE};

use crate::fault::StationFault;
use crate::station::Station;
use mon_disk::{Disk, Keeper, KeeperFault};
use std::alloc::Global;

impl<D: Disk + Drop> Station<D> {
    ghost use Rattle.mon_disk.specs.Kept.{device_of, is_spoiled, last_body, last_generation};
    ghost use Rattle.mon_station.specs.Saved.{IsCausedBy, IsMovingFault};

    /// Moves the station to another disk, which is its own from then on. The old one is dropped,
    /// and so is the body that an opening finds on the new one; it stays there until the next save
    /// is acknowledged, which writes all that the station holds. In memory nothing changes.
    ///
    /// # Errors
    /// With the new disk, and the station stays as it was on the old one: `OutOfMemory`; `Keeper`
    /// with `DiskFault` where the new disk failed, or with `Damaged` for a file that no crash of a
    /// save leaves. The new disk's file may have been laid out.
    pub fn move_to(&mut self, alloc: Global, disk: D) -> Result<(), (StationFault, D)>
        ensures life { self.new.life ≡ self.old.life }
        // What is refused changes nothing.
        ensures refused { OnErr result (self.new ≡ self.old) }
        // The keeper is one that opened this disk: it knows as the last save what is found there.
        ensures found { D.is_honest disk → OnOk result (FindsBody (last_body self.new.keeper)
            (D.seen disk)) }
        ensures generation { D.is_honest disk
            → OnOk result (found_generation (found SLOT_SIZE (D.seen disk))
            ≡ last_generation self.new.keeper) }
        // From then on a crash leaves a file in which that is found.
        ensures kept { D.is_honest disk
            → OnOk result (Leaves (D.may_leave (device_of self.new.keeper))
            (FindsBody (last_body self.new.keeper))) }
        // Nothing is done to this disk except what each opening of it does.
        ensures opening { D.is_honest disk
            → OnOk result (IsOpening D.seen D.may_leave D.moment D.left_since disk
            (device_of self.new.keeper)) }
        ensures opening_err { D.is_honest disk
            → IfErr result (λ e. IsOpening D.seen D.may_leave D.moment D.left_since disk e.1) }
        // After another fault than the disk's, nothing was written.
        ensures unwritten { D.is_honest disk → IfErr result (λ e.
            (e.0 ≡ StationFault.Keeper KeeperFault.DiskFault → ⊥)
            → IsUnchanged D.seen D.may_leave D.moment D.left_since disk e.1) }
        // The next save needs no reopening.
        ensures fresh { OnOk result (is_spoiled self.new.keeper ≡ false) }
        ensures honest { OnOk result (D.is_honest disk → D.is_honest (device_of self.new.keeper)) }
        ensures honest_err { IfErr result (λ e. D.is_honest disk → D.is_honest e.1) }
        // Each fault is one of an opening of the keeper and has its cause.
        ensures fault { IfErr result (λ e. IsMovingFault e.0) }
        ensures damaged { D.is_honest disk
            → IfErr result (λ e. e.0 ≡ StationFault.Keeper KeeperFault.Damaged
            → is_undamaged (D.seen disk) ≡ false) }
        ensures count { OnOk result (D.faults disk ≤ D.faults (device_of self.new.keeper)) }
        ensures cause { IfErr result (λ e. IsCausedBy (D.faults disk) (D.faults e.1) e.0) }
    {
        match Keeper::open(alloc, disk) {
            Ok((keeper, _)) => {
                self.keeper = keeper;
                Ok(())
            }
            Err(error) => Err((StationFault::from(error.fault), error.disk)),
        }
    }
}
