//! Saving where the disk may have failed before.

ghost use Rattle.std.specs.Prelude.{◌≡◌, ◌≤◌, ◌+◌, drop, length};
ghost use Rattle.mon_disk.specs.declared.file.TheConstants.{SLOT_SIZE};
ghost use Rattle.mon_station.specs.Mended.{IsMendedSave};

use mon_disk::{Disk, Keeper, KeeperFault};

/// Saves what follows the first 16 of these octets, as `Keeper::save_in_place` does, and reopens
/// the file first where the disk failed in an earlier save.
pub(crate) fn reopen_and_save<D: Disk>(
    keeper: &mut Keeper<D>,
    octets: &mut [u8],
) -> Result<(), KeeperFault>
    requires room { 16 ≤ length octets.old }
    requires fits { length (drop 16 octets.old) + 17 ≤ SLOT_SIZE }
    ensures len { length octets.new ≡ length octets.old }
    ensures body { drop 16 octets.new ≡ drop 16 octets.old }
    ensures save { IsMendedSave (drop 16 octets.old) keeper.old keeper.new result }
{
    match keeper.reopen() {
        Ok(()) => keeper.save_in_place(octets),
        Err(fault) => Err(fault),
    }
}
