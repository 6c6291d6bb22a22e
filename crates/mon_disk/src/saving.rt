//! The six disk calls of a save.

ghost use Rattle.std.specs.Prelude.{◌≡◌, ◌<◌, ◌≤◌, ◌+◌, ◌++◌, ◌↔◌, true, List, ℕ, Some, length, OnOk};
ghost use Rattle.mon_disk.specs.Disk.{Leaves, LeavesSince, Only, HasCause};
ghost use Rattle.mon_disk.specs.File.{save_of, found, FindsIn, FindsEither, IsBeside};
ghost use Rattle.mon_disk.specs.Keeper.{IsKept, generation_of, is_newest, shown_from, spare};

use crate::disk::{Disk, DiskError};
use crate::file::{SLOT_SIZE, Slot, close, fill, show};

/// Makes the first `calls` of the six calls that save in the spare slot what these octets say.
pub(crate) fn put_spare<D: Disk>(
    disk: &mut D,
    newest: Option<(Slot, u64)>,
    octets: &[u8],
    calls: u8,
) -> Result<(), DiskError>
    requires kept { D.is_honest disk.old → IsKept SLOT_SIZE newest (D.seen disk.old)
        (D.may_leave disk.old) }
    requires room { length octets.now + 1 ≤ SLOT_SIZE }
    requires next { generation_of newest < (save_of octets.now).generation }
    requires alone { (rest : List ℕ) → save_of (octets.now ++ rest) ≡ save_of octets.now }
    requires fits { (save_of octets.now).size + 17 ≤ SLOT_SIZE }

    ensures none { calls ≡ 0 → disk.new ≡ disk.old }
    ensures seen { D.is_honest disk.old → OnOk result (FindsIn SLOT_SIZE
        (shown_from 5 calls (found SLOT_SIZE (D.seen disk.old)) (Some (save_of octets.now))) (D.seen disk.new)) }
    ensures synced { D.is_honest disk.old → OnOk result (FindsIn SLOT_SIZE
        (shown_from 6 calls (found SLOT_SIZE (D.seen disk.old)) (Some (save_of octets.now))) (D.synced disk.new)) }
    ensures durable { D.is_honest disk.old → 6 ≤ calls → OnOk result
        (Only (D.seen disk.new) (D.may_leave disk.new)) }
    ensures newest { D.is_honest disk.old → 6 ≤ calls → OnOk result
        (is_newest SLOT_SIZE (Some (spare newest, (save_of octets.now).generation))
        (D.seen disk.new) ≡ true) }

    // A crash at any time of the call leaves what was found before it, or this save.
    ensures any_moment { D.is_honest disk.old → LeavesSince D.moment D.left_since disk.old disk.new
        (FindsEither SLOT_SIZE (found SLOT_SIZE (D.seen disk.old)) (Some (save_of octets.now))) }
    // It changes nothing of the other slot, whichever call fails.
    ensures beside { D.is_honest disk.old → Leaves (D.may_leave disk.new)
        (IsBeside SLOT_SIZE (spare newest) (D.seen disk.old)) }
    ensures honest { D.is_honest disk.old ↔ D.is_honest disk.new }
    ensures cause { HasCause (D.faults disk.old) (D.faults disk.new) result }
{
    let slot = spare_slot(newest);
    close(disk, slot, calls)?;
    if calls <= 2 {
        return Ok(());
    }
    fill(disk, slot, octets, calls - 2)?;
    if calls <= 4 {
        return Ok(());
    }
    show(disk, slot, calls - 4)
}

/// The slot that the next save goes to.
pub(crate) fn spare_slot(newest: Option<(Slot, u64)>) -> Slot
    ensures { result ≡ spare newest }
{
    match newest {
        Some((Slot::First, _)) => Slot::Second,
        _ => Slot::First,
    }
}
