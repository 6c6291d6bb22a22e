//! Laws of what openings find. Each is a function that does nothing.

ghost use Rattle.std.specs.Prelude.{◌≡◌, ◌<◌, ◌*◌, true, ℕ, List, Option, None, length, Contains};
ghost use Rattle.mon_disk.specs.Disk.{Leaves};
ghost use Rattle.mon_disk.specs.History.{Event as AnyEvent, FindsOneOf, IsHistory, last_disk, may_find};
ghost use Rattle.mon_disk.specs.Keeper.{FindsBody, is_undamaged};
ghost use Rattle.mon_disk.specs.declared.file.TheConstants.{SLOT_SIZE};

use crate::Disk;

/// Stopped at any time, and whatever openings, saves, reopenings and stops there were on an honest
/// disk: an opening finds the body of the last save that was acknowledged, or of one that was
/// running since; once one of them was found, no older one is found later; after a reopening only
/// the last acknowledged one is; and no opening meets `Damaged`.
pub fn stops<D: Disk>()
    ensures left { (first : D) (history : List (AnyEvent × D)) (bodies : List (Option (List ℕ)))
        → D.is_honest first → Leaves (D.may_leave first) (FindsOneOf bodies)
        → IsHistory D.is_honest D.seen D.may_leave D.moment D.left_since bodies first history
        → Leaves (D.may_leave (last_disk first history)) (FindsOneOf (may_find bodies history)) }
    ensures found { (first : D) (history : List (AnyEvent × D)) (bodies : List (Option (List ℕ)))
        → D.is_honest first → Leaves (D.may_leave first) (FindsOneOf bodies)
        → IsHistory D.is_honest D.seen D.may_leave D.moment D.left_since bodies first history
        → (body : Option (List ℕ)) → FindsBody body (D.seen (last_disk first history))
        → Contains (may_find bodies history) body }
    ensures undamaged { (first : D) (history : List (AnyEvent × D))
        (bodies : List (Option (List ℕ)))
        → D.is_honest first → Leaves (D.may_leave first) (FindsOneOf bodies)
        → IsHistory D.is_honest D.seen D.may_leave D.moment D.left_since bodies first history
        → is_undamaged (D.seen (last_disk first history)) ≡ true }
{}

/// A file that is shorter than two slots was never saved.
pub fn never_saved()
    ensures { (file : List ℕ) → length file < 2 * SLOT_SIZE → FindsBody None file }
{}
