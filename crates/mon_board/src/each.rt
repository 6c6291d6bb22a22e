ghost use Rattle.std.specs.Prelude.{◌≡◌, ◌<◌, ℕ, length, slice_index_or};
ghost use Rattle.std.specs.FinSet as set;
ghost use Rattle.std.specs.List.Sorted.{IsStrictlySortedBy};
ghost use Rattle.std.specs.Ordering.{nat_cmp};
ghost use Rattle.mon_board.specs.Board.{sets_of};
ghost use Rattle.mon_board.specs.Each.{AreChanged};
ghost use Rattle.mon_board.specs.Marks as marked;
ghost use Rattle.mon_board.specs.Marks.{AreCleared, AreKept, samples_in};
ghost use Rattle.mon_sample.specs.Key.{boots_of};
ghost use Rattle.mon_window.specs.Keep.{keep};
ghost use Rattle.mon_window.specs.Window as held;

use crate::marks::Marks;
use mon_rates::Track;

/// Takes all samples of other windows in, each into the one at its place.
pub(crate) fn join_each(windows: &mut [Track], others: &[Track])
    requires number { length others.now ≡ length windows.old }
    requires sizes { (i : ℕ) (d : held.Window) → i < length windows.old
        → (slice_index_or others.now i d).size ≡ (slice_index_or windows.old i d).size }
    requires epochs { (i : ℕ) (d : held.Window) → i < length windows.old
        → (slice_index_or others.now i d).epoch ≡ (slice_index_or windows.old i d).epoch }
    ensures { AreChanged (λ i old new. new ≡ record old {
      items = keep boots_of old.size old.epoch
          (set.union old.items (slice_index_or (sets_of others.now) i set.empty));
    }) windows.old
        windows.new }
{
    for i in 0..windows.len() {
        windows[i].join(&others[i]);
    }
}

/// Takes the samples of other windows, each into the one at its place and instead of its own.
pub(crate) fn copy_each(windows: &mut [Track], others: &[Track])
    requires number { length others.now ≡ length windows.old }
    requires sizes { (i : ℕ) (d : held.Window) → i < length windows.old
        → (slice_index_or others.now i d).size ≡ (slice_index_or windows.old i d).size }
    requires epochs { (i : ℕ) (d : held.Window) → i < length windows.old
        → (slice_index_or others.now i d).epoch ≡ (slice_index_or windows.old i d).epoch }
    ensures { windows.new ≡ others.now }
{
    for i in 0..windows.len() {
        windows[i].copy_from(&others[i]);
    }
}

/// Leaves the marks of samples in the windows.
pub(crate) fn keep_each(marks: &mut [Marks], windows: &[Track])
    requires number { length windows.now ≡ length marks.old }
    requires rising { (i : ℕ) (d : marked.Marks) → i < length marks.old
        → IsStrictlySortedBy nat_cmp (samples_in (slice_index_or marks.old i d).items) }
    ensures { AreChanged (λ i. AreKept (slice_index_or (sets_of windows.now) i set.empty)) marks.old
        marks.new }
{
    for i in 0..marks.len() {
        marks[i].keep(&windows[i]);
    }
}

/// Takes all marks of a slot away.
pub(crate) fn clear_each(marks: &mut [Marks], slot: u8)
    requires { slot < 16 }
    ensures { AreChanged (λ i. AreCleared slot) marks.old marks.new }
{
    for i in 0..marks.len() {
        marks[i].clear(slot);
    }
}
