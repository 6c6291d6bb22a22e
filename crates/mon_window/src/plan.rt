ghost use Rattle.std.specs.Prelude.{◌≡◌, ◌≤◌, ◌<◌, ◌↔◌, IfNone, IfSome, IsTrue, length};
ghost use Rattle.std.specs.List.{AllWithin};
ghost use Rattle.std.specs.List.Sorted.{IsStrictlySortedBy};
ghost use Rattle.std.specs.Ordering.{nat_cmp};
ghost use Rattle.mon_sample.specs.Key.{boots_of};
ghost use Rattle.mon_window.specs.Leaving.{part, Fits, HasRoom, IsLeaving};
ghost use Rattle.mon_window.specs.Place.{IsPlace};

use mon_sample::Sample;

/// What an insertion will do.
#[derive(Clone, Copy)]
pub enum Plan {
    /// The sample goes in at the place `at`.
    Joins { at: usize },
    /// The sample goes in at the place `at`, and what is at `out`, before it, leaves.
    Replaces { at: usize, out: usize },
    /// The sample is there.
    Known,
    /// It would itself be the one to leave.
    TooOld,
}

/// Which of the items leaves as the sample joins them at its place, if one has to: the oldest of
/// its boots number where `epoch` of that are there, else the oldest of all where `size` are there.
/// At `at` it is the sample itself.
pub(crate) fn leaving(
    items: &[Sample],
    size: usize,
    epoch: usize,
    sample: &Sample,
    at: usize,
) -> Option<usize>
    requires positive { 1 ≤ epoch }
    requires sorted { IsStrictlySortedBy nat_cmp items.now }
    requires fits { Fits boots_of size epoch items.now }
    requires place { IsPlace nat_cmp items.now sample.now at }
    ensures none { IfNone result (HasRoom boots_of size epoch (boots_of sample.now) items.now) }
    ensures some { IfSome result (IsLeaving boots_of size epoch (boots_of sample.now) items.now
        at) }
{
    let boots = sample.boots();
    if epoch >= size {
        return oldest(items, size, epoch, boots, at);
    }
    if let Some(first) = full_epoch(items, size, epoch, sample, at) {
        return Some(first);
    }
    if items.len() >= size { Some(0) } else { None }
}

/// Where the samples of the sample's boots number begin, if `epoch` of them are there. They are
/// searched for only where the sample's place is not at their end.
fn full_epoch(
    items: &[Sample],
    size: usize,
    epoch: usize,
    sample: &Sample,
    at: usize,
) -> Option<usize>
    requires positive { 1 ≤ epoch }
    requires sorted { IsStrictlySortedBy nat_cmp items.now }
    requires fits { Fits boots_of size epoch items.now }
    requires place { IsPlace nat_cmp items.now sample.now at }
    ensures none { IfNone result (length (part boots_of (boots_of sample.now) items.now) < epoch) }
    ensures some { IfSome result (IsLeaving boots_of size epoch (boots_of sample.now) items.now
        at) }
{
    let boots = sample.boots();
    if at >= epoch && items[at - epoch].boots() == boots {
        return Some(at - epoch);
    }
    if at == items.len() || items[at].boots() != boots {
        return None;
    }
    let first = first_of(items, boots);
    if fills_epoch(items, epoch, first, boots) {
        Some(first)
    } else {
        None
    }
}

/// Returns where the oldest sample of these boots is, or would be, if the epoch is no less than the
/// size. It is called only where all the items are of these boots, so the oldest of these is the
/// oldest of all.
fn oldest(items: &[Sample], size: usize, epoch: usize, boots: u32, at: usize) -> Option<usize>
    requires whole { size ≤ epoch }
    requires few { length items.now ≤ size }
    requires place { at ≤ length items.now }
    ensures none { IfNone result (HasRoom boots_of size epoch boots items.now) }
    ensures some { IfSome result (IsLeaving boots_of size epoch boots items.now at) }
{
    if items.len() >= size { Some(0) } else { None }
}

/// Where the samples of these boots begin, or would.
fn first_of(items: &[Sample], boots: u32) -> usize
    requires { IsStrictlySortedBy nat_cmp items.now }
    ensures bound { result ≤ length items.now }
    ensures before { AllWithin (λ s. boots_of s < boots) items.now 0 result }
    ensures after { AllWithin (λ s. boots ≤ boots_of s) items.now result (length items.now) }
{
    items.partition_point(|kept| kept.boots() < boots)
}

/// Returns `true` if `epoch` samples of these boots, which begin at `first`, are there: the place
/// where the last of them would be shows it.
fn fills_epoch(items: &[Sample], epoch: usize, first: usize, boots: u32) -> bool
    requires positive { 1 ≤ epoch }
    requires sorted { IsStrictlySortedBy nat_cmp items.now }
    requires bound { first ≤ length items.now }
    requires before { AllWithin (λ s. boots_of s < boots) items.now 0 first }
    requires after { AllWithin (λ s. boots ≤ boots_of s) items.now first (length items.now) }
    ensures { IsTrue result ↔ (epoch ≤ length (part boots_of boots items.now)) }
{
    items.len() - first >= epoch && items[first + (epoch - 1)].boots() == boots
}
