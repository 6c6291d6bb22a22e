ghost use Rattle.std.specs.Prelude.{◌≡◌, ◌≤◌, ◌<◌, ◌==◌, ◌||◌, ◌&&◌, not, ℕ, [], IfOk, IfErr, filter, length, slice_index_or, vec_capacity};
ghost use Rattle.std.specs.FinSet as set;
ghost use Rattle.std.specs.List.Sorted.{IsStrictlySortedBy};
ghost use Rattle.std.specs.Ordering.{nat_cmp};
ghost use Rattle.mon_board.specs.Marks as marks;
ghost use Rattle.mon_board.specs.Marks.{AreCleared, AreKept, has_bit, marked_in, samples_in};
ghost use Rattle.mon_board.specs.Owed.{next_above};
ghost use Rattle.mon_window.specs.Place.{IsPlace};
ghost use Rattle.mon_window.specs.Top.{put};

use mon_rates::Track;
use mon_sample::Sample;
use std::alloc::{AllocError, Global};
use std::marker::Model;

/// The marked samples, the oldest first, each with one bit for each peer's slot. Contracts see the
/// number that the bits make.
#[derive(Drop)]
pub(crate) struct Marks {
    items: Vec<(Sample, u16)>,
}

impl Model for Marks {
    ghost use Rattle.std.specs.Prelude.{vec_capacity};
    ghost use Rattle.mon_board.specs.Marks.{Marks};

    ghost Value = { Marks };

    ghost view = { λ m. record { room = vec_capacity m.items; items = m.items.items } };
}

impl Marks {
    /// Returns no marks, with capacity for those of this many samples.
    pub(crate) fn new(alloc: Global, room: usize) -> Result<Self, AllocError>
        ensures { IfOk result (λ m. m ≡ record { room = room; items = [] }) }
    {
        let items = Vec::with_capacity(alloc, room)?;
        Ok(Marks { items })
    }

    /// Returns `true` if the sample is marked for the slot.
    pub(crate) fn has(&self, slot: u8, sample: &Sample) -> bool
        requires slot { slot < 16 }
        requires rising { IsStrictlySortedBy nat_cmp (samples_in self.now.items) }
        ensures { result ≡ marked_in slot sample.now self.now.items }
    {
        match place(self.items.as_slice(), sample) {
            Ok(at) => self.items[at].1 >> slot & 1 == 1,
            Err(_) => false,
        }
    }

    /// Marks the sample for the slot.
    pub(crate) fn set(&mut self, slot: u8, sample: &Sample)
        requires slot { slot < 16 }
        requires rising { IsStrictlySortedBy nat_cmp (samples_in self.old.items) }
        requires room { length (put nat_cmp sample.now (samples_in self.old.items))
            ≤ self.old.room }
        ensures samples { samples_in self.new.items ≡ put nat_cmp sample.now
            (samples_in self.old.items) }
        ensures room { self.old.room ≤ self.new.room }
        ensures marks { (k s : ℕ) → marked_in k s self.new.items
            ≡ (marked_in k s self.old.items || ((k == slot) && (s == sample.now))) }
    {
        match place(self.items.as_slice(), sample) {
            Ok(at) => self.items[at].1 |= 1 << slot,
            Err(at) => self.items.insert(at, (*sample, 1 << slot)).unwrap(),
        }
    }

    /// Takes all marks of the slot away.
    pub(crate) fn clear(&mut self, slot: u8)
        requires { slot < 16 }
        ensures { AreCleared slot self.old self.new }
    {
        for item in self.items.iter_mut() {
            item.1 = without(item.1, slot);
        }
    }

    /// Leaves the marks of samples in the window.
    pub(crate) fn keep(&mut self, window: &Track)
        requires { IsStrictlySortedBy nat_cmp (samples_in self.old.items) }
        ensures { AreKept window.now.items self.old self.new }
    {
        keep_in(&mut self.items, window);
    }
}

/// The bits without that of the slot.
fn without(bits: u16, slot: u8) -> u16
    requires { slot < 16 }
    ensures { (k : ℕ) → has_bit k result ≡ (has_bit k bits && not (k == slot)) }
{
    bits & !(1 << slot)
}

/// Leaves the samples that are in the window.
fn keep_in(items: &mut Vec<(Sample, u16)>, window: &Track)
    ensures items { items.new.items ≡ filter (λ x. set.contains window.now.items x.0)
        items.old.items }
    ensures room { vec_capacity items.old ≤ vec_capacity items.new }
{
    items.retain(|item| stands_in(window, &item.0));
}

/// Returns `true` if the sample is in the window.
pub(crate) fn stands_in(window: &Track, sample: &Sample) -> bool
    ensures { result ≡ set.contains window.now.items sample.now }
{
    match window.items().binary_search_by(|kept| kept.compare(sample)) {
        Ok(_) => true,
        Err(_) => false,
    }
}

/// Returns the place of the sample among rising ones, or where it belongs.
fn place(items: &[(Sample, u16)], sample: &Sample) -> Result<usize, usize>
    requires { IsStrictlySortedBy nat_cmp (samples_in items.now) }
    ensures within { IfOk result (λ at. at < length items.now) }
    ensures found { IfOk result (λ at. (other : ℕ × ℕ) → (slice_index_or items.now at other).0
        ≡ sample.now) }
    ensures absent { IfErr result (IsPlace nat_cmp (samples_in items.now) sample.now) }
{
    items.binary_search_by(|item| item.0.compare(sample))
}

/// Returns the first of the samples that is not marked for the slot, above another one if given.
pub(crate) fn first_unmarked(
    items: &[Sample],
    marks: &Marks,
    slot: u8,
    after: Option<Sample>,
) -> Option<Sample>
    requires slot { slot < 16 }
    requires rising { IsStrictlySortedBy nat_cmp (samples_in marks.now.items) }
    ensures { result ≡ next_above after (filter (λ s. not (marked_in slot s marks.now.items))
        items.now) }
{
    for sample in items {
        if is_above(&after, sample) && !marks.has(slot, sample) {
            return Some(*sample);
        }
    }
    None
}

/// Returns `true` if the sample is above the other one, if there is one.
fn is_above(other: &Option<Sample>, sample: &Sample) -> bool
    ensures { result ≡ marks.is_above other.now sample.now }
{
    match other {
        Some(other) => other.compare(sample).is_lt(),
        None => true,
    }
}
