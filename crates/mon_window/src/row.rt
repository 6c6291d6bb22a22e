//! Samples in a row whose first one leaves without a move of the others.

ghost use Rattle.std.specs.Prelude.{◌≡◌, ◌≤◌, ◌<◌, ◌+◌, [], IfOk, drop, insert, length, remove, slice_index_or, vec_capacity};

use mon_sample::Sample;
use std::alloc::{AllocError, Global};
use std::marker::Model;

/// Samples in a row. As the first one leaves, the row begins one further on in its memory; only
/// where no place is left behind the last one are all moved to the front. Contracts see the
/// samples, and for how many there is memory.
#[derive(Drop)]
pub(crate) struct Row {
    all: Vec<Sample>,
    /// How many in front have left.
    start: usize,
}

impl Model for Row {
    ghost use Rattle.std.specs.Prelude.{◌≤◌, drop, length, vec_capacity};
    ghost use Rattle.mon_window.specs.Row.{Row, row_code};

    ghost Value = { Row };

    ghost coded = { row_code };

    ghost view = { λ r. record { items = drop r.start r.all.items; room = vec_capacity r.all } };

    ghost invariant = { λ r. r.start ≤ length r.all.items };
}

impl Row {
    /// An empty row with memory for this many samples, or more.
    pub(crate) fn with_room(alloc: Global, room: usize) -> Result<Self, AllocError>
        ensures items { IfOk result (λ r. r.items ≡ []) }
        ensures room { IfOk result (λ r. room ≤ r.room) }
    {
        let all = Vec::with_capacity(alloc, room)?;
        Ok(Row { all, start: 0 })
    }

    /// The samples.
    #[inline(always)]
    pub(crate) fn as_slice(&self) -> &[Sample]
        ensures { result.now ≡ self.now.items }
    {
        &self.all[self.start..]
    }

    /// Puts a sample in at a place, for which there is memory.
    #[inline(always)]
    pub(crate) fn insert(&mut self, at: usize, sample: Sample)
        requires place { at ≤ length self.old.items }
        requires room { length self.old.items < self.old.room }
        ensures items { self.new.items ≡ insert self.old.items at sample }
        ensures room { self.old.room ≤ self.new.room }
    {
        if self.all.len() >= self.all.capacity() {
            move_down(&mut self.all, self.start);
            self.start = 0;
        }
        self.all.insert(self.start + at, sample).unwrap();
    }

    /// Has these samples in place of those so far. There is memory for them.
    pub(crate) fn replace(&mut self, samples: &[Sample])
        requires { length samples.now ≤ self.old.room }
        ensures items { self.new.items ≡ samples.now }
        ensures room { self.old.room ≤ self.new.room }
    {
        self.all.clear();
        self.start = 0;
        self.all.extend_from_slice(samples).unwrap();
    }

    /// Takes the sample at a place out.
    #[inline(always)]
    pub(crate) fn remove(&mut self, at: usize) -> Sample
        requires { at < length self.old.items }
        ensures value { result ≡ slice_index_or self.old.items at result }
        ensures items { self.new.items ≡ remove self.old.items at }
        ensures len { length self.new.items + 1 ≡ length self.old.items }
        ensures room { self.new.room ≡ self.old.room }
    {
        if at == 0 {
            let first = self.all[self.start];
            self.start += 1;
            return first;
        }
        self.all.remove(self.start + at)
    }
}

/// Moves the samples from a place on to the front.
fn move_down(all: &mut Vec<Sample>, start: usize)
    requires { start ≤ length all.old.items }
    ensures items { all.new.items ≡ drop start all.old.items }
    ensures capacity { vec_capacity all.new ≡ vec_capacity all.old }
{
    let left = all.len() - start;
    all.copy_within(start.., 0);
    all.truncate(left);
}
