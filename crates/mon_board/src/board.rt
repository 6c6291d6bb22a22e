ghost use Rattle.std.specs.Prelude.{◌≡◌, ◌≤◌, ◌<◌, ◌*◌, ◌^◌, ◌↔◌, ℕ, All, Contains, IfOk, IfSome, IfNone, IsErr, OnErr, OnOk, Some, false, not, ◌==◌, ◌&&◌, ◌||◌, length, map, slice_get};
ghost use Rattle.std.specs.FinSet as set;
ghost use Rattle.mon_window.specs.Inserted.{IsInsertion};
ghost use Rattle.mon_window.specs.Top.{rising};
ghost use Rattle.mon_board.specs.Owed.{next_above, owed_in};
ghost use Rattle.std.specs.List.Sorted.{IsStrictlySortedBy};
ghost use Rattle.mon_board.specs.Instance.{instance_cmp, instances_of, named};
ghost use Rattle.mon_board.specs.Watch.{size_of};
ghost use Rattle.mon_board.specs.Empty.{empty_window_of, no_marks_of};
ghost use Rattle.mon_board.specs.Windows.{IsTaken, IsWhole, joined, kept_by, of_both, paired};
ghost use Rattle.mon_rates.specs.Totals as sums;

use crate::each::{clear_each, copy_each, join_each, keep_each};
use crate::fault::UnknownInstance;
use crate::instance::Watched;
use crate::laws;
use crate::marks::{Marks, first_unmarked, stands_in};
use crate::watch::Watch;
use mon_oid::Oid;
use mon_rates::{Totals, Track};
use mon_sample::Sample;
use mon_window::Inserted;
use std::alloc::{AllocError, Global};
use std::marker::Model;

/// The windows of a watch's instances, with their totals and marks. It takes all its memory when it
/// is made; no other call takes any. Contracts see the watch, and of each instance the set of its
/// samples and the marks on them.
pub struct Board {
    watch: Watch,
    windows: Vec<Track>,
    marks: Vec<Marks>,
}

// By hand: where one is let go, a proof has one call and not a drop of each field.
impl Drop for Board {
    fn drop(self) {
        let Board {
            watch: _,
            windows: _,
            marks: _,
        } = self;
    }
}

impl Model for Board {
    ghost use Rattle.std.specs.Prelude.{length};
    ghost use Rattle.mon_board.specs.Board.{Board, AreWindows, AreAllMarks, board_code, sets_of, marks_of};
    ghost use Rattle.mon_board.specs.Watch.{size_of, epoch_of};

    ghost Value = { Board };

    ghost coded = { board_code };

    ghost view = { λ b. record {
      watch = b.watch;
      windows = sets_of b.windows.items;
      marks =
          marks_of b.marks.items;
    } };

    ghost invariant = { λ b. AreWindows (size_of b.watch) (epoch_of b.watch)
        (length b.watch.instances) b.windows.items × AreAllMarks (size_of b.watch)
        (sets_of b.windows.items) b.marks.items };
}

impl Board {
    ghost use Rattle.mon_board.specs.Board.{window_of, is_marked, KeepsMarks, MarksEntries};

    /// A board of the watch, with empty windows.
    pub fn new(alloc: Global, watch: Watch) -> Result<Self, AllocError>
        ensures watch { IfOk result (λ b. b.watch ≡ watch) }
        ensures empty { IfOk result (λ b. (i : ℕ) → window_of b i ≡ set.empty) }
        ensures unmarked { IfOk result (λ b. (slot i s : ℕ) → is_marked b slot i s ≡ false) }
    {
        let windows = empty_windows(alloc, &watch)?;
        let marks = no_marks(alloc, &watch)?;
        Ok(Board {
            watch,
            windows,
            marks,
        })
    }

    /// The watch.
    pub fn watch(&self) -> &Watch
        ensures watch { result.now ≡ self.now.watch }
        // A window holds no more than the watch keeps of it.
        ensures whole { (i : ℕ) → IsWhole self.now.watch (window_of self.now) i }
        ensures entries { MarksEntries self.now }
    {
        &self.watch
    }

    /// The number of the object of this name at this engine, where it is watched.
    pub fn find(&self, engine: &[u8], name: &Oid) -> Option<u16>
        ensures found { IfSome result (λ i. slice_get (instances_of self.now.watch.instances) i
            ≡ Some (named engine.now name.now)) }
        ensures absent { IfNone result (¬ (Contains (instances_of self.now.watch.instances)
            (named engine.now name.now))) }
        // The instances rise, so none is there twice.
        ensures only { (i : ℕ) → slice_get (instances_of self.now.watch.instances) i
            ≡ Some (named engine.now name.now) → result ≡ Some i }
    {
        match search(self.watch.instances(), engine, name) {
            Some(place) => Some(place as u16),
            None => None,
        }
    }

    /// Takes a sample of the instance in, and returns what became of it in its window. It changes
    /// only that window.
    pub fn take(&mut self, instance: u16, sample: Sample) -> Result<Inserted, UnknownInstance>
        ensures watch { self.new.watch ≡ self.old.watch }
        ensures unknown { IsErr result ↔ (length self.old.watch.instances ≤ instance) }
        ensures refused { OnErr result (self.new ≡ self.old) }
        ensures taken { OnOk result (IsTaken self.old.watch (window_of self.old)
            (window_of self.new) instance sample) }
        ensures marks { KeepsMarks self.old self.new }
        ensures inserted { IfOk result (IsInsertion (kept_by self.old.watch instance)
            (window_of self.old instance) (window_of self.new instance) sample) }
    {
        let place = usize::from(instance);
        if place >= self.windows.len() {
            return Err(UnknownInstance);
        }
        let window = &mut self.windows[place];
        let inserted = window.insert(sample);
        let marks = &mut self.marks[place];
        marks.keep(window);
        Ok(inserted)
    }

    /// Takes samples of the instance in, one after another. It changes only that instance's window.
    pub fn take_all(&mut self, instance: u16, samples: &[Sample])
        requires { instance < length self.old.watch.instances }
        ensures watch { self.new.watch ≡ self.old.watch }
        ensures windows { (i : ℕ) → window_of self.new i ≡ joined self.old.watch
            (window_of self.old) (paired instance samples.now) i }
        ensures marks { KeepsMarks self.old self.new }
    {
        laws::taken_in_turn();
        // Proof: the invariant of the watch.
        let _ = self.watch();
        for sample in samples {
            // Proof: the same before each turn.
            let _ = self.watch();
            let _ = self.take(instance, *sample);
        }
    }

    /// Takes samples in, one after another, each of the instance whose number comes with it. It
    /// changes no other window.
    pub fn take_pairs(&mut self, pairs: &[(u16, Sample)])
        requires { All (λ pair. pair.0 < length self.old.watch.instances) pairs.now }
        ensures watch { self.new.watch ≡ self.old.watch }
        ensures windows { (i : ℕ) → window_of self.new i ≡ joined self.old.watch
            (window_of self.old) pairs.now i }
        ensures marks { KeepsMarks self.old self.new }
    {
        laws::taken_in_turn();
        // Proof: the invariant of the watch.
        let _ = self.watch();
        for (instance, sample) in pairs {
            // Proof: the same before each turn.
            let _ = self.watch();
            let _ = self.take(*instance, *sample);
        }
    }

    /// The samples of the instance's window, the oldest first.
    pub fn items(&self, instance: u16) -> &[Sample]
        requires { instance < length self.now.watch.instances }
        ensures items { result.now ≡ rising (window_of self.now instance) }
        ensures few { length (rising (window_of self.now instance))
            ≤ size_of self.now.watch instance }
    {
        self.windows[usize::from(instance)].items()
    }

    /// The totals of the instance's items, small enough for a rate. They are kept up with each
    /// sample, not summed here.
    pub fn totals(&self, instance: u16) -> Totals
        requires { instance < length self.now.watch.instances }
        ensures totals { result ≡ sums.totals (rising (window_of self.now instance)) }
        ensures rated { 1000 * result.delta < 2 ^ 128 }
    {
        self.windows[usize::from(instance)].totals()
    }

    /// Takes all samples of another board of an equal watch in.
    pub fn join(&mut self, other: &Board)
        requires { other.now.watch ≡ self.old.watch }
        ensures watch { self.new.watch ≡ self.old.watch }
        ensures windows { (i : ℕ) → window_of self.new i ≡ of_both self.old.watch
            (window_of self.old) (window_of other.now) i }
        ensures marks { KeepsMarks self.old self.new }
    {
        join_each(&mut self.windows, &other.windows);
        keep_each(&mut self.marks, &self.windows);
    }

    /// Takes the samples of another board of an equal watch in place of its own.
    pub fn copy_from(&mut self, other: &Board)
        requires { other.now.watch ≡ self.old.watch }
        ensures watch { self.new.watch ≡ self.old.watch }
        ensures windows { self.new.windows ≡ other.now.windows }
        ensures marks { KeepsMarks self.old self.new }
    {
        copy_each(&mut self.windows, &other.windows);
        keep_each(&mut self.marks, &self.windows);
    }

    /// Marks a sample of the instance for a slot, if it is in the window.
    pub fn mark(&mut self, slot: u8, instance: u16, sample: &Sample)
        requires slot { slot < 15 }
        requires instance { instance < length self.old.watch.instances }
        ensures watch { self.new.watch ≡ self.old.watch }
        ensures windows { self.new.windows ≡ self.old.windows }
        ensures marks { (k j s : ℕ) → is_marked self.new k j s
            ≡ (is_marked self.old k j s || (((k == slot) && (j == instance))
            && ((s == sample.now) && set.contains (window_of self.old j) s))) }
    {
        let place = usize::from(instance);
        if stands_in(&self.windows[place], sample) {
            self.marks[place].set(slot, sample);
        }
    }

    /// Takes all marks of a slot away.
    pub fn unmark_all(&mut self, slot: u8)
        requires { slot < 15 }
        ensures watch { self.new.watch ≡ self.old.watch }
        ensures windows { self.new.windows ≡ self.old.windows }
        ensures marks { (k j s : ℕ) → is_marked self.new k j s
            ≡ (is_marked self.old k j s && not (k == slot)) }
    {
        clear_each(&mut self.marks, slot);
    }

    /// Returns the least sample of the instance that is not marked for the slot, above another one
    /// if given.
    pub fn owed(&self, slot: u8, instance: u16, after: Option<Sample>) -> Option<Sample>
        requires slot { slot < 15 }
        requires instance { instance < length self.now.watch.instances }
        ensures { result ≡ next_above after (rising (owed_in (window_of self.now)
            (is_marked self.now slot) instance)) }
    {
        let place = usize::from(instance);
        first_unmarked(self.windows[place].items(), &self.marks[place], slot, after)
    }
}

/// Returns no marks, with capacity for those of each window.
fn no_marks(alloc: Global, watch: &Watch) -> Result<Vec<Marks>, AllocError>
    ensures { IfOk result (λ v. v.items ≡ map no_marks_of watch.now.instances) }
{
    let mut marks = Vec::with_capacity(alloc, watch.instances().len())?;
    for watched in watch.instances() {
        marks.push(Marks::new(alloc, watched.window)?)?;
    }
    Ok(marks)
}

/// An empty window for each instance.
fn empty_windows(alloc: Global, watch: &Watch) -> Result<Vec<Track>, AllocError>
    ensures { IfOk result (λ v. v.items ≡ map empty_window_of watch.now.instances) }
{
    let mut windows = Vec::with_capacity(alloc, watch.instances().len())?;
    for watched in watch.instances() {
        windows.push(Track::new(alloc, watched.window, watched.epoch)?)?;
    }
    Ok(windows)
}

/// Returns the place of the object of this name at this engine among rising instances.
fn search(instances: &[Watched], engine: &[u8], name: &Oid) -> Option<usize>
    requires { IsStrictlySortedBy instance_cmp (instances_of instances.now) }
    ensures found { IfSome result (λ i. slice_get (instances_of instances.now) i
        ≡ Some (named engine.now name.now)) }
    ensures within { IfSome result (λ i. i < length instances.now) }
    ensures absent { IfNone result (¬ (Contains (instances_of instances.now)
        (named engine.now name.now))) }
{
    match instances.binary_search_by(|watched| watched.instance.compare(engine, name)) {
        Ok(place) => Some(place),
        Err(_) => None,
    }
}
