//! An image that is kept from save to save. Where the newest sample came into a full window and the
//! oldest went, its records are moved by one; so a save writes nothing of such a window again.

ghost use Rattle.std.specs.Prelude.{◌≡◌, ◌≤◌, ◌<◌, ◌+◌, ◌*◌, ◌++◌, ◌∷◌, [], ℕ, List, All, IfOk};
ghost use Rattle.std.specs.Prelude.{IsOk, IsTrue, OnOk, Some, drop, get_or, length, vec_capacity};
ghost use Rattle.std.specs.Ordering.{nat_cmp};
ghost use Rattle.std.specs.declared.cmp.Ordering.TheVariants.{Less};
ghost use Rattle.mon_sample.specs.Key.{IsSample};
ghost use Rattle.mon_board.specs.Board.{KeepsMarks, window_of};
ghost use Rattle.mon_board.specs.Instance.{instances_of};
ghost use Rattle.mon_board.specs.Windows.{IsTaken, joined};
ghost use Rattle.mon_fields.specs.Layout.{samples_octets};
ghost use Rattle.mon_saved.specs.Image.{SpellsImage};
ghost use Rattle.mon_saved.specs.Kept.{IsKept, WasKept, records_on};
ghost use Rattle.mon_saved.specs.Written.{image_of, written_image};

use crate::writing::write_within;
use mon_board::{Board, laws};
use mon_fields::{instance_size, put_octets, samples_size};
use mon_sample::Sample;
use mon_window::Inserted;
use std::alloc::{AllocError, Global};

/// The octets that are left free in front of an image, for the head that a keeper writes.
const HEAD_ROOM: usize = 16;

/// The octets of a sample's record.
const RECORD: usize = 21;

/// An image that is kept from save to save, and its memory.
#[derive(Drop)]
pub struct KeptImage {
    /// The image behind 16 octets that are left free.
    pub octets: Vec<u8>,
    /// Where in the octets the records of each instance begin.
    places: Vec<usize>,
    /// The incarnation that the image names; 0 where the octets are no image of the windows.
    incarnation: u32,
}

impl KeptImage {
    /// None yet. It allocates nothing.
    pub fn new(alloc: Global) -> Self
        ensures { result.incarnation ≡ 0 }
    {
        KeptImage {
            octets: Vec::new(alloc),
            places: Vec::new(alloc),
            incarnation: 0,
        }
    }

    /// Makes the next `write` write all of the image: for changes of the windows that were not made
    /// by `take_pairs`.
    pub fn forget(&mut self)
        ensures forgotten { self.new.incarnation ≡ 0 }
    {
        self.incarnation = 0;
    }

    /// Makes the octets the image of the windows and the incarnation, which is not 0, behind 16
    /// octets. Nothing is written where they are it. If they have the capacity, nothing is
    /// allocated.
    ///
    /// # Errors
    /// `AllocError`: the next call writes all of it.
    pub fn write(&mut self, board: &Board, incarnation: u32) -> Result<(), AllocError>
        requires positive { 1 ≤ incarnation }
        requires kept { IsKept self.old board.now }
        ensures head { OnOk result (16 ≤ length self.new.octets.items) }
        ensures written { OnOk result (drop 16 self.new.octets.items
            ≡ written_image board.now incarnation) }
        ensures spells { OnOk result (SpellsImage (written_image board.now incarnation)
            (instances_of board.now.watch.instances) (image_of board.now incarnation)) }
        ensures few { OnOk result (length (written_image board.now incarnation) ≤ 484617) }
        ensures kept { IsKept self.new board.now }

        // What has the capacity allocates nothing, and keeps it.
        ensures spared { 16 + length (written_image board.now incarnation)
            ≤ vec_capacity self.old.octets
            → length board.now.watch.instances ≤ vec_capacity self.old.places → IsOk result }
        ensures capacity { vec_capacity self.old.octets ≤ vec_capacity self.new.octets }
        ensures places_capacity { vec_capacity self.old.places ≤ vec_capacity self.new.places }
    {
        if self.incarnation == incarnation {
            mon_window::laws::rising_list();
            mon_window::laws::bound();
            // Proof: the invariants of the board.
            let _ = board.watch().instances();
            return Ok(());
        }
        self.write_all(board, incarnation)
    }

    /// Writes all of the image.
    fn write_all(&mut self, board: &Board, incarnation: u32) -> Result<(), AllocError>
        requires positive { 1 ≤ incarnation }
        ensures head { OnOk result (16 ≤ length self.new.octets.items) }
        ensures written { OnOk result (drop 16 self.new.octets.items
            ≡ written_image board.now incarnation) }
        ensures spells { OnOk result (SpellsImage (written_image board.now incarnation)
            (instances_of board.now.watch.instances) (image_of board.now incarnation)) }
        ensures few { OnOk result (length (written_image board.now incarnation) ≤ 484617) }
        ensures kept { IsKept self.new board.now }

        // What has the capacity allocates nothing, and keeps it.
        ensures spared { 16 + length (written_image board.now incarnation)
            ≤ vec_capacity self.old.octets
            → length board.now.watch.instances ≤ vec_capacity self.old.places → IsOk result }
        ensures capacity { vec_capacity self.old.octets ≤ vec_capacity self.new.octets }
        ensures places_capacity { vec_capacity self.old.places ≤ vec_capacity self.new.places }
    {
        self.incarnation = 0;
        let size = put_places(&mut self.places, board)?;
        self.octets.clear();
        self.octets.reserve(size)?;
        put_octets(&mut self.octets, &[0; HEAD_ROOM]);
        write_within(&mut self.octets, board, incarnation);
        self.incarnation = incarnation;
        Ok(())
    }

    /// Takes samples into the board, as `Board::take_pairs` does, and moves the records of their
    /// instances.
    pub fn take_pairs(&mut self, board: &mut Board, pairs: &[(u16, Sample)])
        requires instances { All (λ pair. pair.0 < length board.old.watch.instances) pairs.now }
        requires kept { IsKept self.old board.old }
        ensures watch { board.new.watch ≡ board.old.watch }
        ensures windows { (i : ℕ) → window_of board.new i
            ≡ joined board.old.watch (window_of board.old) pairs.now i }
        ensures marks { KeepsMarks board.old board.new }
        ensures kept { IsKept self.new board.new }
    {
        laws::taken_in_turn();
        // Proof: the invariant of the watch.
        let _ = board.watch();
        for (instance, sample) in pairs {
            // Proof: the same before each turn.
            let _ = board.watch();
            self.take(board, *instance, *sample);
        }
    }

    /// Takes a sample into the board, as `Board::take` does, and moves the records of its instance.
    fn take(&mut self, board: &mut Board, instance: u16, sample: Sample)
        requires instance { instance < length board.old.watch.instances }
        requires kept { IsKept self.old board.old }
        ensures watch { board.new.watch ≡ board.old.watch }
        ensures taken { IsTaken board.old.watch (window_of board.old) (window_of board.new)
            instance sample }
        ensures marks { KeepsMarks board.old board.new }
        ensures kept { IsKept self.new board.new }
    {
        let Ok(how) = board.take(instance, sample) else {
            unreachable!()
        };
        self.follow(board, instance, how);
    }

    /// Moves the records of an instance as its window moved, or forgets the image.
    fn follow(&mut self, board: &Board, instance: u16, how: Inserted)
        requires instance { instance < length board.now.watch.instances }
        requires was { WasKept self.old board.now instance how }
        ensures kept { IsKept self.new board.now }
    {
        let items = board.items(instance);
        match how {
            Inserted::Known | Inserted::TooOld => {}
            Inserted::Added { at, dropped } => {
                if self.incarnation == 0 || !moved_by_one(items, at, dropped) {
                    self.incarnation = 0;
                    return;
                }
                move_records(&mut self.octets, self.places[usize::from(instance)], items);
            }
        }
    }
}

/// Returns `true` if the sample at this place is the newest of these, and the one that was dropped
/// is older than all.
fn moved_by_one(items: &[Sample], at: usize, dropped: Option<Sample>) -> bool
    requires { at < length items.now }
    ensures { IsTrue result → (at + 1 ≡ length items.now)
        × ((d : ℕ) × (dropped ≡ Some d) × (nat_cmp d (get_or items.now 0 0) ≡ Less)) }
{
    let Some(oldest) = dropped else {
        return false;
    };
    if at + 1 != items.len() {
        return false;
    }
    oldest.compare(&items[0]).is_lt()
}

/// Takes the first record at a place out, moves the others down, and writes the last of these
/// samples behind them.
fn move_records(octets: &mut [u8], start: usize, items: &[Sample])
    requires some { 1 ≤ length items.now }
    requires room { start + 21 * length items.now ≤ length octets.old }
    ensures len { length octets.new ≡ length octets.old }
    ensures moved { (front back rest : List ℕ) (oldest newest : ℕ)
        → octets.old ≡ front ++ (samples_octets (oldest ∷ rest) ++ back) → length front ≡ start
        → items.now ≡ rest ++ newest ∷ []
        → octets.new ≡ front ++ (samples_octets (rest ++ newest ∷ []) ++ back) }
    ensures sample { (rest : List ℕ) (newest : ℕ) → items.now ≡ rest ++ newest ∷ []
        → IsSample newest }
{
    let end = start + RECORD * items.len();
    octets.copy_within(start + RECORD..end, start);
    octets[end - RECORD..end].copy_from_slice(&items[items.len() - 1].to_record());
}

/// Puts down where in an image behind `HEAD_ROOM` octets the records of each instance begin, and
/// returns its end.
fn put_places(places: &mut Vec<usize>, board: &Board) -> Result<usize, AllocError>
    ensures number { OnOk result (length places.new.items ≡ length board.now.watch.instances) }
    ensures places { OnOk result ((i : ℕ) → i < length board.now.watch.instances
        → get_or places.new.items i 0 + length (records_on board.now.watch.instances
        (window_of board.now) i)
        ≡ 16 + length (written_image board.now 1)) }
    ensures size { IfOk result (λ n. n ≡ 16 + length (written_image board.now 1)) }
    ensures few { IfOk result (λ n. n ≤ 484633) }
    ensures spared { length board.now.watch.instances ≤ vec_capacity places.old → IsOk result }
    ensures capacity { vec_capacity places.old ≤ vec_capacity places.new }
{
    let watched = board.watch().instances();
    places.clear();
    places.reserve(watched.len())?;
    let mut at = HEAD_ROOM + 9;
    for i in 0..watched.len() {
        let instance = &watched[i].instance;
        at += 3 + instance_size(instance.engine.as_slice(), &instance.name);
        places.push(at).unwrap();
        at += samples_size(board.items(i as u16));
    }
    Ok(at)
}
