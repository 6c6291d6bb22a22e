//! Stations.

ghost use Rattle.std.specs.Prelude.{◌≡◌, ◌≤◌, ◌-◌, ◌^◌, ◌∷◌, List, ℕ, true, false, Err, OnErr, OnOk, Option, Some, IfErr, IfNone, IfOk, IfSome, IsOk, IsTrue, length};
ghost use Rattle.std.specs.FinMap as map;
ghost use Rattle.mon_disk.specs.declared.file.TheConstants.{SLOT_SIZE};
ghost use Rattle.mon_disk.specs.File.{found};
ghost use Rattle.mon_disk.specs.Keeper.{found_generation};
ghost use Rattle.mon_disk.specs.Disk.{Leaves, LeavesSince};
ghost use Rattle.mon_saved.specs.Kept.{IsKept};

use crate::event::{Event, LentEvent, OwnedEvent, Told};
use crate::fault::StationFault;
use crate::life::{Life, told_none};
use crate::mending::reopen_and_save;
use mon_board::Board;
use mon_disk::{Disk, FuseDisk, Keeper, KeeperFault};
use mon_saved::KeptImage;
use std::alloc::Global;

/// A station: one life, and the keeper of its file.
#[derive(Drop)]
pub struct Station<D: Disk + Drop> {
    pub(crate) life: Life,
    pub(crate) keeper: Keeper<D>,
    /// The last image that was saved, behind the head that the keeper wrote. It moves with the
    /// windows, so that a save writes little of it again.
    pub(crate) image: KeptImage,
    ghost kept: { IsKept image life.board },
}

impl<D: Disk + Drop> Station<D> {
    ghost use Rattle.mon_disk.specs.Kept.{device_of, is_spoiled, last_body, last_generation};
    ghost use Rattle.mon_station.specs.ReadEvent.{ReadEvent, ReadsAs, owned};
    ghost use Rattle.mon_station.specs.ReadEvent as read;
    ghost use Rattle.mon_station.specs.Saved.{FindsRunning, FindsState, IsCausedBy, IsOfKeeper, IsSaveFault, IsSavedAs, may_meet};
    ghost use Rattle.mon_station.specs.State.{known_of, owed_count, setting_of, state_of};
    ghost use Rattle.mon_station.specs.Verdict.{slot_of};
    ghost use Rattle.mon_station.specs.Told.{IsAnswered};
    ghost use Rattle.mon_poller.specs.Verdict.{IsSentAgain, timeout_verdict};
    ghost use Rattle.mon_station.specs.Step.{IsRead, left_polls};
    ghost use Rattle.mon_station.specs.State.{State};
    ghost use Rattle.mon_station.specs.Taken.{Answered, Entry};
    ghost use Rattle.mon_station.specs.Lived.{IsLived, answer_in, last_state};
    ghost use Rattle.mon_station.specs.Stops.{Handled, Happens, Moved};

    /// Handles an event. All memory is taken before anything is changed.
    ///
    /// # Errors
    /// `OutOfMemory`, which changes nothing; the refusal of a poll, a response, a claim or a share;
    /// at a save the keeper's fault. A refusal changes nothing, except that a response may end its
    /// poll, and a save that met `DiskFault` may have been saved or not; the next save mends the
    /// file first.
    pub fn step(&mut self, alloc: Global, event: LentEvent<'_>) -> Result<Told, StationFault>
        // However the event's datagram reads: the answer is the verdict, and this is what it
        // leaves, sends and reports.
        ensures answered { (e : ReadEvent) → ReadsAs self.old.life.board.watch (owned event.entry) e
            → IsAnswered (state_of self.old.life) (state_of self.new.life) e result }
        ensures read { IsRead self.old.life.board.watch (owned event.entry) result }
        ensures setting { setting_of (state_of self.new.life)
            ≡ setting_of (state_of self.old.life) }

        // At most 512 datagrams are sent.
        ensures few { IfOk result (λ told. length told.sends.items ≤ 512) }

        // What is refused changes nothing except the open polls, and out of memory nothing at all.
        ensures refused { OnErr result (state_of self.new.life
            ≡ left_polls (state_of self.old.life) self.new.life.poller.polls) }
        ensures memory { result ≡ Err StationFault.OutOfMemory
            → (state_of self.new.life ≡ state_of self.old.life)
            × (self.new.keeper ≡ self.old.keeper) }

        // A timeout at which nothing is sent allocates nothing.
        ensures spared { (id : ℕ) → owned event.entry ≡ Event.Timeout id
            → ¬ (IsSentAgain (timeout_verdict self.old.life.poller.targets
            self.old.life.poller.polls id)) → IsOk result }

        // A lived history goes on: with the event, as it reads, its answer and the state that it
        // left.
        ensures lived { (past : List (Entry × State)) → IsLived past
            → last_state past ≡ Some (state_of self.old.life)
            → (e : ReadEvent) → ReadsAs self.old.life.board.watch (owned event.entry) e
            → IsLived ((Answered e (answer_in result), state_of self.new.life) ∷ past) }
        // It is a step of the law of stops.
        ensures happens { D.is_honest (device_of self.old.keeper) → (saved : State)
            → IsSavedAs saved (last_body self.old.keeper) → (e : ReadEvent)
            → ReadsAs self.old.life.board.watch (owned event.entry) e
            → Happens D.Disk (Handled e (answer_in result) (state_of self.new.life))
            (Some (record { now = state_of self.old.life; saved = saved }))
            (device_of self.old.keeper) (device_of self.new.keeper) }

        // So is a save on a disk to which the station moved (`move_to`), from the first that is
        // answered Ok on.
        ensures moved { D.is_honest (device_of self.old.keeper) → event.entry ≡ Event.Save
            → (before : D) (saved : State) → OnOk result (Happens D.Disk Moved
            (Some (record { now = state_of self.old.life; saved = saved })) before
            (device_of self.new.keeper)) }

        // A save changes nothing in memory.
        ensures same { event.entry ≡ Event.Save → self.new.life ≡ self.old.life }

        // The file: no other event than a save changes it, and after one that was answered Ok a
        // crash leaves a file in which it is found.
        ensures disk { (event.entry ≡ Event.Save → ⊥) → self.new.keeper ≡ self.old.keeper }
        ensures saved { D.is_honest (device_of self.old.keeper) → event.entry ≡ Event.Save
            → OnOk result (Leaves (D.may_leave (device_of self.new.keeper))
            (FindsState (state_of self.old.life))) }
        ensures unsaved { IfErr result (λ f. (f ≡ StationFault.Keeper KeeperFault.DiskFault → ⊥)
            → self.new.keeper ≡ self.old.keeper) }
        // The keeper then knows this state as the last saved, else the one before.
        ensures last { D.is_honest (device_of self.old.keeper) → event.entry ≡ Event.Save
            → OnOk result (IsSavedAs (state_of self.old.life) (last_body self.new.keeper)) }
        ensures last_err { D.is_honest (device_of self.old.keeper)
            → OnErr result (last_body self.new.keeper ≡ last_body self.old.keeper) }
        // A crash in the middle leaves a file in which an opening meets what it might have met
        // before, or finds the last save again, or this one.
        ensures any_moment { D.is_honest (device_of self.old.keeper)
            → LeavesSince D.moment D.left_since (device_of self.old.keeper)
            (device_of self.new.keeper)
            (FindsRunning (may_meet self.old.keeper) (state_of self.old.life)) }
        ensures honest { D.is_honest (device_of self.old.keeper)
            → D.is_honest (device_of self.new.keeper) }

        // A keeper's fault is a save's, and each has its cause.
        ensures keeper { IfErr result (λ f. IsOfKeeper f → event.entry ≡ Event.Save) }
        ensures save_fault { event.entry ≡ Event.Save → IfErr result IsSaveFault }
        ensures count { D.faults (device_of self.old.keeper)
            ≤ D.faults (device_of self.new.keeper) }
        ensures cause { IfErr result (IsCausedBy (D.faults (device_of self.old.keeper))
            (D.faults (device_of self.new.keeper))) }
        ensures no_more { event.entry ≡ Event.Save → result ≡ Err
            (StationFault.Keeper KeeperFault.NoMoreGenerations)
            → last_generation self.old.keeper ≡ 2 ^ 64 - 1 }
        ensures no_more_found { D.is_honest (device_of self.old.keeper) → event.entry ≡ Event.Save
            → result ≡ Err (StationFault.Keeper KeeperFault.NoMoreGenerations)
            → found_generation (found SLOT_SIZE (D.seen (device_of self.old.keeper))) ≡ 2 ^ 64 - 1 }
        ensures spoiled { event.entry ≡ Event.Save → result ≡ Err
            (StationFault.Keeper KeeperFault.DiskFault) → is_spoiled self.new.keeper ≡ true }
    {
        match event {
            Event::StartPoll(target) => self.life.start_poll(alloc, target),
            Event::Timeout(id) => self.life.timeout(alloc, id),
            Event::FromAgent(from, octets) => {
                self.life.from_agent(alloc, from, octets, &mut self.image)
            }
            Event::FromPeer(octets) => self.life.from_peer(alloc, octets, &mut self.image),
            Event::Share(peer) => self.life.share(alloc, peer),
            Event::Save => self.save(alloc),
        }
    }

    /// Saves the windows and the incarnation. A keeper whose disk failed in an earlier save is
    /// reopened first.
    pub(crate) fn save(&mut self, alloc: Global) -> Result<Told, StationFault>
        ensures same { self.new.life ≡ self.old.life }
        ensures answered { IsAnswered (state_of self.old.life) (state_of self.new.life) read.Save
            result }
        ensures saved { D.is_honest (device_of self.old.keeper)
            → OnOk result (Leaves (D.may_leave (device_of self.new.keeper))
            (FindsState (state_of self.old.life))) }
        ensures last { D.is_honest (device_of self.old.keeper)
            → OnOk result (IsSavedAs (state_of self.old.life) (last_body self.new.keeper)) }
        ensures last_err { D.is_honest (device_of self.old.keeper)
            → OnErr result (last_body self.new.keeper ≡ last_body self.old.keeper) }
        ensures any_moment { D.is_honest (device_of self.old.keeper)
            → LeavesSince D.moment D.left_since (device_of self.old.keeper)
            (device_of self.new.keeper)
            (FindsRunning (may_meet self.old.keeper) (state_of self.old.life)) }
        ensures unsaved { IfErr result (λ f. (f ≡ StationFault.Keeper KeeperFault.DiskFault → ⊥)
            → self.new.keeper ≡ self.old.keeper) }
        ensures fault { IfErr result IsSaveFault }
        ensures honest { D.is_honest (device_of self.old.keeper)
            → D.is_honest (device_of self.new.keeper) }
        ensures fresh { OnOk result (is_spoiled self.new.keeper ≡ false) }
        ensures count { D.faults (device_of self.old.keeper)
            ≤ D.faults (device_of self.new.keeper) }
        ensures cause { IfErr result (IsCausedBy (D.faults (device_of self.old.keeper))
            (D.faults (device_of self.new.keeper))) }
        ensures no_more { result ≡ Err (StationFault.Keeper KeeperFault.NoMoreGenerations)
            → last_generation self.old.keeper ≡ 2 ^ 64 - 1 }
        ensures no_more_found { D.is_honest (device_of self.old.keeper)
            → result ≡ Err (StationFault.Keeper KeeperFault.NoMoreGenerations)
            → found_generation (found SLOT_SIZE (D.seen (device_of self.old.keeper))) ≡ 2 ^ 64 - 1 }
        ensures spoiled { result ≡ Err (StationFault.Keeper KeeperFault.DiskFault)
            → is_spoiled self.new.keeper ≡ true }
    {
        self.life.settled();
        self.life.image(&mut self.image)?;
        match reopen_and_save(&mut self.keeper, self.image.octets.as_mut_slice()) {
            Ok(()) => Ok(told_none(alloc)),
            Err(fault) => Err(StationFault::from(fault)),
        }
    }

    /// The windows, and the marks on their samples.
    pub fn board(&self) -> &Board
        ensures { result.now ≡ (state_of self.now.life).board }
    {
        &self.life.board
    }

    /// The incarnation, from 1.
    pub fn incarnation(&self) -> u32
        ensures { result ≡ (state_of self.now.life).incarnation }
    {
        self.life.incarnation
    }

    /// The incarnation that is known of a peer: the greatest that a claim of it named in this life.
    pub fn known(&self, peer: u32) -> Option<u32>
        ensures { result ≡ known_of (state_of self.now.life) peer }
    {
        self.life.peers.known(peer)
    }

    /// Returns how many samples a peer is owed: of what is in the windows, all that no claim of it
    /// in its known incarnation has said. A station that is no peer is owed nothing.
    pub fn owed(&self, peer: u32) -> u32
        ensures { result ≡ owed_count (state_of self.now.life)
            (slot_of (setting_of (state_of self.now.life)).peers peer) }
    {
        match self.life.peers.slot(peer) {
            Some(slot) => self.life.owed_count(slot),
            None => 0,
        }
    }

    /// The request-id of the oldest open poll.
    pub fn oldest(&self) -> Option<u32>
        ensures there { IfSome result (λ id. IsTrue (map.contains_key
            (state_of self.now.life).poller.polls.open_polls id)) }
        ensures least { IfSome result (λ id. (other : ℕ) → IsTrue
            (map.contains_key (state_of self.now.life).poller.polls.open_polls other)
            → id ≤ other) }
        ensures none { IfNone result ((state_of self.now.life).poller.polls.open_polls
            ≡ map.empty) }
    {
        self.life.poller.oldest()
    }

    /// The disk.
    pub fn disk(&self) -> &D
        ensures { result.now ≡ device_of self.now.keeper }
    {
        self.keeper.disk()
    }

    /// The disk, without its station.
    pub fn into_disk(self) -> D
        ensures { result ≡ device_of self.keeper }
    {
        self.keeper.into_disk()
    }
}

impl<D: Disk + Drop> Station<FuseDisk<D>> {
    ghost use Rattle.mon_disk.specs.Kept.{device_of, is_spoiled, last_body};
    ghost use Rattle.mon_disk.specs.Wrapped.{calls_left, under_fuse};

    /// From now on `calls` calls of the disk pass, and all later ones fail and do nothing.
    pub fn set(&mut self, calls: u64)
        ensures life { self.new.life ≡ self.old.life }
        ensures disk { under_fuse (device_of self.new.keeper)
            ≡ under_fuse (device_of self.old.keeper) }
        ensures calls { calls_left (device_of self.new.keeper) ≡ Some calls }
        ensures spoiled { is_spoiled self.new.keeper ≡ is_spoiled self.old.keeper }
        ensures last { last_body self.new.keeper ≡ last_body self.old.keeper }
    {
        self.keeper.set(calls);
    }
}
