//! What a station did over its rounds, and when it reports.

ghost use Rattle.std.specs.Prelude.{◌≡◌, ◌↔◌, IfOk, IsTrue, OnErr, OnOk, map};
ghost use Rattle.std.specs.Duration.{as_nanos};
ghost use Rattle.mon_alarms.specs.Announcing.{after_announcing, announced_of, announced_states, announcer_of};
ghost use Rattle.mon_report.specs.Alarms.{states_of, windows_of};
ghost use Rattle.mon_rounds.specs.Totals.{IsDue, IsUnannounced, changes_since, counted_on, debts_to, milliseconds_left};
ghost use Rattle.mon_station.specs.State.{state_of};

use crate::reporting::RoundReport;
use mon_alarms::{AlarmChange, AlarmState, Announcer};
use mon_board::Board;
use mon_disk::Disk;
use mon_report::{alarm_changes, alarm_states, see_windows, seen_windows};
use mon_sample::Sample;
use mon_station::Station;
use std::alloc::{AllocError, Global};
use std::time::Duration;

/// The longest time between two rounds in which a station receives in one call, in milliseconds.
const LONGEST_REST: u128 = 60_000;

/// What a station did since it was started.
#[derive(Drop)]
pub struct Totals {
    taken: u64,
    given_up: u64,
    /// The windows of its alarms at the last look.
    windows: Vec<Vec<Sample>>,
    /// What is announced of its alarms.
    announcer: Announcer,
}

impl Totals {
    /// Returns the course of a station that begins with this board: what its windows hold now is no
    /// change. A change of an alarm is announced once it has held in `after` looks; each at once if
    /// that is at most 1.
    ///
    /// # Errors
    /// `AllocError` if memory is refused.
    pub fn new(alloc: Global, board: &Board, after: u32) -> Result<Self, AllocError>
        ensures taken { IfOk result (λ c. c.taken ≡ 0) }
        ensures given_up { IfOk result (λ c. c.given_up ≡ 0) }
        ensures windows { IfOk result (λ c. map (λ w. w.items) c.windows.items
            ≡ windows_of board.now) }
        ensures announcer { IfOk result (λ c. c.announcer ≡ announcer_of after
            (states_of board.now)) }
    {
        let states = alarm_states(alloc, board)?;
        Ok(Totals {
            taken: 0,
            given_up: 0,
            windows: seen_windows(alloc, board)?,
            announcer: Announcer::new(alloc, after, states.as_slice())?,
        })
    }

    /// Returns the states of its alarms that were announced last, in the order of the rules; none
    /// if each change is announced at once.
    ///
    /// # Errors
    /// `AllocError` if memory is refused.
    pub fn announced(&self, alloc: Global) -> Result<Vec<AlarmState>, AllocError>
        ensures { IfOk result (λ v. v.items ≡ announced_states self.now.announcer) }
    {
        self.announcer.states(alloc)
    }

    /// How many samples were offered in what it handled, at most 2^64 - 1.
    pub fn taken(&self) -> u64
        ensures { result ≡ self.now.taken }
    {
        self.taken
    }

    /// How many polls it gave up, at most 2^64 - 1.
    pub fn given_up(&self) -> u64
        ensures { result ≡ self.now.given_up }
    {
        self.given_up
    }

    /// Adds what a round did, or the time after it.
    pub fn add(&mut self, report: &RoundReport)
        ensures taken { self.new.taken ≡ counted_on self.old.taken report.now.taken }
        ensures given_up { self.new.given_up ≡ counted_on self.old.given_up report.now.given_up }
        ensures windows { self.new.windows ≡ self.old.windows }
        ensures announcer { self.new.announcer ≡ self.old.announcer }
    {
        self.taken = self.taken.saturating_add(report.taken);
        self.given_up = self.given_up.saturating_add(report.given_up);
    }

    /// Returns what is announced of the board's alarms. Their changes since the last call are each
    /// time that a sample raised or cleared one, also a sample that is older than others, and the
    /// state now if these do not lead to it. `looks` says whether this is a look, at a round's end,
    /// or the time between two.
    ///
    /// # Errors
    /// `AllocError`: then the next call knows these changes too, and this look does not count.
    pub fn take_changes(
        &mut self,
        alloc: Global,
        board: &Board,
        looks: bool,
    ) -> Result<Vec<AlarmChange>, AllocError>
        ensures changes { IfOk result (λ v. v.items ≡ announced_of looks
            (changes_since board.now (map (λ w. w.items) self.old.windows.items))
            self.old.announcer) }
        ensures announcer { OnOk result (self.new.announcer ≡ after_announcing looks
            (changes_since board.now (map (λ w. w.items) self.old.windows.items))
            self.old.announcer) }
        ensures windows { OnOk result (map (λ w. w.items) self.new.windows.items
            ≡ windows_of board.now) }
        ensures kept { OnErr result (IsUnannounced board.now self.old self.new) }
        ensures taken { self.new.taken ≡ self.old.taken }
        ensures given_up { self.new.given_up ≡ self.old.given_up }
    {
        let changes = alarm_changes(alloc, board, self.windows.as_slice())?;
        see_windows(alloc, board, &mut self.windows)?;
        self.announcer.announce(alloc, changes, looks)
    }
}

/// By the station number of each of these peers, how many samples the station owes it.
pub fn debts_of<D: Disk + Drop>(
    alloc: Global,
    station: &Station<D>,
    peers: &[u32],
) -> Result<Vec<(u32, u32)>, AllocError>
    ensures { IfOk result (λ v. v.items ≡ debts_to (state_of station.now.life) peers.now) }
{
    let mut debts = Vec::with_capacity(alloc, peers.len())?;
    for peer in peers {
        debts.push((*peer, station.owed(*peer)))?;
    }
    Ok(debts)
}

/// Returns `true` if the report is due after the round of this number: after every N rounds, never
/// if N is 0.
pub fn is_due(round: u32, every: u32) -> bool
    ensures { IsTrue result ↔ IsDue round every }
{
    every != 0 && round % every == 0
}

/// How many milliseconds are left of an interval of which this has passed, at most a minute of
/// them.
pub fn left_of(interval: Duration, passed: Duration) -> u32
    ensures { result ≡ milliseconds_left (as_nanos interval) (as_nanos passed) }
{
    interval
        .saturating_sub(passed)
        .as_millis()
        .min(LONGEST_REST) as u32
}
