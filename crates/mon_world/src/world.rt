//! A world of stations.

ghost use Rattle.std.specs.Prelude.{◌≡◌, ◌≤◌, ◌<◌, ◌+◌, ◌∷◌, ◌⊎◌, List, [], ℕ, Option, Some, None, Ok, Err, IfOk, IfErr, IfSome, OnOk, OnErr, length, map, vec_len};
ghost use Rattle.mon_disk.specs.Keeper.{found_body};
ghost use Rattle.mon_disk.specs.Memory.{memory_octets};
ghost use Rattle.mon_config.specs.StationCore.{Core as AnyCore};
ghost use Rattle.mon_station.specs.ReadEvent.{owned};
ghost use Rattle.mon_world.specs.Cause.{IsFaultOfReopening, IsFileReason, IsRestartReason, IsSaveReason, IsStopReason};
ghost use Rattle.mon_world.specs.Fault.{IsCause, IsDeliveryCause, IsFaultOfNew, IsRestartCause, IsSaveCause, IsStationCause, IsStopCause, IsThere, refusal_in};
ghost use Rattle.mon_world.specs.Kept.{AreKept};
ghost use Rattle.mon_world.specs.Moves.{AreUnforged, Move};
ghost use Rattle.mon_world.specs.Outcome.{AreStepOutcomes, Delivers, Does, Hands, Hears, IsStepOutcome, Opens, StopsAndOpens, first_lives, target_number};
ghost use Rattle.mon_world.specs.Places.{HasNumber, IsNoCount, IsNoNumberTo, IsNumberTo, setting_at};
ghost use Rattle.mon_world.specs.Sending.{to_peers};
ghost use Rattle.mon_world.specs.Shows.{AreShown, DebtsAreTrue, IsStationAsked, IsStationRefused, IsReplaced, LeadsTo, Shows, StatesOweTruly, state_in};

use crate::fault::WorldFault;
use crate::laws;
use crate::opening::{core_at, open_all, opening_fault};
use crate::sending::{Datagram, Sent, append, none_after};
use crate::speaker::speaker;
use crate::step::Step;
use crate::stop::{promise_unsaved, stop_at};
use mon_config::Core;
use mon_disk::MemoryDisk;
use mon_station::{Event, LentEvent, Station, Told};
use std::alloc::Global;

/// The most datagrams that one step sends.
const ROOM: usize = 512;

/// The calls of the disk of a save.
const CALLS: u8 = 6;

/// The most stations of a world.
const MOST: u32 = 16;

/// Several stations with equal watches and targets, all peers of each other, each on its own disk
/// in memory, and every datagram that was sent between them.
pub struct World {
    core: Core,
    stations: Vec<Station<MemoryDisk>>,
    sent: Vec<Datagram>,
    alloc: Global,
    ghost few: { length stations.items ≤ 16 },
}

// By hand: where one is let go, a proof has one call and not a drop of each field.
impl Drop for World {
    fn drop(self) {
        let World {
            core: _,
            stations: _,
            sent: _,
            alloc: _,
        } = self;
    }
}

impl World {
    /// Makes a world of 1 to 16 stations, numbered from 1, with this core's watch and targets; each
    /// is opened on an empty disk.
    ///
    /// # Errors
    /// `BadCount` unless they are 1 to 16; `Refused` where an opening was refused; `OutOfMemory`.
    pub fn new(alloc: Global, core: &Core, count: u32) -> Result<World, WorldFault>
        ensures opened { IfOk result (λ world. Shows core.now world.stations.items world.sent.items
            (first_lives (setting_at core.now count) 1 (map state_in world.stations.items))) }
        ensures count { IfOk result (λ world. length world.stations.items ≡ count) }
        ensures core { IfOk result (λ world. world.core ≡ core.now) }
        ensures bad { IsNoCount count → result ≡ Err WorldFault.BadCount }
        ensures good { result ≡ Err WorldFault.BadCount → IsNoCount count }
        // Each fault has its cause.
        ensures fault { IfErr result (IsFaultOfNew count) }
    {
        if count == 0 || count > MOST {
            return Err(WorldFault::BadCount);
        }
        let stations = open_all(alloc, core, count)?;
        Ok(World {
            core: core.try_clone(alloc)?,
            stations,
            sent: Vec::new(alloc),
            alloc,
        })
    }

    /// The station of this number, from 1 on, if there is one.
    pub fn station(&self, number: u32) -> Option<&Station<MemoryDisk>>
        ensures there { IfSome result (λ station. HasNumber self.now.stations.items number
            station.now) }
        ensures none { result ≡ None → IsNoNumberTo (length self.now.stations.items) number }
    {
        match self.place_of(number) {
            Ok(place) => Some(&self.stations[place]),
            Err(_) => None,
        }
    }

    /// What stations say of their debts is true in every world to which moves led in which no claim
    /// was forged; restarts and stops may be among them. It does nothing.
    pub fn debts(&self)
        ensures stations { (moves : List Move) → Shows self.now.core self.now.stations.items
            self.now.sent.items moves → AreUnforged moves → DebtsAreTrue self.now.stations.items
            moves }
        ensures states { (moves : List Move) → Shows self.now.core self.now.stations.items
            self.now.sent.items moves → AreUnforged moves → StatesOweTruly moves }
    {
        laws::debts();
        // Proof: the invariant of the watch.
        let _ = self.core.watch();
    }

    /// The place of the station of this number.
    fn place_of(&self, number: u32) -> Result<usize, WorldFault>
        ensures place { IfOk result (λ place. number ≡ place + 1) }
        ensures within { IfOk result (λ place. place < length self.now.stations.items) }
        ensures fault { IfErr result (IsStationCause (length self.now.stations.items) number) }
        ensures strange { IfErr result (λ fault. fault ≡ WorldFault.NoSuchStation) }
    {
        if number == 0 || number as usize > self.stations.len() {
            return Err(WorldFault::NoSuchStation);
        }
        Ok(number as usize - 1)
    }

    /// Hands an event to a station.
    fn handle(&mut self, number: u32, event: LentEvent<'_>) -> Result<Sent, WorldFault>
        ensures outcome { (past : List Move) → Shows self.old.core self.old.stations.items
            self.old.sent.items past
            → LeadsTo self.new.core self.new.stations.items self.new.sent.items
            (λ now. Does (Hands (setting_at self.old.core (length self.old.stations.items)
            number) number (owned event.entry)) result past now) }
        ensures there { OnOk result (IsNumberTo (length self.old.stations.items) number) }
        ensures cause { IfErr result (IsStationCause (length self.old.stations.items) number) }
        ensures saving { event.entry ≡ Event.Save → IfErr result
            (IsSaveCause (length self.old.stations.items) number) }
        ensures reason { event.entry ≡ Event.Save → IfErr result
            (IsSaveReason number self.old.stations.items self.new.stations.items) }
        ensures first { IfOk result (λ sent. sent.first ≡ length self.old.sent.items + 1) }
        ensures count { IfOk result (λ sent. length self.old.sent.items + sent.count
            ≡ length self.new.sent.items) }
        ensures refused { OnErr result (self.new.sent.items ≡ self.old.sent.items) }
        ensures kept { IfErr result (AreKept self.old.stations.items self.new.stations.items) }
        ensures core { self.new.core ≡ self.old.core }
        ensures stations { length self.new.stations.items ≡ length self.old.stations.items }
    {
        self.sent.reserve(ROOM)?;
        let place = self.place_of(number)?;
        let told = ask(self.alloc, &mut self.stations, place, event)?;
        Ok(append(&mut self.sent, told.sends))
    }

    /// The place of the datagram of this number.
    fn datagram_at(&self, number: u64) -> Result<usize, WorldFault>
        ensures place { IfOk result (λ place. number ≡ place + 1) }
        ensures within { IfOk result (λ place. place < length self.now.sent.items) }
        ensures fault { IfErr result (IsDeliveryCause (length self.now.sent.items) number) }
        ensures strange { IfErr result (λ fault. fault ≡ WorldFault.NoSuchDatagram) }
    {
        if number == 0 || number > self.sent.len() as u64 {
            return Err(WorldFault::NoSuchDatagram);
        }
        Ok(number as usize - 1)
    }

    /// Hands a datagram to the station that it was sent to.
    fn deliver(&mut self, number: u64) -> Result<Sent, WorldFault>
        ensures outcome { (past : List Move) → Shows self.old.core self.old.stations.items
            self.old.sent.items past
            → LeadsTo self.new.core self.new.stations.items self.new.sent.items
            (λ now. Does (Delivers (setting_at self.old.core (length self.old.stations.items))
            number) result past now) }
        ensures there { OnOk result (IsNumberTo (length self.old.sent.items) number) }
        ensures cause { (past : List Move) → Shows self.old.core self.old.stations.items
            self.old.sent.items past → IfErr result (IsDeliveryCause (length self.old.sent.items)
            number) }
        ensures first { IfOk result (λ sent. sent.first ≡ length self.old.sent.items + 1) }
        ensures count { IfOk result (λ sent. length self.old.sent.items + sent.count
            ≡ length self.new.sent.items) }
        ensures refused { OnErr result (self.new.sent.items ≡ self.old.sent.items) }
        ensures kept { IfErr result (AreKept self.old.stations.items self.new.stations.items) }
        ensures core { self.new.core ≡ self.old.core }
        ensures stations { length self.new.stations.items ≡ length self.old.stations.items }
    {
        self.sent.reserve(ROOM)?;
        let datagram = self.datagram_at(number)?;
        let place = self.place_of(self.sent[datagram].to)?;
        let event = Event::FromPeer(self.sent[datagram].octets.as_slice());
        let told = ask(self.alloc, &mut self.stations, place, event)?;
        Ok(append(&mut self.sent, told.sends))
    }

    /// Hands what an agent says to a station: it comes from the address of the target of this
    /// number, or from a strange one.
    fn hear(&mut self, number: u32, target: u32, octets: &[u8]) -> Result<Sent, WorldFault>
        ensures outcome { (past : List Move) → Shows self.old.core self.old.stations.items
            self.old.sent.items past
            → LeadsTo self.new.core self.new.stations.items self.new.sent.items
            (λ now. Does (Hears (setting_at self.old.core (length self.old.stations.items)
            number) number target octets.now) result past now) }
        ensures there { OnOk result (IsNumberTo (length self.old.stations.items) number) }
        ensures cause { IfErr result (IsStationCause (length self.old.stations.items) number) }
        ensures first { IfOk result (λ sent. sent.first ≡ length self.old.sent.items + 1) }
        ensures count { IfOk result (λ sent. length self.old.sent.items + sent.count
            ≡ length self.new.sent.items) }
        ensures refused { OnErr result (self.new.sent.items ≡ self.old.sent.items) }
        ensures kept { IfErr result (AreKept self.old.stations.items self.new.stations.items) }
        ensures core { self.new.core ≡ self.old.core }
        ensures stations { length self.new.stations.items ≡ length self.old.stations.items }
    {
        let from = speaker(self.core.targets(), target);
        self.handle(number, Event::FromAgent(from, octets))
    }

    /// Opens the station at a place from this disk, in place of the one that was there.
    fn reopen(&mut self, place: usize, disk: MemoryDisk) -> Result<Sent, WorldFault>
        requires { place < length self.old.stations.items }
        ensures opened { OnOk result (IsReplaced self.old.core place
            (found_body (memory_octets disk)) self.old.stations.items self.new.stations.items) }
        ensures cause { IfErr result (IsFaultOfReopening self.old.core.watch (memory_octets disk)) }
        ensures refused { OnErr result (self.new.stations.items ≡ self.old.stations.items) }
        ensures sent { self.new.sent.items ≡ self.old.sent.items }
        ensures core { self.new.core ≡ self.old.core }
        ensures first { IfOk result (λ sent. sent.first ≡ length self.old.sent.items + 1) }
        ensures none { IfOk result (λ sent. sent.count ≡ 0) }
    {
        let none = none_after(self.sent.as_slice());
        let number = place as u32 + 1;
        let core = core_at(self.alloc, &self.core, self.stations.len() as u32, number)?;
        match Station::open(self.alloc, core, disk) {
            Ok(station) => {
                self.stations[place] = station;
                Ok(none)
            }
            Err((fault, _)) => Err(opening_fault(fault)),
        }
    }

    /// Opens a station again from a copy of its disk.
    fn restart(&mut self, number: u32) -> Result<Sent, WorldFault>
        ensures outcome { (past : List Move) → Shows self.old.core self.old.stations.items
            self.old.sent.items past
            → LeadsTo self.new.core self.new.stations.items self.new.sent.items
            (λ now. Does (Opens (setting_at self.old.core (length self.old.stations.items))
            number) result past now) }
        ensures there { OnOk result (IsNumberTo (length self.old.stations.items) number) }
        ensures cause { IfErr result (IsRestartCause (length self.old.stations.items) number) }
        ensures reason { IfErr result (IsRestartReason number self.old.core.watch
            self.old.stations.items) }
        ensures refused { OnErr result (self.new.stations.items ≡ self.old.stations.items) }
        ensures sent { self.new.sent.items ≡ self.old.sent.items }
        ensures core { self.new.core ≡ self.old.core }
        ensures stations { length self.new.stations.items ≡ length self.old.stations.items }
        ensures first { IfOk result (λ sent. sent.first ≡ length self.old.sent.items + 1) }
        ensures none { IfOk result (λ sent. sent.count ≡ 0) }
    {
        let place = self.place_of(number)?;
        let disk = self.stations[place].disk().try_clone()?;
        self.reopen(place, disk)
    }

    /// Opens a station again from what a stop within a save leaves of a copy of its disk.
    fn stop(&mut self, number: u32, calls: u8, keep: bool) -> Result<Sent, WorldFault>
        ensures outcome { (past : List Move) → Shows self.old.core self.old.stations.items
            self.old.sent.items past
            → LeadsTo self.new.core self.new.stations.items self.new.sent.items
            (λ now. Does (StopsAndOpens (setting_at self.old.core
            (length self.old.stations.items)) number calls keep) result past now) }
        ensures there { OnOk result (IsNumberTo (length self.old.stations.items) number
            × (calls ≤ 6)) }
        ensures cause { IfErr result (IsStopCause (length self.old.stations.items) number calls) }
        ensures reason { IfErr result (IsStopReason number calls keep self.old.core.watch
            self.old.stations.items) }
        ensures refused { OnErr result (self.new.stations.items ≡ self.old.stations.items) }
        ensures sent { self.new.sent.items ≡ self.old.sent.items }
        ensures core { self.new.core ≡ self.old.core }
        ensures stations { length self.new.stations.items ≡ length self.old.stations.items }
        ensures first { IfOk result (λ sent. sent.first ≡ length self.old.sent.items + 1) }
        ensures none { IfOk result (λ sent. sent.count ≡ 0) }
    {
        let place = self.place_of(number)?;
        if calls > CALLS {
            return Err(WorldFault::BadStop);
        }
        promise_unsaved(&self.stations[place]);
        let disk = stop_at(self.alloc, &self.stations[place], calls, keep)?;
        self.reopen(place, disk)
    }

    /// Makes a step. It first allocates for the datagrams that it may send.
    ///
    /// # Errors
    /// `NoSuchStation`, `NoSuchDatagram` or `BadStop` where the step names what is not there;
    /// `Refused` where the station refused, and a station that was not opened runs on as it was, as
    /// at a stop whose save has no generation left; `OutOfMemory`, and everything is as it was.
    pub fn step(&mut self, step: Step<'_>) -> Result<Sent, WorldFault>
        // Whatever moves led here, the step adds its own: what the station does about its event.
        ensures outcome { (past : List Move) → Shows self.old.core self.old.stations.items
            self.old.sent.items past
            → LeadsTo self.new.core self.new.stations.items self.new.sent.items
            (λ now. IsStepOutcome (setting_at self.old.core (length self.old.stations.items))
            step.entry result past now) }
        // Each fault has its cause, and what a step names is there where it has none.
        ensures there { OnOk result (IsThere (length self.old.stations.items)
            (length self.old.sent.items) step.entry) }
        ensures cause { (past : List Move) → Shows self.old.core self.old.stations.items
            self.old.sent.items past → IfErr result (IsCause (length self.old.stations.items)
            (length self.old.sent.items) step.entry) }
        // A station refuses a save, a restart or a stop for what its file is, or for what became of
        // it.
        ensures reason { IfErr result (IsFileReason self.old.core.watch self.old.stations.items
            self.new.stations.items step.entry) }
        // The numbers of what was sent: a refused step sends nothing.
        ensures first { IfOk result (λ sent. sent.first ≡ length self.old.sent.items + 1) }
        ensures count { IfOk result (λ sent. length self.old.sent.items + sent.count
            ≡ length self.new.sent.items) }
        ensures refused { OnErr result (self.new.sent.items ≡ self.old.sent.items) }
        // With it every station holds, knows and owes what it did before.
        ensures kept { IfErr result (AreKept self.old.stations.items self.new.stations.items) }
        // The stations are as many, with the same core.
        ensures core { self.new.core ≡ self.old.core }
        ensures stations { length self.new.stations.items ≡ length self.old.stations.items }
    {
        match step {
            Step::StartPoll(s, target) => self.handle(s, Event::StartPoll(target_number(target))),
            Step::AgentSays(s, target, octets) => self.hear(s, target, octets),
            Step::Timeout(s, id) => self.handle(s, Event::Timeout(id)),
            Step::Share(s, peer) => self.handle(s, Event::Share(peer)),
            Step::Deliver(number) => self.deliver(number),
            Step::Save(s) => self.handle(s, Event::Save),
            Step::Restart(s) => self.restart(s),
            Step::Forge(s, octets) => self.handle(s, Event::FromPeer(octets)),
            Step::Stop(s, calls, keep) => self.stop(s, calls, keep),
        }
    }

    /// Makes these steps in order; a refused one does not end it. It first allocates for their
    /// results. Each result has the cause and the numbers that `step` gives it.
    ///
    /// # Errors
    /// `OutOfMemory` if there is no memory for the results: no step was made.
    pub fn run(&mut self, steps: &[Step<'_>]) -> Result<Vec<Result<Sent, WorldFault>>, WorldFault>
        ensures outcomes { IfOk result (λ results. (past : List Move)
            → Shows self.old.core self.old.stations.items self.old.sent.items past
            → LeadsTo self.new.core self.new.stations.items self.new.sent.items
            (λ now. AreStepOutcomes (setting_at self.old.core (length self.old.stations.items))
            (length self.old.stations.items) steps.now results.items past now)) }
        ensures count { IfOk result (λ results. length results.items ≡ length steps.now) }
        ensures fault { IfErr result (λ fault. fault ≡ WorldFault.OutOfMemory) }
        ensures same_stations { OnErr result (self.new.stations ≡ self.old.stations) }
        ensures same_sent { OnErr result (self.new.sent ≡ self.old.sent) }
        ensures core { self.new.core ≡ self.old.core }
        ensures stations { length self.new.stations.items ≡ length self.old.stations.items }
    {
        let mut results = Vec::with_capacity(self.alloc, steps.len())?;
        for step in steps {
            let result = self.step(*step);
            results.push_reserved(result);
        }
        Ok(results)
    }
}

/// Asks the station at a place about an event.
fn ask(
    alloc: Global,
    stations: &mut Vec<Station<MemoryDisk>>,
    place: usize,
    event: LentEvent<'_>,
) -> Result<Told, WorldFault>
    requires { place < length stations.old.items }
    ensures told { IfOk result (λ told. (core : AnyCore) (past : List Move)
        → AreShown core stations.old.items past → IsStationAsked core (place + 1)
        (owned event.entry) None (to_peers told.sends.items) past stations.new.items) }
    ensures refused { IfErr result (λ fault. (core : AnyCore) (past : List Move)
        → AreShown core stations.old.items past → IsStationRefused core (place + 1)
        (owned event.entry) (refusal_in fault) past stations.new.items) }
    ensures kept { IfErr result (AreKept stations.old.items stations.new.items) }
    ensures few { IfOk result (λ told. length told.sends.items ≤ 512) }
    ensures cause { IfErr result (IsStationCause (length stations.old.items) (place + 1)) }
    ensures saving { event.entry ≡ Event.Save → IfErr result
        (IsSaveCause (length stations.old.items) (place + 1)) }
    ensures reason { event.entry ≡ Event.Save → IfErr result
        (IsSaveReason (place + 1) stations.old.items stations.new.items) }
    ensures count { length stations.new.items ≡ length stations.old.items }
{
    let told = stations[place].step(alloc, event)?;
    Ok(told)
}

/// The number by which a station knows the target of this number, counted from 1.
fn target_number(number: u32) -> u16
    ensures { result ≡ target_number number }
{
    if number == 0 || number > 65535 {
        return u16::MAX;
    }
    (number - 1) as u16
}
