//! Running a station: events from a source, datagrams to an outbox.

ghost use Rattle.std.specs.Prelude.{◌≡◌, ◌≤◌, ◌<◌, ◌+◌, ◌∷◌, [], ℕ, IfErr, IsOk, None, OnErr, OnOk, Some, length, vec_capacity};
ghost use Rattle.mon_udp.specs.Told.{extended};
ghost use Rattle.mon_station.specs.Ran as ran;
ghost use Rattle.mon_station.specs.Ran.{HasFailed, IsEmpty, Ran, failures_after, faults_in};
ghost use Rattle.mon_station.specs.Turned.{Called, Turned, told_of};
ghost use Rattle.mon_station.specs.Seen.{seen};

use crate::event::{Outgoing, OwnedEvent, TargetStamp, Told};
use crate::fault::StationFault;
use crate::station::Station;
use mon_disk::Disk;
use mon_poller::Poller;
use mon_udp::failed_after;
use std::alloc::{AllocError, Global};
use thiserror::Error;

/// A source could not give an event; it has counted that.
#[derive(Clone, Copy, Debug, PartialEq, Eq, Error)]
#[error("the source failed")]
pub struct SourceFault;

/// An outbox could not send; it has counted that.
#[derive(Clone, Copy, Debug, PartialEq, Eq, Error)]
#[error("the outbox failed")]
pub struct OutboxFault;

/// Where a station's events come from.
pub trait Source {
    ghost use Rattle.std.specs.Prelude.{◌≡◌, Option, Result, ℕ};
    ghost use Rattle.mon_udp.specs.Counts.{failed_after};
    ghost use Rattle.mon_poller.specs.Polls.{Open};
    ghost use Rattle.mon_station.specs.ReadEvent.{OwnedEvent as AnyEvent};
    ghost use Rattle.mon_station.specs.declared.running.Answer.{Answer as AnyAnswer};
    ghost use Rattle.mon_station.specs.declared.running.SourceFault.{SourceFault as AnySourceFault};

    // What can be said of it.
    ghost View: { Type 0 };

    // The view of this one.
    ghost view: { Self → View };

    // From this view, a call that is given these open polls and this answer returns this and leaves
    // that view.
    ghost gives: { View → Open → Option AnyAnswer → Result (Option AnyEvent) AnySourceFault → View
        → Type 0 };

    // How often it failed, at most 2^64 - 1.
    ghost failures: { Self → ℕ };

    /// Returns the next event, or None if the source has ended. It is given the station's polls,
    /// and what became of the event that the call before it gave: None if that gave none, or if
    /// this is the first call of its run.
    fn next(
        &mut self,
        polls: &Poller,
        last: Option<Answer>,
    ) -> Result<Option<OwnedEvent>, SourceFault>
        ensures gives { gives (view self.old) polls.now.polls.open_polls last result
            (view self.new) }
        ensures failures { failures self.new ≡ failed_after result (failures self.old) };
}

/// Where a station's datagrams go.
pub trait Outbox {
    ghost use Rattle.std.specs.Prelude.{◌≡◌, ◌∷◌, [], List, Option, ℕ};
    ghost use Rattle.mon_udp.specs.Counts.{failed_after};
    ghost use Rattle.mon_udp.specs.Told.{extended};
    ghost use Rattle.mon_station.specs.declared.event.Outgoing.{Outgoing as AnyOutgoing};

    // The datagrams that it was given, if it states them.
    ghost log: { Self → Option (List AnyOutgoing) };

    // How often it failed, at most 2^64 - 1.
    ghost failures: { Self → ℕ };

    /// Sends a datagram. One that could not be sent counts as given too.
    fn send(&mut self, out: &Outgoing) -> Result<(), OutboxFault>
        ensures log { log self.new ≡ extended (log self.old) (out.now ∷ []) }
        ensures failures { failures self.new ≡ failed_after result (failures self.old) };
}

/// What became of an event.
#[derive(Clone, Copy)]
pub enum Answer {
    /// It was handled.
    Handled {
        /// How many samples it offered.
        samples: u64,
        /// The target whose poll was answered, and the stamp, if it was a response.
        answered: Option<TargetStamp>,
    },
    /// It was a timeout, and the target of this number gave up.
    GaveUp(u16),
    /// Memory was refused.
    Memory,
    /// It was refused, and why.
    Refused(StationFault),
    /// It was a save, and met the keeper's fault of this number, 2 to 6.
    Keeper(u8),
}

/// What a run did. The capacity of its answers is kept from run to run.
#[derive(Drop)]
pub struct Run {
    /// How often the source was asked.
    pub turns: u64,
    /// What became of its events, in order.
    pub answers: Vec<Answer>,
    /// How many of these are faults.
    pub refused: u64,
    /// How often the source failed.
    pub source_faults: u64,
    /// How often the outbox failed, at most 2^64 - 1.
    pub send_faults: u64,
}

impl Run {
    /// One that did nothing.
    pub fn new(alloc: Global) -> Self
        ensures { IsEmpty result }
    {
        Run {
            turns: 0,
            answers: Vec::new(alloc),
            refused: 0,
            source_faults: 0,
            send_faults: 0,
        }
    }

    /// Forgets what was done, and allocates for this many answers if there is capacity for less.
    fn begin(&mut self, turns: u64) -> Result<(), AllocError>
        ensures empty { IsEmpty self.new }
        ensures capacity { OnOk result (turns ≤ vec_capacity self.new.answers) }
        ensures spared { turns ≤ vec_capacity self.old.answers → IsOk result }
    {
        self.turns = 0;
        self.refused = 0;
        self.source_faults = 0;
        self.send_faults = 0;
        self.answers.clear();
        self.answers.reserve(turns as usize)
    }
}

impl<D: Disk + Drop> Station<D> {
    /// Handles what a source returns, until it ends or was called this many times, and puts into
    /// `run` what was done, in place of what it held. A fault of the source and a refused event are
    /// counted, and a datagram that could not be sent is lost; the run goes on.
    ///
    /// # Errors
    /// `OutOfMemory` if there is no memory for the answers, which are allocated first if `run` has
    /// capacity for less; then nothing was asked.
    pub fn run<S: Source, O: Outbox>(
        &mut self,
        alloc: Global,
        source: &mut S,
        outbox: &mut O,
        turns: u64,
        run: &mut Run,
    ) -> Result<(), StationFault>
        // The calls of the source, what became of each event, what was sent, what a crash leaves
        // and left, and that all lives go on so.
        ensures ran { OnOk result (Ran S.gives (seen self.old (S.view source.old)
            (O.log outbox.old)) (seen self.new (S.view source.new) (O.log outbox.new)) turns
            run.new) }
        ensures refused { OnOk result (run.new.refused ≡ faults_in run.new.answers.items) }
        ensures source { OnOk result (S.failures source.new ≡ failures_after run.new.source_faults
            (S.failures source.old)) }
        ensures outbox { OnOk result (HasFailed (O.failures outbox.old) (O.failures outbox.new)
            run.new.send_faults) }
        ensures fault { IfErr result (λ f. f ≡ StationFault.OutOfMemory) }
        ensures nothing { OnErr result (IsEmpty run.new) }
        // If the run has the capacity it is not refused, and it keeps it.
        ensures spared { turns ≤ vec_capacity run.old.answers → IsOk result }
        ensures capacity { OnOk result (turns ≤ vec_capacity run.new.answers) }
        ensures same { OnErr result (self.new ≡ self.old) }
        ensures same_source { OnErr result (source.new ≡ source.old) }
        ensures same_outbox { OnErr result (outbox.new ≡ outbox.old) }
    {
        run.begin(turns)?;
        let mut last = None;
        for turn in 0..turns {
            run.turns = turn + 1;
            if !self.take_turn(alloc, source, outbox, run, &mut last) {
                return Ok(());
            }
        }
        Ok(())
    }

    /// Asks the source, and handles what it gives. Says whether the source goes on, and leaves in
    /// `last` what became of its event.
    fn take_turn<S: Source, O: Outbox>(
        &mut self,
        alloc: Global,
        source: &mut S,
        outbox: &mut O,
        run: &mut Run,
        last: &mut Option<Answer>,
    ) -> bool
        requires capacity { length run.old.answers.items < vec_capacity run.old.answers }
        requires faults { run.old.source_faults < u64.MAX }
        requires refused { run.old.refused < u64.MAX }
        ensures called { Called (told_of last.old S.gives) (seen self.old (S.view source.old)
            (O.log outbox.old)) (seen self.new (S.view source.new) (O.log outbox.new)) run.old
            run.new last.new result }
        ensures source { (first : ℕ) → S.failures source.old
            ≡ failures_after run.old.source_faults first → S.failures source.new
            ≡ failures_after run.new.source_faults first }
        ensures outbox { (first : ℕ) → HasFailed first (O.failures outbox.old) run.old.send_faults
            → HasFailed first (O.failures outbox.new) run.new.send_faults }
    {
        match source.next(&self.life.poller, *last) {
            Ok(Some(event)) => {
                let answer = self.turn(alloc, outbox, event, &mut run.send_faults);
                run.answers.push(answer).unwrap();
                run.refused = count_refused(run.refused, answer);
                *last = Some(answer);
                true
            }
            Ok(None) => {
                *last = None;
                false
            }
            Err(_) => {
                run.source_faults += 1;
                *last = None;
                true
            }
        }
    }

    /// Handles an event, and hands its datagrams to the outbox.
    fn turn<O: Outbox>(
        &mut self,
        alloc: Global,
        outbox: &mut O,
        event: OwnedEvent,
        send_faults: &mut u64,
    ) -> Answer
        ensures turned { Turned (seen self.old (tt {0}) (O.log outbox.old))
            (seen self.new (tt {0}) (O.log outbox.new)) event result }
        ensures failed { (first : ℕ) → HasFailed first (O.failures outbox.old) send_faults.old
            → HasFailed first (O.failures outbox.new) send_faults.new }
    {
        match self.step(alloc, event.lend()) {
            Ok(told) => {
                hand(outbox, told.sends.as_slice(), send_faults);
                answer_of(&told)
            }
            Err(fault) => shown(fault),
        }
    }
}

/// The faults with one more answer.
fn count_refused(refused: u64, answer: Answer) -> u64
    requires { refused < u64.MAX }
    ensures { result ≡ refused + faults_in (answer ∷ []) }
{
    match answer {
        Answer::Handled { .. } | Answer::GaveUp(_) => refused,
        Answer::Memory | Answer::Refused(_) | Answer::Keeper(_) => refused + 1,
    }
}

/// Hands datagrams to an outbox. One that could not be sent is lost.
fn hand<O: Outbox>(outbox: &mut O, sends: &[Outgoing], send_faults: &mut u64)
    ensures log { O.log outbox.new ≡ extended (O.log outbox.old) sends.now }
    ensures failed { (first : ℕ) → HasFailed first (O.failures outbox.old) send_faults.old
        → HasFailed first (O.failures outbox.new) send_faults.new }
{
    for out in sends {
        *send_faults = failed_after(*send_faults, &outbox.send(out));
    }
}

/// Returns what a run shows of an event.
fn answer_of(told: &Told) -> Answer
    ensures { result ≡ ran.shown None told.now.taken told.now.given_up told.now.answered }
{
    match told.given_up {
        Some(target) => Answer::GaveUp(target),
        None => Answer::Handled {
            samples: told.taken.as_slice().len() as u64,
            answered: told.answered,
        },
    }
}

/// A fault as a run shows it.
fn shown(fault: StationFault) -> Answer
    ensures { result ≡ ran.shown (Some fault) [] None None }
{
    match fault {
        StationFault::OutOfMemory => Answer::Memory,
        StationFault::Keeper(fault) => Answer::Keeper(fault.number()),
        StationFault::Poll(_)
        | StationFault::Response(_)
        | StationFault::Exchange(_)
        | StationFault::Image(_)
        | StationFault::NoMoreIncarnations => Answer::Refused(fault),
    }
}
