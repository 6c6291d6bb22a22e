//! Running a station through a round, or the time between two.

ghost use Rattle.std.specs.Prelude.{◌≡◌, ◌≤◌, IfErr, IsOk, OnErr, OnOk, vec_capacity};
ghost use Rattle.mon_rounds.specs.Kept.{kept_in};
ghost use Rattle.mon_rounds.specs.Orderly.{begun, first_wait, most_waits};
ghost use Rattle.mon_rounds.specs.Reception.{HasWaits};
ghost use Rattle.mon_udp.specs.Told.{GoesOnBy};
ghost use Rattle.mon_rounds.specs.Whole.{HasRun, IsWhole, view_of};
ghost use Rattle.mon_station.specs.Ran.{HasFailed, IsEmpty, failures_after, faults_in};
ghost use Rattle.mon_station.specs.Seen.{seen};

use crate::receiver::Receiver;
use crate::round::Span;
use crate::source::Rounds;
use mon_disk::Disk;
use mon_station::{Outbox, Run, Station, StationFault};
use std::alloc::Global;

/// How often a run asks for an event at most: more often than a round has one.
const TURNS: u64 = 5000;

impl<R: Receiver + Drop> Rounds<R> {
    /// Runs a station through a round or the time between two, and puts into `run` what was done,
    /// in place of what it held. A round ends with a save, unless `set_saves` said that it does
    /// not. What was refused or failed is counted, and the run goes on. The time between two rounds
    /// is cut short after 4096 datagrams or 16 receptions that failed.
    ///
    /// # Errors
    /// `OutOfMemory` if there is no memory for the answers, before anything is asked.
    pub fn run<D: Disk + Drop, O: Outbox>(
        &mut self,
        alloc: Global,
        station: &mut Station<D>,
        outbox: &mut O,
        span: Span,
        run: &mut Run,
    ) -> Result<(), StationFault>
        // The station was given the events of a whole round, which saves if that was said, or what
        // came between two, and answered them so.
        ensures ran { OnOk result (HasRun (IsWhole span self.old.round self.new.round)
            (seen station.old (view_of (begun span self.old.round) (R.log self.old.receiver)
            (kept_in self.old.latest)) (O.log outbox.old))
            (seen station.new (view_of self.new.round (R.log self.new.receiver) (kept_in self.new.latest)) (O.log outbox.new)) run.new) }
        // At most `most_waits` waits begin, each as long as a wait is, whatever comes.
        ensures waits { OnOk result (GoesOnBy (HasWaits (most_waits span self.old.round)
            (first_wait span self.old.round.wait_ms)) (R.log self.old.receiver)
            (R.log self.new.receiver)) }
        ensures refused { OnOk result (run.new.refused ≡ faults_in run.new.answers.items) }
        ensures source { OnOk result (R.failures self.new.receiver
            ≡ failures_after run.new.source_faults (R.failures self.old.receiver)) }
        ensures outbox { OnOk result (HasFailed (O.failures outbox.old) (O.failures outbox.new)
            run.new.send_faults) }
        ensures fault { IfErr result (λ f. f ≡ StationFault.OutOfMemory) }
        ensures nothing { OnErr result (IsEmpty run.new) }
        // A run that had the capacity once keeps it, and is not refused then.
        ensures spared { 5000 ≤ vec_capacity run.old.answers → IsOk result }
        ensures capacity { OnOk result (5000 ≤ vec_capacity run.new.answers) }
        ensures same { OnErr result (station.new ≡ station.old) }
    {
        self.begin(span);
        station.run(alloc, self, outbox, TURNS, run)?;
        // Proof: the events are in the order of a round.
        self.invariants();
        Ok(())
    }
}
