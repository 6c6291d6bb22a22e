//! A run of the station over events that a line lists.

ghost use Rattle.std.specs.Prelude.{◌≡◌, IfSome};
ghost use Rattle.mon_station_rows.specs.Listed.{RanOver};

use crate::events::events_of;
use crate::printing::{put_fault, put_sent};
use mon_disk::{FuseDisk, MemoryDisk};
use mon_poller::Poller;
use mon_row_texts::{parsed, put, three};
use mon_station::{
    Answer, Outbox, OutboxFault, Outgoing, OwnedEvent, Run, Source, SourceFault, Station,
};
use mon_udp::failed_after;
use std::alloc::Global;
use std::collections::VecDeque;
use std::fmt::Write;

/// Events from a list. The call of one number fails, and gives none.
#[derive(Drop)]
struct Listed {
    events: VecDeque<OwnedEvent>,
    calls_to_the_failing_one: u32,
    failures: u64,
}

impl Listed {
    ghost use Rattle.mon_station_rows.specs.Listed.{GivesNext};

    fn given(&mut self) -> Result<Option<OwnedEvent>, SourceFault>
        ensures given { GivesNext (record {
          events = self.old.events.items;
          calls_to_fault =
              self.old.calls_to_the_failing_one;
        }) result
            (record { events = self.new.events.items; calls_to_fault = self.new.calls_to_the_failing_one }) }
        ensures same { self.new.failures ≡ self.old.failures }
    {
        if self.calls_to_the_failing_one == 1 {
            self.calls_to_the_failing_one = 0;
            return Err(SourceFault);
        }
        self.calls_to_the_failing_one = self.calls_to_the_failing_one.saturating_sub(1);
        Ok(self.events.pop_front())
    }
}

impl Source for Listed {
    ghost use Rattle.mon_station_rows.specs.Listed.{GivesListed, Listing};

    ghost View = { Listing };

    ghost view = { λ s. record {
      events = s.events.items;
      calls_to_fault =
          s.calls_to_the_failing_one;
    } };

    ghost gives = { GivesListed };

    ghost failures = { λ s. s.failures };

    fn next(
        &mut self,
        _polls: &Poller,
        _last: Option<Answer>,
    ) -> Result<Option<OwnedEvent>, SourceFault> {
        let given = self.given();
        self.failures = failed_after(self.failures, &given);
        given
    }
}

/// Writes down what it is given. The call of one number fails; what it was given is lost.
#[derive(Drop)]
struct Noting {
    text: String,
    calls_to_the_failing_one: u32,
    failures: u64,
}

impl Noting {
    fn put(&mut self, out: &Outgoing) -> Result<(), OutboxFault>
        ensures same { self.new.failures ≡ self.old.failures }
    {
        if self.calls_to_the_failing_one == 1 {
            self.calls_to_the_failing_one = 0;
            return Err(OutboxFault);
        }
        self.calls_to_the_failing_one = self.calls_to_the_failing_one.saturating_sub(1);
        match put_sent(&mut self.text, out) {
            Some(()) => Ok(()),
            None => Err(OutboxFault),
        }
    }
}

impl Outbox for Noting {
    ghost use Rattle.std.specs.Prelude.{None};

    ghost log = { λ _. None };

    ghost failures = { λ o. o.failures };

    fn send(&mut self, out: &Outgoing) -> Result<(), OutboxFault> {
        let put = self.put(out);
        self.failures = failed_after(self.failures, &put);
        put
    }
}

/// Runs the station over the events of a line `TURNS S O: EVENT; EVENT`, for at most TURNS turns,
/// where call S of the source and call O of the outbox fail; 0: none. Appends the counts, the
/// answers and what was sent.
pub(crate) fn run(
    alloc: Global,
    text: &mut String,
    station: &mut Station<FuseDisk<MemoryDisk>>,
    line: &str,
) -> Option<()> {
    let (numbers, events) = line.split_once(": ")?;
    let (turns, source_call, outbox_call) = three(numbers, ' ')?;
    let (turns, source_call) = (parsed(turns)?, parsed(source_call)?);
    let outbox_call = parsed(outbox_call)?;
    let mut source = Listed {
        events: events_of(alloc, events)?,
        calls_to_the_failing_one: source_call,
        failures: 0,
    };
    let mut outbox = Noting {
        text: String::new(alloc),
        calls_to_the_failing_one: outbox_call,
        failures: 0,
    };
    let run = run_listed(alloc, station, &mut source, &mut outbox, turns)?;
    put_counts(text, &run)?;
    put(text, " sent")?;
    put(text, outbox.text.as_str())
}

/// Makes what an earlier run might have left, of which nothing may be reported.
fn used(alloc: Global) -> Option<Run> {
    let mut answers = Vec::new(alloc);
    answers.push(Answer::Memory).ok()?;
    Some(Run {
        turns: 7,
        answers,
        refused: 1,
        source_faults: 5,
        send_faults: 3,
    })
}

/// Runs the station over the list of a source, after another run.
fn run_listed<O: Outbox>(
    alloc: Global,
    station: &mut Station<FuseDisk<MemoryDisk>>,
    source: &mut Listed,
    outbox: &mut O,
    turns: u64,
) -> Option<Run>
    ensures { IfSome result (λ run. RanOver source.old.events.items source.new.events.items
        (O.log outbox.old) (O.log outbox.new) turns run) }
{
    let mut run = used(alloc)?;
    match station.run(alloc, source, outbox, turns, &mut run) {
        Ok(()) => Some(run),
        Err(_) => None,
    }
}

fn put_counts(text: &mut String, run: &Run) -> Option<()> {
    let (turns, refused, source, send) = (
        run.turns,
        run.refused,
        run.source_faults,
        run.send_faults,
    );
    write!(
        text,
        "turns {turns} refused {refused} source {source} send {send}:"
    )
    .ok()?;
    for answer in run.answers.as_slice() {
        put_answer(text, *answer)?;
    }
    Some(())
}

fn put_answer(text: &mut String, answer: Answer) -> Option<()> {
    match answer {
        Answer::Handled { .. } => put(text, " ok;"),
        Answer::GaveUp(target) => write!(text, " gave up {target};").ok(),
        Answer::Memory => put(text, " memory;"),
        Answer::Refused(why) => {
            put(text, " ")?;
            put_fault(text, why)?;
            put(text, ";")
        }
        Answer::Keeper(number) => write!(text, " keeper {number};").ok(),
    }
}
