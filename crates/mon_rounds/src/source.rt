//! A station's events, from its rounds and a receiver.

ghost use Rattle.std.specs.Prelude.{◌≡◌, ◌≤◌, ◌<◌, ◌-◌, [], IfOk, IfSome, Ok, None, Some, length, true};
ghost use Rattle.std.specs.Borrow.{Lends, sem};
ghost use Rattle.mon_udp.specs.Counts.{failed_after};
ghost use Rattle.mon_udp.specs.Told.{GoesOnBy};
ghost use Rattle.mon_rounds.specs.Kept.{AreFew, KeepsGiven, KeepsNewest, kept_in, most_kept};
ghost use Rattle.mon_rounds.specs.Order.{AreSoFar};
ghost use Rattle.mon_rounds.specs.Whole.{GivesOn, RoundsView, view_of};
ghost use Rattle.mon_rounds.specs.Orderly.{begun, unbegun};
ghost use Rattle.mon_rounds.specs.Next.{GivesNext, IsEnded, Receives, TakesTurn, must_receive, next_wait, timed_out, turns_left};

use crate::addresses::Addresses;
use crate::receiver::{Arrival, Receiver, Wait};
use crate::round::{Round, Span};
use mon_ber::Octets;
use mon_poller::Poller;
use mon_reasons::{NewestDatagrams, laws};
use mon_station::{Answer, OwnedEvent, Source, SourceFault};
use mon_udp::Addr;
use std::alloc::{AllocError, Global};

/// A station's events: what a round has in its order, and what is received. Each call for the next
/// event receives at most once.
pub struct Rounds<R: Receiver + Drop> {
    pub(crate) round: Round,
    pub(crate) receiver: R,
    alloc: Global,
    latest: NewestDatagrams,
    ghost few: { AreFew latest.datagrams.items round.targets },
}

// By hand: where one is let go, a proof has one call and not a drop of each field.
impl<R: Receiver + Drop> Drop for Rounds<R> {
    fn drop(self) {
        let Rounds {
            round: _,
            receiver: _,
            alloc: _,
            latest: _,
        } = self;
    }
}

impl<R: Receiver + Drop> Rounds<R> {
    ghost use Rattle.mon_rounds.specs.contracts.source.Rounds.{the_row};

    /// Between two rounds: there is no event until one begins. A wait is over when it was idle for
    /// this many milliseconds; `tries` is how often a poll is sent at most, over all targets.
    pub fn new(
        alloc: Global,
        addresses: Addresses,
        wait_ms: u32,
        tries: u8,
        receiver: R,
    ) -> Result<Self, AllocError>
        ensures round { IfOk result (λ r. r.round ≡ unbegun addresses.targets.items
            addresses.peers.items addresses.peer_addresses.items wait_ms tries) }
        ensures receiver { IfOk result (λ r. r.receiver ≡ receiver) }
        ensures latest { IfOk result (λ r. r.latest.datagrams.items ≡ []) }
    {
        Ok(Rounds {
            round: Round::new(alloc, addresses, wait_ms, tries)?,
            receiver,
            alloc,
            latest: NewestDatagrams::new(alloc),
        })
    }

    /// The round, or the time between two.
    pub fn round(&self) -> &Round
        ensures { result.now ≡ self.now.round }
    {
        &self.round
    }

    /// The events of the round are in its order. It does nothing.
    pub(crate) fn invariants(&self)
        ensures { AreSoFar (length self.now.round.targets)
            (self.now.round.tries - self.now.round.quiets) self.now.round.peers
            self.now.round.saving self.now.round.phase self.now.round.events }
    {
        // Proof: the invariant of the round.
        let _ = self.round.events();
    }

    /// Returns the newest datagrams of targets: of each address as many as there are targets at it.
    /// One for which memory was refused is not among them.
    pub fn latest(&self) -> &NewestDatagrams
        ensures latest { result.now ≡ self.now.latest }
        ensures few { length result.now.datagrams.items ≤ length self.now.round.targets }
    {
        &self.latest
    }

    /// The receiver.
    pub fn receiver(&self) -> &R
        ensures { result.now ≡ self.now.receiver }
    {
        &self.receiver
    }

    /// The receiver, to be changed between two receptions.
    pub fn receiver_mut(&mut self) -> &mut R
        ensures value { result.now ≡ self.old.receiver }
        // All else stays, and the receiver is then what was left behind the result.
        ensures* writes_back { sem 𝓛 (Lends (the_row R.row R.Receiver) R.row self.entry result
            (λ w. record self.old { receiver = w })) }
    {
        &mut self.receiver
    }

    /// Says whether the rounds that begin from now on end with a save. Before the first call they
    /// do.
    pub fn set_saves(&mut self, saves: bool)
        ensures round { self.new.round ≡ record self.old.round { saves = saves } }
        ensures receiver { self.new.receiver ≡ self.old.receiver }
        ensures latest { self.new.latest ≡ self.old.latest }
    {
        self.round.set_saves(saves);
    }

    /// Begins a round, or the time between two.
    pub fn begin(&mut self, span: Span)
        ensures round { self.new.round ≡ begun span self.old.round }
        ensures receiver { self.new.receiver ≡ self.old.receiver }
        ensures latest { self.new.latest ≡ self.old.latest }
        // It is over after at most this many calls for an event.
        ensures turns { turns_left self.new.round ≤ 4704 }
    {
        self.round.begin(span);
    }

    /// Returns the next event, by what the receiver got.
    fn give(
        &mut self,
        polls: &Poller,
        last: Option<Answer>,
    ) -> Result<Option<OwnedEvent>, SourceFault>
        ensures step { GoesOnBy (λ log. GivesNext self.old.round polls.now.polls.open_polls last log
            result self.new.round) (R.log self.old.receiver) (R.log self.new.receiver) }
        ensures failures { R.failures self.new.receiver ≡ failed_after result
            (R.failures self.old.receiver) }
        ensures latest { KeepsGiven self.old.round result (kept_in self.old.latest)
            (kept_in self.new.latest) }
        ensures ended { result ≡ Ok None → IsEnded self.new.round.phase }
        ensures turns { TakesTurn result (turns_left self.old.round) (turns_left self.new.round) }
    {
        let more = polls.oldest_after(self.round.timed_out());
        self.round.settle(more);
        let oldest = polls.oldest_after(self.round.timed_out());
        self.give_settled(oldest, last)
    }

    /// Returns the next event, where this open poll is timed out next.
    fn give_settled(
        &mut self,
        oldest: Option<u32>,
        last: Option<Answer>,
    ) -> Result<Option<OwnedEvent>, SourceFault>
        requires later { IfSome oldest (λ id. timed_out self.old.round.phase < id) }
        ensures step { GoesOnBy (λ log. Receives self.old.round oldest last log result
            self.new.round) (R.log self.old.receiver) (R.log self.new.receiver) }
        ensures failures { R.failures self.new.receiver ≡ failed_after result
            (R.failures self.old.receiver) }
        ensures latest { KeepsGiven self.old.round result (kept_in self.old.latest)
            (kept_in self.new.latest) }
        ensures ended { result ≡ Ok None → IsEnded self.new.round.phase }
        ensures turns { TakesTurn result (turns_left self.old.round) (turns_left self.new.round) }
    {
        match self.round.next_wait(last) {
            Some(wait) => self.hear(wait, oldest, last),
            None => Ok(self.round.proceed(oldest)),
        }
    }

    /// Receives in this wait.
    fn hear(
        &mut self,
        wait: Wait,
        oldest: Option<u32>,
        last: Option<Answer>,
    ) -> Result<Option<OwnedEvent>, SourceFault>
        requires due { next_wait self.old.round last ≡ Some wait }
        requires must { must_receive self.old.round ≡ true }
        requires later { IfSome oldest (λ id. timed_out self.old.round.phase < id) }
        ensures step { GoesOnBy (λ log. Receives self.old.round oldest last log result
            self.new.round) (R.log self.old.receiver) (R.log self.new.receiver) }
        ensures failures { R.failures self.new.receiver ≡ failed_after result
            (R.failures self.old.receiver) }
        ensures latest { KeepsGiven self.old.round result (kept_in self.old.latest)
            (kept_in self.new.latest) }
        ensures ended { result ≡ Ok None → IsEnded self.new.round.phase }
        ensures turns { TakesTurn result (turns_left self.old.round) (turns_left self.new.round) }
    {
        match self.receiver.receive(wait) {
            Ok(Arrival::Datagram(from, octets)) => {
                self.keep_latest(from, &octets);
                Ok(Some(self.round.take(from, octets)))
            }
            Ok(Arrival::Quiet) => Ok(self.round.proceed(oldest)),
            Err(_) => {
                self.round.fail();
                Err(SourceFault)
            }
        }
    }
}

impl<R: Receiver + Drop> Rounds<R> {
    /// Keeps a datagram as the newest one if targets have its address and no peer has: of its
    /// address as many are kept as there are targets at it. If memory is refused it is not kept,
    /// which is counted.
    fn keep_latest(&mut self, from: Addr, octets: &Octets)
        ensures round { self.new.round ≡ self.old.round }
        ensures receiver { self.new.receiver ≡ self.old.receiver }
        ensures latest { KeepsNewest (most_kept self.old.round from)
            (record { from = from; octets = octets.now }) (kept_in self.old.latest)
            (kept_in self.new.latest) }
    {
        laws::newest_stay();
        let most = self.round.most_kept(from);
        if most > 0 {
            let _ = self.latest.keep(self.alloc, from, octets.as_slice(), most);
        }
    }
}

impl<R: Receiver + Drop> Source for Rounds<R> {
    // The round, what its receiver got, if it states that, and the newest datagrams of targets.
    ghost View = { RoundsView };

    ghost view = { λ s. view_of s.round (R.log s.receiver) (kept_in s.latest) };

    ghost gives = { GivesOn };

    ghost failures = { λ s. R.failures s.receiver };

    /// Returns the next event, or None if the round is over. It is given the station's polls, and
    /// what became of the event of the call before.
    fn next(
        &mut self,
        polls: &Poller,
        last: Option<Answer>,
    ) -> Result<Option<OwnedEvent>, SourceFault> {
        self.give(polls, last)
    }
}
