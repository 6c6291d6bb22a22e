//! A round: what a station is handed in it, and in which order.

ghost use Rattle.std.specs.Prelude.{◌≡◌, ◌≤◌, ◌<◌, ◌+◌, ◌-◌, [], None, Some, IfOk, IfSome, OnSome, false, length, option_map, slice_get, true};
ghost use Rattle.mon_rounds.specs.Given.{with_octets};
ghost use Rattle.mon_rounds.specs.Kept.{most_kept};
ghost use Rattle.mon_rounds.specs.Orderly.{IsSaving, IsSharing, IsTiming, begun, unbegun};
ghost use Rattle.mon_rounds.specs.Next.{after_datagram, after_event, after_failure, after_polls, event_from, may_time_out, must_receive, next_event, next_wait, save_if, settled, share_at, slot_after, stands_in, timed_out, turns_left};
ghost use Rattle.mon_rounds.specs.Order.{AreSoFar, datagrams_in};

use crate::addresses::Addresses;
use crate::receiver::Wait;
use mon_ber::Octets;
use mon_station::{Answer, Event, OwnedEvent, StationFault};
use mon_udp::Addr;
use std::alloc::{AllocError, Global};
use std::marker::Model;

/// The most datagrams of a round.
const MAX_DATAGRAMS: u32 = 4096;

/// The most timeouts of a round: 64 polls, each sent 8 times.
const MAX_TIMEOUTS: u32 = 512;

/// The greatest number of a response's fault that ends no poll.
const LAST_STRAY: u8 = 5;

/// The most failures of the receiver in a round.
const MAX_FAILURES: u32 = 16;

/// For how many events a round has capacity, more than it can have: 64 polls, 15 shares and a save,
/// and what is received and times out.
const ROOM: usize = 4700;

/// What a station is run through.
#[derive(Clone, Copy, PartialEq, Eq)]
pub enum Span {
    /// A round.
    Round,
    /// The time between two rounds, of this many milliseconds.
    Between(u32),
}

/// The phase of a round.
#[derive(Clone, Copy, PartialEq, Eq)]
pub enum Phase {
    /// The target of this number is polled next.
    Polling(u16),
    /// Datagrams are received; after an idle wait the open polls are timed out.
    AwaitResponses,
    /// Open polls are timed out, the next of them after this request-id; then a wait begins.
    TimingOut(u32),
    /// The peer of this slot is offered next what it is owed.
    Sharing(u16),
    /// Datagrams are received after the shares; if a wait times out, all is saved, if the round
    /// saves, and the round is over.
    AwaitConfirmations,
    /// The round is over.
    Over,
    /// Datagrams are received between two rounds.
    BetweenRounds,
    /// The time between two rounds is over.
    Rested,
}

/// An event that a round gave. Its octets went with it, and of a datagram its address is known.
pub type RoundEvent = Event<(), Addr>;

/// A round: what a station is handed in it, and in which order. It does nothing by itself.
pub struct Round {
    addresses: Addresses,
    wait_ms: u32,
    tries: u32,
    /// The next round saves.
    saves: bool,
    /// This round saves.
    saving: bool,
    phase: Phase,
    wait: Wait,
    datagrams: u32,
    quiets: u32,
    timeouts: u32,
    failures: u32,
    events: Vec<RoundEvent>,
}

// By hand: where one is let go, a proof has one call and not a drop of each field.
impl Drop for Round {
    fn drop(self) {
        let Round {
            addresses: _,
            wait_ms: _,
            tries: _,
            saves: _,
            saving: _,
            phase: _,
            wait: _,
            datagrams: _,
            quiets: _,
            timeouts: _,
            failures: _,
            events: _,
        } = self;
    }
}

impl Model for Round {
    ghost use Rattle.std.specs.Prelude.{vec_capacity};
    ghost use Rattle.mon_rounds.specs.Orderly.{IsOrderly};
    ghost use Rattle.mon_rounds.specs.Next.{RoundState};

    ghost Value = { RoundState };

    ghost view = { λ r. record {
      targets = r.addresses.targets.items;
      peers = r.addresses.peers.items;
      peer_addresses = r.addresses.peer_addresses.items;
      wait_ms = r.wait_ms;
      tries = r.tries;
      saves = r.saves;
      saving = r.saving;
      phase = r.phase;
      wait = r.wait;
      datagrams = r.datagrams;
      quiets = r.quiets;
      timeouts = r.timeouts;
      failures = r.failures;
      events = r.events.items;
    } };

    ghost invariant = { λ r. IsOrderly (vec_capacity r.events) (record {
      targets = r.addresses.targets.items;
      peers = r.addresses.peers.items;
      peer_addresses = r.addresses.peer_addresses.items;
      wait_ms = r.wait_ms;
      tries = r.tries;
      saves = r.saves;
      saving = r.saving;
      phase = r.phase;
      wait = r.wait;
      datagrams = r.datagrams;
      quiets = r.quiets;
      timeouts = r.timeouts;
      failures = r.failures;
      events = r.events.items;
    }) };
}

impl Round {
    /// Between two rounds. A wait is over when it was idle for this many milliseconds, and a poll
    /// is tried at most `tries` times. Rounds save until `set_saves` says otherwise.
    pub(crate) fn new(
        alloc: Global,
        addresses: Addresses,
        wait_ms: u32,
        tries: u8,
    ) -> Result<Self, AllocError>
        ensures state { IfOk result (λ r. r ≡ unbegun addresses.targets.items addresses.peers.items
            addresses.peer_addresses.items wait_ms tries) }
    {
        Ok(Round {
            addresses,
            wait_ms,
            tries: u32::from(tries),
            saves: true,
            saving: true,
            phase: Phase::Rested,
            wait: Wait::Begin(wait_ms),
            datagrams: MAX_DATAGRAMS,
            quiets: 0,
            timeouts: 0,
            failures: 0,
            events: Vec::with_capacity(alloc, ROOM)?,
        })
    }

    /// Says whether the rounds that begin from now on end with a save. Before the first call they
    /// do.
    pub(crate) fn set_saves(&mut self, saves: bool)
        ensures { self.new ≡ record self.old { saves = saves } }
    {
        self.saves = saves;
    }

    /// Begins a round, or the time between two.
    pub(crate) fn begin(&mut self, span: Span)
        ensures state { self.new ≡ begun span self.old }
        ensures turns { turns_left self.new ≤ 4704 }
    {
        self.events.clear();
        self.saving = self.saves;
        self.datagrams = MAX_DATAGRAMS;
        self.quiets = self.tries;
        self.timeouts = MAX_TIMEOUTS;
        self.failures = MAX_FAILURES;
        (self.phase, self.wait) = match span {
            Span::Between(milliseconds) => (Phase::BetweenRounds, Wait::Begin(milliseconds)),
            Span::Round if self.addresses.targets.is_empty() => {
                (Phase::AwaitResponses, Wait::Begin(self.wait_ms))
            }
            Span::Round => (Phase::Polling(0), Wait::Begin(self.wait_ms)),
        };
    }

    /// Returns the phase.
    pub fn phase(&self) -> Phase
        ensures { result ≡ self.now.phase }
    {
        self.phase
    }

    /// Returns the events that it gave since its beginning, in order.
    pub fn events(&self) -> &[RoundEvent]
        ensures events { result.now ≡ self.now.events }
        // They are in the order of a round; where it is over, they are those of a whole round.
        ensures order { AreSoFar (length self.now.targets) (self.now.tries - self.now.quiets)
            self.now.peers self.now.saving self.now.phase self.now.events }
    {
        self.events.as_slice()
    }

    /// Returns how many datagrams came since its beginning, at most 4096.
    pub fn datagrams(&self) -> u32
        ensures { result ≡ datagrams_in self.now.events }
    {
        MAX_DATAGRAMS - self.datagrams
    }

    /// Returns the addresses of the peers, in their order.
    pub(crate) fn peer_addresses(&self) -> &[Addr]
        ensures { result.now ≡ self.now.peer_addresses }
    {
        self.addresses.peer_addresses.as_slice()
    }

    /// Returns `true` if a target has this address.
    pub fn is_target(&self, from: Addr) -> bool
        ensures { result ≡ stands_in self.now.targets from }
    {
        self.addresses.is_target(from)
    }

    /// Returns how many datagrams from this address are kept: as many as targets have it, and none
    /// if a peer has it.
    pub(crate) fn most_kept(&self, from: Addr) -> usize
        ensures { result ≡ most_kept self.now from }
    {
        if self.addresses.is_peer(from) {
            0
        } else {
            self.addresses.targets_at(from)
        }
    }

    /// Returns the request-id after which the next poll is timed out.
    pub(crate) fn timed_out(&self) -> u32
        ensures { result ≡ timed_out self.now.phase }
    {
        match self.phase {
            Phase::TimingOut(last) => last,
            _ => 0,
        }
    }

    /// Ends the timeouts after an idle wait if no further poll is open. It is given the request-id
    /// of the next open poll.
    pub(crate) fn settle(&mut self, more: Option<u32>)
        ensures state { self.new ≡ settled self.old more }
        ensures turns { turns_left self.new ≡ turns_left self.old }
    {
        let goes_on = more.is_some() && self.timeouts > 0;
        self.phase = match self.phase {
            Phase::TimingOut(_) if !goes_on => Phase::AwaitResponses,
            phase => phase,
        };
    }

    /// Returns the wait in which a datagram must be received next, if one must be. It is given what
    /// became of the last event: only a datagram that was taken renews a wait, as it was handled or
    /// ended its poll.
    pub(crate) fn next_wait(&self, last: Option<Answer>) -> Option<Wait>
        ensures { result ≡ next_wait self.now last }
    {
        let is_hearing = matches!(
            self.phase,
            Phase::AwaitResponses | Phase::AwaitConfirmations | Phase::BetweenRounds
        );
        if !is_hearing || self.datagrams == 0 || self.failures == 0 {
            return None;
        }
        let is_taken = match last {
            Some(Answer::Handled { .. }) => true,
            Some(Answer::Refused(StationFault::Response(fault))) => fault.number() > LAST_STRAY,
            _ => false,
        };
        match self.wait {
            Wait::Renew if !is_taken => Some(Wait::Rest),
            wait => Some(wait),
        }
    }

    /// A datagram was received.
    pub(crate) fn take(&mut self, from: Addr, octets: Octets) -> OwnedEvent
        requires due { must_receive self.old ≡ true }
        ensures state { self.new ≡ after_datagram self.old from }
        ensures event { result ≡ with_octets (event_from self.old from) octets }
        ensures turns { turns_left self.new < turns_left self.old }
    {
        // Between two rounds no wait is renewed.
        self.wait = match self.phase {
            Phase::BetweenRounds => Wait::Rest,
            _ => Wait::Renew,
        };
        self.datagrams -= 1;
        if self.addresses.is_peer(from) {
            self.events.push_reserved(RoundEvent::FromPeer(from));
            OwnedEvent::FromPeer(octets)
        } else {
            self.events.push_reserved(RoundEvent::FromAgent(from, ()));
            OwnedEvent::FromAgent(from, octets)
        }
    }

    /// A reception failed.
    pub(crate) fn fail(&mut self)
        requires due { must_receive self.old ≡ true }
        ensures state { self.new ≡ after_failure self.old }
        ensures turns { turns_left self.new < turns_left self.old }
    {
        self.failures -= 1;
        self.wait = Wait::Rest;
    }

    /// Returns the next event when nothing more is received, if there is one. It is given the
    /// request-id of the open poll that is timed out next.
    pub(crate) fn proceed(&mut self, oldest: Option<u32>) -> Option<OwnedEvent>
        requires later { IfSome oldest (λ id. timed_out self.old.phase < id) }
        ensures state { self.new ≡ after_event self.old (next_event self.old oldest) }
        ensures event { result ≡ option_map (λ e. with_octets e []) (next_event self.old oldest) }
        ensures turns { OnSome result (turns_left self.new < turns_left self.old) }
    {
        match self.phase {
            Phase::Polling(target) => Some(self.poll(target)),
            Phase::AwaitResponses | Phase::TimingOut(_) => self.time_out(oldest),
            Phase::Sharing(slot) => self.share(slot),
            Phase::AwaitConfirmations => self.finish(),
            Phase::BetweenRounds | Phase::Over | Phase::Rested => {
                self.end();
                None
            }
        }
    }

    /// Ends a round that gives nothing more, or the time between two.
    fn end(&mut self)
        requires phase { next_event self.old None ≡ None }
        ensures state { self.new ≡ after_event self.old None }
    {
        self.wait = Wait::Begin(self.wait_ms);
        self.phase = match self.phase {
            Phase::BetweenRounds | Phase::Rested => Phase::Rested,
            _ => Phase::Over,
        };
    }

    /// Polls this target.
    fn poll(&mut self, target: u16) -> OwnedEvent
        requires phase { self.old.phase ≡ Phase.Polling target }
        ensures state { self.new ≡ after_event self.old (Some (Event.StartPoll target)) }
        ensures event { result ≡ Event.StartPoll target }
        ensures turns { turns_left self.new < turns_left self.old }
    {
        self.wait = Wait::Begin(self.wait_ms);
        self.phase = if usize::from(target) + 1 < self.addresses.targets.len() {
            Phase::Polling(target + 1)
        } else {
            Phase::AwaitResponses
        };
        self.events.push_reserved(RoundEvent::StartPoll(target));
        OwnedEvent::StartPoll(target)
    }

    /// Times out the next open poll. Where none is open, or there may be no more timeout, sharing
    /// begins.
    fn time_out(&mut self, oldest: Option<u32>) -> Option<OwnedEvent>
        requires phase { IsTiming self.old.phase }
        requires later { IfSome oldest (λ id. timed_out self.old.phase < id) }
        ensures state { self.new ≡ after_event self.old (after_polls self.old oldest) }
        ensures event { result ≡ option_map (λ e. with_octets e []) (after_polls self.old oldest) }
        ensures turns { OnSome result (turns_left self.new < turns_left self.old) }
    {
        let may_time_out = match self.phase {
            Phase::TimingOut(_) => self.timeouts > 0,
            _ => self.timeouts > 0 && self.quiets > 0,
        };
        match oldest {
            Some(id) if may_time_out => Some(self.time_out_one(id)),
            _ => self.share(0),
        }
    }

    /// Times out the open poll of this request-id.
    fn time_out_one(&mut self, id: u32) -> OwnedEvent
        requires phase { IsTiming self.old.phase }
        requires later { timed_out self.old.phase < id }
        requires may { may_time_out self.old.phase self.old ≡ true }
        ensures state { self.new ≡ after_event self.old (Some (Event.Timeout id)) }
        ensures event { result ≡ Event.Timeout id }
        ensures turns { turns_left self.new < turns_left self.old }
    {
        self.wait = Wait::Begin(self.wait_ms);
        // The first timeout after an idle wait uses it up.
        self.quiets = match self.phase {
            Phase::TimingOut(_) => self.quiets,
            _ => self.quiets.saturating_sub(1),
        };
        self.phase = Phase::TimingOut(id);
        self.timeouts -= 1;
        self.events.push_reserved(RoundEvent::Timeout(id));
        OwnedEvent::Timeout(id)
    }

    /// Offers the peer of this slot what it is owed. If there is no such peer, the round ends.
    fn share(&mut self, slot: u16) -> Option<OwnedEvent>
        requires phase { IsSharing self.old.phase slot }
        ensures state { self.new
            ≡ after_event self.old (share_at self.old.saving self.old.peers slot) }
        ensures event { result
            ≡ option_map (λ e. with_octets e []) (share_at self.old.saving self.old.peers slot) }
        ensures turns { OnSome result (turns_left self.new < turns_left self.old) }
    {
        match self.addresses.peer_at(slot) {
            Some(peer) => Some(self.offer(slot, peer)),
            None => self.finish(),
        }
    }

    /// Offers the peer of this slot and number what it is owed.
    fn offer(&mut self, slot: u16, peer: u32) -> OwnedEvent
        requires phase { IsSharing self.old.phase slot }
        requires next { slot_after self.old.phase ≡ slot + 1 }
        requires peer { slice_get self.old.peers slot ≡ Some peer }
        ensures state { self.new ≡ after_event self.old (Some (Event.Share peer)) }
        ensures event { result ≡ Event.Share peer }
        ensures turns { turns_left self.new < turns_left self.old }
    {
        self.wait = Wait::Begin(self.wait_ms);
        self.phase = if usize::from(slot) + 1 < self.addresses.peers.len() {
            Phase::Sharing(slot + 1)
        } else {
            Phase::AwaitConfirmations
        };
        self.events.push_reserved(RoundEvent::Share(peer));
        OwnedEvent::Share(peer)
    }

    /// Ends a round that is done: all is saved, if it saves.
    fn finish(&mut self) -> Option<OwnedEvent>
        requires phase { IsSaving self.old.phase self.old.peers }
        ensures state { self.new ≡ after_event self.old (save_if self.old.saving) }
        ensures event { result ≡ option_map (λ e. with_octets e []) (save_if self.old.saving) }
        ensures turns { OnSome result (turns_left self.new < turns_left self.old) }
    {
        if !self.saving {
            self.end();
            return None;
        }
        self.wait = Wait::Begin(self.wait_ms);
        self.phase = Phase::Over;
        self.events.push_reserved(RoundEvent::Save);
        Some(OwnedEvent::Save)
    }
}
