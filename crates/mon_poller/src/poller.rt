//! Polls of targets, over their open ones.

ghost use Rattle.std.specs.Prelude.{◌≡◌, ◌↔◌, ◌≤◌, ℕ, Option, Some, Ok, IfOk, IfErr, IfSome, IfNone, OnErr, OnOk, IsTrue, true};
ghost use Rattle.std.specs.FinMap as map;
ghost use Rattle.mon_pdu.specs.declared.message.Message.{Message as AnyMessage};
ghost use Rattle.mon_pdu.specs.Grammar.{BeginsWithMessage};
ghost use Rattle.mon_poller.specs.Polls.{IsOldestAfter, no_polls, with_poll, timed};
ghost use Rattle.mon_poller.specs.Target.{AreTargets, poll_octets, target_at};

use crate::asked::PolledTargets;
use crate::awaiting::{ends_poll, find_awaited, read};
use crate::fault::{PollFault, ResponseFault};
use crate::finding::{find, least_after};
use crate::in_place::in_place;
use crate::laws;
use crate::offers::poll_answer;
use crate::target::Target;
use mon_ber::Octets;
use mon_board::InstanceSamples;
use mon_pdu::Message;
use mon_udp::Addr;
use slab::Slab;
use std::alloc::{AllocError, Global};
use std::marker::Model;

/// How many polls may be open.
const MAX_OPEN: usize = 64;

/// The greatest request-id.
const LAST_ID: u32 = 2147483647;

/// The datagram of a new poll.
#[derive(Debug, Drop)]
pub struct Request {
    /// The request-id.
    pub id: u32,
    /// The octets to be sent to the target.
    pub octets: Octets,
}

/// What a timeout leads to.
#[derive(Drop)]
pub enum TimedOut {
    /// The poll's datagram must be sent again.
    Again {
        /// The number of the target that it goes to.
        target: u16,
        /// The octets that were sent the first time.
        octets: Octets,
    },
    /// It was sent as often as its target is tried: the poll is closed.
    GivenUp {
        /// The number of the target, which answered none of its datagrams.
        target: u16,
    },
    /// No poll of this request-id is open.
    NotOpen,
}

/// What a response offered.
#[derive(Drop)]
pub struct Offered {
    /// The number of the target that was polled.
    pub target: u16,
    /// The agent's snmpEngineBoots (RFC 3411 section 5) in the response, below 2^31.
    pub boots: u32,
    /// The agent's snmpEngineTime in the response, in seconds, below 2^31.
    pub time: u32,
    /// The samples with the numbers of their instances, in the order of the target's objects.
    pub pairs: InstanceSamples,
}

/// An open poll.
#[derive(Clone, Copy, Drop)]
pub(crate) struct OpenPoll {
    pub(crate) id: u32,
    pub(crate) target: u16,
    pub(crate) sends: u8,
}

/// Targets, and the polls of them that are open. Capacity for all polls is allocated when it is
/// made. Contracts see the targets, a map from request-ids to open polls, and how many polls were
/// started.
#[derive(Drop)]
pub struct Poller {
    targets: PolledTargets,
    polls: Slab<OpenPoll>,
    started: u32,
}

impl Model for Poller {
    ghost use Rattle.mon_poller.specs.Poller.{Poller, ArePolls, poller_code, open_of};

    ghost Value = { Poller };

    ghost coded = { poller_code };

    ghost view = { λ p. record {
      targets = p.targets;
      polls = record
          { open_polls = open_of p.polls.slots; started = p.started };
    } };

    ghost invariant = { λ p. ArePolls p.targets p.started p.polls };
}

impl Poller {
    ghost use Rattle.mon_poller.specs.Gives.{Gives, StartFails};
    ghost use Rattle.mon_poller.specs.Verdict.{ReadsAs, IsSentAgain, start_verdict, timeout_verdict, response_verdict, ends, after_response, tries_of};

    /// Makes a poller of these targets, 1 to 64 of them and each within its limits (`are_targets`
    /// tests that), with no poll open. It has capacity for 64 open polls, so no other call
    /// allocates for one, and writes once what each target is asked for.
    pub fn new(alloc: Global, targets: Vec<Target>) -> Result<Self, AllocError>
        requires { AreTargets targets.items }
        ensures targets { IfOk result (λ p. p.targets ≡ targets.items) }
        ensures polls { IfOk result (λ p. p.polls ≡ no_polls) }
    {
        let polls = Slab::with_capacity(alloc, MAX_OPEN)?;
        Ok(Poller {
            targets: PolledTargets::new(alloc, targets)?,
            polls,
            started: 0,
        })
    }

    /// The targets. A target's number is its place, from 0.
    pub fn targets(&self) -> &[Target]
        ensures targets { result.now ≡ self.now.targets }
        ensures limited { AreTargets self.now.targets }
    {
        self.targets.as_slice()
    }

    /// Starts a poll of the target of this number: its datagram, under the next request-id.
    /// Request-ids count from 1 to 2147483647, and none is used again. Memory is asked for last.
    pub fn start(&mut self, alloc: Global, target: u16) -> Result<Request, PollFault>
        ensures id { IfOk result (λ r. start_verdict self.old.targets self.old.polls target
            ≡ Ok r.id) }
        ensures octets { IfOk result (λ r. r.octets ≡ poll_octets
            (target_at self.old.targets target) r.id) }
        ensures started { OnOk result (self.new ≡ record self.old
            { polls = with_poll target self.old.polls }) }
        ensures fault { IfErr result (λ e. StartFails e (start_verdict self.old.targets
            self.old.polls target)) }
        ensures refused { OnErr result (self.new ≡ self.old) }
    {
        let place = usize::from(target);
        if place >= self.targets.as_slice().len() {
            return Err(PollFault::UnknownTarget);
        }
        if self.polls.len() >= MAX_OPEN {
            return Err(PollFault::TooManyOpen);
        }
        if self.started == LAST_ID {
            return Err(PollFault::NoMoreIds);
        }
        let id = self.started + 1;
        let octets = self.targets.poll(alloc, place, id)?;
        self.polls.insert_reserved(OpenPoll {
            id,
            target,
            sends: 1,
        });
        self.started = id;
        Ok(Request { id, octets })
    }

    /// Returns `true` if a timeout of this poll sends it again. So a caller can allocate before
    /// `time_out` changes anything.
    pub fn has_tries(&self, id: u32) -> bool
        ensures { IsTrue result ↔ IsSentAgain (timeout_verdict self.now.targets self.now.polls id) }
    {
        match find(&self.polls, id) {
            Some((_key, poll)) => poll.sends < self.targets.at(usize::from(poll.target)).tries,
            None => false,
        }
    }

    /// Handles that the poll of this request-id was not answered in time: its datagram goes to its
    /// target again, or, if that was tried as often as it may be, the poll is closed. Only a
    /// datagram is allocated, so `GivenUp` and `NotOpen` allocate nothing.
    pub fn time_out(&mut self, alloc: Global, id: u32) -> Result<TimedOut, AllocError>
        ensures verdict { IfOk result (λ t. t ≡ timeout_verdict self.old.targets self.old.polls
            id) }
        ensures polls { OnOk result (self.new ≡ record self.old
            { polls = timed (tries_of self.old.targets) id self.old.polls }) }
        // Memory is taken for a datagram that is sent again, and for nothing else.
        ensures memory { OnErr result (IsSentAgain (timeout_verdict self.old.targets self.old.polls
            id)) }
        ensures refused { OnErr result (self.new ≡ self.old) }
    {
        let Some((key, poll)) = find(&self.polls, id) else {
            return Ok(TimedOut::NotOpen);
        };
        let number = usize::from(poll.target);
        if poll.sends >= self.targets.at(number).tries {
            self.polls.remove(key);
            return Ok(TimedOut::GivenUp {
                target: poll.target,
            });
        }
        let octets = self.targets.poll(alloc, number, id)?;
        self.polls[key].sends += 1;
        Ok(TimedOut::Again {
            target: poll.target,
            octets,
        })
    }

    /// The least request-id of an open poll. As request-ids rise, it is the poll that was started
    /// first.
    pub fn oldest(&self) -> Option<u32>
        ensures oldest { IsOldestAfter 0 self.now.polls.open_polls result }
        ensures all { IfSome result (λ id. (other : ℕ) → IsTrue
            (map.contains_key self.now.polls.open_polls other) → id ≤ other) }
        ensures none { IfNone result (self.now.polls.open_polls ≡ map.empty) }
    {
        least_after(&self.polls, 0)
    }

    /// The least request-id of an open poll that is greater than this one. So all open polls are
    /// met, the oldest first.
    pub fn oldest_after(&self, id: u32) -> Option<u32>
        ensures { IsOldestAfter id self.now.polls.open_polls result }
    {
        least_after(&self.polls, id)
    }

    /// What a datagram from this address offers, or the first reason why it offers nothing. It ends
    /// its poll where it is accepted or refused as `AgentError`, `WrongNames`, `BadStamp` or
    /// `OtherEngine`; any other answer, `OutOfMemory` too, changes nothing.
    pub fn response(
        &mut self,
        alloc: Global,
        from: Addr,
        octets: &[u8],
    ) -> Result<Offered, ResponseFault>
        // The datagram reads as a message or as none, and that decides all that follows.
        ensures read { (read : Option AnyMessage) × ReadsAs octets.now read }
        ensures verdict { (read : Option AnyMessage) → ReadsAs octets.now read
            → Gives (λ o. o) result (response_verdict self.old.targets self.old.polls.open_polls
            from read) }
        ensures polls { (read : Option AnyMessage) → ReadsAs octets.now read
            → self.new ≡ record self.old {
              polls = after_response (ends result) read self.old.polls;
            } }
    {
        laws::one_reading();
        if let Some(offered) = self.offered_in_place(alloc, from, octets) {
            return Ok(offered);
        }
        let message = read(alloc, octets)?;
        self.close_answered(alloc, from, &message)
    }

    /// What a datagram from this address offers, where it has what its poll asked for, spelled as
    /// that was asked.
    fn offered_in_place(&mut self, alloc: Global, from: Addr, octets: &[u8]) -> Option<Offered>
        ensures offered { IfSome result (λ o. (m : AnyMessage) × BeginsWithMessage octets.now m
            × (response_verdict self.old.targets self.old.polls.open_polls from (Some m) ≡ Ok o)
            × (self.new ≡ record self.old
            { polls = after_response true (Some m) self.old.polls })) }
        ensures other { IfNone result (self.new ≡ self.old) }
    {
        let (key, _poll, offered) = in_place(alloc, &self.targets, &self.polls, from, octets)?;
        self.polls.remove(key);
        Some(offered)
    }

    /// What a message from this address offers.
    fn close_answered(
        &mut self,
        alloc: Global,
        from: Addr,
        message: &Message,
    ) -> Result<Offered, ResponseFault>
        ensures verdict { Gives (λ o. o) result (response_verdict self.old.targets
            self.old.polls.open_polls from (Some message.now)) }
        ensures polls { self.new ≡ record self.old {
          polls = after_response (ends result)
              (Some message.now) self.old.polls;
        } }
    {
        let (key, poll, pdu) = find_awaited(self.targets.as_slice(), &self.polls, from, message)?;
        let target = self.targets.at(usize::from(poll.target));
        let answered = poll_answer(alloc, poll.target, target, pdu);
        if ends_poll(&answered) {
            self.polls.remove(key);
        }
        answered
    }
}
