//! What is reported of a round to an operator.

ghost use Rattle.std.specs.Prelude.{◌≡◌, ◌++◌, IfOk, OnOk, map};
ghost use Rattle.mon_rounds.specs.Noted.{answered_of, gave_up, heard_from, heard_of, unsaved, notices_of, refusal_of, samples_taken, strangers_in, told_of};
ghost use Rattle.mon_rounds.specs.Order.{datagrams_in};

use crate::round::{Round, RoundEvent};
use mon_poller::ResponseFault;
use mon_station::{Answer, Run, StationFault, TargetStamp};
use mon_udp::Addr;
use std::alloc::{AllocError, Global};

/// What is reported of an event to an operator.
#[derive(Clone, Copy)]
pub enum Notice {
    /// The target of this number answered none of its poll's datagrams.
    GaveUp(u16),
    /// The target of this number was not polled, and why.
    NotPolled(u16, StationFault),
    /// A datagram from this address, a target's, was refused, and why.
    BadResponse(Addr, StationFault),
    /// A response to an open poll came from this address, which is no target's.
    Astray(Addr),
    /// A datagram from this address, a peer's, was refused, and why.
    BadClaim(Addr, StationFault),
    /// The peer of this station number was offered nothing, and why.
    NotShared(u32, StationFault),
    /// The windows were not saved: the number of the keeper's fault.
    NotSaved(u8),
    /// Memory was refused for this event.
    NoMemory(RoundEvent),
}

/// What is reported of a round to an operator.
pub struct RoundReport {
    /// What was refused, and which targets gave up, in order.
    pub notices: Vec<Notice>,
    /// How many datagrams came, at most 4096.
    pub datagrams: u32,
    /// How many of them came from an address that is no target's and no peer's.
    pub strangers: u32,
    /// How often nothing could be received.
    pub source_faults: u64,
    /// How often a datagram could not be sent.
    pub send_faults: u64,
    /// How many samples agents and peers offered, in what was handled; at most 2^64 - 1.
    pub taken: u64,
    /// How many polls were given up.
    pub given_up: u64,
    /// How many saves failed.
    pub failed_saves: u64,
    /// Of each response that was taken, in order, the target whose poll it answered, and its stamp.
    pub answered: Vec<TargetStamp>,
    /// Of each peer, in order, whether a datagram came from its address.
    pub heard: Vec<bool>,
}

// By hand: where one is let go, a proof has one call and not a drop of each field.
impl Drop for RoundReport {
    fn drop(self) {
        let RoundReport {
            notices: _,
            datagrams: _,
            strangers: _,
            source_faults: _,
            send_faults: _,
            taken: _,
            given_up: _,
            failed_saves: _,
            answered: _,
            heard: _,
        } = self;
    }
}

/// Returns the notice of a refused event. A stranger's datagram is only counted, unless it responds
/// to an open poll.
fn refused(round: &Round, event: RoundEvent, fault: StationFault) -> Option<Notice>
    ensures { result ≡ refusal_of round.now.targets event fault }
{
    match event {
        RoundEvent::StartPoll(target) => Some(Notice::NotPolled(target, fault)),
        RoundEvent::FromAgent(from, ()) if round.is_target(from) => {
            Some(Notice::BadResponse(from, fault))
        }
        RoundEvent::FromAgent(from, ()) => match fault {
            StationFault::Response(ResponseFault::WrongSource) => Some(Notice::Astray(from)),
            _ => None,
        },
        RoundEvent::FromPeer(from) => Some(Notice::BadClaim(from, fault)),
        RoundEvent::Share(peer) => Some(Notice::NotShared(peer, fault)),
        RoundEvent::Timeout(_) | RoundEvent::Save => None,
    }
}

/// How many of these events are datagrams from an address that is no target's and no peer's.
fn count_strangers(round: &Round, events: &[RoundEvent]) -> u32
    ensures { result ≡ strangers_in round.now.targets events.now }
{
    let mut count: u32 = 0;
    for event in events {
        match event {
            RoundEvent::FromAgent(from, ()) if !round.is_target(*from) => {
                count = count.saturating_add(1);
            }
            _ => {}
        }
    }
    count
}

impl RoundReport {
    /// Returns what is reported of a round, or of the time between two, after this run.
    ///
    /// # Errors
    /// `AllocError` if there is no memory for the notices.
    pub fn of(alloc: Global, round: &Round, run: &Run) -> Result<Self, AllocError>
        // The notice of each event's answer, in order; a stranger's datagram that was refused is
        // only counted.
        ensures notices { IfOk result (λ r. r.notices.items ≡ notices_of round.now.targets
            round.now.events run.now.answers.items) }
        ensures datagrams { IfOk result (λ r. r.datagrams ≡ datagrams_in round.now.events) }
        ensures strangers { IfOk result (λ r. r.strangers ≡ strangers_in round.now.targets
            round.now.events) }
        ensures source { IfOk result (λ r. r.source_faults ≡ run.now.source_faults) }
        ensures sends { IfOk result (λ r. r.send_faults ≡ run.now.send_faults) }
        ensures taken { IfOk result (λ r. r.taken ≡ samples_taken run.now.answers.items) }
        ensures given_up { IfOk result (λ r. r.given_up ≡ gave_up r.notices.items) }
        ensures failed_saves { IfOk result (λ r. r.failed_saves ≡ unsaved r.notices.items) }
        ensures answered { IfOk result (λ r. r.answered.items ≡ answered_of run.now.answers.items) }
        ensures peers { IfOk result (λ r. r.heard.items ≡ heard_of round.now.peer_addresses
            round.now.events) }
    {
        let events = round.events();
        let answers = run.answers.as_slice();
        let notices = notices_of(alloc, round, answers)?;
        let given_up = count_given_up(notices.as_slice());
        let failed_saves = count_failed_saves(notices.as_slice());
        Ok(RoundReport {
            notices,
            datagrams: round.datagrams(),
            strangers: count_strangers(round, events),
            source_faults: run.source_faults,
            send_faults: run.send_faults,
            taken: count_taken(answers),
            given_up,
            failed_saves,
            answered: answered_of(alloc, answers)?,
            heard: heard_of(alloc, round.peer_addresses(), events)?,
        })
    }
}

/// How many samples were offered in what was answered so.
fn count_taken(answers: &[Answer]) -> u64
    ensures { result ≡ samples_taken answers.now }
{
    let mut taken: u64 = 0;
    for answer in answers {
        if let Answer::Handled { samples, .. } = answer {
            taken = taken.saturating_add(*samples);
        }
    }
    taken
}

/// How many of these say that a poll was given up.
fn count_given_up(notices: &[Notice]) -> u64
    ensures { result ≡ gave_up notices.now }
{
    let mut count = 0;
    for notice in notices {
        if let Notice::GaveUp(_) = notice {
            count += 1;
        }
    }
    count
}

/// How many of these say that a save failed.
fn count_failed_saves(notices: &[Notice]) -> u64
    ensures { result ≡ unsaved notices.now }
{
    let mut count = 0;
    for notice in notices {
        if let Notice::NotSaved(_) | Notice::NoMemory(RoundEvent::Save) = notice {
            count += 1;
        }
    }
    count
}

/// Returns of each response that was taken the target whose poll it answered, and its stamp.
fn answered_of(alloc: Global, answers: &[Answer]) -> Result<Vec<TargetStamp>, AllocError>
    ensures { IfOk result (λ v. v.items ≡ answered_of answers.now) }
{
    let mut answered = Vec::new(alloc);
    for answer in answers {
        if let Answer::Handled {
            answered: Some(stamp),
            ..
        } = answer
        {
            answered.push(*stamp)?;
        }
    }
    Ok(answered)
}

/// Of each of these addresses of peers, whether a datagram came from it.
fn heard_of(alloc: Global, peers: &[Addr], events: &[RoundEvent]) -> Result<Vec<bool>, AllocError>
    ensures { IfOk result (λ v. v.items ≡ heard_of peers.now events.now) }
{
    let mut heard = Vec::with_capacity(alloc, peers.len())?;
    for address in peers {
        heard.push(heard_from(*address, events))?;
    }
    Ok(heard)
}

/// Returns `true` if one of these events is a datagram from this address, a peer's.
fn heard_from(address: Addr, events: &[RoundEvent]) -> bool
    ensures { result ≡ heard_from address events.now }
{
    for event in events {
        match event {
            RoundEvent::FromPeer(from) if *from == address => return true,
            _ => {}
        }
    }
    false
}

/// Returns the notices of the events of a round with these answers.
fn notices_of(alloc: Global, round: &Round, answers: &[Answer]) -> Result<Vec<Notice>, AllocError>
    ensures { IfOk result (λ notices. notices.items ≡ notices_of round.now.targets round.now.events
        answers.now) }
{
    let events = round.events();
    let mut notices = Vec::new(alloc);
    for place in 0..events.len().min(answers.len()) {
        put_notice(round, &mut notices, events[place], answers[place])?;
    }
    Ok(notices)
}

/// Adds the notice of an event with this answer, if there is one.
fn put_notice(
    round: &Round,
    notices: &mut Vec<Notice>,
    event: RoundEvent,
    answer: Answer,
) -> Result<(), AllocError>
    ensures { OnOk result (notices.new.items ≡ notices.old.items
        ++ told_of round.now.targets event answer) }
{
    let notice = match answer {
        Answer::Handled { .. } => None,
        Answer::GaveUp(target) => Some(Notice::GaveUp(target)),
        Answer::Memory => Some(Notice::NoMemory(event)),
        Answer::Refused(fault) => refused(round, event, fault),
        Answer::Keeper(number) => Some(Notice::NotSaved(number)),
    };
    if let Some(notice) = notice {
        notices.push(notice)?;
    }
    Ok(())
}
