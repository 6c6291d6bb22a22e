//! How long ago targets answered, peers sent something and instances had a new sample.

ghost use Rattle.std.specs.Prelude.{◌≡◌, ◌≤◌, IfOk, None, false, get_or, length, map};
ghost use Rattle.mon_rounds.specs.Totals.{counted_on};
ghost use Rattle.mon_rounds.specs.Freshness.{age_after, gave_up_by, has_answered, instance_after, instance_with, is_late, is_same, last_refusal, length_after, new_instance, new_instances, new_peer, new_target, newest_on, numbered, older, overruns_after, peer_after, refusal_after, seconds_since, target_after, target_with};

use crate::addresses::Addresses;
use crate::clock::{Clock, clock_after};
use crate::late::{LateRow, count_late, late_after};
use crate::reporting::{Notice, RoundReport};
use crate::round::Span;
use mon_board::Board;
use mon_station::{StationFault, TargetStamp};
use mon_udp::Addr;
use std::alloc::{AllocError, Global};

/// In how many spells between two rounds a peer sends at least if it offers more often than once.
const OFTEN: u32 = 2;

/// After how many rounds with late datagrams, one after another, a target is late.
const LATE_ROUNDS: u32 = 3;

/// How long ago a target answered, and what became of its polls.
#[derive(Clone, Copy, Debug)]
pub struct TargetAge {
    /// The target's number, from 0.
    pub number: u16,
    /// Where its agent is reached.
    pub address: Addr,
    /// `true` if its last poll was answered.
    pub up: bool,
    /// How many whole rounds went by since its last answer, or since the station's start if it did
    /// not answer; at most 2^32 - 1.
    pub rounds: u32,
    /// When the round in which it last answered ended, in milliseconds since the station's start; 0
    /// if it did not answer.
    pub answered: u64,
    /// How many of its polls were given up, at most 2^64 - 1.
    pub given_up: u64,
    /// Why the last response from its address was refused, if one was and no round with an answer
    /// of this target and without a refusal came after it.
    pub refusal: Option<StationFault>,
    /// The rounds, one after another, in which late datagrams came from its address.
    pub late: LateRow,
    /// What the responses to its polls say of its agent's clock, and of a restart in the last
    /// spell.
    pub clock: Clock,
}

impl TargetAge {
    /// Returns how many seconds before this time it answered, or the station was started. The time
    /// is in milliseconds since the station's start.
    pub fn seconds(&self, now: u64) -> u64
        ensures { result ≡ seconds_since now self.now }
    {
        now.saturating_sub(self.answered) / 1000
    }

    /// Returns `true` if late datagrams came from its address in three rounds one after another, or
    /// more, and the row goes on.
    pub fn is_late(&self) -> bool
        ensures { result ≡ is_late self.now }
    {
        self.late.rounds >= LATE_ROUNDS
    }
}

/// How long ago something came from a peer.
#[derive(Clone, Copy, Debug)]
pub struct PeerAge {
    /// The peer's slot, from 0.
    pub slot: u16,
    /// Its station number.
    pub station: u32,
    /// How many whole rounds went by since a datagram came from its address, or since the station's
    /// start; at most 2^32 - 1.
    pub rounds: u32,
    /// In how many spells since the last round a datagram came from its address, without those that
    /// directly follow one that is counted; at most 2^32 - 1.
    pub offers: u32,
    /// `true` if the last spell is counted in `offers`.
    pub counted: bool,
    /// How many of the last times between two rounds, one after another, had two or more such
    /// spells; at most 2^32 - 1.
    pub often: u32,
}

/// The fields of a sample. Equal samples, and only they, have equal fields.
#[derive(Clone, Copy, Debug)]
pub struct SampleFields {
    pub value: u64,
    pub time: u32,
    pub boots: u32,
    pub discontinuity: u32,
    /// The tag of its kind.
    pub tag: u8,
}

/// How long ago an instance had a new sample.
#[derive(Clone, Copy, Debug)]
pub struct InstanceAge {
    /// The instance's number in the watch.
    pub number: u16,
    /// The number of the target that is polled for it, from 0.
    pub target: Option<u16>,
    /// The fields of its newest sample.
    pub newest: Option<SampleFields>,
    /// How many whole rounds went by since its newest sample changed, or since the station's start;
    /// at most 2^32 - 1.
    pub rounds: u32,
}

/// A round, or the time after it, that is over.
#[derive(Clone, Copy)]
pub struct Spell {
    /// Which of the two it was.
    pub span: Span,
    /// When it ended, in milliseconds since the station's start.
    pub ended: u64,
    /// How long it took, in milliseconds.
    pub took: u64,
    /// How long a round may take, in milliseconds; 0 if rounds follow one another.
    pub interval: u64,
}

/// How long ago targets answered, peers sent something and instances had a new sample, and what
/// went wrong.
pub struct Freshness {
    targets: Vec<TargetAge>,
    peers: Vec<PeerAge>,
    instances: Vec<InstanceAge>,
    failed_saves: u64,
    strangers: u64,
    round_ms: u64,
    overruns: u64,
}

// By hand: where one is let go, a proof has one call and not a drop of each field.
impl Drop for Freshness {
    fn drop(self) {
        let Freshness {
            targets: _,
            peers: _,
            instances: _,
            failed_saves: _,
            strangers: _,
            round_ms: _,
            overruns: _,
        } = self;
    }
}

impl Freshness {
    /// That of a station that begins with this board: no target answered, nothing came from a peer,
    /// and each instance's newest sample is known. `polled` has of each instance the number of the
    /// target that is polled for it.
    pub fn new(
        alloc: Global,
        addresses: &Addresses,
        polled: &[Option<u16>],
        board: &Board,
    ) -> Result<Self, AllocError>
        ensures targets { IfOk result (λ f. f.targets.items ≡ numbered new_target 0
            addresses.now.targets.items) }
        ensures peers { IfOk result (λ f. f.peers.items ≡ numbered new_peer 0
            addresses.now.peers.items) }
        ensures instances { IfOk result (λ f. f.instances.items
            ≡ new_instances polled.now board.now) }
        ensures failed_saves { IfOk result (λ f. f.failed_saves ≡ 0) }
        ensures strangers { IfOk result (λ f. f.strangers ≡ 0) }
        ensures round_ms { IfOk result (λ f. f.round_ms ≡ 0) }
        ensures overruns { IfOk result (λ f. f.overruns ≡ 0) }
    {
        Ok(Freshness {
            targets: new_targets(alloc, addresses.targets.as_slice())?,
            peers: new_peers(alloc, addresses.peers.as_slice())?,
            instances: new_instances(alloc, polled, board)?,
            failed_saves: 0,
            strangers: 0,
            round_ms: 0,
            overruns: 0,
        })
    }

    /// Returns what is known of each target, in their order.
    pub fn targets(&self) -> &[TargetAge]
        ensures { result.now ≡ self.now.targets.items }
    {
        self.targets.as_slice()
    }

    /// Returns what is known of each peer, in the order of their slots.
    pub fn peers(&self) -> &[PeerAge]
        ensures { result.now ≡ self.now.peers.items }
    {
        self.peers.as_slice()
    }

    /// Returns what is known of each instance, in their order.
    pub fn instances(&self) -> &[InstanceAge]
        ensures { result.now ≡ self.now.instances.items }
    {
        self.instances.as_slice()
    }

    /// Returns how many saves failed, at most 2^64 - 1.
    pub fn failed_saves(&self) -> u64
        ensures { result ≡ self.now.failed_saves }
    {
        self.failed_saves
    }

    /// Returns how many datagrams came from an address that is no target's and no peer's, at most
    /// 2^64 - 1.
    pub fn strangers(&self) -> u64
        ensures { result ≡ self.now.strangers }
    {
        self.strangers
    }

    /// Returns how long the last round took, in milliseconds.
    pub fn round_ms(&self) -> u64
        ensures { result ≡ self.now.round_ms }
    {
        self.round_ms
    }

    /// Returns how many rounds took longer than the interval, at most 2^64 - 1.
    pub fn overruns(&self) -> u64
        ensures { result ≡ self.now.overruns }
    {
        self.overruns
    }

    /// Adds what a round did, or the time after it, of which this is reported and that left this
    /// board.
    pub fn add(&mut self, spell: Spell, report: &RoundReport, board: &Board)
        ensures targets { self.new.targets.items ≡ map (target_after spell.span report.now
            spell.ended) self.old.targets.items }
        ensures peers { self.new.peers.items ≡ map (peer_after spell.span report.now)
            self.old.peers.items }
        ensures instances { self.new.instances.items ≡ map (instance_after spell.span board.now)
            self.old.instances.items }
        ensures failed_saves { self.new.failed_saves ≡ counted_on self.old.failed_saves
            report.now.failed_saves }
        ensures strangers { self.new.strangers
            ≡ counted_on self.old.strangers report.now.strangers }
        ensures round_ms { self.new.round_ms
            ≡ length_after spell.span spell.took self.old.round_ms }
        ensures overruns { self.new.overruns ≡ overruns_after spell.span spell.took spell.interval
            self.old.overruns }
    {
        add_to_targets(&mut self.targets, spell, report);
        add_to_peers(&mut self.peers, spell.span, report);
        add_to_instances(&mut self.instances, spell.span, board);
        self.failed_saves = self.failed_saves.saturating_add(report.failed_saves);
        self.strangers = self.strangers.saturating_add(u64::from(report.strangers));
        if let Span::Round = spell.span {
            self.round_ms = spell.took;
            if 0 < spell.interval && spell.interval < spell.took {
                self.overruns = self.overruns.saturating_add(1);
            }
        }
    }
}

/// The targets at these addresses, of which nothing is known.
fn new_targets(alloc: Global, addresses: &[Addr]) -> Result<Vec<TargetAge>, AllocError>
    requires { length addresses.now ≤ 64 }
    ensures { IfOk result (λ v. v.items ≡ numbered new_target 0 addresses.now) }
{
    let mut targets = Vec::with_capacity(alloc, addresses.len())?;
    for place in 0..addresses.len() {
        targets.push(new_target(place as u16, addresses[place]))?;
    }
    Ok(targets)
}

/// A target of which nothing is known.
fn new_target(number: u16, address: Addr) -> TargetAge
    ensures { result ≡ new_target number address }
{
    TargetAge {
        number,
        address,
        up: false,
        rounds: 0,
        answered: 0,
        given_up: 0,
        refusal: None,
        late: LateRow::new(),
        clock: Clock::new(),
    }
}

/// The peers of these station numbers, of which nothing is known.
fn new_peers(alloc: Global, stations: &[u32]) -> Result<Vec<PeerAge>, AllocError>
    requires { length stations.now ≤ 15 }
    ensures { IfOk result (λ v. v.items ≡ numbered new_peer 0 stations.now) }
{
    let mut peers = Vec::with_capacity(alloc, stations.len())?;
    for place in 0..stations.len() {
        peers.push(new_peer(place as u16, stations[place]))?;
    }
    Ok(peers)
}

/// A peer of which nothing is known.
fn new_peer(slot: u16, station: u32) -> PeerAge
    ensures { result ≡ new_peer slot station }
{
    PeerAge {
        slot,
        station,
        rounds: 0,
        offers: 0,
        counted: false,
        often: 0,
    }
}

/// The instances of a board, with their newest samples and the targets that are polled for them.
fn new_instances(
    alloc: Global,
    polled: &[Option<u16>],
    board: &Board,
) -> Result<Vec<InstanceAge>, AllocError>
    ensures { IfOk result (λ v. v.items ≡ new_instances polled.now board.now) }
{
    let count = board.watch().instances().len();
    let mut instances = Vec::with_capacity(alloc, count)?;
    for place in 0..count {
        let target = target_at(polled, place);
        instances.push(new_instance(board, place as u16, target))?;
    }
    Ok(instances)
}

/// The target that is polled for the instance of this number.
fn target_at(polled: &[Option<u16>], number: usize) -> Option<u16>
    ensures { result ≡ get_or polled.now number None }
{
    match polled.get(number) {
        Some(target) => *target,
        None => None,
    }
}

/// The instance of this number, for which this target is polled, with its newest sample.
fn new_instance(board: &Board, number: u16, target: Option<u16>) -> InstanceAge
    ensures { result ≡ new_instance board.now number target }
{
    InstanceAge {
        number,
        target,
        newest: newest_on(board, number),
        rounds: 0,
    }
}

/// The fields of the newest sample of the instance of this number.
fn newest_on(board: &Board, number: u16) -> Option<SampleFields>
    ensures { result ≡ newest_on board.now number }
{
    if usize::from(number) >= board.watch().instances().len() {
        return None;
    }
    match board.items(number).last() {
        Some(sample) => Some(SampleFields {
            value: sample.value(),
            time: sample.time(),
            boots: sample.boots(),
            discontinuity: sample.discontinuity(),
            tag: sample.kind().tag(),
        }),
        None => None,
    }
}

/// Adds what was reported of a round, or the time after it, to each target.
#[tactic(auto, using(crate::proofs::InPlace::none_mapped, crate::proofs::InPlace::one_mapped, crate::proofs::InPlace::all_mapped))]
fn add_to_targets(targets: &mut [TargetAge], spell: Spell, report: &RoundReport)
    ensures { targets.new ≡ map (target_after spell.span report.now spell.ended) targets.old }
{
    for place in 0..targets.len() {
        targets[place] = target_after(targets[place], spell, report);
    }
}

/// Returns a target after a round, or the time after it, of which this is reported.
fn target_after(target: TargetAge, spell: Spell, report: &RoundReport) -> TargetAge
    ensures { result ≡ target_after spell.span report.now spell.ended target }
{
    let responses = report.answered.as_slice();
    let answered = has_answered(responses, target.number);
    let notices = report.notices.as_slice();
    let given_up = count_given_up(notices, target.number);
    TargetAge {
        up: match spell.span {
            Span::Round => answered,
            Span::Between(_) => answered || target.up,
        },
        rounds: age_after(spell.span, answered, target.rounds),
        answered: if answered {
            spell.ended
        } else {
            target.answered
        },
        given_up: target.given_up.saturating_add(given_up),
        refusal: refusal_after(
            answered,
            last_refusal(notices, target.address),
            target.refusal,
        ),
        late: late_after(target.late, spell.span, count_late(notices, target.address)),
        clock: clock_after(target.clock, target.number, responses),
        ..target
    }
}

/// Returns `true` if a response that was taken answered a poll of the target of this number.
fn has_answered(answered: &[TargetStamp], number: u16) -> bool
    ensures { result ≡ has_answered number answered.now }
{
    answered.iter().any(|stamp| stamp.target == number)
}

/// An age after a round, or the time after it: 0 if there was something new.
fn age_after(span: Span, is_new: bool, age: u32) -> u32
    ensures { result ≡ age_after span is_new age }
{
    if is_new {
        return 0;
    }
    match span {
        Span::Round => age.saturating_add(1),
        Span::Between(_) => age,
    }
}

/// How many polls of the target of this number were given up.
fn count_given_up(notices: &[Notice], number: u16) -> u64
    ensures { result ≡ gave_up_by number notices.now }
{
    let mut count = 0;
    for notice in notices {
        match notice {
            Notice::GaveUp(target) if *target == number => count += 1,
            _ => {}
        }
    }
    count
}

/// Returns why the last refused response from this address was refused.
fn last_refusal(notices: &[Notice], address: Addr) -> Option<StationFault>
    ensures { result ≡ last_refusal address notices.now }
{
    let mut last = None;
    for notice in notices {
        match notice {
            Notice::BadResponse(from, fault) if *from == address => last = Some(*fault),
            _ => {}
        }
    }
    last
}

/// Returns why a target's last response was refused: an answer clears it.
fn refusal_after(
    answered: bool,
    last: Option<StationFault>,
    before: Option<StationFault>,
) -> Option<StationFault>
    ensures { result ≡ refusal_after answered last before }
{
    match last {
        Some(fault) => Some(fault),
        None if answered => None,
        None => before,
    }
}

/// Adds what was reported of a round, or the time after it, to each peer.
#[tactic(auto, using(crate::proofs::InPlace::none_mapped, crate::proofs::InPlace::one_mapped, crate::proofs::InPlace::all_mapped))]
fn add_to_peers(peers: &mut [PeerAge], span: Span, report: &RoundReport)
    ensures { peers.new ≡ map (peer_after span report.now) peers.old }
{
    for place in 0..peers.len() {
        peers[place] = peer_after(peers[place], span, report);
    }
}

/// Returns a peer after a round, or the time after it, of which this is reported.
fn peer_after(peer: PeerAge, span: Span, report: &RoundReport) -> PeerAge
    ensures { result ≡ peer_after span report.now peer }
{
    let heard = match report.heard.as_slice().get(usize::from(peer.slot)) {
        Some(heard) => *heard,
        None => false,
    };
    let rounds = age_after(span, heard, peer.rounds);
    match span {
        Span::Round => PeerAge {
            rounds,
            offers: 0,
            counted: false,
            often: if peer.offers < OFTEN {
                0
            } else {
                peer.often.saturating_add(1)
            },
            ..peer
        },
        Span::Between(_) => {
            let counted = heard && !peer.counted;
            PeerAge {
                rounds,
                offers: if counted {
                    peer.offers.saturating_add(1)
                } else {
                    peer.offers
                },
                counted,
                ..peer
            }
        }
    }
}

/// Adds a round, or the time after it, that left this board to each instance.
#[tactic(auto, using(crate::proofs::InPlace::none_mapped, crate::proofs::InPlace::one_mapped, crate::proofs::InPlace::all_mapped))]
fn add_to_instances(instances: &mut [InstanceAge], span: Span, board: &Board)
    ensures { instances.new ≡ map (instance_after span board.now) instances.old }
{
    for place in 0..instances.len() {
        instances[place] = instance_after(instances[place], span, board);
    }
}

/// Returns an instance after a round, or the time after it, that left this board.
fn instance_after(instance: InstanceAge, span: Span, board: &Board) -> InstanceAge
    ensures { result ≡ instance_after span board.now instance }
{
    let newest = newest_on(board, instance.number);
    let is_new = !is_same(instance.newest, newest);
    InstanceAge {
        newest,
        rounds: age_after(span, is_new, instance.rounds),
        ..instance
    }
}

/// Returns `true` if two samples, or none, are equal.
fn is_same(one: Option<SampleFields>, other: Option<SampleFields>) -> bool
    ensures { result ≡ is_same one other }
{
    match (one, other) {
        (None, None) => true,
        (Some(one), Some(other)) => {
            one.value == other.value
                && one.time == other.time
                && one.boots == other.boots
                && one.discontinuity == other.discontinuity
                && one.tag == other.tag
        }
        _ => false,
    }
}
