//! One life of a station: what it does about an event that is no save and no share.

ghost use Rattle.std.specs.Prelude.{◌≡◌, ◌≤◌, ◌<◌, ◌^◌, ◌∷◌, [], ◌+◌, ℕ, All, IfOk, IfErr, IsOk, None, OnErr, OnOk, Some, drop, length, map, vec_capacity};
ghost use Rattle.mon_board.specs.Windows.{paired};
ghost use Rattle.mon_exchange.specs.Claim.{IsClaim};
ghost use Rattle.mon_board.specs.Instance.{instances_of};
ghost use Rattle.mon_poller.specs.Target.{AreTargets};
ghost use Rattle.mon_saved.specs.Image.{SpellsImage};
ghost use Rattle.mon_saved.specs.Kept.{IsKept};
ghost use Rattle.mon_saved.specs.Written.{image_of};
ghost use Rattle.mon_poller.specs.Verdict.{IsSentAgain, timeout_verdict};
ghost use Rattle.mon_station.specs.Verdict.{claim_pairs};

use crate::event::{Outgoing, TargetStamp, To, Told};
use crate::fault::StationFault;
use mon_ber::Octets;
use mon_board::{Board, InstanceSamples};
use mon_exchange::{Claim, ClaimKind, ClaimRef, Peers, read_claim, write_claim};
use mon_poller::{Poller, TimedOut};
use mon_sample::Sample;
use mon_saved::KeptImage;
use mon_udp::Addr;
use std::alloc::{AllocError, Global};

/// One life of a station: all that it holds in memory.
pub(crate) struct Life {
    /// The windows, and the marks on their samples.
    pub(crate) board: Board,
    /// The open polls.
    pub(crate) poller: Poller,
    /// The peers, and the incarnations that are known of them.
    pub(crate) peers: Peers,
    /// The incarnation, from 1.
    pub(crate) incarnation: u32,
    /// The serial of the next offer.
    pub(crate) serial: u32,
    ghost born: { (1 ≤ incarnation) × (incarnation < 2 ^ 32) },
    ghost watched: { All (λ t. All (λ o. o.instance < length board.watch.instances) t.objects)
        poller.targets },
}

// By hand: where one is let go, a proof has one call and not a drop of each field.
impl Drop for Life {
    fn drop(self) {
        let Life {
            board: _,
            poller: _,
            peers: _,
            incarnation: _,
            serial: _,
        } = self;
    }
}

impl Life {
    ghost use Rattle.std.specs.List.{AllByRecursion};
    ghost use Rattle.mon_poller.specs.Verdict.{ReadsAs};
    ghost use Rattle.mon_pdu.specs.declared.message.Message.{Message as AnyMessage};
    ghost use Rattle.mon_exchange.specs.declared.fault.ExchangeFault.{ExchangeFault as AnyExchangeFault};
    ghost use Rattle.std.specs.Prelude.{Err, Option, Result, Ok};
    ghost use Rattle.mon_station.specs.ReadEvent.{IsNumbered, SaysAs, Said};
    ghost use Rattle.mon_station.specs.ReadEvent as read;
    ghost use Rattle.mon_station.specs.Saved.{saved_octets};
    ghost use Rattle.mon_station.specs.State.{state_of};
    ghost use Rattle.mon_station.specs.Step.{IsSettled, left_polls};
    ghost use Rattle.mon_station.specs.Told.{IsAnswered, confirms, given_up_by, resends, to_peer};

    /// What holds of every state, for the proofs of its callers. It does nothing.
    pub(crate) fn settled(&self)
        ensures settled { IsSettled (state_of self.now) }
        ensures limited { AreTargets self.now.poller.targets }
    {
        mon_window::laws::bound();
        mon_window::laws::rising_list();
        // Proof: the invariants of the board and of the poller.
        let _ = self.board.watch().instances();
        let _ = self.poller.targets();
    }

    /// Makes the image that of the windows and the incarnation, behind space for the head that a
    /// keeper writes. Where it is that already, nothing is written; if it has the capacity, nothing
    /// is allocated.
    pub(crate) fn image(&self, image: &mut KeptImage) -> Result<(), AllocError>
        requires kept { IsKept image.old self.now.board }
        ensures head { OnOk result (16 ≤ length image.new.octets.items) }
        ensures written { OnOk result (drop 16 image.new.octets.items
            ≡ saved_octets (state_of self.now)) }
        ensures spells { OnOk result (SpellsImage (saved_octets (state_of self.now))
            (instances_of self.now.board.watch.instances) (image_of self.now.board
            self.now.incarnation)) }
        ensures few { OnOk result (length (saved_octets (state_of self.now)) ≤ 484617) }
        ensures spared { 16 + length (saved_octets (state_of self.now))
            ≤ vec_capacity image.old.octets → length self.now.board.watch.instances
            ≤ vec_capacity image.old.places → IsOk result }
        ensures capacity { vec_capacity image.old.octets ≤ vec_capacity image.new.octets }
        ensures places_capacity { vec_capacity image.old.places ≤ vec_capacity image.new.places }
        ensures kept { IsKept image.new self.now.board }
    {
        image.write(&self.board, self.incarnation)
    }

    /// Starts a poll of the target of this number.
    pub(crate) fn start_poll(&mut self, alloc: Global, target: u16) -> Result<Told, StationFault>
        ensures board { self.new.board ≡ self.old.board }
        ensures answered { IsAnswered (state_of self.old) (state_of self.new)
            (read.StartPoll target) result }
        ensures refused { OnErr result (state_of self.new ≡ state_of self.old) }
    {
        // Proof: the invariants of the state.
        self.settled();
        let room = room_for_one(alloc)?;
        match self.poller.start(alloc, target) {
            Ok(request) => {
                let out = Outgoing {
                    to: To::Target(target),
                    octets: request.octets,
                };
                Ok(told_one(alloc, room, out))
            }
            Err(fault) => Err(StationFault::from(fault)),
        }
    }

    /// The poll of this request-id timed out. It allocates nothing if it is not sent again.
    pub(crate) fn timeout(&mut self, alloc: Global, id: u32) -> Result<Told, StationFault>
        ensures board { self.new.board ≡ self.old.board }
        ensures answered { IsAnswered (state_of self.old) (state_of self.new) (read.Timeout id)
            result }
        ensures spared { ¬ (IsSentAgain (timeout_verdict self.old.poller.targets
            self.old.poller.polls id)) → IsOk result }
        ensures refused { OnErr result (state_of self.new ≡ state_of self.old) }
    {
        // Proof: the invariants of the state.
        self.settled();
        let room = self.room_to_send_again(alloc, id)?;
        let timed_out = self.poller.time_out(alloc, id)?;
        Ok(Self::told_timeout(alloc, room, timed_out))
    }

    /// Allocates for the datagram of a timeout, if one is sent.
    fn room_to_send_again(&self, alloc: Global, id: u32) -> Result<Vec<Outgoing>, AllocError>
        ensures room { IfOk result (λ room. IsSentAgain (timeout_verdict self.now.poller.targets
            self.now.poller.polls id) → 1 ≤ vec_capacity room) }
        ensures empty { IfOk result (λ room. room.items ≡ []) }
        ensures memory { OnErr result (IsSentAgain (timeout_verdict self.now.poller.targets
            self.now.poller.polls id)) }
    {
        if self.poller.has_tries(id) {
            room_for_one(alloc)
        } else {
            Ok(Vec::new(alloc))
        }
    }

    /// What a timeout leads to. There is capacity for its datagram, if one is sent.
    fn told_timeout(alloc: Global, room: Vec<Outgoing>, timed_out: TimedOut) -> Told
        requires room { IsSentAgain timed_out → 1 ≤ vec_capacity room }
        requires empty { room.items ≡ [] }
        ensures taken { result.taken ≡ [] }
        ensures sends { result.sends.items ≡ resends timed_out }
        ensures noted { result.noted ≡ None }
        ensures given_up { result.given_up ≡ given_up_by timed_out }
        ensures answered { result.answered ≡ None }
    {
        match timed_out {
            TimedOut::Again { target, octets } => {
                let out = Outgoing {
                    to: To::Target(target),
                    octets,
                };
                told_one(alloc, room, out)
            }
            TimedOut::GivenUp { target } => Told {
                taken: InstanceSamples::new(alloc),
                sends: room,
                noted: None,
                given_up: Some(target),
                answered: None,
            },
            TimedOut::NotOpen => told_none(alloc),
        }
    }

    /// Takes what a response to an open poll offers. The image of the windows moves with them.
    pub(crate) fn from_agent(
        &mut self,
        alloc: Global,
        from: Addr,
        octets: &[u8],
        image: &mut KeptImage,
    ) -> Result<Told, StationFault>
        requires kept { IsKept image.old self.old.board }
        ensures kept { IsKept image.new self.new.board }
        ensures answered { (r : Option AnyMessage) → ReadsAs octets.now r
            → IsAnswered (state_of self.old) (state_of self.new) (read.FromAgent from r) result }
        ensures read { (r : Option AnyMessage) × ReadsAs octets.now r }
        ensures refused { OnErr result (state_of self.new ≡ left_polls (state_of self.old)
            self.new.poller.polls) }
        ensures memory { result ≡ Err StationFault.OutOfMemory
            → state_of self.new ≡ state_of self.old }
    {
        mon_poller::laws::offered();
        // Proof: the invariants of the state.
        self.settled();
        match self.poller.response(alloc, from, octets) {
            Ok(offered) => {
                image.take_pairs(&mut self.board, offered.pairs.as_slice());
                let answered = TargetStamp {
                    target: offered.target,
                    boots: offered.boots,
                    time: offered.time,
                };
                Ok(Told {
                    taken: offered.pairs,
                    sends: Vec::new(alloc),
                    noted: None,
                    given_up: None,
                    answered: Some(answered),
                })
            }
            Err(fault) => Err(StationFault::from(fault)),
        }
    }

    /// Takes what a peer's claim claims. The image of the windows is forgotten where it takes
    /// something.
    pub(crate) fn from_peer(
        &mut self,
        alloc: Global,
        octets: &[u8],
        image: &mut KeptImage,
    ) -> Result<Told, StationFault>
        requires kept { IsKept image.old self.old.board }
        ensures kept { IsKept image.new self.new.board }
        ensures answered { (r : Result Said AnyExchangeFault)
            → SaysAs self.old.board.watch octets.now r → IsAnswered (state_of self.old)
            (state_of self.new) (read.FromPeer r) result }
        ensures read { IfOk result (λ _. (r : Result Said AnyExchangeFault)
            × SaysAs self.old.board.watch octets.now r) }
        ensures read_err { IfErr result (λ f. (f ≡ StationFault.OutOfMemory → ⊥)
            → (r : Result Said AnyExchangeFault) × SaysAs self.old.board.watch octets.now r) }
        ensures refused { OnErr result (state_of self.new ≡ state_of self.old) }
    {
        // Proof: the invariants of the state.
        self.settled();
        match read_claim(alloc, octets) {
            Ok(claim) => self.take_claim(alloc, &claim, image),
            Err(fault) => Err(StationFault::from(fault)),
        }
    }

    /// Takes what a claim claims, and confirms it where it is an offer.
    fn take_claim(
        &mut self,
        alloc: Global,
        claim: &Claim,
        image: &mut KeptImage,
    ) -> Result<Told, StationFault>
        requires claim { IsClaim claim.now }
        requires kept { IsKept image.old self.old.board }
        ensures kept { IsKept image.new self.new.board }
        ensures answered { (n : Option ℕ) → IsNumbered self.old.board.watch claim.now n
            → IsAnswered (state_of self.old) (state_of self.new)
            (read.FromPeer (Ok (record { claim = claim.now; number = n }))) result }
        ensures numbered { (n : Option ℕ) × IsNumbered self.old.board.watch claim.now n }
        ensures refused { OnErr result (state_of self.new ≡ state_of self.old) }
    {
        // Proof: the invariants of the state.
        self.settled();
        let taken = self.pairs(alloc, claim)?;
        let sends = self.confirm(alloc, claim)?;
        match self.peers.note(&mut self.board, claim) {
            Ok(noted) => {
                image.forget();
                Ok(Told {
                    taken,
                    sends,
                    noted: Some(noted),
                    given_up: None,
                    answered: None,
                })
            }
            Err(fault) => Err(StationFault::from(fault)),
        }
    }

    /// The samples of a claim with the number of its instance, where that is watched.
    fn pairs(&self, alloc: Global, claim: &Claim) -> Result<InstanceSamples, AllocError>
        ensures pairs { IfOk result (λ pairs. (n : Option ℕ)
            → IsNumbered self.now.board.watch claim.now n
            → pairs ≡ claim_pairs n claim.now.samples) }
        ensures numbered { (n : Option ℕ) × IsNumbered self.now.board.watch claim.now n }
    {
        match self.board.find(claim.engine.as_slice(), &claim.name) {
            Some(number) => pairs_of(alloc, number, claim.samples.as_slice()),
            None => Ok(InstanceSamples::new(alloc)),
        }
    }

    /// The confirmation of a claim, where it is an offer.
    fn confirm(&self, alloc: Global, claim: &Claim) -> Result<Vec<Outgoing>, AllocError>
        requires { IsClaim claim.now }
        ensures sent { IfOk result (λ sends. sends.items ≡ map (to_peer claim.now.station)
            (confirms (state_of self.now) claim.now.kind claim.now)) }
        ensures claims { IfOk result (λ _. AllByRecursion IsClaim
            (confirms (state_of self.now) claim.now.kind claim.now)) }
    {
        let ClaimKind::Offer = claim.kind else {
            return Ok(Vec::new(alloc));
        };
        let mut sends = room_for_one(alloc)?;
        let confirm = ClaimRef {
            kind: ClaimKind::Confirm,
            station: self.peers.own(),
            incarnation: self.incarnation,
            serial: claim.serial,
            engine: claim.engine.as_slice(),
            name: &claim.name,
            samples: claim.samples.as_slice(),
        };
        let octets = Octets::new(write_claim(alloc, &confirm)?);
        let out = Outgoing {
            to: To::Peer(claim.station),
            octets,
        };
        sends.push(out).unwrap();
        Ok(sends)
    }
}

/// Samples of an instance, each with its number.
fn pairs_of(alloc: Global, number: u16, samples: &[Sample]) -> Result<InstanceSamples, AllocError>
    ensures { IfOk result (λ pairs. pairs ≡ paired number samples.now) }
{
    let mut pairs = InstanceSamples::new(alloc);
    for sample in samples {
        pairs.push(number, *sample)?;
    }
    Ok(pairs)
}

/// Allocates for one datagram.
fn room_for_one(alloc: Global) -> Result<Vec<Outgoing>, AllocError>
    ensures room { IfOk result (λ room. 1 ≤ vec_capacity room) }
    ensures empty { IfOk result (λ room. room.items ≡ []) }
{
    Vec::with_capacity(alloc, 1)
}

/// One datagram is sent.
fn told_one(alloc: Global, room: Vec<Outgoing>, out: Outgoing) -> Told
    requires room { 1 ≤ vec_capacity room }
    requires empty { room.items ≡ [] }
    ensures taken { result.taken ≡ [] }
    ensures sends { result.sends.items ≡ out ∷ [] }
    ensures noted { result.noted ≡ None }
    ensures given_up { result.given_up ≡ None }
    ensures answered { result.answered ≡ None }
{
    let mut sends = room;
    sends.push(out).unwrap();
    Told {
        taken: InstanceSamples::new(alloc),
        sends,
        noted: None,
        given_up: None,
        answered: None,
    }
}

/// Nothing is reported.
pub(crate) fn told_none(alloc: Global) -> Told
    ensures taken { result.taken ≡ [] }
    ensures sends { result.sends.items ≡ [] }
    ensures noted { result.noted ≡ None }
    ensures given_up { result.given_up ≡ None }
    ensures answered { result.answered ≡ None }
{
    Told {
        taken: InstanceSamples::new(alloc),
        sends: Vec::new(alloc),
        noted: None,
        given_up: None,
        answered: None,
    }
}
