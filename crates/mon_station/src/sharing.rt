//! Offers to a peer.

ghost use Rattle.std.specs.Prelude.{◌≡◌, ◌≤◌, ◌<◌, Some, All, IfOk, OnErr, length, map};
ghost use Rattle.mon_exchange.specs.Claim.{IsClaim};
ghost use Rattle.mon_exchange.specs.Portions.{IsPortion};
ghost use Rattle.mon_window.specs.Top.{rising};
ghost use Rattle.mon_station.specs.State.{owed_below, owed_to, serial_past};

use crate::event::{Outgoing, To, Told};
use crate::fault::StationFault;
use crate::life::Life;
use mon_ber::Octets;
use mon_board::InstanceSamples;
use mon_exchange::{
    ClaimKind, ClaimRef, ExchangeFault, Portion, portions, serial_after, write_claim,
};
use std::alloc::{AllocError, Global};

impl Life {
    ghost use Rattle.std.specs.List.{AllByRecursion};
    ghost use Rattle.mon_station.specs.ReadEvent as read;
    ghost use Rattle.mon_station.specs.State.{state_of};
    ghost use Rattle.mon_station.specs.Told.{IsAnswered, offer_of, offers_from, to_peer};

    /// Offers the peer of this station number what it is owed.
    pub(crate) fn share(&mut self, alloc: Global, peer: u32) -> Result<Told, StationFault>
        ensures board { self.new.board ≡ self.old.board }
        ensures answered { IsAnswered (state_of self.old) (state_of self.new) (read.Share peer)
            result }
        ensures few { IfOk result (λ told. length told.sends.items ≤ 512) }
        ensures refused { OnErr result (state_of self.new ≡ state_of self.old) }
    {
        // Proof: the invariants of the state.
        self.settled();
        let Some(slot) = self.peers.slot(peer) else {
            return Err(StationFault::Exchange(ExchangeFault::UnknownPeer));
        };
        let portions = portions(alloc, &self.board, slot)?;
        let (sends, serial) = self.offers(alloc, peer, portions.as_slice())?;
        self.serial = serial;
        Ok(Told {
            taken: InstanceSamples::new(alloc),
            sends,
            noted: None,
            given_up: None,
            answered: None,
        })
    }

    /// Offers of portions to a peer, and the serial after them.
    fn offers(
        &self,
        alloc: Global,
        peer: u32,
        portions: &[Portion],
    ) -> Result<(Vec<Outgoing>, u32), AllocError>
        requires { All (IsPortion (length self.now.board.watch.instances)) portions.now }
        ensures sent { IfOk result (λ r. r.0.items ≡ map (to_peer peer)
            (offers_from (state_of self.now) self.now.serial portions.now)) }
        ensures next { IfOk result (λ r. r.1 ≡ serial_past self.now.serial portions.now) }
        ensures claims { IfOk result (λ _. AllByRecursion IsClaim
            (offers_from (state_of self.now) self.now.serial portions.now)) }
    {
        let mut sends = Vec::with_capacity(alloc, portions.len())?;
        let mut serial = self.serial;
        for portion in portions {
            let offer = self.offer(alloc, peer, serial, portion)?;
            sends.push(offer)?;
            serial = serial_after(serial);
        }
        Ok((sends, serial))
    }

    /// The offer of a portion to a peer, with this serial.
    fn offer(
        &self,
        alloc: Global,
        peer: u32,
        serial: u32,
        portion: &Portion,
    ) -> Result<Outgoing, AllocError>
        requires { IsPortion (length self.now.board.watch.instances) portion.now }
        ensures sent { IfOk result (λ out. out ≡ to_peer peer
            (offer_of (state_of self.now) serial portion.now)) }
        ensures claim { IfOk result (λ _. IsClaim
            (offer_of (state_of self.now) serial portion.now)) }
    {
        let watched = &self.board.watch().instances()[usize::from(portion.instance)];
        let instance = &watched.instance;
        let offer = ClaimRef {
            kind: ClaimKind::Offer,
            station: self.peers.own(),
            incarnation: self.incarnation,
            serial,
            engine: instance.engine.as_slice(),
            name: &instance.name,
            samples: portion.samples.as_slice(),
        };
        let octets = Octets::new(write_claim(alloc, &offer)?);
        Ok(Outgoing {
            to: To::Peer(peer),
            octets,
        })
    }

    /// How many samples are owed to the peer in this slot.
    pub(crate) fn owed_count(&self, slot: u8) -> u32
        requires { slot < 15 }
        ensures { result ≡ owed_below (owed_to (state_of self.now) slot)
            (length self.now.board.watch.instances) }
    {
        // Proof: the invariants of the state.
        self.settled();
        let mut count = 0;
        for place in 0..self.board.watch().instances().len() {
            count += self.owed_at(slot, place as u16);
        }
        count
    }

    /// How many samples of an instance are owed to the peer in this slot.
    fn owed_at(&self, slot: u8, instance: u16) -> u32
        requires slot { slot < 15 }
        requires instance { instance < length self.now.board.watch.instances }
        ensures count { result ≡ length (rising (owed_to (state_of self.now) slot instance)) }
        ensures few { result ≤ 64 }
    {
        mon_window::laws::rising_list();
        // Proof: the invariants of the state.
        self.settled();
        let mut count = 0;
        let mut after = None;
        while let Some(sample) = self.board.owed(slot, instance, after) {
            count += 1;
            after = Some(sample);
        }
        count
    }
}
