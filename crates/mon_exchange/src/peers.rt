ghost use Rattle.std.specs.Prelude.{◌≡◌, ◌≢◌, ◌≤◌, ◌<◌, ◌==◌, ◌↔◌, ◌⊎◌, ℕ, IfOk, IfErr, IfSome, OnOk, OnErr, None, Some, if◌then◌else◌, length, map, position};
ghost use Rattle.mon_board.specs.Board.{is_marked, window_of};
ghost use Rattle.mon_board.specs.Windows.{joined, paired};
ghost use Rattle.mon_exchange.specs.Peers as specs;

use crate::claim::Claim;
use crate::fault::ExchangeFault;
use crate::marking::{mark_noted, number_of};
use crate::noted::{Noted, latest, noted_as};
use mon_board::Board;
use std::alloc::{AllocError, Global};
use std::marker::Model;

/// A peer.
#[derive(Clone, Copy)]
pub(crate) struct Peer {
    /// The station's number.
    number: u32,
    /// The greatest incarnation that one of its claims named.
    known: Option<u32>,
}

/// The peers of a station, at most 15, and the incarnation that is known of each. A peer's slot is
/// its place among them. It takes all its memory when it is made; no other call takes any.
#[derive(Drop)]
pub struct Peers {
    own: u32,
    peers: Vec<Peer>,
}

impl Model for Peers {
    ghost use Rattle.mon_exchange.specs.Peers.{Peers, ArePeers};

    ghost Value = { Peers };

    ghost view = { λ p. record { own = p.own; peers = p.peers.items } };

    ghost invariant = { λ p. ArePeers (record { own = p.own; peers = p.peers.items }) };
}

impl Peers {
    ghost use Rattle.mon_exchange.specs.Peers.{IsWatchedAs, incarnation_in, known_incarnation, latest as latest_of, marks_after, noted_as as noted_of, peer_numbers, peer_slot, unheard};

    /// The peers of these numbers, each in its place, of the station whose number is `own`. Of none
    /// an incarnation is known. Of a number that is there twice the first place is its slot.
    pub fn new(alloc: Global, own: u32, numbers: &[u32]) -> Result<Self, AllocError>
        requires own { 1 ≤ own }
        requires few { length numbers.now ≤ 15 }
        ensures peers { IfOk result (λ p. p
            ≡ record { own = own; peers = map unheard numbers.now }) }
        ensures numbers { IfOk result (λ p. peer_numbers p.peers ≡ numbers.now) }
        ensures unknown { IfOk result (λ p. (y : ℕ) → known_incarnation p.peers y ≡ None) }
    {
        let mut peers = Vec::with_capacity(alloc, numbers.len())?;
        for number in numbers {
            peers.push(Peer {
                number: *number,
                known: None,
            })?;
        }
        Ok(Peers { own, peers })
    }

    /// The station's own number, not 0.
    pub fn own(&self) -> u32
        ensures own { result ≡ self.now.own }
        ensures positive { 1 ≤ result }
    {
        self.own
    }

    /// The slot of a station, 0 to 14, where it is a peer.
    pub fn slot(&self, station: u32) -> Option<u8>
        ensures slot { result ≡ peer_slot self.now.peers station }
        ensures within { IfSome result (λ slot. slot < length self.now.peers) }
        ensures small { IfSome result (λ slot. slot < 15) }
    {
        match place_of(self.peers.as_slice(), station) {
            Some(slot) => Some(slot as u8),
            None => None,
        }
    }

    /// The incarnation that is known of a station: the greatest that a claim of it named, where it
    /// is a peer and one was noted.
    pub fn known(&self, station: u32) -> Option<u32>
        ensures { result ≡ known_incarnation self.now.peers station }
    {
        let Some(slot) = self.slot(station) else {
            return None;
        };
        self.peers[usize::from(slot)].known
    }

    /// Takes a claim's samples into the board, and then marks those that are in the window for the
    /// claim's peer. A first or greater incarnation of the peer takes its earlier marks away and is
    /// the known one from then on; of a smaller one nothing is marked. `UnknownPeer` where the
    /// station is no peer, else `UnknownInstance` where the instance is not watched; both change
    /// nothing.
    pub fn note(&mut self, board: &mut Board, claim: &Claim) -> Result<Noted, ExchangeFault>
        ensures unknown_peer { (result ≡ Err ExchangeFault.UnknownPeer)
            ↔ (peer_slot self.old.peers claim.now.station ≡ None) }
        ensures unknown_instance { (result ≡ Err ExchangeFault.UnknownInstance)
            ↔ ((peer_slot self.old.peers claim.now.station ≢ None)
            × ((i : ℕ) → ¬ (IsWatchedAs board.old.watch claim.now.engine claim.now.name i))) }
        ensures faults { IfErr result (λ e. (e ≡ ExchangeFault.UnknownPeer)
            ⊎ (e ≡ ExchangeFault.UnknownInstance)) }
        ensures refused { OnErr result ((self.new ≡ self.old) × (board.new ≡ board.old)) }
        ensures noted { IfOk result (λ n. n ≡ noted_of (known_incarnation self.old.peers
            claim.now.station) claim.now.incarnation) }

        // The peers stay, and only of the claim's station another incarnation may be known.
        ensures own { self.new.own ≡ self.old.own }
        ensures numbers { peer_numbers self.new.peers ≡ peer_numbers self.old.peers }
        ensures known { OnOk result ((y : ℕ) → known_incarnation self.new.peers y
            ≡ (if y == claim.now.station then Some (latest_of (known_incarnation self.old.peers y)
            claim.now.incarnation) else known_incarnation self.old.peers y)) }

        // The claim's samples are taken, and then marked.
        ensures watch { board.new.watch ≡ board.old.watch }
        ensures windows { OnOk result ((number : ℕ) → IsWatchedAs board.old.watch claim.now.engine
            claim.now.name number
            → (i : ℕ) → window_of board.new i ≡ joined board.old.watch (window_of board.old)
            (paired number claim.now.samples) i) }
        ensures marks { OnOk result ((slot number : ℕ) → peer_slot self.old.peers claim.now.station
            ≡ Some slot → IsWatchedAs board.old.watch claim.now.engine claim.now.name number
            → (k i s : ℕ) → is_marked board.new k i s
            ≡ marks_after (noted_of (known_incarnation self.old.peers claim.now.station)
            claim.now.incarnation) slot number claim.now.samples (window_of board.old)
            (window_of board.new) (is_marked board.old) k i s) }
    {
        let Some(slot) = self.slot(claim.station) else {
            return Err(ExchangeFault::UnknownPeer);
        };
        let Some(instance) = number_of(board, claim) else {
            return Err(ExchangeFault::UnknownInstance);
        };
        let samples = claim.samples.as_slice();
        board.take_all(instance, samples);
        let noted = self.hear(slot, claim.incarnation);
        mark_noted(board, noted, slot, instance, samples);
        Ok(noted)
    }

    /// Keeps the incarnation of the peer in the slot where it is its first or greater than the
    /// known one, and says which.
    fn hear(&mut self, slot: u8, incarnation: u32) -> Noted
        requires { slot < length self.old.peers }
        ensures noted { result ≡ noted_of (incarnation_in self.old.peers slot) incarnation }
        ensures own { self.new.own ≡ self.old.own }
        ensures numbers { peer_numbers self.new.peers ≡ peer_numbers self.old.peers }
        ensures known { (k : ℕ) → incarnation_in self.new.peers k
            ≡ (if k == slot then Some (latest_of (incarnation_in self.old.peers slot) incarnation)
            else incarnation_in self.old.peers k) }
    {
        let peer = &mut self.peers[usize::from(slot)];
        let noted = noted_as(peer.known, incarnation);
        peer.known = Some(latest(peer.known, incarnation));
        noted
    }
}

/// The place of a station among the peers.
fn place_of(peers: &[Peer], station: u32) -> Option<usize>
    ensures { result ≡ position (λ p. p.number == station) peers.now }
{
    peers.iter().position(|peer| peer.number == station)
}
