//! What claims change at a station, and what it offers then.

use mon_board::{Board, Watch, Watched};
use mon_exchange::{Peers, Portion, portions, read_claim};
use mon_row_texts::{octets, parsed, put, put_fault, watched};
use std::alloc::Global;

/// The engine id of the agent.
const ENGINE: [u8; 5] = [128, 0, 0, 0, 1];

/// The peers and the windows of the station of number 1, with the peers 2 and 3. It watches
/// ifInOctets.1 with 64 samples, and ifInOctets.2 with 4, 2 of them of one boots number.
pub struct Exchange {
    board: Board,
    peers: Peers,
}

// By hand: where one is let go, a proof has one call and not a drop of each field.
impl Drop for Exchange {
    fn drop(self) {
        let Exchange { board: _, peers: _ } = self;
    }
}

/// Adds an instance of the agent, with samples of this window and epoch.
fn push_watched(
    alloc: Global,
    instances: &mut Vec<Watched>,
    name: &str,
    window: usize,
    epoch: usize,
) -> Option<()> {
    instances
        .push(watched(alloc, &ENGINE, name, window, epoch)?)
        .ok()
}

impl Exchange {
    /// Makes the station with empty windows.
    pub fn new(alloc: Global) -> Option<Self> {
        let mut instances = Vec::new(alloc);
        push_watched(alloc, &mut instances, "1.3.6.1.2.1.2.2.1.10.1", 64, 64)?;
        push_watched(alloc, &mut instances, "1.3.6.1.2.1.2.2.1.10.2", 4, 2)?;
        let watch = Watch::new(instances, Vec::new(alloc)).ok()?;
        let board = Board::new(alloc, watch).ok()?;
        let peers = Peers::new(alloc, 1, &[2, 3]).ok()?;
        Some(Exchange { board, peers })
    }

    /// Appends the answer to a line of this first word.
    pub fn answer(
        &mut self,
        alloc: Global,
        text: &mut String,
        word: &str,
        rest: &str,
    ) -> Option<()> {
        match word {
            "note" => self.note(alloc, text, rest),
            "known" => self.known(text, rest),
            "offer" => self.offer(alloc, text, rest),
            _ => None,
        }
    }

    /// Says what becomes of the claim that these octets spell, and the incarnation then known of
    /// its station.
    fn note(&mut self, alloc: Global, text: &mut String, digits: &str) -> Option<()> {
        let octets = octets(alloc, digits)?;
        let claim = match read_claim(alloc, octets.as_slice()) {
            Ok(claim) => claim,
            Err(why) => return put_fault(text, why.number(), why.name()),
        };
        match self.peers.note(&mut self.board, &claim) {
            Ok(noted) => {
                let known = self.peers.known(claim.station)?;
                write!(text, "{noted:?} {known}").ok()
            }
            Err(why) => put_fault(text, why.number(), why.name()),
        }
    }

    /// Appends the incarnation that is known of this station.
    fn known(&self, text: &mut String, word: &str) -> Option<()> {
        match self.peers.known(parsed(word)?) {
            Some(known) => write!(text, "{known}").ok(),
            None => put(text, "none"),
        }
    }

    /// Says what the station offers to this peer: of each portion the instance's number and its
    /// samples.
    fn offer(&self, alloc: Global, text: &mut String, word: &str) -> Option<()> {
        let slot = self.peers.slot(parsed(word)?)?;
        write!(text, "{} to slot {slot}", self.peers.own()).ok()?;
        let portions = portions(alloc, &self.board, slot).ok()?;
        for portion in portions.as_slice() {
            put_portion(text, portion)?;
        }
        Some(())
    }
}

fn put_portion(text: &mut String, portion: &Portion) -> Option<()> {
    write!(text, " {}:", portion.instance).ok()?;
    for sample in portion.samples.as_slice() {
        write!(text, " {}.{}", sample.boots(), sample.time()).ok()?;
    }
    Some(())
}
