//! Buffers that replies are written into.

use mon_oid::Oid;
use std::alloc::Global;

/// Buffers for an agent's replies, kept from datagram to datagram. What they hold between calls has
/// no meaning: a reply is written from their start.
#[derive(Drop)]
pub struct ReplyBuffers {
    /// For the variable bindings of a response, whose size its head begins with.
    pub(crate) list: Vec<u8>,
    /// For the names of a GetBulk, and those of each of its rounds.
    pub(crate) names: Vec<Oid>,
    /// For the response.
    pub(crate) octets: Vec<u8>,
}

impl ReplyBuffers {
    /// Returns empty buffers, which allocate nothing yet.
    pub fn new(alloc: Global) -> Self {
        ReplyBuffers {
            list: Vec::new(alloc),
            names: Vec::new(alloc),
            octets: Vec::new(alloc),
        }
    }

    /// Takes back the octets of a reply that was sent, so that the next is written in their memory.
    pub fn keep(&mut self, octets: Vec<u8>) {
        self.octets = octets;
    }
}
