//! A wire in memory, which writes down what happens.

ghost use Rattle.std.specs.Prelude.{◌≡◌, ◌≤◌, ◌++◌, ◌∷◌, [], IfOk, IfSome, OnErr, OnOk, length, map};
ghost use Rattle.mon_client.specs.AtWire.{Heard as HeardAtWire, FitsRoom, Sent, hearing};
ghost use Rattle.mon_call_rows.specs.Log.{at_wire};

use crate::event::Event;
use mon_app::{SocketFault, SocketReason};
use mon_client::{Heard, Wire};
use mon_row_texts::{put, put_digits};
use mon_udp::failed_after;
use std::alloc::Global;

/// There is no memory to write down what happened.
const NO_ROOM: SocketFault = SocketFault {
    reason: SocketReason::Other,
};

/// What a wire receives: each time something else, and then its datagrams. It writes down what
/// happened.
#[derive(Drop)]
pub struct Memory {
    alloc: Global,
    heard: Vec<Vec<u8>>,
    turn: usize,
    other: bool,
    log: Vec<Event>,
    failures: u64,
}

impl Memory {
    /// Makes a wire on which nothing has happened.
    pub fn new(alloc: Global, heard: Vec<Vec<u8>>) -> Self {
        Memory {
            alloc,
            heard,
            turn: 0,
            other: false,
            log: Vec::new(alloc),
            failures: 0,
        }
    }

    /// Writes down what happened. It fails if there is no memory for it.
    fn note(&mut self, event: Event) -> Result<(), SocketFault>
        ensures noted { OnOk result (self.new.log.items ≡ self.old.log.items ++ event ∷ []) }
        ensures same { OnErr result (self.new.log.items ≡ self.old.log.items) }
        ensures failures { self.new.failures ≡ self.old.failures }
    {
        self.log.push(event).map_err(|_| NO_ROOM)
    }

    fn note_sent(&mut self, octets: &[u8]) -> Result<(), SocketFault>
        ensures noted { OnOk result (map at_wire self.new.log.items
            ≡ map at_wire self.old.log.items ++ Sent octets.now ∷ []) }
        ensures same { OnErr result (self.new.log.items ≡ self.old.log.items) }
        ensures failures { self.new.failures ≡ self.old.failures }
    {
        let Ok(octets) = Vec::from_slice(self.alloc, octets) else {
            return Err(NO_ROOM);
        };
        self.note(Event::Sent(octets))
    }

    fn note_heard(&mut self, octets: &[u8]) -> Result<(), SocketFault>
        ensures noted { OnOk result (map at_wire self.new.log.items
            ≡ map at_wire self.old.log.items ++ HeardAtWire octets.now ∷ []) }
        ensures same { OnErr result (self.new.log.items ≡ self.old.log.items) }
        ensures failures { self.new.failures ≡ self.old.failures }
    {
        let Ok(octets) = Vec::from_slice(self.alloc, octets) else {
            return Err(NO_ROOM);
        };
        self.note(Event::Heard(octets))
    }

    /// Puts the next datagram at the front of the buffer.
    fn next(&mut self, room: &mut [u8]) -> Option<usize>
        ensures within { IfSome result (λ len. len ≤ length room.new) }
        ensures log { self.new.log ≡ self.old.log }
        ensures failures { self.new.failures ≡ self.old.failures }
    {
        let octets = self.heard.get(self.turn)?;
        let front = room.get_mut(..octets.len())?;
        front.copy_from_slice(octets.as_slice());
        self.turn = self.turn.saturating_add(1);
        Some(octets.len())
    }

    fn hear(&mut self, room: &mut [u8]) -> Result<Heard, SocketFault>
        ensures told { map at_wire self.new.log.items ≡ map at_wire self.old.log.items
            ++ hearing room.new result }
        ensures failures { self.new.failures ≡ self.old.failures }
        ensures within { IfOk result (FitsRoom (length room.new)) }
    {
        self.other = !self.other;
        if self.other {
            self.note(Event::Other)?;
            return Ok(Heard::Other);
        }
        let Some(len) = self.next(room) else {
            self.note(Event::Quiet)?;
            return Ok(Heard::Quiet);
        };
        self.note_heard(&room[..len])?;
        Ok(Heard::Datagram(len))
    }

    /// Appends what was sent, in hex digits.
    pub fn put_sent(&self, text: &mut String) -> Option<()> {
        for event in &self.log {
            if let Event::Sent(octets) = event {
                put(text, " ")?;
                put_digits(text, octets.as_slice())?;
            }
        }
        Some(())
    }
}

impl Wire for Memory {
    ghost use Rattle.std.specs.Prelude.{Some, map};
    ghost use Rattle.mon_call_rows.specs.Log.{at_wire};

    ghost log = { λ w. Some (map at_wire w.log.items) };

    ghost failures = { λ w. w.failures };

    fn send(&mut self, octets: &[u8]) -> Result<(), SocketFault> {
        let sent = self.note_sent(octets);
        self.failures = failed_after(self.failures, &sent);
        sent
    }

    fn receive(&mut self, room: &mut [u8]) -> Result<Heard, SocketFault> {
        let heard = self.hear(room);
        self.failures = failed_after(self.failures, &heard);
        heard
    }
}
