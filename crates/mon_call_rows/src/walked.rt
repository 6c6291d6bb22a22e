//! A walk through an agent whose names do not increase.

use mon_app::SocketFault;
use mon_client::{Heard, Stride, WalkFault, WalkPlan, Wire, walk};
use mon_host::{Given, Host, RecordedCall, Recorder};
use mon_oid::Oid;
use mon_row_texts::{octets, two};
use mon_smi::InNumbers;
use std::alloc::Global;

/// A wire to an agent that answers each request with one message, under the request's id.
#[derive(Drop)]
struct Same {
    reply: Vec<u8>,
}

/// The place of the last octet of a request-id in a message of the community `public`.
const ID: usize = 17;

impl Wire for Same {
    ghost use Rattle.std.specs.Prelude.{None};

    ghost log = { λ _. None };

    // It never fails.
    ghost failures = { λ _. 0 };

    fn send(&mut self, octets: &[u8]) -> Result<(), SocketFault> {
        if let Some(id) = octets.get(ID)
            && let Some(place) = self.reply.get_mut(ID)
        {
            *place = *id;
        }
        Ok(())
    }

    fn receive(&mut self, room: &mut [u8]) -> Result<Heard, SocketFault> {
        let Some(front) = room.get_mut(..self.reply.len()) else {
            return Ok(Heard::Quiet);
        };
        front.copy_from_slice(self.reply.as_slice());
        Ok(Heard::Datagram(self.reply.len()))
    }
}

/// Walks in the community `public`, without the clauses of the call.
fn walked<W: Wire, H: Host>(
    alloc: Global,
    host: &mut H,
    wire: &mut W,
    start: &Oid,
    stride: Stride,
) -> Result<(), WalkFault> {
    let asked = WalkPlan {
        community: b"public",
        start,
        stride,
    };
    walk(alloc, host, wire, &asked, &InNumbers)
}

/// Says what the walk of a line `NAME HEX` prints, and why it ends.
pub(crate) fn row(alloc: Global, text: &mut String, stride: Stride, line: &str) -> Option<()> {
    let (name, reply) = two(line, ' ')?;
    let reply = octets(alloc, reply)?;
    let start = Oid::parse(alloc, name).ok()?;
    let mut wire = Same { reply };
    let nothing = Given {
        words: Vec::new(alloc),
        input: Ok(Vec::new(alloc)),
        files: Vec::new(alloc),
        output: Ok(()),
    };
    let mut host = Recorder::new(alloc, nothing);
    let walked = walked(alloc, &mut host, &mut wire, &start, stride);
    let printed = printed_by(alloc, &host)?;
    match walked {
        Ok(()) => write!(text, "{printed:?}").ok(),
        Err(WalkFault::App(why)) => {
            write!(text, "{printed:?}, {} {}", why.number(), why.name()).ok()
        }
        Err(WalkFault::Output(_)) => None,
    }
}

/// What was printed in surroundings, or None if that is lost.
fn printed_by(alloc: Global, host: &Recorder) -> Option<String> {
    let mut printed = String::new(alloc);
    for step in host.steps()? {
        if let RecordedCall::Print(octets, Ok(())) = step {
            printed
                .push_str(str::from_utf8(octets.as_slice()).ok()?)
                .ok()?;
        }
    }
    Some(printed)
}
