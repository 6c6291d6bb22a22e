//! Serving an agent at a port, datagram by datagram.

ghost use Rattle.std.specs.Prelude.{◌≡◌, ◌≤◌, IfOk, length};
ghost use Rattle.mon_agent.specs.State.{policy_of, settings_of};
ghost use Rattle.mon_serving.specs.AtPort.{Happens};
ghost use Rattle.mon_serving.specs.Served.{AnswersIt, IsAwaited, IsServed, stands};

use crate::port::{Port, Received};
use mon_agent::{Agent, Reply, ReplyBuffers};
use mon_app::SocketFault;
use mon_mib::Device;
use mon_udp::datagram_buffer;
use std::alloc::{AllocError, Global};

/// How many failed waits in a row are passed over; the next one that fails ends the serving.
const PASSED_OVER: u8 = 15;

/// What became of a datagram that an agent was served.
#[derive(Clone, Copy, Debug, PartialEq, Eq)]
pub enum Served {
    /// The agent answered it, or is silent.
    Answered,
    /// Memory ran out for it, and the agent is as it was.
    Untaken,
}

/// Buffers of an agent that is served, kept from datagram to datagram.
#[derive(Drop)]
pub struct Buffers {
    datagram: Vec<u8>,
    replies: ReplyBuffers,
}

impl Buffers {
    /// Returns buffers for datagrams of any size, and for their replies.
    ///
    /// # Errors
    /// `AllocError` if out of memory.
    pub fn new(alloc: Global) -> Result<Self, AllocError>
        ensures { IfOk result (λ buffers. length buffers.datagram.items ≡ 65507) }
    {
        let datagram = datagram_buffer(alloc)?;
        Ok(Buffers {
            datagram,
            replies: ReplyBuffers::new(alloc),
        })
    }
}

/// Serves an agent the next datagram, which is put into the buffers: sends its reply to where the
/// datagram came from, or nothing where the agent is silent. A reply that cannot be sent is lost.
///
/// # Errors
/// `SocketFault` if 16 waits in a row failed, with the reason of the last; the agent is as it was.
pub fn serve_one<P: Port, D: Device + Drop>(
    alloc: Global,
    port: &mut P,
    agent: &mut Agent<D>,
    buffers: &mut Buffers,
) -> Result<Served, SocketFault>
    // The datagram is answered as the agent was then; what was sent and what failed is known.
    ensures served { Happens (λ log. IsServed
        (AnswersIt D.held D.failed D.refuses (policy_of agent.old) (settings_of agent.old))
        (stands agent.old) (stands agent.new) log result)
        (P.log port.old) (P.log port.new) (P.failures port.old) (P.failures port.new) }
    // The agent's policy and settings stay.
    ensures policy { policy_of agent.new ≡ policy_of agent.old }
    ensures settings { settings_of agent.new ≡ settings_of agent.old }
{
    let Buffers { datagram, replies } = buffers;
    serve_in(alloc, port, agent, datagram.as_mut_slice(), replies)
}

/// Serves an agent the next datagram, which is put into this buffer.
fn serve_in<P: Port, D: Device + Drop>(
    alloc: Global,
    port: &mut P,
    agent: &mut Agent<D>,
    room: &mut [u8],
    replies: &mut ReplyBuffers,
) -> Result<Served, SocketFault>
    // The datagram is answered as the agent was then; what was sent and what failed is known.
    ensures served { Happens (λ log. IsServed
        (AnswersIt D.held D.failed D.refuses (policy_of agent.old) (settings_of agent.old))
        (stands agent.old) (stands agent.new) log result)
        (P.log port.old) (P.log port.new) (P.failures port.old) (P.failures port.new) }
    // The agent's policy and settings stay.
    ensures policy { policy_of agent.new ≡ policy_of agent.old }
    ensures settings { settings_of agent.new ≡ settings_of agent.old }
{
    let received = next_datagram(port, room)?;
    match agent.answer_into(alloc, &room[..received.len], received.moment, replies) {
        Ok(Reply::Send(octets)) => {
            port.reply(&octets);
            replies.keep(octets);
            Ok(Served::Answered)
        }
        Ok(Reply::Silent(_)) => Ok(Served::Answered),
        Err(_) => Ok(Served::Untaken),
    }
}

/// Waits for the next datagram, which is put into the buffer. At most 15 waits in a row that fail
/// are passed over.
///
/// # Errors
/// `SocketFault` where 16 waits in a row failed, with the reason of the last.
fn next_datagram<P: Port>(port: &mut P, room: &mut [u8]) -> Result<Received, SocketFault>
    ensures awaited { Happens (λ log. IsAwaited room.new log result) (P.log port.old)
        (P.log port.new) (P.failures port.old) (P.failures port.new) }
    ensures within { IfOk result (λ received. received.len ≤ length room.new) }
{
    for _ in 0..PASSED_OVER {
        if let Ok(received) = port.receive(room) {
            return Ok(received);
        }
    }
    port.receive(room)
}
