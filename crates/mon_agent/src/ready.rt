//! What an agent is about to do about a datagram, once all memory for it is taken.

ghost use Rattle.std.specs.Prelude.{◌≡◌, ◌≤◌, [], IfOk, vec_capacity};
ghost use Rattle.mon_agent.specs.Ready.{IsAssigning, ready_of};

use crate::fault::AgentFault;
use crate::reply::Reply;
use mon_mib::SetPlan;
use mon_pdu::Message;
use std::alloc::{AllocError, Global};

/// What an agent is about to do about a datagram. Nothing of it can fail for memory.
#[derive(Drop)]
pub(crate) enum Ready {
    /// To answer so.
    Answer(Reply),
    /// To assign what a Set asks for, and to send its response.
    Assign(Assigning),
}

/// A Set that is about to be assigned.
#[derive(Drop)]
pub(crate) struct Assigning {
    /// What is assigned.
    pub plan: SetPlan,
    /// The response without an error, with the number of its variable bindings as its error index.
    pub response: Message,
    /// The buffer that the response is written to, with capacity for it.
    pub room: Vec<u8>,
}

/// What is ready where an answer is.
pub(crate) fn make_answer(reply: Result<Reply, AllocError>) -> Result<Ready, AgentFault>
    ensures { result ≡ ready_of reply }
{
    match reply {
        Ok(reply) => Ok(Ready::Answer(reply)),
        Err(_) => Err(AgentFault::OutOfMemory),
    }
}

/// What is ready where a Set must be assigned, whose response takes this many octets.
pub(crate) fn make_assigning(
    alloc: Global,
    plan: SetPlan,
    response: Message,
    size: usize,
) -> Result<Ready, AgentFault>
    ensures { IfOk result (IsAssigning plan response size) }
{
    let room = Vec::with_capacity(alloc, size)?;
    Ok(Ready::Assign(Assigning {
        plan,
        response,
        room,
    }))
}
