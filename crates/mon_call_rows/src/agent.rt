//! An agent's answer to a Set where memory is refused once, and the numbers of what it answers.

use crate::rows::put_between;
use crate::small_agent::agent;
use mon_agent::{Agent, AgentFault, Reply, Silence};
use mon_mib::{Counter, Device, Moment, SimDevice, SysText};
use mon_row_texts::{first_word, octets, put_digits, put_fault};
use std::alloc::Global;

/// Appends the answer to a line, without its first word.
pub(crate) fn answer(alloc: Global, text: &mut String, line: &str) -> Option<()> {
    let (word, rest) = first_word(line);
    match word {
        "set" => assigned(alloc, text, rest),
        "silences" => silences(text),
        "faults" => {
            let why = AgentFault::OutOfMemory;
            put_fault(text, why.number(), why.name())
        }
        _ => None,
    }
}

/// Says what an agent of the settings replies to a Set: whether it had counted nothing when memory
/// ran out, what it sends, in hex digits, how many messages it has counted, and its name.
fn assigned(alloc: Global, text: &mut String, set: &str) -> Option<()> {
    let set = octets(alloc, set)?;
    let mut agent = agent(alloc)?;
    let (reply, same) = answer_again(alloc, &mut agent, set.as_slice())?;
    write!(text, "{same} ").ok()?;
    if let Reply::Send(octets) = &reply {
        put_digits(text, octets.as_slice())?;
    }
    let messages = agent.counters().value(Counter::InPackets);
    write!(text, " {messages} ").ok()?;
    put_digits(text, agent.device().sys_text(SysText::SystemName))
}

/// Returns what an agent answers to a datagram, which comes again if memory ran out the first time;
/// and whether the agent had counted nothing then.
fn answer_again(
    alloc: Global,
    agent: &mut Agent<SimDevice>,
    datagram: &[u8],
) -> Option<(Reply, bool)> {
    let before = agent.counters();
    let at = Moment::new(0)?;
    if let Ok(reply) = answer_once(alloc, agent, datagram, at) {
        return Some((reply, true));
    }
    let same = agent.counters() == before;
    Some((answer_once(alloc, agent, datagram, at).ok()?, same))
}

/// Calls the agent, without the clauses of its answer.
fn answer_once(
    alloc: Global,
    agent: &mut Agent<SimDevice>,
    datagram: &[u8],
    at: Moment,
) -> Result<Reply, AgentFault> {
    agent.answer(alloc, datagram, at)
}

/// Lists the causes of silence.
fn silences(text: &mut String) -> Option<()> {
    let causes = [
        Silence::BadMessage,
        Silence::BadVersion,
        Silence::BadCommunity,
        Silence::NotARequest,
        Silence::TooBigTwice,
    ];
    for cause in causes {
        put_between(text, ", ")?;
        put_fault(text, cause.number(), cause.name())?;
    }
    Some(())
}
