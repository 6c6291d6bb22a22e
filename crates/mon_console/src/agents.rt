//! The agent that a command asks, and why it gave no answer.

ghost use Rattle.std.specs.Prelude.{◌≡◌, ◌≤◌, IfErr, IfOk, None, Some, codes, length, string_bytes};
ghost use Rattle.mon_console.specs.Agents.{IsUnanswered, status_line};
ghost use Rattle.mon_console.specs.Failure.{IsOfText};
ghost use Rattle.mon_udp.specs.Addr.{addr_of};

use crate::failure::Failure;
use mon_app::AppFault;
use mon_faults::Fault;
use mon_poller::status_name;
use mon_udp::Addr;
use std::alloc::{AllocError, Global};

/// The maximum length of a community, in octets.
const MAX_COMMUNITY: usize = 512;

/// An agent's address, and the word that gives it.
#[derive(Clone, Copy)]
pub struct AgentAt<'a> {
    pub word: &'a str,
    pub address: Addr,
}

/// The agent's address that a word gives. It is never looked up.
pub fn agent_at<'a>(alloc: Global, word: &'a str) -> Result<AgentAt<'a>, Failure>
    ensures word { IfOk result (λ agent. agent.word.now ≡ word.now) }
    ensures address { IfOk result (λ agent. addr_of word.now ≡ Some agent.address) }
    ensures refused { IfErr result (λ _. addr_of word.now ≡ None) }
    ensures fault { IfErr result (IsOfText word.now (codes "an address, a.b.c.d:port,")) }
{
    match Addr::parse(word) {
        Some(address) => Ok(AgentAt { word, address }),
        None => Err(Failure::text(alloc, word, "an address, a.b.c.d:port,")),
    }
}

/// The octets of a community, which has 1 to 512.
pub fn community<'a>(alloc: Global, word: &'a str) -> Result<&'a [u8], Failure>
    ensures octets { IfOk result (λ octets. octets.now ≡ word.now) }
    ensures fits { IfOk result (λ _. (1 ≤ length word.now) × (length word.now ≤ 512)) }
    ensures refused { IfErr result (λ _. ¬ ((1 ≤ length word.now) × (length word.now ≤ 512))) }
    ensures fault { IfErr result
        (IsOfText (codes "COMMUNITY") (codes "a text of 1 to 512 octets")) }
{
    if 1 <= word.len() && word.len() <= MAX_COMMUNITY {
        return Ok(word.as_bytes());
    }
    Err(Failure::text(alloc, "COMMUNITY", "a text of 1 to 512 octets"))
}

/// Why the agent gave no answer that is printed.
pub fn answer_failure(alloc: Global, agent: &str, fault: AppFault) -> Failure
    ensures fault { result.fault ≡ Fault.App fault }
    ensures more { IsUnanswered agent.now fault result }
{
    match fault {
        AppFault::AgentStatus { status, index } => Failure::said(
            Fault::App(fault),
            status_text(alloc, agent, status, index),
        ),
        AppFault::SocketFault { reason } => { Failure::without_socket(alloc, agent, reason) }
        _ => Failure::at(alloc, agent, Fault::App(fault)),
    }
}

/// The error-status of an agent's reply, and the variable binding that it names.
fn status_text(alloc: Global, agent: &str, status: i32, index: i32) -> Result<String, AllocError>
    ensures { IfOk result (λ text. string_bytes text ≡ status_line agent.now status index) }
{
    let name = status_name(status).unwrap_or("an unknown error-status");
    if index == 0 {
        return format!(in alloc; "{agent}: the agent answered {name} ({status})");
    }
    format!(in alloc; "{agent}: the agent answered {name} ({status}) for variable binding {index}")
}
