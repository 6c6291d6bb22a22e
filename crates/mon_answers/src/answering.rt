//! Answering recorded datagrams.

ghost use Rattle.std.specs.Prelude.{◌≡◌, IfOk, OnOk, string_bytes};
ghost use Rattle.hex.specs.Hex.{decode_of};
ghost use Rattle.mon_agent.specs.State.{policy_of, settings_of};
ghost use Rattle.mon_serving.specs.Served.{AnswersIt, stands};
ghost use Rattle.mon_answers.specs.Answered.{ArePrinted, Appends, IsLastReply, IsPrinted, arrives, is_read, lines_read};

use crate::scene::Scene;
use crate::showing::put_reply;
use hex::FromHexError;
use mon_agent::{Agent, AgentFault, Reply};
use mon_mib::{Device, Moment};
use std::alloc::{AllocError, Global};

/// Answers the datagrams of a text, one in hex digits on each line, and returns what is printed for
/// them. Lines that are empty or begin with `#` are skipped. For each datagram the reply to its
/// last arrival is printed, or why there is none; for a line that is not in hex digits `refused
/// BadHex`.
///
/// # Errors
/// Out of memory; the agent has answered some of the datagrams.
pub fn answer_lines<D: Device + Drop>(
    alloc: Global,
    agent: &mut Agent<D>,
    text: &str,
    scene: &Scene<'_, '_>,
) -> Result<String, AllocError>
    // For each line, in order, what is printed is right, and the agent is as they leave it.
    ensures printed { let Answers = AnswersIt D.held D.failed D.refuses (policy_of agent.old)
        (settings_of agent.old) in
        IfOk result (λ printed. ArePrinted Answers scene.now (lines_read text.now) (stands agent.old) (stands agent.new) (string_bytes printed)) }
    // The agent's policy and settings stay.
    ensures policy { policy_of agent.new ≡ policy_of agent.old }
    ensures settings { settings_of agent.new ≡ settings_of agent.old }
{
    let mut printed = String::new(alloc);
    for line in text.lines() {
        if !is_read(line) {
            continue;
        }
        put_line(&mut printed, alloc, agent, line, scene)?;
    }
    Ok(printed)
}

/// Returns `true` if a line is neither empty nor a comment, which begins with `#`.
fn is_read(line: &str) -> bool
    ensures { result ≡ is_read line.now }
{
    !matches!(line.as_bytes(), [] | [b'#', ..])
}

/// Answers the datagram of a line, and appends what is printed for it.
fn put_line<D: Device + Drop>(
    printed: &mut String,
    alloc: Global,
    agent: &mut Agent<D>,
    line: &str,
    scene: &Scene<'_, '_>,
) -> Result<(), AllocError>
    ensures printed { let Answers = AnswersIt D.held D.failed D.refuses (policy_of agent.old)
        (settings_of agent.old) in
        OnOk result (Appends (IsPrinted Answers scene.now (decode_of line.now) (stands agent.old) (stands agent.new))
        (string_bytes printed.old) (string_bytes printed.new)) }
    ensures policy { policy_of agent.new ≡ policy_of agent.old }
    ensures settings { settings_of agent.new ≡ settings_of agent.old }
{
    match hex::decode(alloc, line) {
        Ok(datagram) => {
            let reply = answer_repeated(alloc, agent, datagram.as_slice(), scene)?;
            put_reply(printed, alloc, &reply, scene.labels)
        }
        Err(FromHexError::OutOfMemory) => Err(AllocError),
        Err(_) => printed.push_str("refused BadHex\n"),
    }
}

/// Answers a datagram as many times as it arrives, and returns the last reply.
fn answer_repeated<D: Device + Drop>(
    alloc: Global,
    agent: &mut Agent<D>,
    datagram: &[u8],
    scene: &Scene<'_, '_>,
) -> Result<Reply, AllocError>
    ensures reply { let Answers = AnswersIt D.held D.failed D.refuses (policy_of agent.old)
        (settings_of agent.old) in
        IfOk result (IsLastReply (arrives Answers datagram.now scene.now.at) scene.now.times (stands agent.old) (stands agent.new)) }
    ensures policy { policy_of agent.new ≡ policy_of agent.old }
    ensures settings { settings_of agent.new ≡ settings_of agent.old }
{
    for _ in 1..scene.times {
        answer_once(alloc, agent, datagram, scene.at)?;
    }
    answer_once(alloc, agent, datagram, scene.at)
}

/// Answers a datagram that arrives once.
fn answer_once<D: Device + Drop>(
    alloc: Global,
    agent: &mut Agent<D>,
    datagram: &[u8],
    at: Moment,
) -> Result<Reply, AllocError>
    ensures reply { let Answers = AnswersIt D.held D.failed D.refuses (policy_of agent.old)
        (settings_of agent.old) in
        IfOk result (Answers (stands agent.old) (stands agent.new) datagram.now at) }
    ensures policy { policy_of agent.new ≡ policy_of agent.old }
    ensures settings { settings_of agent.new ≡ settings_of agent.old }
{
    match agent.answer(alloc, datagram, at) {
        Ok(reply) => Ok(reply),
        Err(AgentFault::OutOfMemory) => Err(AllocError),
    }
}
