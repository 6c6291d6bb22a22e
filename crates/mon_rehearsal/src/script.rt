//! Scripts: one step a line.

ghost use Rattle.std.specs.Prelude.{◌≡◌, ◌<◌, ◌∷◌, IfOk, IfErr, length};
ghost use Rattle.mon_rehearsal.specs.Reading.{agent_in, fields_in, forge_in, pair_in, short_in, step_in, stop_in};
ghost use Rattle.mon_rehearsal.specs.Script.{AreSteps, Says, lines_of};
ghost use Rattle.mon_rehearsal.specs.ScriptFault.{IsFaultOfScript};

use crate::fault::ScriptFault;
use crate::field::{cut, is, number, numbers, octets};
use mon_ber::Octets;
use mon_world::Step;
use std::alloc::{AllocError, Global};

/// What a line of a script says. Stations and targets count from 1, and so do the datagrams between
/// stations.
#[derive(Drop)]
pub enum ScriptStep {
    /// `poll S T`: a station starts a poll of a target.
    StartPoll(u32, u32),
    /// `agent S T HEX`: these octets come to a station from a target.
    AgentSays(u32, u32, Octets),
    /// `timeout S ID`: a station's poll of this request-id was not answered in time.
    Timeout(u32, u32),
    /// `share S P`: a station offers a peer what it is owed.
    Share(u32, u32),
    /// `deliver D`: a datagram comes to the station that it was sent to.
    Deliver(u32),
    /// `save S`: a station saves.
    Save(u32),
    /// `restart S`: a station is opened again from its disk.
    Restart(u32),
    /// `forge S HEX`: these octets come to a station as if from a peer.
    Forge(u32, Octets),
    /// `stop S K keep` or `stop S K lose`: a station stops within a save after K calls of the disk,
    /// and is opened again from what a crash left: with all that was written since the last sync,
    /// or without it.
    Stop(u32, u32, bool),
}

impl ScriptStep {
    ghost use Rattle.mon_rehearsal.specs.Rehearsed.{IsStepOf};

    /// The step that a world makes. A stop after more than 255 calls is one after 255, which every
    /// world refuses too.
    pub fn step(&self) -> Step<'_>
        ensures { IsStepOf self.now result }
    {
        match self {
            ScriptStep::StartPoll(s, target) => Step::StartPoll(*s, *target),
            ScriptStep::AgentSays(s, target, octets) => {
                Step::AgentSays(*s, *target, octets.as_slice())
            }
            ScriptStep::Timeout(s, id) => Step::Timeout(*s, *id),
            ScriptStep::Share(s, peer) => Step::Share(*s, *peer),
            ScriptStep::Deliver(number) => Step::Deliver(u64::from(*number)),
            ScriptStep::Save(s) => Step::Save(*s),
            ScriptStep::Restart(s) => Step::Restart(*s),
            ScriptStep::Forge(s, octets) => Step::Forge(*s, octets.as_slice()),
            ScriptStep::Stop(s, calls, keep) => Step::Stop(*s, (*calls).min(255) as u8, *keep),
        }
    }
}

/// Reads the steps of a script, one a line. LF ends a line; after the last one it may be missing.
/// One blank separates fields. Numbers are decimal, without leading zeros, up to 4294967295; octets
/// are hex digits in either case, at least one octet.
///
/// # Errors
/// `BadScript` with the number of the first line that says no step, as an empty one; `OutOfMemory`.
pub fn read_script(alloc: Global, text: &[u8]) -> Result<Vec<ScriptStep>, ScriptFault>
    ensures steps { IfOk result (λ steps. AreSteps Says (lines_of text.now) steps.items) }
    ensures fault { IfErr result (IsFaultOfScript Says (lines_of text.now)) }
{
    let mut steps = Vec::new(alloc);
    let mut rest = text;
    let mut line = 0;
    while !rest.is_empty() {
        let (first, after) = first_line(rest);
        rest = after;
        line += 1;
        match read_line(alloc, first)? {
            Some(step) => steps.push(step)?,
            None => return Err(ScriptFault::BadScript(line)),
        }
    }
    Ok(steps)
}

/// Returns the first line of a text, without the LF that ends it, and what follows that.
fn first_line(text: &[u8]) -> (&[u8], &[u8])
    ensures lines { 0 < length text.now → lines_of text.now ≡ result.0.now ∷ lines_of result.1.now }
    ensures shorter { 0 < length text.now → length result.1.now < length text.now }
{
    match cut(text, b'\n') {
        Some((line, after)) => (line, after),
        None => (text, &[]),
    }
}

/// What a line says.
#[tactic(auto, unfolding(crate::specs::Reading::step_in))]
fn read_line(alloc: Global, line: &[u8]) -> Result<Option<ScriptStep>, AllocError>
    ensures { IfOk result (λ step. step ≡ step_in line.now) }
{
    match cut(line, b' ') {
        Some((verb, fields)) => read_step(alloc, verb, fields),
        None => Ok(None),
    }
}

/// What a verb and its fields say.
#[tactic(auto, unfolding(crate::specs::Reading::fields_in))]
fn read_step(alloc: Global, verb: &[u8], fields: &[u8]) -> Result<Option<ScriptStep>, AllocError>
    ensures { IfOk result (λ step. step ≡ fields_in verb.now fields.now) }
{
    if is(verb, "agent") {
        return read_agent(alloc, fields);
    }
    if is(verb, "forge") {
        return read_forge(alloc, fields);
    }
    if is(verb, "stop") {
        return Ok(read_stop(fields));
    }
    if is(verb, "deliver") || is(verb, "save") || is(verb, "restart") {
        return Ok(read_short(verb, fields));
    }
    Ok(read_pair(verb, fields))
}

/// What a verb of one number says: `deliver`, `save` or `restart`.
#[tactic(auto, unfolding(crate::specs::Reading::short_in))]
fn read_short(verb: &[u8], fields: &[u8]) -> Option<ScriptStep>
    ensures { result ≡ short_in verb.now fields.now }
{
    let Some(number) = number(fields) else {
        return None;
    };
    if is(verb, "deliver") {
        return Some(ScriptStep::Deliver(number));
    }
    if is(verb, "save") {
        return Some(ScriptStep::Save(number));
    }
    if is(verb, "restart") {
        return Some(ScriptStep::Restart(number));
    }
    None
}

/// What a verb of two numbers says: `poll`, `timeout` or `share`.
#[tactic(auto, unfolding(crate::specs::Reading::pair_in))]
fn read_pair(verb: &[u8], fields: &[u8]) -> Option<ScriptStep>
    ensures { result ≡ pair_in verb.now fields.now }
{
    let Some((first, second)) = numbers(fields) else {
        return None;
    };
    if is(verb, "poll") {
        return Some(ScriptStep::StartPoll(first, second));
    }
    if is(verb, "timeout") {
        return Some(ScriptStep::Timeout(first, second));
    }
    if is(verb, "share") {
        return Some(ScriptStep::Share(first, second));
    }
    None
}

/// The fields of `agent`: a station, a target and octets.
#[tactic(auto, unfolding(crate::specs::Reading::agent_in))]
fn read_agent(alloc: Global, fields: &[u8]) -> Result<Option<ScriptStep>, AllocError>
    ensures { IfOk result (λ step. step ≡ agent_in fields.now) }
{
    let Some((station, fields)) = cut(fields, b' ') else {
        return Ok(None);
    };
    let Some((target, digits)) = cut(fields, b' ') else {
        return Ok(None);
    };
    let Some(station) = number(station) else {
        return Ok(None);
    };
    let Some(target) = number(target) else {
        return Ok(None);
    };
    match octets(alloc, digits)? {
        Some(octets) => Ok(Some(ScriptStep::AgentSays(station, target, octets))),
        None => Ok(None),
    }
}

/// The fields of `forge`: a station and octets.
#[tactic(auto, unfolding(crate::specs::Reading::forge_in))]
fn read_forge(alloc: Global, fields: &[u8]) -> Result<Option<ScriptStep>, AllocError>
    ensures { IfOk result (λ step. step ≡ forge_in fields.now) }
{
    let Some((station, digits)) = cut(fields, b' ') else {
        return Ok(None);
    };
    let Some(station) = number(station) else {
        return Ok(None);
    };
    match octets(alloc, digits)? {
        Some(octets) => Ok(Some(ScriptStep::Forge(station, octets))),
        None => Ok(None),
    }
}

/// The fields of `stop`: a station, a number of calls, and `keep` or `lose`.
#[tactic(auto, unfolding(crate::specs::Reading::stop_in))]
fn read_stop(fields: &[u8]) -> Option<ScriptStep>
    ensures { result ≡ stop_in fields.now }
{
    let Some((station, fields)) = cut(fields, b' ') else {
        return None;
    };
    let Some((calls, end)) = cut(fields, b' ') else {
        return None;
    };
    let Some(station) = number(station) else {
        return None;
    };
    let Some(calls) = number(calls) else {
        return None;
    };
    if is(end, "keep") {
        return Some(ScriptStep::Stop(station, calls, true));
    }
    if is(end, "lose") {
        return Some(ScriptStep::Stop(station, calls, false));
    }
    None
}
