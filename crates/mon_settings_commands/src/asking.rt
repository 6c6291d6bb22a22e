//! Questions to one agent: its engine, and the cells of its tables of interfaces.

ghost use Rattle.std.specs.Prelude.{◌≡◌, ◌∷◌, ◌++◌, ◌<◌, ◌≤◌, [], IfErr, IfOk, IsTrue, MatchResult, Ok, OnOk, codes, string_bytes};
ghost use Rattle.mon_client.specs.Network.{agents_by};
ghost use Rattle.mon_client.specs.Printed.{bindings_in};
ghost use Rattle.mon_client.specs.declared.question.Asking.TheVariants.{Get};
ghost use Rattle.mon_console.specs.Failure.{IsMemory};
ghost use Rattle.mon_host.specs.AtHost.{Noted};
ghost use Rattle.mon_host.specs.declared.level.Level.TheVariants.{Warning};
ghost use Rattle.mon_host.specs.Log.{GoesOnBy};
ghost use Rattle.mon_survey.specs.Column.{columns};
ghost use Rattle.mon_survey.specs.Plan.{needs};
ghost use Rattle.mon_survey.specs.declared.fault.SurveyFault.TheVariants.{NoEngine};
ghost use Rattle.mon_settings_commands.specs.AgentOptions.{IsAsking, count_line, count_lines};
ghost use Rattle.mon_settings_commands.specs.Engine.{HasEngine, HasNoEngine, IsEngineStill, IsFirstAsked, IsHead, IsHeadIn, IsSameEngine, count_in, first_names, number_in};
ghost use Rattle.mon_settings_commands.specs.Exchange.{AsksBy, IsExchange, IsQuestion, next_id};
ghost use Rattle.mon_settings_commands.specs.Surveyed.{AreWalked, IsSurvey, IsSurveyed, IsUnwired, IsWalkIf};
ghost use Rattle.mon_settings_commands.specs.Walked.{ArePut, IsPut, IsReplyPut, IsTurn, IsUnending, IsWalk, place_of, stand, turned, unending_line, with_cells};

use crate::failing::survey_failure;
use crate::noting::form_of;
use crate::settings::AgentOptions;
use mon_app::AppFault;
use mon_ber::Value;
use mon_client::{Asking, Opens, Question, Repeats, Wire, send_request};
use mon_console::{Failure, Fault, answer_failure};
use mon_host::{Host, Level};
use mon_oid::Oid;
use mon_pdu::{Binding, Bindings, Body, Message};
use mon_survey::{Answers, Column, SurveyFault, columns, engine_of};
use std::alloc::{AllocError, Global};
use std::{mem, slice};

/// How many rounds a GetBulk asks for.
const REPETITIONS: i32 = 32;

/// How many variables a walk takes of a column at most.
const MAX_CELLS: u32 = 65_536;

/// snmpEngineID.0 (RFC 3411 section 5).
const ENGINE_ID: [u32; 11] = [1, 3, 6, 1, 6, 3, 10, 2, 1, 1, 0];

/// snmpEngineBoots.0 (RFC 3411 section 5).
const ENGINE_BOOTS: [u32; 11] = [1, 3, 6, 1, 6, 3, 10, 2, 1, 2, 0];

/// snmpEngineTime.0 (RFC 3411 section 5).
const ENGINE_TIME: [u32; 11] = [1, 3, 6, 1, 6, 3, 10, 2, 1, 3, 0];

/// ifNumber.0 (RFC 2863 section 6).
const IF_NUMBER: [u32; 9] = [1, 3, 6, 1, 2, 1, 2, 1, 0];

/// The highest request-id.
const MAX_ID: u32 = 0x7fff_ffff;

/// What the agent answered.
#[derive(Drop)]
pub(crate) struct Survey {
    pub(crate) engine: Vec<u8>,
    /// The agent's ifNumber, where it has one.
    pub(crate) number: Option<u32>,
    pub(crate) answers: Answers,
}

/// Asks the agent for its engine and its interfaces. Where its ifNumber is another number than that
/// of ifTable's interfaces, a line on standard error says so.
pub(crate) fn ask_agent<N: Opens, H: Host>(
    alloc: Global,
    host: &mut H,
    net: &N,
    asked: AgentOptions<'_>,
) -> Result<Survey, Failure>
    ensures { GoesOnBy (λ log. IsAsking (agents_by (N.has_opened net.now) (N.has_failed net.now)
        N.Wire.log)
        asked.entry log result) (H.log host.old) (H.log host.new) }
{
    let survey = survey_at(alloc, net, asked)?;
    let count = survey.answers.count();
    tell_count(host, asked.agent.word, survey.number, count);
    Ok(survey)
}

/// Says that ifNumber is another number than that of ifTable's interfaces, where it is.
fn tell_count<H: Host>(host: &mut H, agent: &str, number: Option<u32>, count: usize)
    ensures { GoesOnBy (λ log. log ≡ count_lines agent.now number count)
        (H.log host.old) (H.log host.new) }
{
    match number {
        Some(number) if number as usize != count => note_count(host, agent, number, count),
        _ => {}
    }
}

/// Says that ifNumber is another number than that of ifTable's interfaces.
fn note_count<H: Host>(host: &mut H, agent: &str, number: u32, count: usize)
    ensures { GoesOnBy (λ log. log ≡ Noted Warning (count_line agent.now number count) ∷ [])
        (H.log host.old) (H.log host.new) }
{
    let interfaces = form_of(count, " interface", " interfaces");
    host.note(
        Level::Warning,
        format_args!("{agent}: ifNumber is {number}, and ifTable has {count}{interfaces}\n"),
    );
}

/// Asks the agent for its engine and its interfaces, by a wire of its own.
fn survey_at<N: Opens>(alloc: Global, net: &N, asked: AgentOptions<'_>) -> Result<Survey, Failure>
    ensures { IsSurveyed (agents_by (N.has_opened net.now) (N.has_failed net.now) N.Wire.log)
        asked.entry result }
{
    let mut asker = open(alloc, net, asked)?;
    survey_by(alloc, &mut asker, asked)
}

/// Asks an agent question after question.
#[derive(Drop)]
pub(crate) struct Asker<W> {
    wire: W,
    /// The request-id of the last question, 0 before the first.
    last_id: u32,
}

/// Opens a wire to ask the agent by.
pub(crate) fn open<N: Opens>(
    alloc: Global,
    net: &N,
    asked: AgentOptions<'_>,
) -> Result<Asker<N::Wire>, Failure>
    ensures first { IfOk result (λ asker. asker.last_id ≡ 0) }
    ensures opened { IfOk result (λ asker. N.has_opened net.now asked.entry.agent.address
        asker.wire) }
    ensures refused { IfErr result (IsUnwired (agents_by (N.has_opened net.now)
        (N.has_failed net.now) N.Wire.log) asked.entry.agent) }
{
    match net.open(asked.agent.address) {
        Ok(wire) => Ok(Asker { wire, last_id: 0 }),
        Err(fault) => Err(answer_failure(alloc, asked.agent.word, fault)),
    }
}

/// Returns the request-id after this one; 0 follows the highest.
fn next_id(id: u32) -> u32
    ensures next { result ≡ next_id id }
    ensures small { result ≤ 0x7fff_ffff }
{
    if id < MAX_ID { id + 1 } else { 0 }
}

/// Asks once, and returns the variable bindings of the reply.
///
/// # Errors
/// Those of `send_request`; `AgentStatus` if the reply has an error status.
pub(crate) fn exchange<W: Wire>(
    alloc: Global,
    asker: &mut Asker<W>,
    community: &[u8],
    asking: Asking<'_>,
    names: &[Oid],
) -> Result<Bindings, AppFault>
    ensures { AsksBy (λ log. IsExchange asking.entry names.now log result)
        community.now asker.old.last_id asker.new.last_id
        (W.log asker.old.wire) (W.log asker.new.wire) }
{
    let id = next_id(asker.last_id);
    asker.last_id = id;
    let question = Question {
        asking,
        request_id: id as i32,
        community,
        names,
    };
    match send_request(alloc, &mut asker.wire, &question) {
        Ok(message) => bindings_in(message),
        Err(fault) => Err(fault),
    }
}

/// Asks, and returns the variable bindings of the reply.
fn ask<W: Wire>(
    alloc: Global,
    asker: &mut Asker<W>,
    asked: AgentOptions<'_>,
    asking: Asking<'_>,
    names: &[Oid],
) -> Result<Vec<Binding>, Failure>
    ensures { AsksBy (λ log. IsQuestion asked.entry.agent.word.now asking.entry names.now log
        result)
        asked.entry.community.now asker.old.last_id asker.new.last_id
        (W.log asker.old.wire) (W.log asker.new.wire) }
{
    match exchange(alloc, asker, asked.community, asking, names) {
        Ok(bindings) => Ok(bindings.into_vec()),
        Err(fault) => Err(answer_failure(alloc, asked.agent.word, fault)),
    }
}

/// The variable bindings of a reply; `AgentStatus` where it has an error status.
fn bindings_in(message: Message) -> Result<Bindings, AppFault>
    ensures { result ≡ bindings_in message.body }
{
    let Message { body, .. } = message;
    match body {
        Body::Pdu(pdu) if pdu.error_status != 0 => Err(AppFault::AgentStatus {
            status: pdu.error_status,
            index: pdu.error_index,
        }),
        Body::Pdu(pdu) => Ok(pdu.bindings),
        Body::Bulk(bulk) => Ok(bulk.bindings),
    }
}

/// Returns what the agent answers.
fn survey_by<W: Wire>(
    alloc: Global,
    asker: &mut Asker<W>,
    asked: AgentOptions<'_>,
) -> Result<Survey, Failure>
    ensures { AsksBy (λ log. IsSurvey asked.entry.agent.word.now asked.entry.kinds log result)
        asked.entry.community.now asker.old.last_id asker.new.last_id
        (W.log asker.old.wire) (W.log asker.new.wire) }
{
    let Head { engine, number } = first(alloc, asker, asked)?;
    let mut answers = Answers::new(alloc);
    walk_columns(alloc, asker, asked, &mut answers)?;
    require_engine(alloc, asker, asked, engine.as_slice())?;
    Ok(Survey {
        engine,
        number,
        answers,
    })
}

/// What the agent answers first: its engine id, and its ifNumber where it has one.
#[derive(Drop)]
struct Head {
    engine: Vec<u8>,
    number: Option<u32>,
}

/// Returns the agent's engine id and its ifNumber.
fn first<W: Wire>(
    alloc: Global,
    asker: &mut Asker<W>,
    asked: AgentOptions<'_>,
) -> Result<Head, Failure>
    ensures { AsksBy (λ log. IsHead asked.entry.agent.word.now log result)
        asked.entry.community.now asker.old.last_id asker.new.last_id
        (W.log asker.old.wire) (W.log asker.new.wire) }
{
    let bindings = ask_first(alloc, asker, asked)?;
    head_in(alloc, asked.agent.word, &bindings)
}

/// Asks for the engine group again. `EngineChanged` if the agent has another engine id than this
/// one, with which the walk started.
fn require_engine<W: Wire>(
    alloc: Global,
    asker: &mut Asker<W>,
    asked: AgentOptions<'_>,
    engine: &[u8],
) -> Result<(), Failure>
    ensures { AsksBy (λ log. IsSameEngine asked.entry.agent.word.now engine.now log result)
        asked.entry.community.now asker.old.last_id asker.new.last_id
        (W.log asker.old.wire) (W.log asker.new.wire) }
{
    let bindings = ask_first(alloc, asker, asked)?;
    still_engine(alloc, asked.agent.word, engine, &bindings)
}

/// Asks for the engine group and ifNumber.
fn ask_first<W: Wire>(
    alloc: Global,
    asker: &mut Asker<W>,
    asked: AgentOptions<'_>,
) -> Result<Vec<Binding>, Failure>
    ensures { AsksBy (λ log. IsFirstAsked asked.entry.agent.word.now log result)
        asked.entry.community.now asker.old.last_id asker.new.last_id
        (W.log asker.old.wire) (W.log asker.new.wire) }
{
    let names = first_names(alloc)?;
    ask(alloc, asker, asked, Asking::Get, &names)
}

/// Returns the engine id and the ifNumber in the answers.
fn head_in(alloc: Global, agent: &str, bindings: &[Binding]) -> Result<Head, Failure>
    ensures { IsHeadIn bindings.now result }
{
    match engine_in(bindings) {
        Ok(engine) => Ok(Head {
            engine: Vec::from_slice(alloc, engine)?,
            number: number_in(bindings),
        }),
        Err(fault) => Err(survey_failure(alloc, agent, fault)),
    }
}

/// Requires that the engine id in the answers is this one.
fn still_engine(
    alloc: Global,
    agent: &str,
    engine: &[u8],
    bindings: &[Binding],
) -> Result<(), Failure>
    ensures { IsEngineStill engine.now bindings.now result }
{
    match engine_in(bindings) {
        Ok(now) if now == engine => Ok(()),
        Ok(_) => Err(survey_failure(alloc, agent, SurveyFault::EngineChanged)),
        Err(fault) => Err(survey_failure(alloc, agent, fault)),
    }
}

/// Takes what the agent answers of its interfaces: the cells of the columns that are needed.
fn walk_columns<W: Wire>(
    alloc: Global,
    asker: &mut Asker<W>,
    asked: AgentOptions<'_>,
    answers: &mut Answers,
) -> Result<(), Failure>
    ensures { AsksBy (λ log. AreWalked asked.entry.agent.word.now asked.entry.kinds columns
        answers.old log (with_cells answers.new result))
        asked.entry.community.now asker.old.last_id asker.new.last_id
        (W.log asker.old.wire) (W.log asker.new.wire) }
{
    let columns = columns();
    for column in columns.as_slice() {
        walk_if_needed(alloc, asker, asked, *column, answers)?;
    }
    Ok(())
}

/// Takes the cells of a column, if it is needed.
fn walk_if_needed<W: Wire>(
    alloc: Global,
    asker: &mut Asker<W>,
    asked: AgentOptions<'_>,
    column: Column,
    answers: &mut Answers,
) -> Result<(), Failure>
    ensures { AsksBy (λ log. IsWalkIf (needs asked.entry.kinds column) asked.entry.agent.word.now
        column answers.old log (with_cells answers.new result))
        asked.entry.community.now asker.old.last_id asker.new.last_id
        (W.log asker.old.wire) (W.log asker.new.wire) }
{
    if asked.kinds.needs(column) {
        walk(alloc, asker, asked, column, answers)
    } else {
        Ok(())
    }
}

/// Takes the cells of a column.
fn walk<W: Wire>(
    alloc: Global,
    asker: &mut Asker<W>,
    asked: AgentOptions<'_>,
    column: Column,
    answers: &mut Answers,
) -> Result<(), Failure>
    ensures { AsksBy (λ log. IsWalk asked.entry.agent.word.now column answers.old log
        (with_cells answers.new result))
        asked.entry.community.now asker.old.last_id asker.new.last_id
        (W.log asker.old.wire) (W.log asker.new.wire) }
{
    let mut place = Place::at(alloc, column)?;
    // Each step takes a variable at least, so there are no more steps than variables.
    for _ in 0..MAX_CELLS {
        if !step(alloc, asker, asked, &mut place, answers)? {
            return Ok(());
        }
    }
    Err(unending(alloc, asked.agent.word, &place.start))
}

/// Asks for the cells after the last one and takes them. Returns `false` at the end of the column.
fn step<W: Wire>(
    alloc: Global,
    asker: &mut Asker<W>,
    asked: AgentOptions<'_>,
    place: &mut Place,
    answers: &mut Answers,
) -> Result<bool, Failure>
    ensures { AsksBy (λ log. IsTurn asked.entry.agent.word.now (stand place.old answers.old) log
        (turned (stand place.new answers.new) result))
        asked.entry.community.now asker.old.last_id asker.new.last_id
        (W.log asker.old.wire) (W.log asker.new.wire) }
{
    let asking = Asking::GetBulk(Repeats {
        non_repeaters: 0,
        max_repetitions: REPETITIONS,
    });
    let mut bindings = ask(alloc, asker, asked, asking, slice::from_ref(&place.last))?;
    take(alloc, asked.agent.word, place, &mut bindings, answers)
}

/// Takes the cells of a reply. Returns `false` at the end of the column.
fn take(
    alloc: Global,
    agent: &str,
    place: &mut Place,
    bindings: &mut [Binding],
    answers: &mut Answers,
) -> Result<bool, Failure>
    ensures { IsReplyPut agent.now (stand place.old answers.old) bindings.old
        (turned (stand place.new answers.new) result) }
{
    if bindings.is_empty() {
        return Err(answer_failure(alloc, agent, AppFault::NotIncreasing));
    }
    take_all(alloc, agent, place, bindings, answers)
}

/// Takes cells. Returns `false` at the end of the column.
fn take_all(
    alloc: Global,
    agent: &str,
    place: &mut Place,
    bindings: &mut [Binding],
    answers: &mut Answers,
) -> Result<bool, Failure>
    ensures { ArePut agent.now (stand place.old answers.old) bindings.old
        (turned (stand place.new answers.new) result) }
{
    for binding in bindings.iter_mut() {
        if !put(alloc, agent, place, binding, answers)? {
            return Ok(false);
        }
    }
    Ok(true)
}

/// Takes a cell, which becomes the last one. Returns `false` if it is past the column.
///
/// # Errors
/// That of a walk without an end, if there were as many as a walk takes at most.
fn put(
    alloc: Global,
    agent: &str,
    place: &mut Place,
    binding: &mut Binding,
    answers: &mut Answers,
) -> Result<bool, Failure>
    ensures { IsPut agent.now (stand place.old answers.old) binding.old
        (turned (stand place.new answers.new) result) }
{
    if matches!(binding.value, Value::EndOfMibView) || !place.start.is_prefix_of(&binding.name) {
        return Ok(false);
    }
    if !place.last.compare(&binding.name).is_lt() {
        return Err(answer_failure(alloc, agent, AppFault::NotIncreasing));
    }
    if place.taken >= MAX_CELLS {
        return Err(unending(alloc, agent, &place.start));
    }
    place.taken += 1;
    let value = mem::replace(&mut binding.value, Value::Null);
    match answers.take(&binding.name, value) {
        Ok(()) => {
            mem::swap(&mut place.last, &mut binding.name);
            Ok(true)
        }
        Err(fault) => Err(survey_failure(alloc, agent, fault)),
    }
}

/// A walk that found no end: the failure names the column that it was in.
fn unending(alloc: Global, agent: &str, column: &Oid) -> Failure
    ensures { IsUnending agent.now column.now result }
{
    Failure::said(
        Fault::App(AppFault::Timeout),
        unending_text(alloc, agent, column),
    )
}

/// Returns what is said of a column that has no end.
fn unending_text(alloc: Global, agent: &str, column: &Oid) -> Result<String, AllocError>
    ensures { IfOk result (λ text. string_bytes text ≡ unending_line agent.now column.now) }
{
    let name = column.text(alloc)?;
    format!(in alloc; "{agent}: no end of {name} after {MAX_CELLS} variables")
}

/// Where a walk is in its column.
#[derive(Drop)]
struct Place {
    /// The name under which the cells are.
    start: Oid,
    /// The name of the last cell that was taken, or the start.
    last: Oid,
    /// How many cells were taken.
    taken: u32,
}

impl Place {
    /// Returns the start of a column.
    fn at(alloc: Global, column: Column) -> Result<Self, Failure>
        ensures place { IfOk result (λ place. place ≡ place_of column) }
        ensures refused { IfErr result IsMemory }
    {
        let Ok(start) = column.name(alloc) else {
            return Err(Failure::from(AppFault::OutOfMemory));
        };
        let last = start.try_clone(alloc)?;
        Ok(Place {
            start,
            last,
            taken: 0,
        })
    }
}

/// The engine id in the answers to the three names of the group, which come first.
fn engine_in(bindings: &[Binding]) -> Result<&[u8], SurveyFault>
    ensures { MatchResult result (λ engine. HasEngine bindings.now engine.now)
        (λ fault. (fault ≡ NoEngine) × HasNoEngine bindings.now) }
{
    let [id, boots, time, _number] = bindings else {
        return Err(SurveyFault::NoEngine);
    };
    engine_of(&id.value, &boots.value, &time.value)
}

/// The ifNumber in the answers, which comes after the group.
fn number_in(bindings: &[Binding]) -> Option<u32>
    ensures { result ≡ number_in bindings.now }
{
    let [_id, _boots, _time, number] = bindings else {
        return None;
    };
    count_in(&number.value)
}

/// Returns the number of an integer from 0 on.
fn count_in(value: &Value) -> Option<u32>
    ensures { result ≡ count_in value.now }
{
    match value {
        Value::Integer(count) => u32::try_from(*count).ok(),
        _ => None,
    }
}

/// The names that are asked for first: those of the snmpEngine group, and ifNumber.
fn first_names(alloc: Global) -> Result<Vec<Oid>, Failure>
    ensures names { IfOk result (λ names. names.items ≡ first_names) }
    ensures refused { IfErr result IsMemory }
{
    let mut names = Vec::new(alloc);
    add_name(alloc, &mut names, ENGINE_ID.as_slice())?;
    add_name(alloc, &mut names, ENGINE_BOOTS.as_slice())?;
    add_name(alloc, &mut names, ENGINE_TIME.as_slice())?;
    add_name(alloc, &mut names, IF_NUMBER.as_slice())?;
    Ok(names)
}

/// Adds the name of these numbers.
fn add_name(alloc: Global, names: &mut Vec<Oid>, parts: &[u32]) -> Result<(), Failure>
    ensures added { OnOk result (names.new.items ≡ names.old.items ++ parts.now ∷ []) }
    ensures refused { IfErr result IsMemory }
{
    match Oid::from_parts(alloc, parts) {
        Ok(name) => Ok(names.push(name)?),
        Err(_) => Err(Failure::from(AppFault::OutOfMemory)),
    }
}
