//! The client commands: `get`, `next`, `bulk` and `set`.

ghost use Rattle.mon_client.specs.Network.{agents_by};
ghost use Rattle.mon_client.specs.Question.{asked_in};
ghost use Rattle.mon_host.specs.Log.{GoesOnBy};
ghost use Rattle.mon_commands.specs.Client.{IsAnswerText, IsAnswered, IsAnsweredAs, IsAsking, IsAskingMany, IsGetting, IsGettingNext, IsSetting, PrintsAnswer};

use crate::query::{Query, query_of, read_value};
use mon_app::AppFault;
use mon_cli::{BulkArgs, Request, SetArgs};
use mon_client::{Asking, Opens, Question, Repeats, answer_text};
use mon_console::{Failure, answer_failure, print};
use mon_host::Host;
use mon_smi::{InNumbers, NameTexts};
use mon_udp::Addr;
use std::alloc::Global;

/// Prints variables of an agent.
pub fn get<N: Opens, H: Host>(
    alloc: Global,
    host: &mut H,
    net: &N,
    request: Request<'_, '_>,
) -> Result<(), Failure>
    ensures { GoesOnBy (λ log. IsGetting (agents_by (N.has_opened net.now) (N.has_failed net.now)
        N.Wire.log)
        request.entry log result)
        (H.log host.old) (H.log host.new) }
{
    ask(alloc, host, net, request, Asking::Get)
}

/// Prints the variables after some names.
pub fn next<N: Opens, H: Host>(
    alloc: Global,
    host: &mut H,
    net: &N,
    request: Request<'_, '_>,
) -> Result<(), Failure>
    ensures { GoesOnBy (λ log. IsGettingNext (agents_by (N.has_opened net.now)
        (N.has_failed net.now) N.Wire.log)
        request.entry log result)
        (H.log host.old) (H.log host.new) }
{
    ask(alloc, host, net, request, Asking::GetNext)
}

/// Prints many variables after some names.
pub fn bulk<N: Opens, H: Host>(
    alloc: Global,
    host: &mut H,
    net: &N,
    words: BulkArgs<'_, '_>,
) -> Result<(), Failure>
    ensures { GoesOnBy (λ log. IsAskingMany (agents_by (N.has_opened net.now) (N.has_failed net.now)
        N.Wire.log)
        words.entry log result)
        (H.log host.old) (H.log host.new) }
{
    let repeats = Repeats {
        non_repeaters: words.non_repeaters,
        max_repetitions: words.max_repetitions,
    };
    ask(alloc, host, net, words.request, Asking::GetBulk(repeats))
}

/// Has the agent assign a value to the variable that is asked about, and prints its answer.
pub fn set<N: Opens, H: Host>(
    alloc: Global,
    host: &mut H,
    net: &N,
    words: SetArgs<'_, '_>,
) -> Result<(), Failure>
    ensures { GoesOnBy (λ log. IsSetting (agents_by (N.has_opened net.now) (N.has_failed net.now)
        N.Wire.log)
        words.entry log result) (H.log host.old) (H.log host.new) }
{
    let query = query_of(alloc, host, words.request)?;
    let value = read_value(alloc, words.kind, words.value)?;
    print_answer(alloc, host, net, &query, Asking::Set(&value))
}

/// Asks the agent that the arguments name, and prints its answer.
fn ask<N: Opens, H: Host>(
    alloc: Global,
    host: &mut H,
    net: &N,
    request: Request<'_, '_>,
    asking: Asking<'_>,
) -> Result<(), Failure>
    ensures { GoesOnBy (λ log. IsAsking (agents_by (N.has_opened net.now) (N.has_failed net.now)
        N.Wire.log)
        request.entry asking.entry log result)
        (H.log host.old) (H.log host.new) }
{
    let query = query_of(alloc, host, request)?;
    print_answer(alloc, host, net, &query, asking)
}

/// Asks the agent, and prints its answer.
fn print_answer<'a, N: Opens, H: Host>(
    alloc: Global,
    host: &mut H,
    net: &N,
    query: &'a Query<'a>,
    asking: Asking<'a>,
) -> Result<(), Failure>
    ensures { GoesOnBy (λ log. PrintsAnswer (agents_by (N.has_opened net.now) (N.has_failed net.now)
        N.Wire.log)
        query.now asking.entry log result)
        (H.log host.old) (H.log host.new) }
{
    let text = answer(alloc, net, query, asking)?;
    print(alloc, host, text.as_bytes())
}

/// Asks the agent, and returns its answer as text.
fn answer<'a, N: Opens>(
    alloc: Global,
    net: &N,
    query: &'a Query<'a>,
    asking: Asking<'a>,
) -> Result<String, Failure>
    ensures { IsAnswered (agents_by (N.has_opened net.now) (N.has_failed net.now) N.Wire.log)
        query.now asking.entry result }
{
    if query.prints_names {
        answer_shown(alloc, net, query, asking, &query.known.labels(alloc)?)
    } else {
        answer_shown(alloc, net, query, asking, &InNumbers)
    }
}

/// Asks the agent, and returns its answer as text, names in this way.
fn answer_shown<'a, N: Opens, S: NameTexts>(
    alloc: Global,
    net: &N,
    query: &'a Query<'a>,
    asking: Asking<'a>,
    names: &S,
) -> Result<String, Failure>
    ensures { IsAnsweredAs (agents_by (N.has_opened net.now) (N.has_failed net.now) N.Wire.log)
        (S.shown names.now) query.now asking.entry result }
{
    let question = Question {
        asking,
        request_id: 1,
        community: query.community,
        names: query.asked.as_slice(),
    };
    match answer_query(alloc, net, query.agent.address, &question, names) {
        Ok(text) => Ok(text),
        Err(fault) => Err(answer_failure(alloc, query.agent.word, fault)),
    }
}

/// What an agent answers to a question.
fn answer_query<N: Opens, S: NameTexts>(
    alloc: Global,
    net: &N,
    agent: Addr,
    question: &Question<'_>,
    names: &S,
) -> Result<String, AppFault>
    ensures { IsAnswerText (agents_by (N.has_opened net.now) (N.has_failed net.now) N.Wire.log)
        agent (S.shown names.now) (asked_in question.now) result }
{
    let mut wire = net.open(agent)?;
    answer_text(alloc, &mut wire, question, names)
}
