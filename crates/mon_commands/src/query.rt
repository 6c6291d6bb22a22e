//! What a client command asks: whom, about which variables, and the value that it assigns.

ghost use Rattle.std.specs.Prelude.{map};
ghost use Rattle.mon_host.specs.Log.{GoesOnBy};
ghost use Rattle.mon_commands.specs.Query.{AreAsked, IsGivenValue, IsQuery, IsQueryBy, IsWhom};

use mon_app::AppFault;
use mon_ber::Value;
use mon_cli::Request;
use mon_client::{ValueKind, value_of};
use mon_console::{AgentAt, Failure, agent_at, asked_for, community, names_of};
use mon_host::Host;
use mon_oid::Oid;
use mon_smi::Names;
use std::alloc::Global;

/// Whom a client command asks, in which community.
#[derive(Clone, Copy)]
struct Whom<'a> {
    agent: AgentAt<'a>,
    community: &'a [u8],
}

/// Whom a client command asks, about which variables, and how it prints their names.
#[derive(Drop)]
pub(crate) struct Query<'a> {
    pub(crate) agent: AgentAt<'a>,
    pub(crate) community: &'a [u8],
    pub(crate) known: Names,
    pub(crate) asked: Vec<Oid>,
    pub(crate) prints_names: bool,
}

/// Reads whom the arguments ask, and about which variables. Their faults are found from left to
/// right, then those of the modules, then those of the names.
pub(crate) fn query_of<'a, H: Host>(
    alloc: Global,
    host: &mut H,
    request: Request<'_, 'a>,
) -> Result<Query<'a>, Failure>
    ensures { GoesOnBy (λ log. IsQuery request.entry log result) (H.log host.old) (H.log host.new) }
{
    let whom = whom_of(alloc, request)?;
    let known = names_of(alloc, host, request.named.modules)?;
    query_by(alloc, request, whom, known)
}

/// Reads whom the arguments ask.
fn whom_of<'a>(alloc: Global, request: Request<'_, 'a>) -> Result<Whom<'a>, Failure>
    ensures { IsWhom request.entry result }
{
    let agent = agent_at(alloc, request.address)?;
    let community = community(alloc, request.community)?;
    Ok(Whom { agent, community })
}

/// Reads which variables the arguments ask for, by these names.
fn query_by<'a>(
    alloc: Global,
    request: Request<'_, 'a>,
    whom: Whom<'a>,
    known: Names,
) -> Result<Query<'a>, Failure>
    ensures { IsQueryBy request.entry whom.entry known result }
{
    let asked = ask_names(alloc, request.names, &known)?;
    Ok(Query {
        agent: whom.agent,
        community: whom.community,
        known,
        asked,
        prints_names: request.named.shown,
    })
}

/// The identifiers that words name.
fn ask_names(alloc: Global, words: &[&str], known: &Names) -> Result<Vec<Oid>, Failure>
    ensures { AreAsked known.now (map (λ w. w.now) words.now) result }
{
    let mut asked = Vec::new(alloc);
    for word in words {
        asked.push(asked_for(alloc, known, word)?)?;
    }
    Ok(asked)
}

/// Reads the value of a variable, by its kind.
pub(crate) fn read_value(alloc: Global, kind: &str, word: &str) -> Result<Value, Failure>
    ensures { IsGivenValue kind.now word.now result }
{
    let Some(kind) = ValueKind::from_word(kind) else {
        return Err(Failure::text(alloc, kind, "a kind of value"));
    };
    match value_of(alloc, kind, word) {
        Ok(value) => Ok(value),
        Err(AppFault::BadText) => Err(Failure::text(alloc, word, wanted_of(kind))),
        Err(fault) => Err(Failure::from(fault)),
    }
}

/// Says what a value of a kind must be.
fn wanted_of(kind: ValueKind) -> &'static str {
    match kind {
        ValueKind::Integer => "an integer, -2147483648 to 2147483647,",
        ValueKind::String => "a text",
        ValueKind::Hex => "an even number of hex digits",
        ValueKind::Oid => "an object identifier in numbers, as 1.3.6.1.4.1,",
        ValueKind::Ip => "an address, a.b.c.d,",
        ValueKind::Counter32 | ValueKind::Gauge32 | ValueKind::TimeTicks => {
            "a number, 0 to 4294967295,"
        }
        ValueKind::Counter64 => "a number, 0 to 18446744073709551615,",
    }
}
