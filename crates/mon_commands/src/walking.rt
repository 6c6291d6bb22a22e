//! The client command `walk`.

ghost use Rattle.mon_client.specs.Network.{agents_by};
ghost use Rattle.mon_commands.specs.Walking.{IsShown, IsStride, IsWalkAt, IsWalkFailure, IsWalkOf, IsWalking};
ghost use Rattle.mon_host.specs.Log.{GoesOnBy};

use crate::query::{Query, query_of};
use mon_cli::WalkArgs;
use mon_client::{Opens, Stride, WalkFault, WalkPlan};
use mon_console::{AgentAt, Failure, answer_failure};
use mon_host::Host;
use mon_smi::{InNumbers, NameTexts};
use std::alloc::Global;

/// Walks through the variables under the name, and prints each as soon as it is answered. It ends
/// at the first line that cannot be printed. If there is no variable, a line on standard error says
/// that nothing is below the name.
pub fn walk<N: Opens, H: Host>(
    alloc: Global,
    host: &mut H,
    net: &N,
    words: WalkArgs<'_, '_>,
) -> Result<(), Failure>
    ensures { GoesOnBy (λ log. IsWalking (agents_by (N.has_opened net.now)
        (N.has_failed net.now) N.Wire.log)
        words.entry log result) (H.log host.old) (H.log host.new) }
{
    let query = query_of(alloc, host, words.request)?;
    walk_query(alloc, host, net, &query, stride_of(words.bulk))
}

/// By which request a walk asks for this many variables at once: 0 for GetNext.
fn stride_of(bulk: u32) -> Stride
    ensures { IsStride bulk result }
{
    match i32::try_from(bulk) {
        Ok(most) if most > 0 => Stride::Bulk(most),
        _ => Stride::Next,
    }
}

/// A walk, and the agent through which it goes.
#[derive(Clone, Copy)]
struct Route<'a> {
    agent: AgentAt<'a>,
    plan: WalkPlan<'a>,
}

/// Walks through the variables under the name of the query, and prints a line for each. Of any
/// other number of names it does nothing.
fn walk_query<N: Opens, H: Host>(
    alloc: Global,
    host: &mut H,
    net: &N,
    query: &Query<'_>,
    stride: Stride,
) -> Result<(), Failure>
    ensures { GoesOnBy (λ log. IsWalkOf (agents_by (N.has_opened net.now)
        (N.has_failed net.now) N.Wire.log)
        query.now stride query.now.asked.items log result) (H.log host.old) (H.log host.new) }
{
    if query.asked.len() != 1 {
        return Ok(());
    }
    let plan = WalkPlan {
        community: query.community,
        start: &query.asked[0],
        stride,
    };
    let route = Route {
        agent: query.agent,
        plan,
    };
    if query.prints_names {
        walk_shown(alloc, host, net, &route, &query.known.labels(alloc)?)
    } else {
        walk_shown(alloc, host, net, &route, &InNumbers)
    }
}

/// Walks as planned, and prints a line for each variable, names in this way.
fn walk_shown<N: Opens, S: NameTexts, H: Host>(
    alloc: Global,
    host: &mut H,
    net: &N,
    route: &Route<'_>,
    names: &S,
) -> Result<(), Failure>
    ensures { GoesOnBy (λ log. IsShown (agents_by (N.has_opened net.now)
        (N.has_failed net.now) N.Wire.log)
        (S.shown names.now) route.now.agent route.now.plan.stride route.now.plan.community.now
        route.now.plan.start.now log result) (H.log host.old) (H.log host.new) }
{
    match walk_agent(alloc, host, net, route, names) {
        Ok(()) => Ok(()),
        Err(fault) => Err(walk_failure(alloc, route.agent.word, fault)),
    }
}

/// Opens a wire to the agent and walks by it as planned.
fn walk_agent<N: Opens, S: NameTexts, H: Host>(
    alloc: Global,
    host: &mut H,
    net: &N,
    route: &Route<'_>,
    names: &S,
) -> Result<(), WalkFault>
    ensures { GoesOnBy (λ log. IsWalkAt (agents_by (N.has_opened net.now)
        (N.has_failed net.now) N.Wire.log)
        route.now.agent.address (S.shown names.now) route.now.plan.stride
        route.now.plan.community.now route.now.plan.start.now log result)
        (H.log host.old) (H.log host.new) }
{
    let mut wire = net.open(route.agent.address)?;
    mon_client::walk(alloc, host, &mut wire, &route.plan, names)
}

/// Why a walk through this agent failed.
fn walk_failure(alloc: Global, agent: &str, fault: WalkFault) -> Failure
    ensures { IsWalkFailure agent.now fault result }
{
    match fault {
        WalkFault::App(fault) => answer_failure(alloc, agent, fault),
        WalkFault::Output(reason) => Failure::stream(alloc, "standard output", reason),
    }
}
