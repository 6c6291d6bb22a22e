//! Polls of settings, tried before the settings are printed or written.

ghost use Rattle.std.specs.Prelude.{◌≡◌, IsTrue, Ok, true};
ghost use Rattle.mon_client.specs.Network.{agents_by};
ghost use Rattle.mon_settings_commands.specs.Exchange.{AsksBy};
ghost use Rattle.mon_settings_commands.specs.Fitting.{IsDraft, IsFitting, IsWish};
ghost use Rattle.mon_settings_commands.specs.Source.{source_in};
ghost use Rattle.mon_settings_commands.specs.Tried.{AreTried, IsTrial, IsTried, is_too_big};
ghost use Rattle.mon_survey.specs.Size.{objects_in, sizes_from};

use crate::asking::{Asker, exchange, open};
use crate::existing::Existing;
use crate::failing::poll_failure;
use crate::seating::seat_settings;
use crate::settings::{AgentOptions, Input, News, appended, settings_of, updated};
use mon_app::AppFault;
use mon_client::{Asking, Opens, Wire};
use mon_console::{Failure, Fault};
use mon_placing::Seat;
use mon_poller::{Target, poll_names};
use mon_survey::{Drafted, TargetSize};
use std::alloc::Global;

/// The error-status of an answer that would be too long (RFC 3416 section 3, tooBig).
const TOO_BIG: i32 = 1;

/// Which settings are drafted.
#[derive(Clone, Copy)]
pub(crate) enum Wish<'e> {
    /// Those of a station that polls all counters, or those of a group.
    New(Option<u32>),
    /// Those that are there, with the agent's targets at their end.
    Longer(&'e Existing),
    /// Those that are there, with the agent's interfaces as they are now, which had these names.
    Updated(News<'e>),
    /// Those of a station of a network.
    Placed(Seat<'e>),
}

/// Drafts settings and tries their polls: with the largest targets of this size and below that the
/// agent does not answer with tooBig.
///
/// # Errors
/// Why none could be drafted, or why a poll was not answered: tooBig only to one object.
pub(crate) fn fit<N: Opens>(
    alloc: Global,
    net: &N,
    input: &Input<'_, '_>,
    wish: Wish<'_>,
    size: TargetSize,
) -> Result<Drafted, Failure>
    requires { IsWish wish }
    ensures { IsFitting (agents_by (N.has_opened net.now) (N.has_failed net.now) N.Wire.log)
        input.now.asked (IsDraft (source_in input.now) wish.entry) (sizes_from size) result }
{
    let drafted = draft(alloc, input, wish, size)?;
    let Err(failure) = try_polls(alloc, net, input.asked, drafted.targets.as_slice()) else {
        return Ok(drafted);
    };
    if !is_too_big(failure.fault) {
        return Err(failure);
    }
    match size.half() {
        Some(less) => fit(alloc, net, input, wish, less),
        None => Err(failure),
    }
}

/// Drafts settings by targets of this size.
fn draft(
    alloc: Global,
    input: &Input<'_, '_>,
    wish: Wish<'_>,
    size: TargetSize,
) -> Result<Drafted, Failure>
    requires { IsWish wish }
    ensures { IsDraft (source_in input.now) wish.entry size result }
{
    match wish {
        Wish::New(group) => settings_of(alloc, input, group, size),
        Wish::Longer(existing) => appended(alloc, input, existing, size),
        Wish::Updated(news) => updated(alloc, input, news, size),
        Wish::Placed(seat) => seat_settings(alloc, input, seat, size),
    }
}

/// Returns `true` if an agent answered that its answer would be too long.
fn is_too_big(fault: Fault) -> bool
    ensures { result ≡ is_too_big fault }
{
    match fault {
        Fault::App(AppFault::AgentStatus { status, .. }) => status == TOO_BIG,
        _ => false,
    }
}

/// Asks the agent, by a wire of its own, once for what a poll of each of these targets asks for.
fn try_polls<N: Opens>(
    alloc: Global,
    net: &N,
    asked: AgentOptions<'_>,
    targets: &[Target],
) -> Result<(), Failure>
    ensures { IsTrial (agents_by (N.has_opened net.now) (N.has_failed net.now) N.Wire.log)
        asked.entry targets.now result }
{
    let mut asker = open(alloc, net, asked)?;
    try_targets(alloc, &mut asker, asked, targets)
}

/// Asks for what a poll of each of these targets asks for, in order.
fn try_targets<W: Wire>(
    alloc: Global,
    asker: &mut Asker<W>,
    asked: AgentOptions<'_>,
    targets: &[Target],
) -> Result<(), Failure>
    ensures { AsksBy (λ log. AreTried asked.entry.agent.word.now targets.now log result)
        asked.entry.community.now asker.old.last_id asker.new.last_id
        (W.log asker.old.wire) (W.log asker.new.wire) }
{
    let [first, rest @ ..] = targets else {
        return Ok(());
    };
    try_target(alloc, asker, asked, first)?;
    try_targets(alloc, asker, asked, rest)
}

/// Asks for what a poll of this target asks for.
fn try_target<W: Wire>(
    alloc: Global,
    asker: &mut Asker<W>,
    asked: AgentOptions<'_>,
    target: &Target,
) -> Result<(), Failure>
    ensures { AsksBy (λ log. IsTried asked.entry.agent.word.now target.now log result)
        asked.entry.community.now asker.old.last_id asker.new.last_id
        (W.log asker.old.wire) (W.log asker.new.wire) }
{
    let names = poll_names(alloc, target)?;
    match exchange(alloc, asker, asked.community, Asking::Get, &names) {
        Ok(_) => Ok(()),
        Err(fault) => Err(poll_failure(alloc, asked.agent.word, target, fault)),
    }
}
