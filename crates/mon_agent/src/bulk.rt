//! The response to a GetBulk (RFC 3416 section 4.2.3).

ghost use Rattle.std.specs.Prelude.{◌≡◌, ◌≤◌, ◌+◌, ◌++◌, [], ℕ, List, Ok, IfOk, OnOk, true, map, take, drop, length};
ghost use Rattle.mon_pdu.specs.declared.message.Binding.{Binding as AnyBinding};
ghost use Rattle.mon_mib.specs.Search.{IsSeenIn, known_in};
ghost use Rattle.mon_agent.specs.Bulk.{IsStepper, names_of, full_list};
ghost use Rattle.mon_agent.specs.ResponseBuilder.{FitsWith, IsPut, IsEnded, last, more_rounds};
ghost use Rattle.mon_agent.specs.Reply.{count_of};

use crate::reading::step;
use crate::response_builder::ResponseBuilder;
use mon_mib::{Device, Search};
use mon_pdu::{Binding, Bulk};
use std::alloc::{AllocError, Global};

/// Puts the answers to a GetBulk into its response, as many as are within the limit.
pub(crate) fn bulk<D: Device + Drop>(
    alloc: Global,
    search: &mut Search<'_, D>,
    reply: &mut ResponseBuilder,
    request: &Bulk,
) -> Result<(), AllocError>
    requires { reply.old.bindings ≡ [] }
    ensures head { reply.new.head ≡ reply.old.head }
    ensures max_message_size { reply.new.max_message_size ≡ reply.old.max_message_size }
    ensures put { (next : List ℕ → AnyBinding) → IsStepper (known_in D.held search.old)
        (IsSeenIn search.old) next
        → OnOk result (IsEnded (FitsWith reply.old)
        (full_list next request.now.non_repeaters request.now.max_repetitions request.now.bindings) reply.new.bindings) }
{
    let (once, repeated) = split(request);
    let rounds = count(request.max_repetitions);
    if !extend(alloc, search, reply, once)? {
        return Ok(());
    }
    if rounds == 0 {
        return Ok(());
    }
    if !extend(alloc, search, reply, repeated)? {
        return Ok(());
    }
    let width = repeated.len();
    repeat_all(alloc, search, reply, width, rounds - 1)
}

/// The variable bindings that are answered once, and those that are answered in each round.
fn split(request: &Bulk) -> (&[Binding], &[Binding])
    ensures once { result.0.now ≡ take (count_of request.now.non_repeaters) request.now.bindings }
    ensures repeated { result.1.now ≡ drop (count_of request.now.non_repeaters)
        request.now.bindings }
{
    let asked = request.bindings.as_slice();
    asked.split_at(count(request.non_repeaters).min(asked.len()))
}

/// Adds an answer for each of these. Returns `true` if all of them are within the limit.
pub(crate) fn extend<D: Device + Drop>(
    alloc: Global,
    search: &mut Search<'_, D>,
    reply: &mut ResponseBuilder,
    asked: &[Binding],
) -> Result<bool, AllocError>
    ensures stays { search.new ≡ search.old }
    ensures head { reply.new.head ≡ reply.old.head }
    ensures max_message_size { reply.new.max_message_size ≡ reply.old.max_message_size }
    ensures put { (next : List ℕ → AnyBinding) → IsStepper (known_in D.held search.old)
        (IsSeenIn search.old) next
        → IfOk result (λ all. IsPut (FitsWith reply.old) (reply.old.bindings
        ++ map next (names_of asked.now)) all reply.new.bindings) }
    ensures long { result ≡ Ok true → length reply.new.bindings
        ≡ length reply.old.bindings + length asked.now }
{
    for binding in asked {
        let found = step(alloc, search, &binding.name)?;
        if !reply.push(found)? {
            return Ok(false);
        }
    }
    Ok(true)
}

/// Adds this many rounds of answers to the names of the last `width`, each to the names before;
/// none after one that is at the end.
fn repeat_all<D: Device + Drop>(
    alloc: Global,
    search: &mut Search<'_, D>,
    reply: &mut ResponseBuilder,
    width: usize,
    rounds: usize,
) -> Result<(), AllocError>
    requires { width ≤ length reply.old.bindings }
    ensures head { reply.new.head ≡ reply.old.head }
    ensures max_message_size { reply.new.max_message_size ≡ reply.old.max_message_size }
    ensures put { (next : List ℕ → AnyBinding) → IsStepper (known_in D.held search.old)
        (IsSeenIn search.old) next
        → OnOk result (IsEnded (FitsWith reply.old)
        (reply.old.bindings ++ more_rounds next rounds (last width reply.old.bindings)) reply.new.bindings) }
{
    for _ in 0..rounds {
        if reply.all_end_of_mib_view(width) {
            return Ok(());
        }
        if !repeat(alloc, search, reply, width)? {
            return Ok(());
        }
    }
    Ok(())
}

/// Adds a round of answers to the names of the last `width`. Returns `true` if all of them are
/// within the limit.
fn repeat<D: Device + Drop>(
    alloc: Global,
    search: &mut Search<'_, D>,
    reply: &mut ResponseBuilder,
    width: usize,
) -> Result<bool, AllocError>
    requires { width ≤ length reply.old.bindings }
    ensures stays { search.new ≡ search.old }
    ensures head { reply.new.head ≡ reply.old.head }
    ensures max_message_size { reply.new.max_message_size ≡ reply.old.max_message_size }
    ensures put { (next : List ℕ → AnyBinding) → IsStepper (known_in D.held search.old)
        (IsSeenIn search.old) next
        → IfOk result (λ all. IsPut (FitsWith reply.old)
        (reply.old.bindings ++ map next (names_of (last width reply.old.bindings))) all reply.new.bindings) }
    ensures wide { result ≡ Ok true → width ≤ length reply.new.bindings }
{
    for _ in 0..width {
        let found = step(alloc, search, reply.name_before(width))?;
        if !reply.push(found)? {
            return Ok(false);
        }
    }
    Ok(true)
}

/// A number of a request that counts; one below 0 is 0.
pub(crate) fn count(number: i32) -> usize
    ensures { result ≡ count_of number }
{
    number.max(0) as usize
}
