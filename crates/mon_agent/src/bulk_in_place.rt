//! Answering a GetBulk in place (RFC 3416 section 4.2.3): the names that it asks for are kept, each
//! round puts those of its answers in their places, and the answers are written as they come.

ghost use Rattle.std.specs.Prelude.{◌≡◌, ◌↔◌, ◌++◌, ◌∷◌, ◌≤◌, ◌<◌, ◌≢◌, ◌⊎◌, ℕ, List, [], length, map, take, drop, IfSome, OnSome, true, IsTrue};
ghost use Rattle.mon_ber.specs.Sequence.{AreSpelled};
ghost use Rattle.mon_pdu.specs.declared.message.Binding.{Binding as AnyBinding};
ghost use Rattle.mon_pdu.specs.Framed.{framed, bulk_framed};
ghost use Rattle.mon_pdu.specs.Grammar.{IsBinding};
ghost use Rattle.mon_pdu.specs.Writing.{list_contents};
ghost use Rattle.mon_mib.specs.Search.{IsSeenIn, known_in};
ghost use Rattle.mon_agent.specs.Bulk.{is_end, rounds};
ghost use Rattle.mon_agent.specs.Filling.{AreNamed, FitsIn, IsFilled, IsOnePut, IsRoundPut};
ghost use Rattle.mon_agent.specs.InPlace.{answer_at, next_value};
ghost use Rattle.mon_agent.specs.Reply.{answered, count_of};

use crate::bulk::count;
use crate::in_place::{advance, asked_name, put_found, response_frame};
use crate::response_builder::is_end;
use mon_ber::writing::LIMIT;
use mon_mib::{Device, Got, Search, Shown};
use mon_oid::Oid;
use mon_pdu::{BulkFrame, Frame, frame_fits};
use std::alloc::Global;

/// How a GetBulk is answered.
#[derive(Clone, Copy)]
pub(crate) struct BulkPlan<'a> {
    /// How many of its names are answered once.
    once: usize,
    /// How often each of the others is answered at most.
    rounds: usize,
    /// The response without variable bindings.
    head: Frame<'a>,
    /// How many octets the response may take.
    max_message_size: u32,
}

/// What became of a round of answers.
#[derive(Clone, Copy)]
enum Round {
    /// Not all of them are within the limit.
    Full,
    /// All of them are at the end of the view.
    Last,
    /// Another round can follow.
    More,
}

impl<'a> BulkPlan<'a> {
    /// How a GetBulk of this frame is answered within this limit.
    pub(crate) fn new(frame: &BulkFrame<'a>, max_message_size: i32) -> Self
        ensures once { result.once ≡ count_of frame.now.non_repeaters }
        ensures rounds { result.rounds ≡ count_of frame.now.max_repetitions }
        ensures head { (asked bindings : List AnyBinding)
            → framed result.head bindings ≡ answered (bulk_framed frame.now asked) bindings }
        ensures max_message_size { result.max_message_size ≡ count_of max_message_size }
    {
        BulkPlan {
            once: count(frame.non_repeaters),
            rounds: count(frame.max_repetitions),
            head: response_frame(frame.community, frame.request_id, &[]),
            max_message_size: max_message_size.max(0) as u32,
        }
    }
}

/// Lists the names of the variable bindings that the octets consist of.
pub(crate) fn read_names(alloc: Global, octets: &[u8], names: &mut Vec<Oid>) -> Option<()>
    ensures { OnSome result (AreNamed octets.now names.old.items names.new.items) }
{
    let mut rest = octets;
    while !rest.is_empty() {
        let Some(after) = read_name(alloc, rest, names) else {
            return None;
        };
        rest = after;
    }
    Some(())
}

/// Lists the name of the variable binding that the octets begin with, and returns what follows it.
fn read_name<'b>(alloc: Global, octets: &'b [u8], names: &mut Vec<Oid>) -> Option<&'b [u8]>
    ensures named { IfSome result (λ rest. (text : List ℕ) × (asked : AnyBinding)
        × IsBinding text asked
        × (octets.now ≡ text ++ rest.now)
        × (names.new.items ≡ names.old.items ++ asked.name ∷ [])) }
    ensures shorter { IfSome result (λ rest. length rest.now < length octets.now) }
{
    let (name, rest) = asked_name(alloc, octets)?;
    names.push(name).ok()?;
    Some(rest)
}

/// Writes the answers to a GetBulk that asks for these names, as many as are within the limit.
pub(crate) fn fill<D: Device + Drop>(
    alloc: Global,
    search: &mut Search<'_, D>,
    plan: &BulkPlan<'_>,
    names: &mut [Oid],
    list: &mut Vec<u8>,
) -> Option<()>
    requires { list.old.items ≡ [] }
    ensures { OnSome result (IsFilled (known_in D.held search.old) (IsSeenIn search.old)
        (FitsIn plan.now)
        (λ next. map next (take plan.now.once names.old) ++ rounds next plan.now.rounds (drop plan.now.once names.old)) list.new.items) }
{
    let once = plan.once.min(names.len());
    let (once, repeated) = names.split_at_mut(once);
    match put_round(alloc, search, plan, once, list)? {
        Round::Full => Some(()),
        _ => put_rounds(alloc, search, plan, repeated, list),
    }
}

/// Writes rounds of answers to these names, as many as are within the limit; none after one that is
/// at the end.
fn put_rounds<D: Device + Drop>(
    alloc: Global,
    search: &mut Search<'_, D>,
    plan: &BulkPlan<'_>,
    names: &mut [Oid],
    list: &mut Vec<u8>,
) -> Option<()>
    ensures { (before : List AnyBinding) → list.old.items ≡ list_contents before
        → OnSome result (IsFilled (known_in D.held search.old) (IsSeenIn search.old)
        (FitsIn plan.now)
        (λ next. before ++ rounds next plan.now.rounds names.old) list.new.items) }
{
    for _ in 0..plan.rounds {
        match put_round(alloc, search, plan, names, list)? {
            Round::More => {}
            _ => return Some(()),
        }
    }
    Some(())
}

/// Writes the answers to these names, as many as are within the limit, and puts their names in the
/// places of these.
fn put_round<D: Device + Drop>(
    alloc: Global,
    search: &mut Search<'_, D>,
    plan: &BulkPlan<'_>,
    names: &mut [Oid],
    list: &mut Vec<u8>,
) -> Option<Round>
    ensures put { (before : List AnyBinding) → list.old.items ≡ list_contents before
        → IfSome result (λ round. IsRoundPut (known_in D.held search.old) (IsSeenIn search.old)
        (FitsIn plan.now) round before
        names.old names.new list.new.items) }
    ensures stays { search.new ≡ search.old }
{
    let mut all_end = true;
    for name in names.iter_mut() {
        let Ok(found) = advance(alloc, search, name) else {
            return None;
        };
        if !put_fitting(plan, name, &found, list)? {
            return Some(Round::Full);
        }
        all_end = all_end && is_at_end(&found);
    }
    Some(if all_end { Round::Last } else { Round::More })
}

/// Returns `true` if the answer by what was found is endOfMibView.
fn is_at_end(found: &Option<Shown<'_>>) -> bool
    ensures { result ≡ is_end (next_value found.now) }
{
    match found {
        Some(Shown::Octets(_)) => false,
        Some(Shown::Other(Got::Found(value))) => is_end(value),
        _ => true,
    }
}

/// Writes the answer of this name by what was found, if the response is within the limit with it.
/// Returns `true` if it is.
fn put_fitting(
    plan: &BulkPlan<'_>,
    name: &Oid,
    found: &Option<Shown<'_>>,
    list: &mut Vec<u8>,
) -> Option<bool>
    ensures { (before : List AnyBinding) → list.old.items ≡ list_contents before
        → IfSome result (λ fits. IsOnePut (FitsIn plan.now) before (answer_at name.now found.now)
        fits list.new.items) }
{
    let before = list.len();
    put_found(list, name, found, i32::MAX)?;
    if frame_fits(&plan.head, list.len().min(LIMIT), plan.max_message_size) {
        return Some(true);
    }
    list.truncate(before);
    Some(false)
}
