//! Alarms that are raised or cleared.

ghost use Rattle.std.specs.Prelude.{◌≡◌, ◌++◌, IfSome, IsTrue, OnOk, option_to_list, true};
ghost use Rattle.mon_alarms.specs.Changes.{changes_of, raised_now, raises, reported_between, state_after, with_rule};
ghost use Rattle.mon_alarms.specs.Comparison.{HasLeft, HasMovedOn};
ghost use Rattle.mon_alarms.specs.Observed.{state_by};

use crate::alarm::{AlarmState, observe, state};
use crate::comparison::{Comparison, after_sample, event_between, oldest, put_right};
use crate::rule::Rule;
use mon_sample::Sample;
use std::alloc::AllocError;

/// What became of an alarm. A stamp is the snmpEngineBoots and the snmpEngineTime of a sample
/// (RFC 3411 section 5).
#[derive(Clone, Copy, Debug, PartialEq, Eq)]
pub enum AlarmEvent {
    /// The sample of this stamp raised it.
    Raised { boots: u32, time: u32 },
    /// The sample of this stamp cleared it.
    Cleared { boots: u32, time: u32 },
    /// It is clear, since no sample that is left in the window raises it.
    Lapsed,
}

impl AlarmEvent {
    /// Returns `true` if the alarm is raised after it.
    pub(crate) fn raises(self) -> bool
        ensures { result ≡ raises self }
    {
        matches!(self, AlarmEvent::Raised { .. })
    }

    /// Returns the state that it leads to.
    pub(crate) fn state(self) -> AlarmState
        ensures { result ≡ state_after self }
    {
        match self {
            AlarmEvent::Raised { boots, time } => AlarmState::Raised { boots, time },
            AlarmEvent::Cleared { .. } | AlarmEvent::Lapsed => AlarmState::Clear,
        }
    }
}

/// An alarm that was raised or cleared.
#[derive(Clone, Copy, Debug, PartialEq, Eq)]
pub struct AlarmChange {
    /// The number of its rule in the watch.
    pub rule: usize,
    /// What became of it.
    pub event: AlarmEvent,
}

/// Adds what became of the alarm of this rule between two looks at its window: each sample that
/// raised or cleared it, in their order, also one that is older than others; but not where the
/// first look had that sample and the same states before and after it.
///
/// If the last event is not new, it comes again after those that are. If all that does not lead to
/// the state over the window now, the state follows.
///
/// # Errors
/// `AllocError`: then some of the changes may have been added.
pub fn put_changes(
    changes: &mut Vec<AlarmChange>,
    number: usize,
    rule: &Rule,
    was: &[Sample],
    is: &[Sample],
) -> Result<(), AllocError>
    ensures { OnOk result (changes.new.items ≡ changes.old.items
        ++ changes_of number rule.now was.now is.now) }
{
    if are_equal(was, is) {
        return Ok(());
    }
    let Some(newest) = moved_on(was, is) else {
        return put_compared(changes, number, rule, was, is);
    };
    let (event, right) = newest_events(rule, was, is, newest);
    put_event(changes, number, event)?;
    put_event(changes, number, right)
}

/// Adds what `put_changes` does, by a walk along all samples of both looks.
fn put_compared(
    changes: &mut Vec<AlarmChange>,
    number: usize,
    rule: &Rule,
    was: &[Sample],
    is: &[Sample],
) -> Result<(), AllocError>
    ensures { OnOk result (changes.new.items ≡ changes.old.items
        ++ changes_of number rule.now was.now is.now) }
{
    let mut comparison = Comparison::new();
    let (mut old, mut new) = (was, is);
    while let Some(next) = oldest(old, new) {
        let event = comparison.step(rule, &next.sample, next.is_known);
        put_event(changes, number, event)?;
        (old, new) = (next.was, next.is);
    }
    let last = comparison.last_again();
    put_event(changes, number, last)?;
    let right = comparison.put_right(state(rule, was), last, state(rule, is));
    put_event(changes, number, right)?;
    Ok(())
}

/// Returns the newest sample of the second look, if the first look had all others of it, and at
/// most its oldest besides: then the window moved on by one sample.
fn moved_on<'a>(was: &[Sample], is: &'a [Sample]) -> Option<&'a Sample>
    ensures { IfSome result (λ newest. HasMovedOn was.now is.now newest.now) }
{
    let Some((newest, kept)) = is.split_last() else {
        return None;
    };
    if are_equal(was, kept) {
        return Some(newest);
    }
    if has_left(was, is, kept) {
        return Some(newest);
    }
    None
}

/// Returns `true` if these are what the first look had without its oldest sample, which is older
/// than all of the second look.
fn has_left(was: &[Sample], is: &[Sample], kept: &[Sample]) -> bool
    ensures { IsTrue result → HasLeft was.now is.now kept.now }
{
    let (Some((oldest, rest)), Some(first)) = (was.split_first(), is.first()) else {
        return false;
    };
    if !oldest.compare(first).is_lt() {
        return false;
    }
    are_equal(rest, kept)
}

/// Returns what the newest sample of a window that moved on by it does to the alarm, and the state
/// now if that does not lead to it.
fn newest_events(
    rule: &Rule,
    was: &[Sample],
    is: &[Sample],
    newest: &Sample,
) -> (Option<AlarmEvent>, Option<AlarmEvent>)
    requires { HasMovedOn was.now is.now newest.now }
    ensures { reported_between rule.now was.now is.now
        ≡ option_to_list result.0 ++ option_to_list result.1 }
{
    // Proof: the falling threshold is the lower.
    let _ = rule.falling();
    let before = state(rule, was);
    let after = after_sample(rule, observe(was.last(), newest), newest, before);
    let event = event_between(before.is_raised(), after.is_raised(), newest);
    let right = put_right(after.is_raised(), state(rule, is));
    (event, right)
}

/// Returns `true` if both are the same samples.
fn are_equal(some: &[Sample], others: &[Sample]) -> bool
    ensures { result ≡ true → some.now ≡ others.now }
{
    if some.len() != others.len() {
        return false;
    }
    for place in 0..some.len() {
        if !some[place].is_same(&others[place]) {
            return false;
        }
    }
    true
}

/// Adds the alarm of a rule, if these samples raise it.
///
/// # Errors
/// `AllocError`: then nothing was added.
pub fn put_raised(
    changes: &mut Vec<AlarmChange>,
    number: usize,
    rule: &Rule,
    samples: &[Sample],
) -> Result<(), AllocError>
    ensures { OnOk result (changes.new.items ≡ changes.old.items
        ++ raised_now number (state_by rule.now samples.now)) }
{
    let event = match state(rule, samples) {
        AlarmState::Clear => None,
        AlarmState::Raised { boots, time } => Some(AlarmEvent::Raised { boots, time }),
    };
    put_event(changes, number, event)
}

/// Adds what became of a rule's alarm, if anything did.
pub(crate) fn put_event(
    changes: &mut Vec<AlarmChange>,
    rule: usize,
    event: Option<AlarmEvent>,
) -> Result<(), AllocError>
    ensures { OnOk result (changes.new.items ≡ changes.old.items
        ++ with_rule rule (option_to_list event)) }
{
    if let Some(event) = event {
        changes.push(AlarmChange { rule, event })?;
    }
    Ok(())
}
