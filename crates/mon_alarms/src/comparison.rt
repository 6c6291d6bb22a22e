//! An alarm along the samples that a window had at two looks.

ghost use Rattle.std.specs.Prelude.{◌≡◌, ◌+◌, ◌<◌, ◌∷◌, ◌++◌, ◌&&◌, ℕ, Bool, true, false, List, [], IfNone, IfSome, None, if◌then◌else◌, length, map, not, option_to_list};
ghost use Rattle.std.specs.Bool.{beq};
ghost use Rattle.std.specs.List.{last_or};
ghost use Rattle.mon_alarms.specs.Changes.{event_at, event_between, event_of, is_new, is_raised, known_of, last_again, merged, put_right, raised_after};
ghost use Rattle.mon_alarms.specs.Comparison.{after_sample, IsComparison, IsTrail};
ghost use Rattle.mon_alarms.specs.Rule.{Rule};
ghost use Rattle.mon_alarms.specs.declared.change.AlarmEvent.{AlarmEvent};

use crate::alarm::{AlarmState, observe};
use crate::change::AlarmEvent;
use crate::rule::Rule;
use mon_sample::Sample;
use std::cmp::Ordering;

/// The oldest sample of two looks, and what is left of both.
#[derive(Clone, Copy)]
pub(crate) struct Next<'a> {
    pub(crate) sample: Sample,
    /// `true` if the first look had it.
    pub(crate) is_known: bool,
    pub(crate) was: &'a [Sample],
    pub(crate) is: &'a [Sample],
}

/// Returns the oldest sample of two looks, if there is one.
pub(crate) fn oldest<'a>(was: &'a [Sample], is: &'a [Sample]) -> Option<Next<'a>>
    ensures next { IfSome result (λ n. merged was.now is.now
        ≡ (n.sample, n.is_known) ∷ merged n.was.now n.is.now) }
    ensures less { IfSome result (λ n. length n.was.now + length n.is.now
        < length was.now + length is.now) }
    ensures end { IfNone result (merged was.now is.now ≡ []) }
{
    match (was.split_first(), is.split_first()) {
        (None, None) => None,
        (None, Some((y, ys))) => Some(second(y, was, ys)),
        (Some((x, xs)), None) => Some(first(x, xs, is)),
        (Some((x, xs)), Some((y, ys))) => Some(match x.compare(y) {
            Ordering::Less => first(x, xs, is),
            Ordering::Equal => first(x, xs, ys),
            Ordering::Greater => second(y, was, ys),
        }),
    }
}

/// A sample of the first look.
fn first<'a>(sample: &Sample, was: &'a [Sample], is: &'a [Sample]) -> Next<'a>
    ensures sample { result.sample ≡ sample.now }
    ensures known { result.is_known ≡ true }
    ensures was { result.was.now ≡ was.now }
    ensures is { result.is.now ≡ is.now }
{
    Next {
        sample: *sample,
        is_known: true,
        was,
        is,
    }
}

/// A sample that only the second look had.
fn second<'a>(sample: &Sample, was: &'a [Sample], is: &'a [Sample]) -> Next<'a>
    ensures sample { result.sample ≡ sample.now }
    ensures known { result.is_known ≡ false }
    ensures was { result.was.now ≡ was.now }
    ensures is { result.is.now ≡ is.now }
{
    Next {
        sample: *sample,
        is_known: false,
        was,
        is,
    }
}

/// An alarm along samples: its state over those so far, and the newest of them.
#[derive(Drop)]
struct Trail {
    state: AlarmState,
    newest: Option<Sample>,
}

impl Trail {
    /// No sample so far.
    fn new() -> Self
        ensures { (rule : Rule) → IsTrail rule [] result }
    {
        Trail {
            state: AlarmState::Clear,
            newest: None,
        }
    }

    /// Returns `true` if the alarm is raised over the samples so far.
    fn is_raised(&self) -> bool
        ensures { result ≡ is_raised self.now.state }
    {
        self.state.is_raised()
    }

    /// Goes on to the next sample.
    fn step(&mut self, rule: &Rule, sample: &Sample)
        ensures { (xs : List ℕ) → IsTrail rule.now xs self.old
            → IsTrail rule.now (xs ++ sample.now ∷ []) self.new }
    {
        // Proof: the falling threshold is the lower.
        let _ = rule.falling();
        let level = observe(self.newest.as_ref(), sample);
        self.state = after_sample(rule, level, sample, self.state);
        self.newest = Some(*sample);
    }
}

/// The state after a sample at which this is observed.
pub(crate) fn after_sample(
    rule: &Rule,
    level: Option<i128>,
    sample: &Sample,
    state: AlarmState,
) -> AlarmState
    ensures { result ≡ after_sample rule.now level sample.now state }
{
    let Some(level) = level else {
        return state;
    };
    if state.is_raised() {
        return if level <= i128::from(rule.falling()) {
            AlarmState::Clear
        } else {
            state
        };
    }
    if i128::from(rule.rising()) <= level {
        return AlarmState::Raised {
            boots: sample.boots(),
            time: sample.time(),
        };
    }
    state
}

/// What a sample does to an alarm, by whether it is raised before and after it.
pub(crate) fn event_between(
    was_raised: bool,
    is_raised: bool,
    sample: &Sample,
) -> Option<AlarmEvent>
    ensures { result ≡ event_between was_raised is_raised sample.now }
{
    let (boots, time) = (sample.boots(), sample.time());
    match (was_raised, is_raised) {
        (false, true) => Some(AlarmEvent::Raised { boots, time }),
        (true, false) => Some(AlarmEvent::Cleared { boots, time }),
        _ => None,
    }
}

/// An alarm along the samples of two looks, and along those that the first look had.
#[derive(Drop)]
pub(crate) struct Comparison {
    all: Trail,
    known: Trail,
    /// The last event, and whether it is new.
    last: Option<(AlarmEvent, bool)>,
    last_new: Option<AlarmEvent>,
}

impl Comparison {
    /// No sample so far.
    pub(crate) fn new() -> Self
        ensures { (rule : Rule) → IsComparison rule [] result }
    {
        Comparison {
            all: Trail::new(),
            known: Trail::new(),
            last: None,
            last_new: None,
        }
    }

    /// Goes on to the next sample. Returns what it does to the alarm, if that is new.
    pub(crate) fn step(
        &mut self,
        rule: &Rule,
        sample: &Sample,
        is_known: bool,
    ) -> Option<AlarmEvent>
        ensures comparison { (seen : List (ℕ × Bool)) → IsComparison rule.now seen self.old
            → IsComparison rule.now (seen ++ (sample.now, is_known) ∷ []) self.new }
        ensures event { (seen : List (ℕ × Bool)) → IsComparison rule.now seen self.old
            → result ≡ if is_new rule.now seen (sample.now, is_known)
            then event_at rule.now seen (sample.now, is_known) else None }
    {
        let before = (self.known.is_raised(), self.all.is_raised());
        self.all.step(rule, sample);
        self.step_known(rule, sample, is_known);
        let after = (self.known.is_raised(), self.all.is_raised());
        let event = event_between(before.1, after.1, sample);
        let is_new = is_new(is_known, before, after);
        let new = only_if(is_new, event);
        self.last = later(event, is_new, self.last);
        self.last_new = later_new(new, self.last_new);
        new
    }

    /// Goes on with what the first look had, if it had the sample.
    fn step_known(&mut self, rule: &Rule, sample: &Sample, is_known: bool)
        ensures known { (seen : List (ℕ × Bool)) → IsTrail rule.now (known_of seen) self.old.known
            → IsTrail rule.now (known_of (seen ++ (sample.now, is_known) ∷ [])) self.new.known }
        ensures all { self.new.all ≡ self.old.all }
        ensures last { self.new.last ≡ self.old.last }
        ensures last_new { self.new.last_new ≡ self.old.last_new }
    {
        if is_known {
            self.known.step(rule, sample);
        }
    }

    /// Returns the last event again, if it is not new and a new one was before it.
    pub(crate) fn last_again(&self) -> Option<AlarmEvent>
        ensures { result ≡ last_again self.now.last_new self.now.last }
    {
        match (self.last_new, self.last) {
            (Some(_), Some((event, false))) => Some(event),
            _ => None,
        }
    }

    /// Returns the state now, if what was reported does not lead to it: the state at the first
    /// look, then new events, and at last this one.
    pub(crate) fn put_right(
        &self,
        was: AlarmState,
        last: Option<AlarmEvent>,
        now: AlarmState,
    ) -> Option<AlarmEvent>
        ensures { (new : List AlarmEvent) → self.now.last_new ≡ last_or None new
            → result ≡ put_right (raised_after (is_raised was) (new ++ option_to_list last)) now }
    {
        put_right(raised_after(was, later_new(last, self.last_new)), now)
    }
}

/// Returns the state now, if the alarm is not raised just where reports say so.
pub(crate) fn put_right(reported: bool, now: AlarmState) -> Option<AlarmEvent>
    ensures { result ≡ put_right reported now }
{
    if reported == now.is_raised() {
        return None;
    }
    Some(event_of(now))
}

/// Returns `true` if what a sample does is new: the first look did not have it, or the state before
/// it or after it was another one.
fn is_new(is_known: bool, before: (bool, bool), after: (bool, bool)) -> bool
    ensures { result ≡ not (is_known && (beq before.0 before.1 && beq after.0 after.1)) }
{
    !(is_known && before.0 == before.1 && after.0 == after.1)
}

/// An event that is new.
fn only_if(is_new: bool, event: Option<AlarmEvent>) -> Option<AlarmEvent>
    ensures { result ≡ if is_new then event else None }
{
    if is_new { event } else { None }
}

/// The last event after one more, if there is one.
fn later(
    event: Option<AlarmEvent>,
    is_new: bool,
    before: Option<(AlarmEvent, bool)>,
) -> Option<(AlarmEvent, bool)>
    ensures { (events : List (AlarmEvent × Bool)) → before ≡ last_or None events
        → result ≡ last_or None (events ++ map (λ e. (e, is_new)) (option_to_list event)) }
{
    match event {
        None => before,
        Some(event) => Some((event, is_new)),
    }
}

/// The last new event after one more, if there is one.
fn later_new(event: Option<AlarmEvent>, before: Option<AlarmEvent>) -> Option<AlarmEvent>
    ensures { (events : List AlarmEvent) → before ≡ last_or None events
        → result ≡ last_or None (events ++ option_to_list event) }
{
    match event {
        None => before,
        Some(event) => Some(event),
    }
}

/// Returns `true` if an alarm that was in this state is raised after events, of which this is the
/// last.
fn raised_after(was: AlarmState, last: Option<AlarmEvent>) -> bool
    ensures { (events : List AlarmEvent) → last ≡ last_or None events
        → result ≡ raised_after (is_raised was) events }
{
    match last {
        None => was.is_raised(),
        Some(event) => event.raises(),
    }
}

/// A state as an event.
fn event_of(state: AlarmState) -> AlarmEvent
    ensures { result ≡ event_of state }
{
    match state {
        AlarmState::Clear => AlarmEvent::Lapsed,
        AlarmState::Raised { boots, time } => AlarmEvent::Raised { boots, time },
    }
}
