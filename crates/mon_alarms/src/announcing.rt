//! Alarms that are announced once a change has held in several looks.

ghost use Rattle.std.specs.Prelude.{◌≡◌, IfOk, OnErr, OnOk, map};
ghost use Rattle.mon_alarms.specs.Announcing.{after_event, after_look, due, due_from, noted_from, settled};

use crate::alarm::AlarmState;
use crate::change::{AlarmChange, AlarmEvent, put_event};
use std::alloc::{AllocError, Global};
use std::marker::Model;

/// What was announced of a rule's alarm, and a change since that is not announced yet.
#[derive(Clone, Copy, Debug)]
pub struct Pending {
    /// The state that was announced last.
    pub announced: AlarmState,
    /// The event that started another state.
    pub since: Option<AlarmEvent>,
    /// The number of looks in which that state has held.
    pub held: u32,
}

impl Pending {
    /// Nothing is pending, and this state is known.
    fn settled(announced: AlarmState) -> Self
        ensures { result ≡ settled announced }
    {
        Pending {
            announced,
            since: None,
            held: 0,
        }
    }

    /// Takes an event between two looks in. One that leads back to what was announced ends what is
    /// pending; any other is pending from now on.
    fn after_event(self, event: AlarmEvent) -> Self
        ensures { result ≡ after_event self event }
    {
        if event.raises() == self.announced.is_raised() {
            return Pending::settled(self.announced);
        }
        Pending {
            announced: self.announced,
            since: Some(event),
            held: 0,
        }
    }

    /// Returns what is announced at a look, if anything is.
    fn due(self, after: u32) -> Option<AlarmEvent>
        ensures { result ≡ due after self }
    {
        if u64::from(self.held) + 1 < u64::from(after) {
            return None;
        }
        self.since
    }

    /// Counts a look: what is pending has held in one more, or is announced.
    fn after_look(self, after: u32) -> Self
        ensures { result ≡ after_look after self }
    {
        let Some(event) = self.since else {
            return self;
        };
        if u64::from(self.held) + 1 < u64::from(after) {
            return Pending {
                announced: self.announced,
                since: Some(event),
                held: self.held + 1,
            };
        }
        Pending::settled(event.state())
    }
}

/// Announces the changes of a watch's alarms, each once it has held in `after` looks. With an
/// `after` of 0 or 1 it announces each at once.
#[derive(Drop)]
pub struct Announcer {
    after: u32,
    rules: Vec<Pending>,
}

impl Model for Announcer {
    ghost use Rattle.mon_alarms.specs.Announcing.{Announcer};

    ghost Value = { Announcer };

    ghost view = { λ a. record { after = a.after; rules = a.rules.items } };
}

impl Announcer {
    ghost use Rattle.mon_alarms.specs.Announcing.{after_announcing, announced_of, announced_states, announcer_of, noted};

    /// Returns an announcer of alarms that have these states, one for each rule of the watch in its
    /// order. Nothing is pending. With an `after` of 0 or 1 it keeps none of them.
    ///
    /// # Errors
    /// `AllocError` if there is no memory for the rules.
    pub fn new(alloc: Global, after: u32, states: &[AlarmState]) -> Result<Self, AllocError>
        ensures { IfOk result (λ a. a ≡ announcer_of after states.now) }
    {
        if after <= 1 {
            return Ok(Announcer {
                after,
                rules: Vec::new(alloc),
            });
        }
        let mut rules = Vec::with_capacity(alloc, states.len())?;
        for state in states {
            rules.push(Pending::settled(*state))?;
        }
        Ok(Announcer { after, rules })
    }

    /// Takes the changes since the last call in, and returns what is announced. Between two looks
    /// that is nothing, and at a look, in the order of the rules, each change that with it has held
    /// in `after` looks, by the event that started it. An event that comes before a change has held
    /// long enough starts it again, or ends it. A change of a rule beyond the last is ignored. With
    /// an `after` of 0 or 1 the changes are announced as they are.
    ///
    /// # Errors
    /// `AllocError` if there is no memory for what is announced. Then the changes are taken in, and
    /// the look does not count: what is due is announced at the next one.
    pub fn announce(
        &mut self,
        alloc: Global,
        changes: Vec<AlarmChange>,
        looks: bool,
    ) -> Result<Vec<AlarmChange>, AllocError>
        ensures given { IfOk result (λ v. v.items ≡ announced_of looks changes.items self.old) }
        ensures left { OnOk result (self.new ≡ after_announcing looks changes.items self.old) }
        ensures failed { OnErr result (self.new ≡ noted changes.items self.old) }
    {
        if self.after <= 1 {
            return Ok(changes);
        }
        note(&mut self.rules, changes.as_slice());
        if !looks {
            return Ok(Vec::new(alloc));
        }
        let announced = due(alloc, self.after, self.rules.as_slice())?;
        look(&mut self.rules, self.after);
        Ok(announced)
    }

    /// Returns the states that were announced last, in the order of the rules. With an `after` of 0
    /// or 1 there are none.
    ///
    /// # Errors
    /// `AllocError` if there is no memory for them.
    pub fn states(&self, alloc: Global) -> Result<Vec<AlarmState>, AllocError>
        ensures { IfOk result (λ v. v.items ≡ announced_states self.now) }
    {
        let mut states = Vec::with_capacity(alloc, self.rules.len())?;
        for pending in &self.rules {
            states.push(pending.announced)?;
        }
        Ok(states)
    }
}

/// Takes changes in, in their order.
fn note(rules: &mut Vec<Pending>, changes: &[AlarmChange])
    ensures { rules.new.items ≡ noted_from 0 rules.old.items changes.now }
{
    for change in changes {
        if change.rule < rules.len() {
            let pending = rules[change.rule];
            rules[change.rule] = pending.after_event(change.event);
        }
    }
}

/// Returns what is announced at a look, in the order of the rules.
fn due(alloc: Global, after: u32, rules: &[Pending]) -> Result<Vec<AlarmChange>, AllocError>
    ensures { IfOk result (λ v. v.items ≡ due_from after 0 rules.now) }
{
    let mut announced = Vec::new(alloc);
    for number in 0..rules.len() {
        let pending = rules[number];
        put_event(&mut announced, number, pending.due(after))?;
    }
    Ok(announced)
}

/// Counts a look for each rule.
fn look(rules: &mut Vec<Pending>, after: u32)
    ensures { rules.new.items ≡ map (after_look after) rules.old.items }
{
    for number in 0..rules.len() {
        let pending = rules[number];
        rules[number] = pending.after_look(after);
    }
}
