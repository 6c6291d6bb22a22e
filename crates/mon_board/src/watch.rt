ghost use Rattle.std.specs.Prelude.{◌≡◌, ◌≤◌, ◌<◌, ◌↔◌, All, IfOk, IsOk, IsTrue, length};
ghost use Rattle.std.specs.List.Sorted.{IsStrictlySortedBy};
ghost use Rattle.mon_window.specs.Window.{AreSizes};
ghost use Rattle.mon_board.specs.Instance.{instance_cmp, instances_of, AreInstances, AreSized, IsEngine};
ghost use Rattle.mon_board.specs.RuleOrder.{rule_cmp, AreRules};

use crate::fault::WatchFault;
use crate::instance::Watched;
use mon_alarms::Rule;
use std::alloc::{AllocError, Global};
use std::cmp::Ordering;
use std::marker::Model;

/// The most samples of a window.
const MAX_SAMPLES: usize = 64;

/// The most instances of a watch.
const MAX_INSTANCES: usize = 256;

/// The most alarm rules of a watch.
const MAX_RULES: usize = 256;

/// The instances that are watched, each with the sizes of its window, and the alarm rules on them.
/// An instance's number is its place, from 0.
pub struct Watch {
    instances: Vec<Watched>,
    rules: Vec<Rule>,
}

// By hand: where one is let go, a proof has one call and not a drop of each field.
impl Drop for Watch {
    fn drop(self) {
        let Watch {
            instances: _,
            rules: _,
        } = self;
    }
}

impl Model for Watch {
    ghost use Rattle.mon_board.specs.Watch.{Watch, IsWatch};

    ghost Value = { Watch };

    ghost view = { λ w. record { instances = w.instances.items; rules = w.rules.items } };

    ghost invariant = { λ w. IsWatch (record {
      instances = w.instances.items;
      rules = w.rules.items;
    }) };
}

impl Watch {
    ghost use Rattle.mon_board.specs.Watch.{IsWatch};

    /// The watch of these instances and rules. Tested in this order: `BadWindow` where some
    /// instance's window does not hold 1 to 64 samples or its epoch 1 to the window; `BadInstances`
    /// where the instances are not 1 to 256 with engines of 5 to 32 octets, rising by engine and
    /// then by name; `BadRules` where the rules are not at most 256, each on one of these
    /// instances, rising by instance, rising threshold and falling threshold, none twice. It
    /// allocates nothing.
    pub fn new(instances: Vec<Watched>, rules: Vec<Rule>) -> Result<Self, WatchFault>
        ensures made { IfOk result (λ w. w ≡ record {
          instances = instances.items;
          rules =
              rules.items;
        }) }
        ensures accepted { AreSized instances.items → AreInstances instances.items
            → AreRules (length instances.items) rules.items → IsOk result }
        ensures bad_window { (result ≡ Err WatchFault.BadWindow) ↔ ¬ (AreSized instances.items) }
        ensures bad_instances { (result ≡ Err WatchFault.BadInstances)
            ↔ (AreSized instances.items × ¬ (AreInstances instances.items)) }
        ensures bad_rules { (result ≡ Err WatchFault.BadRules)
            ↔ (AreSized instances.items × (AreInstances instances.items × ¬ (AreRules (length instances.items) rules.items))) }
    {
        if !are_sized(&instances) {
            return Err(WatchFault::BadWindow);
        }
        if !are_instances(&instances) {
            return Err(WatchFault::BadInstances);
        }
        if !are_rules(&rules, instances.len()) {
            return Err(WatchFault::BadRules);
        }
        Ok(Watch { instances, rules })
    }

    /// The instances, 1 to 256 that rise by engine and then by name.
    pub fn instances(&self) -> &[Watched]
        ensures instances { result.now ≡ self.now.instances }
        ensures watch { IsWatch self.now }
    {
        self.instances.as_slice()
    }

    /// The rules, at most 256 that rise by instance, rising threshold and falling threshold.
    pub fn rules(&self) -> &[Rule]
        ensures rules { result.now ≡ self.now.rules }
        ensures watch { IsWatch self.now }
    {
        self.rules.as_slice()
    }

    /// An equal watch.
    pub fn try_clone(&self, alloc: Global) -> Result<Self, AllocError>
        ensures { IfOk result (λ w. w ≡ self.now) }
    {
        let instances = copy_instances(alloc, self.instances.as_slice())?;
        let rules = copy_rules(alloc, self.rules.as_slice())?;
        Ok(Watch { instances, rules })
    }
}

/// Equal values, in this order.
fn copy_instances(alloc: Global, all: &[Watched]) -> Result<Vec<Watched>, AllocError>
    ensures { IfOk result (λ v. v.items ≡ all.now) }
{
    let mut copies = Vec::with_capacity(alloc, all.len())?;
    for watched in all {
        copies.push(watched.try_clone(alloc)?)?;
    }
    Ok(copies)
}

/// Copies the rules.
fn copy_rules(alloc: Global, all: &[Rule]) -> Result<Vec<Rule>, AllocError>
    ensures { IfOk result (λ v. v.items ≡ all.now) }
{
    let mut copies = Vec::with_capacity(alloc, all.len())?;
    for rule in all {
        copies.push(*rule)?;
    }
    Ok(copies)
}

/// Returns `true` if the windows of all have sizes that a window may have.
fn are_sized(instances: &[Watched]) -> bool
    ensures { IsTrue result ↔ AreSized instances.now }
{
    instances.iter().all(|watched| is_sized(watched))
}

/// Returns `true` if a window may have these sizes.
fn is_sized(watched: &Watched) -> bool
    ensures { IsTrue result ↔ AreSizes watched.now.window watched.now.epoch }
{
    1 <= watched.epoch && watched.epoch <= watched.window && watched.window <= MAX_SAMPLES
}

/// Returns `true` if these may be watched.
fn are_instances(instances: &[Watched]) -> bool
    ensures { IsTrue result ↔ AreInstances instances.now }
{
    if instances.is_empty() || instances.len() > MAX_INSTANCES {
        return false;
    }
    have_engines(instances) && are_rising(instances)
}

fn have_engines(instances: &[Watched]) -> bool
    ensures { IsTrue result ↔ All (λ w. IsEngine w.instance.engine) instances.now }
{
    instances
        .iter()
        .all(|watched| watched.instance.has_engine())
}

/// Returns `true` if each instance comes before the next.
fn are_rising(instances: &[Watched]) -> bool
    ensures { IsTrue result ↔ IsStrictlySortedBy instance_cmp (instances_of instances.now) }
{
    for i in 1..instances.len() {
        let above = &instances[i].instance;
        let below = &instances[i - 1].instance;
        if !below.compare(above.engine.as_slice(), &above.name).is_lt() {
            return false;
        }
    }
    true
}

/// Returns `true` if these may be the rules on this many instances.
fn are_rules(rules: &[Rule], instances: usize) -> bool
    ensures { IsTrue result ↔ AreRules instances rules.now }
{
    if rules.len() > MAX_RULES {
        return false;
    }
    are_on(rules, instances) && rules_rise(rules)
}

/// Returns `true` if each rule is on one of this many instances.
fn are_on(rules: &[Rule], instances: usize) -> bool
    ensures { IsTrue result ↔ All (λ r. r.instance < instances) rules.now }
{
    rules
        .iter()
        .all(|rule| usize::from(rule.instance()) < instances)
}

/// Returns `true` if each rule comes before the next.
fn rules_rise(rules: &[Rule]) -> bool
    ensures { IsTrue result ↔ IsStrictlySortedBy rule_cmp rules.now }
{
    for i in 1..rules.len() {
        if !compare(&rules[i - 1], &rules[i]).is_lt() {
            return false;
        }
    }
    true
}

/// Orders rules by instance, rising threshold and falling threshold.
#[tactic(auto, unfolding(crate::specs::RuleOrder::rule_cmp))]
fn compare(a: &Rule, b: &Rule) -> Ordering
    ensures { result ≡ rule_cmp a.now b.now }
{
    a.instance()
        .cmp(&b.instance())
        .then(a.rising().cmp(&b.rising()))
        .then(a.falling().cmp(&b.falling()))
}
