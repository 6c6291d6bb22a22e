//! Targets with what their polls ask for, which is written once.

ghost use Rattle.std.specs.Prelude.{◌≡◌, ◌<◌, ◌^◌, IfOk, length};
ghost use Rattle.mon_poller.specs.Target.{AreTargets, SpellNames, poll_names, poll_octets, target_at};

use crate::asking::{asked_octets, poll_octets, spelled_names};
use crate::names::Names;
use crate::target::Target;
use mon_ber::Octets;
use std::alloc::{AllocError, Global};
use std::marker::Model;

/// Targets, and for each of them the variable bindings of its polls as its datagrams have them, and
/// the names in them. Contracts see the targets.
pub(crate) struct PolledTargets {
    targets: Vec<Target>,
    lists: Vec<Octets>,
    names: Vec<Names>,
}

// By hand: where one is let go, a proof has one call and not a drop of each field.
impl Drop for PolledTargets {
    fn drop(self) {
        let PolledTargets {
            targets: _,
            lists: _,
            names: _,
        } = self;
    }
}

impl Model for PolledTargets {
    ghost use Rattle.std.specs.Prelude.{List};
    ghost use Rattle.mon_poller.specs.Target.{AreAsked, AreNamed};
    ghost use Rattle.mon_poller.specs.declared.target.Target.{Target};

    ghost Value = { List Target };

    ghost view = { λ a. a.targets.items };

    ghost invariant = { λ a. AreAsked a.targets.items a.lists.items
        × AreNamed a.targets.items a.names.items };
}

impl PolledTargets {
    /// These targets, with what their polls ask for.
    pub(crate) fn new(alloc: Global, targets: Vec<Target>) -> Result<Self, AllocError>
        requires { AreTargets targets.items }
        ensures { IfOk result (λ a. a ≡ targets.items) }
    {
        let mut lists = Vec::with_capacity(alloc, targets.len())?;
        let mut names = Vec::with_capacity(alloc, targets.len())?;
        for target in targets.as_slice() {
            lists.push(asked_octets(alloc, target)?)?;
            names.push(spelled_names(alloc, target)?)?;
        }
        Ok(PolledTargets {
            targets,
            lists,
            names,
        })
    }

    /// The targets.
    pub(crate) fn as_slice(&self) -> &[Target]
        ensures { result.now ≡ self.now }
    {
        self.targets.as_slice()
    }

    /// The target of this number.
    pub(crate) fn at(&self, number: usize) -> &Target
        requires { number < length self.now }
        ensures { result.now ≡ target_at self.now number }
    {
        &self.targets[number]
    }

    /// The names of the polls of the target of this number, each as it is spelled in a datagram.
    pub(crate) fn names(&self, number: usize) -> &Names
        requires { number < length self.now }
        ensures { SpellNames result.now (poll_names (target_at self.now number)) }
    {
        &self.names[number]
    }

    /// The datagram of a poll of the target of this number.
    pub(crate) fn poll(&self, alloc: Global, number: usize, id: u32) -> Result<Octets, AllocError>
        requires targets { AreTargets self.now }
        requires number { number < length self.now }
        requires id { id < 2 ^ 31 }
        ensures { IfOk result (λ o. o ≡ poll_octets (target_at self.now number) id) }
    {
        poll_octets(
            alloc,
            &self.targets[number],
            self.lists[number].as_slice(),
            id,
        )
    }
}
