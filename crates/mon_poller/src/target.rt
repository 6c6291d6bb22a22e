//! Targets: which agents are polled, and for what.

ghost use Rattle.std.specs.Prelude.{◌≡◌, ◌↔◌, ◌≤◌, All, IfOk, IsTrue, length};
ghost use Rattle.mon_poller.specs.Target.{AreTargets, IsTarget};

use mon_ber::Octets;
use mon_oid::Oid;
use mon_udp::Addr;
use std::alloc::{AllocError, Global};
use std::marker::Model;

/// The most octets of a community.
const MAX_COMMUNITY: usize = 512;

/// The most tries of a target.
const MAX_TRIES: u8 = 8;

/// The most objects of a target.
const MAX_OBJECTS: usize = 16;

/// The most targets.
const MAX_TARGETS: usize = 64;

/// An object that is polled.
#[derive(Debug, PartialEq, Eq)]
pub struct Object {
    /// The number of its instance in the watch.
    pub instance: u16,
    /// The name of the object's variable.
    pub name: Oid,
    /// The name of its discontinuity indicator (RFC 2578 section 7.1.6), if one is asked for with
    /// it.
    pub discontinuity: Option<Oid>,
}

// By hand: where one is let go, a proof has one call and not a drop of each field.
impl Drop for Object {
    fn drop(self) {
        let Object {
            instance: _,
            name: _,
            discontinuity: _,
        } = self;
    }
}

impl Object {
    /// An equal object.
    pub fn try_clone(&self, alloc: Global) -> Result<Self, AllocError>
        ensures { IfOk result (λ o. o ≡ self.now) }
    {
        let discontinuity = match &self.discontinuity {
            Some(name) => Some(name.try_clone(alloc)?),
            None => None,
        };
        Ok(Object {
            instance: self.instance,
            name: self.name.try_clone(alloc)?,
            discontinuity,
        })
    }
}

/// Objects in the order in which they are asked for. Contracts see their list.
#[derive(Debug, Drop)]
pub struct Objects {
    items: Vec<Object>,
}

impl Model for Objects {
    ghost use Rattle.std.specs.Prelude.{List};
    ghost use Rattle.mon_poller.specs.declared.target.Object.{Object};

    ghost Value = { List Object };

    ghost view = { λ o. o.items.items };
}

impl Objects {
    /// These objects, in this order.
    pub fn new(items: Vec<Object>) -> Self
        ensures { result ≡ items.items }
    {
        Objects { items }
    }

    /// The objects, in their order.
    pub fn as_slice(&self) -> &[Object]
        ensures { result.now ≡ self.now }
    {
        self.items.as_slice()
    }

    /// Equal objects, in this order.
    pub fn try_clone(&self, alloc: Global) -> Result<Self, AllocError>
        ensures { IfOk result (λ o. o ≡ self.now) }
    {
        Ok(Objects::new(copy_objects(alloc, self.items.as_slice())?))
    }
}

/// Equal objects, in this order.
fn copy_objects(alloc: Global, all: &[Object]) -> Result<Vec<Object>, AllocError>
    ensures { IfOk result (λ v. v.items ≡ all.now) }
{
    let mut copies = Vec::with_capacity(alloc, all.len())?;
    for object in all {
        copies.push(object.try_clone(alloc)?)?;
    }
    Ok(copies)
}

/// An agent that is polled.
#[derive(Debug)]
pub struct Target {
    /// The address of its agent, from which its responses come.
    pub address: Addr,
    /// The community of requests and responses, 1 to 512 octets.
    pub community: Octets,
    /// The engine id that its responses must name, 5 to 32 octets (RFC 3411 section 5,
    /// snmpEngineID).
    pub engine: Octets,
    /// How often a poll is sent in all, 1 to 8.
    pub tries: u8,
    /// What it is asked for, 1 to 16 objects.
    pub objects: Objects,
}

// By hand: where one is let go, a proof has one call and not a drop of each field.
impl Drop for Target {
    fn drop(self) {
        let Target {
            address: _,
            community: _,
            engine: _,
            tries: _,
            objects: _,
        } = self;
    }
}

impl Target {
    /// Returns `true` if the target is within its limits: a community of 1 to 512 octets, an engine
    /// id of 5 to 32, 1 to 8 tries, and 1 to 16 objects.
    fn is_within_limits(&self) -> bool
        ensures { IsTrue result ↔ IsTarget self.now }
    {
        let community = self.community.as_slice().len();
        let engine = self.engine.as_slice().len();
        let objects = self.objects.as_slice().len();
        1 <= community
            && community <= MAX_COMMUNITY
            && 5 <= engine
            && engine <= 32
            && 1 <= self.tries
            && self.tries <= MAX_TRIES
            && 1 <= objects
            && objects <= MAX_OBJECTS
    }

    /// An equal target.
    pub fn try_clone(&self, alloc: Global) -> Result<Self, AllocError>
        ensures { IfOk result (λ t. t ≡ self.now) }
    {
        Ok(Target {
            address: self.address,
            community: self.community.try_clone(alloc)?,
            engine: self.engine.try_clone(alloc)?,
            tries: self.tries,
            objects: self.objects.try_clone(alloc)?,
        })
    }
}

/// Returns `true` if these may be polled: 1 to 64 targets, each within its limits.
pub fn are_targets(targets: &[Target]) -> bool
    ensures { IsTrue result ↔ AreTargets targets.now }
{
    if targets.is_empty() || targets.len() > MAX_TARGETS {
        return false;
    }
    targets.iter().all(|target| target.is_within_limits())
}
