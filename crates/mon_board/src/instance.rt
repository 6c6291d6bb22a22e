ghost use Rattle.std.specs.Prelude.{◌≡◌, IfOk, IsTrue, ◌↔◌};
ghost use Rattle.mon_board.specs.Instance.{instance_cmp, named, IsEngine};

use mon_ber::Octets;
use mon_oid::Oid;
use std::alloc::{AllocError, Global};
use std::cmp::Ordering;

/// An instance of a managed object at an agent, which its engine id names (RFC 3411 section 5,
/// snmpEngineID).
#[derive(Debug, PartialEq, Eq)]
pub struct Instance {
    /// The agent's engine id, 5 to 32 octets.
    pub engine: Octets,
    /// The object's name with its instance, as in ifInOctets.1.
    pub name: Oid,
}

// By hand: where one is let go, a proof has one call and not a drop of each field.
impl Drop for Instance {
    fn drop(self) {
        let Instance { engine: _, name: _ } = self;
    }
}

impl Instance {
    /// Orders this instance against the one of the name at the engine: by the engine's octets, and
    /// then by the name.
    #[tactic(auto, unfolding(crate::specs::Instance::instance_cmp))]
    pub fn compare(&self, engine: &[u8], name: &Oid) -> Ordering
        ensures { result ≡ instance_cmp self.now (named engine.now name.now) }
    {
        let order = self.engine.as_slice().cmp(&engine);
        if order.is_ne() {
            return order;
        }
        self.name.parts().cmp(&name.parts())
    }

    /// Returns `true` if the engine id has 5 to 32 octets.
    pub(crate) fn has_engine(&self) -> bool
        ensures { IsTrue result ↔ IsEngine self.now.engine }
    {
        let len = self.engine.as_slice().len();
        5 <= len && len <= 32
    }

    /// An equal instance.
    pub(crate) fn try_clone(&self, alloc: Global) -> Result<Self, AllocError>
        ensures { IfOk result (λ i. i ≡ self.now) }
    {
        Ok(Instance {
            engine: self.engine.try_clone(alloc)?,
            name: self.name.try_clone(alloc)?,
        })
    }
}

/// What a watch has of an instance.
#[derive(Debug, PartialEq, Eq)]
pub struct Watched {
    /// The instance that is sampled.
    pub instance: Instance,
    /// The name of its discontinuity indicator (RFC 2578 section 7.1.6), where one is polled with
    /// it.
    pub discontinuity: Option<Oid>,
    /// How many samples its window holds, 1 to 64.
    pub window: usize,
    /// How many of these may have one boots number, 1 to the window.
    pub epoch: usize,
}

// By hand: where one is let go, a proof has one call and not a drop of each field.
impl Drop for Watched {
    fn drop(self) {
        let Watched {
            instance: _,
            discontinuity: _,
            window: _,
            epoch: _,
        } = self;
    }
}

impl Watched {
    /// An equal value.
    pub(crate) fn try_clone(&self, alloc: Global) -> Result<Self, AllocError>
        ensures { IfOk result (λ w. w ≡ self.now) }
    {
        let discontinuity = match &self.discontinuity {
            Some(name) => Some(name.try_clone(alloc)?),
            None => None,
        };
        Ok(Watched {
            instance: self.instance.try_clone(alloc)?,
            discontinuity,
            window: self.window,
            epoch: self.epoch,
        })
    }
}
