ghost use Rattle.std.specs.Prelude.{◌≡◌, IfOk};
ghost use Rattle.mon_mib.specs.Shown.{got_of};

use crate::got::Got;
use mon_ber::{Octets, Value};
use std::alloc::{AllocError, Global};

/// What is at a name, where octets that the agent keeps are lent and not copied.
#[derive(Drop)]
pub enum Shown<'a> {
    /// A variable whose value is these octets.
    Octets(&'a [u8]),
    /// Anything else.
    Other(Got),
}

impl Shown<'_> {
    /// What is at the name, with a copy of octets that were lent.
    pub(crate) fn into_got(self, alloc: Global) -> Result<Got, AllocError>
        ensures { IfOk result (λ got. got ≡ got_of self.entry) }
    {
        match self {
            Shown::Octets(octets) => Ok(Got::Found(Value::Octets(Octets::from_slice(
                alloc, octets,
            )?))),
            Shown::Other(got) => Ok(got),
        }
    }
}
