//! The fault of an agent.

ghost use Rattle.std.specs.Prelude.{◌≡◌};
ghost use Rattle.mon_agent.specs.Fault.{number_of, name_of};
ghost use Rattle.mon_agent.specs.declared.fault.AgentFault.TheVariants.{OutOfMemory};

use std::alloc::{AllocError, AllocFailed};
use thiserror::Error;

/// Why an agent could not answer a datagram. After it everything is as it was, the counters too.
#[derive(Clone, Copy, Debug, PartialEq, Eq, Error)]
pub enum AgentFault {
    /// No memory was left.
    #[error("out of memory")]
    OutOfMemory,
}

impl AgentFault {
    /// Returns the number of the fault on a printed line.
    pub fn number(self) -> u8
        ensures { result ≡ number_of self }
    {
        match self {
            AgentFault::OutOfMemory => 1,
        }
    }

    /// Returns the name of the fault on a printed line: the variant's.
    pub fn name(self) -> &'static str
        ensures { result.now ≡ name_of self }
    {
        match self {
            AgentFault::OutOfMemory => "OutOfMemory",
        }
    }
}

impl From<AllocError> for AgentFault {
    ghost from_gives = { λ _ e. e ≡ OutOfMemory };

    fn from(_e: AllocError) -> AgentFault {
        AgentFault::OutOfMemory
    }
}

impl<T: Drop> From<AllocFailed<T>> for AgentFault {
    ghost from_gives = { λ _ e. e ≡ OutOfMemory };

    fn from(_e: AllocFailed<T>) -> AgentFault {
        AgentFault::OutOfMemory
    }
}
