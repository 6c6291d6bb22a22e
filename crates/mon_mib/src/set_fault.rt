//! Why there is no plan for a Set.

ghost use Rattle.std.specs.Prelude.{◌≡◌};
ghost use Rattle.mon_mib.specs.declared.set_fault.SetFault.TheVariants.{OutOfMemory};
ghost use Rattle.mon_mib.specs.SetStatus.{number_of, name_of};

use crate::set_status::SetStatus;
use std::alloc::{AllocError, AllocFailed};
use thiserror::Error;

/// Why there is no plan for the bindings of a Set.
#[derive(Clone, Copy, Debug, Error)]
pub enum SetFault {
    /// Memory was refused.
    #[error("out of memory")]
    OutOfMemory,
    /// A binding is refused, the first of those that are.
    #[error("binding {index} is refused")]
    Refused {
        /// Why.
        status: SetStatus,
        /// Which binding, counted from 1.
        index: usize,
    },
}

impl SetFault {
    /// Returns the number by which a printed line names the fault.
    pub fn number(self) -> u8
        ensures { result ≡ number_of self }
    {
        match self {
            SetFault::OutOfMemory => 1,
            SetFault::Refused { .. } => 2,
        }
    }

    /// Returns the name of the fault in a printed line.
    pub fn name(self) -> &'static str
        ensures { result.now ≡ name_of self }
    {
        match self {
            SetFault::OutOfMemory => "OutOfMemory",
            SetFault::Refused { .. } => "Refused",
        }
    }
}

impl From<AllocError> for SetFault {
    ghost from_gives = { λ _ e. e ≡ OutOfMemory };

    fn from(_e: AllocError) -> SetFault {
        SetFault::OutOfMemory
    }
}

impl<T: Drop> From<AllocFailed<T>> for SetFault {
    ghost from_gives = { λ _ e. e ≡ OutOfMemory };

    fn from(_e: AllocFailed<T>) -> SetFault {
        SetFault::OutOfMemory
    }
}
