//! Why a binding asks for no change.

ghost use Rattle.std.specs.Prelude.{◌≡◌};
ghost use Rattle.mon_mib.specs.declared.binding_fault.BindingFault.TheVariants.{OutOfMemory, Refused};
ghost use Rattle.mon_mib.specs.Tried.{fault_at};

use crate::set_fault::SetFault;
use crate::set_status::SetStatus;
use std::alloc::AllocError;

/// Why a binding asks for no change.
#[derive(Clone, Copy)]
pub(crate) enum BindingFault {
    /// Memory was refused.
    OutOfMemory,
    /// The binding is refused.
    Refused(SetStatus),
}

impl BindingFault {
    /// Returns the fault of the binding of a number, counted from 1.
    pub(crate) fn at(self, index: usize) -> SetFault
        ensures { result ≡ fault_at self index }
    {
        match self {
            BindingFault::OutOfMemory => SetFault::OutOfMemory,
            BindingFault::Refused(status) => SetFault::Refused { status, index },
        }
    }
}

impl From<AllocError> for BindingFault {
    ghost from_gives = { λ _ e. e ≡ OutOfMemory };

    fn from(_e: AllocError) -> BindingFault {
        BindingFault::OutOfMemory
    }
}

impl From<SetStatus> for BindingFault {
    ghost from_gives = { λ s e. e ≡ Refused s };

    fn from(status: SetStatus) -> BindingFault {
        BindingFault::Refused(status)
    }
}
