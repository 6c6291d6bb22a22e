//! Why a walk failed.

ghost use Rattle.std.specs.Prelude.{◌≡◌};
ghost use Rattle.mon_app.specs.declared.fault.AppFault.TheVariants.{OutOfMemory};
ghost use Rattle.mon_client.specs.declared.fault.WalkFault.TheVariants.{App};

use mon_app::AppFault;
use mon_host::Reason;
use std::alloc::AllocError;

/// Why a walk ended before its end.
#[derive(Debug, Drop)]
pub enum WalkFault {
    /// A fault that a command fails with.
    App(AppFault),
    /// A line could not be printed, for this reason of the system's.
    Output(Reason),
}

impl From<AppFault> for WalkFault {
    ghost from_gives = { λ fault e. e ≡ App fault };

    fn from(fault: AppFault) -> WalkFault {
        WalkFault::App(fault)
    }
}

impl From<AllocError> for WalkFault {
    ghost from_gives = { λ _ e. e ≡ App OutOfMemory };

    fn from(_e: AllocError) -> WalkFault {
        WalkFault::App(AppFault::OutOfMemory)
    }
}
