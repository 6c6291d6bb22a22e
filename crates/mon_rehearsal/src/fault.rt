//! Why a script was not read, or not rehearsed.

ghost use Rattle.std.specs.Prelude.{◌≡◌, codes};
ghost use Rattle.mon_rehearsal.specs.Fault.{innermost_of, name_of, not_opened, number_of, rehearsal_fault};
ghost use Rattle.mon_rehearsal.specs.declared.fault.RehearsalFault.TheVariants as rehearsal;
ghost use Rattle.mon_rehearsal.specs.declared.fault.ScriptFault.TheVariants as script;

use mon_station::Innermost;
use mon_world::WorldFault;
use std::alloc::{AllocError, AllocFailed};
use thiserror::Error;

/// Why a script was not read.
#[derive(Clone, Copy, Debug, Error)]
pub enum ScriptFault {
    /// Memory was refused.
    #[error("out of memory")]
    OutOfMemory,
    /// The line of this number, counted from 1, is the first that says no step.
    #[error("line {0} of the script is no step")]
    BadScript(u64),
}

/// Why a rehearsal was not printed.
#[derive(Clone, Copy, Debug, Error)]
pub enum RehearsalFault {
    /// Memory was refused.
    #[error("out of memory")]
    OutOfMemory,
    /// The line of this number, counted from 1, is the first that says no step. No step was made.
    #[error("line {0} of the script is no step")]
    BadScript(u64),
    /// The stations were not opened.
    #[error("the stations were not opened: {0}")]
    World(WorldFault),
}

impl ScriptFault {
    /// Returns the number of the fault on the line of standard error: 1 or 7.
    pub fn number(self) -> u8
        ensures { result ≡ number_of self }
    {
        match self {
            ScriptFault::OutOfMemory => 1,
            ScriptFault::BadScript(_) => 7,
        }
    }

    /// Returns the name of the fault on the line of standard error.
    pub fn name(self) -> &'static str
        ensures { result.now ≡ name_of self }
    {
        match self {
            ScriptFault::OutOfMemory => "OutOfMemory",
            ScriptFault::BadScript(_) => "BadScript",
        }
    }
}

impl RehearsalFault {
    /// The innermost fault: the world's or a station's, where the stations were not opened. A
    /// script is a text that the program was given, so its faults are those of a text, as 1 and 7
    /// of mon_app.
    pub fn innermost(self) -> Innermost
        ensures part { result.part.now ≡ (innermost_of self).part }
        ensures number { result.number ≡ (innermost_of self).number }
        ensures name { result.name.now ≡ (innermost_of self).name }
    {
        match self {
            RehearsalFault::OutOfMemory => of_script(ScriptFault::OutOfMemory),
            RehearsalFault::BadScript(line) => of_script(ScriptFault::BadScript(line)),
            RehearsalFault::World(fault) => fault.innermost(),
        }
    }
}

fn of_script(fault: ScriptFault) -> Innermost
    ensures part { result.part.now ≡ codes "mon_app" }
    ensures number { result.number ≡ number_of fault }
    ensures name { result.name.now ≡ name_of fault }
{
    Innermost::new("mon_app", fault.number(), fault.name())
}

impl From<AllocError> for ScriptFault {
    ghost from_gives = { λ _ fault. fault ≡ script.OutOfMemory };

    fn from(_e: AllocError) -> ScriptFault {
        ScriptFault::OutOfMemory
    }
}

impl<T: Drop> From<AllocFailed<T>> for ScriptFault {
    ghost from_gives = { λ _ fault. fault ≡ script.OutOfMemory };

    fn from(_e: AllocFailed<T>) -> ScriptFault {
        ScriptFault::OutOfMemory
    }
}

impl From<AllocError> for RehearsalFault {
    ghost from_gives = { λ _ fault. fault ≡ rehearsal.OutOfMemory };

    fn from(_e: AllocError) -> RehearsalFault {
        RehearsalFault::OutOfMemory
    }
}

impl<T: Drop> From<AllocFailed<T>> for RehearsalFault {
    ghost from_gives = { λ _ fault. fault ≡ rehearsal.OutOfMemory };

    fn from(_e: AllocFailed<T>) -> RehearsalFault {
        RehearsalFault::OutOfMemory
    }
}

impl From<ScriptFault> for RehearsalFault {
    ghost from_gives = { λ part fault. fault ≡ rehearsal_fault part };

    fn from(fault: ScriptFault) -> RehearsalFault {
        match fault {
            ScriptFault::OutOfMemory => RehearsalFault::OutOfMemory,
            ScriptFault::BadScript(line) => RehearsalFault::BadScript(line),
        }
    }
}

/// The world's lack of memory is the rehearsal's own.
impl From<WorldFault> for RehearsalFault {
    ghost from_gives = { λ part fault. fault ≡ not_opened part };

    fn from(fault: WorldFault) -> RehearsalFault {
        match fault {
            WorldFault::OutOfMemory => RehearsalFault::OutOfMemory,
            other => RehearsalFault::World(other),
        }
    }
}
