//! Why a command failed, as its one line on standard error says.

ghost use Rattle.std.specs.Prelude.{◌≡◌};
ghost use Rattle.mon_app.specs.AppFault.{IsUnopened, number_of, name_of, of_stream, of_message, of_socket, reason_of};
ghost use Rattle.std.specs.IoError.{error_kind};
ghost use Rattle.mon_app.specs.declared.fault.AppFault.TheVariants.{OutOfMemory, SocketFault as FaultOfSocket};

use crate::reason::SocketReason;
use mon_pdu::PduFault;
use std::alloc::AllocError;
use std::io;
use thiserror::Error;

/// A socket, or what is used in its place, failed.
#[derive(Clone, Copy, Debug, PartialEq, Eq)]
pub struct SocketFault {
    /// The system's reason.
    pub reason: SocketReason,
}

/// Why a command of the program failed, where no crate below names a fault of its own, in the order
/// of the faults' numbers.
#[derive(Clone, Copy, Debug, Error)]
pub enum AppFault {
    #[error("out of memory")]
    OutOfMemory,
    #[error("no reply came")]
    Timeout,
    #[error("a file or a standard stream could not be read or written")]
    FileFault,
    /// A socket failed, for this reason of the system's.
    #[error("a socket could not be opened or used")]
    SocketFault { reason: SocketReason },
    #[error("the agent answered with a name that does not increase")]
    NotIncreasing,
    /// The error-status and the error-index of the agent's reply (RFC 3416 section 3). The status
    /// is not 0; the index is the place of the variable binding that is at fault, from 1, or 0
    /// where none is.
    #[error("the agent answered with an error status")]
    AgentStatus { status: i32, index: i32 },
    #[error("a word of the command line or a text is of no form that is read")]
    BadText,
}

impl AppFault {
    /// Returns the number of the fault on the line of standard error: 1 to 6, or 8.
    pub fn number(self) -> u8
        ensures { result ≡ number_of self }
    {
        match self {
            AppFault::OutOfMemory => 1,
            AppFault::Timeout => 2,
            AppFault::FileFault => 3,
            AppFault::SocketFault { .. } => 4,
            AppFault::NotIncreasing => 5,
            AppFault::AgentStatus { .. } => 6,
            AppFault::BadText => 8,
        }
    }

    /// Returns the name of the fault on the line of standard error.
    pub fn name(self) -> &'static str
        ensures { result.now ≡ name_of self }
    {
        match self {
            AppFault::OutOfMemory => "OutOfMemory",
            AppFault::Timeout => "Timeout",
            AppFault::FileFault => "FileFault",
            AppFault::SocketFault { .. } => "SocketFault",
            AppFault::NotIncreasing => "NotIncreasing",
            AppFault::AgentStatus { .. } => "AgentStatus",
            AppFault::BadText => "BadText",
        }
    }
}

impl From<AllocError> for AppFault {
    ghost from_gives = { λ _ e. e ≡ OutOfMemory };

    fn from(_e: AllocError) -> AppFault {
        AppFault::OutOfMemory
    }
}

impl From<SocketFault> for AppFault {
    ghost from_gives = { λ fault e. e ≡ FaultOfSocket fault.reason };

    fn from(fault: SocketFault) -> AppFault {
        AppFault::SocketFault {
            reason: fault.reason,
        }
    }
}

/// A failed read or write is a `FileFault`, unless memory ran out in it.
impl From<io::Error> for AppFault {
    ghost from_gives = { λ error fault. fault ≡ of_stream (error_kind error) };

    fn from(error: io::Error) -> AppFault {
        match error.kind() {
            io::ErrorKind::OutOfMemory => AppFault::OutOfMemory,
            _ => AppFault::FileFault,
        }
    }
}

/// A message for which there is no memory is out of memory; one that is too long for a datagram
/// cannot be sent.
impl From<PduFault> for AppFault {
    ghost from_gives = { λ pdu fault. fault ≡ of_message pdu };

    fn from(fault: PduFault) -> AppFault {
        match fault {
            PduFault::OutOfMemory => AppFault::OutOfMemory,
            _ => AppFault::BadText,
        }
    }
}

/// Returns the fault of a socket that could not be opened: `OutOfMemory` if memory ran out in it.
pub fn socket_fault(error: io::Error) -> AppFault
    ensures { result ≡ of_socket (error_kind error) }
{
    match error.kind() {
        io::ErrorKind::OutOfMemory => AppFault::OutOfMemory,
        kind => AppFault::SocketFault {
            reason: SocketReason::of(kind),
        },
    }
}

/// Returns the fault of a failed call of a socket.
pub fn socket_failure(error: io::Error) -> SocketFault
    ensures { result.reason ≡ reason_of (error_kind error) }
{
    SocketFault {
        reason: SocketReason::of(error.kind()),
    }
}

/// Returns the fault of a socket that could not be opened.
pub fn unopened(fault: AppFault) -> AppFault
    ensures { IsUnopened result }
{
    match fault {
        AppFault::SocketFault { reason } => AppFault::SocketFault { reason },
        _ => AppFault::OutOfMemory,
    }
}
