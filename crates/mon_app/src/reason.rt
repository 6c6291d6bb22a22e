//! The system's reasons for failures of sockets.

ghost use Rattle.std.specs.Prelude.{◌≡◌};
ghost use Rattle.mon_app.specs.AppFault.{reason_of, text_of_reason};

use std::io;

/// Why the system says that a socket failed.
#[derive(Clone, Copy, Debug, PartialEq, Eq)]
pub enum SocketReason {
    /// Another socket is bound to the address and port.
    AddressInUse,
    /// The address is none of this host's.
    AddressNotAvailable,
    /// As for a port below 1024.
    PermissionDenied,
    HostUnreachable,
    NetworkUnreachable,
    NetworkDown,
    /// Something else, or nothing that the system said.
    Other,
}

impl SocketReason {
    /// The reason that a failed call gives.
    pub fn of(kind: io::ErrorKind) -> SocketReason
        ensures { result ≡ reason_of kind }
    {
        match kind {
            io::ErrorKind::AddrInUse => SocketReason::AddressInUse,
            io::ErrorKind::AddrNotAvailable => SocketReason::AddressNotAvailable,
            io::ErrorKind::PermissionDenied => SocketReason::PermissionDenied,
            io::ErrorKind::HostUnreachable => SocketReason::HostUnreachable,
            io::ErrorKind::NetworkUnreachable => SocketReason::NetworkUnreachable,
            io::ErrorKind::NetworkDown => SocketReason::NetworkDown,
            _ => SocketReason::Other,
        }
    }

    /// The reason in words, as a line on standard error has it.
    pub fn text(self) -> &'static str
        ensures { result.now ≡ text_of_reason self }
    {
        match self {
            SocketReason::AddressInUse => "the address is in use",
            SocketReason::AddressNotAvailable => "the address is not available",
            SocketReason::PermissionDenied => "permission is denied",
            SocketReason::HostUnreachable => "the host is unreachable",
            SocketReason::NetworkUnreachable => "the network is unreachable",
            SocketReason::NetworkDown => "the network is down",
            SocketReason::Other => "another reason",
        }
    }
}
