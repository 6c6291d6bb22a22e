//! Why a station gave no answer over HTTP.

ghost use Rattle.mon_app.specs.AppFault.{reason_of};
ghost use Rattle.mon_health_commands.specs.Trouble.{IsBroken, IsTroubleFault, IsTroubled, broken_text, trouble_text};

use mon_app::{AppFault, SocketReason};
use mon_console::Failure;
use mon_faults::Fault;
use mon_station::Innermost;
use std::alloc::Global;
use std::fmt;
use std::io::ErrorKind;

/// The name of this crate, as the line of a fault has it.
const PART: &str = "mon_health_commands";

/// Why a station gave no answer over HTTP.
#[derive(Clone, Copy)]
pub(crate) enum Trouble {
    /// A call of the stream failed, or none could be connected.
    Broken(ErrorKind),
    /// The stream took no more octets, or ended before the end of a response's head.
    Closed,
    /// The head of the response came in too many pieces.
    Scattered,
    /// What came is no response of HTTP/1.1.
    Malformed,
    /// The response has this status, which is not 200.
    Status(u16),
}

impl fmt::Display for Trouble {
    ghost use Rattle.std.specs.Prelude.{Some};
    ghost use Rattle.mon_health_commands.specs.Trouble.{trouble_text};

    ghost output = { λ t. Some (trouble_text t) };

    fn fmt<W: fmt::Write>(&self, f: &mut fmt::Formatter<W>) -> fmt::Result {
        match self {
            Trouble::Broken(ErrorKind::TimedOut | ErrorKind::WouldBlock) => {
                f.write_str("no answer within 2 seconds")
            }
            Trouble::Broken(ErrorKind::ConnectionRefused) => f.write_str("nothing listens there"),
            Trouble::Broken(kind) => {
                let reason = SocketReason::of(*kind).text();
                write!(f, "the connection failed: {reason}")
            }
            Trouble::Closed => f.write_str("the connection was closed before an answer"),
            Trouble::Scattered => f.write_str("the answer came in more than 8 pieces"),
            Trouble::Malformed => f.write_str("the answer is none of HTTP/1.1"),
            Trouble::Status(status) => write!(f, "the station answered with status {status}"),
        }
    }
}

impl Trouble {
    /// Returns the fault of the command.
    fn fault(self) -> Fault
        ensures { IsTroubleFault self result }
    {
        match self {
            Trouble::Broken(kind) => broken_fault(kind),
            Trouble::Closed | Trouble::Scattered | Trouble::Malformed => {
                Fault::Other(Innermost::new(PART, 3, "BadResponse"))
            }
            Trouble::Status(_) => Fault::Other(Innermost::new(PART, 2, "Unhealthy")),
        }
    }

    /// Returns the failure of the command, at this address.
    pub(crate) fn failure(self, alloc: Global, address: &str) -> Failure
        ensures { IsTroubled address.now self result }
    {
        Failure::said(self.fault(), format!(in alloc; "{address}: {self}"))
    }
}

/// Returns the fault of a call that failed.
fn broken_fault(kind: ErrorKind) -> Fault
    ensures { IsBroken kind result }
{
    match kind {
        ErrorKind::TimedOut | ErrorKind::WouldBlock => Fault::App(AppFault::Timeout),
        _ => Fault::App(AppFault::SocketFault {
            reason: SocketReason::of(kind),
        }),
    }
}
