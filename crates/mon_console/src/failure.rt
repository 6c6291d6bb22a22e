//! Why a command failed, and where.

ghost use Rattle.std.specs.Prelude.{◌≡◌, ◌↔◌, IsTrue, false, option_map, string_bytes};
ghost use Rattle.std.specs.IoError.{error_kind};
ghost use Rattle.std.specs.Result.{result_ok};
ghost use Rattle.mon_app.specs.AppFault.{of_socket};
ghost use Rattle.mon_console.specs.Failure.{HasReason, IsOfSocket, IsOfStream, IsOfText, IsPlain, IsSecond, IsTold, IsUnopened};
ghost use Rattle.mon_faults.specs.Fault.{innermost_of, station_fault};
ghost use Rattle.mon_faults.specs.declared.fault.Fault.TheVariants.{App, Device, Names};
ghost use Rattle.mon_app.specs.declared.fault.AppFault.TheVariants.{OutOfMemory};
ghost use Rattle.mon_host.specs.Log.{GoesOnBy};
ghost use Rattle.mon_host.specs.Reason.{why};

use mon_app::{AppFault, SocketReason};
use mon_faults::{Fault, StationFault};
use mon_host::{Host, Level, Reason};
use mon_mib::DeviceFault;
use mon_smi::NamesFault;
use std::alloc::{AllocError, AllocFailed, Global};
use std::fmt::Display;
use std::io;

/// A fault, and what else is known of it: the file, the address or the argument in which it arose,
/// and what must be there.
#[derive(Debug)]
pub struct Failure {
    pub fault: Fault,
    more: Option<String>,
    /// `true` if the reader of what was printed went away.
    is_cut: bool,
}

// By hand: where one is let go, a proof has one call and not a drop of each field.
impl Drop for Failure {
    fn drop(self) {
        let Failure {
            fault: _,
            more: _,
            is_cut: _,
        } = self;
    }
}

impl Failure {
    /// A fault that says all itself.
    pub fn plain(fault: Fault) -> Self
        ensures { IsPlain fault result }
    {
        Failure {
            fault,
            more: None,
            is_cut: false,
        }
    }

    /// A fault, and a line that says more of it.
    pub fn said(fault: Fault, more: Result<String, AllocError>) -> Self
        ensures fault { result.fault ≡ fault }
        ensures more { result.more ≡ result_ok more }
        ensures whole { result.is_cut ≡ false }
    {
        Failure {
            fault,
            more: more.ok(),
            is_cut: false,
        }
    }

    /// A fault that arose at this place: a file or an address.
    pub fn at(alloc: Global, place: &str, fault: Fault) -> Self
        ensures fault { result.fault ≡ fault }
        ensures whole { result.is_cut ≡ false }
    {
        Failure::said(fault, format!(in alloc; "{place}: {fault}"))
    }

    /// Makes the failure of an argument or a text that is not what must be in its place.
    pub fn text(alloc: Global, place: &str, wanted: &str) -> Self
        ensures { IsOfText place.now wanted.now result }
    {
        let fault = Fault::App(AppFault::BadText);
        Failure::said(fault, format!(in alloc; "{place}: {wanted} is wanted"))
    }

    /// A file or a standard stream that could not be used, with the system's reason.
    pub fn stream(alloc: Global, place: &str, reason: Reason) -> Self
        ensures { IsOfStream place.now (why reason) result }
    {
        let Reason { kind, words } = reason;
        let fault = match kind {
            io::ErrorKind::OutOfMemory => AppFault::OutOfMemory,
            _ => AppFault::FileFault,
        };
        Failure {
            fault: Fault::App(fault),
            more: reason_line(alloc, place, words),
            is_cut: matches!(kind, io::ErrorKind::BrokenPipe),
        }
    }

    /// A socket that could not be had or used at this address, with the system's reason.
    pub fn socket<P: Display + Drop>(alloc: Global, address: P, error: io::Error) -> Self
        ensures fault { result.fault ≡ Fault.App (of_socket (error_kind error)) }
        ensures more { IsUnopened (P.output address) (of_socket (error_kind error)) result }
    {
        match error.kind() {
            io::ErrorKind::OutOfMemory => Failure::from(AppFault::OutOfMemory),
            kind => Failure::without_socket(alloc, address, SocketReason::of(kind)),
        }
    }

    /// A socket that could not be had or used at this address for this reason.
    pub fn without_socket<P: Display + Drop>(
        alloc: Global,
        address: P,
        reason: SocketReason,
    ) -> Self
        ensures { IsOfSocket (P.output address) reason result }
    {
        let why = reason.text();
        Failure::said(
            Fault::App(AppFault::SocketFault { reason }),
            format!(in alloc; "{address}: no socket could be opened or used: {why}"),
        )
    }

    /// Returns `true` if memory was refused.
    pub fn is_of_memory(&self) -> bool
        ensures { IsTrue result ↔ ((innermost_of self.now.fault).number ≡ 1) }
    {
        self.fault.innermost().number == OUT_OF_MEMORY
    }

    /// Returns `true` if the reader of what was printed went away, as `head -1` does after a line.
    pub fn is_cut(&self) -> bool
        ensures { result ≡ self.now.is_cut }
    {
        self.is_cut
    }

    /// Sends the fault's line to standard error, and a second one that says what was wrong and
    /// where, both of this level. If memory ran out, the first line says all.
    pub fn report<H: Host>(&self, host: &mut H, level: Level)
        ensures { GoesOnBy (IsTold level self.now) (H.log host.old) (H.log host.new) }
    {
        let innermost = self.fault.innermost();
        host.note(level, format_args!("snmpmon: {innermost}\n"));
        if innermost.number != OUT_OF_MEMORY {
            self.report_more(host, level);
        }
    }

    /// Sends the second line to standard error.
    fn report_more<H: Host>(&self, host: &mut H, level: Level)
        ensures { GoesOnBy (IsSecond level (option_map string_bytes self.now.more))
            (H.log host.old) (H.log host.new) }
    {
        match &self.more {
            Some(more) => host.note(level, format_args!("{more}\n")),
            None => {
                let fault = self.fault;
                host.note(level, format_args!("{fault}\n"));
            }
        }
    }
}

/// Returns the line of a file or a stream that failed, if there are words for why, and memory.
fn reason_line(alloc: Global, place: &str, words: Option<String>) -> Option<String>
    ensures { HasReason place.now (option_map string_bytes words) result }
{
    match words {
        Some(words) => format!(in alloc; "{place}: {words}").ok(),
        None => None,
    }
}

/// The number of each crate's fault that memory was refused.
const OUT_OF_MEMORY: u8 = 1;

impl From<AppFault> for Failure {
    ghost from_gives = { λ fault failure. IsPlain (App fault) failure };

    fn from(fault: AppFault) -> Failure {
        Failure::plain(Fault::App(fault))
    }
}

impl From<NamesFault> for Failure {
    ghost from_gives = { λ fault failure. IsPlain (Names fault) failure };

    fn from(fault: NamesFault) -> Failure {
        Failure::plain(Fault::Names(fault))
    }
}

impl From<DeviceFault> for Failure {
    ghost from_gives = { λ fault failure. IsPlain (Device fault) failure };

    fn from(fault: DeviceFault) -> Failure {
        Failure::plain(Fault::Device(fault))
    }
}

impl From<StationFault> for Failure {
    ghost from_gives = { λ fault failure. IsPlain (station_fault fault) failure };

    fn from(fault: StationFault) -> Failure {
        Failure::plain(Fault::from(fault))
    }
}

impl From<AllocError> for Failure {
    ghost from_gives = { λ _ failure. IsPlain (App OutOfMemory) failure };

    fn from(_error: AllocError) -> Failure {
        Failure::plain(Fault::App(AppFault::OutOfMemory))
    }
}

impl<T: Drop> From<AllocFailed<T>> for Failure {
    ghost from_gives = { λ _ failure. IsPlain (App OutOfMemory) failure };

    fn from(_error: AllocFailed<T>) -> Failure {
        Failure::plain(Fault::App(AppFault::OutOfMemory))
    }
}
