//! What may go wrong in a command, and whose fault it is.

ghost use Rattle.std.specs.Prelude.{◌≡◌};
ghost use Rattle.mon_faults.specs.Fault.{innermost_of, is_no_memory, lasts, station_fault};

use mon_app::{AppFault, SocketReason};
use mon_disk::KeeperFault;
use mon_mib::DeviceFault;
use mon_saved::ImageFault;
use mon_settings::SettingsFault;
use mon_smi::{NamesFault, TextFault};
use mon_station::{Innermost, StationFault};
use thiserror::Error;

/// A fault of a command. As a text it says what was wrong, with no word of where.
#[derive(Clone, Copy, Debug, Error)]
pub enum Fault {
    /// Of the arguments and streams of a command, of a question or of a script.
    #[error("{0}")]
    App(AppFault),
    /// Of names.
    #[error("{0}")]
    Names(NamesFault),
    /// Of a module's text.
    #[error("{0}")]
    Text(TextFault),
    /// Of settings.
    #[error("{0}")]
    Settings(SettingsFault),
    /// Of an agent's device.
    #[error("{0}")]
    Device(DeviceFault),
    /// Of a station's file.
    #[error("{0}")]
    Keeper(KeeperFault),
    /// Of what a station's file holds.
    #[error("{0}")]
    Image(ImageFault),
    /// Of a station.
    #[error("{0}")]
    Station(StationFault),
    /// Of a station that ends since its settings changed, to be started with them.
    #[error("the settings changed: the station is to be started with them")]
    SettingsChanged,
    /// Of a crate that few commands call: its line.
    #[error("{0}")]
    Other(Innermost),
}

impl Fault {
    /// The innermost fault, which the line on standard error names.
    pub fn innermost(self) -> Innermost
        ensures part { result.part.now ≡ (innermost_of self).part }
        ensures number { result.number ≡ (innermost_of self).number }
        ensures name { result.name.now ≡ (innermost_of self).name }
    {
        match self {
            Fault::App(fault) => Innermost::new("mon_app", fault.number(), fault.name()),
            Fault::Names(fault) => Innermost::new("mon_smi", fault.number(), fault.name()),
            Fault::Text(fault) => Innermost::new("mon_smi", fault.number(), fault.name()),
            Fault::Settings(fault) => Innermost::new("mon_settings", fault.number(), fault.name()),
            Fault::Device(fault) => Innermost::new("mon_mib", fault.number(), fault.name()),
            Fault::Keeper(fault) => Innermost::new("mon_disk", fault.number(), fault.name()),
            Fault::Image(fault) => Innermost::new("mon_saved", fault.number(), fault.name()),
            Fault::Station(fault) => fault.innermost(),
            Fault::SettingsChanged => Innermost::new("mon_station_commands", 2, "SettingsChanged"),
            Fault::Other(innermost) => innermost,
        }
    }

    /// Returns `true` if the fault stays until somebody changes something: the arguments, the
    /// settings, a module, the station's file, or what has its address. So do arguments that are
    /// not read, and an address that another program has or a port that the system does not permit.
    pub fn lasts(self) -> bool
        ensures { result ≡ lasts self }
    {
        match self {
            Fault::App(AppFault::BadText) => true,
            Fault::App(AppFault::SocketFault { reason }) => matches!(
                reason,
                SocketReason::AddressInUse | SocketReason::PermissionDenied
            ),
            Fault::Names(fault) => is_no_memory(fault.number()),
            Fault::Text(fault) => is_no_memory(fault.number()),
            Fault::Settings(fault) => is_no_memory(fault.number()),
            Fault::Keeper(fault) => matches!(
                fault,
                KeeperFault::Damaged | KeeperFault::NoMoreGenerations | KeeperFault::TooLarge
            ),
            Fault::Image(fault) => is_no_memory(fault.number()),
            Fault::Station(fault) => matches!(fault, StationFault::NoMoreIncarnations),
            Fault::Other(innermost) => is_no_memory(innermost.number),
            Fault::App(_) | Fault::Device(_) | Fault::SettingsChanged => false,
        }
    }
}

/// The number of each crate's fault that memory was refused.
const OUT_OF_MEMORY: u8 = 1;

/// Returns `true` for the number of a fault that is not refused memory.
fn is_no_memory(number: u8) -> bool
    ensures { result ≡ is_no_memory number }
{
    number != OUT_OF_MEMORY
}

/// A fault of a station's file is the file's own.
impl From<StationFault> for Fault {
    ghost from_gives = { λ part fault. fault ≡ station_fault part };

    fn from(fault: StationFault) -> Fault {
        match fault {
            StationFault::Keeper(fault) => Fault::Keeper(fault),
            StationFault::Image(fault) => Fault::Image(fault),
            other => Fault::Station(other),
        }
    }
}
