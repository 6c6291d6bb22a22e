//! What opens a station's file as a disk.

use mon_disk::{Disk, DiskOver, FileSystem, OpenFault, SystemFile};
use std::io;

/// Opens files as disks. Code that is generic over it knows only from the call that a disk was
/// opened, or why not.
pub trait OpensDisks {
    ghost use Rattle.std.specs.Prelude.{List, ℕ, Result};
    ghost use Rattle.mon_disk.specs.declared.open_fault.OpenFault.{OpenFault as AnyFault};

    /// A file that is open as a disk.
    type Disk: Disk + Drop;

    // It was asked to open the file at this path as a disk, and to make one if there is none.
    ghost asked_disk: { Self → List ℕ → Result Self.Disk AnyFault → Type 0 };

    /// Opens the file at this path as a disk, and makes an empty one if there is none. No other
    /// process can open it as a disk as long as the disk lives.
    ///
    /// # Errors
    /// `InUse` if another process has the file open as a disk. Else the system's error.
    fn open_or_create(&self, path: &str) -> Result<Self::Disk, OpenFault>
        ensures { asked_disk self.now path.now result };

    /// Returns the system's reason for the last call of the disk that failed, if it is known.
    fn last_error(&self, disk: &Self::Disk) -> Option<io::Error>;
}

impl<F: SystemFile + Drop, S: FileSystem<Opened = F>> OpensDisks for S {
    ghost use Rattle.mon_disk.specs.SystemFile.{created, folder_of};
    ghost use Rattle.mon_carry_commands.specs.Disks.{IsDiskGiven};

    type Disk = DiskOver<F>;

    ghost asked_disk = { λ system path. IsDiskGiven (S.asked_open system created path)
        F.asked_lock (S.asked_folder system (folder_of path)) };

    fn open_or_create(&self, path: &str) -> Result<DiskOver<F>, OpenFault> {
        DiskOver::open_or_create(self, path)
    }

    fn last_error(&self, disk: &DiskOver<F>) -> Option<io::Error> {
        disk.last_error()
    }
}
