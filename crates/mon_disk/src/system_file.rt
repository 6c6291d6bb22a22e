//! The system's files, as a disk asks for them.

use std::fs::{File, OpenOptions, TryLockError};
use std::io;
use std::os::unix::fs::{FileExt, MetadataExt};
use std::rt::Files;

/// A file of the system's, open for reading and writing. Offsets and sizes are in octets.
///
/// Each ghost relation says what one call did: the file before it, what was asked, what the system
/// answered, and the file after it. Code that is generic over the file has such a relation only
/// from that call, made once and no other since.
pub trait SystemFile {
    ghost use Rattle.std.specs.Prelude.{List, ℕ, Result};
    ghost use Rattle.std.specs.declared.io.Error.{Error};
    ghost use Rattle.std.specs.declared.fs.locks.TryLockError.{TryLockError as NotLocked};

    // The file was asked for its size.
    ghost asked_size: { Self → Result ℕ Error → Self → Type 0 };

    // The file was asked for the octets from this offset on; these are now in the buffer.
    ghost asked_read: { Self → ℕ → List ℕ → Result Unit Error → Self → Type 0 };

    // The file was asked to take these octets, all of them, at this offset.
    ghost asked_write: { Self → ℕ → List ℕ → Result Unit Error → Self → Type 0 };

    // The file was asked to put on the disk what was written.
    ghost asked_sync: { Self → Result Unit Error → Self → Type 0 };

    // The file was asked for its lock.
    ghost asked_lock: { Self → Result Unit NotLocked → Self → Type 0 };

    // The file was asked which one it is on the system: for its device and its inode.
    ghost asked_node: { Self → Result (ℕ × ℕ) Error → Type 0 };

    /// Returns the size of the file.
    fn size(&mut self) -> io::Result<u64>
        ensures { asked_size self.old result self.new };

    /// Fills the buffer with the octets from that offset on.
    fn read_at(&mut self, at: u64, buffer: &mut [u8]) -> io::Result<()>
        ensures { asked_read self.old at buffer.new result self.new };

    /// Writes all these octets at that offset, over what is there and past the end.
    fn write_at(&mut self, at: u64, octets: &[u8]) -> io::Result<()>
        ensures { asked_write self.old at octets.now result self.new };

    /// Puts on the disk what was written, and the file's length.
    fn sync(&mut self) -> io::Result<()>
        ensures { asked_sync self.old result self.new };

    /// Takes the file's lock, without waiting. No other process can take it until this file is
    /// closed, as it is at the end of the process.
    fn take_lock(&mut self) -> Result<(), TryLockError>
        ensures { asked_lock self.old result self.new };

    /// Returns which file this is on the system: its device and its inode, in this order. While it
    /// is open, no other file of the system has both.
    fn node(&self) -> io::Result<(u64, u64)>
        ensures { asked_node self.now result };
}

/// A system that has files.
///
/// Each ghost relation says what the system answered. Code that is generic over the system has such
/// a relation only from that call.
pub trait FileSystem {
    ghost use Rattle.std.specs.Prelude.{List, ℕ, Result};
    ghost use Rattle.std.specs.declared.io.Error.{Error};
    ghost use Rattle.std.specs.declared.fs.options.OpenOptions.{OpenOptions as Options};

    /// A file that is open.
    type Opened: SystemFile;

    // The system was asked to open the file at this path with these options.
    ghost asked_open: { Self → Options → List ℕ → Result Self.Opened Error → Type 0 };

    // The system was asked to put on the disk the names of the files in this folder.
    ghost asked_folder: { Self → List ℕ → Result Unit Error → Type 0 };

    /// Opens the file at this path with these options.
    fn open_at(&self, options: &OpenOptions, path: &str) -> io::Result<Self::Opened>
        ensures { asked_open self.now options.now path.now result };

    /// Puts on the disk the names of the files in this folder.
    fn sync_folder(&self, folder: &str) -> io::Result<()>
        ensures { asked_folder self.now folder.now result };
}

// What the system does is not known, so each relation holds. That each call asks the system for
// just this is trusted, line by line.
impl SystemFile for File {
    ghost asked_size = { λ _ _ _. Unit {0} };

    ghost asked_read = { λ _ _ _ _ _. Unit {0} };

    ghost asked_write = { λ _ _ _ _ _. Unit {0} };

    ghost asked_sync = { λ _ _ _. Unit {0} };

    ghost asked_lock = { λ _ _ _. Unit {0} };

    ghost asked_node = { λ _ _. Unit {0} };

    fn size(&mut self) -> io::Result<u64> {
        Ok(self.metadata()?.len())
    }

    fn read_at(&mut self, at: u64, buffer: &mut [u8]) -> io::Result<()> {
        self.read_exact_at(buffer, at)
    }

    fn write_at(&mut self, at: u64, octets: &[u8]) -> io::Result<()> {
        self.write_all_at(octets, at)
    }

    // A file's length goes to the disk with its data; its times need not.
    fn sync(&mut self) -> io::Result<()> {
        self.sync_data()
    }

    fn take_lock(&mut self) -> Result<(), TryLockError> {
        self.try_lock()
    }

    fn node(&self) -> io::Result<(u64, u64)> {
        let found = self.metadata()?;
        Ok((found.dev(), found.ino()))
    }
}

impl<R: Files<File = File>> FileSystem for R {
    type Opened = File;

    ghost asked_open = { λ _ _ _ _. Unit {0} };

    ghost asked_folder = { λ _ _ _. Unit {0} };

    fn open_at(&self, options: &OpenOptions, path: &str) -> io::Result<File> {
        options.open(self, path)
    }

    fn sync_folder(&self, folder: &str) -> io::Result<()> {
        File::open(self, folder)?.sync_all()
    }
}
