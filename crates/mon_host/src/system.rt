//! The system's arguments, streams, files and clocks.

ghost use Rattle.std.specs.Prelude.{◌≡◌, false};

use crate::host::{Host, Part};
use crate::level::Level;
use crate::reason::Reason;
use std::alloc::Global;
use std::fmt::Display;
use std::fs::{File, Permissions};
use std::io::{Read, Seek, SeekFrom, Write};
use std::os::unix::fs::{MetadataExt, PermissionsExt};
use std::rt::{Clock, Env, Files};
use std::time::{Instant, SystemTime};
use std::{env, fs, io};

/// How many octets one read may give.
const CHUNK: usize = 65_536;

/// How many reads an input or a file may take.
const READS: u32 = 1_048_576;

/// The mode of a file that all users may read, and only its owner may write.
const READ_BY_ALL: u32 = 0o644;

/// Which standard streams of a process are terminals.
#[derive(Clone, Copy)]
pub struct Terminals {
    /// Says whether standard input is one.
    pub input: bool,
    /// Says whether standard output is one.
    pub output: bool,
}

/// The surroundings of the process. No contract knows what is done to them: this is what is
/// trusted.
#[derive(Drop)]
pub struct System<'a, R> {
    rt: &'a R,
    terminals: Terminals,
    /// `true` if each text on standard error has the mark of its level before it.
    shows_levels: bool,
}

impl<'a, R: AllocGlobal> System<'a, R> {
    /// Returns the surroundings of a runtime, of whose standard streams these are terminals.
    pub fn new(rt: &'a R, terminals: Terminals) -> Self
        ensures runtime { result.rt.now ≡ rt.now }
        ensures terminals { result.terminals ≡ terminals }
        ensures levels { result.shows_levels ≡ false }
    {
        System {
            rt,
            terminals,
            shows_levels: false,
        }
    }

    /// Returns what a call gave, with the reason in words if it failed.
    fn given<T: Drop>(&self, given: io::Result<T>) -> Result<T, Reason> {
        match given {
            Ok(value) => Ok(value),
            Err(error) => Err(Reason::of(self.rt.alloc(), error)),
        }
    }
}

impl<R: Env + Clock + Files<File = File> + Input + Print + Eprint + AllocGlobal> Host
    for System<'_, R> {
    ghost use Rattle.std.specs.Prelude.{None};

    ghost log = { λ _. None };

    fn arguments(&mut self) -> Result<Vec<String>, Reason> {
        self.given(listed(self.rt))
    }

    fn is_at_terminal(&mut self) -> bool {
        self.terminals.input
    }

    fn prints_to_terminal(&mut self) -> bool {
        self.terminals.output
    }

    fn print(&mut self, octets: &[u8]) -> Result<(), Reason> {
        self.given(io::writer(self.rt).write_all(octets))
    }

    fn note<D: Display + Drop>(&mut self, level: Level, text: D) {
        if self.shows_levels {
            let _ = self.rt.eprint(level.mark());
        }
        let _ = self.rt.eprint(text);
    }

    fn show_levels(&mut self) {
        self.shows_levels = true;
    }

    fn read_input(&mut self) -> Result<Vec<u8>, Reason> {
        self.given(read_all(self.rt.alloc(), self.rt.reader()))
    }

    fn read_file(&mut self, path: &str) -> Result<Vec<u8>, Reason> {
        self.given(read_whole(self.rt, path))
    }

    fn read_part(&mut self, path: &str, part: Part) -> Result<Vec<u8>, Reason> {
        self.given(read_part(self.rt, path, part))
    }

    fn write_file(&mut self, path: &str, octets: &[u8]) -> Result<(), Reason> {
        self.given(fs::write(self.rt, path, octets))
    }

    fn rename(&mut self, path: &str, other: &str) -> Result<(), Reason> {
        self.given(fs::rename(self.rt, path, other))
    }

    fn is_there(&mut self, path: &str) -> Result<bool, Reason> {
        self.given(fs::exists(self.rt, path))
    }

    fn changed(&mut self, path: &str) -> Result<SystemTime, Reason> {
        self.given(changed(self.rt, path))
    }

    fn permit_reading(&mut self, path: &str) -> Result<(), Reason> {
        let mode = Permissions::from_mode(READ_BY_ALL);
        self.given(fs::set_permissions(self.rt, path, mode))
    }

    fn node(&mut self, path: &str) -> Result<Option<(u64, u64)>, Reason> {
        self.given(node(self.rt, path))
    }

    fn time(&mut self) -> Result<Instant, Reason> {
        self.given(Instant::now(self.rt))
    }

    fn date(&mut self) -> Result<SystemTime, Reason> {
        self.given(SystemTime::now(self.rt))
    }
}

/// Returns the arguments.
fn listed<R: Env + AllocGlobal>(rt: &R) -> io::Result<Vec<String>> {
    Ok(env::args(rt)?.collect(rt.alloc())?)
}

/// Reads to an end, which must come within 1,048,576 reads of at most 65,536 octets.
fn read_all<T: Read + Drop>(alloc: Global, reader: T) -> io::Result<Vec<u8>> {
    let (mut reader, mut octets) = (reader, Vec::new(alloc));
    let mut chunk = vec![in alloc; 0u8; CHUNK]?;
    for _ in 0..READS {
        if read_more(&mut reader, chunk.as_mut_slice(), &mut octets)? {
            return Ok(octets);
        }
    }
    Err(io::Error::other("no end was found"))
}

/// Reads what one read gives. Returns `true` at the end. A read that a signal ends is none.
fn read_more<T: Read>(reader: &mut T, chunk: &mut [u8], octets: &mut Vec<u8>) -> io::Result<bool> {
    match reader.read(chunk) {
        Ok(0) => return Ok(true),
        Ok(length) => octets.extend_from_slice(&chunk[..length])?,
        Err(error) if error.kind() == io::ErrorKind::Interrupted => {}
        Err(error) => return Err(error),
    }
    Ok(false)
}

/// Reads a file to its end.
fn read_whole<R: Files<File = File> + AllocGlobal>(rt: &R, path: &str) -> io::Result<Vec<u8>> {
    read_all(rt.alloc(), File::open(rt, path)?)
}

/// Reads a part of a file.
fn read_part<R: Files<File = File> + AllocGlobal>(
    rt: &R,
    path: &str,
    part: Part,
) -> io::Result<Vec<u8>> {
    let mut file = File::open(rt, path)?;
    file.seek(SeekFrom::Start(part.at))?;
    read_all(rt.alloc(), file.take(part.length))
}

/// Returns when a file was changed last.
fn changed<R: Files>(rt: &R, path: &str) -> io::Result<SystemTime> {
    fs::metadata(rt, path)?.modified()
}

/// Returns the device and the inode of the file at a path, `None` if there is none.
fn node<R: Files>(rt: &R, path: &str) -> io::Result<Option<(u64, u64)>> {
    match fs::metadata(rt, path) {
        Ok(found) => Ok(Some((found.dev(), found.ino()))),
        Err(error) if error.kind() == io::ErrorKind::NotFound => Ok(None),
        Err(error) => Err(error),
    }
}
