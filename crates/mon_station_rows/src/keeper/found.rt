//! What openings and saves answer, as text.

use mon_disk::{Disk, Keeper, KeeperFault, NotOpened};
use std::alloc::Global;
use std::fmt;

/// What an opening answers.
#[derive(Clone, Copy)]
pub enum Found {
    /// No body was saved.
    Nothing,
    /// The body `old`.
    Old,
    /// The body `new`.
    New,
    /// Another body, of this many octets.
    Other(usize),
    /// A fault.
    Fault(KeeperFault),
}

impl Found {
    /// Says which body this is.
    pub fn of(body: Option<Vec<u8>>) -> Found {
        match body {
            None => Found::Nothing,
            Some(body) => match body.as_slice() {
                b"old" => Found::Old,
                b"new" => Found::New,
                other => Found::Other(other.len()),
            },
        }
    }

    /// Says what the next opening of this disk answers.
    pub fn on<D: Disk + Drop>(alloc: Global, disk: D) -> Found {
        match Keeper::open(alloc, disk) {
            Ok((_, body)) => Found::of(body),
            Err(NotOpened { fault, disk: _ }) => Found::Fault(fault),
        }
    }
}

impl fmt::Display for Found {
    fn fmt<W: fmt::Write>(&self, f: &mut fmt::Formatter<W>) -> fmt::Result {
        match self {
            Found::Nothing => f.write_str("nothing"),
            Found::Old => f.write_str("old"),
            Found::New => f.write_str("new"),
            Found::Other(size) => write!(f, "{size} octets"),
            Found::Fault(fault) => f.write_str(fault.name()),
        }
    }
}

/// Says what a save answers.
pub(crate) fn saved(done: Result<(), KeeperFault>) -> &'static str {
    match done {
        Ok(()) => "Ok",
        Err(fault) => fault.name(),
    }
}
