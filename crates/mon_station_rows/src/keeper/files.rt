//! Files of two slots, and saves about the greatest length.

use crate::keeper::found::{Found, saved};
use mon_disk::{Disk, Keeper, MemoryDisk, NotOpened, SLOT_SIZE};
use mon_row_texts::{parsed, three, two, zeros};
use std::alloc::Global;

/// What a slot begins with.
#[derive(Clone, Copy)]
struct Slot {
    gate: u8,
    generation: u64,
    size: u64,
}

/// A slot whose gate is shut.
const SHUT: Slot = Slot {
    gate: 0xA4,
    generation: 0,
    size: u64::MAX,
};

impl Slot {
    /// Reads `GENERATION/LENGTH`, an open slot, or a dash.
    fn parse(word: &str) -> Option<Slot> {
        if word == "-" {
            return Some(SHUT);
        }
        let (generation, size) = two(word, '/')?;
        Some(Slot {
            gate: 0xA5,
            generation: parsed(generation)?,
            size: parsed(size)?,
        })
    }

    fn octets(self) -> [u8; 17] {
        let mut octets = [self.gate; 17];
        octets[1..9].copy_from_slice(&self.generation.to_be_bytes());
        octets[9..].copy_from_slice(&self.size.to_be_bytes());
        octets
    }
}

/// Says what an opening answers of a file of a line `NAME: SLOT SLOT SIZE`, and then a save.
pub(crate) fn row(alloc: Global, text: &mut String, line: &str) -> Option<()> {
    let (name, file) = line.split_once(": ")?;
    match Keeper::open(alloc, disk_of(alloc, file)?) {
        Ok((mut keeper, body)) => {
            let found = Found::of(body);
            let next = saved(keeper.save(alloc, b"new"));
            write!(text, "{name}: {found} {next}").ok()
        }
        Err(NotOpened { fault, disk: _ }) => write!(text, "{name}: {}", fault.name()).ok(),
    }
}

/// Makes the disk of a file `SLOT SLOT SIZE`: it has what the slots begin with, and the last octet.
fn disk_of(alloc: Global, file: &str) -> Option<MemoryDisk> {
    let (first, second, size) = three(file, ' ')?;
    let last = u64::checked_sub(parsed(size)?, 1)?;
    let (first, second) = (Slot::parse(first)?, Slot::parse(second)?);
    let mut disk = MemoryDisk::new(alloc, &[]).ok()?;
    disk.write_at(0, &first.octets()).ok()?;
    disk.write_at(SLOT_SIZE, &second.octets()).ok()?;
    disk.write_at(last, &[0]).ok()?;
    Some(disk)
}

/// Says what a save of this many octets answers.
pub(crate) fn sized(alloc: Global, text: &mut String, size: usize) -> Option<()> {
    let disk = MemoryDisk::new(alloc, &[]).ok()?;
    let (mut keeper, _) = Keeper::open(alloc, disk).ok()?;
    let zeros = zeros(alloc, size).ok()?;
    let answer = saved(keeper.save(alloc, zeros.as_slice()));
    write!(text, "save of {size}: {answer}").ok()
}
