//! What each line asks of the station.

use crate::events::event;
use crate::interrupting::put_interrupted;
use crate::printing::{put_fault, put_told};
use crate::running::run;
use crate::setting::core;
use mon_disk::{FuseDisk, MemoryDisk};
use mon_row_texts::{first_word, parsed, put_report, two};
use mon_station::{Event, LentEvent, Station};
use std::alloc::Global;

/// The station, or the disk that it is opened from: one of the two is there.
pub struct Stage {
    station: Option<Station<FuseDisk<MemoryDisk>>>,
    disk: Option<MemoryDisk>,
}

// By hand: where one is let go, a proof has one call and not a drop of each field.
impl Drop for Stage {
    fn drop(self) {
        let Stage {
            station: _,
            disk: _,
        } = self;
    }
}

impl Stage {
    /// Makes an empty disk.
    pub fn new(alloc: Global) -> Option<Self> {
        let disk = MemoryDisk::new(alloc, &[]).ok()?;
        Some(Stage {
            station: None,
            disk: Some(disk),
        })
    }

    /// Begins again with an empty disk.
    pub fn renew(&mut self, alloc: Global) -> Option<()> {
        self.close(MemoryDisk::new(alloc, &[]).ok()?);
        Some(())
    }

    /// Puts a disk in place of the station.
    fn close(&mut self, disk: MemoryDisk) {
        drop(self.station.take());
        drop(self.disk.replace(disk));
    }

    /// Does what a line says, without its first word, and appends the answer.
    pub fn answer(&mut self, alloc: Global, text: &mut String, line: &str) -> Option<()> {
        if self.station.is_none() {
            return self.open(alloc, text, line);
        }
        let (word, rest) = first_word(line);
        if word == "stop" {
            return self.stop(alloc, text, rest);
        }
        let Some(station) = &mut self.station else {
            return None;
        };
        match word {
            "run" => run(alloc, text, station, rest),
            "owed" => put_owed(text, station, parsed(rest)?),
            "report" => put_report(alloc, text, station.board()),
            "interrupted" => put_interrupted(alloc, text, station.board()),
            _ => {
                let event = event(alloc, word, rest)?;
                put_step(alloc, text, station, event.lend())
            }
        }
    }

    /// Opens a station on the disk.
    fn open(&mut self, alloc: Global, text: &mut String, line: &str) -> Option<()> {
        let (word, settings) = line.split_once(' ').unwrap_or((line, "8"));
        if word != "open" {
            return None;
        }
        let disk = self.disk.take()?;
        let core = core(alloc, settings)?;
        match Station::open(alloc, core, FuseDisk::new(disk)) {
            Ok(station) => {
                let incarnation = station.incarnation();
                drop(self.station.replace(station));
                write!(text, "incarnation {incarnation}").ok()
            }
            Err((why, disk)) => {
                self.close(disk.into_disk());
                put_fault(text, why)
            }
        }
    }

    /// Saves while only N calls of a line `N KEEP` pass, and keeps what a crash leaves.
    fn stop(&mut self, alloc: Global, text: &mut String, line: &str) -> Option<()> {
        let (calls, keep) = two(line, ' ')?;
        let calls = parsed(calls)?;
        if let Some(station) = &mut self.station {
            station.set(calls);
            put_step(alloc, text, station, Event::Save)?;
        }
        let disk = self.station.take()?.into_disk().into_disk();
        self.close(disk.crash(keep == "keep").ok()?);
        Some(())
    }
}

fn put_step(
    alloc: Global,
    text: &mut String,
    station: &mut Station<FuseDisk<MemoryDisk>>,
    event: LentEvent<'_>,
) -> Option<()> {
    match station.step(alloc, event) {
        Ok(told) => put_told(text, &told),
        Err(why) => put_fault(text, why),
    }
}

fn put_owed(text: &mut String, station: &Station<FuseDisk<MemoryDisk>>, peer: u32) -> Option<()> {
    let owed = station.owed(peer);
    match station.known(peer) {
        Some(known) => write!(text, "owes {peer} {owed}, known {known}").ok(),
        None => write!(text, "owes {peer} {owed}, none known").ok(),
    }
}
