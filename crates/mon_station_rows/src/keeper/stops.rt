//! Saves and openings that are stopped, or of which a call of the disk fails.

use crate::keeper::found::{Found, saved};
use mon_disk::{Disk, FlakyDisk, FuseDisk, Keeper, MemoryDisk, NotOpened};
use mon_row_texts::{parsed, put, two};
use std::alloc::Global;

/// Makes a keeper over an empty disk in a fuse, on which a save of `old` is done.
fn begun(alloc: Global) -> Option<Keeper<FuseDisk<MemoryDisk>>> {
    let disk = FuseDisk::new(MemoryDisk::new(alloc, &[]).ok()?);
    let (mut keeper, _) = Keeper::open(alloc, disk).ok()?;
    keeper.save(alloc, b"old").ok()?;
    Some(keeper)
}

/// Reads `CALLS KEEP`: after how many calls of the disk something is stopped, and whether the crash
/// keeps what is not synced.
fn stop_of(words: &str) -> Option<(u64, bool)> {
    let (calls, keep) = two(words, ' ')?;
    match keep {
        "keep" => Some((parsed(calls)?, true)),
        "lose" => Some((parsed(calls)?, false)),
        _ => None,
    }
}

/// Appends how a row of something that was stopped begins.
fn put_stop(text: &mut String, what: &str, calls: u64, keep: bool) -> Option<()> {
    let end = if keep { "keeps" } else { "loses" };
    write!(text, "{what} stopped after {calls}, a crash {end}: ").ok()
}

/// Stops a save of `new` as a line `CALLS KEEP` says. Says what it answers and one after it by the
/// same keeper, and what a crash then leaves.
pub(crate) fn save_row(alloc: Global, text: &mut String, line: &str) -> Option<()> {
    let (calls, keep) = stop_of(line)?;
    put_stop(text, "save", calls, keep)?;
    let mut keeper = begun(alloc)?;
    keeper.set(calls);
    let first = saved(keeper.save(alloc, b"new"));
    let second = saved(keeper.save(alloc, b"new"));
    let disk = keeper.into_disk().into_disk().crash(keep).ok()?;
    let found = Found::on(alloc, disk);
    write!(text, "{first} {second} {found}").ok()
}

/// Says what becomes of openings that are stopped as a line `CALLS KEEP` says: of a fresh disk, of
/// one whose open gate is not synced, and of one on which a crash left it open.
pub(crate) fn opening_row(alloc: Global, text: &mut String, line: &str) -> Option<()> {
    let (calls, keep) = stop_of(line)?;
    put_stop(text, "opening", calls, keep)?;
    let fresh = MemoryDisk::new(alloc, &[]).ok()?;
    put_stopped_opening(alloc, text, fresh, calls, keep)?;
    put(text, ", ")?;
    put_stopped_opening(alloc, text, unsynced(alloc)?, calls, keep)?;
    put(text, ", ")?;
    let left_open = unsynced(alloc)?.crash(true).ok()?;
    put_stopped_opening(alloc, text, left_open, calls, keep)
}

/// Opens an empty disk and saves `new` while this call of the disk fails. Says what that answers,
/// how often the disk failed, and what the next opening finds.
pub(crate) fn failing_row(alloc: Global, text: &mut String, call: u64) -> Option<()> {
    write!(text, "call {call} fails: ").ok()?;
    let disk = FlakyDisk::new(MemoryDisk::new(alloc, &[]).ok()?, call);
    let (answer, disk) = saved_on(alloc, disk);
    let failures = disk.failures();
    let found = Found::on(alloc, disk);
    write!(text, "{answer} {failures} {found}").ok()
}

/// Says what becomes of a save that is stopped as a line `CALLS KEEP` says, of a reopening after it
/// and of a save after that: what each answers, and what a crash then leaves.
pub(crate) fn reopened_row(alloc: Global, text: &mut String, line: &str) -> Option<()> {
    let (calls, keep) = stop_of(line)?;
    put_stop(text, "save", calls, keep)?;
    put_after_stop(alloc, text, calls, keep, Mending::Nothing)?;
    put(text, "; reopened: ")?;
    put_after_stop(alloc, text, calls, keep, Mending::Reopening)?;
    put(text, "; saved: ")?;
    put_after_stop(alloc, text, calls, keep, Mending::Saving)
}

/// What is done after a save that was stopped.
#[derive(Clone, Copy, PartialEq, Eq)]
enum Mending {
    Nothing,
    /// The file is reopened.
    Reopening,
    /// The file is reopened, and saved in.
    Saving,
}

/// Stops a save of `new` after some calls of the disk, and does what comes after it on a disk that
/// passes all calls again. Says what the last of these answers, and what a crash then leaves.
fn put_after_stop(
    alloc: Global,
    text: &mut String,
    calls: u64,
    keep: bool,
    mending: Mending,
) -> Option<()> {
    let mut keeper = begun(alloc)?;
    let answer = mend(alloc, &mut keeper, calls, mending);
    let disk = keeper.into_disk().into_disk().crash(keep).ok()?;
    let found = Found::on(alloc, disk);
    write!(text, "{answer} {found}").ok()
}

fn mend(
    alloc: Global,
    keeper: &mut Keeper<FuseDisk<MemoryDisk>>,
    calls: u64,
    mending: Mending,
) -> &'static str {
    keeper.set(calls);
    let stopped = saved(keeper.save(alloc, b"new"));
    keeper.set(u64::MAX);
    if mending == Mending::Nothing {
        return stopped;
    }
    let reopened = saved(keeper.reopen());
    if mending == Mending::Reopening {
        return reopened;
    }
    saved(keeper.save(alloc, b"new"))
}

/// Says what becomes of an opening and a save of which this call fails, and of a reopening and a
/// save after them.
pub(crate) fn mended_row(alloc: Global, text: &mut String, call: u64) -> Option<()> {
    write!(text, "call {call} fails: ").ok()?;
    let disk = MemoryDisk::new(alloc, &[]).ok()?;
    let Ok((mut keeper, _)) = Keeper::open(alloc, FlakyDisk::new(disk, call)) else {
        return put(text, "not opened");
    };
    let first = saved(keeper.save(alloc, b"old"));
    let again = saved(keeper.reopen());
    let second = saved(keeper.save(alloc, b"new"));
    let disk = keeper.into_disk();
    let failures = disk.failures();
    let found = Found::on(alloc, disk);
    write!(text, "{first} {again} {second} {failures} {found}").ok()
}

/// Makes a disk with the gate of `new` open, which is not synced.
fn unsynced(alloc: Global) -> Option<MemoryDisk> {
    let mut keeper = begun(alloc)?;
    keeper.set(5);
    let _ = keeper.save(alloc, b"new");
    Some(keeper.into_disk().into_disk())
}

/// Stops an opening after some calls of the disk. Says what it answers, and what a crash then
/// leaves.
fn put_stopped_opening(
    alloc: Global,
    text: &mut String,
    disk: MemoryDisk,
    calls: u64,
    keep: bool,
) -> Option<()> {
    let mut disk = FuseDisk::new(disk);
    disk.set(calls);
    let (first, left) = opened_on(alloc, disk);
    let second = Found::on(alloc, left.into_disk().crash(keep).ok()?);
    write!(text, "{first} {second}").ok()
}

/// Says what an opening answers, and returns the disk.
fn opened_on<D: Disk>(alloc: Global, disk: D) -> (Found, D) {
    match Keeper::open(alloc, disk) {
        Ok((keeper, body)) => (Found::of(body), keeper.into_disk()),
        Err(NotOpened { fault, disk }) => (Found::Fault(fault), disk),
    }
}

/// Says what an opening answers that fails, else a save of `new`; and returns the disk.
fn saved_on<D: Disk>(alloc: Global, disk: D) -> (&'static str, D) {
    match Keeper::open(alloc, disk) {
        Ok((mut keeper, _)) => {
            let answer = saved(keeper.save(alloc, b"new"));
            (answer, keeper.into_disk())
        }
        Err(NotOpened { fault, disk }) => (fault.name(), disk),
    }
}
