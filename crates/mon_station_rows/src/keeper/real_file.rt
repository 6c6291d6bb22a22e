//! A keeper over a file.

use crate::keeper::found::{Found, saved};
use mon_disk::{BODY_SIZE, FileDisk, Keeper};
use mon_row_texts::{parsed, zeros};
use std::alloc::Global;
use std::fs::{self, File};
use std::rt::Files;

/// The file of the lines.
const PATH: &str = "saved.mon";

fn open_file<R: Files<File = File> + AllocGlobal>(
    rt: &R,
    path: &str,
) -> Option<(Keeper<FileDisk>, Option<Vec<u8>>)> {
    let disk = FileDisk::open_or_create(rt, path).ok()?;
    Keeper::open(rt.alloc(), disk).ok()
}

/// Says what an opening of the file finds, and what a save of this text then answers.
pub(crate) fn saved_row<R: Files<File = File> + AllocGlobal>(
    rt: &R,
    text: &mut String,
    body: &str,
) -> Option<()> {
    let (mut keeper, found) = open_file(rt, PATH)?;
    let found = Found::of(found);
    let answer = saved(keeper.save(rt.alloc(), body.as_bytes()));
    write!(text, "a file: {found}, then a save: {answer}").ok()
}

/// Says what an opening of the file finds.
pub(crate) fn found_row<R: Files<File = File> + AllocGlobal>(
    rt: &R,
    text: &mut String,
) -> Option<()> {
    let found = Found::on(rt.alloc(), FileDisk::open(rt, PATH).ok()?);
    write!(text, "a file: {found}").ok()
}

/// Removes the file, and says whether an opening is then refused.
pub(crate) fn removed_row<R: Files<File = File>>(rt: &R, text: &mut String) -> Option<()> {
    fs::remove_file(rt, PATH).ok()?;
    let gone = FileDisk::open(rt, PATH).is_err();
    write!(text, "no file is refused: {gone}").ok()
}

/// Says whether a folder is refused by its path, and what an opening answers of it by a handle that
/// only reads.
pub(crate) fn folder_row<R: Files<File = File> + AllocGlobal>(
    rt: &R,
    text: &mut String,
) -> Option<()> {
    let refused = FileDisk::open_or_create(rt, ".").is_err();
    let found = Found::on(rt.alloc(), FileDisk::new(File::open(rt, ".").ok()?));
    write!(
        text,
        "a folder is refused: {refused}, and its handle: {found}"
    )
    .ok()
}

/// Prints what an opening of a file answers.
pub fn print_found<R: Files<File = File> + Print + AllocGlobal>(rt: &R, path: &str) -> Option<()> {
    let found = Found::on(rt.alloc(), FileDisk::open(rt, path).ok()?);
    println!(rt; "{found}").ok()
}

/// Makes the body of the save of this number, of 8 to 900,007 octets.
fn numbered(alloc: Global, number: u64) -> Option<Vec<u8>> {
    let mut body = number.to_be_bytes().to_vec(alloc).ok()?;
    let size = 8 + (number % 900_000 * 99_991 % 900_000) as usize;
    body.resize(size, (number % 251) as u8).ok()?;
    Some(body)
}

/// Returns the number of the save that this body is of, 0 if there is no body.
fn number_of(alloc: Global, body: Option<Vec<u8>>) -> Option<u64> {
    let Some(body) = body else {
        return Some(0);
    };
    let number = u64::from_be_bytes(*body.as_slice().first_chunk::<8>()?);
    let whole = numbered(alloc, number)?;
    if body.as_slice() == whole.as_slice() {
        Some(number)
    } else {
        None
    }
}

/// Prints the number of the save that it finds, then saves the ones after it and prints the number
/// of each that is acknowledged; of one that failed it says so, and saves it again.
pub fn save_on<R: Files<File = File> + Print + AllocGlobal>(rt: &R, path: &str) -> Option<()> {
    let (mut keeper, body) = open_file(rt, path)?;
    let found = number_of(rt.alloc(), body)?;
    save_after(rt, &mut keeper, found)
}

fn save_after<R: Print + AllocGlobal>(
    rt: &R,
    keeper: &mut Keeper<FileDisk>,
    found: u64,
) -> Option<()> {
    println!(rt; "{found}").ok()?;
    let mut number = found.checked_add(1)?;
    for _ in 0..u64::MAX {
        if is_saved(rt.alloc(), keeper, number)? {
            println!(rt; "{number}").ok()?;
            number = number.checked_add(1)?;
        } else {
            println!(rt; "failed {number}").ok()?;
        }
    }
    Some(())
}

/// Saves the body of this number, and reopens the file before if the save before it failed. Returns
/// `true` if it is acknowledged.
fn is_saved(alloc: Global, keeper: &mut Keeper<FileDisk>, number: u64) -> Option<bool> {
    let body = numbered(alloc, number)?;
    Some(keeper.reopen().is_ok() && keeper.save(alloc, body.as_slice()).is_ok())
}

/// Saves in a file as the arguments FILE OCTETS TIMES say.
pub fn time_saves<R: Files<File = File> + AllocGlobal>(rt: &R, words: &[String]) -> Option<()> {
    let size: usize = parsed(words.get(1)?)?;
    let times: u64 = parsed(words.get(2)?)?;
    let (mut keeper, _) = open_file(rt, words.first()?)?;
    let body = zeros(rt.alloc(), size.min(BODY_SIZE)).ok()?;
    for _ in 0..times {
        keeper.save(rt.alloc(), body.as_slice()).ok()?;
    }
    Some(())
}
