//! Images: what one is read as, and what is then written of the board.

use mon_board::{Board, Watch, Watched};
use mon_row_texts::{
    first_line, octets, parsed, put, put_digits, put_refused, put_report, three, two, watched,
};
use mon_saved::{image_size, read, read_image, write_image, write_within};
use std::alloc::Global;

/// Answers a line `ENGINE/NAME/WINDOW/EPOCH,.. HEX`, a watch's instances and an image: with the
/// fault, or the incarnation, the sizes and the number of samples that the image has of each
/// instance, and the image that is written of the board read.
pub(crate) fn row(alloc: Global, text: &mut String, line: &str) -> Option<()> {
    let (words, digits) = two(line, ' ')?;
    let octets = octets(alloc, digits)?;
    let watch = watch_of(alloc, words)?;
    match read_image(alloc, &watch, octets.as_slice()) {
        Ok((board, incarnation)) => {
            put_sizes(alloc, text, &watch, octets.as_slice(), incarnation)?;
            put_written(alloc, text, &board, incarnation)
        }
        Err(why) => put_refused(text, why.number(), why.name()),
    }
}

/// Appends the report of the board that a line's image is read as under its watch, without the last
/// line's end.
pub(crate) fn report(alloc: Global, text: &mut String, line: &str) -> Option<()> {
    let (words, digits) = two(line, ' ')?;
    let octets = octets(alloc, digits)?;
    let watch = watch_of(alloc, words)?;
    let (board, _incarnation) = read_image(alloc, &watch, octets.as_slice()).ok()?;
    put_report(alloc, text, &board)
}

/// Appends the incarnation, and the sizes and the number of samples that the image has of each
/// instance.
fn put_sizes(
    alloc: Global,
    text: &mut String,
    watch: &Watch,
    octets: &[u8],
    incarnation: u32,
) -> Option<()> {
    write!(text, "incarnation {incarnation} saved").ok()?;
    let image = read(alloc, watch, octets).ok()?;
    for entry in image.entries.as_slice() {
        let many = entry.samples.as_slice().len();
        write!(text, " {}/{}/{many}", entry.window, entry.epoch).ok()?;
    }
    Some(())
}

/// Appends the image of a board in hex digits, if both ways of writing it agree.
fn put_written(alloc: Global, text: &mut String, board: &Board, incarnation: u32) -> Option<()> {
    if incarnation == 0 {
        return None;
    }
    let image = write_image(alloc, board, incarnation).ok()?;
    let mut within = Vec::with_capacity(alloc, image_size(board)).ok()?;
    write_within(&mut within, board, incarnation);
    if image.as_slice() != within.as_slice() {
        return None;
    }
    put(text, " written ")?;
    put_digits(text, image.as_slice())
}

/// Makes the watch of instances `ENGINE/NAME/WINDOW/EPOCH`.
fn watch_of(alloc: Global, words: &str) -> Option<Watch> {
    Watch::new(instances_of(alloc, words)?, Vec::new(alloc)).ok()
}

/// Reads the instances `ENGINE/NAME/WINDOW/EPOCH`, with commas between them; of a dash none.
pub(crate) fn instances_of(alloc: Global, words: &str) -> Option<Vec<Watched>> {
    let mut instances = Vec::new(alloc);
    if words == "-" {
        return Some(instances);
    }
    for word in words.split(',') {
        read_instance(alloc, &mut instances, word)?;
    }
    Some(instances)
}

fn read_instance(alloc: Global, instances: &mut Vec<Watched>, word: &str) -> Option<()> {
    let (engine, name, sizes) = three(word, '/')?;
    let (window, epoch) = two(sizes, '/')?;
    let (window, epoch) = (parsed(window)?, parsed(epoch)?);
    let engine = octets(alloc, engine)?;
    let instance = watched(alloc, engine.as_slice(), name, window, epoch)?;
    instances.push(instance).ok()
}

/// Reads the image of the first line and writes it, this many times, and prints how many octets
/// were written in all.
pub fn time_images<R: Input + Print>(rt: &R, alloc: Global, times: u32) -> Option<()> {
    let line = first_line(rt, alloc)?;
    let (words, digits) = two(line.trim_end(), ' ')?;
    let octets = octets(alloc, digits)?;
    let watch = watch_of(alloc, words)?;
    let mut sum: u64 = 0;
    for _ in 0..times {
        sum = sum.wrapping_add(read_and_written(alloc, &watch, octets.as_slice())?);
    }
    println!(rt; "{sum} octets").ok()
}

/// Reads an image and writes it, and returns how many octets were written.
fn read_and_written(alloc: Global, watch: &Watch, octets: &[u8]) -> Option<u64> {
    let (board, incarnation) = read_image(alloc, watch, octets).ok()?;
    if incarnation == 0 {
        return None;
    }
    let image = write_image(alloc, &board, incarnation).ok()?;
    Some(image.len() as u64)
}
