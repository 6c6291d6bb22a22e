//! What rows of several groups read and print alike.

use mon_ber::Octets;
use mon_board::{Board, Instance, Watched};
use mon_oid::Oid;
use mon_report::write_report;
use std::alloc::{AllocError, Global};
use std::io::{BufRead, BufReader};
use std::str::FromStr;

/// Reads the first line of standard input.
pub fn first_line<R: Input>(rt: &R, alloc: Global) -> Option<String> {
    let mut reader = BufReader::new(alloc, rt.reader()).ok()?;
    let mut line = String::new(alloc);
    reader.read_line(&mut line).ok()?;
    Some(line)
}

/// Returns the two parts of a line: before the first separator, and after it.
pub fn two(line: &str, separator: char) -> Option<(&str, &str)> {
    line.split_once(separator)
}

/// Returns the three parts of a line: before the first separator, up to the second, and the rest.
pub fn three(line: &str, separator: char) -> Option<(&str, &str, &str)> {
    let (first, rest) = two(line, separator)?;
    let (second, third) = two(rest, separator)?;
    Some((first, second, third))
}

/// Returns the first word of a line and what comes after it: nothing if there is no other word.
pub fn first_word(line: &str) -> (&str, &str) {
    line.split_once(' ').unwrap_or((line, ""))
}

/// Returns what a word is read as.
pub fn parsed<T: FromStr>(word: &str) -> Option<T>
where
    T::Err: Drop,
{
    word.parse().ok()
}

/// Returns the octets of hex digits.
pub fn octets(alloc: Global, digits: &str) -> Option<Vec<u8>> {
    hex::decode(alloc, digits).ok()
}

/// Appends a part.
pub fn put(text: &mut String, part: &str) -> Option<()> {
    text.push_str(part).ok()
}

/// Appends the hex digits of octets.
pub fn put_digits(text: &mut String, octets: &[u8]) -> Option<()> {
    for octet in octets {
        write!(text, "{octet:02x}").ok()?;
    }
    Some(())
}

/// Appends the number and the name of a fault.
pub fn put_fault(text: &mut String, number: u8, name: &str) -> Option<()> {
    write!(text, "{number} {name}").ok()
}

/// Appends the number and the name of a fault, after the word `refused`.
pub fn put_refused(text: &mut String, number: u8, name: &str) -> Option<()> {
    write!(text, "refused {number} {name}").ok()
}

/// Appends the numbers of an identifier.
pub fn put_name(alloc: Global, text: &mut String, name: &Oid) -> Option<()> {
    let numbers = name.text(alloc).ok()?;
    put(text, numbers.as_str())
}

/// Appends a text without the last line's end.
pub fn put_trimmed(text: &mut String, octets: &[u8]) -> Option<()> {
    put(text, str::from_utf8(octets).ok()?.trim_end())
}

/// Appends the report of a board, without the last line's end.
pub fn put_report(alloc: Global, text: &mut String, board: &Board) -> Option<()> {
    let mut report = Vec::new(alloc);
    write_report(board, &mut report).ok()?;
    put_trimmed(text, report.as_slice())
}

/// Returns an instance that is watched, with samples of this window and epoch.
pub fn watched(
    alloc: Global,
    engine: &[u8],
    name: &str,
    window: usize,
    epoch: usize,
) -> Option<Watched> {
    Some(Watched {
        instance: Instance {
            engine: Octets::from_slice(alloc, engine).ok()?,
            name: Oid::parse(alloc, name).ok()?,
        },
        discontinuity: None,
        window,
        epoch,
    })
}

/// Returns this many octets of 0.
pub fn zeros(alloc: Global, len: usize) -> Result<Vec<u8>, AllocError> {
    vec![in alloc; 0u8; len]
}
