//! What is read of a reader to its end, and how often it is read.

use mon_app::{Counted, read_all};
use mon_row_texts::{octets, parsed, put_digits, put_fault, two};
use std::alloc::Global;
use std::io::{Error, ErrorKind, Read, Result as IoResult};

/// Appends the answer to a line, without its first word.
pub(crate) fn answer(alloc: Global, text: &mut String, line: &str) -> Option<()> {
    let (word, rest) = two(line, ' ')?;
    match word {
        "gives" => {
            let octets = octets(alloc, rest)?;
            put_whole(alloc, text, octets.as_slice())
        }
        "slow" => {
            let slow = Slow {
                left: parsed(rest)?,
                is_interrupted: false,
            };
            put_whole(alloc, text, slow)
        }
        _ => None,
    }
}

/// Appends the octets that are read of a reader or the fault, and how often it was read, was at its
/// end and failed.
fn put_whole<R: Read + Drop>(alloc: Global, text: &mut String, reader: R) -> Option<()> {
    let mut reader = Counted::new(reader);
    let read = read_all(alloc, &mut reader);
    match &read {
        Ok(octets) => put_digits(text, octets.as_slice())?,
        Err(why) => put_fault(text, why.number(), why.name())?,
    }
    let counts = reader.counts();
    let (reads, ends, failures) = (counts.reads, counts.ends, counts.failures);
    write!(text, ", {reads} reads, {ends} ends, {failures} failures").ok()
}

/// A reader that gives an octet a read, is interrupted before each, and fails after this many.
#[derive(Drop)]
struct Slow {
    left: u8,
    is_interrupted: bool,
}

impl Read for Slow {
    fn read(&mut self, buf: &mut [u8]) -> IoResult<usize> {
        self.is_interrupted = !self.is_interrupted;
        if self.is_interrupted {
            return Err(Error::from(ErrorKind::Interrupted));
        }
        if self.left == 0 || buf.is_empty() {
            return Err(Error::from(ErrorKind::BrokenPipe));
        }
        self.left -= 1;
        buf[0] = b'x';
        Ok(1)
    }
}
