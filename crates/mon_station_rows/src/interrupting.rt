//! A writer that is interrupted.

use mon_board::Board;
use mon_report::write_report;
use mon_row_texts::put_trimmed;
use std::alloc::Global;
use std::io::{Error, ErrorKind, Result as IoResult, Write};

/// A writer of which every other call is interrupted by a signal; the others take an octet each.
#[derive(Drop)]
struct Interrupting {
    taken: Vec<u8>,
    is_interrupted: bool,
}

impl Write for Interrupting {
    ghost use Rattle.std.specs.Prelude.{Some};

    ghost contents = { λ w. Some w.taken.items };

    fn write(&mut self, octets: &[u8]) -> IoResult<usize> {
        self.is_interrupted = !self.is_interrupted;
        if self.is_interrupted {
            return Err(Error::from(ErrorKind::Interrupted));
        }
        let Some(first) = octets.first() else {
            return Ok(0);
        };
        self.taken.push(*first)?;
        Ok(1)
    }

    fn flush(&mut self) -> IoResult<()> {
        Ok(())
    }
}

/// Appends the report of the board by such a writer, without the last line's end.
pub(crate) fn put_interrupted(alloc: Global, text: &mut String, board: &Board) -> Option<()> {
    let mut writer = Interrupting {
        taken: Vec::new(alloc),
        is_interrupted: false,
    };
    write_report(board, &mut writer).ok()?;
    put_trimmed(text, writer.taken.as_slice())
}
