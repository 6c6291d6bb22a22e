//! A reader whose reads are counted.

ghost use Rattle.std.specs.Prelude.{◌≡◌, IfErr, OnOk};
ghost use Rattle.std.specs.Io.{ReadsAtMost};
ghost use Rattle.std.specs.Io.KnownBytes.{ReadConsumes};
ghost use Rattle.std.specs.IoError.{error_kind};
ghost use Rattle.mon_udp.specs.Counts.{next_count};
ghost use Rattle.mon_app.specs.Input.{ends_after, failures_by};

use std::io;
use std::io::{ErrorKind, Read};

/// How a reader was read. Each count stays at its greatest, 2^64 - 1.
#[derive(Clone, Copy, Debug)]
pub struct Reads {
    /// How often.
    pub reads: u64,
    /// How often the end was found.
    pub ends: u64,
    /// How often a read failed. One that a signal ended did not.
    pub failures: u64,
}

/// A reader that counts how it is read.
#[derive(Drop)]
pub struct Counted<R> {
    reader: R,
    counts: Reads,
}

impl<R: Read> Counted<R> {
    /// The reader, not read yet.
    pub fn new(reader: R) -> Self
        ensures reader { result.reader ≡ reader }
        ensures counts { result.counts ≡ record { reads = 0; ends = 0; failures = 0 } }
    {
        Counted {
            reader,
            counts: Reads {
                reads: 0,
                ends: 0,
                failures: 0,
            },
        }
    }

    /// How it was read.
    pub fn counts(&self) -> Reads
        ensures { result ≡ self.now.counts }
    {
        self.counts
    }

    /// One read.
    pub(crate) fn read(&mut self, room: &mut [u8]) -> io::Result<usize>
        ensures bound { ReadsAtMost result room.new }
        ensures bytes { ReadConsumes (R.remaining self.old.reader) (R.remaining self.new.reader)
            result room.new }
        ensures reads { self.new.counts.reads ≡ next_count self.old.counts.reads }
        ensures ends { self.new.counts.ends ≡ ends_after result self.old.counts.ends }
        ensures fine { OnOk result (self.new.counts.failures ≡ self.old.counts.failures) }
        ensures failed { IfErr result (λ e. self.new.counts.failures
            ≡ failures_by (error_kind e) self.old.counts.failures) }
    {
        self.counts.reads = self.counts.reads.saturating_add(1);
        let given = self.reader.read(room);
        match &given {
            Ok(0) => self.counts.ends = self.counts.ends.saturating_add(1),
            Ok(_) => {}
            Err(error) => {
                if error.kind() != ErrorKind::Interrupted {
                    self.counts.failures = self.counts.failures.saturating_add(1);
                }
            }
        }
        given
    }
}
