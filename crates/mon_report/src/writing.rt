//! Texts that go to a writer one after the other. Each function is passed whether all was written
//! before, and returns whether all is written now; after a failure nothing more is.

ghost use Rattle.std.specs.Prelude.{◌≡◌, ◌≤◌, decimal, length, take};
ghost use Rattle.std.specs.Fmt.{signed_decimal};
ghost use Rattle.std.specs.Io.KnownBytes.{Appends};
ghost use Rattle.mon_report.specs.Written.{AppendsIf};

use itoa::Buffer;
use std::io::{ErrorKind, Write};

/// Writes the octets.
pub(crate) fn put<W: Write>(writer: &mut W, ok: bool, octets: &[u8]) -> bool
    ensures { AppendsIf (W.contents writer.old) ok (W.contents writer.new) result octets.now }
{
    if !ok {
        return false;
    }
    send(writer, octets) >= octets.len()
}

/// Writes the octets, and says how many were taken: all, or those before the writer failed or took
/// nothing. An interrupted write is tried again; the turns are counted, so that the loop ends.
fn send<W: Write>(writer: &mut W, octets: &[u8]) -> usize
    ensures bound { result ≤ length octets.now }
    ensures taken { Appends (W.contents writer.old) (W.contents writer.new)
        (take result octets.now) }
{
    let mut sent = 0;
    'writes: for _ in 0..u64::MAX {
        if sent >= octets.len() {
            return sent;
        }
        match writer.write(&octets[sent..]) {
            Ok(0) => return sent,
            Ok(n) => sent += n,
            Err(fault) => {
                if fault.kind() != ErrorKind::Interrupted {
                    return sent;
                }
            }
        }
    }
    sent
}

/// Writes a number in decimal.
pub(crate) fn put_number<W: Write>(writer: &mut W, ok: bool, number: u64) -> bool
    ensures { AppendsIf (W.contents writer.old) ok (W.contents writer.new) result (decimal number) }
{
    let mut buffer = Buffer::new();
    put(writer, ok, buffer.format(number).as_bytes())
}

/// Writes a number of up to 128 bits in decimal.
pub(crate) fn put_wide<W: Write>(writer: &mut W, ok: bool, number: u128) -> bool
    ensures { AppendsIf (W.contents writer.old) ok (W.contents writer.new) result (decimal number) }
{
    let mut buffer = Buffer::new();
    put(writer, ok, buffer.format(number).as_bytes())
}

/// Writes a number in decimal, with its sign where it is below 0.
pub(crate) fn put_signed<W: Write>(writer: &mut W, ok: bool, number: i128) -> bool
    ensures { AppendsIf (W.contents writer.old) ok (W.contents writer.new) result
        (signed_decimal number) }
{
    let mut buffer = Buffer::new();
    put(writer, ok, buffer.format(number).as_bytes())
}
