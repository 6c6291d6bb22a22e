//! What is asked of a station over a stream, and what comes of it.

ghost use Rattle.std.specs.Prelude.{◌≡◌, ◌≤◌, [], length, vec_capacity};
ghost use Rattle.mon_host.specs.Log.{GoesOnBy};
ghost use Rattle.mon_health_commands.specs.Asking.{IsExchange, IsLimited, IsPiece, IsReceiving, IsSending};
ghost use Rattle.mon_health_commands.specs.AtStream.{ReadsLimited, WritesLimited};

use crate::stream::Stream;
use crate::trouble::Trouble;
use mon_http_client::{Progress, read_response};

/// How many seconds connecting may take, and each wait after it.
pub(crate) const LIMIT: u64 = 2;

/// In how many pieces the head of a response may come.
const PIECES: u8 = 8;

/// How many octets of a response are read at most.
pub(crate) const MAX_OCTETS: usize = 8192;

/// Sends a request, and returns the status of its response. The response is read into a buffer of
/// 8,192 octets; `seen` has the capacity for as many.
pub(crate) fn exchange<S: Stream>(
    stream: &mut S,
    request: &[u8],
    seen: &mut Vec<u8>,
    buffer: &mut [u8],
) -> Result<u16, Trouble>
    requires empty { seen.old.items ≡ [] }
    requires capacity { 8192 ≤ vec_capacity seen.old }
    requires buffer { length buffer.old ≡ 8192 }
    ensures { GoesOnBy (λ log. IsExchange request.now log result) (S.log stream.old)
        (S.log stream.new) }
{
    limit_reads(stream)?;
    limit_writes(stream)?;
    send(stream, request)?;
    receive(stream, seen, buffer, PIECES)
}

/// Limits the waits for octets.
fn limit_reads<S: Stream>(stream: &mut S) -> Result<(), Trouble>
    ensures { GoesOnBy (λ log. IsLimited (ReadsLimited 2) log result) (S.log stream.old)
        (S.log stream.new) }
{
    match stream.limit_reads(LIMIT) {
        Ok(()) => Ok(()),
        Err(error) => Err(Trouble::Broken(error.kind())),
    }
}

/// Limits the waits of sendings.
fn limit_writes<S: Stream>(stream: &mut S) -> Result<(), Trouble>
    ensures { GoesOnBy (λ log. IsLimited (WritesLimited 2) log result) (S.log stream.old)
        (S.log stream.new) }
{
    match stream.limit_writes(LIMIT) {
        Ok(()) => Ok(()),
        Err(error) => Err(Trouble::Broken(error.kind())),
    }
}

/// Sends octets, in as many pieces as the stream takes them.
fn send<S: Stream>(stream: &mut S, octets: &[u8]) -> Result<(), Trouble>
    ensures { GoesOnBy (λ log. IsSending octets.now log result) (S.log stream.old)
        (S.log stream.new) }
{
    if octets.is_empty() {
        return Ok(());
    }
    match stream.put(octets) {
        Ok(0) => Err(Trouble::Closed),
        Ok(n) => send(stream, &octets[n..]),
        Err(error) => Err(Trouble::Broken(error.kind())),
    }
}

/// Reads the head of a response, of which these octets came, in at most `left` further pieces.
fn receive<S: Stream>(
    stream: &mut S,
    seen: &mut Vec<u8>,
    buffer: &mut [u8],
    left: u8,
) -> Result<u16, Trouble>
    requires few { length seen.old.items ≤ 8192 }
    requires capacity { 8192 ≤ vec_capacity seen.old }
    requires buffer { length buffer.old ≡ 8192 }
    ensures { GoesOnBy (λ log. IsReceiving left seen.old.items log result)
        (S.log stream.old) (S.log stream.new) }
{
    if left == 0 {
        return Err(Trouble::Scattered);
    }
    take_piece(stream, seen, buffer)?;
    match read_response(seen) {
        Progress::More => receive(stream, seen, buffer, left - 1),
        Progress::Response { status, .. } => Ok(status),
        Progress::Refused => Err(Trouble::Malformed),
    }
}

/// Reads a further piece, by way of a buffer, to the end of the octets that came.
fn take_piece<S: Stream>(
    stream: &mut S,
    seen: &mut Vec<u8>,
    buffer: &mut [u8],
) -> Result<(), Trouble>
    requires few { length seen.old.items ≤ 8192 }
    requires capacity { 8192 ≤ vec_capacity seen.old }
    requires buffer { length buffer.old ≡ 8192 }
    ensures piece { GoesOnBy (λ log. IsPiece seen.old.items seen.new.items log result)
        (S.log stream.old) (S.log stream.new) }
    ensures few { length seen.new.items ≤ 8192 }
    ensures capacity { 8192 ≤ vec_capacity seen.new }
    ensures buffer { length buffer.new ≡ 8192 }
{
    let left = MAX_OCTETS - seen.len();
    let room = &mut buffer[..left];
    match stream.get(room) {
        Err(error) => Err(Trouble::Broken(error.kind())),
        Ok(0) => Err(Trouble::Closed),
        Ok(n) => {
            seen.extend_from_slice(&room[..n]).unwrap();
            Ok(())
        }
    }
}
