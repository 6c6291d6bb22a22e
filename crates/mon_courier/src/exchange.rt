//! The request of a text, and what went and came in an attempt to deliver it.

ghost use Rattle.std.specs.Prelude.{◌≡◌, ◌≤◌, ◌+◌, [], IfOk, length, vec_capacity};
ghost use Rattle.std.specs.IoError.{error_kind};
ghost use Rattle.mon_courier.specs.Exchange.{AreSteps, IsPiece, IsReceiving, IsSending, IsStep, after_octets, empty, filled, is_early, receiving_failed, restarted, sending_failed};

use crate::news::Cause;
use crate::stream::Stream;
use mon_http_client::{Progress, Target, put_post, read_response};
use std::alloc::{AllocError, Global};
use std::io::{self, ErrorKind};
use std::marker::Model;

/// The most octets of a response that are received.
const MAX_RESPONSE: usize = 8192;

/// The octets of a request besides its host and its path, at most: 4,096 of its body, and those of
/// its head.
const MAX_REST: usize = 4352;

/// Why the calls of a turn end.
#[derive(Clone, Copy, Debug, PartialEq, Eq)]
pub(crate) enum Stop {
    /// The stream takes or gives nothing now, or there were enough calls.
    Waits,
    /// The attempt failed.
    Fails(Cause),
    /// A response of this status came.
    Responds(u16),
}

/// What one call comes to.
#[derive(Clone, Copy, Debug, PartialEq, Eq)]
pub(crate) enum CallOutcome {
    /// Another call may be made at once.
    GoesOn,
    /// No further call is made in this turn.
    Stops(Stop),
}

/// The request of a text, and what went and came in an attempt to deliver it. All memory is
/// allocated at the start.
#[derive(Drop)]
pub(crate) struct Exchange {
    host: Vec<u8>,
    path: Vec<u8>,
    request: Vec<u8>,
    /// How many octets of the request the stream took.
    sent: usize,
    /// What came of a response.
    seen: Vec<u8>,
    /// Where the stream puts octets.
    buffer: Vec<u8>,
}

impl Model for Exchange {
    ghost use Rattle.std.specs.Prelude.{◌≡◌, ◌≤◌, ◌+◌, drop, length, vec_capacity};
    ghost use Rattle.mon_courier.specs.Exchange.{Parts};

    ghost Value = { Parts };

    ghost view = { λ e. record {
      host = e.host.items;
      path = e.path.items;
      request = e.request.items;
      unsent = drop e.sent e.request.items;
      seen = e.seen.items;
    } };

    ghost invariant = { λ e. (length e.host.items + length e.path.items + 4352
        ≤ vec_capacity e.request)
        × (e.sent ≤ length e.request.items) × (length e.seen.items ≤ 8192)
        × (8192 ≤ vec_capacity e.seen) × (length e.buffer.items ≡ 8192) };
}

/// Makes a buffer of 8,192 octets.
fn buffer(alloc: Global) -> Result<Vec<u8>, AllocError>
    ensures { IfOk result (λ v. length v.items ≡ 8192) }
{
    vec![in alloc; 0u8; MAX_RESPONSE]
}

/// Makes a buffer for a request to this host and this path.
fn request_buffer(alloc: Global, host: &[u8], path: &[u8]) -> Result<Vec<u8>, AllocError>
    ensures none { IfOk result (λ v. v.items ≡ []) }
    ensures capacity { IfOk result (λ v. length host.now + length path.now + 4352
        ≤ vec_capacity v) }
{
    match host.len().checked_add(path.len()) {
        Some(len) => match len.checked_add(MAX_REST) {
            Some(len) => Vec::with_capacity(alloc, len),
            None => Err(AllocError),
        },
        None => Err(AllocError),
    }
}

impl Exchange {
    /// Makes one with no request yet, for this target.
    ///
    /// # Errors
    /// `AllocError` if there is no memory for it.
    pub(crate) fn new(alloc: Global, target: &Target<'_>) -> Result<Self, AllocError>
        ensures { IfOk result (λ e. e ≡ empty target.now.host.now target.now.path.now) }
    {
        Ok(Exchange {
            host: target.host.to_vec(alloc)?,
            path: target.path.to_vec(alloc)?,
            request: request_buffer(alloc, target.host, target.path)?,
            sent: 0,
            seen: Vec::with_capacity(alloc, MAX_RESPONSE)?,
            buffer: buffer(alloc)?,
        })
    }

    /// Makes the request of a text, of which nothing went yet. It allocates nothing.
    pub(crate) fn fill(&mut self, text: &[u8])
        requires { length text.now ≤ 4096 }
        ensures { self.new ≡ filled text.now self.old }
    {
        self.sent = 0;
        self.seen.clear();
        self.request.clear();
        put_post(&mut self.request, &self.host, &self.path, text).unwrap();
    }

    /// Begins another attempt with the same request.
    pub(crate) fn restart(&mut self)
        ensures { self.new ≡ restarted self.old }
    {
        self.sent = 0;
        self.seen.clear();
    }

    /// Asks the stream once: to send what is left of the request, or for octets of the response.
    fn step<S: Stream>(&mut self, stream: &mut S) -> CallOutcome
        ensures { IsStep S.asked_write S.asked_read stream.old self.old stream.new self.new result }
    {
        if self.sent < self.request.len() {
            self.send(stream)
        } else {
            self.receive(stream)
        }
    }

    /// Sends what is left of the request, as much as the stream takes.
    fn send<S: Stream>(&mut self, stream: &mut S) -> CallOutcome
        ensures { IsSending S.asked_write stream.old self.old stream.new self.new result }
    {
        match stream.put(&self.request[self.sent..]) {
            Ok(0) => CallOutcome::Stops(Stop::Fails(Cause::Closed)),
            Ok(n) => {
                self.sent += n;
                CallOutcome::GoesOn
            }
            Err(error) => CallOutcome::Stops(sending_failed(error.kind())),
        }
    }

    /// Reads a further piece of the response, and judges what came.
    fn receive<S: Stream>(&mut self, stream: &mut S) -> CallOutcome
        ensures { IsReceiving S.asked_read stream.old self.old stream.new self.new result }
    {
        match read_more(stream, &mut self.seen, &mut self.buffer) {
            Ok(0) => CallOutcome::Stops(Stop::Fails(Cause::Closed)),
            Ok(_) => after_octets(read_response(&self.seen)),
            Err(error) => CallOutcome::Stops(receiving_failed(error.kind())),
        }
    }

    /// Asks the stream again and again, at most `left` times, as long as it takes or gives
    /// something and no response came.
    pub(crate) fn go_on<S: Stream>(&mut self, stream: &mut S, left: u8) -> Stop
        ensures { AreSteps S.asked_write S.asked_read left stream.old self.old stream.new self.new
            result }
    {
        if left == 0 {
            return Stop::Waits;
        }
        match self.step(stream) {
            CallOutcome::GoesOn => self.go_on(stream, left - 1),
            CallOutcome::Stops(stop) => stop,
        }
    }
}

/// Reads a further piece, by way of a buffer, to the end of the octets that came, and returns its
/// number of octets. 0 if the other side sends no more.
fn read_more<S: Stream>(stream: &mut S, seen: &mut Vec<u8>, buffer: &mut [u8]) -> io::Result<usize>
    requires few { length seen.old.items ≤ 8192 }
    requires capacity { 8192 ≤ vec_capacity seen.old }
    requires buffer { length buffer.old ≡ 8192 }
    ensures piece { IsPiece S.asked_read stream.old seen.old.items stream.new seen.new.items
        result }
    ensures few { length seen.new.items ≤ 8192 }
    ensures capacity { 8192 ≤ vec_capacity seen.new }
    ensures buffer { length buffer.new ≡ 8192 }
{
    let left = MAX_RESPONSE - seen.len();
    let room = &mut buffer[..left];
    match stream.get(room) {
        Err(error) => Err(error),
        Ok(n) => {
            seen.extend_from_slice(&room[..n]).unwrap();
            Ok(n)
        }
    }
}

/// Returns what a call comes to after octets of the response came.
fn after_octets(progress: Progress) -> CallOutcome
    ensures { result ≡ after_octets progress }
{
    match progress {
        Progress::More => CallOutcome::GoesOn,
        Progress::Response { status, .. } => CallOutcome::Stops(Stop::Responds(status)),
        Progress::Refused => CallOutcome::Stops(Stop::Fails(Cause::NoResponse)),
    }
}

/// Returns `true` if a call that failed so may succeed later: the stream is not ready or not yet
/// connected, or a signal came.
fn is_early(kind: ErrorKind) -> bool
    ensures { result ≡ is_early kind }
{
    match kind {
        ErrorKind::WouldBlock | ErrorKind::Interrupted | ErrorKind::NotConnected => true,
        _ => false,
    }
}

/// Returns why calls end after octets could not be sent.
fn sending_failed(kind: ErrorKind) -> Stop
    ensures { result ≡ sending_failed kind }
{
    if is_early(kind) {
        Stop::Waits
    } else {
        Stop::Fails(Cause::Send(kind))
    }
}

/// Returns why calls end after none could be received.
fn receiving_failed(kind: ErrorKind) -> Stop
    ensures { result ≡ receiving_failed kind }
{
    if is_early(kind) {
        Stop::Waits
    } else {
        Stop::Fails(Cause::Receive(kind))
    }
}
