//! A client: its stream, and what came and goes on it.

ghost use Rattle.std.specs.Prelude.{◌≡◌};
ghost use Rattle.std.specs.IoError.{error_kind};
ghost use Rattle.mon_web.specs.Pages.{view_of};
ghost use Rattle.mon_web.specs.Client.{IsAfterSending, IsTurn, after_error, after_reading};

use crate::content::Content;
use crate::pages::Pages;
use crate::response::{Moment, respond};
use crate::slot::Stage;
use crate::stream::{Stream, receive_part, send_part};
use mio::net::TcpStream;
use mio::{Interest, Registry, Token};
use mon_http::Connection;
use std::alloc::Global;
use std::io::{self, ErrorKind};

/// A client.
#[derive(Drop)]
pub(crate) struct Client<S> {
    stream: S,
    connection: Connection,
}

/// What a client's turn came to.
#[derive(Clone, Copy, Debug, PartialEq, Eq)]
pub(crate) enum Turn {
    /// Nothing could be done: it waits for the client.
    Waits,
    /// Something was done.
    GoesOn,
    /// A stage starts.
    Begins(Stage),
    /// It is over.
    Ends,
}

impl Client<TcpStream> {
    /// A client that nothing came from yet. Its stream is registered under this token.
    pub(crate) fn new(
        alloc: Global,
        registry: &Registry,
        stream: TcpStream,
        token: Token,
    ) -> io::Result<Self> {
        let mut stream = stream;
        registry.register(&mut stream, token, Interest::READABLE | Interest::WRITABLE)?;
        let _ = stream.set_nodelay(true);
        Ok(Client {
            stream,
            connection: Connection::new(alloc)?,
        })
    }
}

impl<S: Stream> Client<S> {
    /// Does one thing for the client: sends a part of its response, or answers it, or reads once.
    /// Octets are read into the buffer. Those after the last response are not looked at.
    pub(crate) fn turn<C: Content>(
        &mut self,
        pages: &mut Pages<C>,
        buffer: &mut [u8],
        at: Moment,
    ) -> Turn
        ensures turn { IsTurn S.asked_write S.asked_read S.asked_end (view_of C.says pages.old) at
            buffer.new self.old self.new result }
        ensures pages { view_of C.says pages.new ≡ view_of C.says pages.old }
    {
        if !self.connection.pending().is_empty() {
            return match send_part(&mut self.stream, &mut self.connection) {
                Ok(_) => self.after_sending(),
                Err(error) => after_error(error),
            };
        }
        if self.connection.is_closing() {
            return after_reading(self.stream.get(buffer));
        }
        match respond(&mut self.connection, pages, at) {
            Ok(true) => Turn::Begins(Stage::Sending),
            Ok(false) => {
                after_reading(receive_part(&mut self.stream, &mut self.connection, buffer))
            }
            Err(_) => Turn::Ends,
        }
    }

    /// Returns what comes after a part was sent.
    fn after_sending(&mut self) -> Turn
        ensures connection { self.new.connection ≡ self.old.connection }
        ensures after { IsAfterSending S.asked_end self.old.connection.unsent
            self.old.connection.closing self.old.stream self.new.stream result }
    {
        if !self.connection.pending().is_empty() {
            return Turn::GoesOn;
        }
        if !self.connection.is_closing() {
            return Turn::Begins(Stage::Idle);
        }
        match self.stream.end() {
            Ok(()) => Turn::Begins(Stage::Closing),
            Err(_) => Turn::Ends,
        }
    }
}

/// Returns what a turn comes to after a read.
fn after_reading(given: io::Result<usize>) -> Turn
    ensures { result ≡ after_reading given }
{
    match given {
        Ok(0) => Turn::Ends,
        Ok(_) => Turn::GoesOn,
        Err(error) => after_error(error),
    }
}

/// Returns what a turn comes to if a call failed so.
fn after_error(error: io::Error) -> Turn
    ensures { result ≡ after_error (error_kind error) }
{
    match error.kind() {
        ErrorKind::WouldBlock => Turn::Waits,
        ErrorKind::Interrupted => Turn::GoesOn,
        _ => Turn::Ends,
    }
}
