//! The listener and the connections, and what they and a socket are waited for by.

ghost use Rattle.std.specs.Prelude.{◌≡◌, IfOk, None, option_map};
ghost use Rattle.mon_web.specs.Pages.{view_of, with_round, with_texts};

use crate::acceptor::{Acceptor, AcceptorBy};
use crate::content::Content;
use crate::pages::Pages;
use crate::response::Moment;
use crate::table::{ACCEPTOR, Table};
use mio::event::Source;
use mio::{Events, Interest, Poll, Token};
use std::alloc::Global;
use std::io;
use std::time::Duration;

/// The number of the events of the source that is not HTTP.
const OTHER: usize = ACCEPTOR + 1;

/// How many events are taken at once: at most one of each connection, the listener and the other.
const EVENTS: usize = 64;

/// The HTTP side of a station.
#[derive(Drop)]
pub struct Server<C> {
    poll: Poll,
    events: Events,
    table: Table<C>,
}

impl<C: Content> Server<C> {
    /// Serves at this acceptor what the pages show, with no connections yet.
    ///
    /// # Errors
    /// `OutOfMemory` if there is no memory for it.
    pub fn new(alloc: Global, acceptor: Acceptor, pages: Pages<C>) -> io::Result<Self>
        ensures { IfOk result (λ w. w.table.pages ≡ pages) }
    {
        let AcceptorBy { listener, poll } = acceptor;
        Ok(Server {
            poll,
            events: Events::with_capacity(alloc, EVENTS)?,
            table: Table::new(alloc, listener, pages)?,
        })
    }

    /// What is shown.
    pub fn pages(&self) -> &Pages<C>
        ensures { result.now ≡ self.now.table.pages }
    {
        &self.table.pages
    }

    /// Replaces what the texts that are shown are built from; by nothing if there was no memory for
    /// it.
    pub fn show(&mut self, content: Option<C>)
        ensures { view_of C.says self.new.table.pages
            ≡ with_texts (option_map C.says content) (view_of C.says self.old.table.pages) }
    {
        self.table.pages.show(content);
    }

    /// Takes away what the texts are built from, so that its buffers serve again. Until it is shown
    /// there are no texts.
    pub fn take_content(&mut self) -> Option<C>
        ensures taken { result ≡ self.old.table.pages.content }
        ensures pages { view_of C.says self.new.table.pages
            ≡ with_texts None (view_of C.says self.old.table.pages) }
    {
        self.table.pages.take_content()
    }

    /// Takes note that the round of this number ended at this time, in milliseconds since the
    /// station's start.
    pub fn note_round(&mut self, at: u64, number: u32)
        ensures { view_of C.says self.new.table.pages
            ≡ with_round at number (view_of C.says self.old.table.pages) }
    {
        self.table.pages.note_round(at, number);
    }

    /// Ends a wait also if there is something to receive from this source, which does not wait.
    ///
    /// # Errors
    /// That of the system.
    pub fn watch<S: Source>(&self, source: &mut S) -> io::Result<()> {
        self.poll
            .registry()
            .register(source, Token(OTHER), Interest::READABLE)
    }

    /// Closes who is late; then does one thing for one client, or if there is nothing to do waits
    /// for what comes, for `left` at most.
    ///
    /// # Errors
    /// That of the system, if it cannot be waited.
    pub fn turn(&mut self, at: Moment, left: Duration) -> io::Result<()>
        ensures { view_of C.says self.new.table.pages ≡ view_of C.says self.old.table.pages }
    {
        self.table.close_late(at.now);
        if self.table.turn(self.poll.registry(), at) {
            return Ok(());
        }
        self.wait(left)
    }

    /// Waits for what comes, for `left` at most.
    fn wait(&mut self, left: Duration) -> io::Result<()>
        ensures { self.new.table.pages ≡ self.old.table.pages }
    {
        let longest = self.table.longest_wait().unwrap_or(left);
        self.poll.poll(&mut self.events, Some(left.min(longest)))?;
        for event in self.events.iter() {
            self.table.set_token_ready(event.token());
        }
        if self.events.is_empty() {
            // A newcomer that could not be let in, as without a descriptor, is tried again.
            self.table.set_token_ready(Token(ACCEPTOR));
        }
        Ok(())
    }
}
