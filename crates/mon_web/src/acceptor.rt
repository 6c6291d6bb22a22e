//! Where clients of HTTP come in.

ghost use Rattle.std.specs.Prelude.{IfOk};
ghost use Rattle.mon_web.specs.Acceptor.{IsOpenAt};

use crate::table::ACCEPTOR;
use mio::net::TcpListener;
use mio::{Interest, Poll, Registry, Token};
use std::io;
use std::net::{Net, SocketAddr};

/// A socket that listens.
///
/// Each ghost relation says what one call did. Code that is generic over the socket has such a
/// relation only from that call.
pub trait Listener {
    ghost use Rattle.std.specs.Prelude.{IfOk, OnOk};
    ghost use Rattle.std.specs.declared.net.socket_addr.SocketAddr.{SocketAddr as Place};

    // The system was asked for a socket that listens at this address, and gave this one.
    ghost bound: { Place → Self → Type 0 };

    // The socket's newcomers end a wait.
    ghost watched: { Self → Self → Type 0 };

    /// Makes a socket that listens at this address; port 0 takes a free one.
    fn listen<R: Net>(rt: &R, at: SocketAddr) -> io::Result<Self>
    where
        Self: Sized,
        ensures { IfOk result (λ socket. bound at socket) };

    /// Lets a newcomer end a wait of this registry's poll.
    fn watch(&mut self, registry: &Registry) -> io::Result<()>
        ensures { OnOk result (watched self.old self.new) };
}

// What the system does is not known, so each relation holds. That each call asks the system for
// just this is trusted, line by line.
impl Listener for TcpListener {
    ghost bound = { λ _ _. Unit {0} };

    ghost watched = { λ _ _. Unit {0} };

    fn listen<R: Net>(rt: &R, at: SocketAddr) -> io::Result<TcpListener> {
        TcpListener::bind(rt, at)
    }

    fn watch(&mut self, registry: &Registry) -> io::Result<()> {
        registry.register(self, Token(ACCEPTOR), Interest::READABLE)
    }
}

/// A listener, and what a station waits by.
#[derive(Drop)]
pub struct AcceptorBy<L> {
    pub(crate) listener: L,
    pub(crate) poll: Poll,
}

/// A listener of the operating system's, and what a station waits by.
pub type Acceptor = AcceptorBy<TcpListener>;

impl<L: Listener + Drop> AcceptorBy<L> {
    /// Listens at this address; port 0 takes a free one.
    ///
    /// # Errors
    /// That of the system, if the address is not available.
    pub fn open<R: Net>(rt: &R, at: SocketAddr) -> io::Result<Self>
        ensures { IfOk result (λ acceptor. IsOpenAt (L.bound at) L.watched acceptor.listener) }
    {
        let poll = Poll::new(rt)?;
        let mut listener = L::listen(rt, at)?;
        listener.watch(poll.registry())?;
        Ok(AcceptorBy { listener, poll })
    }
}

impl AcceptorBy<TcpListener> {
    /// Returns the address that it is at.
    ///
    /// # Errors
    /// That of the system.
    pub fn address(&self) -> io::Result<SocketAddr> {
        self.listener.local_addr()
    }
}
