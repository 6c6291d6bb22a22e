//! Sockets at the addresses that were asked for.

ghost use Rattle.std.specs.Prelude.{◌≡◌, IfOk};
ghost use Rattle.mon_udp.specs.Addr.{addr_in};
ghost use Rattle.mon_udp.specs.Bound.{IsBound, does_for};

use crate::addr::Addr;
use std::io;
use std::net::{Net, SocketAddr};

/// What is bound to an address, as a socket of the system.
pub trait Binds: Sized + Drop {
    ghost use Rattle.std.specs.Prelude.{IfOk};
    ghost use Rattle.std.specs.declared.net.socket_addr.SocketAddr.{SocketAddr as AnySocketAddr};
    ghost use Rattle.mon_udp.specs.declared.addr.Addr.{Addr as AnyAddr};

    // A call of `bind` was asked for this address. Code that is generic over what is bound has this
    // only from a call of `bind`.
    ghost bound: { Self → AnyAddr → Type 0 };

    // The system said that it is at this address. Had only from a call of `bound_to`.
    ghost stands: { Self → AnySocketAddr → Type 0 };

    /// Binds one to this address; port 0 takes a free one.
    ///
    /// # Errors
    /// That of the system, if the address is not available.
    fn bind<R: Net>(rt: &R, at: Addr) -> io::Result<Self>
        ensures { IfOk result (λ socket. bound socket at) };

    /// Returns the address that it is at.
    ///
    /// # Errors
    /// That of the system.
    fn bound_to(&self) -> io::Result<SocketAddr>
        ensures { IfOk result (stands self.now) };
}

/// Opens a socket at this address; port 0 takes a free one.
///
/// # Errors
/// That of the system, or `AddrNotAvailable` if the system bound it to another address.
pub fn open_at<S: Binds, R: Net>(rt: &R, at: Addr) -> io::Result<S>
    ensures { IfOk result (λ socket. IsBound (S.bound socket) (S.stands socket) at) }
{
    let socket = S::bind(rt, at)?;
    if does_for(at, socket.bound_to()?) {
        Ok(socket)
    } else {
        Err(io::Error::from(io::ErrorKind::AddrNotAvailable))
    }
}

/// Returns `true` if a socket at `there` does for the address that was asked for.
fn does_for(asked: Addr, there: SocketAddr) -> bool
    ensures { result ≡ does_for asked (addr_in there) }
{
    match Addr::of(there) {
        Some(at) => at.octets == asked.octets && (asked.port == 0 || at.port == asked.port),
        None => false,
    }
}
