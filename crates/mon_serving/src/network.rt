//! What gives ports at which an agent is served.

use crate::port::Port;
use crate::socket_port::SocketPort;
use mon_app::{AppFault, SystemNetwork, unopened};
use mon_udp::Addr;
use std::net::{Net, SocketAddr};
use std::rt::Clock;

/// Opens ports at which an agent is served. That a port was opened only this call shows.
pub trait Listens {
    ghost use Rattle.std.specs.Prelude.{IfErr, IfOk};
    ghost use Rattle.mon_app.specs.AppFault.{IsUnopened};
    ghost use Rattle.mon_app.specs.declared.fault.AppFault.{AppFault as AnyFault};
    ghost use Rattle.mon_udp.specs.declared.addr.Addr.{Addr as AnyAddr};
    ghost use Rattle.std.specs.declared.net.socket_addr.SocketAddr.{SocketAddr as AnySocketAddr};

    type Port: Port + Drop;

    // It opened this port for an address, and this is the port's own.
    ghost has_opened: { Self → AnyAddr → Self.Port → AnySocketAddr → Type 0 };

    // It could not open a port at an address, for this fault.
    ghost has_failed: { Self → AnyAddr → AnyFault → Type 0 };

    /// Opens a port at this address; port 0 takes a free one. Returns the port's own address too.
    ///
    /// # Errors
    /// `SocketFault` if the address is not available, `OutOfMemory`.
    fn listen(&self, at: Addr) -> Result<(Self::Port, SocketAddr), AppFault>
        ensures opened { IfOk result (λ given. has_opened self.now at given.0 given.1) }
        ensures unopened { IfErr result (has_failed self.now at) }
        ensures fault { IfErr result IsUnopened };
}

impl<'a, R: Clock + Net> Listens for SystemNetwork<'a, R> {
    ghost use Rattle.std.specs.Prelude.{◌≡◌};
    ghost use Rattle.mon_app.specs.AppFault.{IsUnopened};

    type Port = SocketPort<'a, R>;

    ghost has_opened = { λ _ at port _. port.from ≡ at };

    ghost has_failed = { λ _ _ fault. IsUnopened fault };

    fn listen(&self, at: Addr) -> Result<(SocketPort<'a, R>, SocketAddr), AppFault> {
        let port = SocketPort::open(self.rt, at).map_err(unopened)?;
        let stands = port.address().map_err(unopened)?;
        Ok((port, stands))
    }
}
