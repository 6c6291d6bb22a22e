//! What gives wires to agents.

use crate::socket::SocketWire;
use crate::wire::Wire;
use mon_app::{AppFault, SystemNetwork, unopened};
use mon_udp::Addr;
use std::net::Net;
use std::rt::Clock;

/// Opens wires to agents. That a wire was opened only this call shows.
pub trait Opens {
    ghost use Rattle.std.specs.Prelude.{IfErr, IfOk};
    ghost use Rattle.mon_app.specs.AppFault.{IsUnopened};
    ghost use Rattle.mon_app.specs.declared.fault.AppFault.{AppFault as AnyFault};
    ghost use Rattle.mon_udp.specs.declared.addr.Addr.{Addr as AnyAddr};

    type Wire: Wire + Drop;

    // It opened this wire to the agent at an address.
    ghost has_opened: { Self → AnyAddr → Self.Wire → Type 0 };

    // It could not open a wire to the agent at an address, for this fault.
    ghost has_failed: { Self → AnyAddr → AnyFault → Type 0 };

    /// Opens a wire to the agent at this address.
    ///
    /// # Errors
    /// `SocketFault` if the system gives no socket, `OutOfMemory`.
    fn open(&self, agent: Addr) -> Result<Self::Wire, AppFault>
        ensures opened { IfOk result (has_opened self.now agent) }
        ensures unopened { IfErr result (has_failed self.now agent) }
        ensures fault { IfErr result IsUnopened };
}

impl<'a, R: Clock + Net> Opens for SystemNetwork<'a, R> {
    ghost use Rattle.std.specs.Prelude.{◌≡◌};
    ghost use Rattle.mon_app.specs.AppFault.{IsUnopened};

    type Wire = SocketWire<'a, R>;

    ghost has_opened = { λ _ agent wire. wire.agent ≡ agent };

    ghost has_failed = { λ _ _ fault. IsUnopened fault };

    fn open(&self, agent: Addr) -> Result<SocketWire<'a, R>, AppFault> {
        SocketWire::open(self.rt, agent).map_err(unopened)
    }
}
