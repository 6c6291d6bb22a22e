//! Addresses of UDP over IPv4.

ghost use Rattle.std.specs.Prelude.{◌≡◌, Some};
ghost use Rattle.mon_udp.specs.Addr.{addr_in, addr_of};

use std::fmt;
use std::net::{Ipv4Addr, SocketAddr, SocketAddrV4};

/// An address of UDP over IPv4.
#[derive(Clone, Copy, Debug, PartialEq, Eq)]
pub struct Addr {
    /// The IPv4 address.
    pub octets: [u8; 4],
    /// The port.
    pub port: u16,
}

impl Addr {
    /// Returns the address that a text of the form `a.b.c.d:port` writes: four decimal numbers up
    /// to 255 without leading zeros, and a decimal number up to 65535.
    pub fn parse(text: &str) -> Option<Self>
        ensures { result ≡ addr_of text.now }
    {
        match text.parse::<SocketAddrV4>() {
            Ok(address) => Some(Addr {
                octets: address.ip().octets(),
                port: address.port(),
            }),
            Err(_) => None,
        }
    }

    /// Returns the address that the system's means. `None` if that is of IPv6.
    pub fn of(address: SocketAddr) -> Option<Self>
        ensures { result ≡ addr_in address }
    {
        match address {
            SocketAddr::V4(address) => Some(Addr {
                octets: address.ip().octets(),
                port: address.port(),
            }),
            SocketAddr::V6(_) => None,
        }
    }

    /// Returns the address as the system has it.
    pub fn socket(self) -> SocketAddr
        ensures { addr_in result ≡ Some self }
    {
        SocketAddr::V4(SocketAddrV4::new(Ipv4Addr::from(self.octets), self.port))
    }
}

impl fmt::Display for Addr {
    ghost use Rattle.mon_udp.specs.Addr.{addr_text};

    ghost output = { λ a. Some (addr_text a) };

    /// Writes `a.b.c.d:port`.
    fn fmt<W: fmt::Write>(&self, f: &mut fmt::Formatter<W>) -> fmt::Result {
        let (ip, port) = (Ipv4Addr::from(self.octets), self.port);
        write!(f, "{ip}:{port}")
    }
}
