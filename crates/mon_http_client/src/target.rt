//! The target that a URL names.

ghost use Rattle.std.specs.Prelude.{◌≡◌, ◌≤◌, ◌==◌, Ok, Err, IfErr, IfOk, length};
ghost use Rattle.std.specs.List.{list_any};
ghost use Rattle.mon_udp.specs.Addr.{addr_of};
ghost use Rattle.mon_http_client.specs.Target.{address_in, before_slash, is_path_octet, passes, path_in, target_in, target_of};

use mon_udp::{Addr, laws};
use std::str;

/// Where a request goes.
#[derive(Clone, Copy, Debug, PartialEq, Eq)]
pub struct Target<'a> {
    /// The address and the port as the URL has them, for the field Host.
    pub host: &'a [u8],
    /// The host as an address.
    pub address: Addr,
    /// The path and the query, `/` if the URL has none.
    pub path: &'a [u8],
}

/// Why a text is no target. The first in this order is reported.
#[derive(Clone, Copy, Debug, PartialEq, Eq)]
pub enum TargetFault {
    /// It begins with `https://`, which is a proxy's job.
    Https,
    /// It does not begin with `http://`, in small letters.
    Scheme,
    /// A user is named before the address.
    UserInfo,
    /// The address is one of IPv6.
    Ipv6,
    /// What is before the path is no IPv4 address in numbers with a port.
    Address,
    /// The port is 0.
    Port,
    /// It has a fragment.
    Fragment,
    /// The path or the query has an octet that none has (RFC 3986, section 3.3).
    Path,
}

/// Returns `true` if one of the octets is this one.
fn has_octet(octets: &[u8], wanted: u8) -> bool
    ensures { result ≡ list_any (λ b. b == wanted) octets.now }
{
    octets.iter().any(|octet| *octet == wanted)
}

/// Returns the octets before the first slash.
fn before_slash(octets: &[u8]) -> &[u8]
    ensures text { result.now ≡ before_slash octets.now }
    ensures within { length result.now ≤ length octets.now }
{
    let mut end = 0;
    while end < octets.len() && octets[end] != b'/' {
        end += 1;
    }
    &octets[..end]
}

/// Returns `true` if an octet is one of a path or a query by itself.
fn is_path_octet(octet: u8) -> bool
    ensures { result ≡ is_path_octet octet }
{
    octet.is_ascii_alphanumeric() || has_octet(b"-._~!$&'()*+,;=:@/?", octet)
}

/// Returns `true` if these are octets of a path or a query.
fn passes(octets: &[u8]) -> bool
    ensures { result ≡ passes 0 octets.now }
{
    let mut owed = 0u8;
    for i in 0..octets.len() {
        let octet = octets[i];
        if owed > 0 {
            if !octet.is_ascii_hexdigit() {
                return false;
            }
            owed -= 1;
        } else if octet == b'%' {
            owed = 2;
        } else if !is_path_octet(octet) {
            return false;
        }
    }
    owed == 0
}

/// Returns the address that octets write.
fn address_at(octets: &[u8]) -> Option<Addr>
    ensures { result ≡ addr_of octets.now }
{
    laws::addresses();
    match str::from_utf8(octets) {
        Ok(text) => Addr::parse(text),
        Err(_) => None,
    }
}

/// Returns the address that is before the path.
fn address_in(host: &[u8]) -> Result<Addr, TargetFault>
    ensures { result ≡ address_in host.now }
{
    if has_octet(host, b'@') {
        return Err(TargetFault::UserInfo);
    }
    if host.starts_with(b"[") {
        return Err(TargetFault::Ipv6);
    }
    match address_at(host) {
        None => Err(TargetFault::Address),
        Some(address) => {
            if address.port == 0 {
                Err(TargetFault::Port)
            } else {
                Ok(address)
            }
        }
    }
}

/// Returns the path and the query, `/` if there is none.
fn path_in(rest: &[u8]) -> Result<&[u8], TargetFault>
    ensures path { IfOk result (λ path. path_in rest.now ≡ Ok path.now) }
    ensures fault { IfErr result (λ fault. path_in rest.now ≡ Err fault) }
{
    if has_octet(rest, b'#') {
        Err(TargetFault::Fragment)
    } else if !passes(rest) {
        Err(TargetFault::Path)
    } else if rest.is_empty() {
        Ok(b"/")
    } else {
        Ok(rest)
    }
}

/// Returns the target of a URL whose scheme was read: `rest` is what follows `http://`.
fn target_in(rest: &[u8]) -> Result<Target<'_>, TargetFault>
    ensures target { IfOk result (λ t. target_in rest.now
        ≡ Ok (t.host.now, t.address, t.path.now)) }
    ensures fault { IfErr result (λ fault. target_in rest.now ≡ Err fault) }
{
    let host = before_slash(rest);
    match address_in(host) {
        Ok(address) => match path_in(&rest[host.len()..]) {
            Ok(path) => Ok(Target {
                host,
                address,
                path,
            }),
            Err(fault) => Err(fault),
        },
        Err(fault) => Err(fault),
    }
}

/// Reads a URL of the form `http://ADDRESS:PORT/PATH`: an IPv4 address in numbers, a port, and a
/// path and a query by RFC 3986, which may be absent.
///
/// # Errors
/// The first [`TargetFault`] that it has.
pub fn parse_target(text: &str) -> Result<Target<'_>, TargetFault>
    ensures target { IfOk result (λ t. target_of text.now
        ≡ Ok (t.host.now, t.address, t.path.now)) }
    ensures fault { IfErr result (λ fault. target_of text.now ≡ Err fault) }
{
    let octets = text.as_bytes();
    if octets.starts_with(b"https://") {
        return Err(TargetFault::Https);
    }
    if !octets.starts_with(b"http://") {
        return Err(TargetFault::Scheme);
    }
    target_in(&octets[7..])
}
