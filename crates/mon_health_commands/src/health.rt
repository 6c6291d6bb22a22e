//! The command `healthz`.

ghost use Rattle.std.specs.Prelude.{◌≡◌, IfOk, Some};
ghost use Rattle.mon_host.specs.Log.{GoesOnBy};
ghost use Rattle.mon_udp.specs.Addr.{addr_in};
ghost use Rattle.mon_health_commands.specs.Health.{IsAddress, IsAsked, IsHealthz, IsOutcome, request_to, stations_by};

use crate::asking::{LIMIT, MAX_OCTETS, exchange};
use crate::stream::Connects;
use crate::trouble::Trouble;
use mon_console::{Failure, agent_at, print};
use mon_host::Host;
use mon_http_client::put_get;
use mon_udp::Addr;
use std::alloc::{AllocError, Global};
use std::net::SocketAddr;

/// The status of a response that says that all is well (RFC 9110 section 15.3.1).
const OK: u16 = 200;

/// Asks the station at an address whether rounds end in time, and prints "healthy" if it says so.
pub fn ask_health<C: Connects, H: Host>(
    alloc: Global,
    host: &mut H,
    network: &C,
    word: &str,
) -> Result<(), Failure>
    ensures { GoesOnBy (λ log. IsHealthz (stations_by (C.has_connected network.now)
        (C.has_failed network.now) C.Stream.log) word.now log result)
        (H.log host.old) (H.log host.new) }
{
    let at = address_in(alloc, word)?;
    ask(alloc, network, word, at)?;
    print(alloc, host, b"healthy\n")
}

/// Returns the address of a station that a word gives.
fn address_in(alloc: Global, word: &str) -> Result<Addr, Failure>
    ensures { IsAddress word.now result }
{
    match agent_at(alloc, word) {
        Ok(station) => Ok(station.address),
        Err(failure) => Err(failure),
    }
}

/// Asks the station at an address for its health.
fn ask<C: Connects>(alloc: Global, network: &C, word: &str, at: Addr) -> Result<(), Failure>
    ensures { IsAsked (stations_by (C.has_connected network.now) (C.has_failed network.now)
        C.Stream.log) word.now at result }
{
    match outcome_of(alloc, network, word, at.socket())? {
        Ok(OK) => Ok(()),
        Ok(status) => Err(Trouble::Status(status).failure(alloc, word)),
        Err(trouble) => Err(trouble.failure(alloc, word)),
    }
}

/// Returns what came of asking the station at an address. All memory is had before it is asked.
fn outcome_of<C: Connects>(
    alloc: Global,
    network: &C,
    word: &str,
    at: SocketAddr,
) -> Result<Result<u16, Trouble>, AllocError>
    ensures { IfOk result (IsOutcome (stations_by (C.has_connected network.now)
        (C.has_failed network.now) C.Stream.log) word.now at) }
{
    let mut request = Vec::new(alloc);
    put_get(&mut request, word.as_bytes(), b"/healthz")?;
    let mut seen = Vec::with_capacity(alloc, MAX_OCTETS)?;
    let mut buffer = vec![in alloc; 0; MAX_OCTETS]?;
    match network.connect(at, LIMIT) {
        Err(error) => Ok(Err(Trouble::Broken(error.kind()))),
        Ok(mut stream) => Ok(exchange(&mut stream, request.as_slice(), &mut seen, &mut buffer)),
    }
}
