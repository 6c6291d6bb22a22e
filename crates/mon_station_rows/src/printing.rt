//! What a station answers, as text.

use mon_row_texts::{put, put_digits, put_refused};
use mon_station::{Outgoing, StationFault, To, Told};
use std::fmt::Write;

/// Appends the samples that were taken, what became of a claim, the target that gave up, and each
/// datagram that is sent.
pub(crate) fn put_told(text: &mut String, told: &Told) -> Option<()> {
    put(text, "ok")?;
    for (instance, sample) in told.taken.as_slice() {
        let (boots, time) = (sample.boots(), sample.time());
        write!(text, " took {instance} {boots}:{time} {}", sample.number()).ok()?;
    }
    if let Some(noted) = told.noted {
        write!(text, " {noted:?}").ok()?;
    }
    if let Some(target) = told.given_up {
        write!(text, " gave up {target}").ok()?;
    }
    for out in told.sends.as_slice() {
        put_sent(text, out)?;
    }
    Some(())
}

/// Appends a datagram that is sent, and where it goes.
pub(crate) fn put_sent(text: &mut String, out: &Outgoing) -> Option<()> {
    match out.to {
        To::Target(target) => write!(text, " target {target} ").ok()?,
        To::Peer(peer) => write!(text, " peer {peer} ").ok()?,
    }
    put_digits(text, out.octets.as_slice())
}

/// Appends the fault's number and name, and its cause's, if it has one.
pub(crate) fn put_fault(text: &mut String, fault: StationFault) -> Option<()> {
    put_refused(text, fault.number(), fault.name())?;
    let (number, name) = match fault {
        StationFault::Poll(cause) => (cause.number(), cause.name()),
        StationFault::Response(cause) => (cause.number(), cause.name()),
        StationFault::Exchange(cause) => (cause.number(), cause.name()),
        StationFault::Keeper(cause) => (cause.number(), cause.name()),
        StationFault::Image(cause) => (cause.number(), cause.name()),
        StationFault::OutOfMemory | StationFault::NoMoreIncarnations => return Some(()),
    };
    write!(text, " {number} {name}").ok()
}
