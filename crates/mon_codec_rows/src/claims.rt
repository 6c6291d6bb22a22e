//! Claims: what octets are read as, and what is written of that.

ghost use Rattle.mon_exchange.specs.Claim.{IsSendable, claim_of};

use mon_exchange::{Claim, ClaimRef, read_claim, write_claim};
use mon_row_texts::{octets, put, put_digits, put_fault, put_name};
use std::alloc::Global;

/// Appends the claim that these octets spell, its size and its octets as they are written; or the
/// fault.
pub(crate) fn row(alloc: Global, text: &mut String, digits: &str) -> Option<()> {
    let octets = octets(alloc, digits)?;
    match read_claim(alloc, octets.as_slice()) {
        Ok(claim) => put_claim(alloc, text, &claim),
        Err(why) => put_fault(text, why.number(), why.name()),
    }
}

fn put_claim(alloc: Global, text: &mut String, claim: &Claim) -> Option<()>
    requires { IsSendable claim.now }
{
    put_fields(alloc, text, claim)?;
    for sample in claim.samples.as_slice() {
        let (boots, time, mark) = (sample.boots(), sample.time(), sample.discontinuity());
        let (kind, value) = (sample.kind().name(), sample.value());
        write!(text, " {boots}:{time}:{mark}:{kind}:{value}").ok()?;
    }
    put_written(alloc, text, &claim.lend())
}

fn put_fields(alloc: Global, text: &mut String, claim: &Claim) -> Option<()> {
    let kind = claim.kind.octet();
    let (station, incarnation, serial) = (claim.station, claim.incarnation, claim.serial);
    write!(text, "{kind} {station} {incarnation} {serial} ").ok()?;
    put_digits(text, claim.engine.as_slice())?;
    put(text, " ")?;
    put_name(alloc, text, &claim.name)
}

fn put_written(alloc: Global, text: &mut String, claim: &ClaimRef) -> Option<()>
    requires { IsSendable (claim_of claim.now) }
{
    let octets = write_claim(alloc, claim).ok()?;
    write!(text, " {} ", octets.len()).ok()?;
    put_digits(text, octets.as_slice())
}
