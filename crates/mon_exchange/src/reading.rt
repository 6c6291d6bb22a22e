//! Reading claims from left to right. Each reader returns what it read, or the first fault.

ghost use Rattle.std.specs.Prelude.{◌≡◌, ◌≢◌, ◌≤◌, ◌<◌, IfOk, IfErr, Ok, length};
ghost use Rattle.mon_oid.specs.Oid.{IsOid};
ghost use Rattle.mon_fields.specs.Reading.{AreOctets, Gives as Fields};
ghost use Rattle.mon_exchange.specs.declared.claim.Claim.{Claim};
ghost use Rattle.mon_exchange.specs.Claim.{SpellsClaim};
ghost use Rattle.mon_exchange.specs.Fault.{number_of};
ghost use Rattle.mon_exchange.specs.Reading.{Fails, Gives, octet_is, claim_kind_at, positive_at, within_at, engine_at, sub_identifiers_at, is_unrooted, oid_at, claimed_at, all_read, version_at, claim_at};

use crate::claim::{Claim, ClaimKind};
use crate::fault::ExchangeFault;
use mon_ber::Octets;
use mon_fields::{LayoutFault, Reader, SampleList};
use mon_oid::Oid;
use smallvec::SmallVec;
use std::alloc::Global;

/// Reads this octet, else the fault.
#[tactic(auto, unfolding(crate::specs::Reading::octet_is))]
fn octet_is(wanted: u8, fault: ExchangeFault, reader: &mut Reader<'_>) -> Result<(), ExchangeFault>
    ensures { Gives (λ _. reader.new) result (octet_is wanted fault reader.old) }
{
    if reader.octet()? != wanted {
        return Err(fault);
    }
    Ok(())
}

/// Reads the letters MX and the version.
#[tactic(auto, unfolding(crate::specs::Reading::version_at))]
fn version_at(reader: &mut Reader<'_>) -> Result<(), ExchangeFault>
    ensures { Gives (λ _. reader.new) result (version_at reader.old) }
{
    octet_is(b'M', ExchangeFault::NotAClaim, reader)?;
    octet_is(b'X', ExchangeFault::NotAClaim, reader)?;
    octet_is(1, ExchangeFault::BadVersion, reader)
}

/// Reads a kind of claim.
#[tactic(auto, unfolding(crate::specs::Reading::claim_kind_at))]
fn claim_kind_at(reader: &mut Reader<'_>) -> Result<ClaimKind, ExchangeFault>
    ensures { Gives (λ kind. (kind, reader.new)) result (claim_kind_at reader.old) }
{
    let octet = reader.octet()?;
    if octet == 1 {
        return Ok(ClaimKind::Offer);
    }
    if octet == 2 {
        return Ok(ClaimKind::Confirm);
    }
    Err(ExchangeFault::NotAClaim)
}

/// Reads a number that is not 0.
#[tactic(auto, unfolding(crate::specs::Reading::positive_at))]
fn positive_at(reader: &mut Reader<'_>) -> Result<u32, ExchangeFault>
    ensures { Gives (λ number. (number, reader.new)) result (positive_at reader.old) }
{
    let number = reader.number()?;
    if number == 0 {
        return Err(ExchangeFault::NotAClaim);
    }
    Ok(number)
}

/// Reads an octet from `least` to `most`, else the fault.
#[tactic(auto, unfolding(crate::specs::Reading::within_at))]
fn within_at(
    least: u8,
    most: u8,
    fault: ExchangeFault,
    reader: &mut Reader<'_>,
) -> Result<u8, ExchangeFault>
    ensures octets { AreOctets reader.old }
    ensures gives { Gives (λ octet. (octet, reader.new)) result
        (within_at least most fault reader.old) }
    ensures within { IfOk result (λ octet. (least ≤ octet) × (octet ≤ most)) }
{
    let octet = reader.octet()?;
    if octet < least || octet > most {
        return Err(fault);
    }
    Ok(octet)
}

/// Reads an engine id after its length.
#[tactic(auto, unfolding(crate::specs::Reading::engine_at))]
fn engine_at<'a>(reader: &mut Reader<'a>) -> Result<&'a [u8], ExchangeFault>
    ensures { Gives (λ engine. (engine.now, reader.new)) result (engine_at reader.old) }
{
    let len = within_at(5, 32, ExchangeFault::BadName, reader)?;
    Ok(reader.take(usize::from(len))?)
}

/// Reads `count` numbers of four octets each. Up to 16 allocate nothing.
#[tactic(auto, unfolding(crate::specs::Reading::sub_identifiers_at))]
fn sub_identifiers_at(
    alloc: Global,
    count: u8,
    reader: &mut Reader<'_>,
) -> Result<SmallVec<u32, 16>, LayoutFault>
    ensures { Fields (λ numbers. (numbers.items, reader.new)) result
        (sub_identifiers_at count reader.old) }
{
    let mut numbers = SmallVec::new(alloc);
    while numbers.len() < usize::from(count) {
        let number = reader.number()?;
        numbers.push(number)?;
    }
    Ok(numbers)
}

/// Returns `true` if the first two numbers are out of the range of an identifier's (RFC 2578
/// section 3.5).
#[tactic(auto, unfolding(crate::specs::Reading::is_unrooted))]
fn is_unrooted(parts: &[u32]) -> bool
    requires { 2 ≤ length parts.now }
    ensures { result ≡ is_unrooted parts.now }
{
    parts[0] > 2 || parts[0] < 2 && parts[1] > 39
}

/// Reads an identifier after the count of its numbers.
#[tactic(auto, unfolding(crate::specs::Reading::oid_at))]
fn oid_at(alloc: Global, reader: &mut Reader<'_>) -> Result<Oid, ExchangeFault>
    ensures { Gives (λ oid. (oid, reader.new)) result (oid_at reader.old) }
{
    let count = within_at(2, 128, ExchangeFault::BadName, reader)?;
    let parts = sub_identifiers_at(alloc, count, reader)?;
    if is_unrooted(parts.as_slice()) {
        return Err(ExchangeFault::BadName);
    }
    Ok(Oid::from_valid(parts))
}

/// Reads samples after their count.
#[tactic(auto, unfolding(crate::specs::Reading::claimed_at))]
fn claimed_at(alloc: Global, reader: &mut Reader<'_>) -> Result<SampleList, ExchangeFault>
    ensures { Gives (λ samples. (samples, reader.new)) result (claimed_at reader.old) }
{
    let count = within_at(0, 40, ExchangeFault::NotAClaim, reader)?;
    Ok(reader.samples(alloc, count)?)
}

/// Requires that nothing is left of the octets.
#[tactic(auto, unfolding(crate::specs::Reading::all_read))]
fn require_end(reader: &Reader<'_>) -> Result<(), ExchangeFault>
    ensures { Gives (λ u. u) result (all_read reader.now (tt {0})) }
{
    if !reader.is_empty() {
        return Err(ExchangeFault::NotAClaim);
    }
    Ok(())
}

/// Reads the claim that all of the octets say.
#[tactic(auto, unfolding(crate::specs::Reading::claim_at, crate::specs::Reading::all_read))]
fn claim_at(alloc: Global, octets: &[u8]) -> Result<Claim, ExchangeFault>
    ensures { Gives (λ c. c) result (claim_at octets.now) }
{
    let mut reader = Reader::new(octets);
    version_at(&mut reader)?;
    let kind = claim_kind_at(&mut reader)?;
    let station = positive_at(&mut reader)?;
    let incarnation = positive_at(&mut reader)?;
    let serial = reader.number()?;
    let engine = engine_at(&mut reader)?;
    let name = oid_at(alloc, &mut reader)?;
    let samples = claimed_at(alloc, &mut reader)?;
    require_end(&reader)?;
    let engine = Octets::from_slice(alloc, engine)?;
    Ok(Claim {
        kind,
        station,
        incarnation,
        serial,
        engine,
        name,
        samples,
    })
}

/// Reads the claim that the octets spell, all of them. A long name, the samples and the engine id
/// take an allocation each.
///
/// # Errors
/// The first fault from the left: `NotAClaim` if the letters, the kind, the station, the
/// incarnation or the count of samples is wrong, or the octets end too early or too late;
/// `BadVersion` if the version is not 1; `BadName` if the engine id does not have 5 to 32 octets,
/// or the name is no object identifier; `BadSample` if a record is no sample's; `NotRising` if a
/// sample does not exceed the one before it; `OutOfMemory`.
pub fn read_claim(alloc: Global, octets: &[u8]) -> Result<Claim, ExchangeFault>
    // What is read is spelled.
    ensures found { IfOk result (λ c. SpellsClaim octets.now c) }
    // What is spelled is read, unless memory runs out.
    ensures only { (c : Claim) → SpellsClaim octets.now c → Gives (λ x. x) result (Ok c) }
    // The fault is the first from the left, and of reading.
    ensures fault { IfErr result (λ e. Fails e (claim_at octets.now)) }
    ensures read { IfErr result (λ e. number_of e ≤ 6) }
{
    mon_fields::laws::samples();
    claim_at(alloc, octets)
}
