//! Writing claims. Their size is known before, so that they are written within capacity that was
//! allocated before.

ghost use Rattle.std.specs.Prelude.{◌≡◌, ◌≤◌, ◌<◌, ◌+◌, ◌++◌, IfOk, length, vec_len, vec_capacity};
ghost use Rattle.std.specs.List.Sorted.{IsStrictlySortedBy};
ghost use Rattle.std.specs.Ordering.{nat_cmp};
ghost use Rattle.mon_exchange.specs.Claim.{IsClaim, IsSendable, SpellsClaim, claim_octets, claim_of};

use crate::claim::ClaimRef;
use mon_fields::{
    instance_size, put_instance, put_octet, put_octets, put_samples, put_u32, samples_size,
};
use std::alloc::{AllocError, Global};

/// How many octets the claim takes, at most 1403.
#[tactic(auto, using(crate::proofs::Claims::claim_octets_length))]
pub(crate) fn claim_size(claim: &ClaimRef) -> usize
    requires { IsSendable (claim_of claim.now) }
    ensures size { result ≡ length (claim_octets (claim_of claim.now)) }
    ensures few { result ≤ 1403 }
{
    17 + instance_size(claim.engine, claim.name) + samples_size(claim.samples)
}

/// Appends the claim. Its capacity was allocated before, so this cannot fail.
#[tactic(auto, unfolding(crate::specs::Claim::claim_octets, crate::specs::Claim::counted_samples))]
pub fn write_within(out: &mut Vec<u8>, claim: &ClaimRef)
    requires sendable { IsSendable (claim_of claim.now) }
    requires room { vec_len out.old + length (claim_octets (claim_of claim.now))
        ≤ vec_capacity out.old }
    ensures items { out.new.items ≡ out.old.items ++ claim_octets (claim_of claim.now) }
    ensures says { SpellsClaim (claim_octets (claim_of claim.now)) (claim_of claim.now) }
    ensures len { vec_len out.new ≡ vec_len out.old + length (claim_octets (claim_of claim.now)) }
    ensures capacity { vec_capacity out.old ≤ vec_capacity out.new }
{
    put_octets(out, b"MX\x01");
    put_octet(out, claim.kind.octet());
    put_u32(out, claim.station);
    put_u32(out, claim.incarnation);
    put_u32(out, claim.serial);
    put_instance(out, claim.engine, claim.name);
    put_octet(out, claim.samples.len() as u8);
    put_samples(out, claim.samples);
}

/// The octets of the claim, at most 1403, in a vector that holds no more: one allocation.
pub fn write_claim(alloc: Global, claim: &ClaimRef) -> Result<Vec<u8>, AllocError>
    requires { IsSendable (claim_of claim.now) }
    ensures { IfOk result (λ octets. SpellsClaim octets.items (claim_of claim.now)) }
{
    let mut out = Vec::with_capacity(alloc, claim_size(claim))?;
    write_within(&mut out, claim);
    Ok(out)
}
