ghost use Rattle.std.specs.Prelude.{◌≢◌, ◌^◌, ℕ, List, decimal, IfSome, IfNone, IfErr, ◌≡◌, ◌<◌, ◌≤◌, ◌↔◌, length, IfOk, IsOk, IsTrue, IsOkUnless, string_bytes};
ghost use Rattle.std.specs.Ordering.{nat_cmp};
ghost use Rattle.std.specs.Cmp.Lexicographic.{slice_cmp};
ghost use Rattle.mon_oid.specs.Oid.{IsRooted, IsOid, IsPrefix, Spells, IsFaultOfText, IsFaultOfNumbers, dotted};

use crate::fault::OidFault;
use itoa::Buffer;
use smallvec::SmallVec;
use std::alloc::{AllocError, Global};
use std::cmp::Ordering;
use std::marker::Model;

/// An object identifier: 2 to 128 sub-identifiers of 32 bits, of which the first is 0, 1 or 2
/// and the second at most 39 under 0 and 1 (RFC 2578 section 3.5, X.690 8.19.4).
/// Up to 16 sub-identifiers are held without heap memory. Contracts see their list.
#[derive(Debug)]
pub struct Oid {
    parts: SmallVec<u32, 16>,
}

// By hand: where one is let go, a proof has one call and not a drop of each field.
impl Drop for Oid {
    #[inline(always)]
    fn drop(self) {
        let Oid { parts: _ } = self;
    }
}

impl Model for Oid {
    ghost use Rattle.std.specs.Prelude.{ℕ, List};
    ghost use Rattle.mon_oid.specs.Oid.{IsOid};

    ghost Value = { List ℕ };

    ghost view = { λ o. o.parts.items };

    ghost invariant = { λ o. IsOid o.parts.items };
}

impl Oid {
    /// The fewest sub-identifiers of an identifier.
    const MIN_LEN: usize = 2;

    /// The most sub-identifiers of an identifier (RFC 2578 section 3.5).
    const MAX_LEN: usize = 128;

    /// The identifier of these sub-identifiers: `TooShort` below 2 of them, `TooLong` above 128,
    /// `BadFirst` where the first two are out of range. Up to 16 never answer `OutOfMemory`.
    pub fn from_parts(alloc: Global, parts: &[u32]) -> Result<Self, OidFault>
        ensures found { IfOk result (λ oid. IsOid oid × (oid ≡ parts.now)) }
        ensures accepted { IsOid parts.now → IsOkUnless result OidFault.OutOfMemory }
        ensures inline { IsOid parts.now → length parts.now ≤ 16 → IsOk result }
        ensures too_short { (result ≡ Err OidFault.TooShort) ↔ (length parts.now < 2) }
        ensures too_long { (result ≡ Err OidFault.TooLong) ↔ (128 < length parts.now) }
        ensures bad_first { (result ≡ Err OidFault.BadFirst)
            ↔ ((2 ≤ length parts.now) × (length parts.now ≤ 128) × ¬ (IsRooted parts.now)) }
        ensures no_text { result ≢ Err OidFault.BadText }
    {
        if parts.len() < Self::MIN_LEN {
            return Err(OidFault::TooShort);
        }
        if parts.len() > Self::MAX_LEN {
            return Err(OidFault::TooLong);
        }
        if parts[0] > 2 || parts[0] < 2 && parts[1] > 39 {
            return Err(OidFault::BadFirst);
        }
        Ok(Oid::from_valid(SmallVec::from_slice(alloc, parts)?))
    }

    /// The identifier of sub-identifiers that are known to be one. It takes the vector over.
    pub fn from_valid(parts: SmallVec<u32, 16>) -> Self
        requires { IsOid parts.items }
        ensures { result ≡ parts.items }
    {
        Oid { parts }
    }

    /// The identifier that a text spells in decimal numbers up to 4294967295 with dots between
    /// them, none with a leading 0. `BadText` where it spells no numbers, else as `from_parts`.
    pub fn parse(alloc: Global, text: &str) -> Result<Self, OidFault>
        ensures found { IfOk result (λ oid. IsOid oid × Spells text.now oid) }
        ensures accepted { (parts : List ℕ) → IsOid parts → Spells text.now parts
            → IsOkUnless result OidFault.OutOfMemory }
        ensures fault { IfErr result (λ e. IsFaultOfText e text.now) }
    {
        let numbers = dotted_numbers(alloc, text)?;
        Oid::from_parts(alloc, numbers.as_slice())
    }

    /// The sub-identifiers, 2 to 128 of them.
    pub fn parts(&self) -> &[u32]
        ensures parts { result.now ≡ self.now }
        ensures oid { IsOid self.now }
    {
        self.parts.as_slice()
    }

    /// Returns `true` if the other identifier begins with all of this one's sub-identifiers.
    pub fn is_prefix_of(&self, other: &Oid) -> bool
        ensures { IsTrue result ↔ IsPrefix self.now other.now }
    {
        other.parts().starts_with(self.parts())
    }

    /// The order of identifiers, as `cmp`: by the first sub-identifier that differs, and a proper
    /// prefix comes first (the lexicographical order of RFC 3416 section 4.2.2).
    pub fn compare(&self, other: &Oid) -> Ordering
        ensures { result ≡ slice_cmp nat_cmp self.now other.now }
    {
        self.parts().cmp(&other.parts())
    }

    /// The sub-identifiers in decimal, with dots between them.
    pub fn text(&self, alloc: Global) -> Result<String, AllocError>
        ensures { IfOk result (λ text. string_bytes text ≡ dotted self.now) }
    {
        let parts = self.parts();
        // Most numbers have up to three digits, and a dot each.
        let mut text = String::with_capacity(alloc, 4 * parts.len())?;
        for (i, part) in parts.iter().enumerate() {
            if i > 0 {
                text.push('.')?;
            }
            text.push_str(Buffer::new().format(*part))?;
        }
        Ok(text)
    }

    /// Copies the identifier. It allocates only beyond 16 sub-identifiers.
    pub fn try_clone(&self, alloc: Global) -> Result<Self, AllocError>
        ensures equal { IfOk result (λ oid. oid ≡ self.now) }
        ensures inline { length self.now ≤ 16 → IsOk result }
    {
        Ok(Oid::from_valid(SmallVec::from_slice(alloc, self.parts())?))
    }
}

/// The numbers that a text spells in decimal with dots between them: at least one, each up to
/// 4294967295, none with a leading 0. `BadText` where it spells none, or `OutOfMemory`.
pub fn dotted_numbers(alloc: Global, text: &str) -> Result<Vec<u32>, OidFault>
    ensures found { IfOk result (λ v. Spells text.now v.items) }
    ensures fault { IfErr result (λ e. IsFaultOfNumbers e text.now) }
{
    let pieces: Vec<&str> = text.split('.').collect(alloc)?;
    let mut numbers = Vec::new(alloc);
    for piece in &pieces {
        let Some(number) = number(piece) else {
            return Err(OidFault::BadText);
        };
        numbers.push(number)?;
    }
    Ok(numbers)
}

/// The number that a text spells in decimal, without a leading 0.
fn number(text: &str) -> Option<u32>
    ensures found { IfSome result (λ n. text.now ≡ decimal n) }
    ensures none { IfNone result ((n : ℕ) → n < 2 ^ 32 → text.now ≢ decimal n) }
{
    let Ok(number) = text.parse::<u32>() else {
        return None;
    };
    if Buffer::new().format(number) == text {
        Some(number)
    } else {
        None
    }
}

/// Equal identifiers have the same sub-identifiers.
impl PartialEq for Oid {
    ghost use Rattle.std.specs.Prelude.{nat_eq};
    ghost use Rattle.std.specs.Cmp.Lexicographic.{pointwise, nat_list_eq_equiv};
    ghost use Rattle.std.specs.Cmp.{partial_equiv_from_equiv};

    ghost eq = { pointwise nat_eq };

    ghost laws = { partial_equiv_from_equiv nat_list_eq_equiv };

    fn eq(&self, other: &Oid) -> bool {
        self.parts() == other.parts()
    }
}

impl Eq for Oid {
    ghost use Rattle.std.specs.Cmp.Lexicographic.{nat_list_eq_equiv};

    ghost laws = { nat_list_eq_equiv };
}

impl PartialOrd for Oid {
    ghost use Rattle.std.specs.Ordering.{nat_cmp, as_partial_cmp};
    ghost use Rattle.std.specs.Cmp.Lexicographic.{slice_cmp, texts_po};

    ghost partial_cmp = { as_partial_cmp (slice_cmp nat_cmp) };

    ghost laws = { texts_po };

    fn partial_cmp(&self, other: &Oid) -> Option<Ordering> {
        Some(self.cmp(other))
    }
}

/// By the first sub-identifier that differs. A proper prefix comes first.
impl Ord for Oid {
    ghost use Rattle.std.specs.Ordering.{nat_cmp};
    ghost use Rattle.std.specs.Cmp.Lexicographic.{slice_cmp, nat_list_cmp_total, texts_ties};
    ghost use Rattle.std.proofs.Common.{refl};

    ghost cmp = { slice_cmp nat_cmp };

    ghost total = { nat_list_cmp_total };

    ghost matches_partial_cmp = { λ _ _. refl };

    ghost matches_eq = { texts_ties };

    fn cmp(&self, other: &Oid) -> Ordering {
        self.compare(other)
    }
}
