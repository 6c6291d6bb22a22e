//! Octets that a value owns.

ghost use Rattle.std.specs.Prelude.{◌≡◌, IfOk};

use std::alloc::{AllocError, Global};
use std::marker::Model;

/// Octets of any number, which contracts see as their list.
#[derive(Debug)]
pub struct Octets {
    octets: Vec<u8>,
}

// By hand: where one is let go, a proof has one call and not a drop of each field.
impl Drop for Octets {
    #[inline(always)]
    fn drop(self) {
        let Octets { octets: _ } = self;
    }
}

impl Model for Octets {
    ghost use Rattle.std.specs.Prelude.{List, ℕ};

    ghost Value = { List ℕ };

    ghost view = { λ o. o.octets.items };
}

impl Octets {
    /// The octets of a vector, which is taken over.
    pub fn new(octets: Vec<u8>) -> Self
        ensures { result ≡ octets.items }
    {
        Octets { octets }
    }

    /// A copy of these octets.
    pub fn from_slice(alloc: Global, octets: &[u8]) -> Result<Self, AllocError>
        ensures { IfOk result (λ o. o ≡ octets.now) }
    {
        Ok(Octets::new(Vec::from_slice(alloc, octets)?))
    }

    /// The octets.
    pub fn as_slice(&self) -> &[u8]
        ensures { result.now ≡ self.now }
    {
        self.octets.as_slice()
    }

    /// The octets as a vector, with no copy.
    pub fn into_vec(self) -> Vec<u8>
        ensures { result.items ≡ self }
    {
        let Octets { octets } = self;
        octets
    }

    /// Equal octets.
    pub fn try_clone(&self, alloc: Global) -> Result<Self, AllocError>
        ensures { IfOk result (λ o. o ≡ self.now) }
    {
        Octets::from_slice(alloc, self.as_slice())
    }
}

/// Equal octets are equal lists.
impl PartialEq for Octets {
    ghost use Rattle.std.specs.Prelude.{nat_eq};
    ghost use Rattle.std.specs.Cmp.Lexicographic.{pointwise, nat_list_eq_equiv};
    ghost use Rattle.std.specs.Cmp.{partial_equiv_from_equiv};

    ghost eq = { pointwise nat_eq };

    ghost laws = { partial_equiv_from_equiv nat_list_eq_equiv };

    fn eq(&self, other: &Octets) -> bool {
        self.as_slice() == other.as_slice()
    }
}

impl Eq for Octets {
    ghost use Rattle.std.specs.Cmp.Lexicographic.{nat_list_eq_equiv};

    ghost laws = { nat_list_eq_equiv };
}
