ghost use Rattle.std.specs.Prelude.{◌≡◌};
ghost use Rattle.mon_exchange.specs.Claim.{claim_of, kind_octet};

use mon_ber::Octets;
use mon_fields::SampleList;
use mon_oid::Oid;
use mon_sample::Sample;

/// What a claim is for.
#[derive(Clone, Copy, Debug, PartialEq, Eq)]
pub enum ClaimKind {
    /// It offers samples, and asks for a confirmation.
    Offer = 1,
    /// It confirms an offer.
    Confirm = 2,
}

impl ClaimKind {
    /// The octet of the kind, 1 or 2.
    pub fn octet(self) -> u8
        ensures { result ≡ kind_octet self }
    {
        self as u8
    }
}

/// What a station says to a peer: in this incarnation it has taken these samples of an instance.
pub struct Claim {
    /// What the claim is for.
    pub kind: ClaimKind,
    /// The number of the station that claims, not 0.
    pub station: u32,
    /// Its incarnation, not 0.
    pub incarnation: u32,
    /// The number of an offer within the incarnation, which a confirmation repeats. Receivers do
    /// not use it.
    pub serial: u32,
    /// The agent's engine id, 5 to 32 octets.
    pub engine: Octets,
    /// The object's name with its instance, as in ifInOctets.1.
    pub name: Oid,
    /// At most 40 samples, each above the one before it.
    pub samples: SampleList,
}

// By hand: where one is let go, a proof has one call and not a drop of each field.
impl Drop for Claim {
    fn drop(self) {
        let Claim {
            kind: _,
            station: _,
            incarnation: _,
            serial: _,
            engine: _,
            name: _,
            samples: _,
        } = self;
    }
}

impl Claim {
    /// Lends the claim, with what it owns.
    pub fn lend(&self) -> ClaimRef
        ensures { claim_of result ≡ self.now }
    {
        ClaimRef {
            kind: self.kind,
            station: self.station,
            incarnation: self.incarnation,
            serial: self.serial,
            engine: self.engine.as_slice(),
            name: &self.name,
            samples: self.samples.as_slice(),
        }
    }
}

/// A claim whose engine id, name and samples lie elsewhere: what is written, with no copy of them.
#[derive(Clone, Copy)]
pub struct ClaimRef<'a> {
    /// What the claim is for.
    pub kind: ClaimKind,
    /// The number of the station that claims, not 0.
    pub station: u32,
    /// Its incarnation, not 0.
    pub incarnation: u32,
    /// The number of an offer within the incarnation, which a confirmation repeats.
    pub serial: u32,
    /// The agent's engine id, 5 to 32 octets.
    pub engine: &'a [u8],
    /// The object's name with its instance.
    pub name: &'a Oid,
    /// At most 40 samples, each above the one before it.
    pub samples: &'a [Sample],
}
