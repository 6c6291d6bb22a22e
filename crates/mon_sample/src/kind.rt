ghost use Rattle.std.specs.Prelude.{◌≡◌, ◌≢◌, IfSome, IfNone};
ghost use Rattle.mon_sample.specs.Kind.{kind_tag, kind_at, kind_name, holds, number_of};

/// The type of a sampled value, with its BER tag: universal 2 for INTEGER, and application 1, 2, 3
/// and 6 for the others (RFC 2578 section 2).
#[derive(Clone, Copy, Debug, PartialEq, Eq)]
pub enum Kind {
    /// A signed number of 32 bits (RFC 2578 section 7.1.1).
    Integer = 0x02,
    /// A number that grows and wraps at 2^32 (RFC 2578 section 7.1.6).
    Counter32 = 0x41,
    /// A number that may fall, of 32 bits (RFC 2578 section 7.1.7).
    Gauge32 = 0x42,
    /// Hundredths of a second, modulo 2^32 (RFC 2578 section 7.1.8).
    TimeTicks = 0x43,
    /// A number that grows and wraps at 2^64 (RFC 2578 section 7.1.10).
    Counter64 = 0x46,
}

impl Kind {
    /// The BER tag of the kind, as one octet (X.690 8.1.2).
    pub fn tag(self) -> u8
        ensures { result ≡ kind_tag self }
    {
        self as u8
    }

    /// The kind of this tag, or `None` where the tag is of no sampled kind.
    #[tactic(auto, unfolding(crate::specs::Kind::kind_at))]
    pub fn from_tag(tag: u8) -> Option<Kind>
        ensures found { IfSome result (λ kind. kind ≡ kind_at tag) }
        ensures tag { IfSome result (λ kind. kind_tag kind ≡ tag) }
        ensures none { IfNone result (kind_tag (kind_at tag) ≢ tag) }
    {
        match tag {
            0x02 => Some(Kind::Integer),
            0x41 => Some(Kind::Counter32),
            0x42 => Some(Kind::Gauge32),
            0x43 => Some(Kind::TimeTicks),
            0x46 => Some(Kind::Counter64),
            _ => None,
        }
    }

    /// The name of the type, as RFC 2578 section 2 spells it; for INTEGER it is `Integer`.
    pub fn name(self) -> &'static str
        ensures { result.now ≡ kind_name self }
    {
        match self {
            Kind::Integer => "Integer",
            Kind::Counter32 => "Counter32",
            Kind::Gauge32 => "Gauge32",
            Kind::TimeTicks => "TimeTicks",
            Kind::Counter64 => "Counter64",
        }
    }

    /// Returns `true` if a value of this kind can be `value`. A negative INTEGER is given as the 64
    /// bits of its two's complement.
    pub fn holds(self, value: u64) -> bool
        ensures { result ≡ holds self value }
    {
        match self {
            Kind::Integer => value < 1 << 31 || value >= u64::MAX - ((1 << 31) - 1),
            Kind::Counter32 | Kind::Gauge32 | Kind::TimeTicks => value < 1 << 32,
            Kind::Counter64 => true,
        }
    }

    /// The number that a value of this kind means: of an INTEGER it is signed.
    pub fn number(self, value: u64) -> i128
        ensures { result ≡ number_of self value }
    {
        match self {
            Kind::Integer => i128::from(value.cast_signed()),
            Kind::Counter32 | Kind::Gauge32 | Kind::TimeTicks | Kind::Counter64 => i128::from(
                value,
            ),
        }
    }
}
