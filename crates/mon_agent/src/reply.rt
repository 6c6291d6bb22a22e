//! What an agent does about a datagram.

ghost use Rattle.std.specs.Prelude.{◌≡◌};
ghost use Rattle.mon_agent.specs.Silence.{number_of, name_of};

/// Why a datagram is not answered, in the order of the causes' numbers.
#[derive(Clone, Copy, Debug, PartialEq, Eq)]
pub enum Silence {
    /// The octets begin with no message; snmpInASNParseErrs counts it.
    BadMessage = 1,
    /// The message is of another version than SNMPv2c; snmpInBadVersions counts it.
    BadVersion = 2,
    /// The community is unknown; snmpInBadCommunityNames counts it.
    BadCommunity = 3,
    /// The message is no request.
    NotARequest = 4,
    /// Neither the response nor tooBig is within the limit; snmpSilentDrops counts it.
    TooBigTwice = 5,
}

impl Silence {
    /// Returns the number of the cause on a printed line.
    pub fn number(self) -> u8
        ensures { result ≡ number_of self }
    {
        self as u8
    }

    /// Returns the name of the cause on a printed line: the variant's.
    pub fn name(self) -> &'static str
        ensures { result.now ≡ name_of self }
    {
        match self {
            Silence::BadMessage => "BadMessage",
            Silence::BadVersion => "BadVersion",
            Silence::BadCommunity => "BadCommunity",
            Silence::NotARequest => "NotARequest",
            Silence::TooBigTwice => "TooBigTwice",
        }
    }
}

/// What an agent does about a datagram.
#[derive(Drop)]
pub enum Reply {
    /// It sends these octets to where the datagram came from.
    Send(Vec<u8>),
    /// It sends nothing.
    Silent(Silence),
}
