ghost use Rattle.std.specs.Prelude.{◌≡◌};
ghost use Rattle.mon_mib.specs.Counters.{counter_value, counted, no_counts};

/// What is counted of the messages that an agent receives (the snmp group, RFC 3418 section 2).
#[derive(Clone, Copy, Debug, PartialEq, Eq)]
pub enum Counter {
    /// snmpInPkts.
    InPackets,
    /// snmpInBadVersions.
    BadVersions,
    /// snmpInBadCommunityNames.
    BadCommunities,
    /// snmpInASNParseErrs.
    ParseErrors,
    /// snmpSilentDrops.
    SilentDrops,
}

/// The counters of the snmp group, each a Counter32, which goes from 4294967295 to 0 (RFC 3418
/// section 2).
#[derive(Clone, Copy, Debug, PartialEq, Eq)]
pub struct Counters {
    /// snmpInPkts: messages received.
    pub in_packets: u32,
    /// snmpInBadVersions: messages of an unsupported version.
    pub bad_versions: u32,
    /// snmpInBadCommunityNames: messages of an unknown community.
    pub bad_communities: u32,
    /// snmpInASNParseErrs: messages that could not be read.
    pub parse_errors: u32,
    /// snmpSilentDrops: requests dropped since no reply fits.
    pub silent_drops: u32,
}

impl Counters {
    /// All counters at 0.
    pub fn new() -> Self
        ensures { result ≡ no_counts }
    {
        Counters {
            in_packets: 0,
            bad_versions: 0,
            bad_communities: 0,
            parse_errors: 0,
            silent_drops: 0,
        }
    }

    /// What a counter has come to.
    pub fn value(&self, counter: Counter) -> u32
        ensures { result ≡ counter_value self.now counter }
    {
        match counter {
            Counter::InPackets => self.in_packets,
            Counter::BadVersions => self.bad_versions,
            Counter::BadCommunities => self.bad_communities,
            Counter::ParseErrors => self.parse_errors,
            Counter::SilentDrops => self.silent_drops,
        }
    }

    /// One more of one counter; the others stay.
    pub fn count(&mut self, counter: Counter)
        ensures { self.new ≡ counted self.old counter }
    {
        match counter {
            Counter::InPackets => self.in_packets = self.in_packets.wrapping_add(1),
            Counter::BadVersions => self.bad_versions = self.bad_versions.wrapping_add(1),
            Counter::BadCommunities => self.bad_communities = self.bad_communities.wrapping_add(1),
            Counter::ParseErrors => self.parse_errors = self.parse_errors.wrapping_add(1),
            Counter::SilentDrops => self.silent_drops = self.silent_drops.wrapping_add(1),
        }
    }
}
