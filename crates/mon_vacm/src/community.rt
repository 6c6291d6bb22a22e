use mon_ber::Octets;

/// A community, and the security name that it maps to (snmpCommunityTable, RFC 3584 section 5.3).
#[derive(Drop)]
pub struct Community {
    pub name: Octets,
    pub security_name: Octets,
}
