use mon_ber::Octets;
use mon_oid::Oid;

/// What the agent is given at its start, and serves as it is.
#[derive(Debug)]
pub struct Settings {
    /// sysDescr (RFC 3418 section 2).
    pub descr: Octets,
    /// sysObjectID (RFC 3418 section 2).
    pub object_id: Oid,
    /// sysServices, 0 to 127 (RFC 3418 section 2).
    pub services: i32,
    /// snmpEngineID, 5 to 32 octets (RFC 3411 section 5).
    pub engine: Octets,
    /// snmpEngineBoots, 1 to 2147483647 (RFC 3411 section 5).
    pub boots: i32,
    /// snmpEngineMaxMessageSize, in octets, 484 to 8192 (RFC 3411 section 5).
    pub max_message_size: i32,
}

// By hand: where one is let go, a proof has one call and not a drop of each field.
impl Drop for Settings {
    fn drop(self) {
        let Settings {
            descr: _,
            object_id: _,
            services: _,
            engine: _,
            boots: _,
            max_message_size: _,
        } = self;
    }
}
