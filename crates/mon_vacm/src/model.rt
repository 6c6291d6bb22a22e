/// The security model that an access entry is for, by its number (SnmpSecurityModel, RFC 3411
/// section 5).
#[derive(Clone, Copy, Debug, PartialEq, Eq)]
pub enum SecurityModel {
    /// Every model.
    Any = 0,
    /// SNMPv2c, the model of each request here.
    V2c = 2,
}
