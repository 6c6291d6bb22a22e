use mon_ber::Octets;

/// A security name of model 2, and the group that it belongs to (vacmSecurityToGroupTable, RFC 3415
/// section 4).
#[derive(Drop)]
pub struct Group {
    pub security_name: Octets,
    pub group_name: Octets,
}
