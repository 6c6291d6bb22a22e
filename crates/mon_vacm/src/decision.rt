use crate::denied::Denied;

/// What a policy says of a community, a need and a name (the results of isAccessAllowed, RFC 3415
/// section 3.2).
#[derive(Clone, Copy)]
pub enum Decision {
    /// The community has a view for the need, and the name is in it.
    Allowed,
    /// The community has no view for the need.
    Denied(Denied),
    /// The community has a view for the need, and the name is not in it.
    NotInView,
}
